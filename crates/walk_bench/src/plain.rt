// `plain_walk`: the walk of Sv39 for user loads in plain code, without contracts, to compare speed with (RISC-V Privileged
// Architecture 20211203, 4.3.2 and 4.4.1).

/// Translates a virtual address for a user load, by the tables below the root at this PPN, and returns the physical address.
/// `None`: a page fault, or the walk or its result lies outside of memory.
pub(crate) fn plain_walk(words: &[u64], root: u64, address: u64) -> Option<u64> {
    let high = address >> 38;
    if high != 0 && high != 0x3ffffff {
        return None;
    }
    let mut table = root;
    for level in (0..3u32).rev() {
        let word = word_at(words, table, (address >> (12 + 9 * level)) % 512)?;
        let (valid, read, write, execute) = (
            word & 1 != 0,
            word & 2 != 0,
            word & 4 != 0,
            word & 8 != 0,
        );
        if word >> 54 != 0 || !valid || (write && !read) {
            return None;
        }
        let ppn = (word >> 10) % (1 << 44);
        if !read && !write && !execute {
            if word & 0xd0 != 0 {
                return None;
            }
            table = ppn;
            continue;
        }
        if ppn % (1 << (9 * level)) != 0 || word & 0x52 != 0x52 {
            return None;
        }
        let physical = ppn * 4096 + address % (1 << (12 + 9 * level));
        word_at(words, physical / 4096, physical % 4096 / 8)?;
        return Some(physical);
    }
    None
}

/// Returns the word at an index of a physical page. `None`: it is outside of memory.
fn word_at(words: &[u64], ppn: u64, index: u64) -> Option<u64> {
    let frame = ppn.checked_sub(0x80000)?;
    words
        .get(frame.checked_mul(512)?.checked_add(index)? as usize)
        .copied()
}
