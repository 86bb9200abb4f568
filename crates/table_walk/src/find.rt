// `lookup`: the page table walk of Sv39 and Sv48 for a virtual address, from a root to a leaf, before rights are judged
// (RISC-V Privileged Architecture 20211203, 4.3.2, steps 1 to 4 and 6). Its result is a `Found`.

ghost use Rattle.std.specs.Prelude.{◌≡◌, true};
ghost use Rattle.sv39_entry.specs.Address.{page_of};
ghost use Rattle.sv39_entry.specs.Schemes.{is_canonical, top_level};
ghost use Rattle.table_walk.specs.Walk.{CanWalk, Finds};

use crate::leaf::is_aligned;
use crate::walk::Found;
use crate::words::Words;
use sv39_entry::{Entry, EntryFlags, Kind, Scheme, Va};

/// Walks the tables below the root with physical page number `root`, and returns what it finds for a virtual address,
/// whatever the rights (the standard, 4.3.2, steps 1 to 4 and 6): `Leaf`; `Outside` if a word of a table on the way lies
/// outside the memory; else `NoLeaf`, also if the address is not canonical. Each table on the way must be readable
/// (`Words::readable`). Inlined, so that what the walk finds need not go through memory.
#[inline(always)]
pub fn lookup<M: Words>(words: &mut M, scheme: Scheme, root: u64, va: Va) -> Found
    requires { CanWalk scheme (M.readable words.old) (M.memory words.old) root (page_of va.0) }
    ensures found { Finds scheme (M.memory words.old) root va.0 result }
    ensures stays { M.stays words.old words.new }
{
    if !scheme.is_canonical(va) {
        return Found::NoLeaf;
    }
    match scheme {
        Scheme::Sv39 => lookup_from::<M, 2>(words, scheme, root, va),
        Scheme::Sv48 => lookup_from::<M, 3>(words, scheme, root, va),
    }
}

/// `lookup` of a canonical address. The level of the root's entries is a constant of the call, so that the walk of each
/// scheme is compiled for itself, with as many steps as it has levels.
#[inline(always)]
fn lookup_from<M: Words, const TOP: u32>(words: &mut M, scheme: Scheme, root: u64, va: Va) -> Found
    requires walk { CanWalk scheme (M.readable words.old) (M.memory words.old) root (page_of va.0) }
    requires canonical { is_canonical scheme va.0 ≡ true }
    requires top { top_level scheme ≡ TOP }
    ensures found { Finds scheme (M.memory words.old) root va.0 result }
    ensures stays { M.stays words.old words.new }
{
    let page = va.page();
    let mut table = root;
    let mut global = false;
    'levels: for level in (0..=TOP).rev() {
        let Some(word) = words.word(table, page.index(level)) else {
            return Found::Outside;
        };
        let entry = Entry::from_word(word);
        global |= entry.has(EntryFlags::GLOBAL);
        match entry.kind() {
            Kind::Invalid => return Found::NoLeaf,
            Kind::Pointer => table = entry.ppn(),
            Kind::Leaf => {
                if is_aligned(entry, level) {
                    return Found::Leaf {
                        word,
                        level,
                        global,
                    };
                }
                return Found::NoLeaf;
            }
        }
    }
    Found::NoLeaf
}
