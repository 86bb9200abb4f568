// `table_entries`: the valid page table entries below a root, in the order of their pages; and `TableEntry`, one of them.

ghost use Rattle.std.specs.Prelude.{◌≡◌, ◌++◌, ◌+◌, ◌*◌, ◌^◌, ◌<◌, ◌≤◌, ℕ, suc, true, IfOk, OnOk};
ghost use Rattle.sv39_entry.specs.Address.{page_of, page_offset};
ghost use Rattle.sv39_entry.specs.Schemes.{is_canonical, low_page};
ghost use Rattle.table_walk.specs.Walk.{CanWalk};
ghost use Rattle.walk_lines.specs.Below.{CanList, listed, listed_at};
ghost use Rattle.walk_lines.specs.Listings.{first_address, IsListing};

use std::alloc::{AllocError, Global};
use sv39_entry::{Entry, Kind, PAGE_SIZE, Scheme, Va};
use table_walk::Words;

/// A valid page table entry, and where it is.
#[derive(Clone, Copy)]
pub struct TableEntry {
    /// The level of the table: 3 to 0, that of the root being 2 under Sv39 and 3 under Sv48.
    pub level: u32,
    /// The physical page number of the table.
    pub table: u64,
    /// The index of the entry in the table, 0 to 511.
    pub index: usize,
    /// The number of the first page that the entry maps or leads to, by its table indices alone, so below 2^27 under Sv39 and
    /// 2^36 under Sv48. Its indices below `level` are 0.
    pub page: u64,
    /// The entry's word.
    pub word: u64,
}

impl TableEntry {
    /// Returns the first virtual address that the entry maps or leads to, sign-extended to 64 bits, so canonical (RISC-V
    /// Privileged Architecture 20211203, 4.4.1 and 4.5.1). Only the bits of the scheme's table indices count in `page`.
    pub fn first_address(self, scheme: Scheme) -> Va
        ensures value { result.0 ≡ first_address scheme self.page }
        ensures canonical { is_canonical scheme result.0 ≡ true }
        ensures page { low_page scheme (page_of result.0) ≡ low_page scheme self.page }
        ensures first { page_offset result.0 ≡ 0 }
    {
        let limit = scheme.page_limit();
        let low = self.page % limit;
        if low < limit / 2 {
            Va(low * PAGE_SIZE)
        } else {
            Va(u64::MAX - ((limit - low) * PAGE_SIZE - 1))
        }
    }
}

/// Returns every valid page table entry, leaf or pointer, of the root table and of the tables that pointers lead to from it
/// (RISC-V Privileged Architecture 20211203, 4.3.2), in ascending order of first page, a pointer before the entries of its
/// table. A pointer of level 0 is listed; it leads to no table. What is invalid to a walk is left out (`Kind::Invalid`; own
/// choice: `vmprint` of MIT 6.1810, the page table lab of 2024, tests V alone).
/// Each table on the way to any page must be readable (`Words::readable`).
///
/// # Errors
/// `AllocError`: host memory was refused.
pub fn table_entries<M: Words>(
    alloc: Global,
    words: &mut M,
    scheme: Scheme,
    root: u64,
) -> Result<Vec<TableEntry>, AllocError>
    requires { (page : ℕ) → CanWalk scheme (M.readable words.old) (M.memory words.old) root page }
    ensures listing { IfOk result (λ entries. IsListing scheme (M.memory words.old) root entries.items) }
    ensures stays { M.stays words.old words.new }
{
    let mut entries = Vec::new(alloc);
    list_table(words, &mut entries, root, scheme.top_level(), 0)?;
    Ok(entries)
}

/// Appends the valid entries of a table, which have level `level`, and those of the tables below it, each pointer before the
/// entries of its table. The first page of the table's index 0 is `first`.
#[cycle(listing)]
fn list_table<M: Words>(
    words: &mut M,
    entries: &mut Vec<TableEntry>,
    table: u64,
    level: u32,
    first: u64,
) -> Result<(), AllocError>
    requires low { level ≤ 3 }
    requires room { first + 512 * 512 ^ level ≤ 2 ^ 36 }
    requires readable { CanList (M.readable words.old) (M.memory words.old) (suc level) table }
    ensures listed { OnOk result (entries.new.items ≡ entries.old.items ++ listed (M.memory words.old) (suc level) first table) }
    ensures stays { M.stays words.old words.new }
{
    'indices: for index in 0..512 {
        list_entry(words, entries, table, level, first, index)?;
    }
    Ok(())
}

/// `list_table` for one index of the table.
#[cycle(listing)]
fn list_entry<M: Words>(
    words: &mut M,
    entries: &mut Vec<TableEntry>,
    table: u64,
    level: u32,
    first: u64,
    index: usize,
) -> Result<(), AllocError>
    requires low { level ≤ 3 }
    requires room { first + 512 * 512 ^ level ≤ 2 ^ 36 }
    requires in_table { index < 512 }
    requires readable { CanList (M.readable words.old) (M.memory words.old) (suc level) table }
    ensures listed { OnOk result (entries.new.items ≡ entries.old.items ++ listed_at (M.memory words.old) level first table index) }
    ensures stays { M.stays words.old words.new }
{
    let Some(word) = words.word(table, index) else {
        return Ok(());
    };
    let entry = Entry::from_word(word);
    let page = first + index as u64 * pages_of(level);
    let valid = TableEntry {
        level,
        table,
        index,
        page,
        word,
    };
    match entry.kind() {
        Kind::Invalid => Ok(()),
        Kind::Leaf => {
            entries.push(valid)?;
            Ok(())
        }
        Kind::Pointer => {
            entries.push(valid)?;
            if level == 0 {
                return Ok(());
            }
            list_table(words, entries, entry.ppn(), level - 1, page)
        }
    }
}

/// Returns how many pages an entry of this level maps or leads to.
#[tactic(auto, using(std::proofs::lemmas::Nat::one_shl))]
fn pages_of(level: u32) -> u64
    requires { level ≤ 3 }
    ensures value { result ≡ 512 ^ level }
    ensures few { result ≤ 512 ^ 3 }
{
    1 << (9 * level)
}
