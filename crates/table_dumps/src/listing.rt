// `list_table`: appends the valid page table entries (PTEs) of a table and of those below it, in the order of their pages; and `ValidEntry`, one
// of them.

ghost use Rattle.std.specs.Prelude.{◌≡◌, ◌++◌, ◌∷◌, [], ◌+◌, ◌*◌, ◌^◌, ◌<◌, ◌≤◌, length, suc, Err, OnOk};
ghost use Rattle.table_dumps.specs.Below.{listed, listed_at};
ghost use Rattle.table_dumps.specs.Dumps.{dump_memory};
ghost use Rattle.table_dumps.specs.Listings.{extended, first_address, page_limit};
ghost use Rattle.table_dumps.specs.declared.listing.TheConstants.{MOST_PTES};
ghost use Rattle.table_dumps.specs.declared.listing.SpaceError.TheVariants.{NoTables, TooMany};

use crate::dump::Dump;
use std::alloc::AllocError;
use std::fmt;
use sv39_entry::{Entry, Kind, PAGE_SIZE, Va};
use walk_rules::Extensions;

/// The most valid PTEs of one address space that are listed. Tables may point to one another in a circle of levels, so that a dump of a few pages
/// may have 2^36 mappings.
pub const MOST_PTES: usize = 1 << 22;

/// Why an address space is not listed.
#[derive(Clone, Copy)]
pub enum SpaceError {
    /// MODE of satp is Bare, or reserved: there are no tables.
    NoTables,
    /// There are more than `MOST_PTES` valid PTEs.
    TooMany,
    /// The host is out of memory.
    Memory,
}

impl fmt::Display for SpaceError {
    fn fmt<W: fmt::Write>(&self, f: &mut fmt::Formatter<W>) -> fmt::Result {
        match self {
            SpaceError::NoTables => write!(f, "MODE of satp is neither Sv39, Sv48 nor Sv57"),
            SpaceError::TooMany => write!(f, "its tables have more than 4194304 valid entries"),
            SpaceError::Memory => write!(f, "out of memory"),
        }
    }
}

impl From<AllocError> for SpaceError {
    ghost use Rattle.std.specs.Prelude.{◌≡◌};
    ghost use Rattle.table_dumps.specs.declared.listing.SpaceError.TheVariants.{Memory};

    ghost from_gives = { λ e result. result ≡ Memory };

    fn from(_error: AllocError) -> SpaceError {
        SpaceError::Memory
    }
}

/// A valid page table entry (PTE), and where it is.
#[derive(Clone, Copy)]
pub struct ValidEntry {
    /// The level of the table: 4 to 0, that of the root being 2 under Sv39, 3 under Sv48 and 4 under Sv57.
    pub level: u32,
    /// The physical page number of the table.
    pub table: u64,
    /// The index of the PTE in the table, 0 to 511.
    pub index: usize,
    /// The number of the first page that the PTE maps or leads to, by its table indices alone: below 2^27 under Sv39, 2^36 under Sv48 and
    /// 2^45 under Sv57. Its indices below `level` are 0.
    pub page: u64,
    /// The PTE's word.
    pub word: u64,
}

impl ValidEntry {
    /// Returns how many pages of 4,096 bytes the PTE maps or leads to: 512^level.
    pub fn pages(self) -> u64
        ensures value { self.level ≤ 4 → result ≡ 512 ^ self.level }
        ensures few { result ≤ 512 ^ 4 }
    {
        pages_of(self.level.min(4))
    }

    /// Returns the physical address of the PTE.
    pub fn place(self) -> u64 {
        (self.table << 12) | ((self.index as u64) << 3)
    }

    /// Returns the first virtual address that the PTE maps or leads to, sign-extended to 64 bits, so canonical (the standard, 4.4.1, 4.5.1 and
    /// 4.6.1), where the root's PTEs have level `top`, 2 to 4.
    pub fn first_address(self, top: u32) -> Va
        ensures value { top ≤ 4 → self.page < page_limit top → result.0 ≡ first_address top self.page }
    {
        let limit = pages_of(top.min(4)) * 512;
        extended(self.page % limit, limit)
    }
}

/// Returns the first address of a page below a limit, an even number of pages: sign-extended if it is in the upper half.
fn extended(page: u64, limit: u64) -> Va
    requires low { page < limit }
    requires few { limit ≤ 2 ^ 45 }
    ensures { result.0 ≡ extended limit page }
{
    if 2 * page < limit {
        Va(page * PAGE_SIZE)
    } else {
        Va(u64::MAX - ((limit - page) * PAGE_SIZE - 1))
    }
}

/// Appends the valid PTEs of a table, which have level `level`, and those of the tables below it, each pointer before the PTEs of its table.
/// The first page of the table's index 0 is `first`.
///
/// # Errors
/// `TooMany`, `Memory`.
#[cycle(listing)]
pub(crate) fn list_table(
    dump: &Dump<'_>,
    extensions: Extensions,
    entries: &mut Vec<ValidEntry>,
    table: u64,
    level: u32,
    first: u64,
) -> Result<(), SpaceError>
    requires low { level ≤ 4 }
    requires room { first + 512 * 512 ^ level ≤ 2 ^ 45 }
    ensures listed { OnOk result (entries.new.items ≡ entries.old.items ++ listed extensions (dump_memory dump.now) (suc level) first table) }
    ensures many { result ≡ Err TooMany → MOST_PTES < length (entries.old.items ++ listed extensions (dump_memory dump.now) (suc level) first table) }
    ensures tables { result ≡ Err NoTables → ⊥ }
{
    'indices: for index in 0..512 {
        list_entry(dump, extensions, entries, table, level, first, index)?;
    }
    Ok(())
}

/// `list_table` for one index of the table.
#[cycle(listing)]
fn list_entry(
    dump: &Dump<'_>,
    extensions: Extensions,
    entries: &mut Vec<ValidEntry>,
    table: u64,
    level: u32,
    first: u64,
    index: usize,
) -> Result<(), SpaceError>
    requires low { level ≤ 4 }
    requires room { first + 512 * 512 ^ level ≤ 2 ^ 45 }
    requires in_table { index < 512 }
    ensures listed { OnOk result (entries.new.items ≡ entries.old.items ++ listed_at extensions (dump_memory dump.now) level first table index) }
    ensures many { result ≡ Err TooMany → MOST_PTES < length (entries.old.items ++ listed_at extensions (dump_memory dump.now) level first table index) }
    ensures tables { result ≡ Err NoTables → ⊥ }
{
    let Some(word) = dump.word(table, index) else {
        return Ok(());
    };
    let entry = Entry::from_word(word);
    let page = first + index as u64 * pages_of(level);
    let valid = ValidEntry {
        level,
        table,
        index,
        page,
        word,
    };
    match extensions.kind(entry, level) {
        Kind::Invalid => Ok(()),
        Kind::Leaf => push(entries, valid),
        Kind::Pointer => {
            push(entries, valid)?;
            list_table(dump, extensions, entries, entry.ppn(), level - 1, page)
        }
    }
}

/// Appends a PTE, if there are not too many.
fn push(entries: &mut Vec<ValidEntry>, valid: ValidEntry) -> Result<(), SpaceError>
    ensures pushed { OnOk result (entries.new.items ≡ entries.old.items ++ valid ∷ []) }
    ensures many { result ≡ Err TooMany → MOST_PTES ≤ length entries.old.items }
    ensures tables { result ≡ Err NoTables → ⊥ }
{
    if entries.len() >= MOST_PTES {
        return Err(SpaceError::TooMany);
    }
    match entries.push(valid) {
        Ok(()) => Ok(()),
        Err(e) => Err(AllocError::from(e).into()),
    }
}

/// Returns how many pages of 4,096 bytes a PTE of this level maps or leads to: 512^level.
#[tactic(auto, using(std::proofs::lemmas::Nat::one_shl))]
pub(crate) fn pages_of(level: u32) -> u64
    requires { level ≤ 4 }
    ensures value { result ≡ 512 ^ level }
    ensures some { 1 ≤ result }
    ensures few { result ≤ 512 ^ 4 }
{
    1 << (9 * level)
}
