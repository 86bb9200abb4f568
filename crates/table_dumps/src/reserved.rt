// `Reserved`: why a page table entry (PTE) with V is invalid to a walk; and `reserved_findings`, which looks at each word of each table.

use crate::dump::Dump;
use crate::findings::{Finding, Findings, Reason};
use crate::listing::ValidEntry;
use crate::space::Space;
use crate::tables::Table;
use sv39_entry::{Entry, EntryFlags, Kind};
use walk_rules::Extensions;

/// Why a PTE with V is invalid to a walk (RISC-V Privileged Architecture 20211203, "the standard", 4.3.2, step 3; 4.4.1; chapters 5 and 6).
#[derive(Clone, Copy, PartialEq, Eq)]
pub enum Reserved {
    /// W is set and R is not.
    WriteWithoutRead,
    /// One of bits 60 to 54 is set.
    UpperBits,
    /// N, bit 63, is set: without Svnapot, in a pointer, at a level above 0, or in another form than that of 64 KiB.
    Napot,
    /// PBMT, bits 62 and 61, is set: without Svpbmt, in a pointer, or both bits are.
    MemoryType,
    /// U, A or D is set in a pointer.
    PointerFlags,
    /// A pointer of level 0, below which there is no table.
    NoTableBelow,
}

impl Reserved {
    /// Returns its text.
    pub fn text(self) -> &'static str {
        match self {
            Reserved::WriteWithoutRead => "W without R",
            Reserved::UpperBits => "a bit of 60 to 54",
            Reserved::Napot => "N, bit 63",
            Reserved::MemoryType => "PBMT, bits 62 and 61",
            Reserved::PointerFlags => "U, A or D in a pointer",
            Reserved::NoTableBelow => "a pointer of level 0",
        }
    }
}

/// Returns why a PTE with V, which is invalid at its level, is so.
fn reserved_of(extensions: Extensions, entry: Entry, level: u32) -> Reserved {
    let word = entry.to_word();
    let pbmt = (word >> 61) % 4;
    let is_leaf = entry.has(EntryFlags::READ) || entry.has(EntryFlags::EXECUTE);
    if entry.has(EntryFlags::WRITE) && !entry.has(EntryFlags::READ) {
        Reserved::WriteWithoutRead
    } else if (word >> 54) % 128 != 0 {
        Reserved::UpperBits
    } else if pbmt != 0 && (!extensions.svpbmt || pbmt == 3 || !is_leaf) {
        Reserved::MemoryType
    } else if word >= 1 << 63 {
        Reserved::Napot
    } else if level == 0 && !is_leaf {
        Reserved::NoTableBelow
    } else {
        Reserved::PointerFlags
    }
}

/// Returns the finding about the word at a place of a table, if it has V and is invalid.
fn reserved_at(
    dump: &Dump<'_>,
    extensions: Extensions,
    table: &Table,
    at: ValidEntry,
) -> Option<Finding> {
    let word = dump.word(at.table, at.index.min(511))?;
    let entry = Entry::from_word(word);
    if !entry.has(EntryFlags::VALID) || extensions.kind(entry, at.level) != Kind::Invalid {
        return None;
    }
    let found = ValidEntry { word, ..at };
    let reason = Reason::Reserved(reserved_of(extensions, entry, at.level));
    Some(Finding::of(reason, table.subject.at(found)))
}

/// Appends findings about the words of a table that have V and are invalid.
fn of_table(dump: &Dump<'_>, extensions: Extensions, table: &Table, found: &mut Findings) {
    let mut at = ValidEntry {
        level: table.level,
        table: table.number,
        index: 0,
        page: table.page,
        word: 0,
    };
    for index in 0..512 {
        at.index = index;
        if let Some(finding) = reserved_at(dump, extensions, table, at) {
            found.add(finding);
        }
        at.page = at.page.wrapping_add(at.pages());
    }
}

/// Appends findings about each PTE of a space's tables that has V and is invalid to a walk.
pub fn reserved_findings(
    dump: &Dump<'_>,
    extensions: Extensions,
    number: usize,
    space: &Space,
    found: &mut Findings,
) {
    let root = Table::root(number, space);
    of_table(dump, extensions, &root, found);
    for entry in &space.entries {
        if let Some(table) = root.below(extensions, *entry) {
            of_table(dump, extensions, &table, found);
        }
    }
}
