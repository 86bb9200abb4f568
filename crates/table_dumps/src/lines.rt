// The lines of an address space: `SpaceLine`, its satp; and `TablesLine` and `EntryLine`, its page tables as `vmprint` of MIT 6.1810 prints them (the
// page table lab of 2024).

use crate::listing::ValidEntry;
use std::fmt;
use sv39_entry::{Entry, Satp};

/// Returns the name of a scheme, by the level of the root's PTEs.
pub fn scheme_name(top: u32) -> &'static str {
    match top {
        2 => "sv39",
        3 => "sv48",
        _ => "sv57",
    }
}

/// The line of an address space.
#[derive(Clone, Copy)]
pub struct SpaceLine {
    /// Its number, in the order of the command line, from 0.
    pub number: usize,
    pub satp: Satp,
    /// The level of the root's PTEs.
    pub top: u32,
}

/// For example `space 0: satp 0x8000000000080017 (sv39, ASID 0, root 0x80017)`.
impl fmt::Display for SpaceLine {
    fn fmt<W: fmt::Write>(&self, f: &mut fmt::Formatter<W>) -> fmt::Result {
        let (number, scheme) = (self.number, scheme_name(self.top));
        let (word, asid, root) = (self.satp.to_word(), self.satp.asid(), self.satp.ppn());
        write!(
            f,
            "space {number}: satp 0x{word:x} ({scheme}, ASID {asid}, root 0x{root:x})"
        )
    }
}

/// The first line of a listing of page tables: `page table `, and the physical address of the root table.
#[derive(Clone, Copy)]
pub struct TablesLine {
    /// The physical page number of the root table.
    pub root: u64,
}

impl fmt::Display for TablesLine {
    fn fmt<W: fmt::Write>(&self, f: &mut fmt::Formatter<W>) -> fmt::Result {
        let address = self.root << 12;
        write!(f, "page table 0x{address:016x}")
    }
}

/// The line of a PTE in a listing: ` ..` for the root's level, and once more for each level below; the first virtual address that the PTE
/// maps or leads to; `pte` and its word; `pa` and the physical address of the frame that it names.
#[derive(Clone, Copy)]
pub struct EntryLine {
    /// The level of the root's PTEs.
    pub top: u32,
    pub entry: ValidEntry,
}

impl fmt::Display for EntryLine {
    fn fmt<W: fmt::Write>(&self, f: &mut fmt::Formatter<W>) -> fmt::Result {
        let entry = self.entry;
        let dots = dots(self.top.saturating_sub(entry.level));
        let (address, word) = (entry.first_address(self.top).0, entry.word);
        let physical = Entry::from_word(word).ppn() << 12;
        write!(
            f,
            "{dots}0x{address:016x}: pte 0x{word:016x} pa 0x{physical:016x}"
        )
    }
}

/// Returns ` ..` for the root's PTEs, and once more for each level of `depth` below it.
fn dots(depth: u32) -> &'static str {
    match depth {
        0 => " ..",
        1 => " .. ..",
        2 => " .. .. ..",
        3 => " .. .. .. ..",
        _ => " .. .. .. .. ..",
    }
}
