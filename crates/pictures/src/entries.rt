// `EntryView`: a valid entry of a page table, as it is shown.

ghost use Rattle.std.specs.Prelude.{◌≡◌};
ghost use Rattle.pictures.specs.Entries.{entry_view};

use serde::Serialize;
use sv39_entry::{Entry, Scheme};
use walk_lines::{Flags, Hex, TableEntry};

/// An entry of a page table, as it is shown.
#[derive(Clone, Copy, Serialize)]
pub struct EntryView {
    /// The level of its table.
    pub level: u32,
    /// The physical page number of its table, and its index there.
    pub table: Hex,
    pub index: usize,
    /// The first address that it maps or leads to.
    pub address: Hex,
    pub flags: Flags,
    /// The physical page number of the page or the table to which it leads.
    pub ppn: Hex,
}

impl EntryView {
    /// Returns an entry of a scheme's page table as it is shown.
    pub fn of(scheme: Scheme, entry: TableEntry) -> EntryView
        ensures { result ≡ entry_view scheme entry }
    {
        EntryView {
            level: entry.level,
            table: Hex(entry.table),
            index: entry.index,
            address: Hex(entry.first_address(scheme).0),
            flags: Flags(entry.word),
            ppn: Hex(Entry::from_word(entry.word).ppn()),
        }
    }
}
