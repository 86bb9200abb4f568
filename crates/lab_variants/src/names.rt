// `Lab`: a lab, by its number in the documents and by its name.

/// A lab.
#[derive(Clone, Copy)]
pub enum Lab {
    PageTables,
    Traps,
    LazyGrowth,
    CopyOnWrite,
    Mmap,
    StaleEntries,
}

/// The labs, in the order in which they are done.
pub static LABS: [Lab; 6] = [
    Lab::PageTables,
    Lab::Traps,
    Lab::LazyGrowth,
    Lab::CopyOnWrite,
    Lab::Mmap,
    Lab::StaleEntries,
];

impl Lab {
    /// Returns its name: that of its script, `labs/NAME.script`.
    pub fn name(self) -> &'static str {
        match self {
            Lab::PageTables => "page_tables",
            Lab::Traps => "traps",
            Lab::LazyGrowth => "lazy_growth",
            Lab::CopyOnWrite => "copy_on_write",
            Lab::Mmap => "mmap",
            Lab::StaleEntries => "stale_entries",
        }
    }

    /// Returns the lab of this name.
    pub fn of_name(name: &str) -> Option<Lab> {
        for lab in LABS.as_slice() {
            if lab.name() == name {
                return Some(*lab);
            }
        }
        None
    }

    /// Returns what the handout calls it, and the path of its page.
    pub(crate) fn title(self) -> &'static str {
        match self {
            Lab::PageTables => "Lab 1, page tables. docs/labs/1-page-tables.md",
            Lab::Traps => "Lab 2, traps. docs/labs/2-traps.md",
            Lab::LazyGrowth => "Lab 3, lazy growth. docs/labs/3-lazy-growth.md",
            Lab::CopyOnWrite => "Lab 4, copy-on-write fork. docs/labs/4-copy-on-write.md",
            Lab::Mmap => "Lab 5, mmap. docs/labs/5-mmap.md",
            Lab::StaleEntries => "Lab 6, stale entries and ASIDs. docs/labs/6-stale-entries.md",
        }
    }
}
