// How many frames are free and held, as `audit` answers it: `Counts`.

/// The bytes of a page.
pub const PAGE: u64 = 4096;

/// The trampoline's page, and below it the trapframe's: mappings end below that.
pub const TRAMPOLINE: u64 = 0x3f_ffff_f000;

pub const TRAPFRAME: u64 = 0x3f_ffff_e000;

/// The frames of a process beside its pages and its page tables of the lowest level below 1 GiB: the root, two tables of the middle
/// level, that of the lowest for trampoline and trapframe, and the trapframe.
const EACH_PROCESS: u64 = 5;

/// How many pages a page table of the lowest level maps.
const PAGES_OF_TABLE: u64 = 512;

/// From how many frames on the kernel takes another page table.
const MANY_FRAMES: u64 = 513;

/// The answer to an audit, of a machine with at most one process: if there is one, the trampoline's frame is shared, and it is the one
/// reference more than there are held frames.
#[derive(Clone, Copy)]
pub struct Counts {
    frames: u64,
    pub held: u64,
}

impl Counts {
    /// Returns the counts after boot.
    pub fn of_boot(frames: u64, slots: u64) -> Counts {
        let more = if frames >= MANY_FRAMES { 1u64 } else { 0u64 };
        Counts {
            frames,
            held: slots.saturating_add(6).saturating_add(more),
        }
    }

    /// Returns the counts after the start of a process, whose pages, one at least, are numbered from `first` on, below 1 GiB.
    pub fn with_process(self, first: u64, pages: u64) -> Counts {
        let last = first.saturating_add(pages.saturating_sub(1));
        let tables = (last / PAGES_OF_TABLE).saturating_sub(first / PAGES_OF_TABLE);
        let process = pages
            .saturating_add(tables)
            .saturating_add(1 + EACH_PROCESS);
        Counts {
            held: self.held.saturating_add(process),
            ..self
        }
    }

    /// Returns the counts after one more page has a frame, of a process whose last page was numbered `last`, below 1 GiB: a page table is
    /// taken too, if they have none in common.
    pub fn with_page(self, last: u64, page: u64) -> Counts {
        let table = if page / PAGES_OF_TABLE == last / PAGES_OF_TABLE {
            0u64
        } else {
            1u64
        };
        Counts {
            held: self.held.saturating_add(1).saturating_add(table),
            ..self
        }
    }

    /// Returns how many frames are free.
    pub fn free(self) -> u64 {
        self.frames.saturating_sub(self.held)
    }

    /// Returns how many references there are while there is a process.
    pub fn references(self) -> u64 {
        self.held.saturating_add(1)
    }
}
