// Enum `Event`, what happens at a hart and changes what its accesses may do.

use sv39_entry::{Satp, Va};
use walk_rules::PmpEntry;

/// An event of a hart's history. That a hart caches a page table entry, or drops it, is none.
#[derive(Clone, Copy)]
pub enum Event {
    /// A word of memory changes: by a store of this hart, of another one or of a device, or by an update of A and D.
    Store {
        /// The physical page number of its frame.
        ppn: u64,
        /// Which of the 512 words of the frame it is.
        index: usize,
        word: u64,
    },
    /// satp is written, with a MODE that the hart has.
    WriteSatp(Satp),
    /// The registers of a PMP entry that is not locked are written.
    WritePmp {
        number: usize,
        entry: PmpEntry,
    },
    /// SFENCE.VMA (RISC-V Privileged Architecture 20211203, 4.2.1): the address in rs1 and the ASID in rs2, `None` for x0.
    Fence {
        va: Option<Va>,
        asid: Option<u16>,
    },
}
