// Struct `Request`, an access as a hart makes it. Enum `Outcome`, what comes of it; struct `Update`, a page table entry that the hart writes for it.

use sv39_entry::{Access, Va};
use walk_rules::{MemoryType, Privilege, Status};

/// An access of a hart.
#[derive(Clone, Copy)]
pub struct Request {
    pub kind: Access,
    pub va: Va,
    /// The number of bytes: 1, 2, 4 or 8.
    pub width: u64,
    /// The hart's privilege mode. The access is judged by its effective one.
    pub privilege: Privilege,
    pub status: Status,
}

/// A page table entry that a hart writes to set A and D (RISC-V Privileged Architecture 20211203, 4.3.2, step 7).
#[derive(Clone, Copy, PartialEq, Eq)]
pub struct Update {
    /// The physical page number of its table.
    pub table: u64,
    pub index: usize,
    pub word: u64,
}

/// What comes of an access.
#[derive(Clone, Copy, PartialEq, Eq)]
pub enum Outcome {
    Granted {
        /// The physical address.
        pa: u64,
        memory_type: MemoryType,
        update: Option<Update>,
    },
    Refused {
        /// The exception code (scause; the standard, 4.1.8).
        cause: u64,
        update: Option<Update>,
    },
}
