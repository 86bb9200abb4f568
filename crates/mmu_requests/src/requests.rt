// `Request`: an enum, what a line asks of the reference MMU. `Claim`: a struct, an outcome that a client tells; `End`: an enum, what came of the
// access.

use crate::profile::Profile;
use access_history::{Outcome, Update};
use sv39_entry::{Access, Satp, Va};
use walk_rules::{MemoryType, PmpEntry, Privilege, Status};

/// What came of an access, by its client.
#[derive(Clone, Copy)]
pub enum End {
    Granted {
        /// The physical address.
        pa: u64,
        /// The memory type; `None`: whatever it is.
        memory_type: Option<MemoryType>,
    },
    /// The exception code (scause).
    Refused(u64),
}

/// An outcome of an access that a client tells.
#[derive(Clone, Copy)]
pub struct Claim {
    pub end: End,
    /// The PTE that the hart wrote to set A and D.
    pub update: Option<Update>,
    /// The word of the PTE by which the hart has the outcome; `None`: whatever it is.
    pub by: Option<u64>,
}

/// Whether a memory type is one that a client tells, or it tells none.
fn is_of_type(told: Option<MemoryType>, memory_type: MemoryType) -> bool {
    match told {
        None => true,
        Some(t) => t == memory_type,
    }
}

impl Claim {
    /// Whether an outcome is what the client tells.
    pub fn is_outcome(self, outcome: Outcome) -> bool {
        match (self.end, outcome) {
            (
                End::Granted { pa, memory_type },
                Outcome::Granted {
                    pa: other,
                    memory_type: t,
                    update,
                },
            ) => pa == other && is_of_type(memory_type, t) && self.update == update,
            (
                End::Refused(cause),
                Outcome::Refused {
                    cause: other,
                    update,
                },
            ) => cause == other && self.update == update,
            _ => false,
        }
    }

    /// Whether an outcome has the physical address or the exception code that the client tells.
    pub fn is_end(self, outcome: Outcome) -> bool {
        match (self.end, outcome) {
            (End::Granted { pa, .. }, Outcome::Granted { pa: other, .. }) => pa == other,
            (End::Refused(cause), Outcome::Refused { cause: other, .. }) => cause == other,
            _ => false,
        }
    }

    /// Whether the client tells the word of a PTE, or none.
    pub fn is_by(self, word: Option<u64>) -> bool {
        self.by.is_none() || self.by == word
    }
}

/// What a line asks for.
#[derive(Clone, Copy)]
pub enum Request {
    /// Which protocol this is.
    Version,
    /// The hart has this profile, and all is as at the start.
    Profile(Profile),
    /// All is as at the start.
    Reset,
    /// mstatus has these fields.
    Status(Status),
    /// The registers of a PMP entry are written.
    Pmp {
        number: usize,
        entry: PmpEntry,
    },
    /// The words from one physical address on below another are inside the memory.
    Ram {
        address: u64,
        end: u64,
    },
    /// A word is at a physical address, a multiple of 8.
    Mem {
        address: u64,
        word: u64,
    },
    /// satp is written.
    Satp(Satp),
    /// Which outcomes an access may have, or whether it may have the one that the client tells.
    Access {
        access: Access,
        va: Va,
        /// The number of bytes: 1, 2, 4 or 8.
        width: u64,
        privilege: Privilege,
        claim: Option<Claim>,
    },
    /// SFENCE.VMA; `None` stands for x0.
    Sfence {
        va: Option<Va>,
        asid: Option<u16>,
    },
}
