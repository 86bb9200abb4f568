// Struct `Way`, how an outcome comes about, and `Told`, an outcome with its way.

use crate::log::PastSatp;
use crate::sink::Step;
use access_history::Outcome;

/// How an outcome comes about: by a walk from the root of a word that satp had, through page table entries.
#[derive(Clone, Copy)]
pub struct Way {
    /// The word of satp; `None`: no walk.
    pub root: Option<PastSatp>,
    /// The entries by level, from the root's on down to the first `None`. If the outcome is by a table that may be unreadable, that one is `None`.
    pub steps: [Option<Step>; 5],
}

/// An outcome, and how it comes about.
#[derive(Clone, Copy)]
pub struct Told {
    pub outcome: Outcome,
    pub way: Way,
}
