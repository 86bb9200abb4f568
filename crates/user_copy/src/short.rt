// Struct `Short`, the error of a kernel copy (copyin, copyout) that stopped: what stopped it (enum `Stop`: a rule that
// denies the address, too few frames, or files that refused to promise a page read), how many bytes were copied before, and
// those bytes.

use arrayvec::ArrayVec;
use process_model::{LONGEST_COPY, Refusal};
use sv39_entry::Rule;

/// What stopped a copy.
#[derive(Clone, Copy, PartialEq, Eq, Debug)]
pub enum Stop {
    /// The first rule that denies the address; or `NoFrame`, if no rule does and too few frames could be reserved for its
    /// page.
    Denied(Rule),
    /// `files` refused to promise a read of the file's page with which the page begins: `Memory` (the host is out of
    /// memory) or `JournalFull` (the history of page I/O has no room).
    Unpromised(Refusal),
}

/// A copy that stopped: the bytes before the stop were copied, and no more.
#[derive(Drop)]
pub struct Short {
    /// What stopped it.
    pub rule: Stop,
    /// How many bytes were copied.
    pub done: usize,
    /// The bytes that were copied from the process; empty for a copy to it.
    pub bytes: ArrayVec<u8, LONGEST_COPY>,
}
