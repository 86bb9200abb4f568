// `Finished` (struct): what is left of a process that ended, or whose start was refused: its name, outcome, journal (its
// calls with their replies) and seat, which holds nothing.

use crate::journal_entry::JournalEntry;
use process_model::ProcessEnd;
use shared_frames::SharedSeat;

/// What is left of a process that ended, or whose start was refused.
#[derive(Drop)]
pub struct Finished<'a> {
    /// Its name: numbers, a child's is its parent's with the child's number after it.
    pub name: Vec<u64>,
    /// How it ended, or why its start was refused.
    pub outcome: ProcessEnd,
    /// Its calls with their replies, in order; empty for a refused start.
    pub journal: Vec<JournalEntry<'a>>,
    /// The seat that it had. Each function that returns a `Finished` promises that this seat is at the frame table of the
    /// run, holds no frame and has no credits.
    pub seat: SharedSeat,
}
