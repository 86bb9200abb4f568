//! Files that processes on threads share, with a history of the pages read from them and written to them: the struct
//! `Shelf`, the struct `PageUse` (an entry of the history), and `MOST_USES` (the most entries).
//!
//! A `Shelf` is a cabinet that adds an entry to its history for each page read or written. Its type invariant says that the
//! history replays from the files that the shelf began with (`specs/Histories.antt`), so each thread that takes the shelf
//! from under a lock can rely on that.
#![tactic(auto)]

mod history;
mod shelf;

pub use history::PageUse;
pub use shelf::{MOST_USES, Shelf};
