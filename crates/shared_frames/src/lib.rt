//! A frame store that threads share: the free count, reference counts and words in one table of atomic words, with the laws
//! of `frame_store`. Structs: `SharedFrames` owns the table, `SharedAccess` and `SharedSupply` are a thread's handles on it,
//! `SharedSeat` is a seat, and `Totals` has the counts at the end.
//!
//! Word 0 of the table is the free count; then each frame has its reference count and its 512 words. Each step is one atomic
//! operation on one word. Between any two steps the invariant of `specs/Invariant.antt` holds of all words and of the views of
//! all seats, and a step changes the view of its own seat alone; `split` also makes a seat, and `join` takes in another one
//! and ends it. The invariant belongs to the table's type, so contracts of single calls say only that a seat is at this
//! table (`specs/SeatsOfTable.antt`).
#![tactic(auto)]

mod access;
mod frames;
mod many_words;
mod retry;
mod seat;
mod split_join;
mod step_kinds;
mod steps;
mod supply;
mod table;

pub use access::SharedAccess;
pub use frames::{SharedFrames, Totals};
pub use seat::SharedSeat;
pub use supply::SharedSupply;
