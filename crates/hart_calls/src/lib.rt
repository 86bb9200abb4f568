//! Calls of processes on threads (accesses, kernel copies, exec, sbrk, mmap, munmap, fork, exit), one at a time, over frames
//! and files that threads share; each process keeps a journal (its calls with their replies).
//!
//! `Tracked` is an unfinished process with its list of calls and its journal. By its type invariant the journal replays in
//! the model, from the process that it began with to the process that its space agrees with: a thread that takes it from a
//! queue knows this, whichever thread had it before. `Tracked::next_call` makes the list's next call: it adds one journal
//! entry, or ends the process, of which a `Finished` is left.
#![tactic(auto)]

mod access;
mod at_once;
mod call_result;
mod calls;
mod copies;
mod exit;
mod finished;
mod fork;
mod fork_slot;
mod journal_entry;
mod journal_reply;
mod model_process;
mod plain_call;
mod run_brand;
mod tracked;
mod turn;

pub use finished::Finished;
pub use fork_slot::{ChildRoom, ForkSlot};
pub use journal_entry::{JournalEntry, PagesRead};
pub use journal_reply::{JournalReply, StoredReply};
pub use model_process::{ModelProcess, begun};
pub use run_brand::RunBrand;
pub use tracked::Tracked;
pub use turn::Turn;
