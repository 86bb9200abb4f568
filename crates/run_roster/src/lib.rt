//! The roster of a run of processes on threads: its starts are made in order (`StartContext`), entered on the roster and put
//! into the run queue (`Enlister`); harts then ask the roster for slots, and enter children and ends (`Roster`).
//!
//! The roster lists the unfinished and the ended processes. Each unfinished process has a voucher (`Job`); redeeming it proves
//! that the roster still lists the process, so none is lost between queue, hart and roster. `hart_threads` runs the harts.
#![tactic(auto)]

mod enlist;
mod job;
mod job_queue;
mod name_buffer;
mod plan;
mod queue_part;
mod queued_job;
mod roster;
mod seats;
mod start;
mod start_outcomes;
mod start_result;

pub use enlist::Enlister;
pub use job::Job;
pub use job_queue::JobQueue;
pub use name_buffer::{NameBuffer, name_rooms};
pub use plan::Plan;
pub use queue_part::{QueuePart, put};
pub use roster::{Admission, Roster};
pub use start::StartContext;
pub use start_outcomes::StartOutcomes;
pub use start_result::StartResult;
