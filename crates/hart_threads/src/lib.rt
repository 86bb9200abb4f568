//! Harts as threads: `run_harts` starts processes in order, harts take them from a run queue and make their calls, and each
//! process is returned once, as it ended. `Gate` (trait): hooks around each call.
//!
//! A roster (`run_roster`) under a lock lists the unfinished and the ended processes. Each unfinished process has a voucher;
//! redeeming it proves that the roster still lists the process, so none is lost between queue, hart and roster. A hart holds
//! no lock during a call, except that of the shelf if the call needs files.
//!
//! A client finds here what it names in a call of `run_harts`: the shelf, and the processes with their calls, of the crates
//! below.
#![tactic(auto)]

mod gate;
mod hart;
mod job_step;
mod queue;
mod run;
mod run_shelf;

pub use file_shelf::Shelf;
pub use gate::{Gate, OpenGate};
pub use hart_calls::{Finished, ForkSlot, Tracked, Turn};
pub use run::{run_harts, run_harts_alone};
pub use run_shelf::{RunFiles, RunShelf};
