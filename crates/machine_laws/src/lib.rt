//! Theorems about the machine of `hart_machine` as hardware: each of its harts is one of those that the RISC-V standard speaks of (`access_history`). The
//! steps of a run make a history of stores, writes of satp and fences at each hart (`harts_have_histories`). By that history the standard permits what
//! each entry of the hart's TLB answers, and a walk (`answers_are_permitted`), and the replies to user accesses (`replies_are_permitted`); when it permits
//! nothing else (`settled_machine_walks`).
//!
//! These functions do nothing: their `ensures` clauses are the theorems. `run_from_boot` boots a machine and makes steps.
#![tactic(auto)]

mod histories;
mod permitted;
mod replies;
mod runs;
mod settled;

pub use histories::harts_have_histories;
pub use permitted::answers_are_permitted;
pub use replies::replies_are_permitted;
pub use runs::run_from_boot;
pub use settled::settled_machine_walks;
