//! Judges memory accesses of a RISC-V hart by its history: `outcomes` lists what may come of an access, and `permits` says whether one outcome may.
//! Both are exactly what `access_history` defines (`Permits`). `may_end` adds the faults of the first and the last byte of a misaligned access
//! (`MayEnd`). The history is any type with the trait `Log`; results go to any `Sink` without allocation (`tell_outcomes`).
#![tactic(auto)]

mod findings;
mod judge;
mod laws;
mod log;
mod part_faults;
mod permitted;
mod present;
mod question;
mod saying;
mod search;
mod seen;
mod sink;
mod updated;
mod way;

pub use findings::Findings;
pub use laws::{restart_is_exact, search_is_exact, stale_leaf_is_found};
pub use log::{Log, PastSatp, PastWord};
pub use part_faults::{faulting_part, may_end};
pub use permitted::{outcomes, permits, tell_outcomes};
pub use sink::{Sink, Step};
pub use way::{Told, Way};
