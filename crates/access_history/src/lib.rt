//! Which outcomes RISC-V permits for a memory access, given the history of a hart: stores, satp and PMP writes, and fences (RISC-V Privileged
//! Architecture 20211203, "the standard", 3.7, 4.2.1, 4.3 to 4.6). Definitions (specs/), by which `access_judge` judges, and laws of them.
#![tactic(auto)]

mod event;
mod global;
mod laws;
mod outcome;

pub use event::Event;
pub use global::has_global;
pub use laws::{
    fences_cover, full_fence_forgets, held_is_kept, held_now_is_walk, plain_kinds, plain_walks,
    stale_leaf_is_permitted,
};
pub use outcome::{Outcome, Request, Update};
