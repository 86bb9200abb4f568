//! Theorems about which outcomes RISC-V permits for a memory access (`access_history`). They are those of all harts with a cache (`harts`). Without
//! history there is one, that of a walk over memory as it is (`walks`). Each answer of the TLB of `hart_tlb` is one of them (`tlb`).
//!
//! The functions do nothing. Their `ensures` clauses are the theorems.
#![tactic(auto)]

mod harts;
mod tlb;
mod walks;

pub use harts::outcomes_are_of_harts;
pub use tlb::{stale_entry_is_permitted, tlb_is_permitted};
pub use walks::{
    other_events_are_quiet, settled_hart_walks, settled_space_walks, walk_is_permitted,
};
