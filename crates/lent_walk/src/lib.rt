//! A walk of a page table of Sv39 or Sv48 that asks its caller for each word of memory that it needs (`LentWalk`): so the memory may be of any
//! kind, in several regions or behind a call of the caller's. It lies in plain numbers.
#![tactic(auto)]

mod reason;
mod walk;

pub use reason::fault_step;
pub use walk::{ACCESS_FAULT, BYTE, LEAF, LentWalk, PAGE_FAULT, Question, READ};
