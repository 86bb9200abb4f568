//! A hart's history in arrays that a caller lends for one call (`LentHart`, `LentEvent`): calls that add an event, and the search's questions
//! (`LentHistory`, a `Log`). No call allocates, and each has an answer for all contents of the arrays.
#![tactic(auto)]

mod event;
mod hart;
mod history;
mod judging;
mod numbers;
mod pmp;
mod recording;
mod scan;

pub use event::{FENCE_ADDRESS, FENCE_SPACE, LentEvent, PMP, SATP, STORE};
pub use hart::{LentHart, LentPmp};
pub use history::LentHistory;
pub use judging::outcomes;
pub use numbers::{LentAccess, LentOutcome};
pub use recording::{Full, fence, store, write_pmp, write_satp};
