//! The answers of a reference MMU, protocol 2 (`Answer`), with the outcomes in them (`OutcomeLine`), as text and as JSON
//! (`put_answer`, `AnswerObject`). What it says of an outcome: what it is by (`Telling`), with the lines of the events
//! (`Recorded`), and why it is not permitted (`Witness`, `seek_refusal`, `seek_by`).
#![tactic(auto)]

mod answers;
mod causes;
mod exclusions;
mod fences;
mod mismatch;
mod numbers;
mod objects;
mod outcomes;
mod present;
mod reasons;
mod recorded;
mod seeking;
mod slips;
mod spaces;
mod telling;
mod uses;
mod walking;
mod ways;
mod witness;

pub use answers::{Answer, Lock, put_answer};
pub use objects::AnswerObject;
pub use outcomes::{By, OutcomeLine};
pub use recorded::Recorded;
pub use seeking::{seek, seek_by, seek_refusal};
pub use telling::Telling;
pub use walking::put_walk_steps;
pub use witness::{Older, Witness};
