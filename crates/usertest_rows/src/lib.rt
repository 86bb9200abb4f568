//! What a test of a kernel consists of: the lines of its script, and the rows of its C program.
#![tactic(auto)]

mod kind;
mod rows;
mod script;

pub use kind::Kind;
pub use rows::{Call, Life, Row, StepRow};
pub use script::{Expected, Line};
