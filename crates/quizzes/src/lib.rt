//! A generator of quizzes: from a subject and a seed it makes a short script, predicts the kind of each answer, and says which lines are
//! worth a question (`make`). The answers are the machine's.
#![tactic(auto)]

mod cow;
mod harts;
mod lazy;
mod making;
mod mmap;
mod process;
mod quiz;
mod stale;
mod steps;
mod subject;
mod tables;
mod tlb;
mod walk;

pub use making::make;
pub use quiz::{Quiz, Teller};
pub use subject::Subject;
