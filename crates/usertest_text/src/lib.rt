//! The text of a C program that tests a kernel. `put_test` plays the script of a test, compares the answers with what its
//! generator predicts, and appends the test's functions, in which each expected value is the machine's answer to a line of the
//! script (`put_lives`); the runtime stands above them, and the `main` below. `predicted_answers` has the answers alone.
#![tactic(auto)]

mod fits;
mod played;
mod program;
mod runtime;
mod runtime_steps;
mod table;

pub use played::{PlayFault, compare, predicted_answers, put_test};
pub use program::{Names, put_head, put_main};
pub use table::{TextFault, put_lives, word};
