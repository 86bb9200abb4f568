//! The words `quiz` and `usertest` of `xv6lab`. Both make scripts of a seed: `quiz` asks for what the machine or the reference MMU
//! answers, and `usertest` makes programs in C that test whether a kernel answers so.
#![tactic(auto)]

mod quiz;
mod quiz_terminal;
mod usertest;

pub use quiz::{Game, Order};
pub use quiz_terminal::Asking;
pub use usertest::{Program, program_path, script_of, script_path};
