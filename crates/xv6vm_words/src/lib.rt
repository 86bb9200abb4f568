//! The command line of the program `xv6vm`, and why the program ends early: `CommandLine`, `Task`, `Fault`.
#![tactic(auto)]

mod command_line;
mod fault;

pub use command_line::{CommandLine, Task};
pub use fault::Fault;
