//! A generator of tests for xv6 kernels. From a seed it makes a script, and the rows of a C program that makes the accesses and system
//! calls of the script and compares what it gets with the machine's answers to it. `make` makes a `Test`.
#![tactic(auto)]

mod accesses;
mod copies;
mod denials;
mod heaps;
mod making;
mod mapped;
mod state;
mod turns;

pub use making::make;
pub use state::Test;
