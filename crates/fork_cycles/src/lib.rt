//! Files for threads whose processes may fork for ever: `fork_cycle` finds lists of calls each of which forks the next, and the last
//! the first; `warn_of_forks` says it in words.
#![tactic(auto)]

mod forks;
mod marks;
mod search;
mod warning;

pub use search::fork_cycle;
pub use warning::{Warning, warn_of_forks};
