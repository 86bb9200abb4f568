//! The words of `xv6lab` that play a script and print text of its lines: `run` prints the answers beside the lines, `check` compares
//! them with those that the lines expect, and judges files for threads, `trace` tells what happens on each line, `show` answers
//! questions about the machine between lines, and `repl` takes lines one by one.
#![tactic(auto)]

mod check;
mod looks;
mod repl;
mod run;
mod show;
mod threads;
mod trace;

pub use check::{BareLines, CheckLines, Checked, Tally};
pub use repl::{BANNER, ReplLines};
pub use run::RunLines;
pub use show::ShowLines;
pub use trace::TraceLines;
