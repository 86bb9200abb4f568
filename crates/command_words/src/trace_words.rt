// `TraceWords`: a struct, what a command line of `trace` says; `TRACE`, its form.

use crate::options::{JSON, LINE, SCRIPT, file_of};
use crate::words::{Argument, Word};
use clap::ArgMatches;
use std::alloc::{AllocError, Global};

/// A script is played, and it is printed what happens on its lines.
#[derive(Drop)]
pub struct TraceWords {
    pub file: String,
    /// Whether that is one JSON object a line.
    pub json: bool,
    /// The number of the only line that is told of, if one is given.
    pub line: Option<u64>,
}

/// The word `trace`.
pub static TRACE: Word = Word {
    name: "trace",
    about: "See what happens on each line: regions, rules, walks, TLBs, frames",
    arguments: &[
        SCRIPT,
        row!(JSON; help: "Print one JSON object a line"),
        row!(LINE; help: "Print only what happens on line N of the file"),
    ],
};

impl TraceWords {
    /// Returns what the word is told.
    pub fn of(alloc: Global, given: &ArgMatches<'_>) -> Result<TraceWords, AllocError> {
        Ok(TraceWords {
            file: file_of(alloc, given)?,
            json: given.get_flag("json"),
            line: given.get_one::<u64>("line"),
        })
    }
}
