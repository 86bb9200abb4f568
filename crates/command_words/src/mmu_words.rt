// `MmuWords`: a struct, what a command line of `mmu` says; `MMU`, its form.

use crate::options::{FILE, JSON, file_of};
use crate::words::{Argument, FLAG, Word};
use clap::ArgMatches;
use std::alloc::{AllocError, Global};

/// Lines that ask a reference MMU are answered.
#[derive(Drop)]
pub struct MmuWords {
    pub file: String,
    /// Whether that is by JSON objects.
    pub json: bool,
    /// Whether the fewest lines by which a line stays not permitted are printed instead.
    pub shrink: bool,
}

/// The word `mmu`.
pub static MMU: Word = Word {
    name: "mmu",
    about: "Answer lines that ask a reference MMU: which outcomes may an access have",
    arguments: &[
        row!(FILE; help: "The lines; - is standard input"),
        row!(JSON; help: "Answer by JSON objects"),
        row!(FLAG; name: "shrink", conflicts_with_all: &["json"],
            help: "Print the fewest lines by which the first that is NOT permitted stays so"),
    ],
};

impl MmuWords {
    /// Returns what the word is told.
    pub fn of(alloc: Global, given: &ArgMatches<'_>) -> Result<MmuWords, AllocError> {
        Ok(MmuWords {
            file: file_of(alloc, given)?,
            json: given.get_flag("json"),
            shrink: given.get_flag("shrink"),
        })
    }
}
