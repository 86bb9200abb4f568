// `RunWords`: a struct, what a command line of `run` says; `Telling`, what is told beside the answers; `RUN`, the form of the word.

use crate::options::{SCRIPT, STRICT, file_of};
use crate::words::{Argument, FLAG, Word};
use clap::ArgMatches;
use std::alloc::{AllocError, Global};

/// What `run` prints of answers beside them.
#[derive(Clone, Copy)]
pub struct Telling {
    /// Whether it is told why an answer is no plain success; else that is told of images alone.
    pub explain: bool,
    /// Whether a refusal that no line expects is an error.
    pub strict: bool,
}

/// A script is played, and each line printed with its answer.
#[derive(Drop)]
pub struct RunWords {
    pub file: String,
    pub telling: Telling,
}

/// The word `run`.
pub static RUN: Word = Word {
    name: "run",
    about: "Play a script and print each line with its answer",
    arguments: &[
        SCRIPT,
        row!(FLAG; name: "explain", help: "Tell below each answer that is no plain success why, and which line would be right"),
        STRICT,
    ],
};

impl RunWords {
    /// Returns what the word is told.
    pub fn of(alloc: Global, given: &ArgMatches<'_>) -> Result<RunWords, AllocError> {
        Ok(RunWords {
            file: file_of(alloc, given)?,
            telling: Telling {
                explain: given.get_flag("explain"),
                strict: given.get_flag("strict"),
            },
        })
    }
}
