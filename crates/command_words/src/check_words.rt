// `CheckWords`: a struct, what a command line of `check` says; `CHECK`, its form.

use crate::options::{FILE, STRICT, files_of};
use crate::words::{Argument, FLAG, Word};
use clap::{ArgAction, ArgMatches};
use std::alloc::{AllocError, Global};

/// Scripts are played, and the answers compared with those that their lines expect; files for threads are judged.
#[derive(Drop)]
pub struct CheckWords {
    pub files: Vec<String>,
    /// Whether the scripts are printed without those answers, and not played.
    pub bare: bool,
    /// Whether a refusal that no line expects ends it.
    pub strict: bool,
}

/// The word `check`.
pub static CHECK: Word = Word {
    name: "check",
    about: "Compare answers: a line may end with => ANSWER",
    arguments: &[
        row!(FILE; action: ArgAction::Append, values_from: Some(1), help: "The scripts, or files for threads; - is standard input"),
        row!(FLAG; name: "bare", help: "Print the scripts without their => ANSWER, for xv6vm play"),
        STRICT,
    ],
};

impl CheckWords {
    /// Returns what the word is told.
    pub fn of(alloc: Global, given: &ArgMatches<'_>) -> Result<CheckWords, AllocError> {
        Ok(CheckWords {
            files: files_of(alloc, given)?,
            bare: given.get_flag("bare"),
            strict: given.get_flag("strict"),
        })
    }
}
