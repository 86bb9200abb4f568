// `DrawWords`: a struct, what a command line of `draw` says; `DRAW`, its form.

use crate::options::{LINE, OUT, SCRIPT, file_of, text_of};
use crate::words::{Argument, FLAG, OPTION, Word};
use clap::ArgMatches;
use std::alloc::{AllocError, Global};

/// The machine of a script is drawn.
#[derive(Drop)]
pub struct DrawWords {
    pub file: String,
    /// The path of the file that is written; `-` is standard output.
    pub out: String,
    /// Whether it is drawn after each line, in a page to step through, in place of after the last one.
    pub steps: bool,
    /// The number of the line at which the page opens, if one is given.
    pub line: Option<u64>,
    /// Whether the page asks for the answer of each line.
    pub quiz: bool,
    /// The title of the page: the path of the file, if none is given.
    pub title: String,
}

/// The word `draw`.
pub static DRAW: Word = Word {
    name: "draw",
    about: "Draw the machine after the last line: regions, pages, tables, frames, TLBs",
    arguments: &[
        SCRIPT,
        row!(OUT; value_name: Some("OUT"), required: true, help: "The file to write; - is standard output"),
        row!(FLAG; name: "steps", help: "Write a page (HTML) to step from line to line, in place of a picture (SVG)"),
        row!(LINE; requires_all: &["steps"], help: "Open the page at line N of the file"),
        row!(FLAG; name: "quiz", requires_all: &["steps"], help: "Show the answer of each line only at a key"),
        row!(OPTION; name: "title", value_name: Some("TEXT"), requires_all: &["steps"], help: "The title of the page; else FILE is"),
    ],
};

impl DrawWords {
    /// Returns what the word is told.
    pub fn of(alloc: Global, given: &ArgMatches<'_>) -> Result<DrawWords, AllocError> {
        let file = file_of(alloc, given)?;
        Ok(DrawWords {
            title: text_of(alloc, given, "title", file.as_str())?,
            file,
            out: text_of(alloc, given, "out", "-")?,
            steps: given.get_flag("steps"),
            line: given.get_one::<u64>("line"),
            quiz: given.get_flag("quiz"),
        })
    }
}
