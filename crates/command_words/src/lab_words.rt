// `LabWords`: a struct, what a command line of `lab` says; `LAB`, its form; `LABS`, the names of the labs.

use crate::options::{OUT, given_text, text_of};
use crate::words::{Argument, FLAG, OPTION, POSITIONAL, Word};
use clap::ArgMatches;
use clap::builder::ValueParser;
use lab_variants::Lab;
use std::alloc::{AllocError, Global};

/// The names of the labs, as `Lab::of_name` takes them.
pub const LABS: ValueParser<'static> = ValueParser::Names(&[
    "page_tables",
    "traps",
    "lazy_growth",
    "copy_on_write",
    "mmap",
    "stale_entries",
]);

/// The handout of a lab is printed, or written to a new file; or those of the students of a list are written to a folder.
#[derive(Drop)]
pub struct LabWords {
    pub lab: Lab,
    /// What its numbers follow from; those of the lab's page, if there is none.
    pub seed: Option<String>,
    /// The path of a list of students, each of whom gets a handout.
    pub seeds: Option<String>,
    /// Whether the machine's answers stand in place of the blanks.
    pub answers: bool,
    /// The path of the file or folder that is written; `-` is standard output.
    pub out: String,
}

/// The word `lab`.
pub static LAB: Word = Word {
    name: "lab",
    about: "Print the script of a lab, in which answers are to be filled in",
    arguments: &[
        row!(POSITIONAL; name: "NAME", value_parser: LABS, required: true, help: "The lab"),
        row!(OPTION; name: "seed", value_name: Some("TEXT"),
            help: "What the numbers follow from, as the name of a student; without it they are those of the page"),
        row!(OPTION; name: "seeds", value_name: Some("LIST.csv"), conflicts_with_all: &["seed"],
            help: "A list with the column id: a script for each student is written to the folder after -o, and a list of them; - is standard input"),
        row!(FLAG; name: "answers", help: "Write the machine's answers in place of the blanks"),
        row!(OUT; value_name: Some("FILE"), default_value: Some("-"),
            help: "The file to write, which must not be there yet; - is standard output"),
    ],
};

/// Returns the seed, if one is given, without blanks around it: ids of a list have none either.
fn seed_of(alloc: Global, given: &ArgMatches<'_>) -> Result<Option<String>, AllocError> {
    match given.get_str("seed") {
        Some(text) => Ok(Some(String::from_str(alloc, text.trim())?)),
        None => Ok(None),
    }
}

impl LabWords {
    /// Returns what the word is told. The name of the lab was checked.
    pub fn of(alloc: Global, given: &ArgMatches<'_>) -> Result<LabWords, AllocError> {
        let name = given.get_str("NAME").unwrap_or("");
        Ok(LabWords {
            lab: Lab::of_name(name).unwrap_or(Lab::PageTables),
            seed: seed_of(alloc, given)?,
            seeds: given_text(alloc, given, "seeds")?,
            answers: given.get_flag("answers"),
            out: text_of(alloc, given, "out", "-")?,
        })
    }
}
