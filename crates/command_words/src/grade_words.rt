// `GradeWords`: a struct, what a command line of `grade` says; `Source`, what is graded; `GradeForm`, as what; `GRADE`, the form of the word.

use crate::lab_words::LABS;
use crate::options::{JSON, files_of, given_text, text_of};
use crate::words::{Argument, FLAG, OPTION, POSITIONAL, Word};
use clap::{ArgAction, ArgMatches};
use lab_variants::Lab;
use std::alloc::{AllocError, Global};

/// As what the grades are printed.
#[derive(Clone, Copy)]
pub enum GradeForm {
    Table,
    Csv,
    /// JSON objects, one a line.
    Json,
    /// One JSON object, the results of a file as Gradescope takes them.
    Gradescope,
}

/// What is graded, and what for.
#[derive(Drop)]
pub enum Source {
    /// A handout, by its path; of a list of files, if one is named, the path too.
    Handout(String, Option<String>),
    /// The variants of a lab, and the path of a list of ids: each file by the student whom it names; if there is none, the list has their paths.
    Variants(Lab, String),
    /// The variants of a lab, each file by the student whom it names; of a list of files, if one is named, the path too.
    Named(Lab, Option<String>),
}

/// What a command line says of `grade`.
#[derive(Drop)]
pub struct GradeWords {
    pub source: Source,
    /// The paths of what was handed in, in the command line.
    pub files: Vec<String>,
    pub form: GradeForm,
}

/// The word `grade`.
pub static GRADE: Word = Word {
    name: "grade",
    about: "Grade what students hand in for a lab: which blanks are right, and why others are not",
    arguments: &[
        row!(POSITIONAL; name: "HANDOUT", required_unless_present_any: &["lab"],
            help: "The script with blanks, => ?, as it was handed out; - is standard input"),
        row!(POSITIONAL; name: "FILE", action: ArgAction::Append, values_from: Some(0), required_unless_present_any: &["list", "lab"],
            help: "What was handed in; a folder stands for the files in it, but those whose names begin with a dot; - is standard input"),
        row!(OPTION; name: "list", value_name: Some("LIST"),
            help: "A file of paths, one a line, to be graded after FILE; - is standard input"),
        row!(OPTION; name: "lab", value_name: Some("LAB"), value_parser: LABS,
            help: "The lab whose variants are graded, in place of HANDOUT: each FILE by the student whom it names, or those of --seeds"),
        row!(OPTION; name: "seeds", value_name: Some("LIST.csv"), requires_all: &["lab"], conflicts_with_all: &["list"],
            help: "A list of students, with the column id; without a FILE with the column file too, the path of what each handed in, or nothing"),
        row!(FLAG; name: "csv", conflicts_with_all: &["json", "gradescope"], help: "Print CSV"),
        row!(JSON; conflicts_with_all: &["csv", "gradescope"], help: "Print JSON objects, one a line"),
        row!(FLAG; name: "gradescope", conflicts_with_all: &["csv", "json"],
            help: "Print results.json of a Gradescope autograder, of one FILE"),
    ],
};

/// Returns as what the grades are printed.
fn form_of(given: &ArgMatches<'_>) -> GradeForm {
    if given.get_flag("csv") {
        GradeForm::Csv
    } else if given.get_flag("json") {
        GradeForm::Json
    } else if given.get_flag("gradescope") {
        GradeForm::Gradescope
    } else {
        GradeForm::Table
    }
}

/// Returns what is graded.
fn source_of(alloc: Global, given: &ArgMatches<'_>) -> Result<Source, AllocError> {
    let list = given_text(alloc, given, "list")?;
    let Some(name) = given.get_str("lab") else {
        return Ok(Source::Handout(text_of(alloc, given, "HANDOUT", "-")?, list));
    };
    // clap took one of the names of the labs
    let lab = Lab::of_name(name).unwrap_or(Lab::CopyOnWrite);
    match given_text(alloc, given, "seeds")? {
        Some(seeds) => Ok(Source::Variants(lab, seeds)),
        None => Ok(Source::Named(lab, list)),
    }
}

/// Returns the paths of what was handed in. If variants are graded, there is no handout: the path in its place is the first of them.
fn handed_in(
    alloc: Global,
    given: &ArgMatches<'_>,
    source: &Source,
) -> Result<Vec<String>, AllocError> {
    let mut files = Vec::new(alloc);
    let grades_variants = matches!(source, Source::Named(..) | Source::Variants(..));
    if let Some(first) = given.get_str("HANDOUT") {
        if grades_variants {
            files.push(String::from_str(alloc, first)?)?;
        }
    }
    'files: for file in files_of(alloc, given)? {
        files.push(file)?;
    }
    Ok(files)
}

impl GradeWords {
    /// Returns what the word is told.
    pub fn of(alloc: Global, given: &ArgMatches<'_>) -> Result<GradeWords, AllocError> {
        let source = source_of(alloc, given)?;
        Ok(GradeWords {
            files: handed_in(alloc, given, &source)?,
            source,
            form: form_of(given),
        })
    }
}
