// Arguments that several words of the program have, and how the values of arguments are read.

use crate::misuse::Misuse;
use crate::words::{Argument, FLAG, OPTION, POSITIONAL};
use clap::ArgMatches;
use clap::builder::ValueParser;
use line_fields::wrong_number;
use script_reader::number;
use std::alloc::{AllocError, Global};

/// The file of a word that takes one; a row adds the help.
pub const FILE: Argument = row!(POSITIONAL; name: "FILE", required: true);

/// The file of a word that takes one script.
pub const SCRIPT: Argument = row!(FILE; help: "The script; - is standard input");

/// The flag by which a refusal ends what is played.
pub const STRICT: Argument =
    row!(FLAG; name: "strict", help: "Stop at the first refusal that no => ANSWER expects");

/// The flag by which JSON is printed; a row adds the help.
pub const JSON: Argument = row!(FLAG; name: "json");

/// An option with a number of `u64`; a row adds the name, the value's name and the help.
pub const NUMBER: Argument = row!(OPTION; value_parser: ValueParser::Unsigned(0, u64::MAX));

/// The number of a line; a row adds the help.
pub const LINE: Argument = row!(NUMBER; name: "line", value_name: Some("N"));

/// The file that is written; a row adds the value's name and the help.
pub const OUT: Argument = row!(OPTION; name: "out", short: Some('o'));

/// Returns the value of an argument, or else `default`.
pub fn text_of(
    alloc: Global,
    given: &ArgMatches<'_>,
    name: &str,
    default: &str,
) -> Result<String, AllocError> {
    String::from_str(alloc, given.get_str(name).unwrap_or(default))
}

/// Returns the value of an argument, if it has one.
pub fn given_text(
    alloc: Global,
    given: &ArgMatches<'_>,
    name: &str,
) -> Result<Option<String>, AllocError> {
    match given.get_str(name) {
        Some(value) => Ok(Some(String::from_str(alloc, value)?)),
        None => Ok(None),
    }
}

/// Returns the path of the word's only file; `-` if there is none.
pub fn file_of(alloc: Global, given: &ArgMatches<'_>) -> Result<String, AllocError> {
    text_of(alloc, given, "FILE", "-")
}

/// Returns the paths of the word's files.
pub fn files_of(alloc: Global, given: &ArgMatches<'_>) -> Result<Vec<String>, AllocError> {
    let mut files = Vec::new(alloc);
    if let Some(given) = given.get_strs("FILE") {
        for file in given {
            files.push(String::from_str(alloc, file)?)?;
        }
    }
    Ok(files)
}

/// Returns the number of a word of the command line.
///
/// # Errors
/// `Word`: it is none. `Memory`: the host is out of memory.
pub fn number_of(alloc: Global, name: &str, word: &str) -> Result<u64, Misuse> {
    match number(word.as_bytes()) {
        Some(number) => Ok(number),
        None => {
            let wrong = wrong_number(alloc, word.as_bytes())?;
            let text = wrong.as_str();
            Err(Misuse::Word(format!(in alloc; "{name}: {text}")?))
        }
    }
}
