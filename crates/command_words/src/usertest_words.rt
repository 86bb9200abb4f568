// `UsertestWords`: a struct, what a command line of `usertest` says; `Tests`, which tests a program has; `USERTEST`, the form of the word.

use crate::options::{NUMBER, OUT, text_of};
use crate::words::{Argument, FLAG, OPTION, Word};
use clap::ArgMatches;
use clap::builder::ValueParser;
use std::alloc::{AllocError, Global};
use usertest_rows::Kind;

/// The names of the kinds of tests.
const KINDS: ValueParser<'static> = ValueParser::Names(&["cow", "lazy", "mmap", "mixed"]);

/// The tests of a C program.
#[derive(Clone, Copy)]
pub struct Tests {
    pub kind: Kind,
    /// The seed of the first.
    pub seed: u64,
    /// How many there are, with the seeds that follow.
    pub count: u64,
    /// The steps of a test, but for its beginning and its end.
    pub steps: u32,
    /// Whether mmap is asked with other offsets than 0.
    pub offsets: bool,
    /// Whether the script of the first is printed, and nothing written.
    pub script: bool,
}

impl Tests {
    /// Returns what the program is called, as `cow-17`, or `cow-17-19` if there are several tests.
    pub fn title(&self, alloc: Global) -> Result<String, AllocError> {
        let (kind, first) = (self.kind.name(), self.seed);
        let last = first.saturating_add(self.count.saturating_sub(1));
        if last > first {
            format!(in alloc; "{kind}-{first}-{last}")
        } else {
            format!(in alloc; "{kind}-{first}")
        }
    }
}

/// A C program that tests a kernel is written, and the scripts of its tests.
#[derive(Drop)]
pub struct UsertestWords {
    pub tests: Tests,
    /// The path of the program; `-` is standard output; empty: by its name.
    pub out: String,
}

/// The word `usertest`.
pub static USERTEST: Word = Word {
    name: "usertest",
    about: "Write a C program that tests an xv6 kernel, and the scripts that it plays",
    arguments: &[
        row!(OPTION; name: "kind", value_name: Some("KIND"), value_parser: KINDS, required: true,
            help: "What the tests ask: copy-on-write forks, a lazy heap, mappings, or all three"),
        row!(NUMBER; name: "seed", value_name: Some("N"), required: true, help: "The seed of the first test"),
        row!(OPTION; name: "count", value_name: Some("C"), value_parser: ValueParser::Unsigned(1, 1000), default_value: Some("1"),
            help: "How many tests the file has, with the seeds from N on"),
        // a u32 is signed to clap
        row!(OPTION; name: "steps", value_name: Some("K"), value_parser: ValueParser::Signed(1, 1000), default_value: Some("40"),
            help: "The steps of a test, but for its beginning and end"),
        row!(FLAG; name: "no-offset", help: "Ask mmap with offset 0 alone"),
        row!(FLAG; name: "script", help: "Print the script of the first test, and write nothing"),
        row!(OUT; value_name: Some("FILE.c"),
            help: "The C file to write, and beside it the scripts; by default KIND-N.c, or KIND-FIRST-LAST.c. - is standard output, without scripts"),
    ],
};

/// Returns the tests that are asked for. Their kind and numbers were checked.
fn tests_of(given: &ArgMatches<'_>) -> Tests {
    let kind = given.get_str("kind").unwrap_or("");
    Tests {
        kind: Kind::of_name(kind).unwrap_or(Kind::Cow),
        seed: given.get_one::<u64>("seed").unwrap_or(0),
        count: given.get_one::<u64>("count").unwrap_or(1),
        steps: given.get_one::<u32>("steps").unwrap_or(40),
        offsets: !given.get_flag("no-offset"),
        script: given.get_flag("script"),
    }
}

impl UsertestWords {
    /// Returns what the word is told.
    pub fn of(alloc: Global, given: &ArgMatches<'_>) -> Result<UsertestWords, AllocError> {
        Ok(UsertestWords {
            tests: tests_of(given),
            out: text_of(alloc, given, "out", "")?,
        })
    }
}
