// `Program`: a program in C that tests a kernel, made test by test; `script_of`, the script of its first test.

use command_words::{Tests, UsertestWords};
use lab_host::Fault;
use std::alloc::{AllocError, Global};
use std::fmt::Display;
use text_builder::Text;
use usertest_rows::Line;
use usertest_text::{Names, PlayFault, put_head, put_main, put_test};
use usertests::{Test, make};

/// Returns the lines of a script as its text.
fn script_text(alloc: Global, lines: &[Line]) -> Text {
    let mut text = Text::new(alloc);
    'lines: for line in lines {
        text.push_str(line.text.as_str());
        text.push_str("\n");
    }
    text
}

/// Returns why the program ends if the machine answers otherwise than the generator predicts; `name` stands before the number of the line.
pub fn difference<D: Display + Drop>(alloc: Global, name: D, fault: PlayFault) -> Fault {
    let PlayFault::Differs(text) = fault else {
        return Fault::Memory;
    };
    match format!(in alloc; "{name}{text}") {
        Ok(text) => Fault::Differs(text),
        Err(_) => Fault::Memory,
    }
}

/// Returns the test of a seed. Earlier tests of the program have so many functions that go on after an exec.
fn test_of(alloc: Global, tests: Tests, seed: u64, parts: usize) -> Result<Test, AllocError> {
    make(alloc, tests.kind, seed, tests.steps, tests.offsets, parts)
}

/// Returns the script of the first test.
pub fn script_of(alloc: Global, tests: Tests) -> Result<Text, AllocError> {
    let test = test_of(alloc, tests, tests.seed, 0)?;
    Ok(script_text(alloc, test.lines.as_slice()))
}

/// Returns where a C program goes: to the file that the command line names, or to one that is named as the tests are.
pub fn program_path(alloc: Global, words: &UsertestWords) -> Result<String, AllocError> {
    let out = words.out.as_str();
    if !out.is_empty() {
        return String::from_str(alloc, out);
    }
    let title = words.tests.title(alloc)?;
    format!(in alloc; "{title}.c")
}

/// Returns where the script of a test goes: beside its program.
pub fn script_path(alloc: Global, program: &str, name: &str) -> Result<String, AllocError> {
    match program.rsplit_once('/') {
        Some((folder, _)) => format!(in alloc; "{folder}/{name}.script"),
        None => format!(in alloc; "{name}.script"),
    }
}

/// A C program that is being made.
#[derive(Drop)]
pub struct Program {
    alloc: Global,
    tests: Tests,
    names: Names,
    /// Its text so far.
    pub text: Vec<u8>,
}

impl Program {
    /// Returns a program without tests.
    pub fn new(alloc: Global, tests: Tests) -> Result<Program, AllocError> {
        let mut text = Vec::new(alloc);
        put_head(alloc, &mut text, tests.kind, tests.title(alloc)?.as_str())?;
        Ok(Program {
            alloc,
            tests,
            names: Names::new(alloc),
            text,
        })
    }

    /// Adds the test of a seed. Returns its name and its script.
    ///
    /// # Errors
    /// `Differs`: the machine answers a line otherwise than the generator predicts. `Memory`: the host is out of memory.
    pub fn add(&mut self, seed: u64) -> Result<(String, String), Fault> {
        let alloc = self.alloc;
        let test = test_of(alloc, self.tests, seed, self.names.parts_count)?;
        let (lines, lives) = (test.lines.as_slice(), test.lives.as_slice());
        if let Err(fault) = put_test(alloc, &mut self.text, lines, lives) {
            let name = test.name.as_str();
            return Err(difference(alloc, format_args!("{name}.script:"), fault));
        }
        self.names.add(test.prefix.as_str(), test.parts.as_slice())?;
        let script = script_text(alloc, lines).finish()?;
        Ok((String::from_str(alloc, test.name.as_str())?, script))
    }

    /// Ends the program.
    pub fn end(&mut self) -> Result<(), AllocError> {
        put_main(self.alloc, &mut self.text, &self.names)
    }
}
