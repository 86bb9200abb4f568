// `FileObject`, a graded file as it is in JSON; `ResultsObject`, one as Gradescope takes it: the file `results.json` of an autograder.

use crate::file_grade::{BlankText, FileGrade};
use crate::joints::put_number;
use crate::members::{Member, Value, put_object};
use crate::table::put_notes;
use handouts::Mark;
use serde::{Described, Serialize, Serializer};
use std::alloc::{AllocError, Global};
use text_builder::Text;

/// What a student has at a blank.
#[derive(Clone, Copy)]
pub struct MarkObject<'a> {
    /// The number of its line in the handout, from 1.
    pub line: usize,
    /// `"right"`, `"open"`, `"wrong"`, `"changed"` or `"gone"`.
    pub mark: &'static str,
    /// Why it is not right, a text; left out if it is.
    pub reason: Option<&'a str>,
}

/// A graded file: one object, on a line of its own.
#[derive(Drop)]
pub struct FileObject<'a> {
    pub file: &'a str,
    /// The student's id, if the handout was made for it.
    pub id: Option<&'a str>,
    /// The id that the file names, if it is another.
    pub made_for: Option<&'a str>,
    /// The number of the lab that the file names, if it is another.
    pub made_for_lab: Option<u32>,
    /// `true` if it is made from the script of the lab's page, and the handout is another; else left out.
    pub made_for_page: bool,
    /// `"graded"`, `"truncated"`, `"empty"`, `"missing"`, `"unreadable"`, `"too long"`, `"binary"`, `"UTF-16"` or `"names no student"`.
    pub status: &'static str,
    /// Why it cannot be read, or what is to be said of it else, a text; left out if nothing is.
    pub why: &'a str,
    /// How many lines the handout has.
    pub lines: usize,
    pub kept: usize,
    pub changed: usize,
    pub missing: usize,
    pub added: usize,
    /// How many blanks the handout has.
    pub blanks: usize,
    pub right: usize,
    /// The blanks, in the order of the handout.
    pub marks: Vec<MarkObject<'a>>,
    /// The numbers of the lines that are no blanks and have another line in their place; left out if there are none.
    pub changed_lines: &'a Vec<usize>,
    /// The numbers of the lines that are no blanks and are not there, up to the last that is; left out if there are none.
    pub missing_lines: &'a Vec<usize>,
    /// The numbers of the blanks that the file answers more than once; left out if there are none.
    pub repeated_lines: &'a Vec<usize>,
}

/// A blank as a test of Gradescope.
#[derive(Drop)]
pub struct TestObject<'a> {
    pub name: String,
    pub score: u32,
    pub max_score: u32,
    pub output: &'a str,
    pub visibility: &'static str,
}

/// The results of a file, as Gradescope takes them.
#[derive(Drop)]
pub struct ResultsObject<'a> {
    pub score: usize,
    pub output: String,
    pub tests: Vec<TestObject<'a>>,
}

impl Described for MarkObject<'_> {}

impl Serialize for MarkObject<'_> {
    fn serialize<S: Serializer>(&self, out: &mut S) -> Result<(), S::Error> {
        let members: [Member<'_, usize>; 3] = [
            ("line", Value::Number(self.line)),
            ("mark", Value::Text(self.mark)),
            ("reason", Value::MaybeText(self.reason)),
        ];
        put_object(out, members.as_slice())
    }
}

impl Described for TestObject<'_> {}

impl Serialize for TestObject<'_> {
    fn serialize<S: Serializer>(&self, out: &mut S) -> Result<(), S::Error> {
        let members: [Member<'_, usize>; 5] = [
            ("name", Value::Text(self.name.as_str())),
            ("score", Value::Number(self.score as usize)),
            ("max_score", Value::Number(self.max_score as usize)),
            ("output", Value::Text(self.output)),
            ("visibility", Value::Text(self.visibility)),
        ];
        put_object(out, members.as_slice())
    }
}

impl Described for ResultsObject<'_> {}

impl Serialize for ResultsObject<'_> {
    fn serialize<S: Serializer>(&self, out: &mut S) -> Result<(), S::Error> {
        let members = [
            ("score", Value::Number(self.score)),
            ("output", Value::Text(self.output.as_str())),
            ("tests", Value::Objects(&self.tests)),
        ];
        put_object(out, members.as_slice())
    }
}

impl<'a> FileObject<'a> {
    /// Returns the members, in the order in which they are written.
    fn members(&self) -> [Member<'_, MarkObject<'a>>; 18] {
        [
            ("file", Value::Text(self.file)),
            ("id", Value::MaybeText(self.id)),
            ("made_for", Value::MaybeText(self.made_for)),
            ("made_for_lab", Value::MaybeNumber(self.made_for_lab)),
            ("made_for_page", Value::Flag(self.made_for_page)),
            ("status", Value::Text(self.status)),
            ("why", Value::Note(self.why)),
            ("lines", Value::Number(self.lines)),
            ("kept", Value::Number(self.kept)),
            ("changed", Value::Number(self.changed)),
            ("missing", Value::Number(self.missing)),
            ("added", Value::Number(self.added)),
            ("blanks", Value::Number(self.blanks)),
            ("right", Value::Number(self.right)),
            ("marks", Value::Objects(&self.marks)),
            ("changed_lines", Value::Lines(self.changed_lines)),
            ("missing_lines", Value::Lines(self.missing_lines)),
            ("repeated_lines", Value::Lines(self.repeated_lines)),
        ]
    }
}

impl Described for FileObject<'_> {}

impl Serialize for FileObject<'_> {
    fn serialize<S: Serializer>(&self, out: &mut S) -> Result<(), S::Error> {
        put_object(out, self.members().as_slice())
    }
}

/// Returns what a mark is called.
fn mark_name(mark: Mark) -> &'static str {
    match mark {
        Mark::Right => "right",
        Mark::Open => "open",
        Mark::Wrong => "wrong",
        Mark::Changed => "changed",
        Mark::Gone => "gone",
    }
}

/// Returns what a student has at each blank.
fn marks_of(alloc: Global, blanks: &[BlankText]) -> Result<Vec<MarkObject<'_>>, AllocError> {
    let mut marks = Vec::new(alloc);
    'blanks: for blank in blanks {
        marks.push(MarkObject {
            line: blank.line,
            mark: mark_name(blank.mark),
            reason: blank.reason.as_deref(),
        })?;
    }
    Ok(marks)
}

impl<'a> FileObject<'a> {
    /// Returns a graded file as it is in JSON.
    ///
    /// # Errors
    /// `AllocError`: the host is out of memory.
    pub fn of(alloc: Global, grade: &'a FileGrade) -> Result<FileObject<'a>, AllocError> {
        Ok(FileObject {
            file: grade.file.as_str(),
            id: grade.id.as_deref(),
            made_for: grade.other_id.as_deref(),
            made_for_lab: grade.other_lab,
            made_for_page: grade.is_of_page,
            status: grade.standing.name(),
            why: grade.why.as_str(),
            lines: grade.lines(),
            kept: grade.kept,
            changed: grade.changed,
            missing: grade.missing,
            added: grade.added,
            blanks: grade.blanks.len(),
            right: grade.right,
            marks: marks_of(alloc, grade.blanks.as_slice())?,
            changed_lines: &grade.noted.changed,
            missing_lines: &grade.noted.missing,
            repeated_lines: &grade.noted.again,
        })
    }
}

/// Returns a blank as a test of one point, which has this name.
fn test_of(name: String, blank: &BlankText) -> TestObject<'_> {
    let (score, output) = match &blank.reason {
        Some(reason) => (0, reason.as_str()),
        None => (1, "right"),
    };
    TestObject {
        name,
        score,
        max_score: 1,
        output,
        visibility: "visible",
    }
}

/// Returns the blanks as tests.
fn tests_of(alloc: Global, blanks: &[BlankText]) -> Result<Vec<TestObject<'_>>, AllocError> {
    let mut tests = Vec::new(alloc);
    'blanks: for blank in blanks {
        let (line, bare) = (blank.line, blank.bare.as_str());
        let name = format!(in alloc; "line {line}: {bare}")?;
        tests.push(test_of(name, blank))?;
    }
    Ok(tests)
}

/// Returns what is said of all of a graded file.
fn output_of(alloc: Global, grade: &FileGrade) -> Result<String, AllocError> {
    let mut output = Text::new(alloc);
    put_number(&mut output, grade.right);
    output.push_str(" of ");
    put_number(&mut output, grade.blanks.len());
    output.push_str(" blanks, ");
    put_number(&mut output, grade.kept);
    output.push_str(" of ");
    put_number(&mut output, grade.lines());
    output.push_str(" lines kept");
    put_notes(&mut output, grade);
    output.finish()
}

impl<'a> ResultsObject<'a> {
    /// Returns a graded file as Gradescope takes it: each blank is a test of one point.
    ///
    /// # Errors
    /// `AllocError`: the host is out of memory.
    pub fn of(alloc: Global, grade: &'a FileGrade) -> Result<ResultsObject<'a>, AllocError> {
        Ok(ResultsObject {
            score: grade.right,
            output: output_of(alloc, grade)?,
            tests: tests_of(alloc, grade.blanks.as_slice())?,
        })
    }
}
