// `csv_row`: a graded file as a row of CSV (RFC 4180, with line feeds alone); `csv_head`: the names of its fields; `student_row`: a row of
// a list of students.

use crate::file_grade::FileGrade;
use crate::table::notes_of;
use csv::{ByteRecord, Writer};
use std::alloc::{AllocError, Global};

/// The names of the fields.
const HEAD: &str =
    "file,id,status,lines,kept,changed,missing,added,blanks,right,first_wrong_line,notes\n";

/// Returns the row of names.
pub fn csv_head() -> &'static str {
    HEAD
}

/// The fields of a row so far.
#[derive(Drop)]
struct Row {
    alloc: Global,
    fields: ByteRecord,
    /// Whether the host had memory for each field.
    is_whole: bool,
}

impl Row {
    /// Returns a row without fields.
    fn new(alloc: Global) -> Row {
        Row {
            alloc,
            fields: ByteRecord::new(alloc),
            is_whole: true,
        }
    }

    /// Adds a field.
    fn push(&mut self, field: &str) {
        match self.fields.push_field(field.as_bytes()) {
            Ok(()) => {}
            Err(_) => self.is_whole = false,
        }
    }

    /// Adds a field that was put together.
    fn push_made(&mut self, field: Result<String, AllocError>) {
        match field {
            Ok(field) => self.push(field.as_str()),
            Err(_) => self.is_whole = false,
        }
    }

    /// Adds a field with a text that others wrote. A spreadsheet may run one that begins with `=`, `+`, `-`, `@`, a tab or a carriage return: it
    /// gets `'` before it.
    fn push_text(&mut self, text: &str) {
        match text.as_bytes() {
            [b'=' | b'+' | b'-' | b'@' | b'\t' | b'\r', ..] => {
                self.push_made(format!(in self.alloc; "'{text}"));
            }
            _ => self.push(text),
        }
    }

    /// Adds a field with a number.
    fn push_number(&mut self, number: usize) {
        self.push_made(format!(in self.alloc; "{number}"));
    }

    /// Adds the fields with what was kept of the handout, and with the blanks.
    fn push_counts(&mut self, grade: &FileGrade) {
        let counts = [
            grade.lines(),
            grade.kept,
            grade.changed,
            grade.missing,
            grade.added,
            grade.blanks.len(),
            grade.right,
        ];
        'counts: for count in counts.as_slice() {
            self.push_number(*count);
        }
    }

    /// Adds the fields of a graded file, in the order of the names; `notes`: what is to be said of it.
    fn push_grade(&mut self, grade: &FileGrade, notes: &str) {
        self.push_text(grade.file.as_str());
        self.push_text(match &grade.id {
            Some(id) => id.as_str(),
            None => "",
        });
        self.push(grade.standing.name());
        self.push_counts(grade);
        match grade.first_wrong() {
            Some(blank) => self.push_number(blank.line),
            None => self.push(""),
        }
        self.push_text(notes);
    }

    /// Returns the row, with its line feed.
    ///
    /// # Errors
    /// `AllocError`: the host is out of memory, or was for a field. A writer to memory fails by nothing else.
    fn finish(self) -> Result<Vec<u8>, AllocError> {
        let mut writer = Writer::from_writer(Vec::new(self.alloc));
        let is_whole = self.is_whole && writer.write_byte_record(&self.fields).is_ok();
        match writer.into_inner() {
            Ok(row) if is_whole => Ok(row),
            _ => Err(AllocError),
        }
    }
}

/// Returns a row of a list of students, with its line feed: an id, and the path of a file. Both are as they are: `students_of` reads the row.
///
/// # Errors
/// `AllocError`: the host is out of memory.
pub fn student_row(alloc: Global, id: &str, file: &str) -> Result<Vec<u8>, AllocError> {
    let mut row = Row::new(alloc);
    row.push(id);
    row.push(file);
    row.finish()
}

/// Returns a graded file as a row, with its line feed.
///
/// # Errors
/// `AllocError`: the host is out of memory.
pub fn csv_row(alloc: Global, grade: &FileGrade) -> Result<Vec<u8>, AllocError> {
    let notes = notes_of(alloc, grade)?;
    let mut row = Row::new(alloc);
    row.push_grade(grade, notes.as_str());
    row.finish()
}
