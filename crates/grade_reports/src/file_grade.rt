// `FileGrade`, a struct: what a student's file has of a handout. `Standing`, an enum: whether it could be read.

ghost use Rattle.std.specs.Prelude.{◌≡◌, ◌+◌, ◌≤◌, ◌==◌, IfOk, length, vec_len};
ghost use Rattle.handouts.specs.Marks.{blanks_of, rights_of};

use crate::line_notes::LineNotes;
use crate::reasons::{Reason, put_reason, reason_of, word_of};
use handouts::{Asked, BlankMark, Line, Mark, grade_lines};
use std::alloc::{AllocError, Global};
use text_builder::Text;

/// Whether a student's file could be read, and as what.
#[derive(Clone, Copy)]
pub enum Standing {
    /// It could, to the handout's last line.
    Whole,
    /// It ends before the handout's last line.
    Truncated,
    /// It has no line that is neither empty nor a comment.
    Empty,
    /// There is no such file.
    Missing,
    /// It cannot be opened or read.
    Unreadable,
    /// It has more bytes, or more lines, than a file may have.
    TooLong,
    /// It has a byte 0.
    Binary,
    /// It is UTF-16.
    Wide,
    /// It is to be graded by the student that it names, and names none.
    Unnamed,
}

impl Standing {
    /// Returns what a file with these lines is; `is_cut`: it ends before the handout's last.
    fn with(self, student: &[Line], is_cut: bool) -> Standing {
        match self {
            Standing::Whole if student.is_empty() => Standing::Empty,
            Standing::Whole if is_cut => Standing::Truncated,
            standing => standing,
        }
    }

    /// Returns what it is called.
    pub fn name(self) -> &'static str {
        match self {
            Standing::Whole => "graded",
            Standing::Truncated => "truncated",
            Standing::Empty => "empty",
            Standing::Missing => "missing",
            Standing::Unreadable => "unreadable",
            Standing::TooLong => "too long",
            Standing::Binary => "binary",
            Standing::Wide => "UTF-16",
            Standing::Unnamed => "names no student",
        }
    }
}

/// A blank, and why it does not have the machine's answer.
#[derive(Drop)]
pub struct BlankText {
    /// The number of its line in the handout, from 1.
    pub line: usize,
    /// The line, without its answer.
    pub bare: String,
    pub mark: Mark,
    /// Why it is wrong, in words; `None` if it is right.
    pub reason: Option<String>,
}

/// What a student's file has of a handout.
#[derive(Drop)]
pub struct FileGrade {
    pub file: String,
    /// The student's id, if the handout was made for it.
    pub id: Option<String>,
    /// The id that the file names, if it is another.
    pub other_id: Option<String>,
    /// The number of the lab that the file names, if it is another.
    pub other_lab: Option<u32>,
    /// Whether it is made from the script of the lab's page, and the handout is another.
    pub is_of_page: bool,
    /// Why it cannot be read, or what is to be said of it else; empty if nothing is.
    pub why: String,
    pub standing: Standing,
    /// How many lines of the handout the file has.
    pub kept: usize,
    /// How many have another line in their place.
    pub changed: usize,
    /// How many are not there.
    pub missing: usize,
    /// How many lines of the file are none of the handout.
    pub added: usize,
    /// How many blanks have the machine's answer.
    pub right: usize,
    /// The blanks, in the order of the handout.
    pub blanks: Vec<BlankText>,
    /// Lines of the handout that are to be looked at.
    pub noted: LineNotes,
}

/// Returns why a blank is wrong, in words; `bare` is its line.
fn words_of(alloc: Global, bare: &[u8], reason: &Reason) -> Result<String, AllocError> {
    let mut text = Text::new(alloc);
    put_reason(&mut text, word_of(bare), reason);
    text.finish()
}

/// Returns the text of a blank.
fn text_of(
    alloc: Global,
    handout: &[Asked],
    student: &[Line],
    blank: BlankMark,
) -> Result<BlankText, AllocError> {
    let (line, bare) = match handout.get(blank.place) {
        Some(asked) => (asked.line.number, asked.line.bare.as_slice()),
        None => (0, b"".as_slice()),
    };
    let reason = match reason_of(alloc, handout, student, blank)? {
        Some(reason) => Some(words_of(alloc, bare, &reason)?),
        None => None,
    };
    Ok(BlankText {
        line,
        bare: String::from_utf8_lossy(alloc, bare)?,
        mark: blank.mark,
        reason,
    })
}

/// Returns the texts of the blanks of a file.
fn texts_of(
    alloc: Global,
    handout: &[Asked],
    student: &[Line],
    blanks: &[BlankMark],
) -> Result<Vec<BlankText>, AllocError>
    ensures { IfOk result (λ v. vec_len v ≡ length blanks.now) }
{
    let mut texts = Vec::new(alloc);
    'blanks: for blank in blanks {
        texts.push(text_of(alloc, handout, student, *blank)?)?;
    }
    Ok(texts)
}

impl FileGrade {
    /// Returns what a file has of a handout; `student` are its lines, none if it could not be read.
    ///
    /// # Errors
    /// `AllocError`: the host is out of memory.
    pub fn of(
        alloc: Global,
        file: String,
        standing: Standing,
        handout: &[Asked],
        student: &[Line],
    ) -> Result<FileGrade, AllocError>
        ensures lines { IfOk result (λ g. g.kept + g.changed + g.missing ≡ length handout.now) }
        ensures blanks { IfOk result (λ g. vec_len g.blanks ≡ blanks_of handout.now) }
        ensures right { IfOk result (λ g. g.right ≤ vec_len g.blanks) }
    {
        let grade = grade_lines(alloc, handout, student)?;
        let blanks = texts_of(alloc, handout, student, grade.blanks.as_slice())?;
        let noted = LineNotes::of(alloc, handout, student, grade.found.as_slice())?;
        Ok(FileGrade {
            file,
            id: None,
            other_id: None,
            other_lab: None,
            is_of_page: false,
            why: String::new(alloc),
            standing: standing.with(student, grade.is_cut),
            kept: grade.kept,
            changed: grade.changed,
            missing: grade.missing,
            added: grade.added,
            right: grade.right(),
            blanks,
            noted,
        })
    }

    /// Returns how many lines the handout has that are neither empty nor comments.
    pub fn lines(&self) -> usize {
        self.kept
            .saturating_add(self.changed)
            .saturating_add(self.missing)
    }

    /// Whether each blank has the machine's answer.
    pub fn is_full(&self) -> bool
        ensures { result ≡ (self.now.right == vec_len self.now.blanks) }
    {
        self.right == self.blanks.len()
    }

    /// Returns the first blank that does not have the machine's answer.
    pub fn first_wrong(&self) -> Option<&BlankText> {
        'blanks: for blank in &self.blanks {
            if blank.reason.is_some() {
                return Some(blank);
            }
        }
        None
    }
}
