// `Line`, a struct: a line of a script, its answer (`Answer`, an enum) apart; `lines_of`: the lines of a file that are neither empty nor
// comments; `student_lines`: those of what a student hands in.

use crate::expected::split;
use memchr::memmem;
use script_reader::trim_return;
use std::alloc::{AllocError, Global};

/// What a line says after its `=>`.
#[derive(Drop)]
pub enum Answer {
    /// It has no `=>`.
    Absent,
    /// `?`, or nothing.
    Blank,
    /// An answer.
    Given(Vec<u8>),
}

/// A line of a script, without the comment behind it, and without blanks around it and its answer.
#[derive(Drop)]
pub struct Line {
    /// Its number in its file, from 1.
    pub number: usize,
    /// What comes before `=>`.
    pub bare: Vec<u8>,
    pub answer: Answer,
}

/// Returns a line without the comment behind it, which begins with `#` after a blank. A line that is a comment stays.
pub fn without_comment(line: &[u8]) -> &[u8] {
    if line.trim_ascii_start().starts_with(b"#") {
        return line;
    }
    let hash = match memmem::find(line, b" #") {
        Some(at) => Some(at),
        None => memmem::find(line, b"\t#"),
    };
    match hash {
        Some(at) => line.split_at(at.min(line.len())).0.trim_ascii_end(),
        None => line,
    }
}

/// Returns what a line says after its `=>`.
fn answer_of(alloc: Global, answer: Option<&[u8]>) -> Result<Answer, AllocError> {
    match answer {
        None => Ok(Answer::Absent),
        Some([] | [b'?']) => Ok(Answer::Blank),
        Some(answer) => Ok(Answer::Given(Vec::from_slice(alloc, answer)?)),
    }
}

/// Adds a line of a file, which has this number, unless it is empty or a comment.
fn put_line(
    alloc: Global,
    lines: &mut Vec<Line>,
    number: usize,
    text: &[u8],
) -> Result<(), AllocError> {
    let text = without_comment(text.trim_ascii());
    if text.is_empty() || text.starts_with(b"#") {
        return Ok(());
    }
    let given = split(text);
    lines.push(Line {
        number,
        bare: Vec::from_slice(alloc, given.line)?,
        answer: answer_of(alloc, given.answer)?,
    })?;
    Ok(())
}

/// Returns a text without the byte order mark that some editors and spreadsheets write before it.
pub fn without_mark(text: &[u8]) -> &[u8] {
    match text {
        [0xef, 0xbb, 0xbf, rest @ ..] => rest,
        _ => text,
    }
}

/// Adds the lines of a text, which end by this byte, that are neither empty nor comments; `number` is that of the line before. Returns that
/// of the last.
fn put_lines(
    alloc: Global,
    lines: &mut Vec<Line>,
    number: usize,
    text: &[u8],
    end: u8,
) -> Result<usize, AllocError> {
    let mut number = number;
    'lines: for line in text.split(|byte| *byte == end) {
        number = number.saturating_add(1);
        put_line(alloc, lines, number, line)?;
    }
    Ok(number)
}

/// Returns the lines of what a student hands in that are neither empty nor comments. They end by LF, CR LF, or CR alone, as old editors write
/// them.
///
/// # Errors
/// `AllocError`: the host is out of memory.
pub fn student_lines(alloc: Global, text: &[u8]) -> Result<Vec<Line>, AllocError> {
    let mut lines = Vec::new(alloc);
    let mut number = 0usize;
    'parts: for part in without_mark(text).split(|byte| *byte == b'\n') {
        number = put_lines(alloc, &mut lines, number, trim_return(part), b'\r')?;
    }
    Ok(lines)
}

/// Returns the lines of a handout that are neither empty nor comments. They end by LF or CR LF, as those of each script.
///
/// # Errors
/// `AllocError`: the host is out of memory.
pub fn lines_of(alloc: Global, text: &[u8]) -> Result<Vec<Line>, AllocError> {
    let mut lines = Vec::new(alloc);
    put_lines(alloc, &mut lines, 0, without_mark(text), b'\n')?;
    Ok(lines)
}
