// `CheckLines`: answers are compared with those that the lines expect, and files for threads are judged; and `BareLines`: lines are
// printed without answers.

ghost use Rattle.line_player.specs.Answers.{HasPlayed};
ghost use Rattle.line_player.specs.PlayedLines.{Played};

use crate::run::tell_unexpected;
use crate::threads::{begins_for_threads, judge, read_rest};
use grade_reports::{Reason, put_reason, reason_of_text, word_of};
use handouts::{Expected, split};
use lab_host::{
    Fault, Listener, Place, Printout, Reading, Screen, each_line, put_lossy, tell_end, tell_refused,
};
use line_player::{LinePlayer, LineReply};
use line_traces::{Before, explain_answer};
use quiz_answers::is_right;
use std::alloc::{AllocError, Global};
use std::fmt;
use std::io::{BufReader, Read};
use text_builder::Text;

/// What is told of an expected answer that has the machine's values in another form.
const OTHER_FORM: &str = "only the form differs: check compares answers letter by letter";

/// Returns that an expected answer has the form of no answer to a line, and what would be right; `None` if it has one.
fn form_note(
    alloc: Global,
    line: &[u8],
    expected: &[u8],
    answer: &[u8],
) -> Result<Option<String>, AllocError> {
    let word = word_of(line);
    let reason = reason_of_text(alloc, word, expected, answer)?;
    if !matches!(reason, Reason::Form(..)) {
        return Ok(None);
    }
    let mut text = Text::new(alloc);
    put_reason(&mut text, word, &reason);
    Ok(Some(text.finish()?))
}

/// How many files, answers and differences there were.
#[derive(Clone, Copy)]
pub struct Tally {
    pub files: u64,
    pub answers: u64,
    pub differ: u64,
    /// How many files were refused, or could not be read.
    pub refused: u64,
}

/// What was counted of one file, as text: for example `12 answers, 1 differs`.
#[derive(Clone, Copy)]
pub struct Counts {
    answers: u64,
    differ: u64,
    refused: u64,
}

impl Tally {
    /// Nothing was counted yet.
    pub const NOTHING: Tally = Tally {
        files: 0,
        answers: 0,
        differ: 0,
        refused: 0,
    };

    /// Returns what was counted, but for the number of files.
    pub fn counts(self) -> Counts {
        Counts {
            answers: self.answers,
            differ: self.differ,
            refused: self.refused,
        }
    }

    /// Returns both together.
    pub fn with(self, other: Tally) -> Tally {
        Tally {
            files: self.files.saturating_add(other.files),
            answers: self.answers.saturating_add(other.answers),
            differ: self.differ.saturating_add(other.differ),
            refused: self.refused.saturating_add(other.refused),
        }
    }
}

/// For example `41 answers, 0 differ`, and `, 1 refused` if a file was refused.
impl fmt::Display for Counts {
    fn fmt<W: fmt::Write>(&self, f: &mut fmt::Formatter<W>) -> fmt::Result {
        let Counts {
            answers,
            differ,
            refused,
        } = *self;
        let answer_word = if answers == 1 { "answer" } else { "answers" };
        write!(f, "{answers} {answer_word}, {differ} differ")?;
        if refused > 0 {
            write!(f, ", {refused} refused")?;
        }
        Ok(())
    }
}

/// For example `3 files, 41 answers, 0 differ`.
impl fmt::Display for Tally {
    fn fmt<W: fmt::Write>(&self, f: &mut fmt::Formatter<W>) -> fmt::Result {
        let (files, counts) = (self.files, self.counts());
        let file_word = if files == 1 { "file" } else { "files" };
        write!(f, "{files} {file_word}, {counts}")
    }
}

/// Compares answers with those that the lines of a script expect, and prints the first line whose answer differs.
#[derive(Drop)]
pub struct CheckLines<'a> {
    file: &'a str,
    /// What was counted so far.
    pub tally: Tally,
    /// Whether a refusal that no line expects ends the check.
    strict: bool,
}

impl<'a> CheckLines<'a> {
    /// Returns a check of a script of which nothing was read.
    pub fn new(file: &'a str, strict: bool) -> CheckLines<'a> {
        CheckLines {
            file,
            tally: Tally {
                files: 1,
                ..Tally::NOTHING
            },
            strict,
        }
    }

    /// Counts an answer, if one is expected, and puts the line if it is the first of its script that differs, with why its answer is no
    /// plain success.
    fn compare(
        &mut self,
        out: &mut Text,
        place: Place<'_>,
        player: &LinePlayer,
        before: &Before,
        given: Expected<'_>,
        reply: LineReply,
    )
        requires played { (s : Played) × HasPlayed player.now s }
    {
        let Some(expected) = given.answer else {
            return;
        };
        let answer = told_answer(player, reply);
        self.tally.answers = self.tally.answers.saturating_add(1);
        if answer == expected {
            return;
        }
        self.tally.differ = self.tally.differ.saturating_add(1);
        if self.tally.differ > 1 {
            return;
        }
        put_difference(out, place, given.line, expected, answer);
        if reply == LineReply::Text && expected != b"?".as_slice() {
            put_why(out, player, before, given.line, expected);
        }
        out.push_str("\n")
    }
}

/// Returns the answer to a line; `nothing` if it has none.
fn told_answer(player: &LinePlayer, reply: LineReply) -> &[u8] {
    match reply {
        LineReply::Text => player.answer(),
        LineReply::Nothing | LineReply::Refused(_) => b"nothing",
    }
}

/// Appends a line whose answer differs: what the file says, and the machine; a blank has no answer that could be told.
fn put_difference(out: &mut Text, place: Place<'_>, line: &[u8], expected: &[u8], answer: &[u8]) {
    write!(out, "{place}: ");
    if expected == b"?".as_slice() {
        out.push_str("blank: ");
        return put_lossy(out, line);
    }
    put_lossy(out, line);
    out.push_str("\n  the file says    ");
    put_lossy(out, expected);
    out.push_str("\n  the machine says ");
    put_lossy(out, answer)
}

/// Returns, of an answer that is another than the expected one, that only its form differs, or why it is no plain success, if it is none.
fn why_of(
    alloc: Global,
    player: &LinePlayer,
    before: &Before,
    line: &[u8],
    expected: &[u8],
) -> Result<Option<String>, AllocError>
    requires played { (s : Played) × HasPlayed player.now s }
{
    if let Some(note) = form_note(alloc, line, expected, player.answer())? {
        return Ok(Some(note));
    }
    if is_right(alloc, expected, player.answer())? {
        return Ok(Some(String::from_str(alloc, OTHER_FORM)?));
    }
    explain_answer(alloc, player, before, line)
}

/// Appends what `why_of` returns, on a line of its own.
fn put_why(out: &mut Text, player: &LinePlayer, before: &Before, line: &[u8], expected: &[u8])
    requires played { (s : Played) × HasPlayed player.now s }
{
    match why_of(out.allocator(), player, before, line, expected) {
        Ok(Some(why)) => write!(out, "\n  why              {why}"),
        Ok(None) => {}
        Err(error) => out.note(Err(error)),
    }
}

impl Listener for CheckLines<'_> {
    fn line(
        &mut self,
        out: &mut Printout,
        player: &mut LinePlayer,
        number: u64,
        line: &[u8],
    ) -> Result<(), AllocError> {
        let given = split(line);
        let place = Place {
            file: self.file,
            line: number,
        };
        let before = Before::line(out.allocator(), player, given.line)?;
        let reply = player.line(given.line)?;
        if let LineReply::Refused(cause) = reply {
            tell_refused(out, place, player, given.line, cause);
        } else if self.strict {
            tell_unexpected(out, place, player, &before, given);
        }
        if out.is_open() {
            self.compare(&mut out.out, place, player, &before, given, reply);
        }
        Ok(())
    }

    fn end(&mut self, out: &mut Printout, player: &LinePlayer, lines: u64) {
        tell_end(out, self.file, player, lines)
    }
}

/// A file that is checked, and where what is told of it goes.
#[derive(Drop)]
pub struct Checked<'a, S> {
    pub screen: &'a mut S,
    pub lines: CheckLines<'a>,
}

impl<S: Screen> Reading for Checked<'_, S> {
    /// Compares the answers of a script; judges a file for threads, which expects none.
    ///
    /// # Errors
    /// `Told`: the file is refused; that was told. `Read`: the reader failed. `Memory`: the host is out of memory.
    fn read<R: Read + Drop>(&mut self, alloc: Global, reader: R) -> Result<(), Fault> {
        let mut reader = BufReader::new(alloc, reader)?;
        let mut front = Vec::new(alloc);
        if begins_for_threads(alloc, &mut reader, &mut front)? {
            read_rest(reader, &mut front)?;
            let mut out = Printout::new(alloc);
            judge(&mut out, self.lines.file, front.as_slice());
            return out.print(self.screen);
        }
        let reader = front.as_slice().chain(reader);
        each_line(alloc, reader, self.screen, &mut self.lines)
    }
}

/// Prints a script without the answers that its lines expect.
#[derive(Clone, Copy)]
pub struct BareLines;

impl Listener for BareLines {
    fn line(
        &mut self,
        out: &mut Printout,
        _player: &mut LinePlayer,
        _number: u64,
        line: &[u8],
    ) -> Result<(), AllocError> {
        out.bytes.extend_from_slice(split(line).line)?;
        out.bytes.extend_from_slice(b"\n")
    }

    fn end(&mut self, _out: &mut Printout, _player: &LinePlayer, _lines: u64) {}
}
