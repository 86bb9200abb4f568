// `RunLines`: each line is printed with its answer; `tell_unexpected`, what a strict word says of a refusal.

ghost use Rattle.std.specs.Prelude.{IfOk};
ghost use Rattle.line_player.specs.Answers.{HasPlayed};
ghost use Rattle.line_player.specs.PlayedLines.{Played};

use command_words::Telling;
use handouts::{Expected, split};
use lab_host::{Fault, Listener, Place, Printout, put_lossy, tell_end, tell_refused};
use line_player::{LinePlayer, LineReply};
use line_traces::{Before, explain_answer};
use script_reader::trim_return;
use std::alloc::AllocError;
use text_builder::Text;

/// Nothing is told beside answers but what is wrong with an image.
pub const ANSWERS_ALONE: Telling = Telling {
    explain: false,
    strict: false,
};

/// Prints each line with its answer, as `LINE => ANSWER`.
#[derive(Drop)]
pub struct RunLines<'a> {
    file: &'a str,
    telling: Telling,
    /// How many lines were refused so far that expected no refusal, and the number of the first.
    refused: u64,
    first: u64,
}

impl<'a> RunLines<'a> {
    /// Returns what runs a script of which nothing was read.
    pub fn new(file: &'a str, telling: Telling) -> RunLines<'a> {
        RunLines {
            file,
            telling,
            refused: 0,
            first: 0,
        }
    }

    /// Counts a line if it was refused and expected no refusal.
    fn count(&mut self, number: u64, answer: &[u8], expected: Option<&[u8]>) {
        if !answer.starts_with(b"refused") || expected == Some(answer) {
            return;
        }
        if self.refused == 0 {
            self.first = number;
        }
        self.refused = self.refused.saturating_add(1);
    }

    /// Puts how many lines were refused, if some were and it is to be told.
    fn put_refusals(&self, out: &mut Text) {
        if self.refused == 0 || !self.telling.explain {
            return;
        }
        let (count, first) = (self.refused, self.first);
        let lines = if count == 1 { "line" } else { "lines" };
        writeln!(
            out,
            "# {count} {lines} refused, the first is line {first}: what follows it may be answered for another phase or process; --strict stops there"
        )
    }
}

/// Tells that a line was refused although it expects no refusal, if that is so.
pub fn tell_unexpected(
    out: &mut Printout,
    place: Place<'_>,
    player: &LinePlayer,
    before: &Before,
    line: Expected<'_>,
)
    requires played { (s : Played) × HasPlayed player.now s }
{
    let answer = player.answer();
    if !answer.starts_with(b"refused") || line.answer == Some(answer) {
        return;
    }
    let text = std::str::from_utf8(answer).unwrap_or("?");
    match explain_answer(out.allocator(), player, before, line.line) {
        Ok(Some(note)) => out.tell(format_args!("{place}: {text}: {note}\n")),
        Ok(None) => out.tell(format_args!("{place}: {text}\n")),
        Err(_) => out.fail(Fault::Memory),
    }
}

/// Appends a line with its answer.
fn put_answered(out: &mut Text, line: &[u8], answer: &[u8]) {
    let answer = std::str::from_utf8(answer).unwrap_or("?");
    match String::from_utf8_lossy(out.allocator(), trim_return(line)) {
        Ok(line) => {
            let line = line.as_str();
            writeln!(out, "{line:<34} => {answer}")
        }
        Err(error) => out.note(Err(error)),
    }
}

/// Appends, below an answer, why it is no plain success, if it is none.
fn put_note(out: &mut Text, player: &LinePlayer, before: &Before, line: &[u8])
    requires played { (s : Played) × HasPlayed player.now s }
{
    match explain_answer(out.allocator(), player, before, line) {
        Ok(Some(note)) => writeln!(out, "#   {note}"),
        Ok(None) => {}
        Err(error) => out.note(Err(error)),
    }
}

/// Puts a line with the answer that it got, and what is to be told of that.
fn put_answer(
    out: &mut Printout,
    place: Place<'_>,
    player: &LinePlayer,
    before: &Before,
    line: Expected<'_>,
    telling: Telling,
)
    requires played { (s : Played) × HasPlayed player.now s }
{
    put_answered(&mut out.out, line.line, player.answer());
    if telling.explain || player.answer().starts_with(b"refused 12 BadImage") {
        put_note(&mut out.out, player, before, line.line);
    }
    if telling.strict {
        tell_unexpected(out, place, player, before, line)
    }
}

/// Plays a line, and puts it with its answer; tells why it is refused, if it is.
///
/// # Errors
/// `AllocError`: the host is out of memory.
pub fn run_line(
    out: &mut Printout,
    place: Place<'_>,
    player: &mut LinePlayer,
    line: Expected<'_>,
    telling: Telling,
) -> Result<(), AllocError>
    requires played { (s : Played) × HasPlayed player.old s }
    ensures played { IfOk result (λ _. (s : Played) × HasPlayed player.new s) }
{
    let bare = line.line;
    let before = Before::line(out.allocator(), player, bare)?;
    match player.line(bare)? {
        LineReply::Nothing => {
            put_lossy(&mut out.out, trim_return(bare));
            out.out.push_str("\n")
        }
        LineReply::Text => put_answer(out, place, player, &before, line, telling),
        LineReply::Refused(cause) => tell_refused(out, place, player, bare, cause),
    }
    Ok(())
}

impl Listener for RunLines<'_> {
    fn line(
        &mut self,
        out: &mut Printout,
        player: &mut LinePlayer,
        number: u64,
        line: &[u8],
    ) -> Result<(), AllocError> {
        let place = Place {
            file: self.file,
            line: number,
        };
        let line = split(line);
        run_line(out, place, player, line, self.telling)?;
        self.count(number, player.answer(), line.answer);
        Ok(())
    }

    fn end(&mut self, out: &mut Printout, player: &LinePlayer, lines: u64) {
        tell_end(out, self.file, player, lines);
        if out.is_open() {
            self.put_refusals(&mut out.out);
        }
    }
}
