// `ReplLines`: each line is answered at once. A faulty line is forgotten with its error; `?` and `help` tell the lines, `undo` takes
// the last back, `save` writes those that were taken to a file, `quit` ends, and questions about the machine are answered.

ghost use Rattle.std.specs.Prelude.{◌≡◌, ◌-◌, ◌<◌, IfOk, length, map, take};
ghost use Rattle.line_player.specs.Answers.{HasPlayed};
ghost use Rattle.line_player.specs.PlayedLines.{Played, nothing_played, played_lines};

use crate::looks::{Asked, Look, NO_MACHINE, look_of, put_look};
use fault_texts::{explain, field_names};
use handouts::split;
use lab_host::{Listener, Printout};
use line_player::{LinePlayer, LineReply};
use line_traces::{Before, explain_answer};
use script_language::Cause;
use script_reader::{Row, first_field, trim_return};
use std::alloc::{AllocError, Global};
use std::fs;
use std::rt::Files;
use text_builder::Text;

/// What is printed, on standard error, when another line may be typed.
const PROMPT: &str = "> ";

/// What is printed, on standard error, before the first line is typed.
pub const BANNER: &str =
    "Each line of a script is answered at once; ? tells the lines, quit or Ctrl-D ends.\n> ";

/// What `?` tells of the lines that are no lines of a script.
const OWN_LINES: &str =
    "  regions SLOT\n  vmprint SLOT\n  tlb HART\n  frames\n  undo\n  save FILE\n  help, ?\n  quit\n";

/// What a line asks for that is neither a line of a script nor a question about the machine.
#[derive(Clone, Copy)]
enum Wish {
    Help,
    Undo,
    Quit,
    /// `exit` alone, which is `quit` in other programs.
    Exit,
}

/// The lines that ask for that.
static WISHES: [(&[u8], Wish); 5] = [
    (b"?", Wish::Help),
    (b"help", Wish::Help),
    (b"undo", Wish::Undo),
    (b"quit", Wish::Quit),
    (b"exit", Wish::Exit),
];

/// Returns what a line asks for, without blanks around it; `None` if it is another line.
fn wish_of(line: &[u8]) -> Option<Wish> {
    'wishes: for (text, wish) in WISHES.as_slice() {
        if *text == line {
            return Some(*wish);
        }
    }
    None
}

/// The lines that were taken, of which `undo` takes the last back.
#[derive(Drop)]
struct Taken {
    alloc: Global,
    lines: Vec<Vec<u8>>,
    /// Whether `quit` was typed.
    over: bool,
}

/// Returns a player that has taken these lines, and no others.
///
/// # Errors
/// `AllocError`: the host is out of memory.
fn replayed(alloc: Global, lines: &[Vec<u8>]) -> Result<LinePlayer, AllocError>
    ensures { IfOk result (λ player. HasPlayed player (played_lines nothing_played (map (λ line. line.items) lines.now))) }
{
    let mut player = LinePlayer::new(alloc)?;
    'lines: for line in lines {
        player.line(line.as_slice())?;
    }
    Ok(player)
}

/// Appends the words of lines with their fields.
fn put_lines(out: &mut Text) {
    for row in Row::all().as_slice() {
        let word = std::str::from_utf8(row.text).unwrap_or("?");
        let fields = field_names(row.word);
        if row.kinds.is_empty() {
            writeln!(out, "  {word}");
        } else {
            writeln!(out, "  {word} {fields}");
        }
    }
    out.push_str(OWN_LINES)
}

/// Appends the answer to a question about the machine.
fn put_asked(out: &mut Text, player: &LinePlayer, look: Look)
    requires played { (s : Played) × HasPlayed player.now s }
{
    match player.machine() {
        Some(machine) => put_look(out, machine, look),
        None => writeln!(out, "{NO_MACHINE}"),
    }
}

/// Appends why a line is refused.
fn put_refusal(out: &mut Text, player: &LinePlayer, line: &[u8], cause: Cause) {
    let Ok(mistake) = explain(out.allocator(), player.draft(), trim_return(line), cause) else {
        return out.note(Err(AllocError));
    };
    let text = mistake.text.as_str();
    match mistake.column {
        Some(column) => writeln!(out, "column {column}: {text}"),
        None => writeln!(out, "{text}"),
    }
}

/// Appends an answer, and why it is no plain success, if it is none.
fn put_answer(out: &mut Text, player: &LinePlayer, before: &Before, line: &[u8])
    requires played { (s : Played) × HasPlayed player.now s }
{
    let answer = std::str::from_utf8(player.answer()).unwrap_or("?");
    match explain_answer(out.allocator(), player, before, line) {
        Ok(Some(note)) => writeln!(out, "{answer}\n  {note}"),
        Ok(None) => writeln!(out, "{answer}"),
        Err(error) => out.note(Err(error)),
    }
}

impl Taken {
    /// Returns the lines, as a script.
    fn script(&self) -> Result<Vec<u8>, AllocError> {
        let mut text = Vec::new(self.alloc);
        'lines: for line in self.lines.as_slice() {
            text.extend_from_slice(line.as_slice())?;
            text.extend_from_slice(b"\n")?;
        }
        Ok(text)
    }

    /// Takes the last line back: the player has then taken those before it, and no others.
    fn undo(&mut self, out: &mut Text, player: &mut LinePlayer) -> Result<(), AllocError>
        requires played { (s : Played) × HasPlayed player.old s }
        ensures played { IfOk result (λ _. (s : Played) × HasPlayed player.new s) }
        ensures undone { IfOk result (λ _. 0 < length self.old.lines.items →
            (self.new.lines.items ≡ take (length self.old.lines.items - 1) self.old.lines.items)
            × HasPlayed player.new (played_lines nothing_played (map (λ line. line.items) self.new.lines.items))) }
    {
        let Some(last) = self.lines.pop() else {
            out.push_str("there is no line to take back\n");
            return Ok(());
        };
        *player = replayed(self.alloc, self.lines.as_slice())?;
        let text = std::str::from_utf8(last.as_slice()).unwrap_or("?");
        writeln!(out, "took back: {text}");
        Ok(())
    }

    /// Keeps a line that was taken.
    fn keep(&mut self, line: &[u8]) -> Result<(), AllocError> {
        let line = Vec::from_slice(self.alloc, line)?;
        self.lines.push(line)?;
        Ok(())
    }

    /// Plays a line of a script, and puts its answer.
    fn play(
        &mut self,
        out: &mut Text,
        player: &mut LinePlayer,
        line: &[u8],
    ) -> Result<(), AllocError>
        requires played { (s : Played) × HasPlayed player.old s }
        ensures played { IfOk result (λ _. (s : Played) × HasPlayed player.new s) }
    {
        let before = Before::line(self.alloc, player, line)?;
        match player.line(line)? {
            LineReply::Refused(cause) => {
                put_refusal(out, player, line, cause);
                return Ok(());
            }
            LineReply::Nothing => {}
            LineReply::Text => put_answer(out, player, &before, line),
        }
        self.keep(line)
    }

    /// Plays a line of a script, or answers a question about the machine.
    fn play_or_look(
        &mut self,
        out: &mut Text,
        player: &mut LinePlayer,
        line: &[u8],
    ) -> Result<(), AllocError>
        requires played { (s : Played) × HasPlayed player.old s }
        ensures played { IfOk result (λ _. (s : Played) × HasPlayed player.new s) }
    {
        match look_of(line) {
            Asked::No => return self.play(out, player, line),
            Asked::Yes(look) => put_asked(out, player, look),
            Asked::Wrong(text) => writeln!(out, "column 1: {text}"),
        }
        Ok(())
    }

    /// Does what a line asks for.
    fn answer(
        &mut self,
        out: &mut Text,
        player: &mut LinePlayer,
        line: &[u8],
    ) -> Result<(), AllocError>
        requires played { (s : Played) × HasPlayed player.old s }
        ensures played { IfOk result (λ _. (s : Played) × HasPlayed player.new s) }
    {
        match wish_of(line.trim_ascii()) {
            Some(Wish::Help) => put_lines(out),
            Some(Wish::Undo) => return self.undo(out, player),
            Some(Wish::Quit) => self.over = true,
            Some(Wish::Exit) => out.push_str(
                "`exit HART STATUS` ends a process; `quit` or Ctrl-D ends `repl`\n",
            ),
            None => return self.play_or_look(out, player, line),
        }
        Ok(())
    }
}

/// Answers each line at once.
#[derive(Drop)]
pub struct ReplLines<'a, F: Files> {
    /// Where `save` writes.
    files: &'a F,
    taken: Taken,
}

impl<'a, F: Files> ReplLines<'a, F> {
    /// Returns that no line was taken.
    pub fn new(alloc: Global, files: &'a F) -> ReplLines<'a, F> {
        ReplLines {
            files,
            taken: Taken {
                alloc,
                lines: Vec::new(alloc),
                over: false,
            },
        }
    }

    /// Writes the lines that were taken to a new file, as a script.
    fn save(&self, out: &mut Text, name: &str) -> Result<(), AllocError> {
        if name.is_empty() {
            out.push_str("save FILE: the name of a new file is missing\n");
            return Ok(());
        }
        if fs::open(self.files, name).is_ok() {
            writeln!(
                out,
                "{name} is there already, and stays as it is; name another file"
            );
            return Ok(());
        }
        let script = self.taken.script()?;
        let count = self.taken.lines.len();
        match fs::write(self.files, name, script.as_slice()) {
            Ok(()) => writeln!(out, "{count} lines are in {name}"),
            Err(error) => writeln!(out, "{name}: {error}"),
        }
        Ok(())
    }
}

impl<F: Files> Listener for ReplLines<'_, F> {
    fn line(
        &mut self,
        out: &mut Printout,
        player: &mut LinePlayer,
        _number: u64,
        line: &[u8],
    ) -> Result<(), AllocError> {
        let line = split(line).line;
        if let Some((b"save", name)) = first_field(line) {
            let name = std::str::from_utf8(name.trim_ascii()).unwrap_or("");
            self.save(&mut out.out, name)?;
        } else {
            self.taken.answer(&mut out.out, player, line)?;
        }
        if !self.taken.over {
            out.err.push_str(PROMPT);
        }
        Ok(())
    }

    fn is_over(&self) -> bool {
        self.taken.over
    }

    fn end(&mut self, out: &mut Printout, _player: &LinePlayer, _lines: u64) {
        if !self.taken.over {
            out.err.push_str("\n");
        }
    }
}
