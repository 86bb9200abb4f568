// `LineTrace`: what happens on a line; and `trace_line`, which plays a line and returns that.

ghost use Rattle.std.specs.Prelude.{◌≡◌, IfOk, OnErr};
ghost use Rattle.hart_machine.specs.BufferEntries.{IsInWorld};
ghost use Rattle.line_player.specs.Answers.{Answers, HasPlayed};
ghost use Rattle.line_player.specs.PlayedLines.{next_answer, Played};
ghost use Rattle.process_model.specs.World.{World};

use crate::before::{Before, command_of};
use crate::changes::{Changes, Snapshot};
use crate::command_words::CommandWord;
use crate::explaining::explain_answer;
use crate::places::HartPlace;
use crate::request_traces::RequestTrace;
use crate::requests::{Touched, request_of, touched_by};
use crate::sums::AuditSums;
use hart_machine::Machine;
use json_objects::ObjectWriter;
use line_player::{LinePlayer, LineReply};
use script_language::Command;
use script_reader::trim_return;
use serde::{Described, Serialize, Serializer};
use std::alloc::{AllocError, Global};

/// What is seen of a line once it was played.
#[derive(Drop)]
pub struct Seen {
    /// Its answer, if it has one.
    pub answer: Option<String>,
    /// Where its hart is before the line.
    pub before: Option<HartPlace>,
    /// Its access or its fill, if it makes one and is not refused.
    pub request: Option<RequestTrace>,
    /// Why it was refused, its process was ended or a copy stopped, and which line would be right.
    pub note: Option<String>,
    /// What is other after the line, if it is a step and there is a machine.
    pub changes: Option<Changes>,
}

/// What happens on a line.
#[derive(Drop)]
pub struct LineTrace {
    /// The number of the line, from 1.
    pub line: u64,
    /// The line.
    pub text: String,
    /// How it was answered.
    pub reply: LineReply,
    pub seen: Seen,
    /// Of an audit, what was taken and given back since the one before; a `Ledger` puts it there.
    pub sums: Option<AuditSums>,
    /// The bytes that it touches.
    pub touched: Option<Touched>,
}

impl Described for LineTrace {}

impl Serialize for LineTrace {
    fn serialize<S: Serializer>(&self, out: &mut S) -> Result<(), S::Error> {
        let mut object = ObjectWriter::begin(out);
        object.member("line", &self.line);
        object.member("text", &self.text);
        let seen = &self.seen;
        object.maybe("answer", &seen.answer);
        object.maybe("before", &seen.before);
        object.maybe("request", &seen.request);
        object.maybe("note", &seen.note);
        object.maybe("changes", &seen.changes);
        object.maybe("sums", &self.sums);
        object.finish()
    }
}

/// What is seen before a line is played.
#[derive(Drop)]
struct Start {
    before: Before,
    snapshot: Snapshot,
    request: Option<RequestTrace>,
    touched: Option<Touched>,
}

/// Returns what is seen of a machine before a command.
fn seen_before(alloc: Global, machine: &Machine, command: &Command) -> Result<Start, AllocError>
    requires world { (w : World) × IsInWorld machine.now w }
{
    let snapshot = Snapshot::take(alloc, machine, CommandWord::of(command).hart)?;
    let request = match request_of(machine, command) {
        Some(request) => Some(RequestTrace::of(alloc, machine, request)?),
        None => None,
    };
    Ok(Start {
        before: Before::of_command(machine, command),
        snapshot,
        request,
        touched: touched_by(machine, command),
    })
}

/// Returns what is seen before the next line of a player.
fn look_before(alloc: Global, player: &LinePlayer, line: &[u8]) -> Result<Start, AllocError>
    requires played { (s : Played) × HasPlayed player.now s }
{
    let command = command_of(alloc, player, line)?;
    match (&command, player.machine()) {
        (Some(command), Some(machine)) => seen_before(alloc, machine, command),
        _ => Ok(Start {
            before: Before::NOTHING,
            snapshot: Snapshot::nothing(alloc),
            request: None,
            touched: None,
        }),
    }
}

/// Returns a line as text.
fn text_of(alloc: Global, line: &[u8]) -> Result<String, AllocError> {
    String::from_str(alloc, std::str::from_utf8(line).unwrap_or("?"))
}

/// Returns what holds of a request once its line was answered.
fn request_after(
    alloc: Global,
    machine: &Machine,
    request: Option<RequestTrace>,
    place: Option<HartPlace>,
    answer: &[u8],
) -> Result<Option<RequestTrace>, AllocError>
    requires world { (w : World) × IsInWorld machine.now w }
{
    match request {
        Some(request) => request.answered(alloc, machine, place, answer),
        None => Ok(None),
    }
}

/// Returns what is seen of a line that was answered by a text.
fn seen_after(
    alloc: Global,
    machine: &Machine,
    start: Start,
    answer: &[u8],
    note: Option<String>,
) -> Result<Seen, AllocError>
    requires world { (w : World) × IsInWorld machine.now w }
{
    let Start {
        snapshot,
        request,
        ..
    } = start;
    let changes = Changes::since(alloc, machine, &snapshot)?;
    Ok(Seen {
        answer: Some(text_of(alloc, answer)?),
        before: snapshot.place,
        request: request_after(alloc, machine, request, snapshot.place, answer)?,
        note,
        changes: Some(changes),
    })
}

/// Returns why a line was answered otherwise than by plain success; of a fault the request tells that.
fn note_of(
    alloc: Global,
    player: &LinePlayer,
    before: &Before,
    line: &[u8],
) -> Result<Option<String>, AllocError>
    requires played { (s : Played) × HasPlayed player.now s }
{
    if player.answer().starts_with(b"fault") {
        return Ok(None);
    }
    explain_answer(alloc, player, before, line)
}

/// Returns what is seen of a line that a player took.
fn look_after(
    alloc: Global,
    player: &LinePlayer,
    line: &[u8],
    reply: LineReply,
    start: Start,
) -> Result<Seen, AllocError>
    requires played { (s : Played) × HasPlayed player.now s }
{
    let note = note_of(alloc, player, &start.before, line)?;
    match player.machine() {
        Some(machine) if reply == LineReply::Text => {
            seen_after(alloc, machine, start, player.answer(), note)
        }
        _ => Ok(Seen {
            answer: None,
            before: None,
            request: None,
            note,
            changes: None,
        }),
    }
}

/// Plays the next line, without its end, and returns what happens on it; `number` is that of the line. What happens is that of
/// `LinePlayer::line`.
///
/// # Errors
/// `AllocError`: the host is out of memory; the line may have been played.
pub fn trace_line(
    alloc: Global,
    player: &mut LinePlayer,
    number: u64,
    line: &[u8],
) -> Result<LineTrace, AllocError>
    requires played { (s : Played) × HasPlayed player.old s }
    ensures played { IfOk result (λ _. (s : Played) → HasPlayed player.old s → HasPlayed player.new (next_answer s line.now).after) }
    ensures plays { IfOk result (λ _. (s : Played) × HasPlayed player.new s) }
    ensures answered { IfOk result (λ trace. (s : Played) → HasPlayed player.old s → Answers player.new trace.reply (next_answer s line.now)) }
    ensures number { IfOk result (λ trace. trace.line ≡ number) }
{
    let start = look_before(alloc, player, line)?;
    let touched = start.touched;
    let reply = player.line(line)?;
    let seen = look_after(alloc, player, line, reply, start)?;
    Ok(LineTrace {
        line: number,
        text: text_of(alloc, trim_return(line))?,
        reply,
        seen,
        sums: None,
        touched,
    })
}
