//! The program `xv6run`: plays a script of standard input as `xv6lab run` does. It prints each line with its answer, and below that the
//! answer that the line expects (`=> ANSWER`), if it is another. The status is 1 if one is, or the script is refused. It is small, so that
//! its sources run within a minute; all else that is asked of a script is a word of `xv6lab`.
#![tactic(auto)]

ghost use Rattle.std.specs.Prelude.{IfOk};
ghost use Rattle.line_player.specs.Answers.{HasPlayed};
ghost use Rattle.line_player.specs.PlayedLines.{Played};

use fault_texts::{explain, explain_end};
use handouts::{Expected, plain_line, split};
use line_player::{LinePlayer, LineReply};
use script_language::{Cause, LONGEST_SCRIPT};
use script_reader::trim_return;
use std::alloc::AllocError;
use std::io;
use std::io::{Read, Write};
use std::process::ExitCode;

/// What became of a line.
#[derive(Clone, Copy)]
enum Outcome {
    /// It has no answer, or one that it may have.
    Fine,
    /// It expects another answer.
    Differs,
    /// It is refused, and ends the script.
    Refused,
}

/// Returns the answer that a line expects; `None`: none, or a blank.
fn expected_of(line: Expected<'_>) -> Option<&[u8]> {
    match line.answer {
        Some([] | [b'?']) | None => None,
        Some(answer) => Some(answer),
    }
}

/// The width to which a line is filled up before its answer.
const WIDTH: usize = 34;

/// Appends a line with its answer.
fn put_answer(out: &mut Vec<u8>, line: &[u8], answer: &[u8]) -> Result<(), AllocError> {
    out.extend_from_slice(line)?;
    'blanks: for _ in line.len()..WIDTH {
        out.push(b' ')?;
    }
    out.extend_from_slice(b" => ")?;
    out.extend_from_slice(answer)?;
    Ok(out.push(b'\n')?)
}

/// Appends the answer that a line expects.
fn put_expected(out: &mut Vec<u8>, answer: &[u8]) -> Result<(), AllocError> {
    out.extend_from_slice(b"#   expected: ")?;
    out.extend_from_slice(answer)?;
    Ok(out.push(b'\n')?)
}

/// Prints a line with its answer, and the one that it expects, if that is another.
fn tell_answer(rt: &HostRuntime, line: Expected<'_>, answer: &[u8]) -> io::Result<Outcome> {
    let mut out = Vec::new(rt.alloc());
    put_answer(&mut out, trim_return(line.line), answer)?;
    let mut outcome = Outcome::Fine;
    if let Some(expected) = expected_of(line)
        && expected != answer
    {
        put_expected(&mut out, expected)?;
        outcome = Outcome::Differs;
    }
    io::writer(rt).write_all(out.as_slice())?;
    Ok(outcome)
}

/// Prints a line that has no answer.
fn tell_line(rt: &HostRuntime, line: &[u8]) -> io::Result<Outcome> {
    let mut out = Vec::from_slice(rt.alloc(), line)?;
    out.push(b'\n')?;
    io::writer(rt).write_all(out.as_slice())?;
    Ok(Outcome::Fine)
}

/// Tells why a line is refused.
fn tell_refused(
    rt: &HostRuntime,
    player: &LinePlayer,
    number: u64,
    line: &[u8],
    cause: Cause,
) -> io::Result<Outcome> {
    let mistake = explain(rt.alloc(), player.draft(), trim_return(line), cause)?;
    let text = mistake.text.as_str();
    match mistake.column {
        Some(column) => eprintln!(rt; "-:{number}:{column}: {text}")?,
        None => eprintln!(rt; "-:{number}: {text}")?,
    }
    Ok(Outcome::Refused)
}

/// Plays a line, and prints it with its answer, or why it is refused.
fn play_line(
    rt: &HostRuntime,
    player: &mut LinePlayer,
    number: u64,
    line: &[u8],
) -> io::Result<Outcome>
    requires { (s : Played) × HasPlayed player.old s }
    ensures { IfOk result (λ _. (s : Played) × HasPlayed player.new s) }
{
    let plain = plain_line(rt.alloc(), line)?;
    let line = split(plain.as_slice());
    match player.line(line.line)? {
        LineReply::Nothing => tell_line(rt, trim_return(line.line)),
        LineReply::Text => tell_answer(rt, line, player.answer()),
        LineReply::Refused(cause) => tell_refused(rt, player, number, line.line, cause),
    }
}

/// What became of a script.
#[derive(Clone, Copy)]
struct Ended {
    /// How many lines were read.
    lines: u64,
    outcome: Outcome,
}

/// Plays a script to its first line that is refused.
fn play_lines(rt: &HostRuntime, player: &mut LinePlayer, script: &[u8]) -> io::Result<Ended>
    requires { (s : Played) × HasPlayed player.old s }
    ensures { IfOk result (λ _. (s : Played) × HasPlayed player.new s) }
{
    let mut ended = Ended {
        lines: 0,
        outcome: Outcome::Fine,
    };
    if script.is_empty() {
        return Ok(ended);
    }
    let lines = script.strip_suffix(b"\n".as_slice()).unwrap_or(script);
    'lines: for line in lines.split(|byte| *byte == b'\n') {
        ended.lines = ended.lines.saturating_add(1);
        match play_line(rt, player, ended.lines, line)? {
            Outcome::Fine => {}
            Outcome::Differs => ended.outcome = Outcome::Differs,
            Outcome::Refused => {
                ended.outcome = Outcome::Refused;
                return Ok(ended);
            }
        }
    }
    Ok(ended)
}

/// Tells that a script has no `boot`.
fn tell_no_boot(rt: &HostRuntime, lines: u64) -> io::Result<bool> {
    let (line, text) = (lines.saturating_add(1), explain_end());
    eprintln!(rt; "-:{line}: {text}")?;
    Ok(false)
}

/// Plays the script of standard input. Returns whether each of its lines is answered as it may be.
fn run(rt: &HostRuntime) -> io::Result<bool> {
    let mut script = Vec::new(rt.alloc());
    rt.reader()
        .take(LONGEST_SCRIPT as u64 + 1)
        .read_to_end(&mut script)?;
    if script.len() > LONGEST_SCRIPT {
        eprintln!(rt; "-: a script has at most {LONGEST_SCRIPT} bytes")?;
        return Ok(false);
    }
    let mut player = LinePlayer::new(rt.alloc())?;
    let ended = play_lines(rt, &mut player, script.as_slice())?;
    match ended.outcome {
        Outcome::Fine if player.machine().is_none() => tell_no_boot(rt, ended.lines),
        Outcome::Fine => Ok(true),
        Outcome::Differs | Outcome::Refused => Ok(false),
    }
}

fn main(rt: HostRuntime) -> ExitCode {
    match run(&rt) {
        Ok(true) => ExitCode::SUCCESS,
        Ok(false) => ExitCode::FAILURE,
        Err(error) => {
            let _ = eprintln!(rt; "xv6run: {error}");
            ExitCode::FAILURE
        }
    }
}
