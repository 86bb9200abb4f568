// `play_handout`: plays the handout of a lab, and returns its lines with the machine's answers.

ghost use Rattle.std.specs.Prelude.{IfOk};
ghost use Rattle.line_player.specs.Answers.{HasPlayed};
ghost use Rattle.line_player.specs.PlayedLines.{Played};

use grade_reports::Visible;
use handouts::{Answer, Asked, Line, blank_count, lines_of, plain_line};
use lab_host::{Fault, Place, Printout, played, put_lossy, tell_end};
use line_player::{LinePlayer, LineReply};
use std::alloc::AllocError;
use text_builder::Text;

/// The most lines that a handout may have that are neither empty nor comments.
pub const LONGEST_HANDOUT: usize = 1000;

/// Tells if a handout has a blank at a line that has no answer, or another answer than the machine's.
fn tell_answer(out: &mut Printout, place: Place<'_>, line: &Line, right: &[u8]) {
    match &line.answer {
        Answer::Blank if right.is_empty() => {
            out.tell(format_args!("{place}: a blank, and the line has no answer\n"))
        }
        Answer::Given(given) if given.as_slice() != right => {
            let mut text = Text::new(out.allocator());
            put_lossy(&mut text, given.as_slice());
            text.push_str(", and the machine answers ");
            put_lossy(&mut text, right);
            match text.finish() {
                Ok(text) => out.tell(format_args!("{place}: the handout has {text}\n")),
                Err(_) => out.fail(Fault::Memory),
            }
        }
        _ => {}
    }
}

/// Plays a line of a handout, and returns its answer; nothing if it has none. Tells if the line is refused, or what the handout has after
/// `=>` is faulty.
///
/// # Errors
/// `AllocError`: the host is out of memory.
fn right_answer(
    out: &mut Printout,
    file: &str,
    player: &mut LinePlayer,
    line: &Line,
) -> Result<Vec<u8>, AllocError>
    requires played { (s : Played) × HasPlayed player.old s }
    ensures played { IfOk result (λ _. (s : Played) × HasPlayed player.new s) }
{
    let alloc = out.allocator();
    let place = Place {
        file,
        line: line.number as u64,
    };
    let bare = plain_line(alloc, line.bare.as_slice())?;
    let reply = played(out, place, player, bare.as_slice())?;
    let right = match reply {
        LineReply::Text => Vec::from_slice(alloc, player.answer())?,
        LineReply::Nothing | LineReply::Refused(_) => Vec::new(alloc),
    };
    tell_answer(out, place, line, right.as_slice());
    Ok(right)
}

/// Plays lines, and appends each with the machine's answer.
///
/// # Errors
/// Those of `play_lines`.
fn play_each(
    out: &mut Printout,
    file: &str,
    lines: Vec<Line>,
    player: &mut LinePlayer,
    handout: &mut Vec<Asked>,
) -> Result<(), AllocError>
    requires played { (s : Played) × HasPlayed player.old s }
{
    let mut last = 0u64;
    'lines: for line in lines {
        if !out.is_open() {
            break;
        }
        last = line.number as u64;
        let right = right_answer(out, file, player, &line)?;
        handout.push(Asked { line, right })?;
    }
    tell_end(out, file, player, last);
    Ok(())
}

/// Plays the lines of a handout, and returns each with the machine's answer. Tells if a line is refused, an answer is faulty, or there is
/// no `boot`; only lines before such a line are returned.
///
/// # Errors
/// `AllocError`: the host is out of memory.
fn play_lines(out: &mut Printout, file: &str, lines: Vec<Line>) -> Result<Vec<Asked>, AllocError> {
    let mut handout = Vec::new(out.allocator());
    let mut player = LinePlayer::new(out.allocator())?;
    play_each(out, file, lines, &mut player, &mut handout)?;
    Ok(handout)
}

/// Plays a handout, and returns its lines that are neither empty nor comments, each with the machine's answer.
///
/// # Errors
/// `Told`: the handout is refused, as by `check`; it has no blank, a blank at a line that has no answer, or another answer than the
/// machine's; or it has too many lines. That was told. `Memory`: the host is out of memory.
pub fn play_handout(out: &mut Printout, file: &str, text: &[u8]) -> Result<Vec<Asked>, Fault> {
    let lines = lines_of(out.allocator(), text)?;
    let name = Visible(file);
    if lines.len() > LONGEST_HANDOUT {
        out.tell(format_args!("{name}: a handout has at most {LONGEST_HANDOUT} lines\n"));
        return Err(Fault::Told);
    }
    let handout = play_lines(out, file, lines)?;
    if blank_count(handout.as_slice()) == 0 {
        out.tell(format_args!("{name}: no line ends with => ?, so there is nothing to grade\n"));
    }
    if out.is_open() {
        Ok(handout)
    } else {
        Err(Fault::Told)
    }
}
