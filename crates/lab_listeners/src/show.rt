// `ShowLines`: each line is printed with its answer; lines that ask a question about the machine are answered below them.

ghost use Rattle.line_player.specs.Answers.{HasPlayed};
ghost use Rattle.line_player.specs.PlayedLines.{Played};

use crate::looks::{Asked, Look, NO_MACHINE, look_of, put_look};
use crate::run::{ANSWERS_ALONE, run_line};
use handouts::split;
use lab_host::{Listener, Place, Printout, put_lossy, tell_end};
use line_player::LinePlayer;
use std::alloc::AllocError;

/// Prints each line with its answer, and answers questions about the machine.
#[derive(Drop)]
pub struct ShowLines<'a> {
    pub file: &'a str,
}

/// Puts a line that asks a question, and the answer.
fn put_answered(out: &mut Printout, place: Place<'_>, player: &LinePlayer, line: &[u8], look: Look)
    requires played { (s : Played) × HasPlayed player.now s }
{
    let Some(machine) = player.machine() else {
        return tell_question(out, place, NO_MACHINE);
    };
    put_lossy(&mut out.out, line);
    out.out.push_str("\n");
    put_look(&mut out.out, machine, look)
}

/// Tells what is wrong with a line that asks a question.
fn tell_question(out: &mut Printout, place: Place<'_>, text: &str) {
    out.tell(format_args!("{place}:1: {text}\n"))
}

impl Listener for ShowLines<'_> {
    fn line(
        &mut self,
        out: &mut Printout,
        player: &mut LinePlayer,
        number: u64,
        line: &[u8],
    ) -> Result<(), AllocError> {
        let line = split(line);
        let place = Place {
            file: self.file,
            line: number,
        };
        match look_of(line.line) {
            Asked::No => return run_line(out, place, player, line, ANSWERS_ALONE),
            Asked::Wrong(text) => tell_question(out, place, text),
            Asked::Yes(look) => put_answered(out, place, player, line.line, look),
        }
        Ok(())
    }

    fn end(&mut self, out: &mut Printout, player: &LinePlayer, lines: u64) {
        tell_end(out, self.file, player, lines)
    }
}
