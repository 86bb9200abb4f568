// `TraceLines`: what happens on each line, or on one, is printed, as text or as JSON.

ghost use Rattle.line_player.specs.Answers.{HasPlayed};
ghost use Rattle.line_player.specs.PlayedLines.{Played};

use handouts::split;
use lab_host::{ChosenLine, Listener, Place, Printout, put_object, tell_end, tell_refused};
use line_player::{LinePlayer, LineReply};
use line_traces::{Ledger, LineTrace, put_trace, trace_line};
use std::alloc::AllocError;
use text_builder::Text;

/// Prints what happens on each line, or on one.
#[derive(Drop)]
pub struct TraceLines<'a> {
    pub file: &'a str,
    /// Whether one JSON object a line is printed in place of text.
    pub json: bool,
    /// The only line of which that is printed, if one is named.
    pub only: Option<ChosenLine>,
    /// What was taken and given back since the last audit.
    pub ledger: Ledger,
}

impl TraceLines<'_> {
    /// Takes note of how a line was answered, and returns whether what happened on it is printed.
    fn note(&mut self, number: u64, reply: LineReply) -> bool {
        let Some(only) = &mut self.only else {
            return true;
        };
        if reply == LineReply::Text {
            only.pass(number);
        }
        only.number == number && reply == LineReply::Text
    }

    /// Puts what happened on a line.
    fn put(&self, out: &mut Text, trace: &LineTrace) {
        if self.json {
            put_object(out, trace)
        } else {
            put_trace(out, trace)
        }
    }
}

impl Listener for TraceLines<'_> {
    fn line(
        &mut self,
        out: &mut Printout,
        player: &mut LinePlayer,
        number: u64,
        line: &[u8],
    ) -> Result<(), AllocError> {
        let bare = split(line).line;
        let mut trace = trace_line(out.allocator(), player, number, bare)?;
        if let LineReply::Refused(cause) = trace.reply {
            let place = Place {
                file: self.file,
                line: number,
            };
            tell_refused(out, place, player, bare, cause);
            return Ok(());
        }
        self.ledger.add(&mut trace, player.machine())?;
        if self.note(number, trace.reply) {
            self.put(&mut out.out, &trace);
        }
        Ok(())
    }

    fn end(&mut self, out: &mut Printout, player: &LinePlayer, lines: u64) {
        tell_end(out, self.file, player, lines);
        if let Some(only) = &self.only {
            only.tell_missing(out, self.file, lines);
        }
    }

    fn is_over(&self) -> bool {
        match &self.only {
            Some(only) => only.is_settled(),
            None => false,
        }
    }
}
