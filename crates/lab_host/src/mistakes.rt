// Why a script is refused, told on standard error as `FILE:LINE:COLUMN: TEXT`.

ghost use Rattle.line_player.specs.Answers.{HasPlayed};
ghost use Rattle.line_player.specs.PlayedLines.{Played};

use crate::fault::Fault;
use crate::lines::is_among;
use crate::printout::Printout;
use fault_texts::{explain, explain_end};
use grade_reports::Visible;
use line_player::LinePlayer;
use script_language::Cause;
use script_reader::{first_field, trim_return};
use std::fmt;

/// Where a line of a script is, as `FILE:LINE`.
#[derive(Clone, Copy)]
pub struct Place<'a> {
    pub file: &'a str,
    /// The number of the line, from 1.
    pub line: u64,
}

impl fmt::Display for Place<'_> {
    fn fmt<W: fmt::Write>(&self, f: &mut fmt::Formatter<W>) -> fmt::Result {
        let (file, line) = (Visible(self.file), self.line);
        write!(f, "{file}:{line}")
    }
}

/// The words of lines for a reference MMU that no script of a machine has.
static MMU_WORDS: [&[u8]; 7] = [
    b"ram", b"mem", b"satp", b"sfence", b"status", b"pmp", b"profile",
];

/// Whether a line is for a reference MMU.
fn is_for_mmu(line: &[u8]) -> bool {
    match first_field(line) {
        Some((word, _)) => is_among(MMU_WORDS.as_slice(), word),
        None => false,
    }
}

/// Tells why a line is refused.
pub fn tell_refused(
    out: &mut Printout,
    place: Place<'_>,
    player: &LinePlayer,
    line: &[u8],
    cause: Cause,
) {
    let Ok(mistake) = explain(out.allocator(), player.draft(), trim_return(line), cause) else {
        return out.fail(Fault::Memory);
    };
    let text = mistake.text.as_str();
    match mistake.column {
        Some(column) => out.tell(format_args!("{place}:{column}: {text}\n")),
        None => out.tell(format_args!("{place}: {text}\n")),
    }
    if is_for_mmu(line) {
        let file = Visible(place.file);
        writeln!(
            &mut out.err,
            "this is a line for a reference MMU: xv6lab mmu {file}"
        );
    }
}

/// Tells that a script has no `boot`, if that is so.
pub fn tell_end(out: &mut Printout, file: &str, player: &LinePlayer, lines: u64)
    requires played { (s : Played) × HasPlayed player.now s }
{
    if player.machine().is_some() {
        return;
    }
    let place = Place {
        file,
        line: lines.saturating_add(1),
    };
    let text = explain_end();
    out.tell(format_args!("{place}: {text}\n"))
}
