// `is_kept`: whether a line of a student's file is a line of the handout.

ghost use Rattle.std.specs.Prelude.{◌≡◌, ◌↔◌, IsTrue};
ghost use Rattle.handouts.specs.Lines.{Allows, IsKept, IsSame};

use crate::lines::{Answer, Line};
use script_reader::first_field;

/// Whether two lines have the same fields.
pub(crate) fn is_same(one: &[u8], other: &[u8]) -> bool
    ensures { IsTrue result ↔ IsSame one.now other.now }
{
    let mut one = one;
    let mut other = other;
    'fields: while let Some((field, after)) = first_field(one) {
        let Some((second, rest)) = first_field(other) else {
            return false;
        };
        if field != second {
            return false;
        }
        one = after;
        other = rest;
    }
    first_field(other).is_none()
}

/// Whether the answer of the handout's line allows that of the student's.
fn allows(given: &Answer, written: &Answer) -> bool
    ensures { IsTrue result ↔ Allows given.now written.now }
{
    match (given, written) {
        (Answer::Absent, Answer::Absent) => true,
        (Answer::Blank, Answer::Blank | Answer::Given(_)) => true,
        (Answer::Given(given), Answer::Given(written)) => {
            is_same(given.as_slice(), written.as_slice())
        }
        _ => false,
    }
}

/// Whether a student's line, the second, is the handout's.
pub fn is_kept(line: &Line, written: &Line) -> bool
    ensures { IsTrue result ↔ IsKept line.now written.now }
{
    is_same(line.bare.as_slice(), written.bare.as_slice()) && allows(&line.answer, &written.answer)
}
