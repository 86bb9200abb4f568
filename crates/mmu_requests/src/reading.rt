// `read_line`: what a line asks for, or what is wrong with it.

ghost use Rattle.std.specs.Prelude.{◌≡◌, IfErr, IfNone, IfOk, IfSome};
ghost use Rattle.mmu_requests.specs.Lines.{IsNothing, IsRequest, MakesNone};
ghost use Rattle.mmu_requests.specs.Mistakes.{IfMistake};
ghost use Rattle.script_language.specs.Lines.{fields_of};

use crate::fields::{Fields, Refusal};
use crate::line_word::{ALL, Word};
use crate::requests::Request;
use line_fields::{Mistake, Place, field_at, field_count, quoted};
use std::alloc::{AllocError, Global};

/// What the words of the first protocol, that are gone, become.
const NO_FILL: &str =
    "no line of protocol 2 says when a hart caches a PTE, or has one cached: an access lists all that the hart may hold. To have an entry of yours judged, end the access with \"=> pa 0x.. by WORD\", WORD being the PTE that the entry holds";

/// Whether a word is one of the first protocol that is gone.
fn is_gone(word: &[u8]) -> bool {
    word == b"fill".as_slice() || word == b"lookup".as_slice()
}

/// The mistake of a first field that is no word.
fn unknown_word(alloc: Global, place: Place<'_>) -> Result<Mistake, AllocError> {
    let quote = quoted(alloc, place.bytes)?;
    let text = if is_gone(place.bytes) {
        format!(in alloc; "{quote} is gone: {NO_FILL}")?
    } else {
        format!(in alloc; "no line begins with {quote}: the words are {ALL}")?
    };
    Ok(Mistake::at(place.column, text))
}

/// Returns what a line asks for; `None` if it is empty or a comment, which begins with `#`.
///
/// # Errors
/// `Mistake`: the line is faulty, and no request has its fields. `Memory`: the host is out of memory.
pub fn read_line(alloc: Global, line: &[u8]) -> Result<Option<Request>, Refusal>
    ensures request { IfOk result (λ request. IfSome request (IsRequest (fields_of line.now))) }
    ensures nothing { IfOk result (λ request. IfNone request (IsNothing (fields_of line.now))) }
    ensures faulty { IfErr result (λ e. IfMistake e (MakesNone (fields_of line.now))) }
{
    let Some(place) = field_at(line, 0) else {
        return Ok(None);
    };
    if let [b'#', ..] = place.bytes {
        return Ok(None);
    }
    let Some(word) = Word::of(place.bytes) else {
        return Err(Refusal::Mistake(unknown_word(alloc, place)?));
    };
    let fields = Fields { alloc, line, word };
    let count = field_count(line);
    let (least, most) = word.counts();
    if count < least + 1 || count > most + 1 {
        return Err(fields.wrong_count());
    }
    Ok(Some(fields.request()?))
}
