// `find_mistake` and `explain`: what is wrong with a line of a script that was refused, by its cause; and `explain_end` and
// `explain_length`, what is wrong with a script as a whole.

ghost use Rattle.std.specs.Prelude.{◌≡◌, ◌∷◌, Err, IfOk, IfSome, IsSome, List, Some, is_none, length, nat_le, ℕ};
ghost use Rattle.script_language.specs.Fields as words_of;
ghost use Rattle.script_language.specs.Fields.{command_table, row_among};
ghost use Rattle.script_language.specs.Lines.{fields_of};
ghost use Rattle.script_language.specs.ReadLines.{is_ascii};
ghost use Rattle.script_language.specs.Script as words;
ghost use Rattle.fault_texts.specs.Causes.{AfterWord};
ghost use Rattle.fault_texts.specs.Mistakes.{IsOfLine};
ghost use Rattle.fault_texts.specs.Refused.{after_word};

use crate::counted::wrong_count;
use crate::field_forms::refused_field;
use crate::limit_texts::{no_room, outside_limits};
use crate::near_words::unknown_word;
use crate::quotes::put_quoted;
use line_fields::{Mistake, Place};
use process_model::LONGEST_IMAGE;
use script_language::{Cause, Keyword, LONGEST_LINE, LONGEST_SCRIPT};
use script_reader::{Draft, Row, first_field};
use std::alloc::{AllocError, Global};
use text_builder::Text;

/// What is wrong with a line that is too long.
fn too_long(alloc: Global, line: &[u8]) -> Result<Option<Mistake>, AllocError>
    ensures found { IfOk result (λ m. is_none m ≡ nat_le (length line.now) LONGEST_LINE) }
    ensures column { IfOk result (λ m. IfSome m (λ m. IsOfLine line.now m)) }
{
    if line.len() <= LONGEST_LINE {
        return Ok(None);
    }
    let text = format!(in alloc;
        "this line has more than {LONGEST_LINE} bytes, the most that it may have; contents of an image take two digits a byte, at most {LONGEST_IMAGE} bytes, and zeros follow up to MEMSZ"
    )?;
    Ok(Some(Mistake::of_line(text)))
}

/// What is wrong with a line that has a byte above 127: the first such byte.
fn not_ascii(alloc: Global, line: &[u8]) -> Result<Option<Mistake>, AllocError>
    ensures found { IfOk result (λ m. is_none m ≡ is_ascii line.now) }
    ensures column { IfOk result (λ m. IfSome m (λ m. IsOfLine line.now m)) }
{
    'bytes: for (place, byte) in line.iter().enumerate() {
        if !byte.is_ascii() {
            let text = format!(in alloc;
                "byte 0x{byte:x} is not ASCII: scripts are ASCII, comments too"
            )?;
            return Ok(Some(Mistake::at(place.saturating_add(1), text)));
        }
    }
    Ok(None)
}

/// Tells why a word may not stand here.
fn put_order(text: &mut Text, draft: &Draft, row: &Row) {
    if draft.in_order(Keyword::Boot) {
        put_quoted(text, row.text);
        text.push_str(" needs a machine: a line such as \"boot 1 64 4 full\" must stand before it");
    } else if row.word == Keyword::Boot {
        text.push_str("this is a second \"boot\", and a script has one");
    } else {
        put_quoted(text, row.text);
        text.push_str(" must stand before \"boot\"");
    }
}

/// What is wrong with a line whose word may not stand here.
fn out_of_order(
    alloc: Global,
    draft: &Draft,
    row: &Row,
    word: Place<'_>,
) -> Result<Option<Mistake>, AllocError>
    ensures found { IfOk result (λ m. is_none m ≡ words.in_order draft.now row.now.word) }
    ensures column { IfOk result (λ m. IfSome m (λ m. m.column ≡ Some word.entry.column)) }
{
    if draft.in_order(row.word) {
        return Ok(None);
    }
    let mut text = Text::new(alloc);
    put_order(&mut text, draft, row);
    Ok(Some(Mistake::at(word.column, text.finish()?)))
}

/// What is wrong with a line whose first field is a word, for one of the causes from `Order` on.
fn after_the_word(
    alloc: Global,
    draft: &Draft,
    line: &[u8],
    cause: Cause,
) -> Result<Option<Mistake>, AllocError>
    ensures found { (text : List ℕ) (fields : List (List ℕ)) (r : words_of.Row) → fields_of line.now ≡ text ∷ fields
        → row_among command_table text ≡ Some r → after_word draft.now r fields ≡ Err cause → AfterWord cause → IfOk result IsSome }
    ensures column { IfOk result (λ m. IfSome m (λ m. IsOfLine line.now m)) }
{
    let Some((word, fields)) = first_field(line) else {
        return Ok(None);
    };
    let Some(row) = Row::find(word) else {
        return Ok(None);
    };
    match cause {
        Cause::Order => out_of_order(alloc, draft, &row, Place::before(line, word, fields)),
        Cause::Count => wrong_count(alloc, &row, line, fields),
        Cause::Number => refused_field(alloc, &row, line, fields, cause),
        Cause::Field => refused_field(alloc, &row, line, fields, cause),
        Cause::Limits => outside_limits(alloc, draft, &row, line, fields),
        Cause::TooMany => no_room(alloc, draft, row.word),
        Cause::TooLong => Ok(None),
        Cause::NotAscii => Ok(None),
        Cause::Word => Ok(None),
    }
}

/// Returns what is wrong with a line of a script, without its end, that was refused for this cause after the lines of the draft, and
/// what would be right. `None`: the line has no such fault; a line that is refused for this cause has one.
///
/// # Errors
/// `AllocError`: host memory was refused.
pub fn find_mistake(
    alloc: Global,
    draft: &Draft,
    line: &[u8],
    cause: Cause,
) -> Result<Option<Mistake>, AllocError>
    ensures found { words.line_of draft.now line.now ≡ Err cause → IfOk result IsSome }
    ensures column { IfOk result (λ m. IfSome m (λ m. IsOfLine line.now m)) }
{
    match cause {
        Cause::TooLong => too_long(alloc, line),
        Cause::NotAscii => not_ascii(alloc, line),
        Cause::Word => unknown_word(alloc, line),
        _ => after_the_word(alloc, draft, line, cause),
    }
}

/// Returns what is wrong with a line of a script, as `find_mistake` does. A line that has no such fault gets a text that says so.
///
/// # Errors
/// `AllocError`: host memory was refused.
pub fn explain(
    alloc: Global,
    draft: &Draft,
    line: &[u8],
    cause: Cause,
) -> Result<Mistake, AllocError>
    ensures { IfOk result (λ m. IsOfLine line.now m) }
{
    match find_mistake(alloc, draft, line, cause)? {
        Some(mistake) => Ok(mistake),
        None => Ok(Mistake::of_line(String::from_str(alloc, "this line has no such fault")?)),
    }
}

/// Returns what is wrong with a script none of whose lines is a `boot`; said of the line after the last.
pub fn explain_end() -> &'static str {
    "this script has no \"boot\""
}

/// Returns what is wrong with a script of this many bytes, more than 16,777,216; said of line 0, the script as a whole.
///
/// # Errors
/// `AllocError`: host memory was refused.
pub fn explain_length(alloc: Global, bytes: usize) -> Result<String, AllocError> {
    format!(in alloc; "this script has {bytes} bytes, and may have at most {LONGEST_SCRIPT}")
}
