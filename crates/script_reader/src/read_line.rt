// `add_line`: parses one script line: checks its length and its bytes, looks up its word, reads its fields, and adds its
// item (what it declares or commands) to the draft of the lines before it. `read_word` (the checks, and the word) and `is_ascii`
// serve files for threads too.

ghost use Rattle.std.specs.Prelude.{◌≡◌};
ghost use Rattle.std.specs.Option.{option_map};
ghost use Rattle.script_language.specs.Lines.{fields_of};
ghost use Rattle.script_language.specs.Script as words;
ghost use Rattle.script_reader.specs.ReadResults.{GivesLine, GivesScript};
ghost use Rattle.script_reader.specs.WordOf.{as_fields, word_in, word_of};

use crate::draft::Draft;
use crate::fault::{LineFault, ScriptError};
use crate::items::make_item;
use crate::lines::first_field;
use crate::table::Row;
use crate::values::line_values;
use script_language::{Cause, Item, LONGEST_LINE};
use std::alloc::Global;

/// Parses a line whose first field is `text`, with the fields after it. Causes are tried in the order of `Cause`.
#[tactic(auto, unfolding(script_language::specs::Script::item_line))]
fn item_line(alloc: Global, draft: &Draft, text: &[u8], fields: &[u8]) -> Result<Item, LineFault>
    ensures { GivesLine (λ x. x) result (words.item_line draft.now text.now (fields_of fields.now)) }
{
    let Some(row) = Row::find(text) else {
        return Err(LineFault::Cause(Cause::Word));
    };
    if !draft.in_order(row.word) {
        return Err(LineFault::Cause(Cause::Order));
    }
    let values = line_values(alloc, &row, fields)?;
    let item = make_item(alloc, draft, row.word, values)?;
    if !draft.has_room(&item) {
        return Err(LineFault::Cause(Cause::TooMany));
    }
    Ok(item)
}

fn is_comment(text: &[u8]) -> bool
    ensures { result ≡ words.is_comment text.now }
{
    matches!(text, [b'#', ..])
}

/// Whether every byte is below 128.
pub fn is_ascii(line: &[u8]) -> bool
    ensures { result ≡ words.is_ascii line.now }
{
    line.is_ascii()
}

/// Splits a line into its first field, the word, and what follows it. `None`: the line has no field, or is a comment.
fn word_of_fields(line: &[u8]) -> Option<(&[u8], &[u8])>
    ensures { option_map as_fields result ≡ word_in (fields_of line.now) }
{
    let (text, fields) = first_field(line)?;
    if is_comment(text) {
        None
    } else {
        Some((text, fields))
    }
}

/// Splits a line into its first field, the word, and what follows it. `None`: the line has no field, or is a comment.
///
/// # Errors
/// `Cause`, the first that applies: `TooLong`: the line has more than 2,097,664 bytes. `NotAscii`: a byte is above 127.
pub fn read_word(line: &[u8]) -> Result<Option<(&[u8], &[u8])>, LineFault>
    ensures { GivesLine (option_map as_fields) result (word_of line.now) }
{
    if line.len() > LONGEST_LINE {
        return Err(LineFault::Cause(Cause::TooLong));
    }
    if !is_ascii(line) {
        return Err(LineFault::Cause(Cause::NotAscii));
    }
    Ok(word_of_fields(line))
}

/// Returns what a line, without its end, declares or commands after those of the draft; `None` for an empty line and a comment.
///
/// # Errors
/// `Cause`: the line has a fault, the first in the order of `Cause`. `Memory`: host memory was refused.
pub fn line_item(alloc: Global, draft: &Draft, line: &[u8]) -> Result<Option<Item>, LineFault>
    ensures { GivesLine (λ x. x) result (words.line_of draft.now line.now) }
{
    let Some((text, fields)) = read_word(line)? else {
        return Ok(None);
    };
    let item = item_line(alloc, draft, text, fields)?;
    Ok(Some(item))
}

/// Parses line `number` and adds its item to the draft; an empty line and a comment add nothing.
///
/// # Errors
/// `Line(number, cause)`: the line has a fault. `Memory`: host memory was refused.
pub fn add_line(
    alloc: Global,
    draft: &mut Draft,
    number: u64,
    line: &[u8],
) -> Result<(), ScriptError>
    ensures { GivesScript (λ u. (draft.new, number)) result (words.with_line draft.old number (words.line_of draft.old line.now)) }
{
    match line_item(alloc, draft, line) {
        Ok(None) => Ok(()),
        Ok(Some(item)) => match draft.add(item) {
            Ok(()) => Ok(()),
            Err(_) => Err(ScriptError::Memory),
        },
        Err(LineFault::Memory) => Err(ScriptError::Memory),
        Err(LineFault::Cause(cause)) => Err(ScriptError::Line(number, cause)),
    }
}
