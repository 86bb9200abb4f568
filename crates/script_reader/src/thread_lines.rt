// `read_lines`: reads the lines of a file for threads into a draft (what they declare), up to the first fault, each first by
// the fast path (`thread_fast_lines`). `lists_named`: finds, before that, which lists of calls the file begins, since a fork
// may name a later list.

ghost use Rattle.std.specs.Prelude.{◌≡◌, ◌≤◌, Ok, IfOk, IfSome, length, replicate, ℕ, false, true};
ghost use Rattle.script_language.specs.Lines.{fields_of, raw_lines};
ghost use Rattle.script_language.specs.ReadLines as reading;
ghost use Rattle.script_language.specs.ThreadScript as words;
ghost use Rattle.script_reader.specs.ReadResults.{GivesScript, GivesLine};
ghost use Rattle.script_reader.specs.ThreadFastLines.{begins_with_list};

use crate::fault::{LineFault, ScriptError};
use crate::lines::{first_field, first_line, is_blank, trim_return};
use crate::numbers::number;
use crate::read_line::{is_ascii, read_word};
use crate::table::Row;
use crate::thread_draft::ThreadDraft;
use crate::thread_fast_lines::add_fast;
use crate::thread_items::make_item;
use crate::values::line_values;
use script_language::{Cause, MOST_LISTS, ThreadItem};
use std::alloc::Global;

/// Parses a line whose first field is `text`, with the fields after it. Causes are tried in the order of `Cause`.
#[tactic(auto, unfolding(script_language::specs::ThreadScript::item_line))]
fn item_line(
    alloc: Global,
    draft: &ThreadDraft,
    text: &[u8],
    fields: &[u8],
) -> Result<ThreadItem, LineFault>
    ensures { GivesLine (λ x. x) result (words.item_line draft.now text.now (fields_of fields.now)) }
{
    let Some(row) = Row::find_for_threads(text) else {
        return Err(LineFault::Cause(Cause::Word));
    };
    if !draft.in_order(row.word) {
        return Err(LineFault::Cause(Cause::Order));
    }
    let values = line_values(alloc, &row, fields)?;
    let item = make_item(alloc, draft, row.word, values)?;
    if !draft.has_room(&item) {
        return Err(LineFault::Cause(Cause::TooMany));
    }
    Ok(item)
}

fn read_line(
    alloc: Global,
    draft: &ThreadDraft,
    line: &[u8],
) -> Result<Option<ThreadItem>, LineFault>
    ensures line { GivesLine (λ x. x) result (words.line_of draft.now line.now) }
    ensures room { IfOk result (λ said. IfSome said (λ item. words.has_room draft.now item ≡ true)) }
{
    let Some((text, fields)) = read_word(line)? else {
        return Ok(None);
    };
    let item = item_line(alloc, draft, text, fields)?;
    Ok(Some(item))
}

/// Parses line `number` field by field and adds its item to the draft; an empty line and a comment add nothing.
fn add_item(
    alloc: Global,
    draft: &mut ThreadDraft,
    number: u64,
    line: &[u8],
) -> Result<(), ScriptError>
    ensures { GivesScript (λ u. (draft.new, number)) result (reading.with_said words.with_item draft.old number (words.line_of draft.old line.now)) }
{
    match read_line(alloc, draft, line) {
        Ok(None) => Ok(()),
        Ok(Some(item)) => match draft.add(item) {
            Ok(()) => Ok(()),
            Err(_) => Err(ScriptError::Memory),
        },
        Err(LineFault::Memory) => Err(ScriptError::Memory),
        Err(LineFault::Cause(cause)) => Err(ScriptError::Line(number, cause)),
    }
}

/// Parses line `number` and adds its item to the draft. If the line is known to be ASCII (`ascii`), the fast path is tried
/// first.
fn add_line(
    alloc: Global,
    draft: &mut ThreadDraft,
    number: u64,
    line: &[u8],
    ascii: bool,
) -> Result<(), ScriptError>
    requires { ascii ≡ true → reading.is_ascii line.now ≡ true }
    ensures { GivesScript (λ u. (draft.new, number)) result (reading.with_said words.with_item draft.old number (words.line_of draft.old line.now)) }
{
    if ascii && let Some(done) = add_fast(draft, line) {
        return match done {
            Ok(()) => Ok(()),
            Err(_) => Err(ScriptError::Memory),
        };
    }
    add_item(alloc, draft, number, line)
}

/// Reads the lines of a text into a draft, and returns their number, skipped lines among them.
///
/// # Errors
/// `Line(n, cause)`: the first fault, in line `n`, counted from 1. `Memory`: host memory was refused.
pub fn read_lines(alloc: Global, draft: &mut ThreadDraft, text: &[u8]) -> Result<u64, ScriptError>
    ensures read { GivesScript (λ lines. (draft.new, lines)) result (words.read_lines (Ok (draft.old, 0)) (raw_lines text.now)) }
    ensures few { IfOk result (λ lines. lines ≤ length text.now) }
{
    let ascii = is_ascii(text);
    let mut number = 0u64;
    let mut left = text;
    'lines: while !left.is_empty() {
        let (line, after) = first_line(left);
        number += 1;
        add_line(alloc, draft, number, trim_return(line), ascii)?;
        left = after;
    }
    Ok(number)
}

/// Whether a line begins with the letters of `list`.
fn begins_with_list(line: &[u8]) -> bool
    ensures { result ≡ begins_with_list line.now }
{
    matches!(line, [b'l', b'i', b's', b't', ..])
}

/// Whether a line, by its first bytes, may begin a list: they are a blank, or the letters of `list`.
fn may_begin_list(line: &[u8]) -> bool
    ensures { result ≡ false → (k : ℕ) → words.begins k (fields_of line.now) ≡ false }
{
    match line {
        [byte, ..] => is_blank(*byte) || begins_with_list(line),
        [] => false,
    }
}

/// The number of the list that a line `list K` begins, read field by field. `None`: it is no such line.
fn list_of_fields(line: &[u8]) -> Option<usize>
    ensures { (k : ℕ) → words.is_number k result ≡ words.begins k (fields_of line.now) }
{
    let (text, rest) = first_field(line)?;
    if text != b"list".as_slice() {
        return None;
    }
    let (field, rest) = first_field(rest)?;
    if first_field(rest).is_some() {
        return None;
    }
    Some(number(field)? as usize)
}

/// The number of the list that a line `list K` begins, whether or not the lines before it permit that.
/// `None`: it is no such line; of most lines the first bytes show that.
fn list_begun(line: &[u8]) -> Option<usize>
    ensures { (k : ℕ) → words.is_number k result ≡ words.begins k (fields_of line.now) }
{
    if !may_begin_list(line) {
        return None;
    }
    list_of_fields(line)
}

fn none_named() -> [bool; MOST_LISTS]
    ensures { result ≡ replicate MOST_LISTS false }
{
    [false; MOST_LISTS]
}

/// Returns for each number below `MOST_LISTS` whether some line `list K` of the text begins a list of that number, permitted
/// there or not.
pub fn lists_named(text: &[u8]) -> [bool; MOST_LISTS]
    ensures { result ≡ words.lists_named (raw_lines text.now) }
{
    let mut named = none_named();
    let mut left = text;
    'lines: while !left.is_empty() {
        let (line, after) = first_line(left);
        if let Some(number) = list_begun(trim_return(line))
            && number < MOST_LISTS
        {
            named[number] = true;
        }
        left = after;
    }
    named
}
