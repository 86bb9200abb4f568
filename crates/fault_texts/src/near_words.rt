// `unknown_word`: what is wrong with a line whose first field is no word of scripts, and which word it may be meant for.

ghost use Rattle.std.specs.Prelude.{◌≡◌, IfOk, IfSome, IsSome, is_some, slice_get};
ghost use Rattle.script_language.specs.Fields.{command_table, row_among};
ghost use Rattle.script_language.specs.Lines.{fields_of};
ghost use Rattle.fault_texts.specs.Mistakes.{IsOfLine};
ghost use Rattle.fault_texts.specs.Unknown.{is_unknown};

use crate::quotes::put_quoted;
use line_fields::{Mistake, field_at};
use script_reader::Row;
use std::alloc::{AllocError, Global};
use std::str;
use strsim::osa_distance;
use text_builder::Text;

/// The most letters of a field for which a near word is looked for: no longer field is near to one.
const LONGEST_NEAR: usize = 16;

/// The most edits by which a field of this many letters is near to a word: one, or a third of its letters.
fn most_edits(letters: usize) -> usize {
    (letters / 3).max(1)
}

/// The number of edits from a field to a word: letters put in, left out, replaced, or swapped with the next. `None`: they are not
/// near, since the edits are too many, or no letter is kept.
fn edits_to(alloc: Global, field: &str, word: &[u8]) -> Result<Option<usize>, AllocError> {
    let Ok(word) = str::from_utf8(word) else {
        return Ok(None);
    };
    let edits = osa_distance(alloc, field, word)?;
    if edits <= most_edits(field.len()) && edits < field.len() && edits < word.len() {
        Ok(Some(edits))
    } else {
        Ok(None)
    }
}

/// The word of scripts with the fewest edits from a field, in letters of either case; the first of several. `None`: none is near.
fn nearest_word(alloc: Global, field: &[u8]) -> Result<Option<&'static [u8]>, AllocError>
    ensures { IfOk result (λ near. IfSome near (λ text. IsSome (row_among command_table text.now))) }
{
    if field.len() > LONGEST_NEAR {
        return Ok(None);
    }
    let letters = field.to_ascii_lowercase(alloc)?;
    let Ok(letters) = str::from_utf8(letters.as_slice()) else {
        return Ok(None);
    };
    let mut nearest = None;
    let mut fewest = usize::MAX;
    let rows = Row::all();
    'rows: for row in &rows {
        if let Some(edits) = edits_to(alloc, letters, row.text)?
            && edits < fewest
        {
            nearest = Some(row.text);
            fewest = edits;
        }
    }
    Ok(nearest)
}

/// The words that ask about the machine between the lines of a script.
static QUESTIONS: [&[u8]; 4] = [b"regions", b"vmprint", b"tlb", b"frames"];

/// Whether a first field asks about the machine.
fn is_question(field: &[u8]) -> bool {
    for question in QUESTIONS.as_slice() {
        if *question == field {
            return true;
        }
    }
    false
}

/// Tells which word a first field may be meant for that is no word of scripts.
fn put_nearest(text: &mut Text, field: &[u8]) {
    match nearest_word(text.allocator(), field) {
        Ok(Some(word)) => {
            text.push_str("did you mean ");
            put_quoted(text, word);
            text.push_str("?");
        }
        Ok(None) => text.push_str("docs/SCRIPTS.md lists the words"),
        Err(_) => text.note(Err(AllocError)),
    }
}

/// Tells what would be right in place of a first field that is no word of scripts.
fn put_advice(text: &mut Text, field: &[u8]) {
    if Row::find_for_threads(field).is_some() {
        text.push_str("it is a word of files for \"xv6vm threads\"");
    } else if is_question(field) {
        text.push_str(
            "it asks about the machine, which \"xv6lab show\" and \"xv6lab repl\" answer",
        );
    } else {
        put_nearest(text, field);
    }
}

/// Returns what is wrong with a line whose first field is no word. `None`: it is one, or the line has no field.
///
/// # Errors
/// `AllocError`: host memory was refused.
pub fn unknown_word(alloc: Global, line: &[u8]) -> Result<Option<Mistake>, AllocError>
    ensures found { IfOk result (λ m. is_some m ≡ is_unknown (slice_get (fields_of line.now) 0)) }
    ensures column { IfOk result (λ m. IfSome m (λ m. IsOfLine line.now m)) }
{
    let Some(word) = field_at(line, 0) else {
        return Ok(None);
    };
    if Row::find(word.bytes).is_some() {
        return Ok(None);
    }
    let mut text = Text::new(alloc);
    text.push_str("no line begins with ");
    put_quoted(&mut text, word.bytes);
    text.push_str("; ");
    put_advice(&mut text, word.bytes);
    Ok(Some(Mistake::at(word.column, text.finish()?)))
}
