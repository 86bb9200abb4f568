// `wrong_count`: what is wrong with a line that has too few fields for its word, or too many; with the names of those that it takes.

ghost use Rattle.std.specs.Prelude.{◌≡◌, IfOk, IfSome, is_none, length};
ghost use Rattle.script_language.specs.Lines.{fields_of};
ghost use Rattle.script_reader.specs.Rows.{seen};
ghost use Rattle.fault_texts.specs.Counts.{is_right};
ghost use Rattle.fault_texts.specs.Mistakes.{IsOfLine};

use crate::quotes::put_quoted;
use line_fields::{Mistake, field_at, field_count};
use script_language::{Keyword, Tail};
use script_reader::Row;
use std::alloc::{AllocError, Global};
use text_builder::Text;

/// Returns the names of the fields that a word takes, as docs/SCRIPTS.md has them: those in brackets may be left out, and `..` says that more
/// like the last may follow.
pub fn field_names(word: Keyword) -> &'static str {
    match word {
        Keyword::File => "LEN MODE HEX",
        Keyword::Image => "VADDR:MEMSZ:FLAGS:HEX ..",
        Keyword::Elf => "HEX",
        Keyword::Boot => "HARTS FRAMES SLOTS POLICY [SCHEME]",
        Keyword::Start => "IMAGE",
        Keyword::Switch => "HART SLOT",
        Keyword::Trap => "HART",
        Keyword::Next => "HART",
        Keyword::Fill => "HART ADDRESS",
        Keyword::Evict => "HART ENTRY",
        Keyword::Fetch => "HART ADDRESS [@ENTRY]",
        Keyword::Load => "HART ADDRESS WIDTH [@ENTRY]",
        Keyword::Store => "HART ADDRESS WIDTH VALUE [@ENTRY]",
        Keyword::Tramp => "HART OFFSET [@ENTRY]",
        Keyword::Serve => "HART",
        Keyword::Fork => "HART",
        Keyword::Exec => "HART IMAGE",
        Keyword::Sbrk => "HART DELTA",
        Keyword::Mmap => "HART LEN PROT FLAGS FILE",
        Keyword::Munmap => "HART ADDRESS LEN",
        Keyword::CopyIn => "HART ADDRESS COUNT",
        Keyword::CopyOut => "HART ADDRESS HEX",
        Keyword::Exit => "HART STATUS",
        Keyword::Show => "FILE OFFSET COUNT",
        Keyword::Audit => "no field",
        Keyword::On => "HART SLOT",
        Keyword::Enter => "HART",
        Keyword::Leave => "HART",
        Keyword::Fix => "HART",
        Keyword::Pool => "FRAMES SLOTS",
        Keyword::List => "LIST",
    }
}

/// Whether a word may have this number of fields.
fn is_right_count(row: &Row, count: usize) -> bool
    ensures { result ≡ is_right (seen row.now) count }
{
    let least = row.kinds.len();
    match row.tail {
        Tail::Nothing => count == least,
        Tail::Perhaps(_) => count == least || count == least.saturating_add(1),
        Tail::More(_) => count >= least,
    }
}

/// The number of the first field that a word does not take, the word being number 0.
fn surplus_number(row: &Row) -> usize {
    let least = row.kinds.len();
    match row.tail {
        Tail::Perhaps(_) => least.saturating_add(2),
        _ => least.saturating_add(1),
    }
}

/// Puts how many fields there are, in words.
fn put_counted(text: &mut Text, count: usize) {
    match count {
        0 => text.push_str("no field"),
        1 => text.push_str("1 field"),
        _ => write!(text, "{count} fields"),
    }
}

/// Returns what is wrong with a line whose `fields`, those after its word, are too few or too many. `None`: they are neither.
///
/// # Errors
/// `AllocError`: host memory was refused.
pub fn wrong_count(
    alloc: Global,
    row: &Row,
    line: &[u8],
    fields: &[u8],
) -> Result<Option<Mistake>, AllocError>
    ensures found { IfOk result (λ m. is_none m ≡ is_right (seen row.now) (length (fields_of fields.now))) }
    ensures column { IfOk result (λ m. IfSome m (λ m. IsOfLine line.now m)) }
{
    let count = field_count(fields);
    if is_right_count(row, count) {
        return Ok(None);
    }
    let (mut text, names) = (Text::new(alloc), field_names(row.word));
    put_quoted(&mut text, row.text);
    write!(text, " takes {names}, and has ");
    put_counted(&mut text, count);
    let text = text.finish()?;
    match field_at(line, surplus_number(row)) {
        Some(field) => Ok(Some(Mistake::at(field.column, text))),
        None => Ok(Some(Mistake::of_line(text))),
    }
}
