// The fast path of the reader, for lines of numbers, which scripts and files for threads share: `word_prefix` finds which of
// sixteen common words (`FastWord`) a line begins with, and one function for each form of line (`one_number`, `two_numbers`, ..)
// reads the fields after the word in one pass. `None` is no fault: the line, of another form or with a fault, is then read
// field by field.

ghost use Rattle.std.specs.Prelude.{◌≡◌, IfSome, true, [], ◌∷◌, ◌++◌};
ghost use Rattle.script_language.specs.Fields.{four_numbers, one_number, three_numbers, two_numbers};
ghost use Rattle.script_language.specs.declared.script.FieldKind.TheVariants as kind;
ghost use Rattle.script_language.specs.declared.script.FieldValue.TheVariants as value;
ghost use Rattle.script_language.specs.Lines.{fields_of};
ghost use Rattle.script_reader.specs.FastPath.{EndsWith, Reads, ReadsVia};
ghost use Rattle.script_reader.specs.FastWords.{letters};

use crate::lines::first_field;
use crate::number_prefixes::{next_address, next_entry, next_number, next_slot};

/// True only if no field is left in the line.
fn is_over(line: &[u8]) -> bool
    ensures { result ≡ true → fields_of line.now ≡ [] }
{
    line.is_empty() || first_field(line).is_none()
}

/// Parses the last field, a buffer entry `@N`; `Some(None)` if no field is left.
fn last_entry(line: &[u8]) -> Option<Option<usize>>
    ensures { IfSome result (λ via. EndsWith line.now via) }
{
    if line.is_empty() {
        return Some(None);
    }
    if let Some((entry, rest)) = next_entry(line) {
        return if is_over(rest) {
            Some(Some(entry as usize))
        } else {
            None
        };
    }
    if is_over(line) { Some(None) } else { None }
}

/// Parses one number, after which no field is left.
#[inline(always)]
pub fn one_number(line: &[u8]) -> Option<u64>
    ensures { IfSome result (λ n. Reads line.now one_number (value.Number n ∷ [])) }
{
    let Some((a, line)) = next_number(line) else {
        return None;
    };
    if is_over(line) { Some(a) } else { None }
}

/// Parses one number, perhaps an address, after which no field is left.
#[inline(always)]
pub fn one_address(line: &[u8]) -> Option<u64>
    ensures { IfSome result (λ n. Reads line.now one_number (value.Number n ∷ [])) }
{
    let Some((a, line)) = next_address(line) else {
        return None;
    };
    if is_over(line) { Some(a) } else { None }
}

/// Parses two numbers, after which no field is left.
#[inline(always)]
pub fn two_numbers(line: &[u8]) -> Option<(u64, u64)>
    ensures { IfSome result (λ n. Reads line.now two_numbers (value.Number n.0 ∷ value.Number n.1 ∷ [])) }
{
    let Some((a, line)) = next_address(line) else {
        return None;
    };
    let Some(b) = one_address(line) else {
        return None;
    };
    Some((a, b))
}

/// Parses three numbers, after which no field is left.
#[inline(always)]
pub fn three_numbers(line: &[u8]) -> Option<(u64, u64, u64)>
    ensures { IfSome result (λ n. Reads line.now three_numbers (value.Number n.0 ∷ value.Number n.1 ∷ value.Number n.2 ∷ [])) }
{
    let Some((a, line)) = next_address(line) else {
        return None;
    };
    let Some((b, c)) = two_numbers(line) else {
        return None;
    };
    Some((a, b, c))
}

/// Parses five numbers, after which no field is left.
pub fn five_numbers(line: &[u8]) -> Option<(u64, u64, u64, u64, u64)>
    ensures { IfSome result (λ n. Reads line.now (kind.Number ∷ four_numbers) (value.Number n.0 ∷ value.Number n.1 ∷ value.Number n.2
        ∷ value.Number n.3 ∷ value.Number n.4 ∷ [])) }
{
    let Some((a, line)) = next_number(line) else {
        return None;
    };
    let Some((b, line)) = next_address(line) else {
        return None;
    };
    let Some((c, d, e)) = three_numbers(line) else {
        return None;
    };
    Some((a, b, c, d, e))
}

/// Parses one number, and a buffer entry if one is left.
#[inline(always)]
fn one_via(line: &[u8]) -> Option<(u64, Option<usize>)>
    ensures { IfSome result (λ n. ReadsVia line.now one_number (value.Number n.0 ∷ []) n.1) }
{
    let Some((a, line)) = next_number(line) else {
        return None;
    };
    let Some(via) = last_entry(line) else {
        return None;
    };
    Some((a, via))
}

/// Parses two numbers, and a buffer entry if one is left.
#[inline(always)]
pub fn two_via(line: &[u8]) -> Option<(u64, u64, Option<usize>)>
    ensures { IfSome result (λ n. ReadsVia line.now two_numbers (value.Number n.0 ∷ value.Number n.1 ∷ []) n.2) }
{
    let Some((a, line)) = next_number(line) else {
        return None;
    };
    let Some((b, line)) = next_address(line) else {
        return None;
    };
    let Some(via) = last_entry(line) else {
        return None;
    };
    Some((a, b, via))
}

/// Parses three numbers, and a buffer entry if one is left.
#[inline(always)]
pub fn three_via(line: &[u8]) -> Option<(u64, u64, u64, Option<usize>)>
    ensures { IfSome result (λ n. ReadsVia line.now three_numbers (value.Number n.0 ∷ value.Number n.1 ∷ value.Number n.2 ∷ []) n.3) }
{
    let Some((a, line)) = next_number(line) else {
        return None;
    };
    let Some((b, line)) = next_address(line) else {
        return None;
    };
    let Some((c, via)) = one_via(line) else {
        return None;
    };
    Some((a, b, c, via))
}

/// Parses four numbers, and a buffer entry if one is left.
#[inline(always)]
pub fn four_via(line: &[u8]) -> Option<(u64, u64, u64, u64, Option<usize>)>
    ensures { IfSome result (λ n. ReadsVia line.now four_numbers (value.Number n.0 ∷ value.Number n.1 ∷ value.Number n.2 ∷ value.Number n.3 ∷ []) n.4) }
{
    let Some((a, line)) = next_number(line) else {
        return None;
    };
    let Some((b, line)) = next_address(line) else {
        return None;
    };
    let Some((c, d, via)) = two_via(line) else {
        return None;
    };
    Some((a, b, c, d, via))
}

/// Parses a number and a slot, a number or `-` for none, after which no field is left.
pub fn number_slot(line: &[u8]) -> Option<(u64, Option<usize>)>
    ensures { IfSome result (λ n. Reads line.now (kind.Number ∷ kind.Slot ∷ []) (value.Number n.0 ∷ value.Optional n.1 ∷ [])) }
{
    let Some((a, line)) = next_number(line) else {
        return None;
    };
    let Some((slot, line)) = next_slot(line) else {
        return None;
    };
    if !is_over(line) {
        return None;
    }
    Some((a, slot))
}

/// The words whose lines the fast path parses.
#[derive(Clone, Copy)]
pub enum FastWord {
    Load,
    Store,
    Switch,
    Fetch,
    Fix,
    Enter,
    Exit,
    Leave,
    On,
    Fill,
    Next,
    Trap,
    Fork,
    CopyIn,
    Mmap,
    Munmap,
}

/// `word_prefix` of a line that begins with `l`.
#[inline(always)]
fn l_word(line: &[u8]) -> Option<(FastWord, &[u8])>
    ensures { IfSome result (λ found. line.now ≡ letters found.0 ++ found.1.now) }
{
    match line {
        [b'l', b'o', b'a', b'd', rest @ ..] => Some((FastWord::Load, rest)),
        [b'l', b'e', b'a', b'v', b'e', rest @ ..] => Some((FastWord::Leave, rest)),
        _ => None,
    }
}

/// `word_prefix` of a line that begins with `s`.
#[inline(always)]
fn s_word(line: &[u8]) -> Option<(FastWord, &[u8])>
    ensures { IfSome result (λ found. line.now ≡ letters found.0 ++ found.1.now) }
{
    match line {
        [b's', b't', b'o', b'r', b'e', rest @ ..] => Some((FastWord::Store, rest)),
        [b's', b'w', b'i', b't', b'c', b'h', rest @ ..] => Some((FastWord::Switch, rest)),
        _ => None,
    }
}

/// `word_prefix` of a line that begins with `f`.
#[inline(always)]
fn f_word(line: &[u8]) -> Option<(FastWord, &[u8])>
    ensures { IfSome result (λ found. line.now ≡ letters found.0 ++ found.1.now) }
{
    match line {
        [b'f', b'e', b't', b'c', b'h', rest @ ..] => Some((FastWord::Fetch, rest)),
        [b'f', b'i', b'x', rest @ ..] => Some((FastWord::Fix, rest)),
        [b'f', b'i', b'l', b'l', rest @ ..] => Some((FastWord::Fill, rest)),
        [b'f', b'o', b'r', b'k', rest @ ..] => Some((FastWord::Fork, rest)),
        _ => None,
    }
}

/// `word_prefix` of a line that begins with `e` or `o`.
#[inline(always)]
fn e_or_o_word(line: &[u8]) -> Option<(FastWord, &[u8])>
    ensures { IfSome result (λ found. line.now ≡ letters found.0 ++ found.1.now) }
{
    match line {
        [b'e', b'n', b't', b'e', b'r', rest @ ..] => Some((FastWord::Enter, rest)),
        [b'e', b'x', b'i', b't', rest @ ..] => Some((FastWord::Exit, rest)),
        [b'o', b'n', rest @ ..] => Some((FastWord::On, rest)),
        _ => None,
    }
}

/// `word_prefix` of a line that begins with none of `l`, `s`, `f`, `e` and `o`.
#[inline(always)]
fn other_word(line: &[u8]) -> Option<(FastWord, &[u8])>
    ensures { IfSome result (λ found. line.now ≡ letters found.0 ++ found.1.now) }
{
    match line {
        [b'n', b'e', b'x', b't', rest @ ..] => Some((FastWord::Next, rest)),
        [b't', b'r', b'a', b'p', rest @ ..] => Some((FastWord::Trap, rest)),
        [b'c', b'o', b'p', b'y', b'i', b'n', rest @ ..] => Some((FastWord::CopyIn, rest)),
        [b'm', b'm', b'a', b'p', rest @ ..] => Some((FastWord::Mmap, rest)),
        [b'm', b'u', b'n', b'm', b'a', b'p', rest @ ..] => Some((FastWord::Munmap, rest)),
        _ => None,
    }
}

/// Returns the word of the fast path with whose letters the line begins, and what follows them. `None`:
/// to be read field by field. Inlined, so that the result need not go through memory.
#[inline(always)]
pub fn word_prefix(line: &[u8]) -> Option<(FastWord, &[u8])>
    ensures { IfSome result (λ found. line.now ≡ letters found.0 ++ found.1.now) }
{
    match line.first()? {
        b'l' => l_word(line),
        b's' => s_word(line),
        b'f' => f_word(line),
        b'e' | b'o' => e_or_o_word(line),
        _ => other_word(line),
    }
}
