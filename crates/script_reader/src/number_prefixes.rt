// Fast path of the script reader: parsers of a line's next field as a number (`next_number`, `next_address`), a slot
// (`next_slot`) or a buffer entry `@N` (`next_entry`), which find the value and the end of the field in one pass; and `is_end`,
// whether a field ends here. `None` is no fault: the line is then read field by field.

ghost use Rattle.std.specs.Prelude.{◌≡◌, ◌+◌, ◌*◌, ◌<◌, ◌≤◌, ◌∷◌, ℕ, List, IfSome, Some, length, true};
ghost use Rattle.script_language.specs.Lines.{ends_field, fields_of};
ghost use Rattle.script_language.specs.declared.script.FieldKind.TheVariants as kind;
ghost use Rattle.script_language.specs.declared.script.FieldValue.TheVariants as value;
ghost use Rattle.script_reader.specs.NumberPrefixes.{IsEndedPrefix, IsNumberPrefix};
ghost use Rattle.script_reader.specs.FastPath.{IsNext};

use crate::lines::is_blank;
use crate::numbers::{decimal_value, hexadecimal_value};

/// Skips the blanks that a line begins with.
fn skip_blanks(line: &[u8]) -> &[u8]
    ensures { fields_of result.now ≡ fields_of line.now }
{
    let mut rest = line;
    'blanks: while let Some((byte, after)) = rest.split_first() {
        if !is_blank(*byte) {
            return rest;
        }
        rest = after;
    }
    rest
}

/// What follows the space that a text begins with.
fn behind_space(text: &[u8]) -> Option<&[u8]>
    ensures { IfSome result (λ rest. text.now ≡ 32 ∷ rest.now) }
{
    match text {
        [b' ', rest @ ..] => Some(rest),
        _ => None,
    }
}

/// Skips one space, if the line begins with a space.
fn behind_blank(line: &[u8]) -> &[u8]
    ensures { fields_of result.now ≡ fields_of line.now }
{
    match behind_space(line) {
        Some(rest) => rest,
        None => line,
    }
}

/// Whether a field ends here: the text is empty or begins with a blank.
pub fn is_end(text: &[u8]) -> bool
    ensures { result ≡ ends_field text.now }
{
    match text {
        [] => true,
        [byte, ..] => is_blank(*byte),
    }
}

/// What follows the four zeros that a text begins with.
fn behind_four_zeros(text: &[u8]) -> Option<&[u8]>
    ensures { IfSome result (λ rest. text.now ≡ 48 ∷ 48 ∷ 48 ∷ 48 ∷ rest.now) }
{
    match text {
        [b'0', b'0', b'0', b'0', rest @ ..] => Some(rest),
        _ => None,
    }
}

/// Skips the zeros that a text begins with, first four at a time.
fn skip_zeros(text: &[u8]) -> &[u8]
    ensures { IsNumberPrefix 16 text.now result.now 0 }
{
    let mut rest = text;
    'fours: while let Some(after) = behind_four_zeros(rest) {
        rest = after;
    }
    'zeros: while let Some((byte, after)) = rest.split_first() {
        if *byte != b'0' {
            return rest;
        }
        rest = after;
    }
    rest
}

/// Skips the zeros that a text begins with; most texts begin with none, and are returned at once.
fn behind_zeros(text: &[u8]) -> &[u8]
    ensures { IsNumberPrefix 16 text.now result.now 0 }
{
    match text {
        [b'0', ..] => skip_zeros(text),
        _ => text,
    }
}

/// Returns true only if each of four values is that of a hexadecimal digit.
pub fn are_digits(a: u8, b: u8, c: u8, d: u8) -> bool
    ensures { result ≡ true → (a ≤ 15) × (b ≤ 15) × (c ≤ 15) × (d ≤ 15) }
{
    a <= 15 && b <= 15 && c <= 15 && d <= 15
}

/// Returns the first four bytes, and what follows them. `None`: there are fewer.
pub fn first_four(text: &[u8]) -> Option<(u8, u8, u8, u8, &[u8])>
    ensures { IfSome result (λ found. text.now ≡ found.0 ∷ found.1 ∷ found.2 ∷ found.3 ∷ found.4.now) }
{
    match text {
        [a, b, c, d, rest @ ..] => Some((*a, *b, *c, *d, rest)),
        _ => None,
    }
}

/// The number of the four hexadecimal digits that a text begins with, below 65,536, and what follows them. Inlined, so that
/// the result need not go through memory.
#[inline(always)]
fn four_digits(text: &[u8]) -> Option<(u64, &[u8])>
    ensures more { IfSome result (λ found. (whole : List ℕ) (n : ℕ) → IsNumberPrefix 16 whole text.now n
        → IsNumberPrefix 16 whole found.1.now (n * 65536 + found.0)) }
    ensures small { IfSome result (λ found. found.0 < 65536) }
    ensures less { IfSome result (λ found. length found.1.now < length text.now) }
{
    let (a, b, c, d, rest) = first_four(text)?;
    let a = hexadecimal_value(a);
    let b = hexadecimal_value(b);
    let c = hexadecimal_value(c);
    let d = hexadecimal_value(d);
    if !are_digits(a, b, c, d) {
        return None;
    }
    let value = u64::from(a) * 4096 + u64::from(b) * 256 + u64::from(c) * 16 + u64::from(d);
    Some((value, rest))
}

/// Parses the hexadecimal digits that a text begins with, at least one, up to the end of the field: returns their number,
/// below 2^64, and what follows them. Inlined, so that the result need not go through memory.
#[inline(always)]
fn hexadecimal_prefix(text: &[u8]) -> Option<(u64, &[u8])>
    ensures { IfSome result (λ found. IsEndedPrefix 16 text.now found.1.now found.0) }
{
    let mut value = 0u64;
    let mut rest = behind_zeros(text);
    'fours: while value < 1 << 48 {
        let Some((four, after)) = four_digits(rest) else {
            break;
        };
        value = value * 65536 + four;
        rest = after;
    }
    'digits: while let Some((byte, after)) = rest.split_first() {
        let digit = hexadecimal_value(*byte);
        if digit > 15 {
            break;
        }
        if value >= 1 << 60 {
            return None;
        }
        value = value * 16 + u64::from(digit);
        rest = after;
    }
    if rest.len() == text.len() || !is_end(rest) {
        return None;
    }
    Some((value, rest))
}

/// Parses the decimal digits that a text begins with, at least one, up to the end of the field: returns their
/// number, below 2^64, and what follows them. `None` too if a digit follows a number of 2^60 or more:
/// such a number may be below 2^64, and is then read field by field. Inlined, so that the result need not go through memory.
#[inline(always)]
fn decimal_prefix(text: &[u8]) -> Option<(u64, &[u8])>
    ensures { IfSome result (λ found. IsEndedPrefix 10 text.now found.1.now found.0) }
{
    let mut value = 0u64;
    let mut rest = text;
    'digits: while let Some((byte, after)) = rest.split_first() {
        let digit = decimal_value(*byte);
        if digit > 9 {
            break;
        }
        if value >= 1 << 60 {
            return None;
        }
        value = value * 10 + u64::from(digit);
        rest = after;
    }
    if rest.len() == text.len() || !is_end(rest) {
        return None;
    }
    Some((value, rest))
}

/// Parses a field of one decimal digit: returns its value and what follows it. Inlined, so that the result need not go
/// through memory.
#[inline(always)]
fn one_digit(text: &[u8]) -> Option<(u64, &[u8])>
    ensures { IfSome result (λ found. IsEndedPrefix 10 text.now found.1.now found.0) }
{
    let (byte, rest) = text.split_first()?;
    let digit = decimal_value(*byte);
    if digit > 9 || !is_end(rest) {
        return None;
    }
    Some((u64::from(digit), rest))
}

/// Parses the decimal digits that a text begins with, up to the end of the field: returns their number, below 2^64, and what
/// follows them. One digit, as most entry numbers have, is tried first.
fn decimal_digits(text: &[u8]) -> Option<(u64, &[u8])>
    ensures { IfSome result (λ found. IsEndedPrefix 10 text.now found.1.now found.0) }
{
    if let Some(found) = one_digit(text) {
        return Some(found);
    }
    decimal_prefix(text)
}

/// What follows the `0x` that a text begins with.
fn behind_prefix(text: &[u8]) -> Option<&[u8]>
    ensures { IfSome result (λ digits. text.now ≡ 48 ∷ 120 ∷ digits.now) }
{
    match text {
        [b'0', b'x', digits @ ..] => Some(digits),
        _ => None,
    }
}

/// Parses the next field as a number, after any blanks, decimal or hexadecimal: returns it and what follows it. Not inlined,
/// since most numbers have the form that `next_number` and `next_address` try first.
#[inline(never)]
fn any_number(line: &[u8]) -> Option<(u64, &[u8])>
    ensures { IfSome result (λ found. IsNext line.now found.1.now kind.Number (value.Number found.0)) }
{
    let text = skip_blanks(line);
    match behind_prefix(text) {
        Some(digits) => hexadecimal_prefix(digits),
        None => decimal_prefix(text),
    }
}

/// Parses the next field of a line as a number: returns it and what follows it. `None`: to be read field by field. One
/// decimal digit after at most one space, as most harts, slots and widths have, is tried first. Inlined, so that the result
/// need not go through memory.
#[inline(always)]
pub fn next_number(line: &[u8]) -> Option<(u64, &[u8])>
    ensures { IfSome result (λ found. IsNext line.now found.1.now kind.Number (value.Number found.0)) }
{
    if let Some(found) = one_digit(behind_blank(line)) {
        return Some(found);
    }
    any_number(line)
}

/// Parses the next field of a line as a number, for addresses and values: returns it and what follows it. `None`: to be read
/// field by field. `0x` and digits, or decimal digits, after at most one space are tried first.
#[inline(always)]
pub fn next_address(line: &[u8]) -> Option<(u64, &[u8])>
    ensures { IfSome result (λ found. IsNext line.now found.1.now kind.Number (value.Number found.0)) }
{
    let text = behind_blank(line);
    if let Some(digits) = behind_prefix(text) {
        return hexadecimal_prefix(digits);
    }
    if let Some(found) = decimal_prefix(text) {
        return Some(found);
    }
    any_number(line)
}

/// What follows the `-` that a text begins with.
fn behind_dash(text: &[u8]) -> Option<&[u8]>
    ensures { IfSome result (λ rest. text.now ≡ 45 ∷ rest.now) }
{
    match text {
        [b'-', rest @ ..] => Some(rest),
        _ => None,
    }
}

/// Parses the next field of a line as a slot, `-` for none after at most one space, or a number: returns it and what follows
/// it. `None`: to be read field by field.
pub fn next_slot(line: &[u8]) -> Option<(Option<usize>, &[u8])>
    ensures { IfSome result (λ found. IsNext line.now found.1.now kind.Slot (value.Optional found.0)) }
{
    if let Some(rest) = behind_dash(behind_blank(line)) {
        return if is_end(rest) {
            Some((None, rest))
        } else {
            None
        };
    }
    let (slot, rest) = next_number(line)?;
    Some((Some(slot as usize), rest))
}

/// What follows the `@` that a text begins with.
fn behind_sign(text: &[u8]) -> Option<&[u8]>
    ensures { IfSome result (λ digits. text.now ≡ 64 ∷ digits.now) }
{
    match text {
        [b'@', digits @ ..] => Some(digits),
        _ => None,
    }
}

/// Parses the next field of a line as a buffer entry, `@` and decimal digits: returns its number and what follows it.
/// `None`: to be read field by field, or no such field is left.
pub fn next_entry(line: &[u8]) -> Option<(u64, &[u8])>
    ensures { IfSome result (λ found. IsNext line.now found.1.now kind.Entry (value.Optional (Some found.0))) }
{
    let text = skip_blanks(line);
    match behind_sign(text) {
        Some(digits) => decimal_digits(digits),
        None => None,
    }
}
