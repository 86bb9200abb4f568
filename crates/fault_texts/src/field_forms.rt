// `refused_field`: what is wrong with the first field of a line that has another form than its kind, by kind: a number, a slot, a
// mode, a policy, a scheme, a buffer entry, bytes. Segments are in `segment_forms`.

ghost use Rattle.std.specs.Prelude.{◌≡◌, ◌≢◌, ◌<◌, Err, false, IfOk, IfSome, IsSome, Some, length};
ghost use Rattle.script_language.specs.Fields.{value_of, values_of};
ghost use Rattle.script_language.specs.Lines.{fields_of};
ghost use Rattle.script_reader.specs.Rows.{seen};
ghost use Rattle.fault_texts.specs.Causes.{OfField};
ghost use Rattle.line_fields.specs.Columns.{IsEndOf, StandsAt};
ghost use Rattle.fault_texts.specs.Mistakes.{IsFrom, IsOfLine};

use crate::quotes::{put_number, put_quoted};
use crate::segment_forms::put_segment;
use line_fields::{Mistake, Place, is_negative_form, is_number_form};
use script_language::{Cause, FieldKind};
use script_reader::{Row, first_field, hexadecimal_value, read_value};
use std::alloc::{AllocError, Global};
use text_builder::Text;

/// A field of a line that is refused, and the kind by which it is read.
#[derive(Clone, Copy)]
struct RefusedField<'a> {
    kind: FieldKind,
    field: Place<'a>,
}

/// Whether a field is refused for this cause, as one of this kind.
fn is_refused(
    alloc: Global,
    kind: FieldKind,
    field: &[u8],
    cause: Cause,
) -> Result<bool, AllocError>
    ensures { IfOk result (λ refused. refused ≡ false → value_of kind field.now ≢ Err cause) }
{
    match read_value(alloc, kind, field)? {
        Ok(_) => Ok(false),
        Err(found) => Ok(found == cause),
    }
}

/// The first field of a line that is refused for this cause.
fn first_refused<'a>(
    alloc: Global,
    row: &Row,
    line: &[u8],
    fields: &'a [u8],
    cause: Cause,
) -> Result<Option<RefusedField<'a>>, AllocError>
    requires { IsEndOf line.now fields.now }
    ensures found { OfField cause → values_of (seen row.now) (fields_of fields.now) ≡ Err cause → IfOk result IsSome }
    ensures column { IfOk result (λ refused. IfSome refused (λ r. StandsAt line.now r.field.bytes.now r.field.column)) }
{
    let mut rest = fields;
    let mut place = 0usize;
    'fields: while let Some((bytes, after)) = first_field(rest) {
        let Some(kind) = row.kind_at(place) else {
            return Ok(None);
        };
        if is_refused(alloc, kind, bytes, cause)? {
            let field = Place::before(line, bytes, after);
            return Ok(Some(RefusedField { kind, field }));
        }
        place = place.saturating_add(1);
        rest = after;
    }
    Ok(None)
}

fn put_signed(text: &mut Text, field: &[u8]) {
    put_quoted(text, field);
    if is_number_form(field) || is_negative_form(field) {
        let (least, most) = (i64::MIN, i64::MAX);
        write!(
            text,
            " is out of range: a signed number is from {least} to {most}"
        )
    } else {
        text.push_str(
            " is no number: write decimal digits, or 0x and hexadecimal digits, after - if it is negative",
        )
    }
}

fn put_slot(text: &mut Text, field: &[u8]) {
    if is_number_form(field) {
        put_number(text, field);
    } else {
        put_quoted(text, field);
        text.push_str(" is no slot: write its number, or - for none");
    }
}

fn put_entry(text: &mut Text, field: &[u8]) {
    match field {
        [b'@', number @ ..] if is_number_form(number) => put_number(text, number),
        _ => {
            put_quoted(text, field);
            text.push_str(" is no TLB entry: write @ and its number, as @0")
        }
    }
}

/// Tells that a field must be one of two words.
fn put_neither(text: &mut Text, right: &str, field: &[u8]) {
    text.push_str(right);
    text.push_str(", not ");
    put_quoted(text, field);
}

/// The first byte of a text that is no hexadecimal digit, and how many are before it.
fn first_no_digit(text: &[u8]) -> Option<(usize, u8)>
    ensures { IfSome result (λ found. found.0 < length text.now) }
{
    'bytes: for (place, byte) in text.iter().enumerate() {
        if hexadecimal_value(*byte) > 15 {
            return Some((place, *byte));
        }
    }
    None
}

/// Puts what is wrong with a field, or a part of one, that is no HEX, and returns the column.
pub fn put_hex(text: &mut Text, field: Place<'_>) -> usize
    ensures { IsFrom field.entry.column (length field.entry.bytes.now) (Some result) }
{
    if field.bytes.is_empty() {
        text.push_str("HEX is empty: write - for no bytes");
        return field.column;
    }
    if let Some((place, byte)) = first_no_digit(field.bytes) {
        put_quoted(text, &[byte]);
        text.push_str(
            " is no hexadecimal digit: HEX is two digits for each byte, or - for no bytes",
        );
        return field.column.saturating_add(place);
    }
    let count = field.bytes.len();
    let digits = if count == 1 { "digit" } else { "digits" };
    write!(text, "HEX has {count} {digits}, and each byte takes two");
    field.column
}

/// Puts what is wrong with a field that is refused as one of this kind, and returns the column.
fn put_field(text: &mut Text, kind: FieldKind, field: Place<'_>) -> usize
    ensures { IsFrom field.entry.column (length field.entry.bytes.now) (Some result) }
{
    let bytes = field.bytes;
    match kind {
        FieldKind::Number => put_number(text, bytes),
        FieldKind::Signed => put_signed(text, bytes),
        FieldKind::Slot => put_slot(text, bytes),
        FieldKind::Mode => put_neither(text, "MODE is rw or ro", bytes),
        FieldKind::Policy => put_neither(text, "POLICY is full or asid", bytes),
        FieldKind::Scheme => put_neither(text, "SCHEME is sv39 or sv48", bytes),
        FieldKind::Entry => put_entry(text, bytes),
        FieldKind::Hex => return put_hex(text, field),
        FieldKind::Segment => return put_segment(text, field),
    }
    field.column
}

/// Returns what is wrong with the first of a line's `fields`, those after its word, that is refused for this cause. `None`: no field is.
///
/// # Errors
/// `AllocError`: host memory was refused.
pub fn refused_field(
    alloc: Global,
    row: &Row,
    line: &[u8],
    fields: &[u8],
    cause: Cause,
) -> Result<Option<Mistake>, AllocError>
    requires { IsEndOf line.now fields.now }
    ensures found { OfField cause → values_of (seen row.now) (fields_of fields.now) ≡ Err cause → IfOk result IsSome }
    ensures column { IfOk result (λ m. IfSome m (λ m. IsOfLine line.now m)) }
{
    let Some(refused) = first_refused(alloc, row, line, fields, cause)? else {
        return Ok(None);
    };
    let mut text = Text::new(alloc);
    let column = put_field(&mut text, refused.kind, refused.field);
    Ok(Some(Mistake::at(column, text.finish()?)))
}
