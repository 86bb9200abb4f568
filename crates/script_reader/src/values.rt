// `read_values`: parses the fields after a line's word into values (numbers, bytes, slots, segments and others), each by the
// kind that the word's row has for its place, or returns the line's fault: `Count`, `Number` or `Field`.

ghost use Rattle.std.specs.Prelude.{◌≡◌, IfOk};
ghost use Rattle.script_language.specs.Fields as words;
ghost use Rattle.script_language.specs.Fields.{value_of, values_of};
ghost use Rattle.script_language.specs.Lines.{fields_of};
ghost use Rattle.script_reader.specs.ReadResults.{GivesLine};
ghost use Rattle.script_reader.specs.ValueLists.{listed};
ghost use Rattle.script_reader.specs.Rows.{seen};

use crate::fault::LineFault;
use crate::hex::hex;
use crate::lines::first_field;
use crate::numbers::{number, signed};
use crate::segments::read_segment;
use crate::table::Row;
use process_model::Policy;
use script_language::{Cause, FieldKind, FieldValue};
use std::alloc::{AllocError, Global};
use sv39_entry::Scheme;

/// Parses a slot: a number, or `-` for none.
fn read_slot(field: &[u8]) -> Result<FieldValue, Cause>
    ensures { result ≡ value_of FieldKind.Slot field.now }
{
    match field {
        b"-" => Ok(FieldValue::Optional(None)),
        _ => match number(field) {
            Some(slot) => Ok(FieldValue::Optional(Some(slot))),
            None => Err(Cause::Number),
        },
    }
}

fn read_mode(field: &[u8]) -> Result<FieldValue, Cause>
    ensures { result ≡ value_of FieldKind.Mode field.now }
{
    match field {
        b"rw" => Ok(FieldValue::Writable(true)),
        b"ro" => Ok(FieldValue::Writable(false)),
        _ => Err(Cause::Field),
    }
}

fn read_policy(field: &[u8]) -> Result<FieldValue, Cause>
    ensures { result ≡ value_of FieldKind.Policy field.now }
{
    match field {
        b"full" => Ok(FieldValue::Policy(Policy::Full)),
        b"asid" => Ok(FieldValue::Policy(Policy::Asid)),
        _ => Err(Cause::Field),
    }
}

fn read_scheme(field: &[u8]) -> Result<FieldValue, Cause>
    ensures { result ≡ value_of FieldKind.Scheme field.now }
{
    match field {
        b"sv39" => Ok(FieldValue::Scheme(Scheme::Sv39)),
        b"sv48" => Ok(FieldValue::Scheme(Scheme::Sv48)),
        _ => Err(Cause::Field),
    }
}

/// Parses `@N`, and returns N. `None`: the field has another form.
fn entry_number(field: &[u8]) -> Option<u64>
    ensures { result ≡ words.entry_number field.now }
{
    match field {
        [b'@', digits @ ..] => number(digits),
        _ => None,
    }
}

fn read_entry(field: &[u8]) -> Result<FieldValue, Cause>
    ensures { result ≡ value_of FieldKind.Entry field.now }
{
    match entry_number(field) {
        Some(entry) => Ok(FieldValue::Optional(Some(entry))),
        None => Err(Cause::Field),
    }
}

fn read_number(field: &[u8]) -> Result<FieldValue, Cause>
    ensures { result ≡ value_of FieldKind.Number field.now }
{
    match number(field) {
        Some(number) => Ok(FieldValue::Number(number)),
        None => Err(Cause::Number),
    }
}

fn read_signed(field: &[u8]) -> Result<FieldValue, Cause>
    ensures { result ≡ value_of FieldKind.Signed field.now }
{
    match signed(field) {
        Some(number) => Ok(FieldValue::Signed(number)),
        None => Err(Cause::Number),
    }
}

fn read_hex(alloc: Global, field: &[u8]) -> Result<Result<FieldValue, Cause>, AllocError>
    ensures { IfOk result (λ read. read ≡ value_of FieldKind.Hex field.now) }
{
    match hex(alloc, field) {
        Ok(Some(bytes)) => Ok(Ok(FieldValue::Hex(bytes))),
        Ok(None) => Ok(Err(Cause::Field)),
        Err(error) => Err(error),
    }
}

fn read_one_segment(alloc: Global, field: &[u8]) -> Result<Result<FieldValue, Cause>, AllocError>
    ensures { IfOk result (λ read. read ≡ value_of FieldKind.Segment field.now) }
{
    match read_segment(alloc, field) {
        Ok(Some(segment)) => Ok(Ok(FieldValue::Segment(segment))),
        Ok(None) => Ok(Err(Cause::Field)),
        Err(error) => Err(error),
    }
}

/// Parses a field of this kind. The outer error is the host's; the inner one is the fault of the field: `Number` for a number or a
/// slot, and `Field` for every other kind.
///
/// # Errors
/// `AllocError`: host memory was refused.
pub fn read_value(
    alloc: Global,
    kind: FieldKind,
    field: &[u8],
) -> Result<Result<FieldValue, Cause>, AllocError>
    ensures { IfOk result (λ read. read ≡ value_of kind field.now) }
{
    match kind {
        FieldKind::Number => Ok(read_number(field)),
        FieldKind::Signed => Ok(read_signed(field)),
        FieldKind::Hex => read_hex(alloc, field),
        FieldKind::Slot => Ok(read_slot(field)),
        FieldKind::Mode => Ok(read_mode(field)),
        FieldKind::Policy => Ok(read_policy(field)),
        FieldKind::Scheme => Ok(read_scheme(field)),
        FieldKind::Segment => read_one_segment(alloc, field),
        FieldKind::Entry => Ok(read_entry(field)),
    }
}

/// Appends a value to those so far. Of two faults, `Number` is reported before `Field`.
fn and_then(
    so_far: Result<Vec<FieldValue>, Cause>,
    next: Result<FieldValue, Cause>,
) -> Result<Result<Vec<FieldValue>, Cause>, AllocError>
    ensures { IfOk result (λ read. listed read ≡ words.and_then (listed so_far) next) }
{
    let read = match (so_far, next) {
        (Ok(mut values), Ok(value)) => {
            values.push(value)?;
            Ok(values)
        }
        (Ok(_), Err(cause)) => Err(cause),
        (Err(cause), Ok(_)) => Err(cause),
        (Err(Cause::Number), Err(_)) => Err(Cause::Number),
        (Err(_), Err(cause)) => Err(cause),
    };
    Ok(read)
}

/// Parses the fields after a word, by its row. The outer error is the host's; the inner one is the fault of the line:
/// `Count`, if the row takes fewer fields or more; else `Number`, if a number or a slot has a wrong form or is out of range;
/// else `Field`, if another field has a wrong form.
///
/// # Errors
/// `AllocError`: host memory was refused.
pub fn read_values(
    alloc: Global,
    row: &Row,
    fields: &[u8],
) -> Result<Result<Vec<FieldValue>, Cause>, AllocError>
    ensures { IfOk result (λ read. listed read ≡ values_of (seen row.now) (fields_of fields.now)) }
{
    let mut so_far = Ok(Vec::new(alloc));
    let mut place = 0;
    let mut rest = fields;
    'fields: while let Some((field, after)) = first_field(rest) {
        let Some(kind) = row.kind_at(place) else {
            return Ok(Err(Cause::Count));
        };
        so_far = and_then(so_far, read_value(alloc, kind, field)?)?;
        place += 1;
        rest = after;
    }
    if place < row.kinds.len() {
        return Ok(Err(Cause::Count));
    }
    Ok(so_far)
}

/// `read_values`, with the fault of the line and refused memory in one error.
pub fn line_values(alloc: Global, row: &Row, fields: &[u8]) -> Result<Vec<FieldValue>, LineFault>
    ensures { GivesLine (λ values. values.items) result (values_of (seen row.now) (fields_of fields.now)) }
{
    match read_values(alloc, row, fields) {
        Ok(Ok(values)) => Ok(values),
        Ok(Err(cause)) => Err(LineFault::Cause(cause)),
        Err(_) => Err(LineFault::Memory),
    }
}
