// `put_segment`: what is wrong with a field that is no segment, `VADDR:MEMSZ:FLAGS:HEX`, and in which of its parts.

ghost use Rattle.std.specs.Prelude.{◌≤◌, length, IfSome, Some};
ghost use Rattle.line_fields.specs.Columns.{IsPart};
ghost use Rattle.fault_texts.specs.Mistakes.{IsFrom};

use crate::field_forms::put_hex;
use crate::quotes::{put_number, put_quoted};
use line_fields::Place;
use script_reader::{first_piece, number};
use text_builder::Text;

/// What FLAGS may be.
const FLAGS: &str = "FLAGS are letters of r, w and x, each at most once, or - for none";

/// The number of parts of a field, which colons separate.
fn part_count(field: &[u8]) -> usize {
    let mut parts = 1usize;
    'bytes: for byte in field {
        if *byte == b':' {
            parts = parts.saturating_add(1);
        }
    }
    parts
}

/// The first part of a field.
fn first_part(field: &[u8]) -> &[u8]
    ensures { length result.now ≤ length field.now }
{
    let (part, _) = first_piece(field);
    part
}

/// What follows the first part of a field and its colon; nothing if there is none.
fn after_part(field: &[u8]) -> &[u8]
    ensures { length result.now ≤ length field.now }
{
    match first_piece(field) {
        (_, Some(after)) => after,
        (_, None) => &[],
    }
}

/// The part of a field with this number, from 0; an empty one if the field has fewer parts.
fn part_at<'a>(field: Place<'a>, number: usize) -> Place<'a>
    ensures { IsPart field.entry.column field.entry.bytes.now result.column result.bytes.now }
{
    let mut rest = field.bytes;
    'parts: for _index in 0..number {
        rest = after_part(rest);
    }
    let front = field.bytes.len().saturating_sub(rest.len());
    Place {
        column: field.column.saturating_add(front),
        bytes: first_part(rest),
    }
}

/// Puts what is wrong with VADDR or MEMSZ, if it is no number, and returns the column.
fn put_part(text: &mut Text, name: &str, part: Place<'_>) -> Option<usize>
    ensures { IfSome result (λ column. IsFrom part.entry.column (length part.entry.bytes.now) (Some column)) }
{
    if number(part.bytes).is_some() {
        return None;
    }
    text.push_str(name);
    put_number(text, part.bytes);
    Some(part.column)
}

/// Puts what is wrong with a letter of FLAGS, if it is none, or was there before; returns whether it is.
fn put_letter(text: &mut Text, letter: u8, before: &[u8]) -> bool {
    let wrong = if !matches!(letter, b'r' | b'w' | b'x') {
        " is no right: "
    } else if before.contains(&letter) {
        " is there twice: "
    } else {
        return false;
    };
    put_quoted(text, &[letter]);
    text.push_str(wrong);
    text.push_str(FLAGS);
    true
}

/// Puts what is wrong with FLAGS, if they are none, and returns the column.
fn put_flags(text: &mut Text, part: Place<'_>) -> Option<usize>
    ensures { IfSome result (λ column. IsFrom part.entry.column (length part.entry.bytes.now) (Some column)) }
{
    let flags = part.bytes;
    if flags.is_empty() {
        text.push_str("FLAGS are empty: ");
        text.push_str(FLAGS);
        return Some(part.column);
    }
    if matches!(flags, b"-") {
        return None;
    }
    'letters: for (place, letter) in flags.iter().enumerate() {
        let (before, _) = flags.split_at(place);
        if put_letter(text, *letter, before) {
            return Some(part.column.saturating_add(place));
        }
    }
    None
}

/// Puts what is wrong with a field that has not four parts.
fn put_parts(text: &mut Text, field: &[u8], parts: usize) {
    let word = if parts == 1 { "part" } else { "parts" };
    text.push_str("a segment is VADDR:MEMSZ:FLAGS:HEX, and ");
    put_quoted(text, field);
    write!(text, " has {parts} {word}");
}

/// Puts what is wrong with a field that is no segment: that it has not four parts, or what is wrong with its first part at fault, the last
/// if the others are right. Returns the column.
pub fn put_segment(text: &mut Text, field: Place<'_>) -> usize
    ensures { IsFrom field.entry.column (length field.entry.bytes.now) (Some result) }
{
    let parts = part_count(field.bytes);
    if parts != 4 {
        put_parts(text, field.bytes, parts);
        return field.column;
    }
    if let Some(column) = put_part(text, "VADDR: ", part_at(field, 0)) {
        return column;
    }
    if let Some(column) = put_part(text, "MEMSZ: ", part_at(field, 1)) {
        return column;
    }
    if let Some(column) = put_flags(text, part_at(field, 2)) {
        return column;
    }
    put_hex(text, part_at(field, 3))
}
