// `plain_line`: a line as `xv6vm` takes it, of one as people write it: without the comment behind it, with numbers for `PROT_READ` and
// its kin, and bytes without `0x`.

use crate::lines::without_comment;
use memchr::{memchr, memmem, memrchr};
use script_language::FieldKind;
use script_reader::{Row, first_field};
use std::alloc::{AllocError, Global};

/// The names in POSIX of the flags of mmap, with their numbers here.
static FLAGS: [(&[u8], u8); 5] = [
    (b"PROT_READ", 1),
    (b"PROT_WRITE", 2),
    (b"PROT_EXEC", 4),
    (b"MAP_SHARED", 1),
    (b"MAP_PRIVATE", 2),
];

/// Returns the number of a flag of mmap, by its name in POSIX.
fn flag_of(name: &[u8]) -> Option<u8> {
    for (flag, number) in FLAGS.as_slice() {
        if *flag == name {
            return Some(*number);
        }
    }
    None
}

/// Returns the number that names of flags stand for, with `|` between them; `None` if it is another field.
fn flags_of(field: &[u8]) -> Option<u8> {
    let mut rest = field;
    let mut flags = 0;
    'names: for _ in 0..=field.len() {
        let Some(at) = memchr(b'|', rest) else {
            break;
        };
        let (name, after) = rest.split_at(at.min(rest.len()));
        flags |= flag_of(name)?;
        rest = after.get(1..)?;
    }
    Some(flags | flag_of(rest)?)
}

/// Appends bytes without the `0x` before them.
fn put_bytes(out: &mut Vec<u8>, field: &[u8]) -> Result<(), AllocError> {
    let digits = field.strip_prefix(b"0x".as_slice()).unwrap_or(field);
    out.extend_from_slice(if digits.is_empty() { field } else { digits })
}

/// Returns how many colons a field has.
fn colons_in(field: &[u8]) -> usize {
    let mut count = 0usize;
    'bytes: for byte in field {
        if *byte == b':' {
            count = count.saturating_add(1);
        }
    }
    count
}

/// Appends a segment without the `0x` before its bytes, which come after its last colon.
fn put_segment(out: &mut Vec<u8>, field: &[u8]) -> Result<(), AllocError> {
    let end = match memrchr(b':', field) {
        Some(at) => at.saturating_add(1),
        None => 0,
    };
    let (front, bytes) = field.split_at(end.min(field.len()));
    out.extend_from_slice(front)?;
    put_bytes(out, bytes)
}

/// Appends a field of this kind as `xv6vm` takes it.
fn put_field(out: &mut Vec<u8>, kind: Option<FieldKind>, field: &[u8]) -> Result<(), AllocError> {
    match kind {
        Some(FieldKind::Number) => match flags_of(field) {
            // at most 7, the sum of all three
            Some(flags) => Ok(out.push(b'0'.wrapping_add(flags))?),
            None => out.extend_from_slice(field),
        },
        Some(FieldKind::Hex) => put_bytes(out, field),
        Some(FieldKind::Segment) if colons_in(field) == 3 => { put_segment(out, field) }
        _ => out.extend_from_slice(field),
    }
}

/// Appends a line, without an answer that it expects, as `xv6vm` takes it. Blanks stay.
fn put_line(out: &mut Vec<u8>, line: &[u8]) -> Result<(), AllocError> {
    let row = match first_field(line) {
        Some((word, _)) => Row::find(word),
        None => None,
    };
    let Some(row) = row else {
        return out.extend_from_slice(line);
    };
    let mut rest = line;
    'fields: for place in 0..=line.len() {
        let Some((field, after)) = first_field(rest) else {
            break;
        };
        let blanks = rest
            .len()
            .saturating_sub(field.len())
            .saturating_sub(after.len());
        let (blank, _) = rest.split_at(blanks.min(rest.len()));
        out.extend_from_slice(blank)?;
        let kind = match place.checked_sub(1) {
            Some(place) => row.kind_at(place),
            None => None,
        };
        put_field(out, kind, field)?;
        rest = after;
    }
    out.extend_from_slice(rest)
}

/// Returns a line as `xv6vm` takes it, with the answer that it expects if it has one. A comment stays.
///
/// # Errors
/// `AllocError`: the host is out of memory.
pub fn plain_line(alloc: Global, line: &[u8]) -> Result<Vec<u8>, AllocError> {
    let line = without_comment(line);
    let mut out = Vec::with_capacity(alloc, line.len())?;
    if line.trim_ascii_start().starts_with(b"#") {
        out.extend_from_slice(line)?;
        return Ok(out);
    }
    let end = memmem::find(line, b"=>").unwrap_or(line.len());
    let (front, answer) = line.split_at(end.min(line.len()));
    put_line(&mut out, front)?;
    out.extend_from_slice(answer)?;
    Ok(out)
}
