// `read_segment`: parses a segment of an `image` line (address, size in memory, rights, bytes) from its field,
// `VADDR:MEMSZ:FLAGS:HEX`.

ghost use Rattle.std.specs.Prelude.{◌≡◌, IfOk};
ghost use Rattle.script_language.specs.Fields as words;
ghost use Rattle.script_language.specs.Lines.{pieces_of};
ghost use Rattle.script_language.specs.Numbers.{number_of, hex_of};
ghost use Rattle.script_reader.specs.Pieces.{IsSegmentFields};

use crate::hex::hex;
use crate::lines::first_piece;
use crate::numbers::number;
use process_model::Segment;
use std::alloc::{AllocError, Global};

/// The four pieces of a segment's field, which colons separate.
#[derive(Clone, Copy)]
struct SegmentFields<'a> {
    address: &'a [u8],
    memory_size: &'a [u8],
    flags: &'a [u8],
    bytes: &'a [u8],
}

/// Splits a field into its four pieces. `None`: it has fewer or more, so it is no segment.
fn four_pieces(field: &[u8]) -> Option<SegmentFields<'_>>
    ensures { IsSegmentFields (pieces_of field.now) result }
{
    let (address, rest) = first_piece(field);
    let (memory_size, rest) = first_piece(rest?);
    let (flags, rest) = first_piece(rest?);
    let (bytes, rest) = first_piece(rest?);
    match rest {
        Some(_) => None,
        None => Some(SegmentFields {
            address,
            memory_size,
            flags,
            bytes,
        }),
    }
}

fn has_letter(letter: u8, letters: &[u8]) -> bool
    ensures { result ≡ words.has_letter letter letters.now }
{
    letters.contains(&letter)
}

/// Whether each byte is one of the letters `r`, `w`, `x`, and none is there twice.
fn are_letters(letters: &[u8]) -> bool
    ensures { result ≡ words.are_letters letters.now }
{
    match letters {
        [] => true,
        [letter, rest @ ..] => {
            matches!(*letter, b'r' | b'w' | b'x') && !has_letter(*letter, rest) && are_letters(rest)
        }
    }
}

/// Whether the flags are `-`, or one or more of the letters `r`, `w`, `x`, each at most once.
fn are_flags(flags: &[u8]) -> bool
    ensures { result ≡ words.are_flags flags.now }
{
    matches!(flags, b"-") || !flags.is_empty() && are_letters(flags)
}

/// Parses a segment from its field `VADDR:MEMSZ:FLAGS:HEX`. `None`: the field has another form.
///
/// # Errors
/// `AllocError`: host memory was refused.
pub fn read_segment(alloc: Global, field: &[u8]) -> Result<Option<Segment>, AllocError>
    ensures { IfOk result (λ segment. segment ≡ words.segment_in (pieces_of field.now)) }
{
    match four_pieces(field) {
        Some(pieces) => from_pieces(alloc, pieces),
        None => Ok(None),
    }
}

fn from_pieces(alloc: Global, pieces: SegmentFields<'_>) -> Result<Option<Segment>, AllocError>
    ensures { IfOk result (λ segment.
        segment ≡ words.segment_with (number_of pieces.entry.address.now) (number_of pieces.entry.memory_size.now) pieces.entry.flags.now
        (words.are_flags pieces.entry.flags.now) (hex_of pieces.entry.bytes.now)) }
{
    let (Some(address), Some(memory_size)) = (number(pieces.address), number(pieces.memory_size))
    else {
        return Ok(None);
    };
    if !are_flags(pieces.flags) {
        return Ok(None);
    }
    let Some(bytes) = hex(alloc, pieces.bytes)? else {
        return Ok(None);
    };
    Ok(Some(Segment {
        address,
        memory_size,
        writes: has_letter(b'w', pieces.flags),
        executes: has_letter(b'x', pieces.flags),
        bytes,
    }))
}
