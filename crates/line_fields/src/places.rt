// `Place`, a struct: a field of a line, or a part of one, with its column; `field_at`: the field of a line by its number;
// `field_count`: how many fields there are.

ghost use Rattle.std.specs.Prelude.{◌≡◌, ◌++◌, length, slice_get, MatchOption, Some, None};
ghost use Rattle.script_language.specs.Lines.{fields_of};
ghost use Rattle.line_fields.specs.Columns.{IsEndOf, StandsAt};

use script_reader::first_field;

/// A field of a line, or a part of one.
#[derive(Clone, Copy)]
pub struct Place<'a> {
    /// The column of its first byte, counted from 1.
    pub column: usize,
    /// Its bytes.
    pub bytes: &'a [u8],
}

impl<'a> Place<'a> {
    /// Returns the place of these bytes of a line, which `after` follows to the line's end.
    pub fn before(line: &[u8], bytes: &'a [u8], after: &[u8]) -> Place<'a>
        requires { IsEndOf line.now (bytes.now ++ after.now) }
        ensures bytes { result.bytes.now ≡ bytes.now }
        ensures column { StandsAt line.now bytes.now result.column }
    {
        let front = line
            .len()
            .saturating_sub(after.len())
            .saturating_sub(bytes.len());
        Place {
            column: front.saturating_add(1),
            bytes,
        }
    }
}

/// Returns the field of a line with this number, from 0, the word being number 0. `None`: the line has fewer fields.
pub fn field_at(line: &[u8], number: usize) -> Option<Place<'_>>
    ensures field { MatchOption result (slice_get (fields_of line.now) number ≡ None) (λ found. slice_get (fields_of line.now) number ≡ Some found.bytes.now) }
    ensures column { MatchOption result (Unit {0}) (λ found. StandsAt line.now found.bytes.now found.column) }
{
    let mut rest = line;
    'fields: for _index in 0..number {
        let (_, after) = first_field(rest)?;
        rest = after;
    }
    let (bytes, after) = first_field(rest)?;
    Some(Place::before(line, bytes, after))
}

/// Returns the number of fields in the rest of a line.
pub fn field_count(rest: &[u8]) -> usize
    ensures { result ≡ length (fields_of rest.now) }
{
    let mut count = 0usize;
    let mut rest = rest;
    'fields: while let Some((_, after)) = first_field(rest) {
        count = count.saturating_add(1);
        rest = after;
    }
    count
}
