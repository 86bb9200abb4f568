// Functions that take a value of a line by its place after the word, from 0: a number, a signed number, a slot or buffer
// entry, a file's mode, a policy, a scheme, bytes; and one that takes all segments. A missing value, or one of another kind,
// has a default.

ghost use Rattle.std.specs.Prelude.{◌≡◌, IfOk, slice_get};
ghost use Rattle.script_language.specs.Script as words;

use process_model::{Bytes, Policy, Segment, Sequence};
use script_language::FieldValue;
use std::alloc::{AllocError, Global};
use sv39_entry::Scheme;

/// Returns the number at this place, 0 if there is none.
pub fn number_at(values: &[FieldValue], place: usize) -> u64
    ensures { result ≡ words.number_at values.now place }
{
    match values.get(place) {
        Some(FieldValue::Number(number)) => *number,
        _ => 0,
    }
}

/// Returns the number at this place as a count or an index, 0 if there is none.
pub fn index_at(values: &[FieldValue], place: usize) -> usize
    ensures { result ≡ words.number_at values.now place }
{
    number_at(values, place) as usize
}

/// Returns the signed number at this place, 0 if there is none.
pub fn signed_at(values: &[FieldValue], place: usize) -> i64
    ensures { result ≡ words.signed_at values.now place }
{
    match values.get(place) {
        Some(FieldValue::Signed(number)) => *number,
        _ => 0,
    }
}

/// Returns the slot or the buffer entry at this place. `None`: the field is `-`, or the line has no such field.
pub fn optional_at(values: &[FieldValue], place: usize) -> Option<usize>
    ensures { result ≡ words.optional_at values.now place }
{
    match values.get(place) {
        Some(FieldValue::Optional(Some(index))) => Some(*index as usize),
        _ => None,
    }
}

/// Returns whether the mode at this place is `rw`; false if there is none.
pub fn writable_at(values: &[FieldValue], place: usize) -> bool
    ensures { result ≡ words.as_writable (slice_get values.now place) }
{
    match values.get(place) {
        Some(FieldValue::Writable(writable)) => *writable,
        _ => false,
    }
}

/// Returns the policy at this place, `Full` if there is none.
pub fn policy_at(values: &[FieldValue], place: usize) -> Policy
    ensures { result ≡ words.as_policy (slice_get values.now place) }
{
    match values.get(place) {
        Some(FieldValue::Policy(policy)) => *policy,
        _ => Policy::Full,
    }
}

/// Returns the scheme at this place, Sv39 if there is none.
pub fn scheme_at(values: &[FieldValue], place: usize) -> Scheme
    ensures { result ≡ words.as_scheme (slice_get values.now place) }
{
    match values.get(place) {
        Some(FieldValue::Scheme(scheme)) => *scheme,
        _ => Scheme::Sv39,
    }
}

/// Returns the bytes at this place without copying them; no bytes if there are none.
pub fn take_bytes(alloc: Global, mut values: Vec<FieldValue>, place: usize) -> Bytes
    ensures { result ≡ words.bytes_at values.items place }
{
    if place < values.len()
        && let FieldValue::Hex(bytes) = values.swap_remove(place)
    {
        return bytes;
    }
    Bytes::from_vec(Vec::new(alloc))
}

/// Returns all segments among the values, in their order.
///
/// # Errors
/// `AllocError`: host memory was refused.
pub fn take_segments(
    alloc: Global,
    values: Vec<FieldValue>,
) -> Result<Sequence<Segment>, AllocError>
    ensures { IfOk result (λ segments. segments ≡ words.segments_in values.items) }
{
    let mut segments = Vec::new(alloc);
    for value in values {
        if let FieldValue::Segment(segment) = value {
            segments.push(segment)?;
        }
    }
    Ok(Sequence::from_vec(segments))
}
