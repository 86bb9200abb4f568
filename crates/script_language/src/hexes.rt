// Function `put_bytes`: appends bytes as text, two hexadecimal digits each, or `-` for none, to a byte vector with room.

ghost use Rattle.std.specs.Prelude.{◌≡◌, ◌+◌, ◌*◌, ◌≤◌, ◌++◌, length, vec_len, vec_capacity};
ghost use Rattle.std.specs.List.{flat_map};
ghost use Rattle.script_language.specs.Words.{bytes_text, two_digits};

use crate::digits::{glyph, put};

/// Appends two digits for each of at most 32 bytes.
#[inline(always)]
fn put_few(text: &mut Vec<u8>, bytes: &[u8])
    requires few { length bytes.now ≤ 32 }
    requires room { vec_len text.old + 2 * length bytes.now ≤ vec_capacity text.old }
    ensures text { text.new.items ≡ text.old.items ++ flat_map two_digits bytes.now }
    ensures len { vec_len text.new ≡ vec_len text.old + 2 * length bytes.now }
    ensures capacity { vec_capacity text.old ≤ vec_capacity text.new }
{
    let mut digits = [b'0'; 64];
    'bytes: for (i, byte) in bytes.iter().enumerate() {
        digits[2 * i] = glyph(*byte / 16);
        digits[2 * i + 1] = glyph(*byte % 16);
    }
    put(text, &digits[..2 * bytes.len()]);
}

/// Appends two lower-case hexadecimal digits to `text` for each of `bytes`, or `-` if there are none. Requires room (unused
/// capacity) for `2 * bytes.len() + 1` bytes.
pub fn put_bytes(text: &mut Vec<u8>, bytes: &[u8])
    requires room { vec_len text.old + (2 * length bytes.now + 1) ≤ vec_capacity text.old }
    ensures text { text.new.items ≡ text.old.items ++ bytes_text bytes.now }
    ensures len { vec_len text.new ≤ vec_len text.old + (2 * length bytes.now + 1) }
    ensures capacity { vec_capacity text.old ≤ vec_capacity text.new }
{
    if bytes.is_empty() {
        put(text, b"-");
        return;
    }
    let mut rest = bytes;
    'pieces: while !rest.is_empty() {
        let (few, after) = rest.split_at(rest.len().min(32));
        put_few(text, few);
        rest = after;
    }
}
