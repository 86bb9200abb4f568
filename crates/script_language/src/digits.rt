// Functions that append to a byte vector with room: bytes as they are, and numbers in decimal (signed ones too) or
// hexadecimal digits; and `glyph`, the ASCII code of a hexadecimal digit.

ghost use Rattle.std.specs.Prelude.{◌≡◌, ◌+◌, ◌<◌, ◌≤◌, ◌++◌, false, length, vec_len, vec_capacity};
ghost use Rattle.std.specs.Fmt.{decimal, signed_decimal, digits, digit_glyph};

use itoa::Buffer;

/// Appends `piece` to `text`. Requires room (unused capacity) for it.
#[inline(always)]
pub fn put(text: &mut Vec<u8>, piece: &[u8])
    requires room { vec_len text.old + length piece.now ≤ vec_capacity text.old }
    ensures text { text.new.items ≡ text.old.items ++ piece.now }
    ensures len { vec_len text.new ≡ vec_len text.old + length piece.now }
    ensures capacity { vec_capacity text.old ≤ vec_capacity text.new }
{
    if text.extend_from_slice(piece).is_err() {
        unreachable!()
    }
}

/// Appends `number` to `text` in decimal digits, at most 20. Requires room (unused capacity) for 20 bytes. One digit or two,
/// as in `fault 13`, are pushed at once.
#[inline(always)]
pub fn put_decimal(text: &mut Vec<u8>, number: u64)
    requires room { vec_len text.old + 20 ≤ vec_capacity text.old }
    ensures text { text.new.items ≡ text.old.items ++ decimal number }
    ensures len { vec_len text.new ≤ vec_len text.old + 20 }
    ensures capacity { vec_capacity text.old ≤ vec_capacity text.new }
{
    if number < 10 {
        text.push_reserved(b'0' + number as u8);
        return;
    }
    if number < 100 {
        text.push_reserved(b'0' + (number / 10) as u8);
        text.push_reserved(b'0' + (number % 10) as u8);
        return;
    }
    let mut buffer = Buffer::new();
    put(text, buffer.format(number).as_bytes());
}

/// Appends `number` to `text` in decimal digits, with `-` before them if it is negative: at most 11 bytes. Requires room
/// (unused capacity) for 11.
pub fn put_signed(text: &mut Vec<u8>, number: i32)
    requires room { vec_len text.old + 11 ≤ vec_capacity text.old }
    ensures text { text.new.items ≡ text.old.items ++ signed_decimal number }
    ensures len { vec_len text.new ≤ vec_len text.old + 11 }
    ensures capacity { vec_capacity text.old ≤ vec_capacity text.new }
{
    let mut buffer = Buffer::new();
    put(text, buffer.format(number).as_bytes());
}

/// Returns the ASCII code of the hexadecimal digit, in lower case, of `number`, which the caller keeps below 16.
#[inline(always)]
pub fn glyph(number: u8) -> u8
    requires { number < 16 }
    ensures { result ≡ digit_glyph false number }
{
    if number < 10 {
        b'0' + number
    } else {
        b'a' + (number - 10)
    }
}

/// Appends `number` to `text` in lower-case hexadecimal digits, at most 16, without `0x` and leading zeros. Requires room
/// (unused capacity) for 16 bytes.
#[inline(always)]
pub fn put_hexadecimal(text: &mut Vec<u8>, number: u64)
    requires room { vec_len text.old + 16 ≤ vec_capacity text.old }
    ensures text { text.new.items ≡ text.old.items ++ digits 16 false number }
    ensures len { vec_len text.new ≤ vec_len text.old + 16 }
    ensures capacity { vec_capacity text.old ≤ vec_capacity text.new }
{
    let mut digits = [b'0'; 16];
    let mut rest = number;
    let mut at = 16;
    'digits: loop {
        at -= 1;
        digits[at] = glyph((rest % 16) as u8);
        if rest < 16 {
            let (_, written) = digits.split_at(at);
            put(text, written);
            return;
        }
        rest /= 16;
    }
}
