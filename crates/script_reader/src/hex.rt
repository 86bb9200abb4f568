// `hex`: parses a HEX field of a line into bytes: two hexadecimal digits for each byte, at least one byte, or `-` for no
// bytes.

ghost use Rattle.std.specs.Prelude.{◌≡◌, ◌+◌, ◌<◌, IfOk, IfSome, MatchOption, None, Some, length};
ghost use Rattle.script_language.specs.Numbers.{pairs_of, hex_of, then_bytes};

use crate::number_prefixes::{are_digits, first_four};
use crate::numbers::hexadecimal_value;
use process_model::Bytes;
use std::alloc::{AllocError, Global};

/// The byte of the first two digits, and what follows them. `None`: they are no two hexadecimal digits.
fn first_byte(digits: &[u8]) -> Option<(u8, &[u8])>
    requires { 0 < length digits.now }
    ensures byte { MatchOption result (pairs_of digits.now ≡ None) (λ found. pairs_of digits.now ≡ then_bytes (Some found.0) (pairs_of found.1.now)) }
    ensures two { MatchOption result (Unit {0}) (λ found. length found.1.now + 2 ≡ length digits.now) }
{
    match digits {
        [high, low, rest @ ..] => {
            let high = hexadecimal_value(*high);
            let low = hexadecimal_value(*low);
            if high > 15 || low > 15 {
                return None;
            }
            Some((high * 16 + low, rest))
        }
        _ => None,
    }
}

/// The two bytes of the first four digits, and what follows them. `None`: there are fewer digits, or one of the first four bytes
/// is none; the field may have the right form all the same. Inlined, so that the result need not go through memory.
#[inline(always)]
fn two_bytes(digits: &[u8]) -> Option<(u8, u8, &[u8])>
    ensures bytes { IfSome result (λ found. pairs_of digits.now ≡ then_bytes (Some found.0) (then_bytes (Some found.1) (pairs_of found.2.now))) }
    ensures four { IfSome result (λ found. length found.2.now + 4 ≡ length digits.now) }
{
    let (a, b, c, d, rest) = first_four(digits)?;
    let a = hexadecimal_value(a);
    let b = hexadecimal_value(b);
    let c = hexadecimal_value(c);
    let d = hexadecimal_value(d);
    if !are_digits(a, b, c, d) {
        return None;
    }
    let first = a * 16 + b;
    let second = c * 16 + d;
    Some((first, second, rest))
}

/// The bytes of hexadecimal digits, two for each; as long as four digits are left, two bytes at a time. `None`: the number
/// of digits is odd, or a byte is no digit.
fn pairs(alloc: Global, digits: &[u8]) -> Result<Option<Bytes>, AllocError>
    ensures { IfOk result (λ bytes. bytes ≡ pairs_of digits.now) }
{
    let mut items = Vec::with_capacity(alloc, digits.len() / 2)?;
    let mut rest = digits;
    'twos: while let Some((first, second, after)) = two_bytes(rest) {
        items.push_reserved(first);
        items.push_reserved(second);
        rest = after;
    }
    'ones: while !rest.is_empty() {
        let Some((byte, after)) = first_byte(rest) else {
            return Ok(None);
        };
        items.push_reserved(byte);
        rest = after;
    }
    Ok(Some(Bytes::from_vec(items)))
}

/// Parses a HEX field: two hexadecimal digits of either case for each byte, at least one byte, or `-` for no bytes. `None`:
/// the field has another form.
///
/// # Errors
/// `AllocError`: host memory was refused.
pub fn hex(alloc: Global, field: &[u8]) -> Result<Option<Bytes>, AllocError>
    ensures { IfOk result (λ bytes. bytes ≡ hex_of field.now) }
{
    match field {
        [] => Ok(None),
        [b'-'] => Ok(Some(Bytes::from_vec(Vec::new(alloc)))),
        [_] => Ok(None),
        _ => pairs(alloc, field),
    }
}
