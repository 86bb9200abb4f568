// `is_number_form`, `is_negative_form`: which fields look like numbers; `wrong_number`: what is wrong with one that is none.

use crate::quoting::quoted;
use script_reader::hexadecimal_value;
use std::alloc::{AllocError, Global};

/// Returns whether a text is digits of this base, 10 or 16, and at least one.
fn are_digits(text: &[u8], base: u8) -> bool {
    'digits: for digit in text {
        if hexadecimal_value(*digit) >= base {
            return false;
        }
    }
    !text.is_empty()
}

/// Returns whether a field has the form of a number of any size: decimal digits, or `0x` and hexadecimal digits.
pub fn is_number_form(field: &[u8]) -> bool {
    match field {
        [b'0', b'x', digits @ ..] => are_digits(digits, 16),
        _ => are_digits(field, 10),
    }
}

/// Returns whether a field is `-` and what has the form of a number.
pub fn is_negative_form(field: &[u8]) -> bool {
    match field {
        [b'-', magnitude @ ..] => is_number_form(magnitude),
        _ => false,
    }
}

/// Returns what is wrong with a field, or a part of one, that is no number below 2^64.
///
/// # Errors
/// `AllocError`: host memory was refused.
pub fn wrong_number(alloc: Global, field: &[u8]) -> Result<String, AllocError> {
    let quote = quoted(alloc, field)?;
    if is_number_form(field) {
        let most = u64::MAX;
        format!(in alloc; "{quote} is too large: a number is at most {most}")
    } else if is_negative_form(field) {
        format!(in alloc; "{quote} is negative, and this number is at least 0")
    } else {
        format!(in alloc;
            "{quote} is no number: write decimal digits, or 0x and hexadecimal digits"
        )
    }
}
