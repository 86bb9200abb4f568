// `quoted`: the bytes of a field in quotes, for a text that people read.

use std::alloc::{AllocError, Global};

/// The most bytes of a field that are quoted.
const LONGEST_QUOTE: usize = 40;

/// Appends a byte as it is printed: itself, or `\x` and its two hexadecimal digits.
fn put_byte(text: &mut String, byte: u8) -> Result<(), AllocError> {
    if byte.is_ascii_graphic() || byte == b' ' {
        text.push(char::from(byte))
    } else {
        write!(text, "\\x{byte:02x}")
    }
}

/// Returns a field in quotes; of one with more than 40 bytes the first 40, and two dots.
///
/// # Errors
/// `AllocError`: host memory was refused.
pub fn quoted(alloc: Global, field: &[u8]) -> Result<String, AllocError> {
    let mut text = String::from_str(alloc, "\"")?;
    'bytes: for byte in field.iter().take(LONGEST_QUOTE) {
        put_byte(&mut text, *byte)?;
    }
    if field.len() > LONGEST_QUOTE {
        text.push_str("..")?;
    }
    text.push('"')?;
    Ok(text)
}
