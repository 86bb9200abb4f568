// A number after a text: `put_hex`, `put_number`.

use text_builder::Text;
use walk_lines::Hex;

/// Appends a text, and a word or an address after it.
pub(crate) fn put_hex(out: &mut Text, text: &str, word: u64) {
    let word = Hex(word);
    write!(out, "{text}{word}")
}

/// Appends a text, and a number in decimal digits after it.
pub(crate) fn put_number(out: &mut Text, text: &str, number: u64) {
    write!(out, "{text}{number}")
}
