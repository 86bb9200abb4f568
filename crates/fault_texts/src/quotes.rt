// `put_quoted`: a field in quotes; `put_number`: what is wrong with one that is no number.

use line_fields::{quoted, wrong_number};
use std::alloc::AllocError;
use text_builder::Text;

/// Puts a text, or that there was no memory for it.
fn put_made(text: &mut Text, made: Result<String, AllocError>) {
    match made {
        Ok(made) => text.push_str(made.as_str()),
        Err(_) => text.note(Err(AllocError)),
    }
}

/// Puts a field in quotes.
pub fn put_quoted(text: &mut Text, field: &[u8]) {
    let made = quoted(text.allocator(), field);
    put_made(text, made);
}

/// Puts what is wrong with a field, or a part of one, that is no number below 2^64.
pub fn put_number(text: &mut Text, field: &[u8]) {
    let made = wrong_number(text.allocator(), field);
    put_made(text, made);
}
