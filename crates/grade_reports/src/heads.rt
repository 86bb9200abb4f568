// `other_lab`: which other lab a file names.

use handouts::without_mark;

/// Whether a byte ends a line, as students may write one.
fn is_end(byte: u8) -> bool {
    byte == b'\n' || byte == b'\r'
}

/// Returns the digits that a text begins with.
fn digits_of(text: &[u8]) -> &[u8] {
    'bytes: for place in 0..text.len() {
        if !text[place].is_ascii_digit() {
            return &text[..place];
        }
    }
    text
}

/// Returns the number of the lab that a comment names, as `# Lab 4, copy-on-write fork.` does; there may be more behind the comment.
fn lab_in(comment: &[u8]) -> Option<u32> {
    let Some(rest) = comment.strip_prefix(b"# Lab ") else {
        return None;
    };
    match std::str::from_utf8(digits_of(rest)) {
        Ok(digits) => digits.parse::<u32>().ok(),
        Err(_) => None,
    }
}

/// Returns the number of the lab that the first comment of a script names.
fn lab_of(text: &[u8]) -> Option<u32> {
    let text = without_mark(text);
    // Whether there is nothing but blanks before the byte in its line.
    let mut is_first = true;
    'bytes: for place in 0..text.len() {
        let byte = text[place];
        if is_first && byte == b'#' {
            return lab_in(&text[place..]);
        }
        is_first = is_end(byte) || (is_first && byte.is_ascii_whitespace());
    }
    None
}

/// Returns the number of the lab that a file names in its first comment, if the handout names another in its own.
pub fn other_lab(handout: &[u8], file: &[u8]) -> Option<u32> {
    match (lab_of(handout), lab_of(file)) {
        (Some(own), Some(other)) if own != other => Some(other),
        _ => None,
    }
}
