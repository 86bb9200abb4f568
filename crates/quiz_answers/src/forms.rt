// `form_of`: the form of the answers to a line; and `has_form`: whether a guess is of a form.

use crate::guesses::plain_parts;
use script_reader::{first_field, number};
use std::alloc::{AllocError, Global};

/// The form of an outcome of a reference MMU.
pub const OUTCOME_FORM: &str = "pa 0x.. or fault N";

/// What a guess at a line for a reference MMU is to say.
pub const OUTCOMES: &str = "each permitted outcome, with ; between: pa 0x.. or fault N";

/// Forms that several lines have.
const VALUE: &str = "value 0x.. or fault N or refused N NAME";

const DONE: &str = "ok or refused N NAME";

const SERVED: &str = "ready or ended N RULE or refused N NAME";

/// The forms of the answers to lines, by the first words of these. `N` and `0x..` stand for a number, `BYTES` for bytes, `NAME` and
/// `RULE` for a word.
static FORMS: [(&[u8], &str); 16] = [
    (b"audit", "free N held N shared N references N"),
    (b"load", VALUE),
    (b"fetch", VALUE),
    (b"store", "stored or fault N or refused N NAME"),
    (b"fix", SERVED),
    (b"serve", SERVED),
    (b"fill", "entry N or refused N NAME"),
    (b"tramp", "frame N or no frame or refused N NAME"),
    (b"start", "slot N or refused N NAME"),
    (b"fork", "slot N or refused N NAME"),
    (b"sbrk", "old 0x.. or refused N NAME"),
    (b"mmap", "at 0x.. or refused N NAME"),
    (b"exit", "exited N or refused N NAME"),
    (
        b"copyin",
        "copied N BYTES or short N RULE done N BYTES or refused N NAME",
    ),
    (
        b"copyout",
        "copied N or short N RULE done N or refused N NAME",
    ),
    (b"show", "file N BYTES"),
];

/// Returns the form of the answers to a line of a script.
pub fn form_of(line: &[u8]) -> &'static str {
    let Some((word, _)) = first_field(line) else {
        return DONE;
    };
    'forms: for (name, form) in FORMS.as_slice() {
        if *name == word {
            return form;
        }
    }
    DONE
}

/// Whether all bytes are hexadecimal digits, or the word is the `-` of no bytes.
fn is_bytes(word: &[u8]) -> bool {
    if word == b"-".as_slice() {
        return true;
    }
    for byte in word {
        if !byte.is_ascii_hexdigit() {
            return false;
        }
    }
    true
}

/// Whether a word of a guess is what a word of a form stands for.
fn fits_word(form: &[u8], word: &[u8]) -> bool {
    match form {
        b"N" | b"0x.." => number(word.strip_prefix(b"-").unwrap_or(word)).is_some(),
        b"BYTES" => is_bytes(word),
        b"NAME" | b"RULE" => number(word).is_none(),
        _ => form == word,
    }
}

/// Whether a part of a guess is of one of the forms with `or` between them.
fn fits_any(forms: &[u8], part: &[u8]) -> bool {
    let (mut rest, mut left, mut fits) = (forms, part, true);
    'words: for _ in 0..=forms.len() {
        let Some((form, after)) = first_field(rest) else {
            break;
        };
        rest = after;
        if form == b"or".as_slice() {
            if fits && first_field(left).is_none() {
                return true;
            }
            left = part;
            fits = true;
            continue;
        }
        match first_field(left) {
            Some((word, more)) => {
                fits = fits && fits_word(form, word);
                left = more;
            }
            None => fits = false,
        }
    }
    fits && first_field(left).is_none()
}

/// Returns the word of a form whose first answer is a word and a number.
fn word_of(form: &[u8]) -> Option<&[u8]> {
    let (word, rest) = first_field(form)?;
    match first_field(rest)? {
        (b"N" | b"0x..", _) => Some(word),
        _ => None,
    }
}

/// Whether a text is a number alone.
fn is_number(text: &[u8]) -> bool {
    match first_field(text) {
        Some((field, rest)) => number(field).is_some() && first_field(rest).is_none(),
        None => false,
    }
}

/// Returns a guess; one that is a number alone with the word before it, if the first answer of the form is a word and a number.
///
/// # Errors
/// `AllocError`: the host is out of memory.
pub fn completed(alloc: Global, form: &str, guess: Vec<u8>) -> Result<Vec<u8>, AllocError> {
    let Some(word) = word_of(form.as_bytes()) else {
        return Ok(guess);
    };
    if !is_number(guess.as_slice()) {
        return Ok(guess);
    }
    let mut text = Vec::from_slice(alloc, word)?;
    text.push(b' ')?;
    text.extend_from_slice(guess.as_slice())?;
    Ok(text)
}

/// Returns whether a guess is of a form, as `is_right` reads it: of outcomes of a reference MMU, whether each is.
///
/// # Errors
/// `AllocError`: the host is out of memory.
pub fn has_form(alloc: Global, form: &str, guess: &[u8]) -> Result<bool, AllocError> {
    let parts = plain_parts(alloc, guess)?;
    'parts: for part in parts.as_slice() {
        if !fits_any(form.as_bytes(), part.as_slice()) {
            return Ok(false);
        }
    }
    Ok(!parts.is_empty())
}
