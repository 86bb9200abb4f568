// `is_right`: whether a guess is an answer. Letter case, blanks, and the form of a number do not count.

ghost use Rattle.std.specs.Prelude.{◌≡◌, IfOk, IsTrue};

use script_reader::{first_field, number};
use std::alloc::{AllocError, Global};

/// Returns the place of the word that is bytes and no number, in an answer with this first word.
fn place_of_bytes(word: &[u8]) -> usize {
    match word {
        b"file" | b"copied" => 2,
        b"short" => 5,
        _ => usize::MAX,
    }
}

/// Returns whether a word at the beginning of an outcome says only by what it is known.
fn is_by(word: &[u8]) -> bool {
    matches!(
        word,
        b"=>" | b"walk" | b"held" | b"bare" | b"misaligned" | b"not" | b"canonical"
    )
}

/// Appends a word: bytes without `0x`, a number in decimal digits, any other as it is.
fn put_word(
    alloc: Global,
    out: &mut Vec<u8>,
    word: &[u8],
    is_bytes: bool,
) -> Result<(), AllocError> {
    out.push(b' ')?;
    if is_bytes {
        return out.extend_from_slice(word.strip_prefix(b"0x").unwrap_or(word));
    }
    match number(word) {
        Some(value) => {
            let text = format!(in alloc; "{value}")?;
            out.extend_from_slice(text.as_bytes())
        }
        None => out.extend_from_slice(word),
    }
}

/// Returns an outcome, or an answer that has one only, in the form in which it is compared.
fn plain_part(alloc: Global, part: &[u8]) -> Result<Vec<u8>, AllocError> {
    let mut out = Vec::new(alloc);
    let (mut rest, mut place, mut bytes_at) = (part, 0usize, usize::MAX);
    'words: for _ in 0..=part.len() {
        let Some((word, after)) = first_field(rest) else {
            break;
        };
        rest = after;
        if place == 0 && is_by(word) {
            continue;
        }
        if word == b"level".as_slice() {
            rest = match first_field(rest) {
                Some((_, after)) => after,
                None => rest,
            };
            continue;
        }
        if place == 0 {
            bytes_at = place_of_bytes(word);
        }
        put_word(alloc, &mut out, word, place == bytes_at)?;
        place = place.saturating_add(1);
    }
    Ok(out)
}

/// Whether a part is among others.
fn has_part(parts: &[Vec<u8>], part: &[u8]) -> bool {
    for one in parts {
        if one.as_slice() == part {
            return true;
        }
    }
    false
}

/// Appends a part to others, if it is not among them.
fn add_part(alloc: Global, parts: &mut Vec<Vec<u8>>, part: &[u8]) -> Result<(), AllocError> {
    let part = plain_part(alloc, part)?;
    if !part.is_empty() && !has_part(parts.as_slice(), part.as_slice()) {
        parts.push(part)?;
    }
    Ok(())
}

/// Returns the outcomes of an answer as they stand there, with what is in parentheses.
fn whole_parts(alloc: Global, answer: &[u8]) -> Result<Vec<&[u8]>, AllocError> {
    let mut parts = Vec::new(alloc);
    let (mut start, mut inside) = (0usize, false);
    'bytes: for place in 0..=answer.len() {
        match answer.get(place) {
            Some(byte) if *byte != b';' || inside => {
                inside = *byte == b'(' || (inside && *byte != b')');
            }
            _ => {
                parts.push(answer.get(start..place).unwrap_or(b"").trim_ascii())?;
                start = place.saturating_add(1);
            }
        }
    }
    Ok(parts)
}

/// Returns an outcome without what stands in parentheses, with a blank for each comma, tab and end of a line.
fn without_parentheses(alloc: Global, part: &[u8]) -> Result<Vec<u8>, AllocError> {
    let mut bare = Vec::new(alloc);
    let mut inside = false;
    for byte in part {
        match *byte {
            b'(' => inside = true,
            b')' => inside = false,
            _ if inside => {}
            b'\t' | b'\r' | b'\n' | b',' => bare.push(b' ')?,
            other => bare.push(other)?,
        }
    }
    Ok(bare)
}

/// Returns the outcomes of an answer, each in the form in which it is compared: small letters, numbers in decimal digits. What stands in
/// parentheses is left out, and by what an outcome is known.
///
/// # Errors
/// `AllocError`: the host is out of memory.
pub fn plain_parts(alloc: Global, text: &[u8]) -> Result<Vec<Vec<u8>>, AllocError> {
    let letters = text.to_ascii_lowercase(alloc)?;
    let mut parts = Vec::new(alloc);
    'parts: for part in whole_parts(alloc, letters.as_slice())? {
        let bare = without_parentheses(alloc, part)?;
        add_part(alloc, &mut parts, bare.as_slice())?;
    }
    Ok(parts)
}

/// Returns whether each part is among others.
fn are_among(parts: &[Vec<u8>], others: &[Vec<u8>]) -> bool {
    for part in parts {
        if !has_part(others, part.as_slice()) {
            return false;
        }
    }
    true
}

/// Returns the outcomes of an answer of a reference MMU, as they stand there, that a guess does not have.
///
/// # Errors
/// `AllocError`: the host is out of memory.
pub fn missed_parts(
    alloc: Global,
    guess: &[u8],
    answer: &[u8],
) -> Result<Vec<Vec<u8>>, AllocError> {
    let guessed = plain_parts(alloc, guess)?;
    let mut missed = Vec::new(alloc);
    'parts: for part in whole_parts(alloc, answer)? {
        let plain = plain_parts(alloc, part)?;
        if !are_among(plain.as_slice(), guessed.as_slice()) {
            missed.push(Vec::from_slice(alloc, part)?)?;
        }
    }
    Ok(missed)
}

/// Returns whether a guess is an answer. Letter case and blanks do not count, a number may be decimal or hexadecimal, and of outcomes of a
/// reference MMU what stands in parentheses, by what each is known, its level and their order do not count.
///
/// # Errors
/// `AllocError`: the host is out of memory.
pub fn is_right(alloc: Global, guess: &[u8], answer: &[u8]) -> Result<bool, AllocError>
    ensures itself { IfOk result (λ right. guess.now ≡ answer.now → IsTrue right) }
{
    if guess == answer {
        return Ok(true);
    }
    let (guessed, answered) = (plain_parts(alloc, guess)?, plain_parts(alloc, answer)?);
    Ok(
        are_among(guessed.as_slice(), answered.as_slice())
            && are_among(answered.as_slice(), guessed.as_slice()),
    )
}
