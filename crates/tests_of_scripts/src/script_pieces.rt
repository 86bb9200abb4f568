// Tests that `play` plays each prefix of a script, cut at each byte, or refuses it at the right line with the right cause.

use crate::mapped_file::{LINES, script_and_text};
use crate::players::played;
use audit_player::PlayError;
use script_language::Cause;
use std::test::Fail;

/// The result of a script whose last line has `above` lines above it and is cut after the byte with this letter (`LINES`).
/// `boots`: the script has its line `boot`.
fn outcome(letter: u8, above: usize, boots: bool) -> Result<(), PlayError> {
    let number = (above as u64).saturating_add(1);
    let cause = match letter {
        b'W' => Cause::Word,
        b'C' => Cause::Count,
        b'N' => Cause::Number,
        b'F' => Cause::Field,
        _ if boots => return Ok(()),
        _ => return Err(PlayError::Script(number.saturating_add(1), Cause::Order)),
    };
    Err(PlayError::Script(number, cause))
}

/// The first `length` bytes of a text.
fn prefix(text: &str, length: usize) -> &[u8] {
    let bytes = text.as_bytes();
    if length <= bytes.len() {
        &bytes[..length]
    } else {
        bytes
    }
}

/// The letter of the byte of this number; past the last byte comes the line feed, and the line is valid.
fn letter_at(letters: &str, place: usize) -> u8 {
    match letters.as_bytes().get(place) {
        Some(letter) => *letter,
        None => b'.',
    }
}

/// A prefix whose last line is valid is played, if it boots, and else refused in the line after the last. Any other is
/// refused in its last line. The text is written up to the prefix's last line, or nothing of it if the prefix is refused.
#[test]
fn plays_each_front(rt: HostRuntime) -> Result<(), Fail> {
    let (script, text) = script_and_text(rt.alloc())?;
    let (mut length, mut written) = (0usize, 0usize);
    for above in 0..LINES.len() {
        let (line, letters, reply) = &LINES[above];
        written = written.saturating_add(reply.len());
        for place in 0..=line.len() {
            length = length.saturating_add(1);
            let want = outcome(letter_at(letters, place), above, written > 0);
            let wanted = if want.is_ok() { written } else { 0 };
            let (result, got) = played(rt.alloc(), prefix(&script, length));
            assert_eq!(rt;
                (length, line.len(), result, got.as_slice()),
                (length, letters.len(), want, prefix(&text, wanted))
            );
        }
    }
    assert_eq!(rt; length, script.len());
    Ok(())
}
