// Whole texts through a source (reader) or sink (writer): `read_all` reads a script into the reader of scripts, `read_bytes`
// reads the bytes of a file for threads, `write_all` writes a text; `ReadError` (enum): host memory refused, or the source
// failed.

ghost use Rattle.std.specs.Prelude.{◌≡◌, ◌↔◌, false, true, not, IsTrue, IfOk, IsErrOf};
ghost use Rattle.std.specs.Io.KnownBytes.{Appends};
ghost use Rattle.audit_player.specs.InputOutput.{HasReadAll, IsInput, WroteSome};
ghost use Rattle.audit_player.specs.declared.transfer.ReadError.TheVariants as errors;

use crate::sink::Sink;
use crate::source::Source;
use script_language::LONGEST_SCRIPT;
use script_reader::PieceReader;
use std::alloc::{AllocError, Global};

/// Why a source was not read to its end.
#[derive(Debug, Drop)]
pub enum ReadError {
    /// Host memory was refused.
    Memory,
    /// The source failed.
    Io,
}

impl From<AllocError> for ReadError {
    ghost from_gives = { λ _ e. e ≡ errors.Memory };

    fn from(_e: AllocError) -> ReadError {
        ReadError::Memory
    }
}

/// Writes a text, by a loop over `write`. Returns false if a write failed; a prefix of the text is then written.
pub fn write_all<S: Sink>(sink: &mut S, text: &[u8]) -> bool
    ensures io { S.broken sink.old ≡ false → result ≡ not (S.broken sink.new) }
    ensures whole { result ≡ true → Appends (S.contents sink.old) (S.contents sink.new) text.now }
    ensures part { WroteSome (S.contents sink.old) (S.contents sink.new) text.now }
{
    let mut rest = text;
    'writing: while !rest.is_empty() {
        let Some(count) = sink.write(rest) else {
            return false;
        };
        let (_, after) = rest.split_at(count);
        rest = after;
    }
    true
}

/// Reads a script in pieces, and returns the reader that was given them: all bytes of the source or, if they are more than a
/// script may have, a prefix that is too long for a script.
///
/// # Errors
/// `Io`: exactly when the source fails in this call, if it had not failed before. `Memory`: host memory was refused.
pub fn read_all<S: Source>(alloc: Global, source: &mut S) -> Result<PieceReader, ReadError>
    ensures io { S.broken source.old ≡ false → (IsErrOf result ReadError.Io ↔ IsTrue (S.broken source.new)) }
    ensures bytes { IfOk result (HasReadAll (S.remaining source.old)) }
{
    let mut reading = PieceReader::new(alloc);
    let mut piece = [0u8; 32768];
    'reading: while !reading.is_too_long() {
        let Some(count) = source.read(&mut piece) else {
            return Err(ReadError::Io);
        };
        if count == 0 {
            return Ok(reading);
        }
        reading.add(&piece[..count])?;
    }
    Ok(reading)
}

/// Returns all bytes of a source, or, if they are more than a script may have, a prefix that is too long for a script.
///
/// # Errors
/// `Io`: exactly when the source fails in this call, if it had not failed before. `Memory`: host memory was refused.
pub fn read_bytes<S: Source>(alloc: Global, source: &mut S) -> Result<Vec<u8>, ReadError>
    ensures io { S.broken source.old ≡ false → (IsErrOf result ReadError.Io ↔ IsTrue (S.broken source.new)) }
    ensures bytes { IfOk result (λ bytes. IsInput LONGEST_SCRIPT (S.remaining source.old) bytes.items) }
{
    let mut bytes = Vec::new(alloc);
    let mut piece = [0u8; 32768];
    'reading: while bytes.len() <= LONGEST_SCRIPT {
        let size = match source.read(&mut piece) {
            Some(size) => size,
            None => return Err(ReadError::Io),
        };
        if size == 0 {
            return Ok(bytes);
        }
        bytes.extend_from_slice(&piece[..size])?;
    }
    Ok(bytes)
}
