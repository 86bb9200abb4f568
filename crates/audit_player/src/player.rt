// `play`: reads a script from a source (reader), plays it on a machine, and writes its answers to a sink (writer);
// `play_error_of` turns an error of the reader of scripts into a `PlayError`.

ghost use Rattle.std.specs.Prelude.{◌≡◌, ◌↔◌, ◌||◌, false, IsTrue, IsErrOf};
ghost use Rattle.audit_player.specs.PlayResult.{Plays, play_error_of};

use crate::fault::PlayError;
use crate::run_script::run;
use crate::sink::Sink;
use crate::source::Source;
use crate::transfer::{ReadError, read_all};
use script_reader::ScriptError;
use std::alloc::Global;

/// Returns the player's error for an error of the reader of scripts.
pub(crate) fn play_error_of(error: ScriptError) -> PlayError
    ensures { result ≡ play_error_of error }
{
    match error {
        ScriptError::Memory => PlayError::Memory,
        ScriptError::Line(line, cause) => PlayError::Script(line, cause),
    }
}

/// Reads a script, plays it, and writes its answers: a line for `boot`, and one for each line after it that is not skipped.
/// Clause `plays` says of known bytes (`Source::remaining`, `Sink::contents`) what is read and written.
///
/// # Errors
/// `Script(n, cause)`: the script's first fault, in line `n`, counted from 1, or 0 for the script as a whole; nothing is
/// written. `Memory`: host memory was refused; nothing is written. `Io`: exactly when the reader or the writer fails in this
/// call, if neither had failed before; a prefix of the text is written.
pub fn play<R: Source, W: Sink>(
    alloc: Global,
    reader: &mut R,
    writer: &mut W,
) -> Result<(), PlayError>
    ensures plays { Plays (R.remaining reader.old) (W.contents writer.old) (W.contents writer.new) result }
    ensures io { R.broken reader.old ≡ false → W.broken writer.old ≡ false
        → (IsErrOf result PlayError.Io ↔ IsTrue (R.broken reader.new || W.broken writer.new)) }
{
    let reading = match read_all(alloc, reader) {
        Ok(reading) => reading,
        Err(ReadError::Memory) => return Err(PlayError::Memory),
        Err(ReadError::Io) => return Err(PlayError::Io),
    };
    let script = match reading.finish() {
        Ok(script) => script,
        Err(error) => return Err(play_error_of(error)),
    };
    run(alloc, &script, writer)
}
