// `PlayError` (enum): why a script, or a file for threads, was not played to its end: host memory refused, a fault in a
// line, or a failed reader or writer; and the line that is printed for it (`Display`).

use script_language::Cause;
use std::error::Error;
use std::fmt;

/// Why a script, or a file for threads, was not played to its end.
#[derive(Clone, Copy, PartialEq, Eq, Debug)]
pub enum PlayError {
    /// Host memory was refused.
    Memory,
    /// The first line with a fault, counted from 1, and its cause; line 0 is the text as a whole.
    Script(u64, Cause),
    /// The reader or the writer failed.
    Io,
}

impl fmt::Display for PlayError {
    ghost use Rattle.std.specs.Prelude.{Some};
    ghost use Rattle.audit_player.specs.ErrorText.{error_text};

    ghost output = { λ e. Some (error_text e) };

    fn fmt<W: fmt::Write>(&self, f: &mut fmt::Formatter<W>) -> fmt::Result {
        match self {
            PlayError::Memory => write!(f, "refused 21 Memory"),
            PlayError::Script(line, cause) => write!(f, "refused 23 Script line {line} {cause}"),
            PlayError::Io => write!(f, "refused 24 Io"),
        }
    }
}

impl Error for PlayError {}
