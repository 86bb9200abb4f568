// The reader's two error enums: `LineFault`, why one line was not read, and `ScriptError`, why a whole script or file for
// threads was not (with the number of the line); each has a case for refused host memory. Conversions from `AllocError` and
// `Cause` to `LineFault`.

use script_language::Cause;
use std::alloc::AllocError;

/// Why a line was not read.
#[derive(Drop)]
pub enum LineFault {
    /// Host memory was refused.
    Memory,
    /// The line has a fault.
    Cause(Cause),
}

impl From<AllocError> for LineFault {
    ghost use Rattle.std.specs.Prelude.{◌≡◌};
    ghost use Rattle.script_reader.specs.declared.fault.LineFault.TheVariants as fault;

    ghost from_gives = { λ _ e. e ≡ fault.Memory };

    fn from(_e: AllocError) -> LineFault {
        LineFault::Memory
    }
}

impl From<Cause> for LineFault {
    ghost use Rattle.std.specs.Prelude.{◌≡◌};
    ghost use Rattle.script_reader.specs.declared.fault.LineFault.TheVariants as fault;

    ghost from_gives = { λ c e. e ≡ fault.Cause c };

    fn from(cause: Cause) -> LineFault {
        LineFault::Cause(cause)
    }
}

/// Why a script, or a file for threads, was not read.
#[derive(Clone, Copy, PartialEq, Eq, Debug)]
pub enum ScriptError {
    /// Host memory was refused.
    Memory,
    /// The first line with a fault, counted from 1, and its cause. Line 0, with `TooLong`: the text as a whole. The line
    /// after the last, with `Order`: no line has a fault, and a script has no `boot`, or a file for threads no `pool`.
    Line(u64, Cause),
}
