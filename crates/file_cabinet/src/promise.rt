// `PromiseError`, an enum: why a promise of page reads and writes (so that they cannot fail) was refused: `Memory` or
// `JournalFull`. It converts to the `Refusal` of the same name.

use process_model::Refusal;

/// The error of `Files::promise`. A kernel call that needs these pages is refused with the refusal of this name.
#[derive(Clone, Copy, PartialEq, Eq, Debug)]
pub enum PromiseError {
    /// The host is out of memory.
    Memory,
    /// The history that the files keep of their page reads and writes has no room for this many more entries.
    JournalFull,
}

impl From<PromiseError> for Refusal {
    ghost use Rattle.std.specs.Prelude.{◌≡◌};
    ghost use Rattle.file_cabinet.specs.Promises.{refusal_of};

    ghost from_gives = { λ error refusal. refusal ≡ refusal_of error };

    fn from(error: PromiseError) -> Refusal {
        match error {
            PromiseError::Memory => Refusal::Memory,
            PromiseError::JournalFull => Refusal::JournalFull,
        }
    }
}
