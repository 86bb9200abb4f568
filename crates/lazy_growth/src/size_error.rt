// Enum `SizeError`, the two errors of sbrk: why the heap keeps its size; and their conversion to `Refusal`, the model's
// refusals.

use process_model::Refusal;

/// Why sbrk does not change the size of the heap.
#[derive(Clone, Copy, PartialEq, Eq, Debug)]
pub enum SizeError {
    /// The heap would end below its base.
    BadSize,
    /// The heap would reach into the lowest mapping, or into TRAPFRAME if there is no mapping.
    NoRoom,
}

impl From<SizeError> for Refusal {
    ghost use Rattle.std.specs.Prelude.{◌≡◌};
    ghost use Rattle.lazy_growth.specs.SbrkResults.{refusal_of};

    ghost from_gives = { λ error refusal. refusal ≡ refusal_of error };

    fn from(error: SizeError) -> Refusal {
        match error {
            SizeError::BadSize => Refusal::BadSize,
            SizeError::NoRoom => Refusal::NoRoom,
        }
    }
}
