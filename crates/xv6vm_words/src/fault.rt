// `Fault` (enum): why the program ends early, a wrong command line or an error of the player, with the line that it prints
// on standard error; `status` is its exit status.

use audit_player::PlayError;
use thiserror::Error;

/// Why the program did not play a file to its end: a wrong command line (`Usage`), or an error of the player (`Play`).
#[derive(Debug, Drop, Error)]
pub enum Fault {
    #[error("usage: xv6vm play FILE | xv6vm threads FILE --harts N")]
    Usage,
    #[error(transparent)]
    Play(#[from] PlayError),
}

impl Fault {
    ghost use Rattle.std.specs.Prelude.{◌≡◌};
    ghost use Rattle.xv6vm_words.specs.Status.{status_of};

    /// Returns the exit status of the program: 2 for `Usage`, 1 for `Play`.
    pub fn status(&self) -> u8
        ensures { result ≡ status_of self.now }
    {
        match self {
            Fault::Usage => 2,
            Fault::Play(_) => 1,
        }
    }
}
