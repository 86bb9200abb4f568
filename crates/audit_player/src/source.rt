// `Source` (trait): a reader that remembers whether a read has failed, with its remaining bytes for contracts, if they are
// known; `Reader` (struct): makes a source of any reader of std.

ghost use Rattle.std.specs.Prelude.{◌≡◌, ◌≤◌, ◌<◌, false, ◌||◌, ℕ, Bool, List, Option, length, take, IfSome, MatchOption, is_none};
ghost use Rattle.std.specs.Io.KnownBytes.{Consumes, IsAtEnd, Keeps};

use std::io::Read;

/// A reader that remembers whether a read has failed.
pub trait Source {
    /// The bytes that are still to be read, if they are known.
    ghost remaining: { Self → Option (List ℕ) };

    /// Whether a read has failed.
    ghost broken: { Self → Bool };

    /// Returns whether a read has failed.
    fn failed(&self) -> bool
        ensures { result ≡ broken self.now };

    /// Reads bytes to the start of `buffer` and returns their number: 0 only at the end, or if `buffer` has no room. `None`:
    /// the read failed, no byte is taken from the source, and `failed` returns true from then on.
    fn read(&mut self, buffer: &mut [u8]) -> Option<usize>
        ensures failed { broken self.new ≡ (broken self.old || is_none result) }
        ensures bound { IfSome result (λ n. n ≤ length buffer.new) }
        ensures bytes { MatchOption result (Keeps (remaining self.old) (remaining self.new)) (λ n.
            Consumes (remaining self.old) (remaining self.new) (take n buffer.new)) }
        ensures end { IfSome result (λ n. n ≡ 0 → 0 < length buffer.new → IsAtEnd (remaining self.new)) };
}

/// A reader of std, over memory or a file, and whether a read has failed.
#[derive(Drop)]
pub struct Reader<R> {
    inner: R,
    failed: bool,
}

impl<R: Read> Reader<R> {
    /// Makes a source of a reader; no read has failed.
    pub fn new(inner: R) -> Reader<R>
        ensures { result ≡ record { inner = inner; failed = false } }
    {
        Reader {
            inner,
            failed: false,
        }
    }
}

impl<R: Read> Source for Reader<R> {
    ghost remaining = { λ r. R.remaining r.inner };

    ghost broken = { λ r. r.failed };

    fn failed(&self) -> bool {
        self.failed
    }

    fn read(&mut self, buffer: &mut [u8]) -> Option<usize> {
        match self.inner.read(buffer) {
            Ok(count) => Some(count),
            Err(_) => {
                self.failed = true;
                None
            }
        }
    }
}
