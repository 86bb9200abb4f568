// `Sink` (trait): a writer that remembers whether a write has failed, with its bytes for contracts, if they are known;
// `Writer` (struct): makes a sink of any writer of std.

ghost use Rattle.std.specs.Prelude.{◌≡◌, ◌≤◌, ◌<◌, false, ◌||◌, ℕ, Bool, List, Option, length, take, IfSome, MatchOption, is_none};
ghost use Rattle.std.specs.Io.KnownBytes.{Appends, Keeps};

use std::io::Write;

/// A writer that remembers whether a write has failed.
pub trait Sink {
    /// The bytes that the writer holds, if they are known; writes append to them.
    ghost contents: { Self → Option (List ℕ) };

    /// Whether a write has failed.
    ghost broken: { Self → Bool };

    /// Returns whether a write has failed.
    fn failed(&self) -> bool
        ensures { result ≡ broken self.now };

    /// Writes a prefix of `piece` and returns its length in bytes, which is not 0 if `piece` has bytes. `None`: the write
    /// failed, nothing of `piece` is written, and `failed` returns true from then on.
    fn write(&mut self, piece: &[u8]) -> Option<usize>
        ensures failed { broken self.new ≡ (broken self.old || is_none result) }
        ensures bound { IfSome result (λ n. n ≤ length piece.now) }
        ensures some { IfSome result (λ n. 0 < length piece.now → 0 < n) }
        ensures bytes { MatchOption result (Keeps (contents self.old) (contents self.new)) (λ n.
            Appends (contents self.old) (contents self.new) (take n piece.now)) };
}

/// A writer of std, over memory or a file, and whether a write has failed.
#[derive(Drop)]
pub struct Writer<W> {
    inner: W,
    failed: bool,
}

impl<W: Write> Writer<W> {
    /// Makes a sink of a writer; no write has failed.
    pub fn new(inner: W) -> Writer<W>
        ensures { result ≡ record { inner = inner; failed = false } }
    {
        Writer {
            inner,
            failed: false,
        }
    }
}

impl<W> Writer<W> {
    /// Returns the writer of which the sink was made.
    pub fn into_inner(self) -> W
        ensures { result ≡ self.inner }
    {
        let Writer { inner, failed: _ } = self;
        inner
    }
}

impl<W: Write> Sink for Writer<W> {
    ghost contents = { λ w. W.contents w.inner };

    ghost broken = { λ w. w.failed };

    fn failed(&self) -> bool {
        self.failed
    }

    fn write(&mut self, piece: &[u8]) -> Option<usize> {
        match self.inner.write(piece) {
            Ok(count) if count > 0 || piece.is_empty() => Some(count),
            _ => {
                self.failed = true;
                None
            }
        }
    }
}
