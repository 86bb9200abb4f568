// `Run`: a struct, the word numbers from one to another.

ghost use Rattle.std.specs.Prelude.{◌≡◌, max, min};
ghost use Rattle.mmu.specs.Words.{is_in};

/// The numbers from `first` on that are below `end`. A word's number is its physical address / 8.
#[derive(Clone, Copy)]
pub(crate) struct Run {
    pub first: u64,
    pub end: u64,
}

impl Run {
    /// Whether a number is in the run.
    pub fn has(&self, number: u64) -> bool
        ensures { result ≡ is_in self.now number }
    {
        self.first <= number && number < self.end
    }

    /// Returns the run from the lower of its first number and that of `low` on, below the higher of its end and that of `high`.
    pub fn widened(&self, low: &Run, high: &Run) -> Run
        ensures first { result.first ≡ min self.now.first low.now.first }
        ensures end { result.end ≡ max self.now.end high.now.end }
    {
        Run {
            first: self.first.min(low.first),
            end: self.end.max(high.end),
        }
    }
}
