// `Random`: numbers that follow from a seed.

ghost use Rattle.std.specs.Prelude.{◌≡◌, ◌<◌, ◌≢◌};

use rand_core::{Rng, SeedableRng};
use rand_xoshiro::SplitMix64;

/// Numbers that follow from a seed, by SplitMix64: equal seeds give equal numbers.
#[derive(Drop)]
pub struct Random {
    words: SplitMix64,
}

impl Random {
    /// Returns the numbers of a seed.
    pub fn of_seed(seed: u64) -> Random {
        Random {
            words: SplitMix64::seed_from_u64(seed),
        }
    }

    /// Returns a number below `end`; 0 if `end` is 0.
    pub fn below(&mut self, end: u64) -> u64
        ensures below { end ≢ 0 → result < end }
    {
        let word = self.words.next_u64();
        if end == 0 { 0 } else { word % end }
    }

    /// Returns an index below `end`; 0 if `end` is 0.
    pub fn index(&mut self, end: usize) -> usize
        ensures below { end ≢ 0 → result < end }
    {
        self.below(end as u64) as usize
    }

    /// Returns a number from `first` on, below `end`; `first` if there is none.
    pub fn between(&mut self, first: u64, end: u64) -> u64 {
        first.saturating_add(self.below(end.saturating_sub(first)))
    }

    /// Returns true in `permille` of 1,000 cases.
    pub fn chance(&mut self, permille: u64) -> bool {
        self.below(1000) < permille
    }

    /// Returns one of some numbers; 0 if there is none.
    pub fn choice(&mut self, of: &[u64]) -> u64 {
        let at = self.index(of.len());
        of.get(at).copied().unwrap_or(0)
    }

    /// Returns an odd number of `width` bytes, so never 0.
    pub fn value(&mut self, width: u64) -> u64 {
        let word = self.words.next_u64();
        let short = match width {
            1 => word & 0xff,
            2 => word & 0xffff,
            4 => word & 0xffff_ffff,
            _ => word,
        };
        short | 1
    }
}
