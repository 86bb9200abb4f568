// `Numbers`: numbers that follow from a lab and a seed.

ghost use Rattle.std.specs.Prelude.{◌≡◌, ◌<◌, ◌≢◌};

use crate::names::Lab;
use rand_core::{Rng, SeedableRng};
use rand_xoshiro::SplitMix64;

/// FNV-1a of 64 bits: what it begins with, and by what it multiplies (draft-eastlake-fnv).
const FNV_OFFSET_BASIS: u64 = 0xcbf2_9ce4_8422_2325;

const FNV_PRIME: u64 = 0x0100_0000_01b3;

/// Goes on with an FNV-1a hash.
fn hashed(hash: u64, bytes: &[u8]) -> u64 {
    let mut hash = hash;
    for byte in bytes {
        hash = (hash ^ u64::from(*byte)).wrapping_mul(FNV_PRIME);
    }
    hash
}

/// Numbers that follow from a lab and a seed, by SplitMix64 from the FNV-1a hash of both.
#[derive(Drop)]
pub struct Numbers {
    words: SplitMix64,
}

impl Numbers {
    /// Returns the numbers of a lab and a seed.
    pub fn of_seed(lab: Lab, seed: &str) -> Numbers {
        let lab = hashed(FNV_OFFSET_BASIS, lab.name().as_bytes());
        let between = hashed(lab, b" ");
        Numbers {
            words: SplitMix64::seed_from_u64(hashed(between, seed.as_bytes())),
        }
    }

    /// Returns any number.
    pub fn word(&mut self) -> u64 {
        self.words.next_u64()
    }

    /// Returns a number below `end`; 0 if `end` is 0.
    pub fn below(&mut self, end: u64) -> u64
        ensures below { end ≢ 0 → result < end }
    {
        let word = self.words.next_u64();
        if end == 0 { 0 } else { word % end }
    }

    /// Returns a number from `first` on, below `end`; `first` if there is none.
    pub fn between(&mut self, first: u64, end: u64) -> u64 {
        first.saturating_add(self.below(end.saturating_sub(first)))
    }

    /// Returns true in `percent` of 100 cases.
    pub fn chance(&mut self, percent: u64) -> bool {
        self.below(100) < percent
    }
}
