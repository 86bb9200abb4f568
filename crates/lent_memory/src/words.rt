// `LentWords`: the physical memory of a walk as a borrowed slice of words, from any physical page number on.

ghost use Rattle.std.specs.Prelude.{◌≡◌};

use std::marker::Model;
use table_walk::Words;

/// A memory for walks: the words of the frames from physical page number `base` on, 512 of each, one frame after another. What
/// is below that page, or past the end of the slice, is outside the memory.
#[derive(Drop)]
pub struct LentWords<'a> {
    base: u64,
    words: &'a [u64],
}

/// Contracts see the page number of the first frame, and the words.
impl<'a> Model for LentWords<'a> {
    ghost use Rattle.lent_memory.specs.Memory.{Lent};

    ghost Value = { Lent };

    ghost view = { λ lent. record { base = lent.base; words = lent.words.now } };
}

impl<'a> LentWords<'a> {
    /// Returns the memory that has these words from physical page number `base` on.
    pub fn new(base: u64, words: &'a [u64]) -> LentWords<'a>
        ensures base { result.base ≡ base }
        ensures words { result.words ≡ words.now }
    {
        LentWords { base, words }
    }
}

impl Words for LentWords<'_> {
    ghost use Rattle.std.proofs.Common.{refl, ap, ◌∙◌};
    ghost use Rattle.std.specs.Prelude.{⊤};
    ghost use Rattle.lent_memory.specs.Memory.{lent_extent, lent_memory};

    ghost memory = { lent_memory };

    ghost readable = { λ words ppn. ⊤ };

    ghost there = { lent_extent };

    ghost stays = { λ a b. b ≡ a };

    ghost stays_itself = { λ a. refl };

    ghost stays_on = { λ a b c p q. q ∙ p };

    ghost same_memory = { λ a b p. ap lent_memory p };

    ghost same_there = { λ a b p. ap lent_extent p };

    ghost one_memory = { λ a ppn index r low. refl };

    ghost same_readable = { λ a b ppn p r. r };

    fn word(&mut self, ppn: u64, index: usize) -> Option<u64> {
        let frame = ppn.checked_sub(self.base)?;
        if frame > self.words.len() as u64 / 512 {
            return None;
        }
        self.words.get(frame as usize * 512 + index).copied()
    }

    fn has_word(&self, ppn: u64, index: usize) -> bool {
        let Some(frame) = ppn.checked_sub(self.base) else {
            return false;
        };
        if frame > self.words.len() as u64 / 512 {
            return false;
        }
        frame as usize * 512 + index < self.words.len()
    }
}
