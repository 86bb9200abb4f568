// `PlainWords`: a struct, a borrowed slice of words as a memory for walks, with frame 0 first and 512 words a frame. It
// implements `Words`; nothing else is in the memory.

ghost use Rattle.std.specs.Prelude.{◌≡◌};

use crate::words::Words;
use std::marker::Model;
use sv39_entry::FrameNo;

/// A memory for walks: the words of the frames from frame 0 on, 512 of each, one frame after another. What is past the end
/// of the slice is outside the memory.
#[derive(Drop)]
pub struct PlainWords<'a> {
    words: &'a [u64],
}

/// Contracts see the words.
impl<'a> Model for PlainWords<'a> {
    ghost use Rattle.std.specs.Prelude.{ℕ, List};

    ghost Value = { List ℕ };

    ghost view = { λ plain. plain.words.now };
}

impl<'a> PlainWords<'a> {
    /// Returns the memory that has these words.
    pub fn new(words: &'a [u64]) -> PlainWords<'a>
        ensures { result ≡ words.now }
    {
        PlainWords { words }
    }
}

impl Words for PlainWords<'_> {
    ghost use Rattle.std.proofs.Common.{refl, ap, ◌∙◌};
    ghost use Rattle.std.specs.Prelude.{⊤};
    ghost use Rattle.table_walk.specs.Memory.{plain_extent, plain_memory};

    ghost memory = { plain_memory };

    ghost readable = { λ words ppn. ⊤ };

    ghost there = { plain_extent };

    ghost stays = { λ a b. b ≡ a };

    ghost stays_itself = { λ a. refl };

    ghost stays_on = { λ a b c p q. q ∙ p };

    ghost same_memory = { λ a b p. ap plain_memory p };

    ghost same_there = { λ a b p. ap plain_extent p };

    ghost one_memory = { λ a ppn index r low. refl };

    ghost same_readable = { λ a b ppn p r. r };

    fn word(&mut self, ppn: u64, index: usize) -> Option<u64> {
        let frame = FrameNo::from_ppn(ppn)?;
        self.words.get(frame.0 as usize * 512 + index).copied()
    }

    fn has_word(&self, ppn: u64, index: usize) -> bool {
        match FrameNo::from_ppn(ppn) {
            Some(frame) => frame.0 as usize * 512 + index < self.words.len(),
            None => false,
        }
    }
}
