// `StoredWords`: a struct, the words of a plain frame store as a memory for walks. It implements `Words`; nothing else is in the
// memory.

ghost use Rattle.std.specs.Prelude.{◌≡◌};

use crate::words::Words;
use frame_store::PlainFrames;
use std::marker::Model;
use sv39_entry::FrameNo;

/// A memory for walks: the words of all frames of a plain frame store, lent, whoever holds them. What is past the last frame
/// is outside the memory.
#[derive(Drop)]
pub struct StoredWords<'a> {
    frames: &'a PlainFrames,
}

/// Contracts see the words, those of frame 0 first.
impl<'a> Model for StoredWords<'a> {
    ghost use Rattle.std.specs.Prelude.{ℕ, List};

    ghost Value = { List ℕ };

    ghost view = { λ stored. stored.frames.now.words };
}

impl<'a> StoredWords<'a> {
    /// Returns the memory that has the words of this store.
    pub fn new(frames: &'a PlainFrames) -> StoredWords<'a>
        ensures { result ≡ frames.now.words }
    {
        StoredWords { frames }
    }
}

impl Words for StoredWords<'_> {
    ghost use Rattle.std.proofs.Common.{refl, ap, ◌∙◌};
    ghost use Rattle.std.specs.Prelude.{⊤};
    ghost use Rattle.table_walk.specs.Memory.{plain_extent, plain_memory};

    ghost memory = { plain_memory };

    ghost readable = { λ words ppn. ⊤ };

    ghost there = { plain_extent };

    ghost stays = { λ a b. b ≡ a };

    ghost stays_itself = { λ a. refl };

    ghost stays_on = { λ a b c p q. q ∙ p };

    ghost same_memory = { λ a b p. ap plain_memory p };

    ghost same_there = { λ a b p. ap plain_extent p };

    ghost one_memory = { λ a ppn index r low. refl };

    ghost same_readable = { λ a b ppn p r. r };

    fn word(&mut self, ppn: u64, index: usize) -> Option<u64> {
        let frame = FrameNo::from_ppn(ppn)?;
        self.frames.word(frame, index)
    }

    fn has_word(&self, ppn: u64, index: usize) -> bool {
        match FrameNo::from_ppn(ppn) {
            Some(frame) => self.frames.word(frame, index).is_some(),
            None => false,
        }
    }
}
