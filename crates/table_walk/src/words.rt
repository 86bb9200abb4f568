// `Words`, the trait of a memory that walks read: the 64-bit word at an index of a frame (`word`), and whether it is inside
// the memory (`has_word`), with the ghost functions and laws by which contracts speak of it.

ghost use Rattle.std.specs.Prelude.{◌≡◌, ◌<◌, ℕ, is_some};
ghost use Rattle.table_walk.specs.Memory.{Extent, Memory};

/// A memory that walks read: words by the physical page number of their frame and their index in it, 0 to 511.
pub trait Words {
    /// The words of the whole memory.
    ghost memory: { Self → Memory };

    /// The frames, by physical page number, whose words may be read.
    ghost readable: { Self → ℕ → Type 0 };

    /// Which words are inside the memory, by physical page number and index, also in frames that may not be read.
    ghost there: { Self → Extent };

    /// What a read of words keeps, from the state before it to the state after it.
    ghost stays: { Self → Self → Type 0 };

    /// Returns the word at an index of a frame, `None` if it is outside the memory. The frame must be readable.
    fn word(&mut self, ppn: u64, index: usize) -> Option<u64>
        requires readable { readable self.old ppn }
        requires in_frame { index < 512 }
        ensures word { result ≡ memory self.old ppn index }
        ensures stays { stays self.old self.new };

    /// Whether the word at an index of a frame is inside the memory. It is not read.
    fn has_word(&self, ppn: u64, index: usize) -> bool
        requires in_frame { index < 512 }
        ensures { result ≡ there self.now ppn index };

    ghost stays_itself: { (a : Self) → stays a a };

    ghost stays_on: { (a b c : Self) → stays a b → stays b c → stays a c };

    ghost same_memory: { (a b : Self) → stays a b → memory b ≡ memory a };

    ghost same_there: { (a b : Self) → stays a b → there b ≡ there a };

    ghost one_memory: { (a : Self) (ppn index : ℕ) → readable a ppn → index < 512 → there a ppn index ≡ is_some (memory a ppn index) };

    ghost same_readable: { (a b : Self) (ppn : ℕ) → stays a b → readable a ppn → readable b ppn };
}
