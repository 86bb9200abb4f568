// Traits. `FrameSeat`: a seat (an owner's capability at a frame store) and its view (what the seat holds and knows).
// `FrameAccess`: for frames that a seat holds, the calls that load, search, store, clear, fill and copy words, read a
// reference count, release a frame, give credits (reserved frames) back, and join two seats; and the laws of every frame
// store.

ghost use Rattle.std.specs.Int.{from_le_bytes, w64};
ghost use Rattle.std.specs.Prelude.{◌≡◌, ◌≢◌, ◌+◌, ◌-◌, ◌*◌, ◌/◌, ◌<◌, ◌≤◌, ◌==◌, ◌++◌, ◌∷◌, ℕ, cond, drop, length, List, Some, take};
ghost use Rattle.frame_store.specs.Laws.{CountBecomes, IsSeatOf, IsAnchored, KeepsSeats};
ghost use Rattle.frame_store.specs.NextWord.{IsNextBusyWord, IsNextWord};
ghost use Rattle.frame_store.specs.View.{AllKnown, IsHeld, IsSole, joined, known_word, looked, released, View, with_many, with_word};
ghost use Rattle.frame_store.specs.View.{without_credits, words_known};
ghost use Rattle.process_model.specs.declared.limits.TheConstants.{MOST_FRAMES};

use crate::bytes::word_at;
use sv39_entry::FrameNo;

/// A seat: one owner's capability at a frame store, with the owner's references to frames and its credits.
pub trait FrameSeat {
    /// Ghost state that contracts alone read: for each frame the seat's references, whether it is known to be the sole
    /// holder, and the words that it knows; its credits and tallies; and how many frames the store has.
    ghost view: { Self → View };
}

/// Calls on frames that a seat holds. A frame has 512 words of 64 bits, and an index counts words. No call waits, fails
/// or takes host memory.
///
/// Each call needs that the store's invariant holds of its seat and some other seats (`IsSeatOf`; for `join`, of its two
/// seats and some others), and keeps the invariant for any other seats, whose views do not change (`KeepsSeats`). If
/// nobody else changes the store (`alone`), only `release` changes a reference count, and only `release` and `give_back`
/// the free count.
///
/// A seat is called the *sole holder* of a frame if its view says so (`IsSole`): so it is after `claim`, or after a
/// `look` that returned 1.
pub trait FrameAccess {
    /// The type of the seats at this store.
    type Seat: FrameSeat;

    /// The invariant of the store: what holds of it and of all the seats at it.
    ghost invariant: { Self → List Self.Seat → Type 0 };

    /// Nobody else changes the store between two calls. Contracts promise exact counts and refusals only if this holds.
    ghost alone: { Type 0 };

    /// The free count: frames of count 0, less the credits of all seats. Meaningful only if the store is `alone`.
    ghost free: { Self → ℕ };

    /// The reference count of a frame, by its number. Meaningful only if the store is `alone`.
    ghost count: { Self → ℕ → ℕ };

    /// Returns the word at `index`, below 512, of a held frame. If the seat knows that word, the result is this word; of a
    /// word that it does not know, nothing is promised. Store and view stay.
    fn load(&mut self, seat: &mut Self::Seat, frame: FrameNo, index: usize) -> u64
        requires fits { IsSeatOf invariant self.old seat.old }
        requires held { IsHeld (Self.Seat.view seat.old) frame.0 }
        requires in_page { index < 512 }
        ensures known { (w : ℕ) → known_word (Self.Seat.view seat.old) frame.0 index ≡ Some w → result ≡ w }
        ensures view { Self.Seat.view seat.new ≡ Self.Seat.view seat.old }
        ensures same { self.new ≡ self.old }
        ensures keeps { KeepsSeats invariant self.old seat.old self.new seat.new };

    /// Returns the index and value of the first word of a held frame that is not 0, from index `first` on and before
    /// `last` (`first` ≤ `last` ≤ 512); `None` if all of these are 0. A word that the seat does not know may be passed
    /// over whatever it is; if one is returned, only that its value is not 0 is promised. Store and view stay.
    fn next_word(
        &mut self,
        seat: &mut Self::Seat,
        frame: FrameNo,
        first: usize,
        last: usize,
    ) -> Option<(usize, u64)>
        requires fits { IsSeatOf invariant self.old seat.old }
        requires held { IsHeld (Self.Seat.view seat.old) frame.0 }
        requires low { first ≤ last }
        requires in_page { last ≤ 512 }
        ensures word { IsNextWord (Self.Seat.view seat.old) frame.0 first last result }
        ensures view { Self.Seat.view seat.new ≡ Self.Seat.view seat.old }
        ensures same { self.new ≡ self.old }
        ensures keeps { KeepsSeats invariant self.old seat.old self.new seat.new }
    {
        'words: for index in first..last {
            let word = self.load(seat, frame, index);
            if word != 0 {
                return Some((index, word));
            }
        }
        None
    }

    /// Returns the index and value of a word of a held frame that is not 0, from index `first` on and before `last`
    /// (`first` ≤ `last` ≤ 512). Each word before it in this range is 0 or names a frame of zeros: as a page table entry
    /// it has the page number of a frame whose words are all 0, as a pointer to an empty table has. `None` if all words
    /// of the range are so. A word that the seat does not know may be passed over whatever it is, and does not count in a
    /// frame that is named; if one is returned, only that its value is not 0 is promised. A store that does not track
    /// such frames returns the first word that is not 0. Store and view stay.
    fn next_busy_word(
        &mut self,
        seat: &mut Self::Seat,
        frame: FrameNo,
        first: usize,
        last: usize,
    ) -> Option<(usize, u64)>
        requires fits { IsSeatOf invariant self.old seat.old }
        requires held { IsHeld (Self.Seat.view seat.old) frame.0 }
        requires low { first ≤ last }
        requires in_page { last ≤ 512 }
        ensures word { IsNextBusyWord (Self.Seat.view seat.old) frame.0 first last result }
        ensures view { Self.Seat.view seat.new ≡ Self.Seat.view seat.old }
        ensures same { self.new ≡ self.old }
        ensures keeps { KeepsSeats invariant self.old seat.old self.new seat.new }
    {
        self.next_word(seat, frame, first, last)
    }

    /// Stores `value` at `index`, below 512, of a frame of which the seat is the sole holder. The seat knows this word then.
    fn store(&mut self, seat: &mut Self::Seat, frame: FrameNo, index: usize, value: u64)
        requires fits { IsSeatOf invariant self.old seat.old }
        requires sole { IsSole (Self.Seat.view seat.old) frame.0 }
        requires in_page { index < 512 }
        ensures view { Self.Seat.view seat.new ≡ with_word frame.0 index value (Self.Seat.view seat.old) }
        ensures keeps { KeepsSeats invariant self.old seat.old self.new seat.new }
        ensures free { alone → free self.new ≡ free self.old }
        ensures counts { alone → (f : ℕ) → count self.new f ≡ count self.old f };

    /// Zeroes the words, from index `first` on, of a frame of which the seat is the sole holder. The seat knows these words
    /// then. `first` is at most 512; at 512 nothing is zeroed.
    fn clear(&mut self, seat: &mut Self::Seat, frame: FrameNo, first: usize)
        requires fits { IsSeatOf invariant self.old seat.old }
        requires sole { IsSole (Self.Seat.view seat.old) frame.0 }
        requires in_page { first ≤ 512 }
        ensures view { Self.Seat.view seat.new ≡ with_many frame.0 first (512 - first) (λ _. 0) (Self.Seat.view seat.old) }
        ensures keeps { KeepsSeats invariant self.old seat.old self.new seat.new }
        ensures free { alone → free self.new ≡ free self.old }
        ensures counts { alone → (f : ℕ) → count self.new f ≡ count self.old f }
    {
        'words: for index in first..512 {
            self.store(seat, frame, index, 0);
        }
    }

    /// Stores at most 4,096 bytes, as little-endian words, to the start of a frame of which the seat is the sole holder. The
    /// seat knows these words then. Bytes after the last whole word are left out, and the other words of the frame stay.
    fn fill(&mut self, seat: &mut Self::Seat, frame: FrameNo, bytes: &[u8])
        requires fits { IsSeatOf invariant self.old seat.old }
        requires sole { IsSole (Self.Seat.view seat.old) frame.0 }
        requires in_page { length bytes.now ≤ 4096 }
        ensures view { Self.Seat.view seat.new ≡ with_many frame.0 0 (length bytes.now / 8) (λ i.
            from_le_bytes w64 (take 8 (drop (8 * i) bytes.now))) (Self.Seat.view seat.old) }
        ensures keeps { KeepsSeats invariant self.old seat.old self.new seat.new }
        ensures free { alone → free self.new ≡ free self.old }
        ensures counts { alone → (f : ℕ) → count self.new f ≡ count self.old f }
    {
        'words: for index in 0..bytes.len() / 8 {
            self.store(seat, frame, index, word_at(bytes, index));
        }
    }

    /// Copies all 512 words of the held frame `from`, which the seat must know, to another frame `to`, of which the seat is
    /// the sole holder. The seat knows the words of `to` then.
    fn copy(&mut self, seat: &mut Self::Seat, from: FrameNo, to: FrameNo)
        requires fits { IsSeatOf invariant self.old seat.old }
        requires held { IsHeld (Self.Seat.view seat.old) from.0 }
        requires known { AllKnown (Self.Seat.view seat.old) from.0 }
        requires sole { IsSole (Self.Seat.view seat.old) to.0 }
        requires apart { from.0 ≢ to.0 }
        ensures view { Self.Seat.view seat.new ≡ with_many to.0 0 512 (words_known (Self.Seat.view seat.old) from.0) (Self.Seat.view seat.old) }
        ensures keeps { KeepsSeats invariant self.old seat.old self.new seat.new }
        ensures free { alone → free self.new ≡ free self.old }
        ensures counts { alone → (f : ℕ) → count self.new f ≡ count self.old f }
    {
        'words: for index in 0..512 {
            let word = self.load(seat, from, index);
            self.store(seat, to, index, word);
        }
    }

    /// Returns the reference count of a held frame, which is 1 or more, and records it in the seat's tallies. If it is 1,
    /// the seat is then known to be the sole holder. If nobody else changes the store (`alone`), the result is exactly
    /// the count. The store is unchanged.
    fn look(&mut self, seat: &mut Self::Seat, frame: FrameNo) -> u32
        requires fits { IsSeatOf invariant self.old seat.old }
        requires held { IsHeld (Self.Seat.view seat.old) frame.0 }
        ensures view { Self.Seat.view seat.new ≡ looked frame.0 result (Self.Seat.view seat.old) }
        ensures some { 0 < result }
        ensures exact { alone → result ≡ count self.old frame.0 }
        ensures same { self.new ≡ self.old }
        ensures keeps { KeepsSeats invariant self.old seat.old self.new seat.new };

    /// Drops one reference to a held frame. With its last reference the seat loses all that it knew of the frame. If it
    /// was the frame's last reference, the frame becomes free. A seat that holds any frame afterwards must still hold
    /// frame 0.
    fn release(&mut self, seat: &mut Self::Seat, frame: FrameNo)
        requires fits { IsSeatOf invariant self.old seat.old }
        requires held { IsHeld (Self.Seat.view seat.old) frame.0 }
        requires anchored { IsAnchored (released frame.0 (Self.Seat.view seat.old)) }
        ensures view { Self.Seat.view seat.new ≡ released frame.0 (Self.Seat.view seat.old) }
        ensures keeps { KeepsSeats invariant self.old seat.old self.new seat.new }
        ensures free { alone → free self.new ≡ free self.old + cond (count self.old frame.0 == 1) 1 0 }
        ensures counts { alone → CountBecomes (count self.old) (count self.new) frame.0 (count self.old frame.0 - 1) };

    /// Gives `n` of the seat's credits, at most as many as it has, back to the store: `n` more frames are free.
    fn give_back(&mut self, seat: &mut Self::Seat, n: usize)
        requires fits { IsSeatOf invariant self.old seat.old }
        requires credits { n ≤ (Self.Seat.view seat.old).credits }
        ensures view { Self.Seat.view seat.new ≡ without_credits n (Self.Seat.view seat.old) }
        ensures keeps { KeepsSeats invariant self.old seat.old self.new seat.new }
        ensures free { alone → free self.new ≡ free self.old + n }
        ensures counts { alone → (f : ℕ) → count self.new f ≡ count self.old f };

    /// Ends the seat `other`, which must be at this store too: its references, known words and credits are added to those
    /// of `seat`, which is then known to be the sole holder of each frame of which one of the two was. The tallies of
    /// `other` are dropped. The store is unchanged.
    fn join(&mut self, seat: &mut Self::Seat, other: Self::Seat)
        requires fits { (others : List Self.Seat) × invariant self.old (seat.old ∷ other ∷ others) }
        ensures view { Self.Seat.view seat.new ≡ joined (Self.Seat.view seat.old) (Self.Seat.view other) }
        ensures same { self.new ≡ self.old }
        ensures keeps { (others : List Self.Seat) → invariant self.old (seat.old ∷ other ∷ others) → invariant self.new (seat.new ∷ others) };

    /// Law: the order of the seats does not matter. A seat may be moved to the front of the list.
    ghost comes_front: { (s : Self) (xs : List Self.Seat) (a : Self.Seat) (ys : List Self.Seat) → invariant s (xs ++ a ∷ ys) → invariant s (a ∷ xs ++ ys) };

    /// Law: a seat may be moved from the front of the list to any place in it.
    ghost goes_back: { (s : Self) (xs : List Self.Seat) (a : Self.Seat) (ys : List Self.Seat) → invariant s (a ∷ xs ++ ys) → invariant s (xs ++ a ∷ ys) };

    /// Law: the store has at most `MOST_FRAMES` frames (`size` in each view), and a held frame is one of them.
    ghost within: { (s : Self) (a : Self.Seat) (ys : List Self.Seat) → invariant s (a ∷ ys)
        → ((Self.Seat.view a).size ≤ MOST_FRAMES) × ((f : ℕ) → IsHeld (Self.Seat.view a) f → f < (Self.Seat.view a).size) };
}
