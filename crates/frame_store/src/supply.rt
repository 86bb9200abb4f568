// The trait `FrameSupply`, a frame store that allocates: `reserve` sets free frames aside as credits (reserved frames),
// `claim` allocates a frame for a credit, `share` takes one more reference to a frame, and `split` moves references to a
// new seat (an owner's capability at the store).

ghost use Rattle.std.specs.Prelude.{◌≡◌, ◌+◌, ◌-◌, ◌<◌, ◌≤◌, ◌↔◌, ◌∷◌, ℕ, if◌then◌else◌, IfErr, IfOk, is_ok, IsOk, List, map};
ghost use Rattle.frame_store.specs.Laws.{CountBecomes, IsSeatOf, IsAnchored, IsDry, KeepsSeats};
ghost use Rattle.frame_store.specs.View.{CanSplit, claimed, empty_view, IsHeld, read_full, references, shared, split_off, with_credits};
ghost use Rattle.process_model.specs.declared.limits.TheConstants.{MOST_REFERENCES};

use crate::access::FrameAccess;
use crate::refusal::{NoFrame, SharersFull};
use sv39_entry::FrameNo;

/// A frame store that also allocates: it reserves and claims frames, takes further references, and splits a seat in two.
/// Over frames that threads share, `reserve`, `claim` and `share` may retry any number of times.
pub trait FrameSupply: FrameAccess {
    /// Reserves `n` free frames for `seat` as credits, all or none. Each credit lets one later `claim` take a frame
    /// without failing. If nobody else changes the store (`alone`), the free count falls by `n`.
    ///
    /// # Errors
    /// `NoFrame`; the seat's references, known words and credits are unchanged. The free count was found too small: the
    /// seat's tallies record a free count of 0 that was read while fewer than `n` credits were reserved by this call
    /// (`IsDry`). If nobody else changes the store (`alone`): exactly when fewer than `n` frames are free, and then no
    /// count changes.
    fn reserve(&mut self, seat: &mut Self::Seat, n: usize) -> Result<(), NoFrame>
        requires fits { IsSeatOf Self.invariant self.old seat.old }
        ensures ok { IfOk result (λ _. Self.Seat.view seat.new ≡ with_credits n (Self.Seat.view seat.old)) }
        ensures err { IfErr result (λ _. IsDry n (Self.Seat.view seat.old) (Self.Seat.view seat.new)) }
        ensures exact { Self.alone → IsOk result ↔ (n ≤ Self.free self.old) }
        ensures keeps { KeepsSeats Self.invariant self.old seat.old self.new seat.new }
        ensures free { Self.alone → Self.free self.new ≡ Self.free self.old - (if is_ok result then n else 0) }
        ensures counts { Self.alone → (f : ℕ) → Self.count self.new f ≡ Self.count self.old f };

    /// Allocates a frame for one of the seat's credits, which is spent, and returns its number. The seat held no
    /// reference to the frame; then it has the only one and is the sole holder. No word of the frame is known. The seat
    /// must have a credit and hold frame 0. Its tallies count the claim. If nobody else changes the store (`alone`): the
    /// frame's count was 0 and is 1, and the free count stays.
    fn claim(&mut self, seat: &mut Self::Seat) -> FrameNo
        requires fits { IsSeatOf Self.invariant self.old seat.old }
        requires credit { 0 < (Self.Seat.view seat.old).credits }
        requires anchored { IsHeld (Self.Seat.view seat.old) 0 }
        ensures fresh { references (Self.Seat.view seat.old) result.0 ≡ 0 }
        ensures view { Self.Seat.view seat.new ≡ claimed result.0 (Self.Seat.view seat.old) }
        ensures keeps { KeepsSeats Self.invariant self.old seat.old self.new seat.new }
        ensures free { Self.alone → Self.free self.new ≡ Self.free self.old }
        ensures was_free { Self.alone → Self.count self.old result.0 ≡ 0 }
        ensures counts { Self.alone → CountBecomes (Self.count self.old) (Self.count self.new) result.0 1 };

    /// Takes one more reference to a frame that the seat holds. A seat known to be the sole holder stays so. If nobody
    /// else changes the store (`alone`), the frame's count rises by 1.
    ///
    /// # Errors
    /// `SharersFull`: the frame's count was read as `MOST_REFERENCES`, which the seat's tallies record; nothing else of its
    /// view changes. If nobody else changes the store (`alone`): exactly when the count is not below `MOST_REFERENCES`, and
    /// then no count changes.
    fn share(&mut self, seat: &mut Self::Seat, frame: FrameNo) -> Result<(), SharersFull>
        requires fits { IsSeatOf Self.invariant self.old seat.old }
        requires held { IsHeld (Self.Seat.view seat.old) frame.0 }
        ensures ok { IfOk result (λ _. Self.Seat.view seat.new ≡ shared frame.0 (Self.Seat.view seat.old)) }
        ensures err { IfErr result (λ _. Self.Seat.view seat.new ≡ read_full (Self.Seat.view seat.old)) }
        ensures exact { Self.alone → IsOk result ↔ (Self.count self.old frame.0 < MOST_REFERENCES) }
        ensures keeps { KeepsSeats Self.invariant self.old seat.old self.new seat.new }
        ensures free { Self.alone → Self.free self.new ≡ Self.free self.old }
        ensures counts { Self.alone
            → CountBecomes (Self.count self.old) (Self.count self.new) frame.0 (Self.count self.old frame.0 + (if is_ok result then 1 else 0)) };

    /// Moves one reference to each listed frame from `seat` to a new seat, and returns the new seat. A frame may be listed
    /// several times; one reference moves for each. The new seat also knows the words that `seat` knows of these frames. If
    /// `seat` had a single reference to a frame, its sole-holder flag moves along; otherwise neither seat is known to be the
    /// sole holder. Credits and tallies stay with `seat`. The store is unchanged. `seat` must have the references, and each
    /// of the two seats must end up holding frame 0 if it holds any frame.
    fn split(&mut self, seat: &mut Self::Seat, frames: &[FrameNo]) -> Self::Seat
        requires fits { IsSeatOf Self.invariant self.old seat.old }
        requires held { CanSplit (map (λ f. f.0) frames.now) (Self.Seat.view seat.old) }
        requires left_anchored { IsAnchored (split_off (map (λ f. f.0) frames.now) (Self.Seat.view seat.old) (empty_view (Self.Seat.view seat.old).size)).0 }
        requires right_anchored { IsAnchored (split_off (map (λ f. f.0) frames.now) (Self.Seat.view seat.old) (empty_view (Self.Seat.view seat.old).size)).1 }
        ensures left { Self.Seat.view seat.new ≡ (split_off (map (λ f.
            f.0) frames.now) (Self.Seat.view seat.old) (empty_view (Self.Seat.view seat.old).size)).0 }
        ensures right { Self.Seat.view result ≡ (split_off (map (λ f.
            f.0) frames.now) (Self.Seat.view seat.old) (empty_view (Self.Seat.view seat.old).size)).1 }
        ensures same { self.new ≡ self.old }
        ensures keeps { (others : List Self.Seat) → Self.invariant self.old (seat.old ∷ others) → Self.invariant self.new (seat.new ∷ result ∷ others) };
}
