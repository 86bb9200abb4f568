// `opened_seat`, a function over any frame store: makes a seat for another owner, with one reference to frame 0, by a share
// and a split of the caller's seat; it may fail with `SharersFull`.

ghost use Rattle.std.specs.Prelude.{◌≡◌, ◌+◌, ◌<◌, ◌↔◌, ◌∷◌, ℕ, if◌then◌else◌, IfErr, IfOk, is_ok, IsOk, List};
ghost use Rattle.frame_store.specs.SeatOpening.{opened, opener};
ghost use Rattle.frame_store.specs.Laws.{CountBecomes, IsSeatOf, KeepsSeats};
ghost use Rattle.frame_store.specs.View.{IsHeld, read_full};
ghost use Rattle.process_model.specs.declared.limits.TheConstants.{MOST_REFERENCES};

use crate::access::{FrameAccess, FrameSeat};
use crate::refusal::SharersFull;
use crate::supply::FrameSupply;
use sv39_entry::FrameNo;

/// Returns a new seat for another owner. It has one reference to frame 0, knows the words that `seat` knows there, and
/// has nothing else; so it may reserve and claim frames at once. `seat` must hold frame 0; it keeps its references, and
/// its flag as sole holder of frame 0 is cleared. If nobody else changes the store (`alone`), the count of frame 0 rises
/// by 1 and the free count stays.
///
/// # Errors
/// `SharersFull`: the count of frame 0 was read as `MOST_REFERENCES`, which the tallies of `seat` record; nothing else of its
/// view changes. If nobody else changes the store (`alone`): exactly when that count is not below `MOST_REFERENCES`, and then
/// no count changes.
pub fn opened_seat<F: FrameSupply>(
    store: &mut F,
    seat: &mut F::Seat,
) -> Result<F::Seat, SharersFull>
    requires fits { IsSeatOf F.invariant store.old seat.old }
    requires anchored { IsHeld (F.Seat.view seat.old) 0 }
    ensures opener { IfOk result (λ _. F.Seat.view seat.new ≡ opener (F.Seat.view seat.old)) }
    ensures opened { IfOk result (λ s. F.Seat.view s ≡ opened (F.Seat.view seat.old)) }
    ensures full { IfErr result (λ _. F.Seat.view seat.new ≡ read_full (F.Seat.view seat.old)) }
    ensures anchored { IsHeld (F.Seat.view seat.new) 0 }
    ensures exact { F.alone → IsOk result ↔ (F.count store.old 0 < MOST_REFERENCES) }
    ensures keeps { IfOk result (λ s. (others : List F.Seat) →
        F.invariant store.old (seat.old ∷ others) → F.invariant store.new (seat.new ∷ s ∷ others)) }
    ensures keeps_full { IfErr result (λ _. KeepsSeats F.invariant store.old seat.old store.new seat.new) }
    ensures free { F.alone → F.free store.new ≡ F.free store.old }
    ensures counts { F.alone → CountBecomes (F.count store.old) (F.count store.new) 0
        (F.count store.old 0 + (if is_ok result then 1 else 0)) }
{
    store.share(seat, FrameNo(0))?;
    Ok(store.split(seat, &[FrameNo(0)]))
}
