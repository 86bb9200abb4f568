// A call for the crate, for the first frame of a page: `settle_as` settles the page (brings it into memory) with given bytes,
// with the dirty mark (D) or without.

ghost use Rattle.std.specs.Prelude.{[], ◌≡◌, ◌-◌, ◌≤◌, ◌↔◌, if◌then◌else◌, IfErr, IfOk, is_ok, IsOk, length, true};
ghost use Rattle.address_space.specs.Agreement.{body_of, IsSpace};
ghost use Rattle.address_space.specs.Kept.{KeepsPlace};
ghost use Rattle.address_space.specs.Steps.{CanSettle, RunsDry};
ghost use Rattle.fault_rules.specs.SettlePage.{HasSettledAs};
ghost use Rattle.frame_store.specs.Laws.{IsSeatOf, KeepsSeats};
ghost use Rattle.process_model.specs.Frames.{settle_need};
ghost use Rattle.process_model.specs.Process.{Process};
ghost use Rattle.process_model.specs.Regions.{keeps_stores};
ghost use Rattle.process_model.specs.Residence.{region_on};
ghost use Rattle.table_walk.specs.Tables.{Tables};

use address_space::Space;
use frame_store::{FrameSeat, FrameSupply, NoFrame};
use sv39_entry::Vpn;

/// Settles an unsettled page of a region, with these bytes, at most 4,096, and zeros after them; with the dirty mark if
/// `mark`, for which stores have to be written back to a file.
///
/// # Errors
/// `NoFrame`: the space is the process that it was, and no frame was claimed. If nobody else changes the store (`alone`):
/// exactly when fewer frames are free than the page and its missing tables take. Over shared frames: only after the free
/// count was read as 0 with fewer than these reserved.
pub(crate) fn settle_as<S: FrameSeat, F: FrameSupply<Seat = S>>(
    space: &mut Space<S>,
    store: &mut F,
    page: Vpn,
    bytes: &[u8],
    mark: bool,
) -> Result<(), NoFrame>
    requires fits { IsSeatOf F.invariant store.old space.old.seat }
    requires ready { (t : Tables) × (p : Process) × CanSettle (body_of S.view space.old) t p page }
    requires inside { length bytes.now ≤ 4096 }
    requires kept { (t : Tables) (p : Process) → CanSettle (body_of S.view space.old) t p page → mark ≡ true → keeps_stores (region_on p page) ≡ true }
    ensures settled { IfOk result (λ _. HasSettledAs (body_of S.view space.old) (body_of S.view space.new) page bytes.now mark) }
    ensures dry { IfErr result (λ _. (t : Tables) (p : Process) → CanSettle (body_of S.view space.old) t p page
        → RunsDry (S.view space.old.seat) (S.view space.new.seat) (settle_need p page) []) }
    ensures whole { IfErr result (λ _. (t : Tables) (p : Process) → IsSpace (body_of S.view space.old) t p → IsSpace (body_of S.view space.new) t p) }
    ensures exact { F.alone → (t : Tables) (p : Process) → CanSettle (body_of S.view space.old) t p page
        → IsOk result ↔ (settle_need p page ≤ F.free store.old) }
    ensures free { F.alone → (t : Tables) (p : Process) → CanSettle (body_of S.view space.old) t p page
        → F.free store.new ≡ F.free store.old - (if is_ok result then settle_need p page else 0) }
    ensures place { KeepsPlace space.old space.new }
    ensures keeps { KeepsSeats F.invariant store.old space.old.seat store.new space.new.seat }
{
    space.settle(store, page, bytes)?;
    if mark {
        space.mark_stored(store, page);
    }
    Ok(())
}
