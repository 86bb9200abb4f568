// `take_over`, a call for the crate: readies a settled page (one in memory) for a store. It removes the copy-on-write mark
// (copy-on-write), with a move to a frame of the process's own if the frame has other references, and sets the dirty mark
// (D) if stores are written back.

ghost use Rattle.std.specs.Prelude.{◌≡◌, ◌-◌, ◌≤◌, ◌↔◌, if◌then◌else◌, IfErr, IfOk, is_ok, IsOk, List};
ghost use Rattle.address_space.specs.Agreement.{body_of, IsSpace};
ghost use Rattle.address_space.specs.Kept.{KeepsPlace};
ghost use Rattle.address_space.specs.SettledLists.{IsSettledPage};
ghost use Rattle.fault_rules.specs.MadeResident.{CanMakeResident, HasMadeResident, LacksFrames, WhenMadeResident};
ghost use Rattle.fault_rules.specs.TakeOver.{HasUnshared};
ghost use Rattle.frame_store.specs.Laws.{IsSeatOf, KeepsSeats};
ghost use Rattle.process_model.specs.Files.{File};
ghost use Rattle.process_model.specs.Process.{Process};
ghost use Rattle.sv39_entry.specs.declared.access.Access.TheVariants.{Store};
ghost use Rattle.table_walk.specs.Tables.{Tables};

use address_space::{SettledPage, Space};
use frame_store::{FrameSeat, FrameSupply, NoFrame};

/// Takes a settled page over for a store that its region grants: removes the copy-on-write mark, if it has one, and sets the
/// dirty mark, if its stores are written back to a file. Both are done in one service, so that one fault is enough.
///
/// # Errors
/// `NoFrame`: the space is the process that it was, and no frame was claimed. If nobody else changes the store (`alone`):
/// exactly when the page has the copy-on-write mark, its frame's reference count is not 1, and no frame is free. Over shared
/// frames: only after the free count was read as 0.
pub(crate) fn take_over<S: FrameSeat, F: FrameSupply<Seat = S>>(
    space: &mut Space<S>,
    store: &mut F,
    settled: &SettledPage,
) -> Result<(), NoFrame>
    requires fits { IsSeatOf F.invariant store.old space.old.seat }
    requires ready { (t : Tables) × (p : Process) × CanMakeResident (body_of S.view space.old) t p Store settled.now.page }
    requires settled { (t : Tables) (p : Process) → IsSpace (body_of S.view space.old) t p → IsSettledPage t p settled.now }
    ensures resident { IfOk result (λ _. (files : List File)
        → HasMadeResident (body_of S.view space.old) (body_of S.view space.new) files Store settled.now.page (λ f c. F.alone → c ≡ F.count store.old f)) }
    ensures dry { IfErr result (λ _. LacksFrames (body_of S.view space.old) (body_of S.view space.new) Store settled.now.page) }
    ensures whole { IfErr result (λ _. (t : Tables) (p : Process) → IsSpace (body_of S.view space.old) t p → IsSpace (body_of S.view space.new) t p) }
    ensures exact { F.alone → WhenMadeResident (body_of S.view space.old) Store settled.now.page (F.count store.old) (λ need.
        IsOk result ↔ (need ≤ F.free store.old)) }
    ensures free { F.alone → WhenMadeResident (body_of S.view space.old) Store settled.now.page (F.count store.old) (λ need.
        F.free store.new ≡ F.free store.old - (if is_ok result then need else 0)) }
    ensures place { KeepsPlace space.old space.new }
    ensures keeps { KeepsSeats F.invariant store.old space.old.seat store.new space.new.seat }
{
    unshare(space, store, settled)?;
    if !settled.dirty {
        space.mark_stored(store, settled.page);
    }
    Ok(())
}

/// Removes the copy-on-write mark of a settled page, if it has one, by `Space::own`.
fn unshare<S: FrameSeat, F: FrameSupply<Seat = S>>(
    space: &mut Space<S>,
    store: &mut F,
    settled: &SettledPage,
) -> Result<(), NoFrame>
    requires fits { IsSeatOf F.invariant store.old space.old.seat }
    requires ready { (t : Tables) × (p : Process) × CanMakeResident (body_of S.view space.old) t p Store settled.now.page }
    requires settled { (t : Tables) (p : Process) → IsSpace (body_of S.view space.old) t p → IsSettledPage t p settled.now }
    ensures unshared { IfOk result (λ _. HasUnshared (body_of S.view space.old) (body_of S.view space.new) settled.now (λ f c. F.alone
        → c ≡ F.count store.old f)) }
    ensures dry { IfErr result (λ _. LacksFrames (body_of S.view space.old) (body_of S.view space.new) Store settled.now.page) }
    ensures whole { IfErr result (λ _. (t : Tables) (p : Process) → IsSpace (body_of S.view space.old) t p → IsSpace (body_of S.view space.new) t p) }
    ensures exact { F.alone → WhenMadeResident (body_of S.view space.old) Store settled.now.page (F.count store.old) (λ need.
        IsOk result ↔ (need ≤ F.free store.old)) }
    ensures free { F.alone → WhenMadeResident (body_of S.view space.old) Store settled.now.page (F.count store.old) (λ need.
        F.free store.new ≡ F.free store.old - (if is_ok result then need else 0)) }
    ensures place { KeepsPlace space.old space.new }
    ensures keeps { KeepsSeats F.invariant store.old space.old.seat store.new space.new.seat }
{
    if settled.cow {
        return space.own(store, settled.page);
    }
    Ok(())
}
