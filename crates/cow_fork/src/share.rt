// Reference counts during a fork: `share_frames` takes one more reference to each frame that parent and child will share
// (frame 0 and those of the settled pages, which are the pages in memory); `release_all` drops them again if the fork is
// refused.

ghost use Rattle.std.specs.Prelude.{[], ◌∷◌, ◌++◌, ◌≡◌, ◌+◌, ◌↔◌, ◌<◌, ◌≤◌, if◌then◌else◌, IfErr, IfOk, is_ok, IsOk, length, map, ℕ};
ghost use Rattle.address_space.specs.Kept.{KeepsPlace};
ghost use Rattle.cow_fork.specs.Occurrences.{times};
ghost use Rattle.cow_fork.specs.ForkReferences.{frames_of, HasMore};
ghost use Rattle.frame_store.specs.Laws.{CountBecomes, IsSeatOf, IsAnchored, KeepsSeats};
ghost use Rattle.frame_store.specs.View.{counted, hold_of, IsHeld, read_full, shared, View};
ghost use Rattle.process_model.specs.declared.limits.TheConstants.{MOST_REFERENCES};

use address_space::{SettledPage, Space, TRAMPOLINE_FRAME};
use arrayvec::ArrayVec;
use frame_store::{FrameAccess, FrameSeat, FrameSupply, SharersFull};
use process_model::MOST_FRAMES;
use sv39_entry::FrameNo;

/// Takes one more reference of frame 0 and of the frame of each settled page, and lists these frames in `frames`.
///
/// # Errors
/// `SharersFull`: a count was read as `MOST_REFERENCES`; if `alone`, one of these frames has at least that count. `frames`
/// then lists the references taken before, which the seat still has.
pub(crate) fn share_frames<S: FrameSeat, F: FrameSupply<Seat = S>>(
    space: &mut Space<S>,
    store: &mut F,
    settled: &[SettledPage],
    frames: &mut ArrayVec<FrameNo, MOST_FRAMES>,
) -> Result<(), SharersFull>
    requires fits { IsSeatOf F.invariant store.old space.old.seat }
    requires anchored { IsAnchored (S.view space.old.seat) }
    requires once { (f : ℕ) → times f (0 ∷ frames_of settled.now) ≤ 1 }
    requires held { (f : ℕ) → 0 < times f (0 ∷ frames_of settled.now) → IsHeld (S.view space.old.seat) f }
    requires few { length settled.now < MOST_FRAMES }
    requires empty { frames.old.items ≡ [] }
    ensures more { HasMore (S.view space.old.seat) (S.view space.new.seat) (map (λ f. f.0) frames.new.items) }
    ensures all { IfOk result (λ _. map (λ f. f.0) frames.new.items ≡ 0 ∷ frames_of settled.now) }
    ensures credits { (S.view space.new.seat).credits ≡ (S.view space.old.seat).credits }
    ensures size { (S.view space.new.seat).size ≡ (S.view space.old.seat).size }
    ensures tallies { IfOk result (λ _. (S.view space.new.seat).tallies ≡ (S.view space.old.seat).tallies) }
    ensures looked { IfErr result (λ _. (S.view space.new.seat).tallies ≡ counted (MOST_REFERENCES ∷ []) (S.view space.old.seat).tallies) }
    ensures full { F.alone → IfErr result (λ _. (f : ℕ) × (0 < times f (0 ∷ frames_of settled.now)) × (F.count store.old f < MOST_REFERENCES → ⊥)) }
    ensures place { KeepsPlace space.old space.new }
    ensures keeps { KeepsSeats F.invariant store.old space.old.seat store.new space.new.seat }
    ensures free { F.alone → F.free store.new ≡ F.free store.old }
{
    share_frame(space, store, TRAMPOLINE_FRAME, frames)?;
    'pages: for page in settled {
        share_frame(space, store, page.frame, frames)?;
    }
    Ok(())
}

/// Takes one more reference of `frame` and adds it to `frames`.
///
/// # Errors
/// `SharersFull`: its count was read as `MOST_REFERENCES` (if `alone`: exactly when it is at least that). Nothing is taken or
/// added then.
fn share_frame<S: FrameSeat, F: FrameSupply<Seat = S>>(
    space: &mut Space<S>,
    store: &mut F,
    frame: FrameNo,
    frames: &mut ArrayVec<FrameNo, MOST_FRAMES>,
) -> Result<(), SharersFull>
    requires fits { IsSeatOf F.invariant store.old space.old.seat }
    requires held { IsHeld (S.view space.old.seat) frame.0 }
    requires room { length frames.old.items < MOST_FRAMES }
    ensures shared { IfOk result (λ _. S.view space.new.seat ≡ shared frame.0 (S.view space.old.seat)) }
    ensures listed { IfOk result (λ _. frames.new.items ≡ frames.old.items ++ frame ∷ []) }
    ensures full { IfErr result (λ _. S.view space.new.seat ≡ read_full (S.view space.old.seat)) }
    ensures stays { IfErr result (λ _. frames.new.items ≡ frames.old.items) }
    ensures exact { F.alone → IsOk result ↔ (F.count store.old frame.0 < MOST_REFERENCES) }
    ensures place { KeepsPlace space.old space.new }
    ensures keeps { KeepsSeats F.invariant store.old space.old.seat store.new space.new.seat }
    ensures free { F.alone → F.free store.new ≡ F.free store.old }
    ensures counts { F.alone → CountBecomes (F.count store.old) (F.count store.new) frame.0 (F.count store.old frame.0 + (if is_ok result then 1 else 0)) }
{
    store.share(&mut space.seat, frame)?;
    frames.push(frame);
    Ok(())
}

/// Drops the references that `share_frames` took: one of each frame in `frames`.
pub(crate) fn release_all<S: FrameSeat, F: FrameAccess<Seat = S>>(
    space: &mut Space<S>,
    store: &mut F,
    frames: &[FrameNo],
)
    requires fits { IsSeatOf F.invariant store.old space.old.seat }
    requires more { (v : View) × HasMore v (S.view space.old.seat) (map (λ f. f.0) frames.now) }
    ensures back { (v : View) → HasMore v (S.view space.old.seat) (map (λ f. f.0) frames.now) → (f : ℕ) → hold_of (S.view space.new.seat) f ≡ hold_of v f }
    ensures credits { (S.view space.new.seat).credits ≡ (S.view space.old.seat).credits }
    ensures tallies { (S.view space.new.seat).tallies ≡ (S.view space.old.seat).tallies }
    ensures size { (S.view space.new.seat).size ≡ (S.view space.old.seat).size }
    ensures place { KeepsPlace space.old space.new }
    ensures keeps { KeepsSeats F.invariant store.old space.old.seat store.new space.new.seat }
{
    for frame in frames {
        store.release(&mut space.seat, *frame);
    }
}
