// The calls `fork`, `fork_with` and `fork_listed` by copy-on-write (MIT 6.1810, copy-on-write lab); the enum `ForkError`, why
// one is refused; and the struct `Child`, what the last two make. A fork reserves frames, takes references to those to be
// shared, builds the child's page tables, sets the parent's copy-on-write marks (the next store takes the page over), and
// splits the child's seat off the parent's.

ghost use Rattle.std.specs.Prelude.{[], ◌∷◌, ◌≡◌, ◌-◌, ◌↔◌, ◌<◌, ◌≤◌, if◌then◌else◌, IfErr, IfOk, is_ok, length, List, map, ℕ};
ghost use Rattle.address_space.specs.Agreement.{body, body_of, IsSpace, IsAlive};
ghost use Rattle.address_space.specs.Kept.{KeepsPlace};
ghost use Rattle.address_space.specs.SettledLists.{AreSettled};
ghost use Rattle.address_space.specs.Steps.{RunsDry, TakesFrames};
ghost use Rattle.cow_fork.specs.Forks.{CanDivide, Forks, HasChild, HasForked, IsGivenBack, IsSharersFullError, IsNoFrameError, Prepares};
ghost use Rattle.cow_fork.specs.Occurrences.{times};
ghost use Rattle.cow_fork.specs.ForkReferences.{frames_of};
ghost use Rattle.frame_store.specs.Laws.{IsSeatOf, IsAnchored, IsDry, KeepsSeats};
ghost use Rattle.frame_store.specs.View.{IsHeld, View};
ghost use Rattle.process_model.specs.Frames as model;
ghost use Rattle.process_model.specs.Process.{Process};
ghost use Rattle.process_model.specs.declared.limits.TheConstants.{MOST_REFERENCES};
ghost use Rattle.sv39_entry.specs.Schemes.{trapframe_page};
ghost use Rattle.table_walk.specs.Tables.{Tables};

use crate::need::fork_need;
use crate::pages::PageList;
use crate::share::{release_all, share_frames};
use crate::tables::list_tables;
use crate::tree::{copy_tree, mark_pages};
use address_space::{Layout, SettledPage, Space};
use arrayvec::ArrayVec;
use frame_bytes::fill_frame;
use frame_store::{FrameSeat, FrameSupply, NoFrame, SharersFull};
use process_model::{MOST_FRAMES, Refusal};
use sv39_entry::FrameNo;

/// Why a fork was refused.
#[derive(Clone, Copy, PartialEq, Eq, Debug)]
pub enum ForkError {
    /// Too few frames are free for the child's trapframe and page tables.
    NoFrame,
    /// The count of references to a frame was read as `MOST_REFERENCES`: the frame cannot be shared once more.
    SharersFull,
}

impl From<NoFrame> for ForkError {
    ghost use Rattle.std.specs.Prelude.{◌≡◌};
    ghost use Rattle.cow_fork.specs.declared.fork_process.ForkError.TheVariants as refused;

    ghost from_gives = { λ none error. error ≡ refused.NoFrame };

    fn from(_: NoFrame) -> ForkError {
        ForkError::NoFrame
    }
}

impl From<SharersFull> for ForkError {
    ghost use Rattle.std.specs.Prelude.{◌≡◌};
    ghost use Rattle.cow_fork.specs.declared.fork_process.ForkError.TheVariants as refused;

    ghost from_gives = { λ full error. error ≡ refused.SharersFull };

    fn from(_: SharersFull) -> ForkError {
        ForkError::SharersFull
    }
}

impl From<ForkError> for Refusal {
    ghost use Rattle.std.specs.Prelude.{◌≡◌};
    ghost use Rattle.cow_fork.specs.Forks.{refusal_of};

    ghost from_gives = { λ error refusal. refusal ≡ refusal_of error };

    fn from(error: ForkError) -> Refusal {
        match error {
            ForkError::NoFrame => Refusal::NoFrame,
            ForkError::SharersFull => Refusal::SharersFull,
        }
    }
}

/// Forks the process in `space` by copy-on-write and returns its child, on a seat that is split off the parent's (MIT 6.1810,
/// copy-on-write lab). The child has the parent's regions and size, and each settled page (one in memory) on the parent's
/// frame; no data is copied. In both, each settled page whose region grants writing gets the copy-on-write mark: the next store
/// takes the page over. The child has no dirty mark. Takes `fork_need` frames: the child's trapframe, and page tables for its
/// settled pages, TRAMPOLINE and TRAPFRAME. Makes no fence: the caller must, since leaves of the parent lose W.
///
/// # Errors
/// The space then is the process that it was, by the same page tables. `NoFrame`: if nobody else changes the store (`alone`),
/// exactly when fewer than `fork_need` frames are free; over shared frames, only after the free count was read as 0 while
/// fewer than `fork_need` credits were reserved. `SharersFull`: only after a reference count was read as `MOST_REFERENCES`;
/// if `alone`, the parent's seat holds a frame whose count is not below that. The contract does not say the reverse, that
/// such a frame makes every fork fail.
pub fn fork<S: FrameSeat, F: FrameSupply<Seat = S>>(
    space: &mut Space<S>,
    store: &mut F,
) -> Result<Space<S>, ForkError>
    requires fits { IsSeatOf F.invariant store.old space.old.seat }
    requires ready { IsAlive (body_of S.view space.old) }
    ensures forked { IfOk result (λ child. HasForked (body_of S.view space.old) (body_of S.view space.new) (body_of S.view child)) }
    ensures whole { IfErr result (λ _. (t : Tables) (p : Process) → IsSpace (body_of S.view space.old) t p → IsSpace (body_of S.view space.new) t p) }
    ensures dry { IsNoFrameError result → (t : Tables) (p : Process) → IsSpace (body_of S.view space.old) t p
        → RunsDry (S.view space.old.seat) (S.view space.new.seat) (model.fork_need p) [] }
    ensures full { IsSharersFullError result → TakesFrames (S.view space.old.seat) (S.view space.new.seat) 0 (MOST_REFERENCES ∷ []) }
    ensures short { F.alone → (t : Tables) (p : Process) → IsSpace (body_of S.view space.old) t p
        → IsNoFrameError result ↔ (F.free store.old < model.fork_need p) }
    ensures sharers { F.alone → IsSharersFullError result → (f : ℕ) × IsHeld (S.view space.old.seat) f × (F.count store.old f < MOST_REFERENCES → ⊥) }
    ensures free { F.alone → (t : Tables) (p : Process) → IsSpace (body_of S.view space.old) t p → (IsSharersFullError result → ⊥) →
        F.free store.new ≡ F.free store.old - (if is_ok result then model.fork_need p else 0) }
    ensures place { KeepsPlace space.old space.new }
    ensures keeps { IfOk result (λ child. (others : List S) → F.invariant store.old (space.old.seat ∷ others)
        → F.invariant store.new (space.new.seat ∷ child.seat ∷ others)) }
    ensures keeps_refused { IfErr result (λ _. KeepsSeats F.invariant store.old space.old.seat store.new space.new.seat) }
{
    let mut list = PageList::new();
    match fork_with(space, store, &mut list) {
        Ok(child) => Ok(child.space(space.layout.copied())),
        Err(error) => Err(error),
    }
}

/// What a fork makes for its child: all of the child's space but its layout, which equals the parent's. A space with a layout
/// takes some 1,700 bytes, which a caller had better not move more often than need be.
#[derive(Drop)]
pub struct Child<S> {
    pub seat: S,
    /// The frame of the root page table.
    pub root: FrameNo,
    /// The frame that TRAPFRAME maps.
    pub trapframe: FrameNo,
}

impl<S: FrameSeat> Child<S> {
    /// Returns the child's space with this layout, which should be a copy of the parent's.
    #[inline(always)]
    pub fn space(self, layout: Layout) -> Space<S>
        ensures { result ≡ record { seat = self.seat; root = self.root; trapframe = self.trapframe; layout = layout } }
    {
        Space {
            seat: self.seat,
            root: self.root,
            trapframe: self.trapframe,
            layout,
        }
    }
}

/// `fork`, for a caller that puts the child's space together. It lists the settled pages in `list`, so that a caller that
/// forks again and again needs one list.
///
/// # Errors
/// Those of `fork`, in the same cases.
pub fn fork_with<S: FrameSeat, F: FrameSupply<Seat = S>>(
    space: &mut Space<S>,
    store: &mut F,
    list: &mut PageList,
) -> Result<Child<S>, ForkError>
    requires fits { IsSeatOf F.invariant store.old space.old.seat }
    requires ready { IsAlive (body_of S.view space.old) }
    ensures forked { IfOk result (λ child.
        HasForked (body_of S.view space.old) (body_of S.view space.new) (body (S.view child.seat) child.root.0 child.trapframe.0 space.old.layout)) }
    ensures whole { IfErr result (λ _. (t : Tables) (p : Process) → IsSpace (body_of S.view space.old) t p → IsSpace (body_of S.view space.new) t p) }
    ensures dry { IsNoFrameError result → (t : Tables) (p : Process) → IsSpace (body_of S.view space.old) t p
        → RunsDry (S.view space.old.seat) (S.view space.new.seat) (model.fork_need p) [] }
    ensures full { IsSharersFullError result → TakesFrames (S.view space.old.seat) (S.view space.new.seat) 0 (MOST_REFERENCES ∷ []) }
    ensures short { F.alone → (t : Tables) (p : Process) → IsSpace (body_of S.view space.old) t p
        → IsNoFrameError result ↔ (F.free store.old < model.fork_need p) }
    ensures sharers { F.alone → IsSharersFullError result → (f : ℕ) × IsHeld (S.view space.old.seat) f × (F.count store.old f < MOST_REFERENCES → ⊥) }
    ensures free { F.alone → (t : Tables) (p : Process) → IsSpace (body_of S.view space.old) t p → (IsSharersFullError result → ⊥) →
        F.free store.new ≡ F.free store.old - (if is_ok result then model.fork_need p else 0) }
    ensures place { KeepsPlace space.old space.new }
    ensures keeps { IfOk result (λ child. (others : List S) → F.invariant store.old (space.old.seat ∷ others)
        → F.invariant store.new (space.new.seat ∷ child.seat ∷ others)) }
    ensures keeps_refused { IfErr result (λ _. KeepsSeats F.invariant store.old space.old.seat store.new space.new.seat) }
{
    let settled = list.settled_pages(space, store);
    fork_listed(space, store, settled)
}

/// `fork_with`, for a caller that has the list of the settled pages (those in memory).
/// `settled` must be the complete list for `space` at this moment, each page once and in ascending order, with its frame and
/// marks: what `PageList::settled_pages` returned for it, if the space has not changed since.
///
/// # Errors
/// Those of `fork`, in the same cases.
pub fn fork_listed<S: FrameSeat, F: FrameSupply<Seat = S>>(
    space: &mut Space<S>,
    store: &mut F,
    settled: &[SettledPage],
) -> Result<Child<S>, ForkError>
    requires fits { IsSeatOf F.invariant store.old space.old.seat }
    requires ready { IsAlive (body_of S.view space.old) }
    requires settled { (t : Tables) (p : Process) → IsSpace (body_of S.view space.old) t p → AreSettled t p 0 (trapframe_page p.scheme) settled.now }
    ensures forked { IfOk result (λ child.
        HasForked (body_of S.view space.old) (body_of S.view space.new) (body (S.view child.seat) child.root.0 child.trapframe.0 space.old.layout)) }
    ensures whole { IfErr result (λ _. (t : Tables) (p : Process) → IsSpace (body_of S.view space.old) t p → IsSpace (body_of S.view space.new) t p) }
    ensures dry { IsNoFrameError result → (t : Tables) (p : Process) → IsSpace (body_of S.view space.old) t p
        → RunsDry (S.view space.old.seat) (S.view space.new.seat) (model.fork_need p) [] }
    ensures full { IsSharersFullError result → TakesFrames (S.view space.old.seat) (S.view space.new.seat) 0 (MOST_REFERENCES ∷ []) }
    ensures short { F.alone → (t : Tables) (p : Process) → IsSpace (body_of S.view space.old) t p
        → IsNoFrameError result ↔ (F.free store.old < model.fork_need p) }
    ensures sharers { F.alone → IsSharersFullError result → (f : ℕ) × IsHeld (S.view space.old.seat) f × (F.count store.old f < MOST_REFERENCES → ⊥) }
    ensures free { F.alone → (t : Tables) (p : Process) → IsSpace (body_of S.view space.old) t p → (IsSharersFullError result → ⊥) →
        F.free store.new ≡ F.free store.old - (if is_ok result then model.fork_need p else 0) }
    ensures place { KeepsPlace space.old space.new }
    ensures keeps { IfOk result (λ child. (others : List S) → F.invariant store.old (space.old.seat ∷ others)
        → F.invariant store.new (space.new.seat ∷ child.seat ∷ others)) }
    ensures keeps_refused { IfErr result (λ _. KeepsSeats F.invariant store.old space.old.seat store.new space.new.seat) }
{
    let scheme = space.layout.scheme();
    let need = fork_need(scheme, settled);
    let mut frames = ArrayVec::new();
    if let Err(refusal) = prepare(space, store, settled, need, &mut frames) {
        return Err(refusal);
    }
    Ok(divide(space, store, settled, &mut frames))
}

/// Reserves `need` frames as credits, takes one more reference of frame 0 and of the frame of each settled page, and lists
/// these frames in `frames`.
///
/// # Errors
/// `NoFrame`: the reservation was refused. `SharersFull`: a count was read as `MOST_REFERENCES`. The seat's references and
/// credits are then what they were.
fn prepare<S: FrameSeat, F: FrameSupply<Seat = S>>(
    space: &mut Space<S>,
    store: &mut F,
    settled: &[SettledPage],
    need: usize,
    frames: &mut ArrayVec<FrameNo, MOST_FRAMES>,
) -> Result<(), ForkError>
    requires fits { IsSeatOf F.invariant store.old space.old.seat }
    requires anchored { IsAnchored (S.view space.old.seat) }
    requires once { (f : ℕ) → times f (0 ∷ frames_of settled.now) ≤ 1 }
    requires held { (f : ℕ) → 0 < times f (0 ∷ frames_of settled.now) → IsHeld (S.view space.old.seat) f }
    requires few { length settled.now < MOST_FRAMES }
    requires empty { frames.old.items ≡ [] }
    requires credits { (S.view space.old.seat).credits ≡ 0 }
    ensures prepared { IfOk result (λ _. Prepares (S.view space.old.seat) (S.view space.new.seat) need (map (λ f. f.0) frames.new.items) (0
        ∷ frames_of settled.now)) }
    ensures dry { IsNoFrameError result → IsDry need (S.view space.old.seat) (S.view space.new.seat) }
    ensures back { IsSharersFullError result → IsGivenBack (S.view space.old.seat) (S.view space.new.seat) }
    ensures short { F.alone → IsNoFrameError result ↔ (F.free store.old < need) }
    ensures sharers { F.alone → IsSharersFullError result → (f : ℕ) × (0 < times f (0 ∷ frames_of settled.now)) × (F.count store.old f < MOST_REFERENCES → ⊥) }
    ensures free { F.alone → (IsSharersFullError result → ⊥) → F.free store.new ≡ F.free store.old - (if is_ok result then need else 0) }
    ensures place { KeepsPlace space.old space.new }
    ensures keeps { KeepsSeats F.invariant store.old space.old.seat store.new space.new.seat }
{
    store.reserve(&mut space.seat, need)?;
    if let Err(full) = share_frames(space, store, settled, frames) {
        release_all(space, store, frames.as_slice());
        store.give_back(&mut space.seat, need);
        return Err(full.into());
    }
    Ok(())
}

/// Makes the child out of the credits and references that `prepare` took: builds its tables, sets the parent's copy-on-write
/// marks, and splits the child's seat off the parent's.
fn divide<S: FrameSeat, F: FrameSupply<Seat = S>>(
    space: &mut Space<S>,
    store: &mut F,
    settled: &[SettledPage],
    frames: &mut ArrayVec<FrameNo, MOST_FRAMES>,
) -> Child<S>
    requires fits { IsSeatOf F.invariant store.old space.old.seat }
    requires ready { (v : View) × (t : Tables) × (p : Process) × CanDivide v (body_of S.view space.old) t p settled.now (map (λ f. f.0) frames.old.items) }
    ensures divided { (v : View) (t : Tables) (p : Process) → CanDivide v (body_of S.view space.old) t p settled.now (map (λ f. f.0) frames.old.items) →
        (u w : Tables) × Forks (body v space.old.root.0 space.old.trapframe.0 space.old.layout) (body_of S.view space.new)
        (body (S.view result.seat) result.root.0 result.trapframe.0 space.old.layout) t u w p }
    ensures place { KeepsPlace space.old space.new }
    ensures keeps { (others : List S) → F.invariant store.old (space.old.seat ∷ others) → F.invariant store.new (space.new.seat ∷ result.seat ∷ others) }
    ensures free { F.alone → F.free store.new ≡ F.free store.old }
{
    let (root, trapframe) = build_child(space, store, settled, frames);
    mark_pages(space, store, settled);
    let seat = store.split(&mut space.seat, frames.as_slice());
    Child {
        seat,
        root,
        trapframe,
    }
}

/// Claims a trapframe for the child and builds the child's page tables over it, with the parent's credits; adds the frames of
/// both to `frames`. Returns the frame of the root and the frame of the trapframe.
fn build_child<S: FrameSeat, F: FrameSupply<Seat = S>>(
    space: &mut Space<S>,
    store: &mut F,
    settled: &[SettledPage],
    frames: &mut ArrayVec<FrameNo, MOST_FRAMES>,
) -> (FrameNo, FrameNo)
    requires fits { IsSeatOf F.invariant store.old space.old.seat }
    requires ready { (v : View) × (t : Tables) × (p : Process) × CanDivide v (body_of S.view space.old) t p settled.now (map (λ f. f.0) frames.old.items) }
    ensures built { (v : View) (t : Tables) (p : Process) → CanDivide v (body_of S.view space.old) t p settled.now (map (λ f. f.0) frames.old.items) →
        (u : Tables) × HasChild v (S.view space.new.seat) t u p result.0.0 result.1.0 (map (λ f. f.0) frames.new.items) }
    ensures place { KeepsPlace space.old space.new }
    ensures keeps { KeepsSeats F.invariant store.old space.old.seat store.new space.new.seat }
    ensures free { F.alone → F.free store.new ≡ F.free store.old }
{
    let trapframe = store.claim(&mut space.seat);
    fill_frame(store, &mut space.seat, trapframe, &[]);
    frames.push(trapframe);
    let root = copy_tree(space, store, trapframe, settled);
    let scheme = space.layout.scheme();
    let end = space.layout.end();
    list_tables(store, &mut space.seat, scheme, root, end, frames);
    (root, trapframe)
}
