// The call fork on threads: `Tracked::fork` appends its journal entry and returns the child, by `fork_with`, or none if
// it is refused (NoSlot, Memory, NoFrame, SharersFull); `Tracked::child_room` allocates host memory for the child's space
// before.

ghost use Rattle.std.specs.Prelude.{[], ◌∷◌, ◌≡◌, ◌≢◌, ◌<◌, IfErr, IfOk, length, List, None};
ghost use Rattle.address_space.specs.Agreement.{body, body_of, IsSpace, IsAlive};
ghost use Rattle.address_space.specs.Kept.{KeepsPlace};
ghost use Rattle.address_space.specs.Steps.{IsBare, RunsDry, TakesFrames};
ghost use Rattle.cow_fork.specs.Forks.{HasForked, IsSharersFullError, IsNoFrameError};
ghost use Rattle.frame_store.specs.Laws.{IsSeatOf, KeepsSeats};
ghost use Rattle.frame_store.specs.View.{IsHeld};
ghost use Rattle.hart_calls.specs.Replay.{call_of, listed_call};
ghost use Rattle.hart_calls.specs.Track.{child_name, next_of};
ghost use Rattle.hart_calls.specs.TurnCases.{ForkAnswer, ContinuesTurn, IsNamed};
ghost use Rattle.hart_calls.specs.Shortages.{IsForkRefusal};
ghost use Rattle.hart_calls.specs.declared.fork_slot.ForkSlot.TheVariants as slot;
ghost use Rattle.process_model.specs.declared.call.Call.TheVariants as call;
ghost use Rattle.process_model.specs.declared.reply.Refusal.TheVariants.{NoFrame, SharersFull};
ghost use Rattle.process_model.specs.declared.reply.ScalarReply.TheVariants as scalar;
ghost use Rattle.process_model.specs.declared.reply.Reply.TheVariants.{Scalar};
ghost use Rattle.process_model.specs.Frames as model;
ghost use Rattle.process_model.specs.Process.{Process};
ghost use Rattle.shared_frames.specs.SeatsOfTable.{FitsIn, view_of};
ghost use Rattle.table_walk.specs.Tables.{Tables};
ghost use Rattle.process_model.specs.declared.limits.TheConstants.{MOST_ENTRIES, MOST_REFERENCES};

use crate::fork_slot::{ChildRoom, ForkSlot};
use crate::journal_entry::{JournalEntry, Listed, PagesRead};
use crate::journal_reply::JournalReply;
use crate::model_process::ModelProcess;
use crate::plain_call::append_entry;
use crate::run_brand::RunBrand;
use crate::tracked::Tracked;
use address_space::Space;
use cow_fork::{Child, ForkError, PageList, fork_with};
use frame_store::{FrameAccess, FrameSeat, FrameSupply};
use process_model::{Call, Refusal, ScalarReply};
use shared_frames::{SharedSeat, SharedSupply};
use std::alloc::{AllocError, Global};
use std::mem;
use std::sync::Wait;

impl<'a, B: RunBrand> Tracked<'a, B> {
    /// Allocates room for the space of the next child, which a fork needs (`ForkSlot::Free`), and before the first fork
    /// room to list the process's settled pages. `store` must be at the frame table of the run. The process is unchanged.
    ///
    /// # Errors
    /// `AllocError`: the host is out of memory. The process is unchanged then too.
    pub fn child_room<R: Wait>(
        &mut self,
        store: &mut SharedSupply<'_, R>,
    ) -> Result<ChildRoom, AllocError>
        requires store { store.old ≡ B.table }
        ensures store { store.new ≡ B.table }
        ensures same { self.new ≡ self.old }
    {
        room_for_list(self.parts.alloc, &mut self.parts.settled)?;
        let bare = split_empty_boxed(&mut self.parts.space, store);
        ChildRoom::new(self.parts.alloc, bare)
    }

    /// Makes the next call, a fork. Returns the process with one journal entry more and, if the reply is `Forked`, its
    /// child, which begins with list `list` as `child_of` the process. A refused fork leaves the process of the model as it
    /// was.
    #[inline(never)]
    pub(crate) fn fork<R: Wait>(
        self,
        store: &mut SharedSupply<'_, R>,
        list: usize,
        slot: ForkSlot,
    ) -> (Tracked<'a, B>, Option<Tracked<'a, B>>)
        requires store { store.old ≡ B.table }
        requires next { next_of self ≡ call.Fork list }
        requires room { 0 < self.room }
        requires few { length self.journal < MOST_ENTRIES }
        requires slot { IsNamed slot (child_name self) }
        ensures store { store.new ≡ B.table }
        ensures goes { ContinuesTurn self.entry result.0 result.1 slot }
    {
        match slot {
            ForkSlot::Free(name, room) => self.fork_into(store, list, name, room),
            ForkSlot::NoSlot => (
                self.refuse_fork(list, Refusal::NoSlot, &ForkSlot::NoSlot),
                None,
            ),
            ForkSlot::Memory => (
                self.refuse_fork(list, Refusal::Memory, &ForkSlot::Memory),
                None,
            ),
        }
    }

    /// A fork with a slot: the child's name, and room for its space.
    fn fork_into<R: Wait>(
        self,
        store: &mut SharedSupply<'_, R>,
        list: usize,
        name: Vec<u64>,
        room: ChildRoom,
    ) -> (Tracked<'a, B>, Option<Tracked<'a, B>>)
        requires store { store.old ≡ B.table }
        requires next { next_of self ≡ call.Fork list }
        requires room { 0 < self.room }
        requires few { length self.journal < MOST_ENTRIES }
        requires named { name.items ≡ child_name self }
        ensures store { store.new ≡ B.table }
        ensures goes { ContinuesTurn self.entry result.0 result.1 (slot.Free name room) }
    {
        let number = self.children();
        let listed = self.listed();
        let mut parts = self.parts;
        let mut settled = mem::replace(&mut parts.settled, None);
        let before = parts.present.kept();
        let forked = fork_boxed(&mut parts.space, store, &mut settled);
        parts.settled = settled;
        match forked {
            Ok(child) => {
                let entry = answer(listed, ScalarReply::Forked(number), before);
                let opening = parts.present.of_child();
                let layout = parts.space.layout.copied();
                let space = room.fill(child, layout);
                let child = Tracked::new(parts.alloc, opening, space, name, parts.lists, list);
                let present = parts.present.after_fork();
                (append_entry(parts, present, entry), Some(child))
            }
            Err(error) => {
                let entry = answer(listed, ScalarReply::Refused(error.into()), before);
                let present = parts.present.kept();
                (append_entry(parts, present, entry), None)
            }
        }
    }

    /// A fork that is refused for want of a slot or of host memory.
    fn refuse_fork(self, list: usize, refusal: Refusal, slot: &ForkSlot) -> Tracked<'a, B>
        requires next { next_of self ≡ call.Fork list }
        requires room { 0 < self.room }
        requires few { length self.journal < MOST_ENTRIES }
        requires refusal { IsForkRefusal refusal }
        requires answer { ForkAnswer slot.now (Scalar (scalar.Refused refusal)) }
        requires framed { refusal ≢ NoFrame }
        requires counted { refusal ≢ SharersFull }
        ensures goes { ContinuesTurn self.entry result None slot.now }
    {
        let _ = list;
        let _ = slot;
        let listed = self.listed();
        let parts = self.parts;
        let before = parts.present.kept();
        let entry = answer(listed, ScalarReply::Refused(refusal), before);
        let present = parts.present.kept();
        append_entry(parts, present, entry)
    }
}

/// Allocates room for a list of settled pages, unless there is some.
///
/// # Errors
/// `AllocError`: the host is out of memory.
fn room_for_list(alloc: Global, list: &mut Option<Box<PageList>>) -> Result<(), AllocError> {
    if list.is_none() {
        *list = Some(Box::new(alloc, PageList::new())?);
    }
    Ok(())
}

/// `fork_with`, for a space in a box. The settled pages are listed in `list`, if there is one.
fn fork_boxed<S: FrameSeat, F: FrameSupply<Seat = S>>(
    space: &mut Box<Space<S>>,
    store: &mut F,
    list: &mut Option<Box<PageList>>,
) -> Result<Child<S>, ForkError>
    requires fits { IsSeatOf F.FrameAccess.invariant store.old space.old.value.seat }
    requires ready { IsAlive (body_of S.view space.old.value) }
    ensures forked { IfOk result (λ child.
        HasForked (body_of S.view space.old.value) (body_of S.view space.new.value)
        (body (S.view child.seat) child.root.0 child.trapframe.0 space.old.value.layout)) }
    ensures whole { IfErr result (λ _. (t : Tables) (p : Process) → IsSpace (body_of S.view space.old.value) t p
        → IsSpace (body_of S.view space.new.value) t p) }
    ensures dry { IsNoFrameError result → (t : Tables) (p : Process) → IsSpace (body_of S.view space.old.value) t p
        → RunsDry (S.view space.old.value.seat) (S.view space.new.value.seat) (model.fork_need p) [] }
    ensures full { IsSharersFullError result → TakesFrames (S.view space.old.value.seat) (S.view space.new.value.seat) 0 (MOST_REFERENCES ∷ []) }
    ensures layout { space.new.value.layout ≡ space.old.value.layout }
    ensures keeps { IfOk result (λ child. (others : List S) → F.FrameAccess.invariant store.old (space.old.value.seat ∷ others)
        → F.FrameAccess.invariant store.new (space.new.value.seat ∷ child.seat ∷ others)) }
    ensures keeps_refused { IfErr result (λ _. KeepsSeats F.FrameAccess.invariant store.old space.old.value.seat store.new space.new.value.seat) }
{
    match list {
        Some(list) => fork_with(space, store, list),
        None => fork_unlisted(space, store),
    }
}

/// `fork_with`, with a list of its own, which takes some 16,000 bytes. Not inlined, so that a caller without need does not pay
/// for them.
#[inline(never)]
fn fork_unlisted<S: FrameSeat, F: FrameSupply<Seat = S>>(
    space: &mut Space<S>,
    store: &mut F,
) -> Result<Child<S>, ForkError>
    requires fits { IsSeatOf F.FrameAccess.invariant store.old space.old.seat }
    requires ready { IsAlive (body_of S.view space.old) }
    ensures forked { IfOk result (λ child.
        HasForked (body_of S.view space.old) (body_of S.view space.new) (body (S.view child.seat) child.root.0 child.trapframe.0 space.old.layout)) }
    ensures whole { IfErr result (λ _. (t : Tables) (p : Process) → IsSpace (body_of S.view space.old) t p → IsSpace (body_of S.view space.new) t p) }
    ensures dry { IsNoFrameError result → (t : Tables) (p : Process) → IsSpace (body_of S.view space.old) t p
        → RunsDry (S.view space.old.seat) (S.view space.new.seat) (model.fork_need p) [] }
    ensures full { IsSharersFullError result → TakesFrames (S.view space.old.seat) (S.view space.new.seat) 0 (MOST_REFERENCES ∷ []) }
    ensures layout { space.new.layout ≡ space.old.layout }
    ensures keeps { IfOk result (λ child. (others : List S) → F.FrameAccess.invariant store.old (space.old.seat ∷ others)
        → F.FrameAccess.invariant store.new (space.new.seat ∷ child.seat ∷ others)) }
    ensures keeps_refused { IfErr result (λ _. KeepsSeats F.FrameAccess.invariant store.old space.old.seat store.new space.new.seat) }
{
    let mut list = PageList::new();
    fork_with(space, store, &mut list)
}

/// Splits an empty seat off the seat of a space in a box.
fn split_empty_boxed<R: Wait>(
    space: &mut Box<Space<SharedSeat>>,
    store: &mut SharedSupply<'_, R>,
) -> SharedSeat
    requires fits { FitsIn store.old space.old.value.seat }
    requires ready { IsAlive (body_of view_of space.old.value) }
    ensures bare { IsBare (view_of result) }
    ensures store { store.new ≡ store.old }
    ensures fits { FitsIn store.old space.new.value.seat }
    ensures view { view_of space.new.value.seat ≡ view_of space.old.value.seat }
    ensures root { space.new.value.root ≡ space.old.value.root }
    ensures trapframe { space.new.value.trapframe ≡ space.old.value.trapframe }
    ensures layout { space.new.value.layout ≡ space.old.value.layout }
{
    split_empty_seat(space, store)
}

/// Splits an empty seat off the seat of a space.
fn split_empty_seat<R: Wait>(
    space: &mut Space<SharedSeat>,
    store: &mut SharedSupply<'_, R>,
) -> SharedSeat
    requires fits { FitsIn store.old space.old.seat }
    requires anchored { IsHeld (view_of space.old.seat) 0 }
    ensures bare { IsBare (view_of result) }
    ensures store { store.new ≡ store.old }
    ensures fits { FitsIn store.old space.new.seat }
    ensures view { view_of space.new.seat ≡ view_of space.old.seat }
    ensures place { KeepsPlace space.old space.new }
{
    store.split(&mut space.seat, &[])
}

/// The journal entry of a fork.
fn answer<'a>(listed: Listed<'a>, reply: ScalarReply, before: ModelProcess) -> JournalEntry<'a>
    ensures call { call_of result ≡ listed_call listed.entry }
    ensures reply { result.reply ≡ Scalar reply }
    ensures pages { result.pages ≡ [] }
    ensures file { result.file ≡ None }
    ensures before { result.before.state ≡ before.state }
{
    JournalEntry::new(
        listed,
        JournalReply::scalar(reply),
        PagesRead::none(),
        None,
        before,
    )
}
