// User accesses (fetch, load, store) that a process makes in place, as most calls of most lists: `Tracked::access_at_once`
// makes the next call if it is one that needs no service, `Tracked::access_served` if it is one whose fault can be served.
// Both are for a process without a mapping and ask nothing of files.

ghost use Rattle.std.specs.Prelude.{◌≡◌, IfSome, IsNone, None, false, true};
ghost use Rattle.address_space.specs.Accesses.{request_of};
ghost use Rattle.address_space.specs.Agreement.{body_of, IsSpace, IsAlive};
ghost use Rattle.file_shelf.specs.ShelfStates.{ShelfState};
ghost use Rattle.frame_store.specs.Laws.{IsSeatOf, KeepsSeats};
ghost use Rattle.hart_calls.specs.AtOnce.{IsMadeAtOnce};
ghost use Rattle.hart_calls.specs.CallKinds.{IsAccess, IsAccessCall};
ghost use Rattle.hart_calls.specs.Track.{SameButSeat};
ghost use Rattle.hart_calls.specs.TurnCases.{ContinuesTurn, KeepsFilesOn, NeedsFiles};
ghost use Rattle.hart_calls.specs.declared.fork_slot.ForkSlot.{ForkSlot};
ghost use Rattle.process_model.specs.Process.{Process};
ghost use Rattle.process_model.specs.Service as service;
ghost use Rattle.process_model.specs.declared.call.Call as declared;
ghost use Rattle.table_walk.specs.Tables.{Tables};

use crate::access::{accessed, is_permitted};
use crate::call_result::CallResult;
use crate::calls::make_boxed;
use crate::journal_entry::{JournalEntry, PagesRead};
use crate::journal_reply::JournalReply;
use crate::model_process::{ModelProcess, begun};
use crate::plain_call::state_after;
use crate::run_brand::RunBrand;
use crate::tracked::Tracked;
use address_space::{AccessRequest, Space, walks_grant_what_is_resident};
use file_cabinet::Cabinet;
use file_shelf::Shelf;
use frame_store::{FrameAccess, FrameSeat};
use process_model::{Call, MOST_ENTRIES, is_width};
use shared_frames::SharedSupply;
use std::snapshot::Snapshot;
use std::sync::Wait;
use sv39_entry::{Access, Mode};

impl<'a, B: RunBrand> Tracked<'a, B> {
    /// Makes the list's next call in place, if it is a user access that is aligned and that the page table grants without
    /// service, and its journal has memory for the entry. `store` must be at the frame table of
    /// the run.
    ///
    /// Returns whether the call was made: if so, the process continues as after `next_call`, and no file is asked. If not,
    /// the process is unchanged, and `next_call` makes the call.
    pub fn access_at_once<R>(&mut self, store: &mut SharedSupply<'_, R>) -> bool
        requires store { store.old ≡ B.table }
        ensures store { store.new ≡ B.table }
        ensures made { result ≡ true → (slot : ForkSlot) → ContinuesTurn self.old self.new None slot }
        ensures files { result ≡ true → (shelf : ShelfState) → KeepsFilesOn self.old self.new shelf shelf }
        ensures not_made { result ≡ false → self.new ≡ self.old }
    {
        let made = self.parts.journal.len();
        if made == MOST_ENTRIES || made == self.parts.journal.capacity() {
            return false;
        }
        let Some(request) = asked(self.next()) else {
            return false;
        };
        let listed = self.listed();
        let reply = match permitted_boxed(&mut self.parts.space, store, request) {
            Some(reply) => reply,
            None => return false,
        };
        let present = after_access(&self.parts.present, request);
        let was = self.parts.present.kept();
        let entry = JournalEntry::new(listed, reply, PagesRead::none(), None, was);
        self.parts.journal.push_reserved(entry);
        self.parts.present = present;
        true
    }

    /// Makes the list's next call in place, if it is a user access, the process has no mapping, there is memory for the
    /// journal entry, and no rule ends the process in the service of the fault. `store` must be at the frame table of the
    /// run.
    ///
    /// Returns whether the call was made: if so, the process continues as after `next_call`, and the call needs no files
    /// (`needs_files`). If not, the process is unchanged but for what its seat read and the memory of its journal
    /// (`SameButSeat`), and `next_call` makes the call.
    pub fn access_served<R: Wait>(&mut self, store: &mut SharedSupply<'_, R>) -> bool
        requires store { store.old ≡ B.table }
        ensures store { store.new ≡ B.table }
        ensures made { result ≡ true → (slot : ForkSlot) → ContinuesTurn self.old self.new None slot }
        ensures files { result ≡ true → NeedsFiles self.old → ⊥ }
        ensures not_made { result ≡ false → SameButSeat self.old self.new }
    {
        let call = self.next();
        if self.made() == MOST_ENTRIES || self.has_mapping() || !is_access(call) {
            return false;
        }
        let listed = self.listed();
        let wanted = self.entries_wanted();
        let Ok(()) = self.parts.journal.reserve(wanted) else {
            return false;
        };
        let alloc = self.parts.alloc;
        let Ok(cabinet) = Cabinet::new(alloc, &[]) else {
            return false;
        };
        let mut shelf = Shelf::new(alloc, cabinet);
        let before = Snapshot::of(&shelf);
        let call_result = make_boxed(&mut self.parts.space, store, &mut shelf, call, None);
        match call_result {
            CallResult::Answered(reply) => {
                let present = state_after(&self.parts.present, before, call, &reply, None);
                let was = self.parts.present.kept();
                let entry = JournalEntry::new(listed, reply, PagesRead::none(), None, was);
                self.parts.journal.push_reserved(entry);
                self.parts.present = present;
                true
            }
            CallResult::Unpromised(_, _) => unreachable!(),
            CallResult::Ended(_) => false,
            CallResult::Unserved(_) => false,
        }
    }
}

/// Whether a call is a user access.
fn is_access(call: Call<'_>) -> bool
    ensures { result ≡ true → IsAccessCall call.entry }
{
    matches!(
        call,
        Call::Fetch { .. } | Call::Load { .. } | Call::Store { .. }
    )
}

/// The access that a call asks for. `None`: it is no user access.
#[inline(always)]
fn asked(call: Call<'_>) -> Option<AccessRequest>
    ensures { IfSome result (λ request. IsAccess call.entry (request_of request)) }
{
    match call {
        Call::Fetch { address } => Some(AccessRequest::new(Access::Fetch, address, 4, 0)),
        Call::Load { address, width } => Some(AccessRequest::new(Access::Load, address, width, 0)),
        Call::Store {
            address,
            width,
            value,
        } => Some(AccessRequest::new(Access::Store, address, width, value)),
        _ => None,
    }
}

/// `permitted`, for a space in a box.
fn permitted_boxed<S: FrameSeat, F: FrameAccess<Seat = S>>(
    space: &mut Box<Space<S>>,
    store: &mut F,
    request: AccessRequest,
) -> Option<JournalReply>
    requires fits { IsSeatOf F.invariant store.old space.old.value.seat }
    requires ready { IsAlive (body_of S.view space.old.value) }
    ensures made { (c : declared.Call) → IsAccess c (request_of request) → (t : Tables) (p : Process)
        → IsSpace (body_of S.view space.old.value) t p
        → IfSome result (IsMadeAtOnce (body_of S.view space.old.value) (body_of S.view space.new.value) p (request_of request) c) }
    ensures none { IsNone result → body_of S.view space.new.value ≡ body_of S.view space.old.value }
    ensures keeps { KeepsSeats F.invariant store.old space.old.value.seat store.new space.new.value.seat }
{
    permitted(space, store, request)
}

/// Makes a user access that is aligned and that its walk permits. `None`: it is not; the space is unchanged.
fn permitted<S: FrameSeat, F: FrameAccess<Seat = S>>(
    space: &mut Space<S>,
    store: &mut F,
    request: AccessRequest,
) -> Option<JournalReply>
    requires fits { IsSeatOf F.invariant store.old space.old.seat }
    requires ready { IsAlive (body_of S.view space.old) }
    ensures made { (c : declared.Call) → IsAccess c (request_of request) → (t : Tables) (p : Process)
        → IsSpace (body_of S.view space.old) t p → IfSome result (IsMadeAtOnce (body_of S.view space.old) (body_of S.view space.new) p (request_of request) c) }
    ensures none { IsNone result → body_of S.view space.new ≡ body_of S.view space.old }
    ensures keeps { KeepsSeats F.invariant store.old space.old.seat store.new space.new.seat }
{
    if !is_width(request.width) {
        return None;
    }
    walks_grant_what_is_resident();
    let walk = space.translate(store, request.va, request.access, Mode::User);
    if !is_permitted(&walk, &request) {
        return None;
    }
    Some(accessed(space, store, walk, request))
}

/// What determines the model's process after an access that was made at once.
#[derive(Drop)]
struct GrantedAccess {
    present: ModelProcess,
    request: AccessRequest,
}

/// The model's process after an access that was made at once.
fn after_access(present: &ModelProcess, request: AccessRequest) -> ModelProcess
    ensures { result.state ≡ (service.user_access present.now.state (request_of request)).process }
{
    let made = GrantedAccess {
        present: present.kept(),
        request,
    };
    begun(&made)
}
