// Functions that make a user access (fetch, load, store) in a process's space: `access` serves its fault first unless it is
// granted at once, and can end in the rule that ends the process or in a refused promise (reservation of file reads);
// helpers test whether a walk permits it, and make it.

ghost use Rattle.std.specs.Prelude.{◌≡◌, ◌&&◌, ◌==◌, ◌%◌, IsTrue, ◌≤◌};
ghost use Rattle.address_space.specs.Accesses.{request_of, gives_leaf, IsWalkOf};
ghost use Rattle.address_space.specs.Agreement.{body_of, IsSpace, IsAlive};
ghost use Rattle.frame_store.specs.Laws.{IsSeatOf, KeepsSeats};
ghost use Rattle.hart_calls.specs.CallKinds.{IsAccess};
ghost use Rattle.hart_calls.specs.CallResults.{GivesCallResult, RefusesPromise};
ghost use Rattle.process_model.specs.Bytes.{is_width};
ghost use Rattle.process_model.specs.Process.{Process};
ghost use Rattle.process_model.specs.Service as service;
ghost use Rattle.process_model.specs.declared.call.Call as declared;
ghost use Rattle.table_walk.specs.Tables.{Tables};

use crate::call_result::CallResult;
use crate::journal_reply::JournalReply;
use address_space::{AccessRequest, Space, misalignment, walks_grant_what_is_resident};
use fault_rules::{Served, serve};
use file_cabinet::Files;
use frame_store::{FrameAccess, FrameSeat, FrameSupply};
use process_model::{Refusal, ScalarReply, is_width};
use sv39_entry::Mode;
use table_walk::Walk;

/// Makes a user access; a width other than 1, 2, 4 or 8 is refused with `BadArgument`. If it is aligned and granted, and its
/// page is resident for it, it is made at once. Else its fault is served first: then the access is made, or the process ends
/// by a rule, or the files refuse to promise a page and the call is not made.
pub(crate) fn access<S: FrameSeat, F: FrameSupply<Seat = S>, C: Files>(
    space: &mut Space<S>,
    store: &mut F,
    files: &mut C,
    request: AccessRequest,
) -> CallResult
    requires fits { IsSeatOf F.FrameAccess.invariant store.old space.old.seat }
    requires ready { IsAlive (body_of S.view space.old) }
    ensures call_result { (c : declared.Call) → IsAccess c (request_of request)
        → GivesCallResult (body_of S.view space.old) (body_of S.view space.new) (C.files files.old) (λ moves.
        C.becomes files.old moves files.new) (RefusesPromise C.becomes C.can_refuse files.old) (λ n. n ≤ C.room files.new) c result }
    ensures keeps { KeepsSeats F.FrameAccess.invariant store.old space.old.seat store.new space.new.seat }
{
    if !is_width(request.width) {
        return CallResult::Answered(JournalReply::scalar(ScalarReply::Refused(
            Refusal::BadArgument,
        )));
    }
    walks_grant_what_is_resident();
    let walk = space.translate(store, request.va, request.access, Mode::User);
    if is_permitted(&walk, &request) {
        return CallResult::Answered(accessed(space, store, walk, request));
    }
    match serve(
        space,
        store,
        files,
        request.va,
        request.width,
        request.access,
    ) {
        Served::Ready => CallResult::Answered(without_service(space, store, request)),
        Served::Ended(rule) => CallResult::Ended(rule),
        Served::Unserved(refusal) => CallResult::Unserved(refusal),
    }
}

/// Whether an access is aligned, and its walk found a leaf that permits it.
pub(crate) fn is_permitted(walk: &Walk, request: &AccessRequest) -> bool
    requires width { IsTrue (is_width request.now.width) }
    ensures { result ≡ (request.now.va.0 % request.now.width == 0 && gives_leaf walk.now) }
{
    misalignment(request.va.0, request.width) == 0 && matches!(walk, Walk::Leaf { .. })
}

/// Walks the page table for a user access and makes it, without service: it replies `Fault` if a rule denies it or its page
/// is not resident for it. Waits for no thread.
fn without_service<S: FrameSeat, F: FrameAccess<Seat = S>>(
    space: &mut Space<S>,
    store: &mut F,
    request: AccessRequest,
) -> JournalReply
    requires fits { IsSeatOf F.invariant store.old space.old.seat }
    requires ready { IsAlive (body_of S.view space.old) }
    requires width { IsTrue (is_width request.width) }
    ensures reply { (t : Tables) (p : Process) → IsSpace (body_of S.view space.old) t p → result ≡ (service.user_access p (request_of request)).reply }
    ensures after { (t : Tables) (p : Process) → IsSpace (body_of S.view space.old) t p
        → IsSpace (body_of S.view space.new) t (service.user_access p (request_of request)).process }
    ensures keeps { KeepsSeats F.invariant store.old space.old.seat store.new space.new.seat }
{
    let walk = space.translate(store, request.va, request.access, Mode::User);
    accessed(space, store, walk, request)
}

/// Makes a user access that was translated to `walk`, or replies `Fault`.
pub(crate) fn accessed<S: FrameSeat, F: FrameAccess<Seat = S>>(
    space: &mut Space<S>,
    store: &mut F,
    walk: Walk,
    request: AccessRequest,
) -> JournalReply
    requires fits { IsSeatOf F.invariant store.old space.old.seat }
    requires ready { (t : Tables) × (p : Process) × IsSpace (body_of S.view space.old) t p × IsWalkOf p.scheme t request walk }
    requires width { IsTrue (is_width request.width) }
    ensures reply { (t : Tables) (p : Process) → IsSpace (body_of S.view space.old) t p → IsWalkOf p.scheme t request walk
        → result ≡ (service.user_access p (request_of request)).reply }
    ensures after { (t : Tables) (p : Process) → IsSpace (body_of S.view space.old) t p → IsWalkOf p.scheme t request walk
        → IsSpace (body_of S.view space.new) t (service.user_access p (request_of request)).process }
    ensures keeps { KeepsSeats F.invariant store.old space.old.seat store.new space.new.seat }
{
    JournalReply::scalar(space.user_access(store, walk, request))
}
