// `make`, `make_boxed`: dispatch a call that is neither fork nor exit (access, exec, sbrk, mmap, munmap, CopyIn, CopyOut) to
// the function that makes it in the process's space, and turn the result into a `CallResult`; exec itself (`exec`).

ghost use Rattle.std.specs.Prelude.{◌≡◌, ◌≤◌};
ghost use Rattle.address_space.specs.Agreement.{body_of, IsAlive};
ghost use Rattle.frame_store.specs.Laws.{IsSeatOf, KeepsSeats};
ghost use Rattle.hart_calls.specs.ReplyCases.{done_or_refused, mapped_or_refused, size_or_refused};
ghost use Rattle.hart_calls.specs.CallKinds.{HasRoomFor, IsPlainCall};
ghost use Rattle.hart_calls.specs.CallResults.{GivesCallResult, RefusesPromise};
ghost use Rattle.process_model.specs.declared.call.Call.TheVariants as call;

use crate::access::access;
use crate::call_result::CallResult;
use crate::copies::{copy_in, copy_out};
use crate::journal_reply::JournalReply;
use address_space::{AccessRequest, Space};
use exec_segments::Image;
use file_cabinet::Files;
use frame_store::{FrameSeat, FrameSupply};
use lazy_growth::SizeError;
use process_model::{Call, Refusal, Reply, ScalarReply};
use sv39_entry::{Access, Va};

/// Makes a call that is neither fork nor exit in the space of its process. `room` is the box for the reply of a `CopyIn`.
fn make<S: FrameSeat, F: FrameSupply<Seat = S>, C: Files>(
    space: &mut Space<S>,
    store: &mut F,
    files: &mut C,
    call: Call<'_>,
    room: Option<Box<Reply>>,
) -> CallResult
    requires fits { IsSeatOf F.FrameAccess.invariant store.old space.old.seat }
    requires ready { IsAlive (body_of S.view space.old) }
    requires plain { IsPlainCall call }
    requires room { HasRoomFor call room }
    ensures call_result { GivesCallResult (body_of S.view space.old) (body_of S.view space.new) (C.files files.old) (λ moves.
        C.becomes files.old moves files.new) (RefusesPromise C.becomes C.can_refuse files.old) (λ n. n ≤ C.room files.new) call.entry result }
    ensures keeps { KeepsSeats F.FrameAccess.invariant store.old space.old.seat store.new space.new.seat }
{
    match call {
        Call::Fetch { address } => access(
            space,
            store,
            files,
            AccessRequest::new(Access::Fetch, address, 4, 0),
        ),
        Call::Load { address, width } => access(
            space,
            store,
            files,
            AccessRequest::new(Access::Load, address, width, 0),
        ),
        Call::Store {
            address,
            width,
            value,
        } => access(
            space,
            store,
            files,
            AccessRequest::new(Access::Store, address, width, value),
        ),
        Call::Exec { image } => exec(space, store, files, image),
        Call::Sbrk { delta } => sized(lazy_growth::sbrk(space, store, delta)),
        Call::Mmap {
            length,
            protection,
            flags,
            file,
        } => mapped(mmap_regions::mmap(space, files, length, protection, flags, file)),
        Call::Munmap { address, length } => {
            done(mmap_regions::munmap(space, store, files, address, length))
        }
        Call::CopyIn { address, count } => {
            let Some(room) = room else { unreachable!() };
            copy_in(space, store, files, Va(address), count, room)
        }
        Call::CopyOut { address, bytes } => copy_out(space, store, files, Va(address), bytes),
        Call::Exit { .. } => unreachable!(),
        Call::Fork { .. } => unreachable!(),
    }
}

/// `make`, for a space in a box.
pub(crate) fn make_boxed<S: FrameSeat, F: FrameSupply<Seat = S>, C: Files>(
    space: &mut Box<Space<S>>,
    store: &mut F,
    files: &mut C,
    call: Call<'_>,
    room: Option<Box<Reply>>,
) -> CallResult
    requires fits { IsSeatOf F.FrameAccess.invariant store.old space.old.value.seat }
    requires ready { IsAlive (body_of S.view space.old.value) }
    requires plain { IsPlainCall call }
    requires room { HasRoomFor call room }
    ensures call_result { GivesCallResult (body_of S.view space.old.value) (body_of S.view space.new.value) (C.files files.old) (λ moves.
        C.becomes files.old moves files.new) (RefusesPromise C.becomes C.can_refuse files.old) (λ n. n ≤ C.room files.new) call.entry result }
    ensures keeps { KeepsSeats F.FrameAccess.invariant store.old space.old.value.seat store.new space.new.value.seat }
{
    make(space, store, files, call, room)
}

/// Exec: replaces the process by that of `image`, which is checked for the scheme of the space first.
#[inline(never)]
fn exec<S: FrameSeat, F: FrameSupply<Seat = S>, C: Files>(
    space: &mut Space<S>,
    store: &mut F,
    files: &mut C,
    image: process_model::Image<'_>,
) -> CallResult
    requires fits { IsSeatOf F.FrameAccess.invariant store.old space.old.seat }
    requires ready { IsAlive (body_of S.view space.old) }
    ensures call_result { GivesCallResult (body_of S.view space.old) (body_of S.view space.new) (C.files files.old) (λ moves.
        C.becomes files.old moves files.new) (RefusesPromise C.becomes C.can_refuse files.old) (λ n. n ≤ C.room files.new) (call.Exec image.entry) result }
    ensures keeps { KeepsSeats F.FrameAccess.invariant store.old space.old.seat store.new space.new.seat }
{
    let scheme = space.layout.scheme();
    match Image::judged(scheme, image) {
        Ok(image) => done(exec_segments::exec(space, store, &image, files)),
        Err(part) => CallResult::Answered(JournalReply::scalar(ScalarReply::Refused(
            Refusal::BadImage(part),
        ))),
    }
}

/// The result of munmap or exec: `Done` or a refusal.
fn done(outcome: Result<(), Refusal>) -> CallResult
    ensures { result ≡ done_or_refused outcome }
{
    match outcome {
        Ok(()) => CallResult::Answered(JournalReply::scalar(ScalarReply::Done)),
        Err(refusal) => CallResult::Answered(JournalReply::scalar(ScalarReply::Refused(refusal))),
    }
}

/// The result of mmap: the address of the mapping or a refusal.
fn mapped(address: Result<u64, Refusal>) -> CallResult
    ensures { result ≡ mapped_or_refused address }
{
    match address {
        Ok(address) => CallResult::Answered(JournalReply::scalar(ScalarReply::MappedAt(address))),
        Err(refusal) => CallResult::Answered(JournalReply::scalar(ScalarReply::Refused(refusal))),
    }
}

/// The result of sbrk: the old size or a refusal.
fn sized(before: Result<u64, SizeError>) -> CallResult
    ensures { result ≡ size_or_refused before }
{
    match before {
        Ok(before) => CallResult::Answered(JournalReply::scalar(ScalarReply::OldSize(before))),
        Err(error) => CallResult::Answered(JournalReply::scalar(ScalarReply::Refused(
            error.into(),
        ))),
    }
}
