// `copy_in`, `copy_out`: the calls CopyIn and CopyOut (copyin and copyout of xv6) in a process's space: the limit of
// `LONGEST_COPY` bytes, the copy of `user_copy`, and its end as a `CallResult`: whole, stopped by a rule, or stopped by the
// files.
ghost use Rattle.std.specs.Prelude.{◌≤◌};
ghost use Rattle.address_space.specs.Agreement.{body_of, IsAlive};
ghost use Rattle.frame_store.specs.Laws.{IsSeatOf, KeepsSeats};
ghost use Rattle.hart_calls.specs.CallResults.{GivesCallResult, RefusesPromise};
ghost use Rattle.process_model.specs.declared.call.Call.TheVariants as call;

use crate::call_result::CallResult;
use crate::journal_reply::JournalReply;
use address_space::Space;
use file_cabinet::Files;
use frame_store::{FrameSeat, FrameSupply};
use process_model::{LONGEST_COPY, Refusal, Reply, ScalarReply};
use sv39_entry::Va;
use user_copy::Stop;

/// Copies `count` bytes of the process, from `va` on, into the reply; more than `LONGEST_COPY` are refused with
/// `BadArgument`. The copy stops at the first address that a rule denies or that lacks frames. If the files refuse to promise
/// a page it is `Unpromised`.
#[inline(never)]
pub(crate) fn copy_in<S: FrameSeat, F: FrameSupply<Seat = S>, C: Files>(
    space: &mut Space<S>,
    store: &mut F,
    files: &mut C,
    va: Va,
    count: usize,
    room: Box<Reply>,
) -> CallResult
    requires fits { IsSeatOf F.FrameAccess.invariant store.old space.old.seat }
    requires ready { IsAlive (body_of S.view space.old) }
    ensures call_result { GivesCallResult (body_of S.view space.old) (body_of S.view space.new) (C.files files.old) (λ moves.
        C.becomes files.old moves files.new) (RefusesPromise C.becomes C.can_refuse files.old) (λ n. n ≤ C.room files.new) (call.CopyIn va.0 count) result }
    ensures keeps { KeepsSeats F.FrameAccess.invariant store.old space.old.seat store.new space.new.seat }
{
    if count > LONGEST_COPY {
        return CallResult::Answered(JournalReply::scalar(ScalarReply::Refused(
            Refusal::BadArgument,
        )));
    }
    match user_copy::copy_in(space, store, files, va, count) {
        Ok(bytes) => CallResult::Answered(JournalReply::long(room, Reply::CopiedIn(bytes))),
        Err(short) => match short.rule {
            Stop::Denied(rule) => {
                CallResult::Answered(JournalReply::long(room, Reply::ShortIn(rule, short.bytes)))
            },
            Stop::Unpromised(refusal) => CallResult::Unpromised(refusal, short.done),
        },
    }
}

/// Copies `bytes` to the process, from `va` on; more than `LONGEST_COPY` are refused with `BadArgument`. The copy stops as in
/// `copy_in`.
#[inline(never)]
pub(crate) fn copy_out<S: FrameSeat, F: FrameSupply<Seat = S>, C: Files>(
    space: &mut Space<S>,
    store: &mut F,
    files: &mut C,
    va: Va,
    bytes: &[u8],
) -> CallResult
    requires fits { IsSeatOf F.FrameAccess.invariant store.old space.old.seat }
    requires ready { IsAlive (body_of S.view space.old) }
    ensures call_result { GivesCallResult (body_of S.view space.old) (body_of S.view space.new) (C.files files.old) (λ moves.
        C.becomes files.old moves files.new) (RefusesPromise C.becomes C.can_refuse files.old) (λ n.
        n ≤ C.room files.new) (call.CopyOut va.0 bytes.entry) result }
    ensures keeps { KeepsSeats F.FrameAccess.invariant store.old space.old.seat store.new space.new.seat }
{
    if bytes.len() > LONGEST_COPY {
        return CallResult::Answered(JournalReply::scalar(ScalarReply::Refused(
            Refusal::BadArgument,
        )));
    }
    match user_copy::copy_out(space, store, files, va, bytes) {
        Ok(()) => CallResult::Answered(JournalReply::scalar(ScalarReply::CopiedOut(bytes.len()))),
        Err(short) => match short.rule {
            Stop::Denied(rule) => CallResult::Answered(JournalReply::scalar(ScalarReply::ShortOut(
                rule, short.done,
            ))),
            Stop::Unpromised(refusal) => CallResult::Unpromised(refusal, short.done),
        },
    }
}
