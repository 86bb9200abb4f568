// `first_wrong`: performs the rows of a story (operations of a test case, each with the reply that it must get) on a process
// in memory, and returns the first wrong reply.

ghost use Rattle.address_space.specs.Agreement.{body_of, IsAlive};
ghost use Rattle.frame_store.specs.Laws.{IsSeatOf, KeepsSeats};

use crate::operation::{Operation, Row};
use address_space::{AccessRequest, Space};
use fault_rules::{Served, serve};
use file_cabinet::Files;
use frame_store::{FrameAccess, FrameSeat, FrameSupply};
use lazy_growth::sbrk;
use mmap_regions::{mmap, munmap, promise_write_back, write_back};
use process_model::ScalarReply::{Done, Ended, MappedAt, OldSize, Ready, Refused, Value};
use process_model::{Refusal, ScalarReply, is_width};
use sv39_entry::{Mode, Va};

/// The number of the first row that got another reply, with that reply; `None`: no row did.
pub(crate) type Wrong = Option<(usize, ScalarReply)>;

/// Performs the rows in order, up to the first that gets another reply than it must. Returns that row's number and reply,
/// `None` if there is none.
pub(crate) fn first_wrong<S: FrameSeat, F: FrameSupply<Seat = S>, C: Files>(
    space: &mut Space<S>,
    store: &mut F,
    files: &mut C,
    rows: &[Row],
) -> Wrong
    requires fits { IsSeatOf F.invariant store.old space.old.seat }
    requires alive { IsAlive (body_of S.view space.old) }
    ensures alive { IsAlive (body_of S.view space.new) }
    ensures keeps { KeepsSeats F.invariant store.old space.old.seat store.new space.new.seat }
{
    'rows: for number in 0..rows.len() {
        let (operation, wanted) = rows[number];
        let reply = perform(space, store, files, operation);
        if reply != wanted {
            return Some((number, reply));
        }
    }
    None
}

/// Performs one operation and returns the reply.
fn perform<S: FrameSeat, F: FrameSupply<Seat = S>, C: Files>(
    space: &mut Space<S>,
    store: &mut F,
    files: &mut C,
    operation: Operation,
) -> ScalarReply
    requires fits { IsSeatOf F.invariant store.old space.old.seat }
    requires alive { IsAlive (body_of S.view space.old) }
    ensures alive { IsAlive (body_of S.view space.new) }
    ensures keeps { KeepsSeats F.invariant store.old space.old.seat store.new space.new.seat }
{
    match operation {
        Operation::Grow(delta) => match sbrk(space, store, delta) {
            Ok(size) => OldSize(size),
            Err(error) => Refused(error.into()),
        },
        Operation::Map(length, protection, flags, file) => {
            match mmap(space, files, length, protection, flags, file) {
                Ok(address) => MappedAt(address),
                Err(refusal) => Refused(refusal),
            }
        }
        Operation::Unmap(address, length) => match munmap(space, store, files, address, length) {
            Ok(()) => Done,
            Err(refusal) => Refused(refusal),
        },
        Operation::Serve(access, address) => {
            served(serve(space, store, files, Va(address), 1, access))
        }
        Operation::Touch(access, address, width, value) => touch(
            space,
            store,
            AccessRequest::new(access, address, width, value),
        ),
        Operation::WriteBack => write_all(space, store, files),
        Operation::Look(file, offset) => look(files, file, offset),
    }
}

/// The reply to the service of a fault.
fn served(outcome: Served) -> ScalarReply {
    match outcome {
        Served::Ready => Ready,
        Served::Ended(rule) => Ended(rule),
        Served::Unserved(refusal) => Refused(refusal),
    }
}

/// A user access, by a walk of the page table. Refused with `BadArgument` if the width is not 1, 2, 4 or 8.
fn touch<S: FrameSeat, F: FrameAccess<Seat = S>>(
    space: &mut Space<S>,
    store: &mut F,
    request: AccessRequest,
) -> ScalarReply
    requires fits { IsSeatOf F.invariant store.old space.old.seat }
    requires alive { IsAlive (body_of S.view space.old) }
    ensures alive { IsAlive (body_of S.view space.new) }
    ensures keeps { KeepsSeats F.invariant store.old space.old.seat store.new space.new.seat }
{
    if !is_width(request.width) {
        return Refused(Refusal::BadArgument);
    }
    let walk = space.translate(store, request.va, request.access, Mode::User);
    space.user_access(store, walk, request)
}

/// Writes back the stored pages of all mappings, after a promise for them. The reply is the refusal of that promise, if it is
/// refused.
fn write_all<S: FrameSeat, F: FrameAccess<Seat = S>, C: Files>(
    space: &mut Space<S>,
    store: &mut F,
    files: &mut C,
) -> ScalarReply
    requires fits { IsSeatOf F.invariant store.old space.old.seat }
    requires alive { IsAlive (body_of S.view space.old) }
    ensures alive { IsAlive (body_of S.view space.new) }
    ensures keeps { KeepsSeats F.invariant store.old space.old.seat store.new space.new.seat }
{
    match promise_write_back(space, store, files) {
        Ok(()) => {
            write_back(space, store, files);
            Done
        }
        Err(error) => Refused(error.into()),
    }
}

/// The eight bytes of a file from `offset` on, as a number whose lowest byte is the first, after a promise. Zeros past the
/// file's end.
fn look<C: Files>(files: &mut C, file: usize, offset: usize) -> ScalarReply {
    if let Err(error) = files.promise(1) {
        return Refused(error.into());
    }
    let mut page = [0; 4096];
    files.read_page(file, offset, &mut page);
    let mut first = [0; 8];
    first.copy_from_slice(&page[..8]);
    Value(u64::from_le_bytes(first))
}
