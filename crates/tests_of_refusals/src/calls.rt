// `call`: performs an operation of a story (test case) on one process and returns the answer: exec, sbrk, a served fault,
// mmap, munmap or a kernel copy. All but fork, which is in `family`.

ghost use Rattle.address_space.specs.Agreement.{body_of, IsAlive};
ghost use Rattle.frame_store.specs.Laws.{IsSeatOf, KeepsSeats};

use crate::images_and_file::OneFile;
use crate::operation::{Answer, Operation};
use address_space::Space;
use exec_segments::exec;
use fault_rules::serve;
use frame_store::{FrameSeat, FrameSupply};
use lazy_growth::sbrk;
use mmap_regions::{mmap, munmap};
use process_model::{Image, Refusal};
use sv39_entry::Va;
use user_copy::{Short, copy_in, copy_out};

/// Performs an operation of a process and returns the answer. A fork is refused with `NoSlot`, and an exec of an image that
/// does not exist with `BadArgument`.
pub(crate) fn call<S: FrameSeat, F: FrameSupply<Seat = S>>(
    space: &mut Space<S>,
    store: &mut F,
    files: &mut OneFile,
    images: &[Image],
    operation: Operation,
) -> Answer
    requires fits { IsSeatOf F.invariant store.old space.old.seat }
    requires alive { IsAlive (body_of S.view space.old) }
    ensures alive { IsAlive (body_of S.view space.new) }
    ensures keeps { KeepsSeats F.invariant store.old space.old.seat store.new space.new.seat }
{
    match operation {
        Operation::Fork => Answer::Refused(Refusal::NoSlot),
        Operation::Exec(number) => match images.get(number) {
            Some(image) => executed(space, store, files, *image),
            None => Answer::Refused(Refusal::BadArgument),
        },
        Operation::Grow(delta) => match sbrk(space, store, delta) {
            Ok(_) => Answer::Done,
            Err(error) => Answer::Refused(error.into()),
        },
        Operation::Serve(access, address) => {
            Answer::Served(serve(space, store, files, Va(address), 1, access))
        }
        // protection 3: read and write; flags 1: shared; file 0
        Operation::Map(length) => match mmap(space, files, length, 3, 1, 0) {
            Ok(_) => Answer::Done,
            Err(refusal) => Answer::Refused(refusal),
        },
        Operation::Unmap(address, length) => done(munmap(space, store, files, address, length)),
        Operation::CopyIn(address) => match copy_in(space, store, files, Va(address), 4) {
            Ok(bytes) => Answer::Copied(number_of(bytes.as_slice())),
            Err(short) => stopped(&short),
        },
        Operation::CopyOut(address, bytes) => match copy_out(
            space,
            store,
            files,
            Va(address),
            &bytes,
        ) {
            Ok(()) => Answer::Done,
            Err(short) => stopped(&short),
        },
    }
}

/// Executes an image, once it is checked for the scheme of the process, and returns the answer.
fn executed<S: FrameSeat, F: FrameSupply<Seat = S>>(
    space: &mut Space<S>,
    store: &mut F,
    files: &mut OneFile,
    image: Image,
) -> Answer
    requires fits { IsSeatOf F.invariant store.old space.old.seat }
    requires alive { IsAlive (body_of S.view space.old) }
    ensures alive { IsAlive (body_of S.view space.new) }
    ensures keeps { KeepsSeats F.invariant store.old space.old.seat store.new space.new.seat }
{
    match exec_segments::Image::judged(space.layout.scheme(), image) {
        Ok(image) => done(exec(space, store, &image, files)),
        Err(part) => Answer::Refused(Refusal::BadImage(part)),
    }
}

fn done(outcome: Result<(), Refusal>) -> Answer {
    match outcome {
        Ok(()) => Answer::Done,
        Err(refusal) => Answer::Refused(refusal),
    }
}

fn stopped(short: &Short) -> Answer {
    Answer::Short(short.rule, short.done, number_of(short.bytes.as_slice()))
}

/// The number of these bytes, the lowest first.
fn number_of(bytes: &[u8]) -> u64 {
    let mut number = 0;
    for byte in bytes.iter().rev() {
        number = number << 8 | u64::from(*byte);
    }
    number
}
