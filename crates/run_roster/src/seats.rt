// One start on a seat split off the kernel's: `started` returns the space and the process that it begins as, or a refusal
// (NoSlot, BadImage, SharersFull, NoFrame) with an empty seat; `frames_for`, how many frames it takes; `end_unstarted` ends a
// process for whose space the host has no memory.

ghost use Rattle.std.specs.Prelude.{[], ◌≡◌, true, IfErr, IfOk};
ghost use Rattle.address_space.specs.Agreement.{HoldsTrampoline};
ghost use Rattle.address_space.specs.Steps.{IsBare};
ghost use Rattle.frame_store.specs.View.{IsHeld, read_full};
ghost use Rattle.process_model.specs.declared.call.ProcessEnd.TheVariants as outcome;
ghost use Rattle.process_model.specs.Frames.{start_need};
ghost use Rattle.process_model.specs.ImageProcess.{process_of};
ghost use Rattle.shared_frames.specs.SeatsOfTable.{FitsIn, view_of};
ghost use Rattle.run_roster.specs.RosterState.{RefusesStart};
ghost use Rattle.run_roster.specs.Slots.{HasRead};
ghost use Rattle.run_roster.specs.StartFrames.{image_need};
ghost use Rattle.run_roster.specs.Starts.{IsBegun, IsProcessOf, IsRefusedStart, IsRefusedTry, IsStarved, Lends};

use address_space::Space;
use exec_segments::{Image, start, start_frames};
use frame_store::{FrameAccess, FrameSupply, NoFrame, SharersFull, opened_seat};
use hart_calls::{Finished, ModelProcess, begun};
use process_model::{ProcessEnd, Refusal};
use shared_frames::{SharedSeat, SharedSupply};
use std::alloc::Global;
use std::sync::Wait;
use sv39_entry::{FrameNo, Scheme};

/// Splits a seat that holds nothing off the kernel's.
fn empty_seat<R: Wait>(store: &mut SharedSupply<'_, R>, kernel: &mut SharedSeat) -> SharedSeat
    requires fits { FitsIn store.old kernel.old }
    requires anchored { IsHeld (view_of kernel.old) 0 }
    ensures fits_new { FitsIn store.old result }
    ensures bare { IsBare (view_of result) }
    ensures view { view_of kernel.new ≡ view_of kernel.old }
    ensures store { store.new ≡ store.old }
    ensures fits { FitsIn store.old kernel.new }
{
    store.split(kernel, &[])
}

/// Drops frame 0, all that the seat of a process which was not started holds. Returns the seat, which holds nothing.
fn release_seat<R: Wait>(store: &mut SharedSupply<'_, R>, mut seat: SharedSeat) -> SharedSeat
    requires fits { FitsIn store.old seat }
    requires seat { HoldsTrampoline (view_of seat) }
    ensures fits { FitsIn store.old result }
    ensures bare { IsBare (view_of result) }
    ensures tallies { (view_of result).tallies ≡ (view_of seat).tallies }
    ensures store { store.new ≡ store.old }
{
    store.release(&mut seat, FrameNo(0));
    seat
}

/// Splits a seat for a process off the kernel's: it holds frame 0, for the trampoline, and nothing else.
///
/// # Errors
/// `SharersFull`, only after the kernel's seat read a count of `MOST_REFERENCES`. The kernel's seat holds what it held.
fn opened<R: Wait>(
    store: &mut SharedSupply<'_, R>,
    kernel: &mut SharedSeat,
) -> Result<SharedSeat, SharersFull>
    requires fits { FitsIn store.old kernel.old }
    requires anchored { IsHeld (view_of kernel.old) 0 }
    ensures opened { IfOk result (λ seat. FitsIn store.old seat × HoldsTrampoline (view_of seat)) }
    ensures fresh { IfOk result (λ seat. (view_of seat).tallies.claims ≡ 0) }
    ensures full { IfErr result (λ _. view_of kernel.new ≡ read_full (view_of kernel.old)) }
    ensures looks { IfOk result (λ _. (view_of kernel.new).tallies.looks ≡ (view_of kernel.old).tallies.looks) }
    ensures lends { Lends (view_of kernel.old) (view_of kernel.new) }
    ensures store { store.new ≡ store.old }
    ensures fits { FitsIn store.old kernel.new }
{
    opened_seat(store, kernel)
}

/// Builds the process of an image on its seat. Returns its space, and the process of the model that it begins as.
///
/// # Errors
/// The seat, which holds nothing. It has read the free count as 0 with fewer frames reserved than the start needs, and
/// claimed none.
fn built<R: Wait>(
    store: &mut SharedSupply<'_, R>,
    seat: SharedSeat,
    image: &Image<'_>,
) -> Result<(Space<SharedSeat>, ModelProcess), SharedSeat>
    requires fits { FitsIn store.old seat }
    requires seat { HoldsTrampoline (view_of seat) }
    requires fresh { (view_of seat).tallies.claims ≡ 0 }
    ensures built { IfOk result (λ r. IsBegun store.old r.0 r.1) }
    ensures process { IfOk result (λ r. r.1.state ≡ process_of image.now.scheme 0 image.now.loads) }
    ensures fits { IfErr result (λ seat. FitsIn store.old seat) }
    ensures bare { IfErr result (λ seat. IsBare (view_of seat)) }
    ensures dry { IfErr result (λ seat. IsStarved (start_need image.now.scheme image.now.loads) (view_of seat)) }
    ensures store { store.new ≡ store.old }
{
    match start(store, seat, image) {
        Ok(space) => Ok((space, begun(image))),
        Err((NoFrame, seat)) => Err(release_seat(store, seat)),
    }
}

/// Ends a process before its first call with outcome `Memory`, because the host has no memory for its space.
pub(crate) fn end_unstarted<'a, R: Wait>(
    alloc: Global,
    store: &mut SharedSupply<'_, R>,
    space: Space<SharedSeat>,
    opening: ModelProcess,
    name: Vec<u64>,
) -> Finished<'a>
    requires begun { IsBegun store.old space opening }
    ensures name { result.name.items ≡ name.items }
    ensures journal { result.journal.items ≡ [] }
    ensures outcome { result.outcome ≡ outcome.Memory }
    ensures fits { FitsIn store.old result.seat }
    ensures bare { IsBare (view_of result.seat) }
    ensures store { store.new ≡ store.old }
{
    let _ = opening;
    Finished {
        name,
        outcome: ProcessEnd::Memory,
        journal: Vec::new(alloc),
        seat: space.destroy(store),
    }
}

/// Returns how many frames the process of an image takes at its start; 0 if the image fails a check.
pub(crate) fn frames_for(image: process_model::Image<'_>) -> usize
    ensures { result ≡ image_need image.entry }
{
    match Image::judged(Scheme::Sv39, image) {
        Ok(image) => start_frames(&image),
        Err(_) => 0,
    }
}

/// Builds the process of an image on a seat split off the kernel's. If the caller says that the kernel's seat is `alone` at
/// the table, it tries again when it reads a count of `MOST_REFERENCES`; if the caller says that `enough` frames are free,
/// when it reads the free count as 0.
///
/// # Errors
/// With a seat that holds nothing. `SharersFull`: the kernel's seat is not alone and read a count of `MOST_REFERENCES`.
/// `NoFrame`: the caller does not say that enough frames are free, and the seat has read the free count as 0 with fewer
/// frames reserved than the start needs.
fn tried<R: Wait>(
    rt: &R,
    store: &mut SharedSupply<'_, R>,
    kernel: &mut SharedSeat,
    image: &Image<'_>,
    alone: bool,
    enough: bool,
) -> Result<(Space<SharedSeat>, ModelProcess), (Refusal, SharedSeat)>
    requires fits { FitsIn store.old kernel.old }
    requires anchored { IsHeld (view_of kernel.old) 0 }
    ensures built { IfOk result (λ r. IsBegun store.old r.0 r.1) }
    ensures process { IfOk result (λ r. r.1.state ≡ process_of image.now.scheme 0 image.now.loads) }
    ensures refused { IfErr result (λ e.
        IsRefusedTry alone enough (start_need image.now.scheme image.now.loads) (view_of kernel.old) (view_of kernel.new) (view_of e.1) e.0) }
    ensures seat { IfErr result (λ e. FitsIn store.old e.1) }
    ensures bare { IfErr result (λ e. IsBare (view_of e.1)) }
    ensures reads { HasRead (view_of kernel.old) (view_of kernel.new) }
    ensures lends { Lends (view_of kernel.old) (view_of kernel.new) }
    ensures store { store.new ≡ store.old }
    ensures fits { FitsIn store.old kernel.new }
{
    'tries: for _ in rt.forever() {
        match opened(store, kernel) {
            Ok(seat) => match built(store, seat, image) {
                Ok(process) => return Ok(process),
                Err(seat) => {
                    if !enough {
                        return Err((Refusal::NoFrame, seat));
                    }
                }
            },
            Err(SharersFull) => {
                if !alone {
                    return Err((Refusal::SharersFull, empty_seat(store, kernel)));
                }
            }
        }
    }
    unreachable!()
}

/// Starts a process of an image on a seat of its own, with page tables of Sv39. Returns its space, and the process of the
/// model that it begins as.
///
/// # Errors
/// These are checked in this order; the seat that is returned holds nothing. `NoSlot`: exactly if `has_slot` is false.
/// `BadImage`: only if the image fails this check; an image that fails one is never started. `SharersFull`: only if not
/// `alone`, after the kernel's seat read a count of `MOST_REFERENCES`. `NoFrame`: only if not `enough`, if the image is
/// accepted, and after the free count was read as 0 with fewer frames reserved than it needs. If the caller says that the
/// kernel's seat is `alone` at the table, or that `enough` frames are free, the start waits until it finds them.
pub(crate) fn started<R: Wait>(
    rt: &R,
    store: &mut SharedSupply<'_, R>,
    kernel: &mut SharedSeat,
    image: process_model::Image<'_>,
    has_slot: bool,
    alone: bool,
    enough: bool,
) -> Result<(Space<SharedSeat>, ModelProcess), (Refusal, SharedSeat)>
    requires fits { FitsIn store.old kernel.old }
    requires anchored { IsHeld (view_of kernel.old) 0 }
    ensures started { IfOk result (λ r. IsBegun store.old r.0 r.1) }
    ensures process { IfOk result (λ r. IsProcessOf image.entry r.1.state) }
    ensures begins { IfOk result (λ _. has_slot ≡ true) }
    ensures refused { IfErr result (λ e. IsRefusedStart has_slot alone enough image.entry (view_of kernel.old) (view_of kernel.new) e.0) }
    ensures why { IfErr result (λ e. RefusesStart image.entry (view_of e.1) e.0) }
    ensures seat { IfErr result (λ e. FitsIn store.old e.1) }
    ensures bare { IfErr result (λ e. IsBare (view_of e.1)) }
    ensures reads { HasRead (view_of kernel.old) (view_of kernel.new) }
    ensures lends { Lends (view_of kernel.old) (view_of kernel.new) }
    ensures store { store.new ≡ store.old }
    ensures fits { FitsIn store.old kernel.new }
{
    if !has_slot {
        return Err((Refusal::NoSlot, empty_seat(store, kernel)));
    }
    let image = match Image::judged(Scheme::Sv39, image) {
        Ok(image) => image,
        Err(part) => return Err((Refusal::BadImage(part), empty_seat(store, kernel))),
    };
    match tried(rt, store, kernel, &image, alone, enough) {
        Ok(process) => Ok(process),
        Err((refusal, seat)) => Err((refusal, seat)),
    }
}
