// Tests that `SharedFrames` returns the right reference counts (up to 65,535), refusals of credits and words, and the right
// totals after four threads, each with its own seat, used the frames. Helpers: `round` claims, shares and releases frames
// over any store, `work` does so 1,000 times.

ghost use Rattle.std.specs.Prelude.{◌≡◌, ◌<◌, IfOk, IfSome};
ghost use Rattle.std.specs.Thread.{IsSync};
ghost use Rattle.frame_store.specs.Laws.{IsSeatOf, KeepsSeats};
ghost use Rattle.frame_store.specs.View.{IsHeld};
ghost use Rattle.shared_frames.specs.SeatsOfTable.{FitsIn, view_of};

use crate::clients::{Refusal, shared_to_the_most};
use crate::rows::expect;
use frame_store::{FrameAccess, FrameSupply, NoFrame, PlainFrames, SharersFull};
use shared_frames::{SharedFrames, SharedSeat};
use std::sync::Wait;
use std::test::Fail;
use std::thread::{Threads, join};
use sv39_entry::FrameNo;

/// Reserves three frames, claims two of them and shares one, then releases and gives back all of it. Works over any store.
fn round<F: FrameSupply>(store: &mut F, seat: &mut F::Seat) -> Result<(), Refusal>
    requires fits { IsSeatOf F.invariant store.old seat.old }
    requires base { IsHeld (F.Seat.view seat.old) 0 }
    ensures keeps { KeepsSeats F.invariant store.old seat.old store.new seat.new }
    ensures base { IsHeld (F.Seat.view seat.new) 0 }
{
    store.reserve(seat, 3)?;
    let first = store.claim(seat);
    let second = store.claim(seat);
    store.share(seat, first)?;
    store.release(seat, first);
    store.release(seat, second);
    store.release(seat, first);
    store.give_back(seat, 1);
    Ok(())
}

/// Makes 1,000 rounds. Returns the seat, and whether each round succeeded.
fn work<R: Wait>(rt: &R, frames: &SharedFrames, mut seat: SharedSeat) -> (SharedSeat, bool)
    requires fits { FitsIn frames.now.table seat }
    requires base { IsHeld (view_of seat) 0 }
    ensures { FitsIn frames.now.table result.0 }
{
    let mut supply = frames.supply(rt);
    let mut all = true;
    for _ in 0..1000u32 {
        if round(&mut supply, &mut seat).is_err() {
            all = false;
        }
    }
    (seat, all)
}

/// Runs `work` on two threads, each with its own seat. Returns the two seats joined to one, and whether each round
/// succeeded.
fn work_both<R: Threads + Wait + Sync>(
    rt: &R,
    frames: &SharedFrames,
    one: SharedSeat,
    other: SharedSeat,
) -> (SharedSeat, bool)
    requires fits { FitsIn frames.now.table one × FitsIn frames.now.table other }
    requires base { IsHeld (view_of one) 0 × IsHeld (view_of other) 0 }
    ensures { FitsIn frames.now.table result.0 }
{
    let ((mut seat, all), (second, other_all)) = join(
        rt,
        || -> (SharedSeat, bool)
            requires { IsSync R.row × FitsIn frames.now.table one × IsHeld (view_of one) 0 }
            ensures { FitsIn frames.entry.now.table result.0 }
        { work(rt, frames, one) },
        || -> (SharedSeat, bool)
            requires { IsSync R.row × FitsIn frames.now.table other × IsHeld (view_of other) 0 }
            ensures { FitsIn frames.entry.now.table result.0 }
        { work(rt, frames, other) },
    );
    frames.access().join(&mut seat, second);
    (seat, all && other_all)
}

/// Takes one more reference of frame 0 and splits it off as a new seat; `SharersFull` if it is refused.
fn another<R: Wait>(
    rt: &R,
    frames: &SharedFrames,
    seat: &mut SharedSeat,
) -> Result<SharedSeat, SharersFull>
    requires fits { FitsIn frames.now.table seat.old }
    requires base { IsHeld (view_of seat.old) 0 }
    ensures fits { FitsIn frames.now.table seat.new × IfOk result (λ s. FitsIn frames.now.table s) }
    ensures base { IsHeld (view_of seat.new) 0 × IfOk result (λ s. IsHeld (view_of s) 0) }
{
    let mut supply = frames.supply(rt);
    supply.share(seat, FrameNo(0))?;
    Ok(supply.split(seat, &[FrameNo(0)]))
}

#[test]
fn four_threads_give_all_back(rt: HostRuntime) -> Result<(), Fail> {
    let (frames, mut first) = SharedFrames::new(rt.alloc(), 65)?;
    let second = another(&rt, &frames, &mut first)?;
    let third = another(&rt, &frames, &mut first)?;
    let fourth = another(&rt, &frames, &mut first)?;
    let ((mut seat, all), (other, other_all)) = join(
        &rt,
        || -> (SharedSeat, bool)
            requires { FitsIn frames.table first × FitsIn frames.table second × IsHeld (view_of first) 0 × IsHeld (view_of second) 0 }
            ensures { FitsIn frames.table result.0 }
        { work_both(&rt, &frames, first, second) },
        || -> (SharedSeat, bool)
            requires { FitsIn frames.table third × FitsIn frames.table fourth × IsHeld (view_of third) 0 × IsHeld (view_of fourth) 0 }
            ensures { FitsIn frames.table result.0 }
        { work_both(&rt, &frames, third, fourth) },
    );
    frames.access().join(&mut seat, other);
    expect(&rt, 0, (all, other_all), (true, true));
    let totals = frames.close(seat);
    let counts = (totals.free, totals.held, totals.trampoline);
    expect(&rt, 1, counts, (64, 1, 4));
    Ok(())
}

#[test]
fn rounds_at_both_stores(rt: HostRuntime) -> Result<(), Fail> {
    let (mut plain, mut plain_seat) = PlainFrames::new(rt.alloc(), 5)?;
    expect(&rt, 0, round(&mut plain, &mut plain_seat), Ok(()));
    let (frames, mut seat) = SharedFrames::new(rt.alloc(), 5)?;
    expect(&rt, 1, round(&mut frames.supply(&rt), &mut seat), Ok(()));
    let free = (plain.report().free, frames.close(seat).free);
    expect(&rt, 2, free, (4, 4));
    Ok(())
}

#[test]
fn refuses_what_is_reserved(rt: HostRuntime) -> Result<(), Fail> {
    let (frames, mut first) = SharedFrames::new(rt.alloc(), 5)?;
    let mut supply = frames.supply(&rt);
    let mut second = supply.split(&mut first, &[]);
    supply.reserve(&mut first, 3)?;
    expect(&rt, 0, supply.reserve(&mut second, 2), Err(NoFrame));
    supply.give_back(&mut first, 3);
    expect(&rt, 1, supply.reserve(&mut second, 2), Ok(()));
    Ok(())
}

#[test]
fn counts_to_65_535(rt: HostRuntime) -> Result<(), Fail> {
    let (frames, mut seat) = SharedFrames::new(rt.alloc(), 2)?;
    let counts = shared_to_the_most(&mut frames.supply(&rt), &mut seat)?;
    expect(&rt, 0, counts, (1, 65_534, 65_535));
    Ok(())
}

/// Claims a frame and stores `word` at its last index, 511. The frame is `None` if none could be reserved.
fn fill<R: Wait>(
    rt: &R,
    frames: &SharedFrames,
    mut seat: SharedSeat,
    word: u64,
) -> (SharedSeat, Option<FrameNo>)
    requires fits { FitsIn frames.now.table seat }
    requires base { IsHeld (view_of seat) 0 }
    ensures fits { FitsIn frames.now.table result.0 }
    ensures held { IfSome result.1 (λ f. IsHeld (view_of result.0) f.0) }
{
    let mut supply = frames.supply(rt);
    if supply.reserve(&mut seat, 1).is_err() {
        return (seat, None);
    }
    let frame = supply.claim(&mut seat);
    supply.store(&mut seat, frame, 511, word);
    (seat, Some(frame))
}

/// The word at index 511 of a frame that the seat holds.
fn last_word(frames: &SharedFrames, seat: &mut SharedSeat, frame: FrameNo) -> u64
    requires fits { FitsIn frames.now.table seat.old }
    requires held { IsHeld (view_of seat.old) frame.0 }
    ensures fits { FitsIn frames.now.table seat.new }
{
    frames.access().load(seat, frame, 511)
}

#[test]
fn hands_frames_over(rt: HostRuntime) -> Result<(), Fail> {
    let (frames, mut first) = SharedFrames::new(rt.alloc(), 8)?;
    let second = another(&rt, &frames, &mut first)?;
    let ((mut one, frame), (mut other, other_frame)) = join(
        &rt,
        || -> (SharedSeat, Option<FrameNo>)
            requires { FitsIn frames.table first × IsHeld (view_of first) 0 }
            ensures { FitsIn frames.table result.0 × IfSome result.1 (λ f. IsHeld (view_of result.0) f.0) }
        { fill(&rt, &frames, first, 7) },
        || -> (SharedSeat, Option<FrameNo>)
            requires { FitsIn frames.table second × IsHeld (view_of second) 0 }
            ensures { FitsIn frames.table result.0 × IfSome result.1 (λ f. IsHeld (view_of result.0) f.0) }
        { fill(&rt, &frames, second, 9) },
    );
    let (Some(frame), Some(other_frame)) = (frame, other_frame) else {
        panic!(rt; "there are free frames")
    };
    let (theirs, mine) = join(
        &rt,
        || -> u64
            requires { FitsIn frames.table other × IsHeld (view_of other) other_frame.0 }
        { last_word(&frames, &mut other, other_frame) },
        || -> u64
            requires { FitsIn frames.table one × IsHeld (view_of one) frame.0 }
        { last_word(&frames, &mut one, frame) },
    );
    expect(&rt, 0, (mine, theirs), (7, 9));
    Ok(())
}
