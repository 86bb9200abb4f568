// `begun`: starts the process of a story (test case) beside a second seat, the keeper, which reserves frames so that few are
// left and takes references of frame 0. `reserved_all`: reserves, and so counts, the free frames.

ghost use Rattle.std.specs.Prelude.{◌∷◌, IfOk, List};
ghost use Rattle.frame_store.specs.Laws.{IsSeatOf, KeepsSeats};
ghost use Rattle.frame_store.specs.View.{IsHeld};
ghost use Rattle.address_space.specs.Agreement.{body_of, IsAlive};

use address_space::Space;
use exec_segments::{Image, start};
use frame_store::{FrameSeat, FrameSupply, NoFrame, SharersFull, opened_seat};
use std::test::Fail;
use sv39_entry::FrameNo;

/// Takes `times` more references of frame 0 for the keeper. `SharersFull` at the first that is refused.
fn share_frame_zero<S: FrameSeat, F: FrameSupply<Seat = S>>(
    store: &mut F,
    keeper: &mut S,
    times: usize,
) -> Result<(), SharersFull>
    requires fits { IsSeatOf F.invariant store.old keeper.old }
    requires anchored { IsHeld (S.view keeper.old) 0 }
    ensures anchored { IsHeld (S.view keeper.new) 0 }
    ensures keeps { KeepsSeats F.invariant store.old keeper.old store.new keeper.new }
{
    'times: for _ in 0..times {
        store.share(keeper, FrameNo(0))?;
    }
    Ok(())
}

/// Reserves all free frames for the keeper, at most 256, one by one. Returns how many that were.
pub(crate) fn reserved_all<S: FrameSeat, F: FrameSupply<Seat = S>>(
    store: &mut F,
    keeper: &mut S,
) -> usize
    requires fits { IsSeatOf F.invariant store.old keeper.old }
    ensures keeps { KeepsSeats F.invariant store.old keeper.old store.new keeper.new }
{
    'frames: for count in 0..256 {
        if store.reserve(keeper, 1).is_err() {
            return count;
        }
    }
    256
}

/// Reserves `reserved` frames and takes `sharers` references of frame 0 for the keeper. Then opens a seat and starts a
/// process of the image with it.
///
/// # Errors
/// `Fail`: too few frames are free for the keeper or for the start, or frame 0 has no room for one more reference.
pub(crate) fn begun<S: FrameSeat + Drop, F: FrameSupply<Seat = S>>(
    store: &mut F,
    keeper: &mut S,
    image: &Image,
    reserved: usize,
    sharers: usize,
) -> Result<Space<S>, Fail>
    requires fits { IsSeatOf F.invariant store.old keeper.old }
    requires anchored { IsHeld (S.view keeper.old) 0 }
    ensures alive { IfOk result (λ space. IsAlive (body_of S.view space)) }
    ensures keeps { IfOk result (λ space. (others : List S) → F.invariant store.old (keeper.old ∷ others)
        → F.invariant store.new (space.seat ∷ keeper.new ∷ others)) }
{
    store.reserve(keeper, reserved)?;
    share_frame_zero(store, keeper, sharers)?;
    let seat = opened_seat(store, keeper)?;
    match start(store, seat, image) {
        Ok(space) => Ok(space),
        Err((NoFrame, _)) => Err(Fail::from("too few frames to begin with")),
    }
}
