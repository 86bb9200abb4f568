// The kernel's seat before and after the processes of a run on threads. `take_kernel_frames`: reserves and claims the
// kernel's frames from the frames that threads share. `reserve_user_frames`: when all processes have ended, reserves all
// others, once no other seat holds a frame. Both wait until enough are free.

ghost use Rattle.std.specs.Prelude.{◌≡◌, ◌≤◌};
ghost use Rattle.frame_store.specs.View.{IsHeld, IsSole, opening_view};
ghost use Rattle.shared_frames.specs.SeatsOfTable.{FitsIn, view_of};
ghost use Rattle.audit_player.specs.KernelFrames.{GainsCredits, HoldsOnce, KeepsReferences};

use frame_store::{FrameAccess, FrameSupply, NoFrame};
use shared_frames::{SharedFrames, SharedSeat, SharedSupply};
use std::sync::Wait;
use std::thread;
use sv39_entry::FrameNo;

/// Takes the kernel's frames: afterwards its seat has one reference to each of `count` frames and no credit. One of them is
/// frame 0, the trampoline's; `seat` must be the first seat of `frames`, which holds frame 0 and nothing else, and `count`
/// at least 1. Waits until enough frames are free.
pub fn take_kernel_frames<R: Wait>(
    rt: &R,
    frames: &SharedFrames,
    seat: &mut SharedSeat,
    count: usize,
)
    requires fits { FitsIn frames.now.table seat.old }
    requires opening { view_of seat.old ≡ opening_view frames.now.frames }
    requires some { 1 ≤ count }
    ensures fits { FitsIn frames.now.table seat.new }
    ensures holds { HoldsOnce count 0 (view_of seat.new) }
{
    let mut store = frames.supply(rt);
    reserve(rt, &mut store, seat, count - 1);
    'taking: for _ in 1..count {
        store.claim(seat);
    }
}

/// Reserves `count` frames for the seat, which must hold frame 0, the trampoline's, after it was found to be the sole holder
/// of frame 0. If they are all frames that the seat does not hold, then no other seat holds a frame or has a credit. Waits
/// until both succeed: at once, if all other seats have given back what they had.
pub fn reserve_user_frames<R: Wait>(
    rt: &R,
    frames: &SharedFrames,
    seat: &mut SharedSeat,
    count: usize,
)
    requires fits { FitsIn frames.now.table seat.old }
    requires anchored { IsHeld (view_of seat.old) 0 }
    ensures fits { FitsIn frames.now.table seat.new }
    ensures keeps { KeepsReferences count (view_of seat.old) (view_of seat.new) }
    ensures sole { IsSole (view_of seat.new) 0 }
{
    let mut store = frames.supply(rt);
    look_until_sole(rt, &mut store, seat);
    reserve(rt, &mut store, seat, count);
}

/// Looks at the count of frame 0, which the seat must hold, until it is 1: the seat is then known to be the sole holder.
fn look_until_sole<R: Wait>(rt: &R, store: &mut SharedSupply<'_, R>, seat: &mut SharedSeat)
    requires fits { FitsIn store.old seat.old }
    requires anchored { IsHeld (view_of seat.old) 0 }
    ensures store { store.new ≡ store.old }
    ensures fits { FitsIn store.old seat.new }
    ensures keeps { KeepsReferences 0 (view_of seat.old) (view_of seat.new) }
    ensures sole { IsSole (view_of seat.new) 0 }
{
    'looking: for _ in rt.forever() {
        if store.look(seat, FrameNo(0)) == 1 {
            return;
        }
        thread::yield_now();
    }
}

/// Reserves `count` frames for the seat, once enough are free.
fn reserve<R: Wait>(rt: &R, store: &mut SharedSupply<'_, R>, seat: &mut SharedSeat, count: usize)
    requires fits { FitsIn store.old seat.old }
    ensures store { store.new ≡ store.old }
    ensures fits { FitsIn store.old seat.new }
    ensures gains { GainsCredits count (view_of seat.old) (view_of seat.new) }
{
    'trying: for _ in rt.forever() {
        let Err(NoFrame) = store.reserve(seat, count) else {
            return;
        };
    }
}
