// Crate-internal functions `reserve`, `claim` and `share` over shared frames: loops that try an atomic exchange until one
// succeeds or the call is refused (`NoFrame` of `reserve`, `SharersFull` of `share`; `claim` is never refused).

ghost use Rattle.std.specs.Prelude.{◌≡◌, ◌≢◌, ℕ, ◌+◌, ◌-◌, ◌<◌, ◌≤◌, ◌==◌, IfOk, IfErr};
ghost use Rattle.frame_store.specs.Laws.{IsDry};
ghost use Rattle.frame_store.specs.View.{IsHeld, claimed, read_full, references, shared, with_credits};
ghost use Rattle.shared_frames.specs.SeatsOfTable.{FitsIn, IsSized, view_of};

use crate::seat::SharedSeat;
use crate::steps;
use crate::table::Words;
use frame_store::{NoFrame, SharersFull};
use process_model::MOST_REFERENCES;
use std::sync::Wait;
use sv39_entry::FrameNo;

/// Reserves `count` credits for the seat, by one or several exchanges of the free count.
///
/// # Errors
/// `NoFrame`: the free count was read as 0 before all credits were reserved. Those that were are given back, so the seat's
/// references, known words and credits are unchanged (`IsDry`).
pub fn reserve<R: Wait>(
    rt: &R,
    table: &Words,
    seat: &mut SharedSeat,
    count: u64,
) -> Result<(), NoFrame>
    requires sized { IsSized table.now.table_id.words table.now.key }
    requires fits { FitsIn table.now.table_id seat.old }
    ensures fits { FitsIn table.now.table_id seat.new }
    ensures ok { IfOk result (λ _. view_of seat.new ≡ with_credits count (view_of seat.old)) }
    ensures err { IfErr result (λ _. IsDry count (view_of seat.old) (view_of seat.new)) }
{
    let mut got = 0;
    for _ in rt.forever() {
        if got == count {
            return Ok(());
        }
        let free = steps::load_free(table, seat);
        if free == 0 {
            break;
        }
        let part = free.min(count - got);
        if steps::try_reserve(table, seat, free, free - part) == free {
            got += part;
        }
    }
    steps::give_back(table, seat, got);
    Err(NoFrame)
}

/// Allocates a frame for one of the seat's credits, and returns its number. Tries frames from `first` on (from 0 on, if there
/// is no such frame), and from 0 again after the last, until it finds one of count 0. The seat is then its sole holder, with
/// no word known.
pub fn claim<R: Wait>(
    rt: &R,
    table: &Words,
    frames: usize,
    first: FrameNo,
    seat: &mut SharedSeat,
) -> FrameNo
    requires sized { IsSized table.now.table_id.words table.now.key }
    requires frames { frames ≡ table.now.key }
    requires fits { FitsIn table.now.table_id seat.old }
    requires anchored { IsHeld (view_of seat.old) 0 }
    requires credit { 0 < (view_of seat.old).credits }
    ensures fits { FitsIn table.now.table_id seat.new }
    ensures fresh { references (view_of seat.old) result.0 ≡ 0 }
    ensures view { view_of seat.new ≡ claimed result.0 (view_of seat.old) }
{
    let mut number = if usize::from(first.0) < frames {
        first.0
    } else {
        0
    };
    for _ in rt.forever() {
        let frame = FrameNo(number);
        if steps::seems_free(table, frame) && steps::try_claim(table, seat, frame) == 0 {
            return frame;
        }
        number += 1;
        if number as usize == frames {
            number = 0;
        }
    }
    unreachable!()
}

/// Takes one more reference to a held frame. The first exchange expects count 1, which most frames have when they are
/// shared.
///
/// # Errors
/// `SharersFull`: the frame's count was read as `MOST_REFERENCES`, which the seat's tallies record; nothing else of its view
/// changes.
pub fn share<R: Wait>(
    rt: &R,
    table: &Words,
    seat: &mut SharedSeat,
    frame: FrameNo,
) -> Result<(), SharersFull>
    requires sized { IsSized table.now.table_id.words table.now.key }
    requires fits { FitsIn table.now.table_id seat.old }
    requires held { IsHeld (view_of seat.old) frame.0 }
    ensures fits { FitsIn table.now.table_id seat.new }
    ensures ok { IfOk result (λ _. view_of seat.new ≡ shared frame.0 (view_of seat.old)) }
    ensures err { IfErr result (λ _. view_of seat.new ≡ read_full (view_of seat.old)) }
{
    let mut expected = 1;
    for _ in rt.forever() {
        let found = steps::try_share(table, seat, frame, expected);
        if found == expected {
            return Ok(());
        }
        if found == u64::from(MOST_REFERENCES) {
            return Err(SharersFull);
        }
        expected = found;
    }
    unreachable!()
}
