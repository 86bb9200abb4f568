// Crate-internal functions `split` and `join` over shared frames: a seat is split in two, or two seats become one; and the
// ghost types that name for the table how their views change. The table makes one atomic load for each of these.

ghost use Rattle.std.specs.Prelude.{◌≡◌, ℕ, List, [], map};
ghost use Rattle.frame_store.specs.Laws.{IsAnchored};
ghost use Rattle.frame_store.specs.View.{CanSplit, empty_view, joined, split_off};
ghost use Rattle.shared_frames.specs.SeatsOfTable.{FitsIn, IsSized, view_of};

use crate::seat::{Knowledge, SharedSeat};
use crate::table::Words;
use atomic_table::{Join, Split};
use std::marker::{Brand, PhantomData};
use sv39_entry::FrameNo;

/// Names the frames of a split for contracts. The caller's proof chooses them.
trait SplitList {
    ghost frames: { List ℕ };
}

impl SplitList for Brand {
    ghost frames = { [] };
}

struct SplitFrames<G> {
    going: PhantomData<G>,
}

impl<G: SplitList> Split<Knowledge> for SplitFrames<G> {
    ghost use Rattle.frame_store.specs.View.{empty_view, split_off};

    ghost left = { λ v. (split_off G.frames v (empty_view v.size)).0 };

    ghost right = { λ v. (split_off G.frames v (empty_view v.size)).1 };
}

struct JoinSeats;

impl Join<Knowledge> for JoinSeats {
    ghost use Rattle.frame_store.specs.View.{empty_view, joined};

    ghost both = { joined };

    ghost spent = { empty_view 0 };
}

fn split_as<G: SplitList>(table: &Words, seat: &mut SharedSeat, frames: &[FrameNo]) -> SharedSeat
    requires going { G.frames ≡ map (λ f. f.0) frames.now }
    requires sized { IsSized table.now.table_id.words table.now.key }
    requires fits { FitsIn table.now.table_id seat.old }
    requires held { CanSplit (map (λ f. f.0) frames.now) (view_of seat.old) }
    requires left_anchored { IsAnchored (split_off (map (λ f. f.0) frames.now) (view_of seat.old) (empty_view (view_of seat.old).size)).0 }
    requires right_anchored { IsAnchored (split_off (map (λ f. f.0) frames.now) (view_of seat.old) (empty_view (view_of seat.old).size)).1 }
    ensures fits { FitsIn table.now.table_id seat.new × FitsIn table.now.table_id result }
    ensures left { view_of seat.new ≡ (split_off (map (λ f. f.0) frames.now) (view_of seat.old) (empty_view (view_of seat.old).size)).0 }
    ensures right { view_of result ≡ (split_off (map (λ f. f.0) frames.now) (view_of seat.old) (empty_view (view_of seat.old).size)).1 }
{
    let _ = frames;
    SharedSeat {
        seat: table.split_seat::<SplitFrames<G>>(&mut seat.seat),
    }
}

/// Moves one reference to each listed frame from `seat` to a new seat, and returns the new seat (`FrameSupply::split`).
pub fn split(table: &Words, seat: &mut SharedSeat, frames: &[FrameNo]) -> SharedSeat
    requires sized { IsSized table.now.table_id.words table.now.key }
    requires fits { FitsIn table.now.table_id seat.old }
    requires held { CanSplit (map (λ f. f.0) frames.now) (view_of seat.old) }
    requires left_anchored { IsAnchored (split_off (map (λ f. f.0) frames.now) (view_of seat.old) (empty_view (view_of seat.old).size)).0 }
    requires right_anchored { IsAnchored (split_off (map (λ f. f.0) frames.now) (view_of seat.old) (empty_view (view_of seat.old).size)).1 }
    ensures fits { FitsIn table.now.table_id seat.new × FitsIn table.now.table_id result }
    ensures left { view_of seat.new ≡ (split_off (map (λ f. f.0) frames.now) (view_of seat.old) (empty_view (view_of seat.old).size)).0 }
    ensures right { view_of result ≡ (split_off (map (λ f. f.0) frames.now) (view_of seat.old) (empty_view (view_of seat.old).size)).1 }
{
    split_as::<Brand>(table, seat, frames)
}

/// Ends the seat `other`: its references, known words and credits are added to those of `seat` (`FrameAccess::join`).
pub fn join(table: &Words, seat: &mut SharedSeat, other: SharedSeat)
    requires sized { IsSized table.now.table_id.words table.now.key }
    requires fits { FitsIn table.now.table_id seat.old × FitsIn table.now.table_id other }
    ensures fits { FitsIn table.now.table_id seat.new }
    ensures view { view_of seat.new ≡ joined (view_of seat.old) (view_of other) }
{
    let SharedSeat { seat: other } = other;
    table.join_seat::<JoinSeats>(&mut seat.seat, other);
}
