// Crate-internal functions, the steps on the table of shared frames: load the free count, try to reserve, to claim or to
// share, see whether a frame seems free, give back, look, drop a reference, release, load a word, store a word. Each is one
// atomic operation, except `release` and `store_word`, which make one or two.

ghost use Rattle.std.specs.Prelude.{◌≡◌, ℕ, ◌+◌, ◌-◌, ◌*◌, ◌<◌, ◌≤◌, ◌==◌, cond, Some};
ghost use Rattle.frame_store.specs.Laws.{IsAnchored};
ghost use Rattle.frame_store.specs.View.{IsHeld, IsSole, known_word, references, claimed, looked, released, shared, with_credits, with_word, without_credits};
ghost use Rattle.shared_frames.specs.SeatsOfTable.{FitsIn, IsSized, view_of};
ghost use Rattle.shared_frames.specs.StepEffects.{let_go, saw_free, unshared};
ghost use Rattle.process_model.specs.declared.limits.TheConstants.{MOST_REFERENCES};

use crate::seat::SharedSeat;
use crate::step_kinds::{
    Claim, GiveBack, Learn, Load, LoadFree, Look, Release, Reserve, Share, Store,
};
use crate::table::Words;
use sv39_entry::FrameNo;

/// Words of the table per frame: its count, then its 512 words.
const FRAME_WORDS: usize = 513;

/// Loads the free count, and returns it. If it is 0, the seat's tallies record that, with the credits that the seat has.
pub fn load_free(table: &Words, seat: &mut SharedSeat) -> u64
    requires sized { IsSized table.now.table_id.words table.now.key }
    requires fits { FitsIn table.now.table_id seat.old }
    ensures fits { FitsIn table.now.table_id seat.new }
    ensures view { view_of seat.new ≡ saw_free result (view_of seat.old) }
{
    table.load::<LoadFree>(&mut seat.seat, 0)
}

/// Exchanges the free count for `new` if it is `old`, and returns the free count as it was. If that is `old`, the seat has
/// `old - new` more credits; otherwise its view is unchanged.
pub fn try_reserve(table: &Words, seat: &mut SharedSeat, old: u64, new: u64) -> u64
    requires sized { IsSized table.now.table_id.words table.now.key }
    requires fits { FitsIn table.now.table_id seat.old }
    requires less { new ≤ old }
    ensures fits { FitsIn table.now.table_id seat.new }
    ensures view { view_of seat.new ≡ cond (result == old) (with_credits (old - new) (view_of seat.old)) (view_of seat.old) }
{
    table.compare_exchange::<Reserve>(&mut seat.seat, 0, old, new)
}

/// Gives `count` of the seat's credits back: adds them to the free count.
pub fn give_back(table: &Words, seat: &mut SharedSeat, count: u64)
    requires sized { IsSized table.now.table_id.words table.now.key }
    requires fits { FitsIn table.now.table_id seat.old }
    requires credits { count ≤ (view_of seat.old).credits }
    ensures fits { FitsIn table.now.table_id seat.new }
    ensures view { view_of seat.new ≡ without_credits count (view_of seat.old) }
{
    table.fetch_add::<GiveBack>(&mut seat.seat, 0, count);
}

/// Whether the frame's count was just 0. Another thread may have taken the frame since, so this only tells which frames are
/// worth an exchange, which costs many loads.
pub fn seems_free(table: &Words, frame: FrameNo) -> bool
    requires sized { IsSized table.now.table_id.words table.now.key }
    requires inside { frame.0 < table.now.key }
{
    table.peek(FRAME_WORDS * frame.0 as usize + 1) == 0
}

/// Exchanges the frame's count for 1 if it is 0, and returns the count as it was. If that is 0, a credit is spent and the
/// seat is the frame's sole holder, with no word known; otherwise its view is unchanged.
pub fn try_claim(table: &Words, seat: &mut SharedSeat, frame: FrameNo) -> u64
    requires sized { IsSized table.now.table_id.words table.now.key }
    requires fits { FitsIn table.now.table_id seat.old }
    requires inside { frame.0 < table.now.key }
    requires anchored { IsHeld (view_of seat.old) 0 }
    requires credit { 0 < (view_of seat.old).credits }
    ensures fits { FitsIn table.now.table_id seat.new }
    ensures view { view_of seat.new ≡ cond (result == 0) (claimed frame.0 (view_of seat.old)) (view_of seat.old) }
    ensures fresh { result ≡ 0 → references (view_of seat.old) frame.0 ≡ 0 }
{
    table.compare_exchange::<Claim>(&mut seat.seat, FRAME_WORDS * frame.0 as usize + 1, 0, 1)
}

/// Exchanges the count of a held frame for `old + 1` if it is `old`, and returns the count as it was, at most
/// `MOST_REFERENCES`. If that is `old`, the seat has one more reference; otherwise its view is unchanged, except that its
/// tallies record a count of `MOST_REFERENCES`.
pub fn try_share(table: &Words, seat: &mut SharedSeat, frame: FrameNo, old: u64) -> u64
    requires sized { IsSized table.now.table_id.words table.now.key }
    requires fits { FitsIn table.now.table_id seat.old }
    requires held { IsHeld (view_of seat.old) frame.0 }
    requires few { old < MOST_REFERENCES }
    ensures fits { FitsIn table.now.table_id seat.new }
    ensures view { view_of seat.new ≡ cond (result == old) (shared frame.0 (view_of seat.old)) (unshared result (view_of seat.old)) }
    ensures few { result ≤ MOST_REFERENCES }
{
    table.compare_exchange::<Share>(
        &mut seat.seat,
        FRAME_WORDS * frame.0 as usize + 1,
        old,
        old + 1,
    )
}

/// Loads the count of a held frame, 1 to `MOST_REFERENCES`, and returns it; the seat's tallies record it. If it is 1, the
/// seat is known to be the sole holder.
pub fn look(table: &Words, seat: &mut SharedSeat, frame: FrameNo) -> u64
    requires sized { IsSized table.now.table_id.words table.now.key }
    requires fits { FitsIn table.now.table_id seat.old }
    requires held { IsHeld (view_of seat.old) frame.0 }
    ensures fits { FitsIn table.now.table_id seat.new }
    ensures view { view_of seat.new ≡ looked frame.0 result (view_of seat.old) }
    ensures some { 0 < result }
    ensures few { result ≤ MOST_REFERENCES }
{
    table.load::<Look>(&mut seat.seat, FRAME_WORDS * frame.0 as usize + 1)
}

/// Drops one reference to a held frame, and returns the frame's count before. If that is 1, the seat has a credit for the
/// frame.
pub fn drop_reference(table: &Words, seat: &mut SharedSeat, frame: FrameNo) -> u64
    requires sized { IsSized table.now.table_id.words table.now.key }
    requires fits { FitsIn table.now.table_id seat.old }
    requires held { IsHeld (view_of seat.old) frame.0 }
    requires anchored { IsAnchored (released frame.0 (view_of seat.old)) }
    ensures fits { FitsIn table.now.table_id seat.new }
    ensures view { view_of seat.new ≡ let_go frame.0 result (view_of seat.old) }
{
    table.fetch_sub::<Release>(&mut seat.seat, FRAME_WORDS * frame.0 as usize + 1, 1)
}

/// Drops one reference to a held frame. If it was the frame's last, the frame becomes free by a second step; between the two
/// it is not free, since the seat has a credit for it. Returns whether it was the last; no clause promises that.
pub fn release(table: &Words, seat: &mut SharedSeat, frame: FrameNo) -> bool
    requires sized { IsSized table.now.table_id.words table.now.key }
    requires fits { FitsIn table.now.table_id seat.old }
    requires held { IsHeld (view_of seat.old) frame.0 }
    requires anchored { IsAnchored (released frame.0 (view_of seat.old)) }
    ensures fits { FitsIn table.now.table_id seat.new }
    ensures view { view_of seat.new ≡ released frame.0 (view_of seat.old) }
{
    let last = drop_reference(table, seat, frame) == 1;
    if last {
        give_back(table, seat, 1);
    }
    last
}

/// Loads a word of a held frame, and returns it. If the seat knows that word, the result is this word.
pub fn load_word(table: &Words, seat: &mut SharedSeat, frame: FrameNo, index: usize) -> u64
    requires sized { IsSized table.now.table_id.words table.now.key }
    requires fits { FitsIn table.now.table_id seat.old }
    requires held { IsHeld (view_of seat.old) frame.0 }
    requires in_page { index < 512 }
    ensures fits { FitsIn table.now.table_id seat.new }
    ensures view { view_of seat.new ≡ (view_of seat.old) }
    ensures known { (w : ℕ) → known_word (view_of seat.old) frame.0 index ≡ Some w → result ≡ w }
{
    table.load::<Load>(&mut seat.seat, FRAME_WORDS * frame.0 as usize + 2 + index)
}

/// Loads a word of a frame of which the seat is the sole holder, and returns it. The seat knows it then.
pub fn learn_word(table: &Words, seat: &mut SharedSeat, frame: FrameNo, index: usize) -> u64
    requires sized { IsSized table.now.table_id.words table.now.key }
    requires fits { FitsIn table.now.table_id seat.old }
    requires sole { IsSole (view_of seat.old) frame.0 }
    requires in_page { index < 512 }
    ensures fits { FitsIn table.now.table_id seat.new }
    ensures view { view_of seat.new ≡ with_word frame.0 index result (view_of seat.old) }
{
    table.load::<Learn>(&mut seat.seat, FRAME_WORDS * frame.0 as usize + 2 + index)
}

/// Stores a word of a frame of which the seat is the sole holder. The seat knows it then.
fn put_word(table: &Words, seat: &mut SharedSeat, frame: FrameNo, index: usize, value: u64)
    requires sized { IsSized table.now.table_id.words table.now.key }
    requires fits { FitsIn table.now.table_id seat.old }
    requires sole { IsSole (view_of seat.old) frame.0 }
    requires in_page { index < 512 }
    ensures fits { FitsIn table.now.table_id seat.new }
    ensures view { view_of seat.new ≡ with_word frame.0 index value (view_of seat.old) }
{
    table.store::<Store>(
        &mut seat.seat,
        FRAME_WORDS * frame.0 as usize + 2 + index,
        value,
    );
}

/// Stores a word of a frame of which the seat is the sole holder, but only if it differs from the word there: a store that
/// all threads see at once costs many loads, and most words of a frame that is being cleared are 0 already.
pub fn store_word(table: &Words, seat: &mut SharedSeat, frame: FrameNo, index: usize, value: u64)
    requires sized { IsSized table.now.table_id.words table.now.key }
    requires fits { FitsIn table.now.table_id seat.old }
    requires sole { IsSole (view_of seat.old) frame.0 }
    requires in_page { index < 512 }
    ensures fits { FitsIn table.now.table_id seat.new }
    ensures view { view_of seat.new ≡ with_word frame.0 index value (view_of seat.old) }
{
    if learn_word(table, seat, frame, index) != value {
        put_word(table, seat, frame, index, value);
    }
}
