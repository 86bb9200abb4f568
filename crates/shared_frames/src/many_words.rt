// Crate-internal functions `next_word`, `clear` and `copy`: calls on many words of one frame, each word by one atomic
// operation or two. Words are taken in groups of eight, copied ones in groups of four. The compiler unrolls the loop of a
// group: between two atomic operations it keeps nothing that another thread might change, so a loop's own work would cost as
// much as the words.

ghost use Rattle.std.specs.Prelude.{◌≡◌, ◌≢◌, ℕ, ◌+◌, ◌-◌, ◌≤◌, true};
ghost use Rattle.frame_store.specs.NextWord.{AreZeros, IsNextWord};
ghost use Rattle.frame_store.specs.View.{AllKnown, IsHeld, IsSole, View, known_word, with_many, words_known};
ghost use Rattle.shared_frames.specs.SeatsOfTable.{FitsIn, IsSized, view_of};

use crate::seat::SharedSeat;
use crate::steps::{learn_word, load_word, store_word};
use crate::table::Words;
use sv39_entry::FrameNo;

/// Words in a group.
const GROUP: usize = 8;

/// Words in a group of a copy: the words of both frames are kept until they are compared, and there are few registers.
const COPY_GROUP: usize = 4;

/// Whether the eight words of a held frame from `index` on were all 0 when they were loaded.
#[inline(always)]
fn are_zeros(table: &Words, seat: &mut SharedSeat, frame: FrameNo, index: usize) -> bool
    requires sized { IsSized table.now.table_id.words table.now.key }
    requires fits { FitsIn table.now.table_id seat.old }
    requires held { IsHeld (view_of seat.old) frame.0 }
    requires in_page { index + 8 ≤ 512 }
    ensures fits { FitsIn table.now.table_id seat.new }
    ensures view { view_of seat.new ≡ view_of seat.old }
    ensures zeros { result ≡ true → AreZeros (view_of seat.old) frame.0 index (index + 8) }
{
    let mut zeros = true;
    'words: for place in 0..GROUP {
        let word = load_word(table, seat, frame, index + place);
        zeros = (word == 0) & zeros;
    }
    zeros
}

/// Returns the first word of a held frame that is not 0, from index `first` on and before `last`, with its index; `None` if
/// there is none. Words are tried one by one.
fn next_one(
    table: &Words,
    seat: &mut SharedSeat,
    frame: FrameNo,
    first: usize,
    last: usize,
) -> Option<(usize, u64)>
    requires sized { IsSized table.now.table_id.words table.now.key }
    requires fits { FitsIn table.now.table_id seat.old }
    requires held { IsHeld (view_of seat.old) frame.0 }
    requires low { first ≤ last }
    requires in_page { last ≤ 512 }
    ensures fits { FitsIn table.now.table_id seat.new }
    ensures view { view_of seat.new ≡ view_of seat.old }
    ensures word { IsNextWord (view_of seat.old) frame.0 first last result }
{
    'words: for index in first..last {
        let word = load_word(table, seat, frame, index);
        if word != 0 {
            return Some((index, word));
        }
    }
    None
}

/// Returns the first word of a held frame that is not 0, from index `first` on and before `last`, with its index; `None` if
/// there is none. Of a word that the seat does not know, nothing is promised but that it is not 0 if it is returned.
pub fn next_word(
    table: &Words,
    seat: &mut SharedSeat,
    frame: FrameNo,
    first: usize,
    last: usize,
) -> Option<(usize, u64)>
    requires sized { IsSized table.now.table_id.words table.now.key }
    requires fits { FitsIn table.now.table_id seat.old }
    requires held { IsHeld (view_of seat.old) frame.0 }
    requires low { first ≤ last }
    requires in_page { last ≤ 512 }
    ensures fits { FitsIn table.now.table_id seat.new }
    ensures view { view_of seat.new ≡ view_of seat.old }
    ensures word { IsNextWord (view_of seat.old) frame.0 first last result }
{
    let mut index = first;
    'groups: while last - index >= GROUP && are_zeros(table, seat, frame, index) {
        index += GROUP;
    }
    next_one(table, seat, frame, index, last)
}

/// Zeroes `count` words from `index` on of a frame of which the seat is the sole holder.
#[inline(always)]
fn clear_some(table: &Words, seat: &mut SharedSeat, frame: FrameNo, index: usize, count: usize)
    requires sized { IsSized table.now.table_id.words table.now.key }
    requires fits { FitsIn table.now.table_id seat.old }
    requires sole { IsSole (view_of seat.old) frame.0 }
    requires in_page { index + count ≤ 512 }
    ensures fits { FitsIn table.now.table_id seat.new }
    ensures sole { IsSole (view_of seat.new) frame.0 }
    ensures view { (v : View) (first n : ℕ) → index ≡ first + n → view_of seat.old ≡ with_many frame.0 first n (λ _. 0) v
        → view_of seat.new ≡ with_many frame.0 first (n + count) (λ _. 0) v }
{
    'places: for place in 0..count {
        store_word(table, seat, frame, index + place, 0);
    }
}

/// Zeroes the eight words from `index` on of a frame of which the seat is the sole holder. They are loaded first, and tested
/// together: most groups of a frame that is being cleared are zeros already.
#[inline(always)]
fn clear_group(table: &Words, seat: &mut SharedSeat, frame: FrameNo, index: usize)
    requires sized { IsSized table.now.table_id.words table.now.key }
    requires fits { FitsIn table.now.table_id seat.old }
    requires sole { IsSole (view_of seat.old) frame.0 }
    requires in_page { index + 8 ≤ 512 }
    ensures fits { FitsIn table.now.table_id seat.new }
    ensures sole { IsSole (view_of seat.new) frame.0 }
    ensures view { (v : View) (first n : ℕ) → index ≡ first + n → view_of seat.old ≡ with_many frame.0 first n (λ _. 0) v
        → view_of seat.new ≡ with_many frame.0 first (n + 8) (λ _. 0) v }
{
    let mut zeros = true;
    'places: for place in 0..GROUP {
        let word = learn_word(table, seat, frame, index + place);
        zeros = (word == 0) & zeros;
    }
    if !zeros {
        clear_some(table, seat, frame, index, GROUP);
    }
}

/// Zeroes the words, from index `first` on, of a frame of which the seat is the sole holder. The seat knows them then.
pub fn clear(table: &Words, seat: &mut SharedSeat, frame: FrameNo, first: usize)
    requires sized { IsSized table.now.table_id.words table.now.key }
    requires fits { FitsIn table.now.table_id seat.old }
    requires sole { IsSole (view_of seat.old) frame.0 }
    requires in_page { first ≤ 512 }
    ensures fits { FitsIn table.now.table_id seat.new }
    ensures view { view_of seat.new ≡ with_many frame.0 first (512 - first) (λ _. 0) (view_of seat.old) }
{
    let mut index = first;
    'groups: while 512 - index >= GROUP {
        clear_group(table, seat, frame, index);
        index += GROUP;
    }
    clear_some(table, seat, frame, index, 512 - index);
}

/// Copies the four words from `index` on of the held frame `from`, which the seat must know, to another frame `to`, of which
/// the seat is the sole holder, one by one. The seat may know other words of `to` before (`u`).
#[inline(always)]
fn copy_some(table: &Words, seat: &mut SharedSeat, from: FrameNo, to: FrameNo, index: usize)
    requires sized { IsSized table.now.table_id.words table.now.key }
    requires fits { FitsIn table.now.table_id seat.old }
    requires held { IsHeld (view_of seat.old) from.0 }
    requires sole { IsSole (view_of seat.old) to.0 }
    requires apart { from.0 ≢ to.0 }
    requires in_page { index + 4 ≤ 512 }
    ensures fits { FitsIn table.now.table_id seat.new }
    ensures held { IsHeld (view_of seat.new) from.0 }
    ensures sole { IsSole (view_of seat.new) to.0 }
    ensures view { (v u : View) → AllKnown v from.0 → ((i : ℕ) → known_word u from.0 i ≡ known_word v from.0 i) → view_of seat.old ≡ u
        → view_of seat.new ≡ with_many to.0 index 4 (words_known v from.0) u }
{
    'places: for place in 0..COPY_GROUP {
        let word = load_word(table, seat, from, index + place);
        store_word(table, seat, to, index + place, word);
    }
}

/// Copies the four words from `index` on of the held frame `from`, which the seat must know, to another frame `to`, of which
/// the seat is the sole holder. Both are loaded first, and compared together: most groups of two frames are zeros in both.
#[inline(always)]
fn copy_group(table: &Words, seat: &mut SharedSeat, from: FrameNo, to: FrameNo, index: usize)
    requires sized { IsSized table.now.table_id.words table.now.key }
    requires fits { FitsIn table.now.table_id seat.old }
    requires held { IsHeld (view_of seat.old) from.0 }
    requires sole { IsSole (view_of seat.old) to.0 }
    requires apart { from.0 ≢ to.0 }
    requires in_page { index + 4 ≤ 512 }
    ensures fits { FitsIn table.now.table_id seat.new }
    ensures held { IsHeld (view_of seat.new) from.0 }
    ensures sole { IsSole (view_of seat.new) to.0 }
    ensures view { (v : View) → AllKnown v from.0 → view_of seat.old ≡ with_many to.0 0 index (words_known v from.0) v
        → view_of seat.new ≡ with_many to.0 0 (index + 4) (words_known v from.0) v }
{
    let mut same = true;
    'places: for place in 0..COPY_GROUP {
        let word = load_word(table, seat, from, index + place);
        let there = learn_word(table, seat, to, index + place);
        same = (word == there) & same;
    }
    if !same {
        copy_some(table, seat, from, to, index);
    }
}

/// Copies all words of the held frame `from`, which the seat must know, to another frame `to`, of which the seat is the sole
/// holder. The seat knows the words of `to` then.
pub fn copy(table: &Words, seat: &mut SharedSeat, from: FrameNo, to: FrameNo)
    requires sized { IsSized table.now.table_id.words table.now.key }
    requires fits { FitsIn table.now.table_id seat.old }
    requires held { IsHeld (view_of seat.old) from.0 }
    requires known { AllKnown (view_of seat.old) from.0 }
    requires sole { IsSole (view_of seat.old) to.0 }
    requires apart { from.0 ≢ to.0 }
    ensures fits { FitsIn table.now.table_id seat.new }
    ensures view { view_of seat.new ≡ with_many to.0 0 512 (words_known (view_of seat.old) from.0) (view_of seat.old) }
{
    'groups: for group in 0..128 {
        copy_group(table, seat, from, to, COPY_GROUP * group);
    }
}
