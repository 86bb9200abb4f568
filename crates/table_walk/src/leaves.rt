// `next_leaf_before`: enumerates the leaves below a root in ascending order of page, one leaf at each call: the first one in
// a range of pages, with its page.

ghost use Rattle.std.specs.FinMap.{get};
ghost use Rattle.std.specs.Prelude.{◌≡◌, ◌+◌, ◌*◌, ◌/◌, ◌^◌, ◌<◌, ◌≤◌, ℕ, Some};
ghost use Rattle.frame_store.specs.Laws.{IsSeatOf, KeepsSeats};
ghost use Rattle.frame_store.specs.View.{IsHeld};
ghost use Rattle.sv39_entry.specs.Schemes.{page_limit};
ghost use Rattle.sv39_entry.specs.declared.scheme.Scheme.{Scheme};
ghost use Rattle.table_walk.specs.TableChanges.{HasEntry, IsNextEntry, IsNextLeafBefore, IsTableAt, places};
ghost use Rattle.table_walk.specs.Tables.{HasTables, Tables};
ghost use Rattle.table_walk.specs.Places.{IsFirstLeafBefore};

use crate::tables::table_in;
use frame_store::{FrameAccess, FrameSeat};
use sv39_entry::{Entry, FrameNo, Scheme, Vpn};

/// Returns the first leaf at page `from` or after it, and before the page with number `end`, with its page; `None` if there
/// is none. Changes nothing. The seat must have the tables below `root`; `end` is at most 2^27 under Sv39, 2^36 under Sv48.
/// Pages are numbered by their indices alone. In the lower half of the addresses that is the page number; a page of the
/// upper half, which no process has, is returned without its upper bits.
/// Reads only tables that exist and have a page before `end`, and no table that the store knows to be empty.
#[inline(never)]
pub fn next_leaf_before<F: FrameAccess>(
    store: &mut F,
    seat: &mut F::Seat,
    scheme: Scheme,
    root: FrameNo,
    from: Vpn,
    end: u64,
) -> Option<(Vpn, Entry)>
    requires fits { IsSeatOf F.invariant store.old seat.old }
    requires held { (t : Tables) × HasTables scheme (F.Seat.view seat.old) root.0 t }
    requires low { end ≤ page_limit scheme }
    ensures leaf { (t : Tables) → HasTables scheme (F.Seat.view seat.old) root.0 t → IsNextLeafBefore scheme t from end result }
    ensures view { F.Seat.view seat.new ≡ F.Seat.view seat.old }
    ensures same { store.new ≡ store.old }
    ensures keeps { KeepsSeats F.invariant store.old seat.old store.new seat.new }
{
    let (number, word) = next_below(store, seat, root, scheme.top_level(), from.number(), end)?;
    if end <= number {
        return None;
    }
    Some((Vpn::new(number)?, Entry::from_word(word)))
}

/// `next_leaf_before` below one table, whose entries have level `level`, by places. At level 0 a place is an index; above it
/// each index has 512 times as many places as one of the level below. A leaf that is returned may lie at `end` or after it:
/// then there is none before `end`. No word is read after that of the index that has the last place before `end`.
#[cycle(leaves)]
fn next_below<F: FrameAccess>(
    store: &mut F,
    seat: &mut F::Seat,
    table: FrameNo,
    level: u32,
    from: u64,
    end: u64,
) -> Option<(u64, u64)>
    requires fits { IsSeatOf F.invariant store.old seat.old }
    requires low { level ≤ 3 }
    requires held { (s : Scheme) × (root k : ℕ) × (t : Tables) × HasTables s (F.Seat.view seat.old) root t × (get t.tables k ≡ Some table.0)
        × IsTableAt k level }
    ensures leaf { (s : Scheme) (root k : ℕ) (t : Tables) → HasTables s (F.Seat.view seat.old) root t → get t.tables k ≡ Some table.0
        → IsTableAt k level → IsFirstLeafBefore t k (places level) from end result }
    ensures view { F.Seat.view seat.new ≡ F.Seat.view seat.old }
    ensures same { store.new ≡ store.old }
    ensures keeps { KeepsSeats F.invariant store.old seat.old store.new seat.new }
{
    let width = index_places(level);
    let stop = end.min(512 * width);
    let mut at = from;
    'indices: while at < stop {
        let last = index_of(stop - 1, level) + 1;
        let (index, word) = next_entry(store, seat, table, level, index_of(at, level), last)?;
        let start = index as u64 * width;
        let place = at.saturating_sub(start);
        let next = next_at(store, seat, word, level, place, end - start);
        if let Some((found, leaf)) = next {
            return Some((start + found, leaf));
        }
        at = start + width;
    }
    None
}

/// `next_below` for one index of a table, by the word there. Places count from the first one of the index.
#[cycle(leaves)]
fn next_at<F: FrameAccess>(
    store: &mut F,
    seat: &mut F::Seat,
    word: u64,
    level: u32,
    from: u64,
    end: u64,
) -> Option<(u64, u64)>
    requires fits { IsSeatOf F.invariant store.old seat.old }
    requires low { level ≤ 3 }
    requires some { 0 < word }
    requires within { from < 512 ^ level }
    requires held { (s : Scheme) × (root k i : ℕ) × (t : Tables) × HasTables s (F.Seat.view seat.old) root t
        × HasEntry (F.Seat.view seat.old) t k level i word }
    ensures leaf { (s : Scheme) (root k i : ℕ) (t : Tables) → HasTables s (F.Seat.view seat.old) root t
        → HasEntry (F.Seat.view seat.old) t k level i word → IsFirstLeafBefore t (k * 512 + i) (512 ^ level) from end result }
    ensures view { F.Seat.view seat.new ≡ F.Seat.view seat.old }
    ensures same { store.new ≡ store.old }
    ensures keeps { KeepsSeats F.invariant store.old seat.old store.new seat.new }
{
    if level == 0 {
        return Some((0, word));
    }
    let next = table_in(word)?;
    next_below(store, seat, next, level - 1, from, end)
}

/// Returns a word of a table that is not 0, from index `first` up to, and without, `last`, with its index; `None` if none is
/// left. No word before it is a leaf or has one below it: above level 0, pointers to tables that the store knows to be empty
/// are passed over.
fn next_entry<F: FrameAccess>(
    store: &mut F,
    seat: &mut F::Seat,
    table: FrameNo,
    level: u32,
    first: usize,
    last: usize,
) -> Option<(usize, u64)>
    requires fits { IsSeatOf F.invariant store.old seat.old }
    requires held { IsHeld (F.Seat.view seat.old) table.0 }
    requires low { first ≤ last }
    requires in_page { last ≤ 512 }
    ensures word { IsNextEntry (F.Seat.view seat.old) table.0 level first last result }
    ensures view { F.Seat.view seat.new ≡ F.Seat.view seat.old }
    ensures same { store.new ≡ store.old }
    ensures keeps { KeepsSeats F.invariant store.old seat.old store.new seat.new }
{
    if level == 0 {
        return store.next_word(seat, table, first, last);
    }
    store.next_busy_word(seat, table, first, last)
}

/// Returns how many places each index of a table of this level has.
#[tactic(auto, using(std::proofs::lemmas::Nat::one_shl))]
fn index_places(level: u32) -> u64
    requires { level ≤ 3 }
    ensures value { result ≡ 512 ^ level }
    ensures some { 0 < result }
    ensures few { result ≤ 512 ^ 3 }
{
    1 << (9 * level)
}

/// Returns the index, in a table of this level, that has a place.
#[tactic(auto, using(crate::proofs::Next::nine_bits))]
fn index_of(place: u64, level: u32) -> usize
    requires low { level ≤ 3 }
    ensures { result ≡ place / 512 ^ level }
{
    (place >> (9 * level)) as usize
}
