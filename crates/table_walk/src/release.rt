// `release_tables`: releases the frames of all page tables below a root, and the root's, at the end of an address space,
// when the tables have no leaf any more.

ghost use Rattle.std.specs.FinMap.{get};
ghost use Rattle.std.specs.Prelude.{◌≡◌, ◌+◌, ◌*◌, ◌<◌, ◌≤◌, ℕ, None, Some};
ghost use Rattle.frame_store.specs.Laws.{IsSeatOf, KeepsSeats};
ghost use Rattle.frame_store.specs.NextWord.{AreZeros};
ghost use Rattle.frame_store.specs.View.{hold_of, IsHeld, not_held};
ghost use Rattle.sv39_entry.specs.declared.scheme.Scheme.{Scheme};
ghost use Rattle.table_walk.specs.TableChanges.{IsTableAt};
ghost use Rattle.table_walk.specs.Tables.{HasTables, Tables};
ghost use Rattle.table_walk.specs.TableRelease.{AreLast, ReleasesTables, SameTallies};

use crate::tables::child;
use frame_store::{FrameAccess, FrameSeat};
use sv39_entry::{FrameNo, Scheme};

/// Releases the frames of the tables below a root, the root's last. The tables must have no leaf, and the seat must hold each
/// of their frames once, and frame 0 too, which is none of them. The seat then holds none of their frames; it keeps what it
/// has of other frames, and its credits. Cannot fail.
pub fn release_tables<F: FrameAccess>(
    store: &mut F,
    seat: &mut F::Seat,
    scheme: Scheme,
    root: FrameNo,
)
    requires fits { IsSeatOf F.invariant store.old seat.old }
    requires bare { (t : Tables) × HasTables scheme (F.Seat.view seat.old) root.0 t × AreLast (F.Seat.view seat.old) t }
    ensures gone { (t : Tables) → HasTables scheme (F.Seat.view seat.old) root.0 t → (k f : ℕ) → get t.tables k ≡ Some f
        → hold_of (F.Seat.view seat.new) f ≡ not_held }
    ensures others { (t : Tables) → HasTables scheme (F.Seat.view seat.old) root.0 t → (f : ℕ) → ((k : ℕ) → get t.tables k ≡ Some f → ⊥)
        → hold_of (F.Seat.view seat.new) f ≡ hold_of (F.Seat.view seat.old) f }
    ensures tallies { SameTallies (F.Seat.view seat.old) (F.Seat.view seat.new) }
    ensures keeps { KeepsSeats F.invariant store.old seat.old store.new seat.new }
    ensures free { F.alone → F.free store.old ≤ F.free store.new }
{
    release_below(store, seat, root, scheme.top_level());
    store.release(seat, root);
}

/// Releases the tables below `table`, whose entries have level `level`, and clears the pointers to them. The table itself
/// stays.
#[cycle(release)]
fn release_below<F: FrameAccess>(store: &mut F, seat: &mut F::Seat, table: FrameNo, level: u32)
    requires fits { IsSeatOf F.invariant store.old seat.old }
    requires low { level ≤ 3 }
    requires bare { (s : Scheme) × (root k : ℕ) × (t : Tables) × HasTables s (F.Seat.view seat.old) root t
        × AreLast (F.Seat.view seat.old) t × (get t.tables k ≡ Some table.0) × IsTableAt k level }
    ensures below { (s : Scheme) (root k : ℕ) (t : Tables) → HasTables s (F.Seat.view seat.old) root t → AreLast (F.Seat.view seat.old) t
        → get t.tables k ≡ Some table.0 → IsTableAt k level → (u : Tables)
        × ReleasesTables s (F.Seat.view seat.old) (F.Seat.view seat.new) root k t u × ((i : ℕ) → i < 512 → get u.tables (k * 512 + i) ≡ None) }
    ensures keeps { KeepsSeats F.invariant store.old seat.old store.new seat.new }
    ensures free { F.alone → F.free store.old ≤ F.free store.new }
{
    if level == 0 {
        return;
    }
    let mut index = next_entry(store, seat, table, 0);
    'indices: while index < 512 {
        release_at(store, seat, table, level, index);
        index = next_entry(store, seat, table, index + 1);
    }
}

/// Releases the table at an index of `table` and those below it, and clears the pointer to it. Does nothing if there is
/// none.
#[cycle(release)]
fn release_at<F: FrameAccess>(
    store: &mut F,
    seat: &mut F::Seat,
    table: FrameNo,
    level: u32,
    index: usize,
)
    requires fits { IsSeatOf F.invariant store.old seat.old }
    requires low { level ≤ 3 }
    requires above { 0 < level }
    requires in_table { index < 512 }
    requires bare { (s : Scheme) × (root k : ℕ) × (t : Tables) × HasTables s (F.Seat.view seat.old) root t
        × AreLast (F.Seat.view seat.old) t × (get t.tables k ≡ Some table.0) × IsTableAt k level }
    ensures here { (s : Scheme) (root k : ℕ) (t : Tables) → HasTables s (F.Seat.view seat.old) root t → AreLast (F.Seat.view seat.old) t
        → get t.tables k ≡ Some table.0 → IsTableAt k level → (u : Tables)
        × ReleasesTables s (F.Seat.view seat.old) (F.Seat.view seat.new) root k t u × (get u.tables (k * 512 + index) ≡ None) }
    ensures keeps { KeepsSeats F.invariant store.old seat.old store.new seat.new }
    ensures free { F.alone → F.free store.old ≤ F.free store.new }
{
    if let Some(next) = child(store, seat, table, index) {
        release_below(store, seat, next, level - 1);
        store.store(seat, table, index, 0);
        store.release(seat, next);
    }
}

/// Returns the first index of a table, from `first` on, whose word is not 0; 512 if there is none.
fn next_entry<F: FrameAccess>(
    store: &mut F,
    seat: &mut F::Seat,
    table: FrameNo,
    first: usize,
) -> usize
    requires fits { IsSeatOf F.invariant store.old seat.old }
    requires held { IsHeld (F.Seat.view seat.old) table.0 }
    requires low { first ≤ 512 }
    ensures from { first ≤ result }
    ensures low { result ≤ 512 }
    ensures zeros { AreZeros (F.Seat.view seat.old) table.0 first result }
    ensures view { F.Seat.view seat.new ≡ F.Seat.view seat.old }
    ensures same { store.new ≡ store.old }
    ensures keeps { KeepsSeats F.invariant store.old seat.old store.new seat.new }
{
    let Some((index, _)) = store.next_word(seat, table, first, 512) else {
        return 512;
    };
    index
}
