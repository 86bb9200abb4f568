// Makes new page tables of frames that the seat reserved: one empty table, which can be a root (`new_table`), and those that
// are missing on the way to a page (`grown_table`).

ghost use Rattle.std.specs.FinMap.{get};
ghost use Rattle.std.specs.Prelude.{◌≡◌, ◌<◌, ◌≤◌, ℕ, Some};
ghost use Rattle.frame_store.specs.Laws.{IsSeatOf, KeepsSeats};
ghost use Rattle.frame_store.specs.View.{claimed, hold_of, IsHeld, IsSole, references, sole_hold, with_hold, with_word};
ghost use Rattle.sv39_entry.specs.Schemes.{top_level};
ghost use Rattle.sv39_entry.specs.Word.{pointer_word};
ghost use Rattle.sv39_entry.specs.declared.scheme.Scheme.{Scheme};
ghost use Rattle.table_walk.specs.Tables.{bare_root, blank_hold, ChangesTables, HasTables, Tables, IsGrown, last_table, missing};

use crate::tables::child;
use frame_store::{FrameAccess, FrameSeat, FrameSupply};
use sv39_entry::{Entry, FrameNo, Scheme, Vpn};

/// Makes the tables that are missing on the way to `page`, each with one credit, and returns the last table on the way.
pub(crate) fn grown_table<F: FrameSupply>(
    store: &mut F,
    seat: &mut F::Seat,
    scheme: Scheme,
    root: FrameNo,
    page: Vpn,
) -> FrameNo
    requires fits { IsSeatOf F.invariant store.old seat.old }
    requires anchored { IsHeld (F.Seat.view seat.old) 0 }
    requires tables { (t : Tables) × HasTables scheme (F.Seat.view seat.old) root.0 t × (missing scheme t page ≤ (F.Seat.view seat.old).credits) }
    ensures tables { (t : Tables) → HasTables scheme (F.Seat.view seat.old) root.0 t → (u : Tables)
        × IsGrown scheme t u page (top_level scheme) × HasTables scheme (F.Seat.view seat.new) root.0 u
        × ChangesTables (F.Seat.view seat.old) (F.Seat.view seat.new) t u (missing scheme t page) × (get u.tables (last_table scheme page) ≡ Some result.0) }
    ensures keeps { KeepsSeats F.invariant store.old seat.old store.new seat.new }
    ensures free { F.alone → F.free store.new ≡ F.free store.old }
{
    let mut table = root;
    let top = scheme.top_level();
    'levels: for level in (1..=top).rev() {
        let index = page.index(level);
        table = match child(store, seat, table, index) {
            Some(next) => next,
            None => new_child(store, seat, table, index),
        };
    }
    table
}

/// Claims a frame with one credit (reserved frame) of the seat, sets its words to 0 and returns it: an empty table, which is
/// a root of its own until a pointer to it is written. Cannot fail: the seat must have a credit. It must hold frame 0 too.
pub fn new_table<F: FrameSupply>(store: &mut F, seat: &mut F::Seat) -> FrameNo
    requires fits { IsSeatOf F.invariant store.old seat.old }
    requires anchored { IsHeld (F.Seat.view seat.old) 0 }
    requires credit { 0 < (F.Seat.view seat.old).credits }
    ensures fresh { references (F.Seat.view seat.old) result.0 ≡ 0 }
    ensures view { F.Seat.view seat.new ≡ with_hold result.0 blank_hold (claimed result.0 (F.Seat.view seat.old)) }
    ensures root { (s : Scheme) → HasTables s (F.Seat.view seat.new) result.0 (bare_root s result.0) }
    ensures anchored { IsHeld (F.Seat.view seat.new) 0 }
    ensures keeps { KeepsSeats F.invariant store.old seat.old store.new seat.new }
    ensures free { F.alone → F.free store.new ≡ F.free store.old }
{
    let table = store.claim(seat);
    clear(store, seat, table);
    table
}

/// Makes an empty table at an index of `table` and returns it. Its words are 0 before the pointer to it is written.
fn new_child<F: FrameSupply>(
    store: &mut F,
    seat: &mut F::Seat,
    table: FrameNo,
    index: usize,
) -> FrameNo
    requires fits { IsSeatOf F.invariant store.old seat.old }
    requires anchored { IsHeld (F.Seat.view seat.old) 0 }
    requires credit { 0 < (F.Seat.view seat.old).credits }
    requires held { IsHeld (F.Seat.view seat.old) table.0 }
    requires sole { IsSole (F.Seat.view seat.old) table.0 }
    requires in_table { index < 512 }
    ensures fresh { references (F.Seat.view seat.old) result.0 ≡ 0 }
    ensures view { F.Seat.view seat.new ≡ with_word table.0 index (pointer_word result.0)
        (with_hold result.0 blank_hold (claimed result.0 (F.Seat.view seat.old))) }
    ensures keeps { KeepsSeats F.invariant store.old seat.old store.new seat.new }
    ensures free { F.alone → F.free store.new ≡ F.free store.old }
{
    let child = new_table(store, seat);
    store.store(seat, table, index, Entry::pointer(child).to_word());
    child
}

/// Sets each word of a frame that was just claimed to 0.
fn clear<F: FrameAccess>(store: &mut F, seat: &mut F::Seat, frame: FrameNo)
    requires fits { IsSeatOf F.invariant store.old seat.old }
    requires claimed { hold_of (F.Seat.view seat.old) frame.0 ≡ sole_hold }
    ensures view { F.Seat.view seat.new ≡ with_hold frame.0 blank_hold (F.Seat.view seat.old) }
    ensures keeps { KeepsSeats F.invariant store.old seat.old store.new seat.new }
    ensures free { F.alone → F.free store.new ≡ F.free store.old }
{
    store.clear(seat, frame, 0);
}
