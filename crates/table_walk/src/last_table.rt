// `LastTable`, a struct: the last table on the way to a page, kept from one call to the next, so that pages of one such table
// need one walk. For the crate the two ways to that table: by look-ups (`table_with_last`), and with missing tables made
// (`grown_with_last`).

ghost use Rattle.std.specs.FinMap.{get};
ghost use Rattle.std.specs.Prelude.{◌≡◌, ◌≤◌, IfSome, option_map, Some};
ghost use Rattle.frame_store.specs.Laws.{IsSeatOf, KeepsSeats};
ghost use Rattle.frame_store.specs.View.{IsHeld};
ghost use Rattle.sv39_entry.specs.Schemes.{top_level};
ghost use Rattle.sv39_entry.specs.declared.scheme.Scheme.{Scheme};
ghost use Rattle.table_walk.specs.LastTables.{IsLastTable};
ghost use Rattle.table_walk.specs.Tables.{ChangesTables, HasTables, Tables, IsGrown, last_table, missing};

use crate::growth::grown_table;
use crate::tables::table_of;
use frame_store::{FrameAccess, FrameSeat, FrameSupply};
use sv39_entry::{FrameNo, Scheme, Vpn};

/// A page and the frame of the last table on the way to it. The pages whose numbers differ in VPN[0] alone have that table in
/// common (RISC-V Privileged Architecture 20211203, 4.3.2): of these, only the first needs a walk.
#[derive(Clone, Copy)]
pub struct LastTable {
    page: Vpn,
    frame: FrameNo,
}

/// Returns the frame of the kept table if it is the last one on the way to `page` too.
#[inline(always)]
fn kept_table(last: Option<LastTable>, page: Vpn) -> Option<FrameNo>
    ensures { (s : Scheme) (t : Tables) → IsLastTable s t last → IfSome result (λ f. get t.tables (last_table s page) ≡ Some f.0) }
{
    let kept = last?;
    if kept.page.number() / 512 == page.number() / 512 {
        return Some(kept.frame);
    }
    None
}

/// Returns the last table on the way to `page`, from `last` if it keeps that table, else by a walk; `None` if it is missing.
/// `last` then keeps the table that was returned, or what it kept before.
#[inline(always)]
pub(crate) fn table_with_last<F: FrameAccess>(
    store: &mut F,
    seat: &mut F::Seat,
    scheme: Scheme,
    root: FrameNo,
    page: Vpn,
    last: &mut Option<LastTable>,
) -> Option<FrameNo>
    requires fits { IsSeatOf F.invariant store.old seat.old }
    requires held { (t : Tables) × HasTables scheme (F.Seat.view seat.old) root.0 t × IsLastTable scheme t last.old }
    ensures table { (t : Tables) → HasTables scheme (F.Seat.view seat.old) root.0 t → IsLastTable scheme t last.old
        → option_map (λ f. f.0) result ≡ get t.tables (last_table scheme page) }
    ensures kept { (t : Tables) → HasTables scheme (F.Seat.view seat.old) root.0 t → IsLastTable scheme t last.old → IsLastTable scheme t last.new }
    ensures view { F.Seat.view seat.new ≡ F.Seat.view seat.old }
    ensures same { store.new ≡ store.old }
    ensures keeps { KeepsSeats F.invariant store.old seat.old store.new seat.new }
{
    if let Some(table) = kept_table(*last, page) {
        return Some(table);
    }
    walk_and_keep(store, seat, scheme, root, page, last)
}

/// `table_with_last` by a walk: a function of its own, so that the way without a walk is short enough to be inlined.
#[inline(never)]
fn walk_and_keep<F: FrameAccess>(
    store: &mut F,
    seat: &mut F::Seat,
    scheme: Scheme,
    root: FrameNo,
    page: Vpn,
    last: &mut Option<LastTable>,
) -> Option<FrameNo>
    requires fits { IsSeatOf F.invariant store.old seat.old }
    requires held { (t : Tables) × HasTables scheme (F.Seat.view seat.old) root.0 t }
    ensures table { (t : Tables) → HasTables scheme (F.Seat.view seat.old) root.0 t → option_map (λ f. f.0) result ≡ get t.tables (last_table scheme page) }
    ensures kept { (t : Tables) → HasTables scheme (F.Seat.view seat.old) root.0 t → IsLastTable scheme t last.old → IsLastTable scheme t last.new }
    ensures view { F.Seat.view seat.new ≡ F.Seat.view seat.old }
    ensures same { store.new ≡ store.old }
    ensures keeps { KeepsSeats F.invariant store.old seat.old store.new seat.new }
{
    let frame = table_of(store, seat, scheme, root, page)?;
    *last = Some(LastTable { page, frame });
    Some(frame)
}

/// Makes the tables that are missing on the way to `page`, each with one credit, and returns the last table on the way, which
/// `last` then keeps. Walks only if `last` keeps another table, or none.
#[inline(always)]
pub(crate) fn grown_with_last<F: FrameSupply>(
    store: &mut F,
    seat: &mut F::Seat,
    scheme: Scheme,
    root: FrameNo,
    page: Vpn,
    last: &mut Option<LastTable>,
) -> FrameNo
    requires fits { IsSeatOf F.invariant store.old seat.old }
    requires anchored { IsHeld (F.Seat.view seat.old) 0 }
    requires tables { (t : Tables) × HasTables scheme (F.Seat.view seat.old) root.0 t × IsLastTable scheme t last.old
        × (missing scheme t page ≤ (F.Seat.view seat.old).credits) }
    ensures tables { (t : Tables) → HasTables scheme (F.Seat.view seat.old) root.0 t → IsLastTable scheme t last.old → (u : Tables)
        × IsGrown scheme t u page (top_level scheme) × HasTables scheme (F.Seat.view seat.new) root.0 u
        × ChangesTables (F.Seat.view seat.old) (F.Seat.view seat.new) t u (missing scheme t page)
        × (get u.tables (last_table scheme page) ≡ Some result.0) × IsLastTable scheme u last.new }
    ensures keeps { KeepsSeats F.invariant store.old seat.old store.new seat.new }
    ensures free { F.alone → F.free store.new ≡ F.free store.old }
{
    if let Some(table) = kept_table(*last, page) {
        return table;
    }
    grow_and_keep(store, seat, scheme, root, page, last)
}

/// `grown_with_last` by a walk: a function of its own, so that the way without a walk is short enough to be inlined.
#[inline(never)]
fn grow_and_keep<F: FrameSupply>(
    store: &mut F,
    seat: &mut F::Seat,
    scheme: Scheme,
    root: FrameNo,
    page: Vpn,
    last: &mut Option<LastTable>,
) -> FrameNo
    requires fits { IsSeatOf F.invariant store.old seat.old }
    requires anchored { IsHeld (F.Seat.view seat.old) 0 }
    requires tables { (t : Tables) × HasTables scheme (F.Seat.view seat.old) root.0 t × (missing scheme t page ≤ (F.Seat.view seat.old).credits) }
    ensures tables { (t : Tables) → HasTables scheme (F.Seat.view seat.old) root.0 t → (u : Tables)
        × IsGrown scheme t u page (top_level scheme) × HasTables scheme (F.Seat.view seat.new) root.0 u
        × ChangesTables (F.Seat.view seat.old) (F.Seat.view seat.new) t u (missing scheme t page)
        × (get u.tables (last_table scheme page) ≡ Some result.0) × IsLastTable scheme u last.new }
    ensures keeps { KeepsSeats F.invariant store.old seat.old store.new seat.new }
    ensures free { F.alone → F.free store.new ≡ F.free store.old }
{
    let frame = grown_table(store, seat, scheme, root, page);
    *last = Some(LastTable { page, frame });
    frame
}
