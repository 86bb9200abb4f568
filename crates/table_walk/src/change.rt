// Changes of one page's leaf in the page tables below a root: `map` puts it (and makes missing tables of reserved frames),
// `protect` replaces it, `unmap` removes it (tables stay); and `leaf_of` looks it up. `map_with_last`, `unmap_with_last` and
// `leaf_with_last` do so for page after page: pages whose leaves are in one table need one walk (`LastTable`). These are
// inlined: what they find stays in registers, and a result that goes through memory costs more than the step.

ghost use Rattle.std.specs.FinMap.{get};
ghost use Rattle.std.specs.Prelude.{◌≡◌, ◌≤◌, ℕ, option_map, IfSome, IsSome, None, Some};
ghost use Rattle.frame_store.specs.Laws.{IsSeatOf, KeepsSeats};
ghost use Rattle.frame_store.specs.View.{IsHeld, with_word};
ghost use Rattle.sv39_entry.specs.Address.{vpn};
ghost use Rattle.sv39_entry.specs.Frame.{ppn_of};
ghost use Rattle.sv39_entry.specs.Schemes.{top_level};
ghost use Rattle.sv39_entry.specs.Word.{kind_of};
ghost use Rattle.sv39_entry.specs.declared.entry.Kind.TheVariants.{Leaf};
ghost use Rattle.table_walk.specs.LeafBacking.{IsBacked};
ghost use Rattle.table_walk.specs.TableChanges.{OthersStay};
ghost use Rattle.table_walk.specs.HeldMemory.{held_memory};
ghost use Rattle.table_walk.specs.LastTables.{IsLastTable};
ghost use Rattle.table_walk.specs.Tables.{ChangesTables, HasTables, Tables, IsGrown, last_table, walk_leaf, missing, with_leaf, without_leaf};
ghost use Rattle.table_walk.specs.Walk.{Maps};

use crate::last_table::{LastTable, grown_with_last, table_with_last};
use crate::tables::table_of;
use frame_store::{FrameAccess, FrameSeat, FrameSupply};
use sv39_entry::{Entry, FrameNo, Scheme, Vpn};

/// Maps `page` to `leaf`, in place of a leaf that it has. Missing tables on the way are made first, each with one credit
/// (reserved frame) of the seat. Pages with other table indices stay mapped as they were. Makes no fence. Cannot fail.
/// The seat must have the tables below `root`, at least as many credits as `missing_tables` returns, and hold frame 0.
/// `leaf` must be a leaf. If it has U, the seat must know each word of the frame that it names and, if it has W too, be the
/// frame's sole holder.
pub fn map<F: FrameSupply>(
    store: &mut F,
    seat: &mut F::Seat,
    scheme: Scheme,
    root: FrameNo,
    page: Vpn,
    leaf: Entry,
)
    requires fits { IsSeatOf F.invariant store.old seat.old }
    requires anchored { IsHeld (F.Seat.view seat.old) 0 }
    requires leaf { kind_of leaf ≡ Leaf }
    requires backed { IsBacked (F.Seat.view seat.old) leaf }
    requires tables { (t : Tables) × HasTables scheme (F.Seat.view seat.old) root.0 t × (missing scheme t page ≤ (F.Seat.view seat.old).credits) }
    ensures tables { (t : Tables) → HasTables scheme (F.Seat.view seat.old) root.0 t → (u : Tables)
        × IsGrown scheme t u page (top_level scheme)
        × HasTables scheme (F.Seat.view seat.new) root.0 (with_leaf u (walk_leaf scheme page) leaf)
        × ChangesTables (F.Seat.view seat.old) (F.Seat.view seat.new) t u (missing scheme t page) }
    ensures here { Maps scheme (held_memory (F.Seat.view seat.new)) (ppn_of root.0) page leaf 0 }
    ensures others { OthersStay scheme (held_memory (F.Seat.view seat.old)) (held_memory (F.Seat.view seat.new)) (ppn_of root.0) page }
    ensures anchored { IsHeld (F.Seat.view seat.new) 0 }
    ensures keeps { KeepsSeats F.invariant store.old seat.old store.new seat.new }
    ensures free { F.alone → F.free store.new ≡ F.free store.old }
{
    let mut last = None;
    map_with_last(store, seat, scheme, root, page, leaf, &mut last);
}

/// `map`, for a caller that maps page after page: `last` must be `None` or have been set by such a call for these tables,
/// and no table may have been released since. A page whose last table it has is mapped without a walk.
#[inline(always)]
pub fn map_with_last<F: FrameSupply>(
    store: &mut F,
    seat: &mut F::Seat,
    scheme: Scheme,
    root: FrameNo,
    page: Vpn,
    leaf: Entry,
    last: &mut Option<LastTable>,
)
    requires fits { IsSeatOf F.invariant store.old seat.old }
    requires anchored { IsHeld (F.Seat.view seat.old) 0 }
    requires leaf { kind_of leaf ≡ Leaf }
    requires backed { IsBacked (F.Seat.view seat.old) leaf }
    requires tables { (t : Tables) × HasTables scheme (F.Seat.view seat.old) root.0 t × IsLastTable scheme t last.old
        × (missing scheme t page ≤ (F.Seat.view seat.old).credits) }
    ensures tables { (t : Tables) → HasTables scheme (F.Seat.view seat.old) root.0 t → IsLastTable scheme t last.old → (u : Tables)
        × IsGrown scheme t u page (top_level scheme)
        × HasTables scheme (F.Seat.view seat.new) root.0 (with_leaf u (walk_leaf scheme page) leaf)
        × ChangesTables (F.Seat.view seat.old) (F.Seat.view seat.new) t u (missing scheme t page) × IsLastTable scheme u last.new }
    ensures here { Maps scheme (held_memory (F.Seat.view seat.new)) (ppn_of root.0) page leaf 0 }
    ensures others { OthersStay scheme (held_memory (F.Seat.view seat.old)) (held_memory (F.Seat.view seat.new)) (ppn_of root.0) page }
    ensures anchored { IsHeld (F.Seat.view seat.new) 0 }
    ensures keeps { KeepsSeats F.invariant store.old seat.old store.new seat.new }
    ensures free { F.alone → F.free store.new ≡ F.free store.old }
{
    let table = grown_with_last(store, seat, scheme, root, page, last);
    store.store(seat, table, page.index(0), leaf.to_word());
}

/// Replaces the leaf of `page`, which must have one, by `leaf`. Takes no frame; pages with other table indices stay mapped
/// as they were. Makes no fence. Cannot fail.
/// The seat must have the tables below `root`. `leaf` must be a leaf. If it has U, the seat must know each word of the frame
/// that it names and, if it has W too, be the frame's sole holder.
pub fn protect<F: FrameAccess>(
    store: &mut F,
    seat: &mut F::Seat,
    scheme: Scheme,
    root: FrameNo,
    page: Vpn,
    leaf: Entry,
)
    requires fits { IsSeatOf F.invariant store.old seat.old }
    requires leaf { kind_of leaf ≡ Leaf }
    requires backed { IsBacked (F.Seat.view seat.old) leaf }
    requires mapped { (t : Tables) × HasTables scheme (F.Seat.view seat.old) root.0 t × IsSome (get t.leaves (walk_leaf scheme page)) }
    ensures word { (t : Tables) (f : ℕ) → HasTables scheme (F.Seat.view seat.old) root.0 t → get t.tables (last_table scheme page) ≡ Some f
        → F.Seat.view seat.new ≡ with_word f (vpn page 0) leaf (F.Seat.view seat.old) }
    ensures tables { (t : Tables) → HasTables scheme (F.Seat.view seat.old) root.0 t
        → HasTables scheme (F.Seat.view seat.new) root.0 (with_leaf t (walk_leaf scheme page) leaf)
        × ChangesTables (F.Seat.view seat.old) (F.Seat.view seat.new) t t 0 }
    ensures here { Maps scheme (held_memory (F.Seat.view seat.new)) (ppn_of root.0) page leaf 0 }
    ensures others { OthersStay scheme (held_memory (F.Seat.view seat.old)) (held_memory (F.Seat.view seat.new)) (ppn_of root.0) page }
    ensures keeps { KeepsSeats F.invariant store.old seat.old store.new seat.new }
    ensures free { F.alone → F.free store.new ≡ F.free store.old }
    ensures counts { F.alone → (f : ℕ) → F.count store.new f ≡ F.count store.old f }
{
    if let Some(table) = table_of(store, seat, scheme, root, page) {
        store.store(seat, table, page.index(0), leaf.to_word());
    }
}

/// Returns the leaf of `page` in the tables below `root`, which the seat must have; `None` if it has none. Changes nothing.
pub fn leaf_of<F: FrameAccess>(
    store: &mut F,
    seat: &mut F::Seat,
    scheme: Scheme,
    root: FrameNo,
    page: Vpn,
) -> Option<Entry>
    requires fits { IsSeatOf F.invariant store.old seat.old }
    requires held { (t : Tables) × HasTables scheme (F.Seat.view seat.old) root.0 t }
    ensures leaf { (t : Tables) → HasTables scheme (F.Seat.view seat.old) root.0 t → result ≡ get t.leaves (walk_leaf scheme page) }
    ensures view { F.Seat.view seat.new ≡ F.Seat.view seat.old }
    ensures same { store.new ≡ store.old }
    ensures keeps { KeepsSeats F.invariant store.old seat.old store.new seat.new }
{
    let mut last = None;
    leaf_with_last(store, seat, scheme, root, page, &mut last)
}

/// `leaf_of`, for a caller that asks for page after page: `last` must be `None` or have been set by such a call for these
/// tables, and no table may have been released since. The leaf of a page whose last table it has is read without a walk.
#[inline(always)]
pub fn leaf_with_last<F: FrameAccess>(
    store: &mut F,
    seat: &mut F::Seat,
    scheme: Scheme,
    root: FrameNo,
    page: Vpn,
    last: &mut Option<LastTable>,
) -> Option<Entry>
    requires fits { IsSeatOf F.invariant store.old seat.old }
    requires held { (t : Tables) × HasTables scheme (F.Seat.view seat.old) root.0 t × IsLastTable scheme t last.old }
    ensures leaf { (t : Tables) → HasTables scheme (F.Seat.view seat.old) root.0 t → IsLastTable scheme t last.old
        → result ≡ get t.leaves (walk_leaf scheme page) }
    ensures kept { (t : Tables) → HasTables scheme (F.Seat.view seat.old) root.0 t → IsLastTable scheme t last.old → IsLastTable scheme t last.new }
    ensures view { F.Seat.view seat.new ≡ F.Seat.view seat.old }
    ensures same { store.new ≡ store.old }
    ensures keeps { KeepsSeats F.invariant store.old seat.old store.new seat.new }
{
    let (_, leaf) = leaf_in_table(store, seat, scheme, root, page, last)?;
    Some(leaf)
}

/// Removes the leaf of `page` from the tables below `root`, which the seat must have, and returns it; `None` if there is
/// none, and then nothing changes for the seat. Tables stay, even empty, and so does the reference to the leaf's frame;
/// pages with other table indices stay mapped as they were. Makes no fence.
pub fn unmap<F: FrameAccess>(
    store: &mut F,
    seat: &mut F::Seat,
    scheme: Scheme,
    root: FrameNo,
    page: Vpn,
) -> Option<Entry>
    requires fits { IsSeatOf F.invariant store.old seat.old }
    requires held { (t : Tables) × HasTables scheme (F.Seat.view seat.old) root.0 t }
    ensures leaf { (t : Tables) → HasTables scheme (F.Seat.view seat.old) root.0 t → result ≡ get t.leaves (walk_leaf scheme page) }
    ensures word { (t : Tables) (f : ℕ) → HasTables scheme (F.Seat.view seat.old) root.0 t → get t.tables (last_table scheme page) ≡ Some f
        → IsSome result → F.Seat.view seat.new ≡ with_word f (vpn page 0) 0 (F.Seat.view seat.old) }
    ensures none { result ≡ None → F.Seat.view seat.new ≡ F.Seat.view seat.old }
    ensures tables { (t : Tables) → HasTables scheme (F.Seat.view seat.old) root.0 t
        → HasTables scheme (F.Seat.view seat.new) root.0 (without_leaf t (walk_leaf scheme page))
        × ChangesTables (F.Seat.view seat.old) (F.Seat.view seat.new) t t 0 }
    ensures here { (leaf level : ℕ) → Maps scheme (held_memory (F.Seat.view seat.new)) (ppn_of root.0) page leaf level → ⊥ }
    ensures others { OthersStay scheme (held_memory (F.Seat.view seat.old)) (held_memory (F.Seat.view seat.new)) (ppn_of root.0) page }
    ensures keeps { KeepsSeats F.invariant store.old seat.old store.new seat.new }
    ensures free { F.alone → F.free store.new ≡ F.free store.old }
    ensures counts { F.alone → (f : ℕ) → F.count store.new f ≡ F.count store.old f }
{
    let mut last = None;
    unmap_with_last(store, seat, scheme, root, page, &mut last)
}

/// `unmap`, for a caller that unmaps page after page: `last` must be `None` or have been set by such a call for these
/// tables, and no table may have been released since. A page whose last table it has is unmapped without a walk.
#[inline(always)]
pub fn unmap_with_last<F: FrameAccess>(
    store: &mut F,
    seat: &mut F::Seat,
    scheme: Scheme,
    root: FrameNo,
    page: Vpn,
    last: &mut Option<LastTable>,
) -> Option<Entry>
    requires fits { IsSeatOf F.invariant store.old seat.old }
    requires held { (t : Tables) × HasTables scheme (F.Seat.view seat.old) root.0 t × IsLastTable scheme t last.old }
    ensures leaf { (t : Tables) → HasTables scheme (F.Seat.view seat.old) root.0 t → IsLastTable scheme t last.old
        → result ≡ get t.leaves (walk_leaf scheme page) }
    ensures kept { (t : Tables) → HasTables scheme (F.Seat.view seat.old) root.0 t → IsLastTable scheme t last.old → IsLastTable scheme t last.new }
    ensures word { (t : Tables) (f : ℕ) → HasTables scheme (F.Seat.view seat.old) root.0 t → IsLastTable scheme t last.old
        → get t.tables (last_table scheme page) ≡ Some f → IsSome result → F.Seat.view seat.new ≡ with_word f (vpn page 0) 0 (F.Seat.view seat.old) }
    ensures none { result ≡ None → F.Seat.view seat.new ≡ F.Seat.view seat.old }
    ensures tables { (t : Tables) → HasTables scheme (F.Seat.view seat.old) root.0 t → IsLastTable scheme t last.old
        → HasTables scheme (F.Seat.view seat.new) root.0 (without_leaf t (walk_leaf scheme page))
        × ChangesTables (F.Seat.view seat.old) (F.Seat.view seat.new) t t 0 }
    ensures here { (leaf level : ℕ) → Maps scheme (held_memory (F.Seat.view seat.new)) (ppn_of root.0) page leaf level → ⊥ }
    ensures others { OthersStay scheme (held_memory (F.Seat.view seat.old)) (held_memory (F.Seat.view seat.new)) (ppn_of root.0) page }
    ensures keeps { KeepsSeats F.invariant store.old seat.old store.new seat.new }
    ensures free { F.alone → F.free store.new ≡ F.free store.old }
    ensures counts { F.alone → (f : ℕ) → F.count store.new f ≡ F.count store.old f }
{
    let (table, leaf) = leaf_in_table(store, seat, scheme, root, page, last)?;
    store.store(seat, table, page.index(0), 0);
    Some(leaf)
}

/// Returns the last table on the way to `page`, and the page's leaf in it; `None` if the page has no leaf.
/// `last` is as after `table_with_last`.
#[inline(always)]
fn leaf_in_table<F: FrameAccess>(
    store: &mut F,
    seat: &mut F::Seat,
    scheme: Scheme,
    root: FrameNo,
    page: Vpn,
    last: &mut Option<LastTable>,
) -> Option<(FrameNo, Entry)>
    requires fits { IsSeatOf F.invariant store.old seat.old }
    requires held { (t : Tables) × HasTables scheme (F.Seat.view seat.old) root.0 t × IsLastTable scheme t last.old }
    ensures leaf { (t : Tables) → HasTables scheme (F.Seat.view seat.old) root.0 t → IsLastTable scheme t last.old
        → option_map (λ p. p.1) result ≡ get t.leaves (walk_leaf scheme page) }
    ensures table { (t : Tables) → HasTables scheme (F.Seat.view seat.old) root.0 t → IsLastTable scheme t last.old
        → IfSome result (λ p. get t.tables (last_table scheme page) ≡ Some p.0.0) }
    ensures kept { (t : Tables) → HasTables scheme (F.Seat.view seat.old) root.0 t → IsLastTable scheme t last.old → IsLastTable scheme t last.new }
    ensures view { F.Seat.view seat.new ≡ F.Seat.view seat.old }
    ensures same { store.new ≡ store.old }
    ensures keeps { KeepsSeats F.invariant store.old seat.old store.new seat.new }
{
    let table = table_with_last(store, seat, scheme, root, page, last)?;
    let word = store.load(seat, table, page.index(0));
    if word == 0 {
        return None;
    }
    Some((table, Entry::from_word(word)))
}
