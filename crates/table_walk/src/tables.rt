// Look-ups of the page tables on the way from a root to a page: the one at a depth (`table_at`), the last one, the one at an
// index of a table; and how many are missing, which `map` would make (`missing_tables`).

ghost use Rattle.std.specs.FinMap.{get};
ghost use Rattle.std.specs.Prelude.{◌≡◌, ◌+◌, ◌-◌, ◌*◌, ◌<◌, ◌≤◌, ℕ, suc, option_map, None, Some};
ghost use Rattle.frame_store.specs.Laws.{IsSeatOf, KeepsSeats};
ghost use Rattle.frame_store.specs.View.{known_word, View};
ghost use Rattle.sv39_entry.specs.Schemes.{top_level};
ghost use Rattle.sv39_entry.specs.declared.scheme.Scheme.{Scheme};
ghost use Rattle.table_walk.specs.Tables.{first_leaf, HasTables, Tables, last_table, missing, node};

use frame_store::{FrameAccess, FrameSeat};
use sv39_entry::{Entry, FrameNo, Kind, Scheme, Vpn};

/// Returns the table that the entry at an index of `table`, above level 0, points to; `None` if there is none.
pub(crate) fn child<F: FrameAccess>(
    store: &mut F,
    seat: &mut F::Seat,
    table: FrameNo,
    index: usize,
) -> Option<FrameNo>
    requires fits { IsSeatOf F.invariant store.old seat.old }
    requires held { (s : Scheme) × (root k : ℕ) × (t : Tables) × HasTables s (F.Seat.view seat.old) root t × (get t.tables k ≡ Some table.0)
        × (k * 512 + index < first_leaf) }
    requires in_table { index < 512 }
    ensures child { (s : Scheme) (root k : ℕ) (t : Tables) → HasTables s (F.Seat.view seat.old) root t → get t.tables k ≡ Some table.0
        → k * 512 + index < first_leaf → option_map (λ f. f.0) result ≡ get t.tables (k * 512 + index) }
    ensures view { F.Seat.view seat.new ≡ F.Seat.view seat.old }
    ensures same { store.new ≡ store.old }
    ensures keeps { KeepsSeats F.invariant store.old seat.old store.new seat.new }
{
    let word = store.load(seat, table, index);
    table_in(word)
}

/// Returns the table that an entry of a table above level 0 points to, given the entry's word; `None` if there is none.
pub(crate) fn table_in(word: u64) -> Option<FrameNo>
    ensures { (s : Scheme) (v : View) (root k f i : ℕ) (t : Tables) → HasTables s v root t → get t.tables k ≡ Some f → i < 512 → k * 512 + i < first_leaf →
        ((w : ℕ) → known_word v f i ≡ Some w → word ≡ w) → option_map (λ f. f.0) result ≡ get t.tables (k * 512 + i) }
{
    if word == 0 {
        return None;
    }
    let entry = Entry::from_word(word);
    if entry.kind() == Kind::Pointer {
        return FrameNo::from_ppn(entry.ppn());
    }
    None
}

/// Returns the last table on the way to `page` that exists, and the level of its entries.
fn deepest_table<F: FrameAccess>(
    store: &mut F,
    seat: &mut F::Seat,
    scheme: Scheme,
    root: FrameNo,
    page: Vpn,
) -> (FrameNo, u32)
    requires fits { IsSeatOf F.invariant store.old seat.old }
    requires held { (t : Tables) × HasTables scheme (F.Seat.view seat.old) root.0 t }
    ensures there { (t : Tables) → HasTables scheme (F.Seat.view seat.old) root.0 t
        → get t.tables (node scheme page (top_level scheme - result.1)) ≡ Some result.0.0 }
    ensures last { (t : Tables) → HasTables scheme (F.Seat.view seat.old) root.0 t → 0 < result.1
        → get t.tables (node scheme page (suc (top_level scheme - result.1))) ≡ None }
    ensures low { result.1 ≤ top_level scheme }
    ensures view { F.Seat.view seat.new ≡ F.Seat.view seat.old }
    ensures same { store.new ≡ store.old }
    ensures keeps { KeepsSeats F.invariant store.old seat.old store.new seat.new }
{
    let mut table = root;
    let top = scheme.top_level();
    'levels: for level in (1..=top).rev() {
        match child(store, seat, table, page.index(level)) {
            Some(next) => table = next,
            None => return (table, level),
        }
    }
    (table, 0)
}

/// Returns the frame of the table on the way to `page` that is `depth` levels below the root (0 is the root); `None` if it
/// is missing. `depth` is at most 2 under Sv39, 3 under Sv48. The seat must have the tables below `root`. Changes nothing.
pub fn table_at<F: FrameAccess>(
    store: &mut F,
    seat: &mut F::Seat,
    scheme: Scheme,
    root: FrameNo,
    page: Vpn,
    depth: u32,
) -> Option<FrameNo>
    requires fits { IsSeatOf F.invariant store.old seat.old }
    requires held { (t : Tables) × HasTables scheme (F.Seat.view seat.old) root.0 t }
    requires low { depth ≤ top_level scheme }
    ensures table { (t : Tables) → HasTables scheme (F.Seat.view seat.old) root.0 t → option_map (λ f. f.0) result ≡ get t.tables (node scheme page depth) }
    ensures view { F.Seat.view seat.new ≡ F.Seat.view seat.old }
    ensures same { store.new ≡ store.old }
    ensures keeps { KeepsSeats F.invariant store.old seat.old store.new seat.new }
{
    let mut table = root;
    let top = scheme.top_level();
    'depths: for step in 0..depth {
        table = child(store, seat, table, page.index(top - step))?;
    }
    Some(table)
}

/// Returns the last table on the way to `page`, which has the page's leaf at VPN[0]; `None` if it is missing.
pub(crate) fn table_of<F: FrameAccess>(
    store: &mut F,
    seat: &mut F::Seat,
    scheme: Scheme,
    root: FrameNo,
    page: Vpn,
) -> Option<FrameNo>
    requires fits { IsSeatOf F.invariant store.old seat.old }
    requires held { (t : Tables) × HasTables scheme (F.Seat.view seat.old) root.0 t }
    ensures table { (t : Tables) → HasTables scheme (F.Seat.view seat.old) root.0 t → option_map (λ f. f.0) result ≡ get t.tables (last_table scheme page) }
    ensures view { F.Seat.view seat.new ≡ F.Seat.view seat.old }
    ensures same { store.new ≡ store.old }
    ensures keeps { KeepsSeats F.invariant store.old seat.old store.new seat.new }
{
    table_at(store, seat, scheme, root, page, scheme.top_level())
}

/// Returns how many tables are missing on the way to `page`, and so how many credits `map` needs: at most two under Sv39,
/// three under Sv48. The seat must have the tables below `root`. Changes nothing.
pub fn missing_tables<F: FrameAccess>(
    store: &mut F,
    seat: &mut F::Seat,
    scheme: Scheme,
    root: FrameNo,
    page: Vpn,
) -> usize
    requires fits { IsSeatOf F.invariant store.old seat.old }
    requires held { (t : Tables) × HasTables scheme (F.Seat.view seat.old) root.0 t }
    ensures missing { (t : Tables) → HasTables scheme (F.Seat.view seat.old) root.0 t → result ≡ missing scheme t page }
    ensures few { result ≤ top_level scheme }
    ensures view { F.Seat.view seat.new ≡ F.Seat.view seat.old }
    ensures same { store.new ≡ store.old }
    ensures keeps { KeepsSeats F.invariant store.old seat.old store.new seat.new }
{
    let (_, level) = deepest_table(store, seat, scheme, root, page);
    level as usize
}
