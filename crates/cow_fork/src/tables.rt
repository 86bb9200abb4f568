// `list_tables`: lists the frames of all page tables below a root, level by level. A fork lists the child's, to give them to
// the child's seat.

ghost use Rattle.std.specs.Prelude.{◌≡◌, ◌≤◌, ◌+◌, ◌-◌, ◌^◌, List, map, ℕ, suc};
ghost use Rattle.cow_fork.specs.TableList.{CanList, IsEdged, IsFirstPage, IsLed, IsListing, ListsTables};
ghost use Rattle.frame_store.specs.Laws.{IsSeatOf, KeepsSeats};
ghost use Rattle.sv39_entry.specs.Schemes.{page_limit, top_level, trapframe_page};
ghost use Rattle.table_walk.specs.TableChanges.{places};
ghost use Rattle.table_walk.specs.Nodes.{above_root};
ghost use Rattle.table_walk.specs.Tables.{HasTables, Tables};

use arrayvec::ArrayVec;
use frame_store::{FrameAccess, FrameSeat};
use process_model::MOST_FRAMES;
use sv39_entry::{FrameNo, Scheme, Vpn};
use table_walk::{next_leaf_before, table_at};

/// Adds the frame of each page table below `root`, the root's too, to `frames`: level by level, and in each level by the
/// leaves. Each table has to be on the way to a leaf. No page from number `end` up to, but without,
/// TRAPFRAME may have a leaf, and none above TRAMPOLINE.
pub(crate) fn list_tables<S: FrameSeat, F: FrameAccess<Seat = S>>(
    store: &mut F,
    seat: &mut S,
    scheme: Scheme,
    root: FrameNo,
    end: u64,
    frames: &mut ArrayVec<FrameNo, MOST_FRAMES>,
)
    requires fits { IsSeatOf F.invariant store.old seat.old }
    requires ready { (t : Tables) × HasTables scheme (S.view seat.old) root.0 t × IsLed scheme t
        × CanList t (map (λ f. f.0) frames.old.items) × IsEdged scheme t end }
    ensures listed { (t : Tables) → HasTables scheme (S.view seat.old) root.0 t → IsLed scheme t
        → CanList t (map (λ f. f.0) frames.old.items) → IsEdged scheme t end →
        ListsTables t (map (λ f. f.0) frames.old.items) (map (λ f. f.0) frames.new.items) }
    ensures view { S.view seat.new ≡ S.view seat.old }
    ensures same { store.new ≡ store.old }
    ensures keeps { KeepsSeats F.invariant store.old seat.old store.new seat.new }
{
    // A table of level 0 maps 2^9 pages, and one of each level above maps 2^9 times as many (RISC-V Privileged Architecture
    // 20211203, 4.4.1 and 4.5.1).
    let levels = scheme.top_level() + 1;
    'levels: for depth in 0..levels {
        let pages = 1 << (9 * (levels - depth));
        list_level(store, seat, scheme, root, end, depth, pages, frames);
    }
}

/// Adds the frames of the tables `depth` levels below the root, each for `pages` pages. After a page with a leaf is found, the
/// search continues at the first page of the next table.
fn list_level<S: FrameSeat, F: FrameAccess<Seat = S>>(
    store: &mut F,
    seat: &mut S,
    scheme: Scheme,
    root: FrameNo,
    end: u64,
    depth: u32,
    pages: u64,
    frames: &mut ArrayVec<FrameNo, MOST_FRAMES>,
)
    requires fits { IsSeatOf F.invariant store.old seat.old }
    requires deep { depth ≤ top_level scheme }
    requires size { pages ≡ places (top_level scheme - depth) }
    requires ready { (t : Tables) × (L : List ℕ)
        × IsListing scheme (S.view seat.old) root.0 t (512 ^ (above_root scheme + depth)) L (map (λ f. f.0) frames.old.items) × IsEdged scheme t end }
    ensures listed { (t : Tables) (L : List ℕ)
        → IsListing scheme (S.view seat.old) root.0 t (512 ^ (above_root scheme + depth)) L (map (λ f. f.0) frames.old.items) → IsEdged scheme t end →
        IsListing scheme (S.view seat.old) root.0 t (512 ^ (above_root scheme + suc depth)) L (map (λ f. f.0) frames.new.items) }
    ensures view { S.view seat.new ≡ S.view seat.old }
    ensures same { store.new ≡ store.old }
    ensures keeps { KeepsSeats F.invariant store.old seat.old store.new seat.new }
{
    let mut table = 0;
    'tables: while let Some(page) = first_page(store, seat, scheme, root, table * pages, end) {
        let Some(frame) = table_at(store, seat, scheme, root, page, depth) else {
            unreachable!()
        };
        frames.push(frame);
        table = page.number() / pages + 1;
    }
}

/// The first page from number `from` on that has a leaf; `None` if there is none. Does not search the pages from `end` up to
/// TRAPFRAME and those above TRAMPOLINE: they have no leaf.
fn first_page<S: FrameSeat, F: FrameAccess<Seat = S>>(
    store: &mut F,
    seat: &mut S,
    scheme: Scheme,
    root: FrameNo,
    from: u64,
    end: u64,
) -> Option<Vpn>
    requires fits { IsSeatOf F.invariant store.old seat.old }
    requires held { (t : Tables) × HasTables scheme (S.view seat.old) root.0 t }
    requires low { from ≤ page_limit scheme }
    requires edge { end ≤ trapframe_page scheme }
    ensures page { (t : Tables) → HasTables scheme (S.view seat.old) root.0 t → IsEdged scheme t end → IsFirstPage scheme t from result }
    ensures view { S.view seat.new ≡ S.view seat.old }
    ensures same { store.new ≡ store.old }
    ensures keeps { KeepsSeats F.invariant store.old seat.old store.new seat.new }
{
    let first = Vpn::new(from)?;
    if let Some(found) = next_leaf_before(store, seat, scheme, root, first, end) {
        return Some(found.0);
    }
    let trapframe = scheme.trapframe().page();
    if from <= trapframe.number() {
        return Some(trapframe);
    }
    let behind = scheme.trampoline().page().number() + 1;
    let (page, _) = next_leaf_before(store, seat, scheme, root, first, behind)?;
    Some(page)
}
