// Page tables in a fork: `copy_tree` builds the child's from the list of settled pages (those in memory), on the parent's
// frames; `mark_pages` sets the copy-on-write mark (the next store takes the page over) in the parent's leaves.

ghost use Rattle.std.specs.Prelude.{[], ◌≡◌, ℕ, IsSome, Some};
ghost use Rattle.address_space.specs.Agreement.{body_of};
ghost use Rattle.address_space.specs.Kept.{KeepsPlace};
ghost use Rattle.address_space.specs.Layouts.{LaysOut, region_of};
ghost use Rattle.address_space.specs.SpacesInCalls.{IsSpaceInCall, RewritesLeaves};
ghost use Rattle.address_space.specs.SettledLists.{AreSettled};
ghost use Rattle.cow_fork.specs.Children.{CanCopy, CanOpen, CopiesPages, CopiesTree, IsRegionOf};
ghost use Rattle.frame_store.specs.Laws.{IsSeatOf, KeepsSeats};
ghost use Rattle.process_model.specs.Process.{Process, regions};
ghost use Rattle.process_model.specs.Regions.{region_at};
ghost use Rattle.process_model.specs.Residence.{marked};
ghost use Rattle.sv39_entry.specs.Schemes.{trapframe_page};
ghost use Rattle.table_walk.specs.Tables.{Tables};

use address_space::{Layout, Region, SettledPage, Space, TRAMPOLINE_FRAME, leaf_for_kernel};
use frame_store::{FrameAccess, FrameSeat, FrameSupply};
use sv39_entry::{Access, FrameNo, Scheme};
use table_walk::{map, map_with_last, missing_is_growth, new_table};

/// Builds the child's page tables with credits of the parent's seat and returns the frame of their root. Each settled page has
/// a leaf on the parent's frame, with the copy-on-write mark if the page had it or its region grants writing; `trapframe` is at
/// TRAPFRAME.
pub(crate) fn copy_tree<S: FrameSeat, F: FrameSupply<Seat = S>>(
    space: &mut Space<S>,
    store: &mut F,
    trapframe: FrameNo,
    settled: &[SettledPage],
) -> FrameNo
    requires fits { IsSeatOf F.invariant store.old space.old.seat }
    requires ready { (t : Tables) × (p : Process) × CanCopy (S.view space.old.seat) space.old.layout t p trapframe.0 settled.now }
    ensures copied { (t : Tables) (p : Process) → CanCopy (S.view space.old.seat) space.old.layout t p trapframe.0 settled.now →
        (u : Tables) × CopiesTree (S.view space.old.seat) (S.view space.new.seat) t u p result.0 trapframe.0 }
    ensures place { KeepsPlace space.old space.new }
    ensures keeps { KeepsSeats F.invariant store.old space.old.seat store.new space.new.seat }
    ensures free { F.alone → F.free store.new ≡ F.free store.old }
{
    // a law for the proof: the tables that mapping a page adds are those by which its need exceeds that of the pages before it
    missing_is_growth();
    let scheme = space.layout.scheme();
    let root = open_tables(store, &mut space.seat, scheme, trapframe);
    let mut last = None;
    let mut region = Region::default();
    'pages: for page in settled {
        enter_region(&space.layout, page.page.number(), &mut region);
        let cow = page.cow || !region.lacks_right(Access::Store);
        let leaf = region.leaf(page.frame, cow, region.is_dirty_from_start());
        map_with_last(
            store,
            &mut space.seat,
            scheme,
            root,
            page.page,
            leaf,
            &mut last,
        );
    }
    root
}

/// Sets `region` to the region that holds the page, which is in one, unless `region` holds it: in the order of addresses the
/// pages of a region follow one another.
fn enter_region(layout: &Layout, page: u64, region: &mut Region)
    requires ready { (p : Process) × LaysOut layout.now p × IsRegionOf p (region_of region.old) × IsSome (region_at (regions p) page) }
    ensures { (p : Process) → LaysOut layout.now p → IsRegionOf p (region_of region.old) → region_at (regions p) page ≡ Some (region_of region.new) }
{
    if region.holds_page(page) {
        return;
    }
    let Some(next) = layout.region_at(page) else {
        unreachable!()
    };
    *region = next;
}

/// Makes page tables, with one credit for each level, that map frame 0 at TRAMPOLINE and `trapframe` at TRAPFRAME, for the
/// kernel alone. Returns the frame of their root.
fn open_tables<S: FrameSeat, F: FrameSupply<Seat = S>>(
    store: &mut F,
    seat: &mut S,
    scheme: Scheme,
    trapframe: FrameNo,
) -> FrameNo
    requires fits { IsSeatOf F.invariant store.old seat.old }
    requires ready { CanOpen scheme (S.view seat.old) trapframe.0 }
    ensures opened { (u : Tables)
        × ((t : Tables) (p : Process) → p.scheme ≡ scheme → CopiesPages (S.view seat.old) (S.view seat.new) t u p result.0 trapframe.0 0 []) }
    ensures keeps { KeepsSeats F.invariant store.old seat.old store.new seat.new }
    ensures free { F.alone → F.free store.new ≡ F.free store.old }
{
    missing_is_growth();
    let root = new_table(store, seat);
    let code = leaf_for_kernel(TRAMPOLINE_FRAME);
    map(store, seat, scheme, root, scheme.trampoline().page(), code);
    let saved = leaf_for_kernel(trapframe);
    map(store, seat, scheme, root, scheme.trapframe().page(), saved);
    root
}

/// Sets the copy-on-write mark on the parent's settled pages whose region grants writing. Pages that have it from an earlier
/// fork are skipped.
pub(crate) fn mark_pages<S: FrameSeat, F: FrameAccess<Seat = S>>(
    space: &mut Space<S>,
    store: &mut F,
    settled: &[SettledPage],
)
    requires fits { IsSeatOf F.invariant store.old space.old.seat }
    requires ready { (t : Tables) × (p : Process) × (extra : ℕ → ℕ) × IsSpaceInCall (body_of S.view space.old) t p extra
        × AreSettled t p 0 (trapframe_page p.scheme) settled.now }
    ensures marked { (t : Tables) (p : Process) (extra : ℕ → ℕ) → IsSpaceInCall (body_of S.view space.old) t p extra
        → AreSettled t p 0 (trapframe_page p.scheme) settled.now →
        (w : Tables) × IsSpaceInCall (body_of S.view space.new) w (marked p) extra × RewritesLeaves (body_of S.view space.old) (body_of S.view space.new) t w }
    ensures place { KeepsPlace space.old space.new }
    ensures keeps { KeepsSeats F.invariant store.old space.old.seat store.new space.new.seat }
    ensures free { F.alone → F.free store.new ≡ F.free store.old }
{
    'pages: for page in settled {
        if !page.cow {
            space.mark_forked(store, page);
        }
    }
}
