// Struct `SettledPage`: a settled page (one in memory) with its frame, its copy-on-write mark (the next store takes it over
// first) and D; and calls of `Space` that find such pages by their leaves: `settled_page` one page, `next_settled` the first of
// a range, and `next_settled_with_last` one after another, with one walk for those of one page table.

ghost use Rattle.std.specs.FinMap.{get};
ghost use Rattle.std.specs.Prelude.{◌≡◌, ◌<◌, ◌≤◌, ℕ, IfSome, IsSome, Some};
ghost use Rattle.address_space.specs.Agreement.{body_of, no_extra};
ghost use Rattle.address_space.specs.Kept.{OnlyReads};
ghost use Rattle.address_space.specs.SettledLists.{IsNextSettled, IsSettled};
ghost use Rattle.address_space.specs.SpaceTeardown.{IsFirstLeaf};
ghost use Rattle.address_space.specs.SpacesInCalls.{IsSpaceInCall};
ghost use Rattle.frame_store.specs.Laws.{IsSeatOf, KeepsSeats};
ghost use Rattle.process_model.specs.Process.{Process};
ghost use Rattle.sv39_entry.specs.Frame.{frame_at};
ghost use Rattle.sv39_entry.specs.Word as word;
ghost use Rattle.sv39_entry.specs.Schemes.{trapframe_page};
ghost use Rattle.table_walk.specs.LastTables.{IsLastTable};
ghost use Rattle.table_walk.specs.Tables.{HasTables, Tables, walk_leaf};

use crate::space::Space;
use frame_store::{FrameAccess, FrameSeat};
use sv39_entry::{Entry, EntryFlags, FrameNo, Scheme, Va, Vpn};
use table_walk::{LastTable, leaf_of, leaf_with_last, next_leaf_before};

/// A settled page: its number, its frame, whether it has the copy-on-write mark, and whether its leaf has D (RISC-V Privileged
/// Architecture 20211203, 4.3.1). In a shared mapping that grants writing D is the dirty mark; in any other region that
/// grants writing it is set.
#[derive(Clone, Copy)]
pub struct SettledPage {
    pub page: Vpn,
    pub frame: FrameNo,
    pub cow: bool,
    pub dirty: bool,
}

/// Filler for an unused place of a fixed-size list.
impl Default for SettledPage {
    ghost use Rattle.address_space.specs.SettledLists.{no_page};

    ghost is_default = { λ x. x ≡ no_page };

    fn default() -> SettledPage {
        SettledPage {
            page: Va(0).page(),
            frame: FrameNo(0),
            cow: false,
            dirty: false,
        }
    }
}

impl<S: FrameSeat> Space<S> {
    /// Returns `page` with its frame and marks if it is settled, else `None`. `page` must be below TRAPFRAME. The seat may
    /// have credits.
    pub fn settled_page<F: FrameAccess<Seat = S>>(
        &mut self,
        store: &mut F,
        page: Vpn,
    ) -> Option<SettledPage>
        requires fits { IsSeatOf F.invariant store.old self.old.seat }
        requires ready { (t : Tables) × (p : Process) × IsSpaceInCall (body_of S.view self.old) t p no_extra }
        requires low { page < trapframe_page self.old.layout.scheme }
        ensures page { (t : Tables) (p : Process) → IsSpaceInCall (body_of S.view self.old) t p no_extra → IsSettled t p page result }
        ensures reads { OnlyReads S.view self.old self.new store.old store.new }
        ensures keeps { KeepsSeats F.invariant store.old self.old.seat store.new self.new.seat }
    {
        let scheme = self.layout.scheme();
        let leaf = leaf_of(store, &mut self.seat, scheme, self.root, page)?;
        Some(settled_by(page, leaf))
    }

    /// Returns the first settled page with a number from `first` up to, and without, `end`, with its frame and marks;
    /// `None` if there is none. `end` is TRAPFRAME or below. Finds it by the leaves that exist, not page by page. The seat
    /// may have credits.
    pub fn next_settled<F: FrameAccess<Seat = S>>(
        &mut self,
        store: &mut F,
        first: u64,
        end: Vpn,
    ) -> Option<SettledPage>
        requires fits { IsSeatOf F.invariant store.old self.old.seat }
        requires ready { (t : Tables) × (p : Process) × IsSpaceInCall (body_of S.view self.old) t p no_extra }
        requires low { end ≤ trapframe_page self.old.layout.scheme }
        ensures page { (t : Tables) (p : Process) → IsSpaceInCall (body_of S.view self.old) t p no_extra → IsNextSettled t p first end result }
        ensures reads { OnlyReads S.view self.old self.new store.old store.new }
        ensures keeps { KeepsSeats F.invariant store.old self.old.seat store.new self.new.seat }
    {
        let mut last = None;
        self.next_settled_with_last(store, first, end, &mut last)
    }

    /// `next_settled`, for a caller that goes on from page to page: `last` must be `None` or have been set by such a call for
    /// this space, of which no page table may have been released since. The settled page after another in one page table is
    /// found without a walk.
    #[inline(always)]
    pub fn next_settled_with_last<F: FrameAccess<Seat = S>>(
        &mut self,
        store: &mut F,
        first: u64,
        end: Vpn,
        last: &mut Option<LastTable>,
    ) -> Option<SettledPage>
        requires fits { IsSeatOf F.invariant store.old self.old.seat }
        requires ready { (t : Tables) × (p : Process) × IsSpaceInCall (body_of S.view self.old) t p no_extra × IsLastTable p.scheme t last.old }
        requires low { end ≤ trapframe_page self.old.layout.scheme }
        ensures page { (t : Tables) (p : Process) → IsSpaceInCall (body_of S.view self.old) t p no_extra → IsLastTable p.scheme t last.old
            → IsNextSettled t p first end result }
        ensures kept { (t : Tables) (p : Process) → IsSpaceInCall (body_of S.view self.old) t p no_extra → IsLastTable p.scheme t last.old
            → IsLastTable p.scheme t last.new }
        ensures reads { OnlyReads S.view self.old self.new store.old store.new }
        ensures keeps { KeepsSeats F.invariant store.old self.old.seat store.new self.new.seat }
    {
        let from = Vpn::new(first)?;
        let (page, leaf) = self.next_leaf(store, from, end, last)?;
        Some(settled_by(page, leaf))
    }

    /// `next_settled_with_last` from a page on, with the settled page's leaf in place of what it says. So a `SettledPage` is
    /// made where it is used. One that is passed on through memory has its small fields written one by one and read as one
    /// word, and a processor waits there for the writes.
    #[inline(always)]
    fn next_leaf<F: FrameAccess<Seat = S>>(
        &mut self,
        store: &mut F,
        first: Vpn,
        end: Vpn,
        last: &mut Option<LastTable>,
    ) -> Option<(Vpn, Entry)>
        requires fits { IsSeatOf F.invariant store.old self.old.seat }
        requires ready { (t : Tables) × (p : Process) × IsSpaceInCall (body_of S.view self.old) t p no_extra × IsLastTable p.scheme t last.old }
        requires low { end ≤ trapframe_page self.old.layout.scheme }
        ensures leaf { (t : Tables) (p : Process) → IsSpaceInCall (body_of S.view self.old) t p no_extra → IsLastTable p.scheme t last.old
            → IsFirstLeaf t p first end result }
        ensures kept { (t : Tables) (p : Process) → IsSpaceInCall (body_of S.view self.old) t p no_extra → IsLastTable p.scheme t last.old
            → IsLastTable p.scheme t last.new }
        ensures reads { OnlyReads S.view self.old self.new store.old store.new }
        ensures keeps { KeepsSeats F.invariant store.old self.old.seat store.new self.new.seat }
    {
        let scheme = self.layout.scheme();
        if let Some(leaf) = leaf_before(
            store,
            &mut self.seat,
            scheme,
            self.root,
            first,
            end.number(),
            last,
        ) {
            return Some((first, leaf));
        }
        self.search_leaf(store, first, end)
    }

    /// `next_leaf` by a search through the page tables. Stops where the process's regions end.
    #[inline(never)]
    fn search_leaf<F: FrameAccess<Seat = S>>(
        &mut self,
        store: &mut F,
        first: Vpn,
        end: Vpn,
    ) -> Option<(Vpn, Entry)>
        requires fits { IsSeatOf F.invariant store.old self.old.seat }
        requires ready { (t : Tables) × (p : Process) × IsSpaceInCall (body_of S.view self.old) t p no_extra }
        requires low { end ≤ trapframe_page self.old.layout.scheme }
        ensures leaf { (t : Tables) (p : Process) → IsSpaceInCall (body_of S.view self.old) t p no_extra → IsFirstLeaf t p first end result }
        ensures reads { OnlyReads S.view self.old self.new store.old store.new }
        ensures keeps { KeepsSeats F.invariant store.old self.old.seat store.new self.new.seat }
    {
        let scheme = self.layout.scheme();
        let end = end.number().min(self.layout.end());
        next_leaf_before(store, &mut self.seat, scheme, self.root, first, end)
    }
}

/// Returns the leaf of a page that is below `end`, `None` if it has none or is not below. `last` is as for `leaf_with_last`.
#[inline(always)]
fn leaf_before<F: FrameAccess>(
    store: &mut F,
    seat: &mut F::Seat,
    scheme: Scheme,
    root: FrameNo,
    page: Vpn,
    end: u64,
    last: &mut Option<LastTable>,
) -> Option<Entry>
    requires fits { IsSeatOf F.invariant store.old seat.old }
    requires held { (t : Tables) × HasTables scheme (F.Seat.view seat.old) root.0 t × IsLastTable scheme t last.old }
    ensures leaf { (t : Tables) → HasTables scheme (F.Seat.view seat.old) root.0 t → IsLastTable scheme t last.old
        → IfSome result (λ leaf. (page < end) × (get t.leaves (walk_leaf scheme page) ≡ Some leaf)) }
    ensures kept { (t : Tables) → HasTables scheme (F.Seat.view seat.old) root.0 t → IsLastTable scheme t last.old → IsLastTable scheme t last.new }
    ensures view { F.Seat.view seat.new ≡ F.Seat.view seat.old }
    ensures same { store.new ≡ store.old }
    ensures keeps { KeepsSeats F.invariant store.old seat.old store.new seat.new }
{
    if page.number() < end {
        leaf_with_last(store, seat, scheme, root, page, last)
    } else {
        None
    }
}

/// Returns what the leaf of a page says: its frame, copy-on-write mark and D.
fn settled_by(page: Vpn, leaf: Entry) -> SettledPage
    requires { IsSome (frame_at (word.ppn leaf)) }
    ensures page { result.page ≡ page }
    ensures frame { frame_at (word.ppn leaf) ≡ Some result.frame }
    ensures cow { result.cow ≡ word.has_flag leaf 256 }
    ensures dirty { result.dirty ≡ word.has_flag leaf 128 }
{
    let Some(frame) = FrameNo::from_ppn(leaf.ppn()) else {
        unreachable!()
    };
    SettledPage {
        page,
        frame,
        cow: leaf.has(EntryFlags::COW),
        dirty: leaf.has(EntryFlags::DIRTY),
    }
}
