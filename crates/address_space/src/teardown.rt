// Calls that release: `Space::drop_pages` unmaps a range of pages and drops the references to their frames; `Space::destroy`
// ends a space with its pages, tables, trapframe and frame 0. For the crate also their steps: drop a run of pages, release the
// tables of a space without pages.

ghost use Rattle.std.specs.Prelude.{[], ◌≡◌, ◌^◌, ◌<◌, ◌≤◌, ℕ};
ghost use Rattle.address_space.specs.Agreement.{body_of, HoldsTrapframe, IsSpace, no_extra, IsInMemory, IsAlive};
ghost use Rattle.address_space.specs.Kept.{KeepsPlace};
ghost use Rattle.address_space.specs.SpaceTeardown.{Drops, DropsFirst, DropsIf, DropsRun, IsEmptied, MayDrop, IsStripped};
ghost use Rattle.address_space.specs.SpacesInCalls.{IsSpaceInCall};
ghost use Rattle.address_space.specs.Steps.{IsBare, TakesFrames};
ghost use Rattle.frame_store.specs.Laws.{IsSeatOf, KeepsSeats};
ghost use Rattle.frame_store.specs.View.{hold_of};
ghost use Rattle.process_model.specs.Heap.{without_pages};
ghost use Rattle.process_model.specs.Process.{Process};
ghost use Rattle.sv39_entry.specs.Schemes.{trapframe_page, page_limit};
ghost use Rattle.table_walk.specs.LastTables.{IsLastTable};
ghost use Rattle.table_walk.specs.Tables.{HasTables, Tables};

use crate::space::Space;
use frame_store::{FrameAccess, FrameSeat};
use sv39_entry::{Entry, FrameNo, Scheme, Va, Vpn};
use table_walk::{LastTable, next_leaf_before, release_tables, unmap, unmap_with_last};

/// Removes the leaf of a page that is below `end`, if it has one, and then drops the reference to the frame that it named:
/// no leaf ever names a released frame. Returns whether there was a leaf. `last` is as for `unmap_with_last`.
#[inline(always)]
fn drop_leaf<F: FrameAccess>(
    store: &mut F,
    seat: &mut F::Seat,
    scheme: Scheme,
    root: FrameNo,
    page: Vpn,
    end: u64,
    last: &mut Option<LastTable>,
) -> bool
    requires fits { IsSeatOf F.invariant store.old seat.old }
    requires ready { (t : Tables) × HasTables scheme (F.Seat.view seat.old) root.0 t
        × MayDrop scheme (F.Seat.view seat.old) root.0 t page end × IsLastTable scheme t last.old }
    requires low { end ≤ page_limit scheme }
    ensures dropped { (t : Tables) → HasTables scheme (F.Seat.view seat.old) root.0 t
        → MayDrop scheme (F.Seat.view seat.old) root.0 t page end → IsLastTable scheme t last.old →
        DropsIf scheme result (F.Seat.view seat.old) (F.Seat.view seat.new) root.0 t page end }
    ensures kept { (t : Tables) → HasTables scheme (F.Seat.view seat.old) root.0 t → IsLastTable scheme t last.old → IsLastTable scheme t last.new }
    ensures keeps { KeepsSeats F.invariant store.old seat.old store.new seat.new }
    ensures free { F.alone → F.free store.old ≤ F.free store.new }
{
    if end <= page.number() {
        return false;
    }
    let Some(leaf) = unmap_with_last(store, seat, scheme, root, page, last) else {
        return false;
    };
    let Some(frame) = FrameNo::from_ppn(leaf.ppn()) else {
        unreachable!()
    };
    store.release(seat, frame);
    true
}

/// `drop_leaf` of the first page that has a leaf, from the page number `first` up to, and without, `end`. Returns the number
/// of that page, `None` if there is none. Page `first` is tried by itself: in a run of settled pages it is the one. `last` is
/// as for `unmap_with_last`.
#[inline(always)]
fn drop_first<F: FrameAccess>(
    store: &mut F,
    seat: &mut F::Seat,
    scheme: Scheme,
    root: FrameNo,
    first: u64,
    end: u64,
    last: &mut Option<LastTable>,
) -> Option<u64>
    requires fits { IsSeatOf F.invariant store.old seat.old }
    requires ready { (t : Tables) × HasTables scheme (F.Seat.view seat.old) root.0 t
        × ((page : ℕ) → MayDrop scheme (F.Seat.view seat.old) root.0 t page end) × IsLastTable scheme t last.old }
    requires low { end ≤ page_limit scheme }
    ensures dropped { (t : Tables) → HasTables scheme (F.Seat.view seat.old) root.0 t
        → ((page : ℕ) → MayDrop scheme (F.Seat.view seat.old) root.0 t page end) → IsLastTable scheme t last.old →
        DropsFirst scheme result (F.Seat.view seat.old) (F.Seat.view seat.new) root.0 t first end }
    ensures kept { (t : Tables) → HasTables scheme (F.Seat.view seat.old) root.0 t
        → ((page : ℕ) → MayDrop scheme (F.Seat.view seat.old) root.0 t page end) → IsLastTable scheme t last.old →
        IsLastTable scheme t last.new }
    ensures keeps { KeepsSeats F.invariant store.old seat.old store.new seat.new }
    ensures free { F.alone → F.free store.old ≤ F.free store.new }
{
    let page = Vpn::new(first)?;
    if drop_leaf(store, seat, scheme, root, page, end, last) {
        return Some(first);
    }
    let (page, _) = next_leaf_before(store, seat, scheme, root, page, end)?;
    if !drop_leaf(store, seat, scheme, root, page, end, last) {
        unreachable!()
    }
    Some(page.number())
}

/// Unmaps the settled pages from `first` up to, and without, the page number `end`, and drops the references to their
/// frames. Tables stay.
pub(crate) fn drop_run<F: FrameAccess>(
    store: &mut F,
    seat: &mut F::Seat,
    scheme: Scheme,
    root: FrameNo,
    first: Vpn,
    end: u64,
)
    requires fits { IsSeatOf F.invariant store.old seat.old }
    requires ready { (trapframe : ℕ) × (t : Tables) × (p : Process) × (p.scheme ≡ scheme) × IsInMemory (F.Seat.view seat.old) root.0 trapframe no_extra t p }
    requires low { end ≤ trapframe_page scheme }
    ensures dropped { (trapframe : ℕ) (t : Tables) (p : Process) → p.scheme ≡ scheme → IsInMemory (F.Seat.view seat.old) root.0 trapframe no_extra t p →
        (u : Tables) × DropsRun (F.Seat.view seat.old) (F.Seat.view seat.new) root.0 trapframe t u p first end }
    ensures keeps { KeepsSeats F.invariant store.old seat.old store.new seat.new }
    ensures free { F.alone → F.free store.old ≤ F.free store.new }
{
    let mut from = first.number();
    let mut last = None;
    'pages: while let Some(page) = drop_first(store, seat, scheme, root, from, end, &mut last) {
        from = page + 1;
    }
}

/// Releases the tables of a space without pages: removes TRAPFRAME's leaf, then TRAMPOLINE's, and then all tables. The seat
/// keeps the frames of these two pages.
pub(crate) fn release_emptied<F: FrameAccess>(
    store: &mut F,
    seat: &mut F::Seat,
    scheme: Scheme,
    root: FrameNo,
)
    requires fits { IsSeatOf F.invariant store.old seat.old }
    requires emptied { (trapframe : ℕ) × (t : Tables) × IsEmptied scheme (F.Seat.view seat.old) root.0 trapframe t }
    ensures strips { (trapframe : ℕ) (t : Tables) → IsEmptied scheme (F.Seat.view seat.old) root.0 trapframe t →
        IsStripped (F.Seat.view seat.old) (F.Seat.view seat.new) trapframe }
    ensures keeps { KeepsSeats F.invariant store.old seat.old store.new seat.new }
    ensures free { F.alone → F.free store.old ≤ F.free store.new }
{
    unmap(store, seat, scheme, root, scheme.trapframe().page());
    unmap(store, seat, scheme, root, scheme.trampoline().page());
    release_tables(store, seat, scheme, root);
}

impl<S: FrameSeat> Space<S> {
    /// Unmaps the settled pages from `first` up to, and without, `end`, which is TRAPFRAME or below, and drops the
    /// references to their frames. Page tables stay, even empty. Makes no fence: the caller must.
    pub fn drop_pages<F: FrameAccess<Seat = S>>(&mut self, store: &mut F, first: Vpn, end: Vpn)
        requires fits { IsSeatOf F.invariant store.old self.old.seat }
        requires ready { IsAlive (body_of S.view self.old) }
        requires low { end ≤ trapframe_page self.old.layout.scheme }
        ensures dropped { (t : Tables) (p : Process) →
            IsSpace (body_of S.view self.old) t p →
            (u : Tables) × IsSpace (body_of S.view self.new) u (without_pages p first end) × Drops t u first end }
        ensures tallies { TakesFrames (S.view self.old.seat) (S.view self.new.seat) 0 [] }
        ensures place { KeepsPlace self.old self.new }
        ensures keeps { KeepsSeats F.invariant store.old self.old.seat store.new self.new.seat }
        ensures free { F.alone → F.free store.old ≤ F.free store.new }
    {
        let scheme = self.layout.scheme();
        drop_run(
            store,
            &mut self.seat,
            scheme,
            self.root,
            first,
            end.number(),
        );
    }

    /// Takes the space apart: releases its pages and then its tables. Returns the seat and the trapframe's frame. The seat
    /// keeps its credits, frame 0, and the trapframe's frame with what it has and knows of it.
    fn strip<F: FrameAccess<Seat = S>>(self, store: &mut F) -> (S, FrameNo)
        requires fits { IsSeatOf F.invariant store.old self.seat }
        requires ready { (t : Tables) × (p : Process) × IsSpaceInCall (body_of S.view self) t p no_extra }
        ensures trapframe { result.1 ≡ self.trapframe }
        ensures holds { HoldsTrapframe (S.view result.0) self.trapframe.0 }
        ensures saved { hold_of (S.view result.0) self.trapframe.0 ≡ hold_of (S.view self.seat) self.trapframe.0 }
        ensures credits { (S.view result.0).credits ≡ (S.view self.seat).credits }
        ensures tallies { TakesFrames (S.view self.seat) (S.view result.0) 0 [] }
        ensures keeps { KeepsSeats F.invariant store.old self.seat store.new result.0 }
        ensures free { F.alone → F.free store.old ≤ F.free store.new }
    {
        let scheme = self.layout.scheme();
        let end = self.layout.end();
        let Space {
            mut seat,
            root,
            trapframe,
            ..
        } = self;
        drop_run(store, &mut seat, scheme, root, Va(0).page(), end);
        release_emptied(store, &mut seat, scheme, root);
        (seat, trapframe)
    }

    /// Ends the space: releases its pages, its tables, the trapframe's frame and last frame 0. Returns the seat, which holds
    /// no frame and no credit.
    pub fn destroy<F: FrameAccess<Seat = S>>(self, store: &mut F) -> S
        requires fits { IsSeatOf F.invariant store.old self.seat }
        requires ready { IsAlive (body_of S.view self) }
        ensures bare { IsBare (S.view result) }
        ensures tallies { TakesFrames (S.view self.seat) (S.view result) 0 [] }
        ensures keeps { KeepsSeats F.invariant store.old self.seat store.new result }
        ensures free { F.alone → F.free store.old ≤ F.free store.new }
    {
        let (mut seat, trapframe) = self.strip(store);
        store.release(&mut seat, trapframe);
        store.release(&mut seat, FrameNo(0));
        seat
    }
}
