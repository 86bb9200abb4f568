// Two calls of `Space` that set a mark in the leaf of a settled page (one in memory): `mark_stored` sets the dirty mark (D), by
// which a page of a writable shared mapping is written back to its file; `mark_forked` sets the copy-on-write mark (RSW bit 8,
// W clear), so that the next store takes the page over first (copy-on-write).

ghost use Rattle.std.specs.Prelude.{◌≡◌, ℕ};
ghost use Rattle.address_space.specs.Agreement.{body_of};
ghost use Rattle.address_space.specs.Kept.{KeepsPlace};
ghost use Rattle.address_space.specs.SettledLists.{IsSettledPage};
ghost use Rattle.address_space.specs.SpacesInCalls.{HasMarkedForked, IsSpaceInCall};
ghost use Rattle.address_space.specs.Steps.{CanWrite, MarksStored};
ghost use Rattle.frame_store.specs.Laws.{IsSeatOf, KeepsSeats};
ghost use Rattle.process_model.specs.Process.{Page, Process};
ghost use Rattle.table_walk.specs.Tables.{Tables};

use crate::pages::frame_of;
use crate::settled_pages::SettledPage;
use crate::space::Space;
use frame_store::{FrameAccess, FrameSeat};
use sv39_entry::{Access, Vpn};
use table_walk::protect;

impl<S: FrameSeat> Space<S> {
    /// Sets the dirty mark (D; RISC-V Privileged Architecture 20211203, 4.3.1) on `page` if its stores are written back to a
    /// file: if its region is a shared mapping. The page must be settled, without copy-on-write mark, and in a region that
    /// grants writing; in a region of any other kind it has D already, and keeps its leaf. The page keeps its frame. Makes no
    /// fence: the caller must.
    pub fn mark_stored<F: FrameAccess<Seat = S>>(&mut self, store: &mut F, page: Vpn)
        requires fits { IsSeatOf F.invariant store.old self.old.seat }
        requires ready { (t : Tables) × (p : Process) × (s : Page) × CanWrite (body_of S.view self.old) t p page s }
        ensures marked { (t : Tables) (p : Process) (s : Page) → CanWrite (body_of S.view self.old) t p page s →
            (u : Tables) × MarksStored (S.view self.old.seat) (body_of S.view self.new) t u p page s }
        ensures place { KeepsPlace self.old self.new }
        ensures keeps { KeepsSeats F.invariant store.old self.old.seat store.new self.new.seat }
        ensures free { F.alone → F.free store.new ≡ F.free store.old }
        ensures counts { F.alone → (f : ℕ) → F.count store.new f ≡ F.count store.old f }
    {
        let scheme = self.layout.scheme();
        let Some(region) = self.layout.region_at(page.number()) else {
            unreachable!()
        };
        let Some((frame, _)) = frame_of(store, &mut self.seat, scheme, self.root, page) else {
            unreachable!()
        };
        let leaf = region.leaf(frame, false, true);
        protect(store, &mut self.seat, scheme, self.root, page, leaf);
    }

    /// Puts the copy-on-write mark on a settled page if its region grants writing: its leaf gets RSW bit 8, loses W and keeps
    /// its frame, and the next store takes the page over first (the xv6 book, "Page-fault exceptions"). A page of any other
    /// region stays as it is. `settled` is the page as it is now, with its frame and D, so its leaf is not read again. The seat
    /// may have credits and further references. Makes no fence: the caller must.
    pub fn mark_forked<F: FrameAccess<Seat = S>>(&mut self, store: &mut F, settled: &SettledPage)
        requires fits { IsSeatOf F.invariant store.old self.old.seat }
        requires ready { (t : Tables) × (p : Process) × (extra : ℕ → ℕ) × IsSpaceInCall (body_of S.view self.old) t p extra × IsSettledPage t p settled.now }
        ensures marked { HasMarkedForked (body_of S.view self.old) (body_of S.view self.new) settled.now }
        ensures place { KeepsPlace self.old self.new }
        ensures keeps { KeepsSeats F.invariant store.old self.old.seat store.new self.new.seat }
        ensures free { F.alone → F.free store.new ≡ F.free store.old }
        ensures counts { F.alone → (f : ℕ) → F.count store.new f ≡ F.count store.old f }
    {
        let scheme = self.layout.scheme();
        let Some(region) = self.layout.region_at(settled.page.number()) else {
            unreachable!()
        };
        if region.lacks_right(Access::Store) {
            return;
        }
        let leaf = region.leaf(settled.frame, true, settled.dirty);
        protect(store, &mut self.seat, scheme, self.root, settled.page, leaf);
    }
}
