// `Space::settle`, which settles a page (brings it into memory): claims a frame, fills it with given bytes and maps it. For
// the crate also `add_page`, which does this by frames reserved before, and `frame_of`, which returns the frame that a
// page's leaf names.

ghost use Rattle.std.specs.FinMap.{get};
ghost use Rattle.std.specs.Prelude.{[], ◌≡◌, ◌+◌, ◌-◌, ◌^◌, ◌<◌, ◌≤◌, ◌↔◌, ◌==◌, false, if◌then◌else◌, IfErr, IfOk, is_ok, IsOk, length};
ghost use Rattle.std.specs.Prelude.{option_and_then, option_map, Some, ℕ};
ghost use Rattle.address_space.specs.Agreement.{body_of, IsSpace};
ghost use Rattle.address_space.specs.Kept.{KeepsPlace};
ghost use Rattle.address_space.specs.Layouts.{region_of};
ghost use Rattle.address_space.specs.Steps.{AddsPage, CanAdd, CanSettle, HasSettled, RunsDry};
ghost use Rattle.frame_store.specs.Laws.{IsSeatOf, KeepsSeats};
ghost use Rattle.frame_store.specs.View.{IsSole};
ghost use Rattle.process_model.specs.Frames.{settle_need};
ghost use Rattle.process_model.specs.Process.{Process};
ghost use Rattle.process_model.specs.Regions as model;
ghost use Rattle.sv39_entry.specs.Frame.{frame_at};
ghost use Rattle.sv39_entry.specs.Word as word;
ghost use Rattle.table_walk.specs.Tables.{HasTables, Tables, missing, walk_leaf};

use crate::region::Region;
use crate::space::Space;
use frame_bytes::fill_frame;
use frame_store::{FrameAccess, FrameSeat, FrameSupply, NoFrame};
use sv39_entry::{EntryFlags, FrameNo, Scheme, Vpn};
use table_walk::{leaf_of, map, missing_is_growth, missing_tables};

/// Returns the frame that a page's leaf names, and whether the leaf has D; `None` if the page has no leaf, or one that names
/// no frame.
pub(crate) fn frame_of<F: FrameAccess>(
    store: &mut F,
    seat: &mut F::Seat,
    scheme: Scheme,
    root: FrameNo,
    page: Vpn,
) -> Option<(FrameNo, bool)>
    requires fits { IsSeatOf F.invariant store.old seat.old }
    requires held { (t : Tables) × HasTables scheme (F.Seat.view seat.old) root.0 t }
    ensures frame { (t : Tables) → HasTables scheme (F.Seat.view seat.old) root.0 t →
        result ≡ option_and_then (λ w. option_map (λ f. (f, word.has_flag w 128)) (frame_at (word.ppn w))) (get t.leaves (walk_leaf scheme page)) }
    ensures view { F.Seat.view seat.new ≡ F.Seat.view seat.old }
    ensures same { store.new ≡ store.old }
    ensures keeps { KeepsSeats F.invariant store.old seat.old store.new seat.new }
{
    let leaf = leaf_of(store, seat, scheme, root, page)?;
    let frame = FrameNo::from_ppn(leaf.ppn())?;
    Some((frame, leaf.has(EntryFlags::DIRTY)))
}

/// Settles a page on a newly claimed frame with these bytes, at most 4,096, and zeros after them. Takes a credit for the
/// frame and one for each missing table. The frame is filled before a leaf names it.
pub(crate) fn add_page<F: FrameSupply>(
    store: &mut F,
    seat: &mut F::Seat,
    scheme: Scheme,
    root: FrameNo,
    page: Vpn,
    region: &Region,
    bytes: &[u8],
)
    requires fits { IsSeatOf F.invariant store.old seat.old }
    requires ready { (trapframe : ℕ) × (t : Tables) × (p : Process) × (p.scheme ≡ scheme)
        × CanAdd (F.Seat.view seat.old) root.0 trapframe t p page (region_of region.now) × (1 + missing scheme t page ≤ (F.Seat.view seat.old).credits) }
    requires inside { length bytes.now ≤ 4096 }
    ensures added { (trapframe : ℕ) (t : Tables) (p : Process) → p.scheme ≡ scheme
        → CanAdd (F.Seat.view seat.old) root.0 trapframe t p page (region_of region.now) →
        (u : Tables) × (f : ℕ) × AddsPage (F.Seat.view seat.old) (F.Seat.view seat.new) root.0 trapframe t u p page bytes.now f }
    ensures soles { (f : ℕ) → IsSole (F.Seat.view seat.old) f → IsSole (F.Seat.view seat.new) f }
    ensures keeps { KeepsSeats F.invariant store.old seat.old store.new seat.new }
    ensures free { F.alone → F.free store.new ≡ F.free store.old }
{
    let frame = store.claim(seat);
    fill_frame(store, seat, frame, bytes);
    map(
        store,
        seat,
        scheme,
        root,
        page,
        region.leaf(frame, false, region.is_dirty_from_start()),
    );
    // by its law the tables are those of this page too
    missing_is_growth();
}

impl<S: FrameSeat> Space<S> {
    /// Settles `page` on a newly claimed frame, with these bytes, at most 4,096, and zeros after them. The page must be
    /// unsettled and in a region. It gets no copy-on-write mark and no dirty mark. The frame and the missing page tables are
    /// reserved together. Makes no fence: the caller must.
    ///
    /// # Errors
    /// `NoFrame`: the space is the process that it was, by the same tables, and no frame was claimed. If nobody else
    /// changes the store (`alone`): exactly when fewer frames are free than the page and its missing tables take. Over
    /// shared frames: only after the free count was read as 0 with fewer than these reserved.
    pub fn settle<F: FrameSupply<Seat = S>>(
        &mut self,
        store: &mut F,
        page: Vpn,
        bytes: &[u8],
    ) -> Result<(), NoFrame>
        requires fits { IsSeatOf F.invariant store.old self.old.seat }
        requires ready { (t : Tables) × (p : Process) × CanSettle (body_of S.view self.old) t p page }
        requires inside { length bytes.now ≤ 4096 }
        ensures settled { IfOk result (λ _. HasSettled (body_of S.view self.old) (body_of S.view self.new) page bytes.now) }
        ensures dry { IfErr result (λ _. (t : Tables) (p : Process) →
            CanSettle (body_of S.view self.old) t p page →
            RunsDry (S.view self.old.seat) (S.view self.new.seat) (settle_need p page) []) }
        ensures whole { IfErr result (λ _. (t : Tables) (p : Process) →
            IsSpace (body_of S.view self.old) t p →
            IsSpace (body_of S.view self.new) t p) }
        ensures exact { F.alone → (t : Tables) (p : Process) →
            CanSettle (body_of S.view self.old) t p page →
            IsOk result ↔ (settle_need p page ≤ F.free store.old) }
        ensures free { F.alone → (t : Tables) (p : Process) →
            CanSettle (body_of S.view self.old) t p page →
            F.free store.new ≡ F.free store.old - (if is_ok result then settle_need p page else 0) }
        ensures place { KeepsPlace self.old self.new }
        ensures keeps { KeepsSeats F.invariant store.old self.old.seat store.new self.new.seat }
    {
        let scheme = self.layout.scheme();
        let Some(region) = self.layout.region_at(page.number()) else {
            unreachable!()
        };
        let missing = missing_tables(store, &mut self.seat, scheme, self.root, page);
        // by this law as many tables as `tables_needed` grows by with the page
        missing_is_growth();
        store.reserve(&mut self.seat, 1 + missing)?;
        add_page(
            store,
            &mut self.seat,
            scheme,
            self.root,
            page,
            &region,
            bytes,
        );
        Ok(())
    }
}
