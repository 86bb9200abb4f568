// `Space::own`, copy-on-write: takes over a settled page (one in memory) with the copy-on-write mark, for a store. It removes
// the mark, and the page keeps its frame if the reference count is 1, else moves to a newly claimed frame with the same bytes.

ghost use Rattle.std.specs.Prelude.{[], ◌≡◌, ◌≢◌, ◌∷◌, ◌+◌, ◌-◌, ◌<◌, ◌≤◌, ◌↔◌, ◌==◌, cond, if◌then◌else◌, IfErr, IfOk, is_ok, IsOk, ℕ};
ghost use Rattle.address_space.specs.Agreement.{body_of, IsSpace};
ghost use Rattle.address_space.specs.Layouts.{region_of};
ghost use Rattle.address_space.specs.CopyOnWrite.{CanSeparate, Separates};
ghost use Rattle.address_space.specs.Kept.{KeepsPlace};
ghost use Rattle.address_space.specs.Steps.{CanOwn, HasOwned, own_need, RunsDry, WhenOwnable};
ghost use Rattle.frame_store.specs.Laws.{IsSeatOf, KeepsSeats};
ghost use Rattle.process_model.specs.Process.{Page, Process};
ghost use Rattle.table_walk.specs.Tables.{Tables};

use crate::pages::frame_of;
use crate::region::Region;
use crate::space::Space;
use frame_bytes::copy_frame;
use frame_store::{FrameAccess, FrameSeat, FrameSupply, NoFrame};
use sv39_entry::{FrameNo, Scheme, Vpn};
use table_walk::protect;

impl<S: FrameSeat> Space<S> {
    /// Takes over `page` for a store (the xv6 book, "Page-fault exceptions"). It must be settled, with the copy-on-write mark,
    /// and in a region that grants writing. Removes the mark, so that its leaf has W. If the reference count of its frame is
    /// read as 1, the page keeps the frame. Else it gets a newly claimed frame with the same bytes, and the reference to the
    /// old frame is dropped. Makes no fence: the caller must.
    ///
    /// # Errors
    /// `NoFrame`: the count was read as other than 1. The space is then the process that it was, by the same tables, and no
    /// frame was claimed. If nobody else changes the store (`alone`): exactly when the count is not 1 and no frame is free.
    /// Over shared frames: only after the free count was read as 0.
    pub fn own<F: FrameSupply<Seat = S>>(&mut self, store: &mut F, page: Vpn) -> Result<(), NoFrame>
        requires fits { IsSeatOf F.invariant store.old self.old.seat }
        requires ready { (t : Tables) × (p : Process) × (s : Page) × (f : ℕ) × CanOwn (body_of S.view self.old) t p page s f }
        ensures owned { IfOk result (λ _. HasOwned (body_of S.view self.old) (body_of S.view self.new) page (λ f c. F.alone → c ≡ F.count store.old f)) }
        ensures dry { IfErr result (λ _. (c : ℕ) × (c ≢ 1) × RunsDry (S.view self.old.seat) (S.view self.new.seat) 1 (c ∷ [])) }
        ensures whole { IfErr result (λ _. (t : Tables) (p : Process) →
            IsSpace (body_of S.view self.old) t p →
            IsSpace (body_of S.view self.new) t p) }
        ensures exact { F.alone → WhenOwnable (body_of S.view self.old) page (λ f. IsOk result ↔ (own_need (F.count store.old f) ≤ F.free store.old)) }
        ensures free { F.alone → WhenOwnable (body_of S.view self.old) page (λ f.
            F.free store.new ≡ F.free store.old - (if is_ok result then own_need (F.count store.old f) else 0)) }
        ensures place { KeepsPlace self.old self.new }
        ensures keeps { KeepsSeats F.invariant store.old self.old.seat store.new self.new.seat }
    {
        let scheme = self.layout.scheme();
        let Some(region) = self.layout.region_at(page.number()) else {
            unreachable!()
        };
        let Some((shared, dirty)) = frame_of(store, &mut self.seat, scheme, self.root, page) else {
            unreachable!()
        };
        let sole = store.look(&mut self.seat, shared) == 1;
        if sole {
            protect(
                store,
                &mut self.seat,
                scheme,
                self.root,
                page,
                region.leaf(shared, false, dirty),
            );
            return Ok(());
        }
        store.reserve(&mut self.seat, 1)?;
        separate(
            store,
            &mut self.seat,
            scheme,
            self.root,
            page,
            &region,
            shared,
            dirty,
        );
        Ok(())
    }
}

/// Moves a page to a newly claimed frame, by a credit, with the bytes of the frame that it was on and without copy-on-write
/// mark. The bytes are copied before the leaf names the new frame, and the leaf changes before the reference to the old frame
/// is dropped.
fn separate<F: FrameSupply>(
    store: &mut F,
    seat: &mut F::Seat,
    scheme: Scheme,
    root: FrameNo,
    page: Vpn,
    region: &Region,
    shared: FrameNo,
    dirty: bool,
)
    requires fits { IsSeatOf F.invariant store.old seat.old }
    requires ready { (trapframe : ℕ) × (t : Tables) × (p : Process) × (s : Page) × (p.scheme ≡ scheme)
        × CanSeparate (F.Seat.view seat.old) root.0 trapframe t p page s (region_of region.now) shared.0 dirty }
    requires credit { 0 < (F.Seat.view seat.old).credits }
    ensures separated { (trapframe : ℕ) (t : Tables) (p : Process) (s : Page) → p.scheme ≡ scheme →
        CanSeparate (F.Seat.view seat.old) root.0 trapframe t p page s (region_of region.now) shared.0 dirty →
        (u : Tables) × (g : ℕ) × Separates (F.Seat.view seat.old) (F.Seat.view seat.new) root.0 trapframe t u p page s g }
    ensures keeps { KeepsSeats F.invariant store.old seat.old store.new seat.new }
    ensures free { F.alone → F.free store.new ≡ F.free store.old + cond (F.count store.old shared.0 == 1) 1 0 }
{
    let own = store.claim(seat);
    copy_frame(store, seat, shared, own);
    protect(
        store,
        seat,
        scheme,
        root,
        page,
        region.leaf(own, false, dirty),
    );
    store.release(seat, shared);
}
