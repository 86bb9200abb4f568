// Calls that build the space of a process from its parts (regions with their first bytes): `Space::build` for a start,
// `rebuild` for exec in place of the old process. First a table that maps TRAMPOLINE and TRAPFRAME, then for each page of
// the parts a frame with its bytes. Also `TRAMPOLINE_FRAME`, the number of the frame that has the trampoline's code.

ghost use Rattle.std.specs.Prelude.{[], ◌≡◌, ◌-◌, ◌≤◌, ◌↔◌, if◌then◌else◌, IfErr, IfOk, is_ok, IsOk, ℕ};
ghost use Rattle.address_space.specs.Agreement.{body_of, IsSpace, HoldsTrampoline, HoldsTrapframe};
ghost use Rattle.address_space.specs.SpaceTeardown.{CanEnd};
ghost use Rattle.address_space.specs.Parts.{AreParts, bare_process, build_need, CanFill, CanOpen, FillsPages, OpensSpace, OwnsAlone};
ghost use Rattle.address_space.specs.Parts.{pages_need, pages_of, part_pages, process_of_parts, StandsAlone, tree_need};
ghost use Rattle.address_space.specs.Steps.{TakesFrames};
ghost use Rattle.frame_store.specs.Laws.{IsSeatOf, IsDry, KeepsSeats};
ghost use Rattle.frame_store.specs.View.{hold_of};
ghost use Rattle.process_model.specs.Process.{Process};
ghost use Rattle.table_walk.specs.Tables.{Tables};

use crate::frame_need::frames_needed;
use crate::kernel::leaf_for_kernel;
use crate::layout::Layout;
use crate::pages::add_page;
use crate::part::Part;
use crate::space::Space;
use crate::teardown::{drop_run, release_emptied};
use frame_bytes::fill_frame;
use frame_store::{FrameAccess, FrameSeat, FrameSupply, NoFrame};
use sv39_entry::{FrameNo, PAGE_SIZE, Scheme, Va};
use table_walk::{map, missing_is_growth, new_table};

/// The frame that TRAMPOLINE maps in every space: frame 0, which has the trampoline's code.
pub const TRAMPOLINE_FRAME: FrameNo = FrameNo(0);

impl<S: FrameSeat> Space<S> {
    /// Builds the space of a process that starts with these parts: at most 18, in ascending order and apart, each ending at
    /// TRAPFRAME or below, with rights that fit a leaf and no file as its source. The seat must hold frame 0 once, no other
    /// frame, and no credits. All frames are reserved, `frames_needed` of them, before anything is built: the trapframe's,
    /// one for each page, and the page tables. Every page is settled, on a frame of its own.
    ///
    /// # Errors
    /// `NoFrame`, with the seat, whose frames and credits are unchanged. If nobody else changes the store (`alone`):
    /// exactly when fewer than `frames_needed` frames are free. Over shared frames: only after the free count was read as 0
    /// with fewer than these reserved.
    pub fn build<F: FrameSupply<Seat = S>>(
        store: &mut F,
        mut seat: S,
        scheme: Scheme,
        parts: &[Part],
    ) -> Result<Space<S>, (NoFrame, S)>
        requires fits { IsSeatOf F.invariant store.old seat }
        requires parts { AreParts scheme parts.now }
        requires seat { HoldsTrampoline (S.view seat) }
        ensures built { IfOk result (λ s. (t : Tables)
            × ((fresh : ℕ) → IsSpace (body_of S.view s) t (process_of_parts scheme fresh parts.now)) × OwnsAlone (S.view s.seat) t) }
        ensures takes { IfOk result (λ s. TakesFrames (S.view seat) (S.view s.seat) (build_need scheme parts.now) []) }
        ensures refused { IfErr result (λ e. IsDry (build_need scheme parts.now) (S.view seat) (S.view e.1)) }
        ensures exact { F.alone → IsOk result ↔ (build_need scheme parts.now ≤ F.free store.old) }
        ensures free { F.alone → F.free store.new ≡ F.free store.old - (if is_ok result then build_need scheme parts.now else 0) }
        ensures keeps { IfOk result (λ s. KeepsSeats F.invariant store.old seat store.new s.seat) }
        ensures keeps_refused { IfErr result (λ e. KeepsSeats F.invariant store.old seat store.new e.1) }
    {
        if let Err(none) = store.reserve(&mut seat, frames_needed(scheme, parts)) {
            return Err((none, seat));
        }
        let trapframe = store.claim(&mut seat);
        fill_frame(store, &mut seat, trapframe, &[]);
        Ok(Space::build_reserved(store, seat, scheme, trapframe, parts))
    }

    /// `build` after its reservation: by the seat's credits, one for each page and page table, and with a frame for the
    /// trapframe that the seat holds alone. What the seat has and knows of that frame stays.
    fn build_reserved<F: FrameSupply<Seat = S>>(
        store: &mut F,
        mut seat: S,
        scheme: Scheme,
        trapframe: FrameNo,
        parts: &[Part],
    ) -> Space<S>
        requires fits { IsSeatOf F.invariant store.old seat }
        requires parts { AreParts scheme parts.now }
        requires seat { HoldsTrapframe (S.view seat) trapframe.0 }
        requires credits { (S.view seat).credits ≡ tree_need scheme parts.now }
        ensures built { (t : Tables) × ((fresh : ℕ) → IsSpace (body_of S.view result) t (process_of_parts scheme fresh parts.now))
            × OwnsAlone (S.view result.seat) t }
        ensures trapframe { result.trapframe ≡ trapframe }
        ensures saved { hold_of (S.view result.seat) trapframe.0 ≡ hold_of (S.view seat) trapframe.0 }
        ensures takes { TakesFrames (S.view seat) (S.view result.seat) (tree_need scheme parts.now) [] }
        ensures free { F.alone → F.free store.new ≡ F.free store.old }
        ensures keeps { KeepsSeats F.invariant store.old seat store.new result.seat }
    {
        let root = open_tables(store, &mut seat, scheme, trapframe);
        fill_parts(store, &mut seat, scheme, root, parts);
        Space {
            seat,
            root,
            trapframe,
            layout: Layout::new(scheme, parts),
        }
    }

    /// Replaces the process of the space by one that starts with these parts, by the same scheme (exec): releases all old
    /// pages and tables, and builds the new ones by the seat's credits, which must be exactly one for each page and page
    /// table (`frames_needed` less 1). The parts are such as `build` takes. TRAPFRAME keeps its frame; what the seat has
    /// and knows of that frame stays. Cannot fail. Makes no fence: the caller must.
    pub fn rebuild<F: FrameSupply<Seat = S>>(&mut self, store: &mut F, parts: &[Part])
        requires fits { IsSeatOf F.invariant store.old self.old.seat }
        requires parts { AreParts self.old.layout.scheme parts.now }
        requires ready { (t : Tables) × (p : Process) × CanEnd (body_of S.view self.old) t p }
        requires credits { (S.view self.old.seat).credits ≡ tree_need self.old.layout.scheme parts.now }
        ensures built { (t : Tables)
            × ((fresh : ℕ) → IsSpace (body_of S.view self.new) t (process_of_parts self.old.layout.scheme fresh parts.now))
            × OwnsAlone (S.view self.new.seat) t }
        ensures trapframe { self.new.trapframe ≡ self.old.trapframe }
        ensures saved { hold_of (S.view self.new.seat) self.old.trapframe.0 ≡ hold_of (S.view self.old.seat) self.old.trapframe.0 }
        ensures takes { TakesFrames (S.view self.old.seat) (S.view self.new.seat) (tree_need self.old.layout.scheme parts.now) [] }
        ensures free { F.alone → F.free store.old ≤ F.free store.new }
        ensures keeps { KeepsSeats F.invariant store.old self.old.seat store.new self.new.seat }
    {
        let scheme = self.layout.scheme();
        drop_run(
            store,
            &mut self.seat,
            scheme,
            self.root,
            Va(0).page(),
            scheme.trapframe().page().number(),
        );
        release_emptied(store, &mut self.seat, scheme, self.root);
        self.root = open_tables(store, &mut self.seat, scheme, self.trapframe);
        fill_parts(store, &mut self.seat, scheme, self.root, parts);
        self.layout = Layout::new(scheme, parts);
    }
}

/// Makes a root table that maps TRAMPOLINE, and TRAPFRAME over `trapframe`, and returns it. Takes a credit for the root, and
/// one for each table below it on the way to these two pages.
fn open_tables<F: FrameSupply>(
    store: &mut F,
    seat: &mut F::Seat,
    scheme: Scheme,
    trapframe: FrameNo,
) -> FrameNo
    requires fits { IsSeatOf F.invariant store.old seat.old }
    requires ready { CanOpen scheme (F.Seat.view seat.old) trapframe.0 }
    ensures opened { (t : Tables) × OpensSpace scheme (F.Seat.view seat.old) (F.Seat.view seat.new) result.0 trapframe.0 t }
    ensures keeps { KeepsSeats F.invariant store.old seat.old store.new seat.new }
    ensures free { F.alone → F.free store.new ≡ F.free store.old }
{
    missing_is_growth();
    let root = new_table(store, seat);
    let trampoline = leaf_for_kernel(TRAMPOLINE_FRAME);
    map(
        store,
        seat,
        scheme,
        root,
        scheme.trampoline().page(),
        trampoline,
    );
    let saved = leaf_for_kernel(trapframe);
    map(store, seat, scheme, root, scheme.trapframe().page(), saved);
    root
}

/// Settles each page of the parts on a frame with its bytes, by the seat's credits.
fn fill_parts<F: FrameSupply>(
    store: &mut F,
    seat: &mut F::Seat,
    scheme: Scheme,
    root: FrameNo,
    parts: &[Part],
)
    requires fits { IsSeatOf F.invariant store.old seat.old }
    requires parts { AreParts scheme parts.now }
    requires ready { (trapframe : ℕ) × (t : Tables) × StandsAlone (F.Seat.view seat.old) root.0 trapframe t (bare_process scheme parts.now) }
    requires credits { pages_need (bare_process scheme parts.now) (pages_of parts.now) ≤ (F.Seat.view seat.old).credits }
    ensures filled { (trapframe : ℕ) (t : Tables) → StandsAlone (F.Seat.view seat.old) root.0 trapframe t (bare_process scheme parts.now) →
        (u : Tables) × FillsPages (F.Seat.view seat.old) (F.Seat.view seat.new) root.0 trapframe u (bare_process scheme parts.now) (pages_of parts.now) }
    ensures keeps { KeepsSeats F.invariant store.old seat.old store.new seat.new }
    ensures free { F.alone → F.free store.new ≡ F.free store.old }
{
    'parts: for part in parts {
        fill_part(store, seat, scheme, root, part);
    }
}

/// Settles each page of a part on a frame with its bytes, by the seat's credits.
fn fill_part<F: FrameSupply>(
    store: &mut F,
    seat: &mut F::Seat,
    scheme: Scheme,
    root: FrameNo,
    part: &Part,
)
    requires fits { IsSeatOf F.invariant store.old seat.old }
    requires ready { (trapframe : ℕ) × (t : Tables) × (p : Process) × (p.scheme ≡ scheme)
        × CanFill (F.Seat.view seat.old) root.0 trapframe t p part.now × (pages_need p (part_pages part.now) ≤ (F.Seat.view seat.old).credits) }
    ensures filled { (trapframe : ℕ) (t : Tables) (p : Process) → p.scheme ≡ scheme → CanFill (F.Seat.view seat.old) root.0 trapframe t p part.now →
        (u : Tables) × FillsPages (F.Seat.view seat.old) (F.Seat.view seat.new) root.0 trapframe u p (part_pages part.now) }
    ensures keeps { KeepsSeats F.invariant store.old seat.old store.new seat.new }
    ensures free { F.alone → F.free store.new ≡ F.free store.old }
{
    missing_is_growth();
    let region = part.region;
    let mut rest = part.bytes;
    'pages: for number in region.first..region.first + region.pages {
        let page = Va(number * PAGE_SIZE).page();
        let (bytes, behind) = rest.split_at((PAGE_SIZE as usize).min(rest.len()));
        add_page(store, seat, scheme, root, page, &region, bytes);
        rest = behind;
    }
}
