// Struct `Space`, the address space of a process in memory: its seat, the frames of its root table and trapframe, and its
// layout (the regions). Calls: `grant` checks an access by the regions; reads and writes of settled pages, by width or whole;
// and changes of the layout: the size, mappings.

ghost use Rattle.std.specs.Prelude.{[], ◌≡◌, ◌%◌, ◌<◌, ℕ, IsTrue, length, option_map};
ghost use Rattle.address_space.specs.Agreement.{body_of, IsSpace, IsFrameOfPage};
ghost use Rattle.address_space.specs.Kept.{KeepsPlace, OnlyReads};
ghost use Rattle.address_space.specs.Layouts.{granted_unless, region_of};
ghost use Rattle.address_space.specs.SpacesInCalls.{HasSettledPage};
ghost use Rattle.address_space.specs.Steps.{CanRead, CanWrite, HasReplacedLayout, HasStored, left_with, mapped_with, sized, stored_at, TakesFrames};
ghost use Rattle.frame_store.specs.Laws.{IsSeatOf, KeepsSeats};
ghost use Rattle.process_model.specs.Bytes.{is_width};
ghost use Rattle.process_model.specs.declared.limits.TheConstants.{MOST_MAPPINGS};
ghost use Rattle.process_model.specs.Process.{Page, Process, regions};
ghost use Rattle.process_model.specs.Regions as model;
ghost use Rattle.process_model.specs.Residence.{loaded};
ghost use Rattle.sv39_entry.specs.Address.{page_of};
ghost use Rattle.table_walk.specs.Tables.{Tables};

use crate::layout::Layout;
use crate::pages::frame_of;
use crate::region::Region;
use frame_bytes::{load_bytes, read_frame, store_bytes};
use frame_store::{FrameAccess, FrameSeat};
use sv39_entry::{Access, FrameNo, Rule, Va, Vpn};

/// A process's address space: the seat by which it holds its frames, its page table, its trapframe's frame and its regions.
/// It owns its seat; a call takes any store that has seats of that type.
#[derive(Drop)]
pub struct Space<S: FrameSeat> {
    pub seat: S,
    /// The frame of the root page table.
    pub root: FrameNo,
    /// The frame that TRAPFRAME maps.
    pub trapframe: FrameNo,
    pub layout: Layout,
}

impl<S: FrameSeat> Space<S> {
    /// Checks by the regions whether the user may make an access of `width` bytes, which is not 0, at `va`. The page need
    /// not be resident; no page table is read.
    ///
    /// # Errors
    /// Exactly when a rule of the regions denies the access: the first such rule. It is `Misaligned` if `va` is no multiple
    /// of `width`, else the rule that `Layout::copy_rule` returns.
    pub fn grant(&self, access: Access, va: Va, width: u64) -> Result<(), Rule>
        requires { 0 < width }
        ensures { (t : Tables) (p : Process) → IsSpace (body_of S.view self.now) t p →
            result ≡ granted_unless (model.first_rule p.scheme (regions p) access va.0 width) }
    {
        self.layout.grant(access, va, width)
    }

    /// Returns the `width` bytes at `va` as a little-endian number without sign. The page must be settled; `width` is 1, 2,
    /// 4 or 8, and `va` a multiple of it. Rights are not checked.
    pub fn read<F: FrameAccess<Seat = S>>(&mut self, store: &mut F, va: Va, width: u64) -> u64
        requires fits { IsSeatOf F.invariant store.old self.old.seat }
        requires ready { (t : Tables) × (p : Process) × (s : Page) × CanRead (body_of S.view self.old) t p (page_of va.0) s }
        requires width { IsTrue (is_width width) }
        requires aligned { va.0 % width ≡ 0 }
        ensures value { (t : Tables) (p : Process) (s : Page) → CanRead (body_of S.view self.old) t p (page_of va.0) s → result ≡ loaded s (va.0 % 4096) width }
        ensures reads { OnlyReads S.view self.old self.new store.old store.new }
        ensures keeps { KeepsSeats F.invariant store.old self.old.seat store.new self.new.seat }
    {
        let frame = self.page_frame(store, va.page());
        self.read_at(store, frame, va, width)
    }

    /// Returns the `width` bytes at `va`, as `read` does, from `frame`: the frame of the page, which the caller has from a
    /// translation. The page must be settled; `width` is 1, 2, 4 or 8, and `va` a multiple of it. Rights are not checked.
    pub fn read_at<F: FrameAccess<Seat = S>>(
        &mut self,
        store: &mut F,
        frame: FrameNo,
        va: Va,
        width: u64,
    ) -> u64
        requires fits { IsSeatOf F.invariant store.old self.old.seat }
        requires ready { (t : Tables) × (p : Process) × (s : Page) × CanRead (body_of S.view self.old) t p (page_of va.0) s
            × IsFrameOfPage t (page_of va.0) frame.0 }
        requires width { IsTrue (is_width width) }
        requires aligned { va.0 % width ≡ 0 }
        ensures value { (t : Tables) (p : Process) (s : Page) → CanRead (body_of S.view self.old) t p (page_of va.0) s
            → IsFrameOfPage t (page_of va.0) frame.0 → result ≡ loaded s (va.0 % 4096) width }
        ensures reads { OnlyReads S.view self.old self.new store.old store.new }
        ensures keeps { KeepsSeats F.invariant store.old self.old.seat store.new self.new.seat }
    {
        load_bytes(
            store,
            &mut self.seat,
            frame,
            va.offset() as usize,
            width as usize,
        )
    }

    /// Copies the 4,096 bytes of `page`, which must be settled, into `bytes`. The seat may have credits.
    pub fn page_bytes<F: FrameAccess<Seat = S>>(
        &mut self,
        store: &mut F,
        page: Vpn,
        bytes: &mut [u8; 4096],
    )
        requires fits { IsSeatOf F.invariant store.old self.old.seat }
        requires ready { (t : Tables) × (p : Process) × (s : Page) × HasSettledPage (body_of S.view self.old) t p page s }
        ensures bytes { (t : Tables) (p : Process) (s : Page) → HasSettledPage (body_of S.view self.old) t p page s → bytes.new ≡ s.bytes }
        ensures reads { OnlyReads S.view self.old self.new store.old store.new }
        ensures keeps { KeepsSeats F.invariant store.old self.old.seat store.new self.new.seat }
    {
        let frame = self.page_frame(store, page);
        read_frame(store, &mut self.seat, frame, bytes);
    }

    /// Stores the `width` lowest bytes of `value`, the lowest first, at `va`. The page must be settled, without copy-on-write
    /// mark, and in a region that grants writing; `width` is 1, 2, 4 or 8, and `va` a multiple of it. Sets no mark.
    pub fn write<F: FrameAccess<Seat = S>>(&mut self, store: &mut F, va: Va, width: u64, value: u64)
        requires fits { IsSeatOf F.invariant store.old self.old.seat }
        requires ready { (t : Tables) × (p : Process) × (s : Page) × CanWrite (body_of S.view self.old) t p (page_of va.0) s }
        requires width { IsTrue (is_width width) }
        requires aligned { va.0 % width ≡ 0 }
        ensures agrees { (t : Tables) (p : Process) (s : Page) → CanWrite (body_of S.view self.old) t p (page_of va.0) s →
            IsSpace (body_of S.view self.new) t (stored_at p s va.0 width value) }
        ensures place { KeepsPlace self.old self.new }
        ensures tallies { TakesFrames (S.view self.old.seat) (S.view self.new.seat) 0 [] }
        ensures keeps { KeepsSeats F.invariant store.old self.old.seat store.new self.new.seat }
        ensures free { F.alone → F.free store.new ≡ F.free store.old }
        ensures counts { F.alone → (f : ℕ) → F.count store.new f ≡ F.count store.old f }
    {
        let frame = self.page_frame(store, va.page());
        self.write_at(store, frame, va, width, value);
    }

    /// Stores the `width` lowest bytes of `value` at `va`, as `write` does, to `frame`: the frame of the page, which the caller
    /// has from a translation. The page must be settled, without copy-on-write mark, and in a region that grants writing;
    /// `width` is 1, 2, 4 or 8, and `va` a multiple of it. Sets no mark.
    pub fn write_at<F: FrameAccess<Seat = S>>(
        &mut self,
        store: &mut F,
        frame: FrameNo,
        va: Va,
        width: u64,
        value: u64,
    )
        requires fits { IsSeatOf F.invariant store.old self.old.seat }
        requires ready { (t : Tables) × (p : Process) × (s : Page) × CanWrite (body_of S.view self.old) t p (page_of va.0) s
            × IsFrameOfPage t (page_of va.0) frame.0 }
        requires width { IsTrue (is_width width) }
        requires aligned { va.0 % width ≡ 0 }
        ensures agrees { HasStored (body_of S.view self.old) (body_of S.view self.new) va.0 width value (λ t. IsFrameOfPage t (page_of va.0) frame.0) }
        ensures place { KeepsPlace self.old self.new }
        ensures tallies { TakesFrames (S.view self.old.seat) (S.view self.new.seat) 0 [] }
        ensures keeps { KeepsSeats F.invariant store.old self.old.seat store.new self.new.seat }
        ensures free { F.alone → F.free store.new ≡ F.free store.old }
        ensures counts { F.alone → (f : ℕ) → F.count store.new f ≡ F.count store.old f }
    {
        store_bytes(
            store,
            &mut self.seat,
            frame,
            va.offset() as usize,
            width as usize,
            value,
        );
    }

    /// Sets the size in bytes, the address at which the heap ends. Settles and releases no page. The space is then the
    /// process with this size, if its regions are in order and each settled page still has a region that makes the leaf that
    /// it has (`CanReplaceLayout`).
    pub fn set_size(&mut self, size: u64)
        ensures agrees { HasReplacedLayout (body_of S.view self.old) (body_of S.view self.new) (λ p. sized p size) }
        ensures seat { self.new.seat ≡ self.old.seat }
        ensures root { self.new.root ≡ self.old.root }
        ensures trapframe { self.new.trapframe ≡ self.old.trapframe }
    {
        self.layout.set_size(size);
    }

    /// Adds a mapping, in its place by address. The space has fewer than `MOST_MAPPINGS` mappings before. Settles no page.
    /// The space is then the process with this mapping, if its regions are in order and each settled page still has a region
    /// that makes the leaf that it has (`CanReplaceLayout`).
    pub fn add_mapping(&mut self, mapping: Region)
        requires few { length (self.old.layout).mappings < MOST_MAPPINGS }
        ensures agrees { HasReplacedLayout (body_of S.view self.old) (body_of S.view self.new) (λ p. mapped_with p (region_of mapping)) }
        ensures seat { self.new.seat ≡ self.old.seat }
        ensures root { self.new.root ≡ self.old.root }
        ensures trapframe { self.new.trapframe ≡ self.old.trapframe }
    {
        self.layout.add_mapping(mapping);
    }

    /// Puts `rest` in place of the mapping whose first page is `first`, or removes that mapping if `rest` is `None`. Without
    /// such a mapping nothing changes. Settles and releases no page. The space is then the process with these mappings, if
    /// its regions are in order and each settled page still has a region that makes the leaf that it has
    /// (`CanReplaceLayout`).
    pub fn replace_mapping(&mut self, first: u64, rest: Option<Region>)
        ensures agrees { HasReplacedLayout (body_of S.view self.old) (body_of S.view self.new) (λ p. left_with p first (option_map region_of rest)) }
        ensures seat { self.new.seat ≡ self.old.seat }
        ensures root { self.new.root ≡ self.old.root }
        ensures trapframe { self.new.trapframe ≡ self.old.trapframe }
    {
        self.layout.replace_mapping(first, rest);
    }

    /// Returns the frame of a settled page, from its leaf. The seat may have credits.
    pub(crate) fn page_frame<F: FrameAccess<Seat = S>>(
        &mut self,
        store: &mut F,
        page: Vpn,
    ) -> FrameNo
        requires fits { IsSeatOf F.invariant store.old self.old.seat }
        requires ready { (t : Tables) × (p : Process) × (s : Page) × HasSettledPage (body_of S.view self.old) t p page s }
        ensures frame { (t : Tables) (p : Process) (s : Page) → HasSettledPage (body_of S.view self.old) t p page s → IsFrameOfPage t page result.0 }
        ensures reads { OnlyReads S.view self.old self.new store.old store.new }
        ensures keeps { KeepsSeats F.invariant store.old self.old.seat store.new self.new.seat }
    {
        let scheme = self.layout.scheme();
        let Some((frame, _)) = frame_of(store, &mut self.seat, scheme, self.root, page) else {
            unreachable!()
        };
        frame
    }
}
