// Struct `KernelTable`, the kernel's page table (the xv6 book, "Kernel address space"). `build` maps each frame at its own
// address, the trampoline, and a stack for each slot; `translate` walks the table for an access of the kernel. Also
// `leaf_for_kernel`, the leaf by which the table maps a frame.

ghost use Rattle.std.specs.Prelude.{[], ◌≡◌, ◌+◌, ◌-◌, ◌<◌, ◌≤◌, ◌↔◌, true, false, if◌then◌else◌, IfErr, IfOk, is_ok, IsOk, length, List, ℕ};
ghost use Rattle.address_space.specs.Agreement.{HoldsTrampoline};
ghost use Rattle.address_space.specs.Kernel.{direct_tables, frame_rights, IsKernelTable, kernel_walk, MapsKernel};
ghost use Rattle.address_space.specs.Steps.{SpendsCredits};
ghost use Rattle.frame_store.specs.Laws.{IsSeatOf, IsDry, KeepsSeats};
ghost use Rattle.frame_store.specs.View.{references, spent};
ghost use Rattle.process_model.specs.Frames as model;
ghost use Rattle.sv39_entry.specs.Word.{IsLeafOf, kind_of, leaf_word};
ghost use Rattle.sv39_entry.specs.declared.entry.Kind.TheVariants.{Leaf};
ghost use Rattle.sv39_entry.specs.Schemes.{top_level};
ghost use Rattle.table_walk.specs.Tables.{Tables};

use bitflags::Flags;
use frame_store::{FrameAccess, FrameSeat, FrameSupply, NoFrame};
use process_model::{FEWEST_FRAMES, MOST_FRAMES, MOST_SLOTS, kernel_frames};
use sv39_entry::{Access, Entry, FrameNo, Mode, Rights, Scheme, Va};
use table_walk::{HeldWords, Walk, map, new_table, one_outcome, translate, walks_of_tables};

/// The kernel's page table (the xv6 book, "Kernel address space"), without devices: each frame of the memory at its own
/// address, the trampoline, and a stack for each slot. It does not change once it is built. It owns its seat.
#[derive(Drop)]
pub struct KernelTable<S: FrameSeat> {
    pub seat: S,
    /// The frame of the root page table.
    pub root: FrameNo,
    /// The scheme by which the table is walked; a machine's processes have it too.
    pub scheme: Scheme,
}

impl<S: FrameSeat> KernelTable<S> {
    /// Builds the table of a memory of `frames` frames, `FEWEST_FRAMES` to `MOST_FRAMES`, with a stack for each of `slots`
    /// slots, 1 to `MOST_SLOTS`. The seat must hold frame 0 once, no other frame, and no credits. All frames that the table
    /// takes are reserved before anything is built: `kernel_frames` - 1, since frame 0 is held.
    ///
    /// # Errors
    /// `NoFrame`, with the seat, whose frames and credits are unchanged. If nobody else changes the store (`alone`):
    /// exactly when fewer frames are free than the table takes. Over shared frames: only after the free count was read as 0
    /// with fewer than these reserved.
    pub fn build<F: FrameSupply<Seat = S>>(
        store: &mut F,
        seat: S,
        scheme: Scheme,
        frames: u16,
        slots: u16,
    ) -> Result<KernelTable<S>, (NoFrame, S)>
        requires fits { IsSeatOf F.invariant store.old seat }
        requires opening { HoldsTrampoline (S.view seat) }
        requires some_frames { FEWEST_FRAMES ≤ frames }
        requires few_frames { frames ≤ MOST_FRAMES }
        requires some_slots { 1 ≤ slots }
        requires few_slots { slots ≤ MOST_SLOTS }
        ensures built { IfOk result (λ k. (stacks : List ℕ) × (t : Tables) × IsKernelTable k.scheme (S.view k.seat) k.root.0 frames slots stacks t) }
        ensures scheme { IfOk result (λ k. k.scheme ≡ scheme) }
        ensures tallies { IfOk result (λ k. (S.view k.seat).tallies ≡ spent (model.kernel_frames scheme frames slots - 1) (S.view seat).tallies) }
        ensures dry { IfErr result (λ e. IsDry (model.kernel_frames scheme frames slots - 1) (S.view seat) (S.view e.1)) }
        ensures exact { F.alone → IsOk result ↔ (model.kernel_frames scheme frames slots - 1 ≤ F.free store.old) }
        ensures free { F.alone → F.free store.new ≡ F.free store.old - (if is_ok result then model.kernel_frames scheme frames slots - 1 else 0) }
        ensures keeps { IfOk result (λ k. KeepsSeats F.invariant store.old seat store.new k.seat) }
        ensures keeps_dry { IfErr result (λ e. KeepsSeats F.invariant store.old seat store.new e.1) }
    {
        let mut seat = seat;
        if let Err(refusal) = store.reserve(&mut seat, need(scheme, frames, slots)) {
            return Err((refusal, seat));
        }
        let root = new_root(store, &mut seat, scheme);
        map_stacks(store, &mut seat, scheme, root, slots);
        map_frames(store, &mut seat, scheme, root, frames);
        Ok(KernelTable { seat, root, scheme })
    }

    /// Translates an access of the kernel, in supervisor mode: `Leaf`, at level 0, if the page is mapped with the right that
    /// the access needs, else `PageFault` with the access's page-fault cause. Never `AccessFault`.
    pub fn translate<F: FrameAccess<Seat = S>>(
        &mut self,
        store: &mut F,
        va: Va,
        access: Access,
    ) -> Walk
        requires fits { IsSeatOf F.invariant store.old self.old.seat }
        requires built { (frames slots : ℕ) × (stacks : List ℕ) × (t : Tables)
            × IsKernelTable self.old.scheme (S.view self.old.seat) self.old.root.0 frames slots stacks t }
        ensures walk { (frames slots : ℕ) (stacks : List ℕ) (t : Tables)
            → IsKernelTable self.old.scheme (S.view self.old.seat) self.old.root.0 frames slots stacks t
            → result ≡ kernel_walk self.old.scheme frames stacks va.0 access }
        ensures view { S.view self.new.seat ≡ S.view self.old.seat }
        ensures root { self.new.root ≡ self.old.root }
        ensures scheme { self.new.scheme ≡ self.old.scheme }
        ensures same { store.new ≡ store.old }
        ensures keeps { KeepsSeats F.invariant store.old self.old.seat store.new self.new.seat }
    {
        walks_of_tables();
        one_outcome();
        let mut words = HeldWords {
            store,
            seat: &mut self.seat,
        };
        translate(
            &mut words,
            self.scheme,
            self.root.ppn(),
            va,
            access,
            Mode::Supervisor,
        )
    }
}

/// Returns how many frames the table takes: all frames of the kernel but frame 0, which its seat holds already.
fn need(scheme: Scheme, frames: u16, slots: u16) -> usize
    requires few { slots ≤ MOST_SLOTS }
    ensures { result ≡ model.kernel_frames scheme frames slots - 1 }
{
    kernel_frames(scheme, usize::from(frames), usize::from(slots)) - 1
}

/// Returns the leaf by which the kernel's table maps a frame: U and G clear, A set. Frame 0, which has the trampoline's
/// code, may be read and executed, any other frame read and written (with D set).
pub fn leaf_for_kernel(frame: FrameNo) -> Entry
    ensures made { IsLeafOf result frame.0 (frame_rights frame.0) false false true }
    ensures word { result ≡ leaf_word frame.0 (frame_rights frame.0) false false true }
    ensures kind { kind_of result ≡ Leaf }
{
    let mut rights = Rights::READ;
    if frame.0 == 0 {
        rights.insert(Rights::EXECUTE);
    } else {
        rights.insert(Rights::WRITE);
    }
    let user = false;
    let cow = false;
    let dirty = true;
    Entry::leaf(frame, rights, user, cow, dirty)
}

/// Makes a root table that maps the trampoline, by one credit for each level.
fn new_root<F: FrameSupply>(store: &mut F, seat: &mut F::Seat, scheme: Scheme) -> FrameNo
    requires fits { IsSeatOf F.invariant store.old seat.old }
    requires once { references (F.Seat.view seat.old) 0 ≡ 1 }
    requires bare { (f : ℕ) → (f ≡ 0 → ⊥) → references (F.Seat.view seat.old) f ≡ 0 }
    requires credits { 1 + top_level scheme ≤ (F.Seat.view seat.old).credits }
    ensures mapped { (t : Tables) × MapsKernel scheme (F.Seat.view seat.new) result.0 0 [] t }
    ensures spends { SpendsCredits (F.Seat.view seat.old) (F.Seat.view seat.new) (1 + top_level scheme) }
    ensures keeps { KeepsSeats F.invariant store.old seat.old store.new seat.new }
    ensures free { F.alone → F.free store.new ≡ F.free store.old }
{
    let root = new_table(store, seat);
    map(
        store,
        seat,
        scheme,
        root,
        scheme.trampoline().page(),
        leaf_for_kernel(FrameNo(0)),
    );
    root
}

/// Maps a new stack for each slot, by one credit each.
fn map_stacks<F: FrameSupply>(
    store: &mut F,
    seat: &mut F::Seat,
    scheme: Scheme,
    root: FrameNo,
    slots: u16,
)
    requires fits { IsSeatOf F.invariant store.old seat.old }
    requires few { slots ≤ MOST_SLOTS }
    requires ready { (t : Tables) × MapsKernel scheme (F.Seat.view seat.old) root.0 0 [] t × (slots ≤ (F.Seat.view seat.old).credits) }
    ensures mapped { (t : Tables) → MapsKernel scheme (F.Seat.view seat.old) root.0 0 [] t → (stacks : List ℕ) × (u : Tables)
        × MapsKernel scheme (F.Seat.view seat.new) root.0 0 stacks u × (length stacks ≡ slots) }
    ensures spends { SpendsCredits (F.Seat.view seat.old) (F.Seat.view seat.new) slots }
    ensures keeps { KeepsSeats F.invariant store.old seat.old store.new seat.new }
    ensures free { F.alone → F.free store.new ≡ F.free store.old }
{
    for slot in 0..slots {
        let frame = store.claim(seat);
        map(
            store,
            seat,
            scheme,
            root,
            scheme.kernel_stack(slot).page(),
            leaf_for_kernel(frame),
        );
    }
}

/// Maps each frame at its own address, by a credit for each table that this adds.
fn map_frames<F: FrameSupply>(
    store: &mut F,
    seat: &mut F::Seat,
    scheme: Scheme,
    root: FrameNo,
    frames: u16,
)
    requires fits { IsSeatOf F.invariant store.old seat.old }
    requires few { frames ≤ MOST_FRAMES }
    requires ready { (stacks : List ℕ) × (t : Tables) × MapsKernel scheme (F.Seat.view seat.old) root.0 0 stacks t
        × (direct_tables scheme frames ≤ (F.Seat.view seat.old).credits) }
    ensures mapped { (stacks : List ℕ) (t : Tables) → MapsKernel scheme (F.Seat.view seat.old) root.0 0 stacks t → (u : Tables)
        × MapsKernel scheme (F.Seat.view seat.new) root.0 frames stacks u }
    ensures spends { SpendsCredits (F.Seat.view seat.old) (F.Seat.view seat.new) (direct_tables scheme frames) }
    ensures keeps { KeepsSeats F.invariant store.old seat.old store.new seat.new }
    ensures free { F.alone → F.free store.new ≡ F.free store.old }
{
    for number in 0..frames {
        let frame = FrameNo(number);
        map(
            store,
            seat,
            scheme,
            root,
            Va(frame.address()).page(),
            leaf_for_kernel(frame),
        );
    }
}
