// Struct `AccessRequest`, a fetch, load or store of the user, and the calls of `Space` for it: `translate` walks the page
// table (RISC-V Privileged Architecture 20211203, 4.3.2); `user_access` takes the outcome of that walk, and loads, stores or
// returns a fault.

ghost use Rattle.std.specs.Prelude.{[], ◌≡◌, ◌≢◌, ◌%◌, ℕ, IsTrue};
ghost use Rattle.address_space.specs.Accesses.{request_of, IsWalkOf};
ghost use Rattle.address_space.specs.Agreement.{body_of, IsSpace, IsAlive};
ghost use Rattle.address_space.specs.Kept.{KeepsPlace, OnlyReads};
ghost use Rattle.address_space.specs.Steps.{TakesFrames};
ghost use Rattle.frame_store.specs.Laws.{IsSeatOf, KeepsSeats};
ghost use Rattle.process_model.specs.Bytes.{is_width};
ghost use Rattle.process_model.specs.Process.{Process};
ghost use Rattle.process_model.specs.Service as service;
ghost use Rattle.process_model.specs.declared.reply.ScalarReply.TheVariants as ScalarReply;
ghost use Rattle.process_model.specs.declared.reply.Reply.TheVariants.{Scalar};
ghost use Rattle.table_walk.specs.Leaves.{walk_answer};
ghost use Rattle.table_walk.specs.Tables.{Tables};

use crate::space::Space;
use frame_store::{FrameAccess, FrameSeat};
use process_model::ScalarReply;
use sv39_entry::{Access, FrameNo, Mode, PAGE_SIZE, Va};
use table_walk::{Walk, translate_held};

/// An access that the user makes. `width` is in bytes; a store stores the `width` lowest bytes of `value`, any other access
/// ignores it.
#[derive(Clone, Copy)]
pub struct AccessRequest {
    pub access: Access,
    pub va: Va,
    pub width: u64,
    pub value: u64,
}

impl AccessRequest {
    /// Returns the access to `width` bytes from `address` on. `value` is what a store writes, 0 for a fetch or load.
    pub fn new(access: Access, address: u64, width: u64, value: u64) -> AccessRequest
        ensures { result ≡ record { access = access; va = record { 0 = address }; width = width; value = value } }
    {
        AccessRequest {
            access,
            va: Va(address),
            width,
            value,
        }
    }
}

/// Returns `address` modulo `width`, which is 1, 2, 4 or 8: 0 if an access of `width` bytes at `address` is aligned. Each width
/// is a constant here, so no division is made.
pub fn misalignment(address: u64, width: u64) -> u64
    requires { IsTrue (is_width width) }
    ensures { result ≡ address % width }
{
    match width {
        1 => 0,
        2 => address % 2,
        4 => address % 4,
        _ => address % 8,
    }
}

impl<S: FrameSeat> Space<S> {
    /// Translates an access by the page table in memory: `Leaf`, at level 0, if the page has a leaf that permits the access
    /// in this mode, else `PageFault` with the access's page-fault cause. Never `AccessFault`. Alignment is not checked.
    pub fn translate<F: FrameAccess<Seat = S>>(
        &mut self,
        store: &mut F,
        va: Va,
        access: Access,
        mode: Mode,
    ) -> Walk
        requires fits { IsSeatOf F.invariant store.old self.old.seat }
        requires ready { IsAlive (body_of S.view self.old) }
        ensures walk { (t : Tables) (p : Process) → IsSpace (body_of S.view self.old) t p → result ≡ walk_answer p.scheme t va.0 access mode }
        ensures reads { OnlyReads S.view self.old self.new store.old store.new }
        ensures keeps { KeepsSeats F.invariant store.old self.old.seat store.new self.new.seat }
    {
        let scheme = self.layout.scheme();
        translate_held(store, &mut self.seat, scheme, self.root, va, access, mode)
    }

    /// Makes a user access by `walk`, which must be what `translate` returns for it in user mode on the space as it is.
    /// `width` is 1, 2, 4 or 8. If the address is a multiple of the width and the walk is a leaf, returns `Value` for a
    /// fetch or load, with the bytes as a little-endian number without sign, and `Stored` for a store. Else returns
    /// `Fault`: with the misaligned cause if the address is no multiple of the width, otherwise with the page-fault cause.
    /// Reads no reference count and takes no frame. Unless the reply is `Stored`, the seat's view and the store are
    /// unchanged.
    pub fn user_access<F: FrameAccess<Seat = S>>(
        &mut self,
        store: &mut F,
        walk: Walk,
        request: AccessRequest,
    ) -> ScalarReply
        requires fits { IsSeatOf F.invariant store.old self.old.seat }
        requires ready { (t : Tables) × (p : Process) × IsSpace (body_of S.view self.old) t p × IsWalkOf p.scheme t request walk }
        requires width { IsTrue (is_width request.width) }
        ensures reply { (t : Tables) (p : Process) → IsSpace (body_of S.view self.old) t p → IsWalkOf p.scheme t request walk →
            Scalar result ≡ (service.user_access p (request_of request)).reply }
        ensures after { (t : Tables) (p : Process) → IsSpace (body_of S.view self.old) t p → IsWalkOf p.scheme t request walk →
            IsSpace (body_of S.view self.new) t (service.user_access p (request_of request)).process }
        ensures place { KeepsPlace self.old self.new }
        ensures view { result ≢ ScalarReply.Stored → S.view self.new.seat ≡ S.view self.old.seat }
        ensures same { result ≢ ScalarReply.Stored → store.new ≡ store.old }
        ensures tallies { TakesFrames (S.view self.old.seat) (S.view self.new.seat) 0 [] }
        ensures keeps { KeepsSeats F.invariant store.old self.old.seat store.new self.new.seat }
        ensures free { F.alone → F.free store.new ≡ F.free store.old }
        ensures counts { F.alone → (f : ℕ) → F.count store.new f ≡ F.count store.old f }
    {
        if misalignment(request.va.0, request.width) != 0 {
            return ScalarReply::Fault(request.access.misaligned_cause());
        }
        let address = match walk {
            Walk::Leaf { address, .. } => address,
            Walk::PageFault(cause) | Walk::AccessFault(cause) => return ScalarReply::Fault(cause),
        };
        let Some(frame) = FrameNo::from_ppn(address / PAGE_SIZE) else {
            unreachable!()
        };
        match request.access {
            Access::Store => {
                self.write_at(store, frame, request.va, request.width, request.value);
                ScalarReply::Stored
            }
            Access::Fetch | Access::Load => {
                ScalarReply::Value(self.read_at(store, frame, request.va, request.width))
            }
        }
    }
}
