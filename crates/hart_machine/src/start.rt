// Step `Start`: starts a process of a program image in the lowest free slot, which `free_slot` finds; and opens and closes
// the seat of a new process.

ghost use Rattle.std.specs.Prelude.{◌≡◌, ◌∷◌, List, ℕ};
ghost use Rattle.address_space.specs.Agreement.{HoldsTrampoline};
ghost use Rattle.address_space.specs.Kernel.{IsKernelTable};
ghost use Rattle.frame_store.specs.SeatOpening.{opened, opener};
ghost use Rattle.frame_store.specs.Plain.{PlainStateInvariant};
ghost use Rattle.frame_store.specs.View.{references, View};
ghost use Rattle.hart_machine.specs.Buffers.{SameBuffers};
ghost use Rattle.hart_machine.specs.StepPromises.{KeepsTablesOf, MakesStep, MarksStep};
ghost use Rattle.hart_machine.specs.Worlds.{IsWorldButBuffers};
ghost use Rattle.process_model.specs.declared.reply.Reply.TheVariants.{Scalar};
ghost use Rattle.process_model.specs.World.{free_slot, World};
ghost use Rattle.process_model.specs.declared.step.Step.TheVariants as step;
ghost use Rattle.table_walk.specs.Tables as tables;

use crate::machine::Machine;
use crate::slot_process::SlotProcess;
use crate::stale_marks::StepEffect;
use exec_segments::{Image, start};
use frame_store::{FrameAccess, PlainSeat, opened_seat};
use process_model::{Refusal, ScalarReply};
use sv39_entry::FrameNo;

impl Machine {
    /// Starts a process of an image in the lowest free slot. The reply is `Started` with the slot, or the first refusal that
    /// applies of `NoSlot`, `BadImage` with the check that the image fails, and `NoFrame`.
    #[inline(never)]
    pub(crate) fn start(&mut self, image: process_model::Image<'_>) -> StepEffect<ScalarReply>
        requires world { (w : World) × IsWorldButBuffers self.old w }
        ensures made { MakesStep self.old self.new (step.Start image.entry) (Scalar result.reply) }
        ensures buffers { SameBuffers self.old self.new }
        ensures tables { KeepsTablesOf self.old self.new (step.Start image.entry) }
        ensures changed { MarksStep self.old (step.Start image.entry) result.changed result.born }
    {
        let Some(slot) = self.free_slot() else {
            return StepEffect::without_change(ScalarReply::Refused(Refusal::NoSlot));
        };
        let image = match Image::judged(self.kernel.scheme, image) {
            Ok(image) => image,
            Err(part) => return StepEffect::without_change(ScalarReply::Refused(Refusal::BadImage(
                part,
            ))),
        };
        let seat = self.open_seat();
        match start(&mut self.frames, seat, &image) {
            Ok(space) => {
                self.slots[slot] = Some(SlotProcess {
                    space,
                    pending: None,
                });
                StepEffect {
                    reply: ScalarReply::Started(slot),
                    changed: None,
                    born: Some(slot),
                }
            }
            Err((_, seat)) => {
                self.close_seat(seat);
                StepEffect::without_change(ScalarReply::Refused(Refusal::NoFrame))
            }
        }
    }

    /// The lowest slot without a process; `None` if each slot has one.
    pub(crate) fn free_slot(&self) -> Option<usize>
        ensures { (w : World) → IsWorldButBuffers self.now w → result ≡ free_slot w }
    {
        for slot in 0..self.slots.len() {
            if self.slots[slot].is_none() {
                return Some(slot);
            }
        }
        None
    }

    /// Opens a seat for the space of a new process: it holds one reference of frame 0, which the kernel's seat shares with
    /// it, and nothing else. The count of frame 0 has room for it: beside the kernel's seat at most one seat for each slot
    /// holds the frame.
    pub(crate) fn open_seat(&mut self) -> PlainSeat
        requires world { (w : World) × IsWorldButBuffers self.old w }
        ensures opened { result ≡ opened self.old.kernel.seat }
        ensures opener { self.new.kernel ≡ record self.old.kernel { seat = opener self.old.kernel.seat } }
        ensures size { self.new.kernel.seat.size ≡ self.old.kernel.seat.size }
        ensures free { self.new.frames.free ≡ self.old.frames.free }
        ensures slots { self.new.slots ≡ self.old.slots }
        ensures harts { self.new.harts ≡ self.old.harts }
        ensures files { self.new.files ≡ self.old.files }
        ensures policy { self.new.policy ≡ self.old.policy }
        ensures invariant { (others : List View) → PlainStateInvariant self.old.frames (self.old.kernel.seat ∷ others)
            → PlainStateInvariant self.new.frames (self.new.kernel.seat ∷ result ∷ others) }
    {
        let Ok(seat) = opened_seat(&mut self.frames, &mut self.kernel.seat) else {
            unreachable!()
        };
        seat
    }

    /// Closes a seat that holds one reference of frame 0 and nothing else: joins it to the kernel's seat, which drops the
    /// reference.
    pub(crate) fn close_seat(&mut self, seat: PlainSeat)
        requires invariant { (others : List View) × PlainStateInvariant self.old.frames (self.old.kernel.seat ∷ seat ∷ others) }
        requires seat { HoldsTrampoline seat }
        requires code { references self.old.kernel.seat 0 ≡ 1 }
        ensures kernel { (frames slots : ℕ) (stacks : List ℕ) (t : tables.Tables)
            → IsKernelTable self.old.kernel.scheme self.old.kernel.seat self.old.kernel.root.0 frames slots stacks t
            → IsKernelTable self.new.kernel.scheme self.new.kernel.seat self.new.kernel.root.0 frames slots stacks t }
        ensures scheme { self.new.kernel.scheme ≡ self.old.kernel.scheme }
        ensures size { self.new.kernel.seat.size ≡ self.old.kernel.seat.size }
        ensures slots { self.new.slots ≡ self.old.slots }
        ensures harts { self.new.harts ≡ self.old.harts }
        ensures files { self.new.files ≡ self.old.files }
        ensures policy { self.new.policy ≡ self.old.policy }
        ensures invariant { (others : List View) → PlainStateInvariant self.old.frames (self.old.kernel.seat ∷ seat ∷ others)
            → PlainStateInvariant self.new.frames (self.new.kernel.seat ∷ others) }
    {
        self.frames.join(&mut self.kernel.seat, seat);
        self.frames.release(&mut self.kernel.seat, FrameNo(0));
    }
}
