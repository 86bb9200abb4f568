// Step `Exit`, and the end of a process by exit or by a rule (a reason to deny an access): pages with the dirty mark (D) are
// written back, all its frames released, and its seat closed; its slot is then empty, and the hart idle.

ghost use Rattle.std.specs.Prelude.{◌≡◌, ◌∷◌, Bool, List, ℕ};
ghost use Rattle.address_space.specs.Steps.{IsBare};
ghost use Rattle.address_space.specs.Kernel.{IsKernelTable};
ghost use Rattle.frame_store.specs.Laws.{IsSeatOf, KeepsSeats};
ghost use Rattle.frame_store.specs.Plain.{PlainStateInvariant};
ghost use Rattle.frame_store.specs.View.{View};
ghost use Rattle.hart_machine.specs.Buffers.{SameBuffers};
ghost use Rattle.hart_machine.specs.Calls.{IsInKernel};
ghost use Rattle.hart_machine.specs.Harts.{hart_of};
ghost use Rattle.hart_machine.specs.SlotProcesses.{IsSlotProcess, view_of};
ghost use Rattle.hart_machine.specs.StepPromises.{KeepsTablesOf, MakesStep};
ghost use Rattle.hart_machine.specs.Worlds.{IsWorldButBuffers, KeepsOtherSlots};
ghost use Rattle.process_model.specs.declared.reply.Reply.TheVariants.{Scalar};
ghost use Rattle.process_model.specs.Mappings.{all_written_back};
ghost use Rattle.process_model.specs.Process.{Process};
ghost use Rattle.process_model.specs.Service.{ended};
ghost use Rattle.process_model.specs.World.{World};
ghost use Rattle.process_model.specs.declared.reply.Reply.{Reply};
ghost use Rattle.process_model.specs.declared.step.Step.TheVariants as step;
ghost use Rattle.table_walk.specs.Tables as tables;

use crate::machine::Machine;
use crate::slot_process::SlotProcess;
use file_cabinet::Cabinet;
use frame_store::{FrameAccess, PlainFrames, PlainSeat};
use mmap_regions::{promise_write_back, write_back};
use process_model::ScalarReply;

impl Machine {
    /// Ends the process on a hart by its exit. The reply is `Exited` with the status, or a refusal of `in_kernel`.
    #[inline(never)]
    pub(crate) fn exit(&mut self, hart: usize, status: i32) -> ScalarReply
        requires world { (w : World) × IsWorldButBuffers self.old w }
        ensures made { MakesStep self.old self.new (step.Exit hart status) (Scalar result) }
        ensures buffers { SameBuffers self.old self.new }
        ensures tables { KeepsTablesOf self.old self.new (step.Exit hart status) }
    {
        match self.in_kernel(hart, false) {
            Ok(slot) => {
                self.end(hart, slot);
                ScalarReply::Exited(status)
            }
            Err(refusal) => ScalarReply::Refused(refusal),
        }
    }

    /// Ends the process of `slot`, for which `hart` is in the kernel: writes the pages with the dirty mark back to the files
    /// of their mappings, in order of address, and releases all its frames. The slot is then empty, and the hart idle.
    pub(crate) fn end(&mut self, hart: usize, slot: usize)
        requires world { (w : World) × (waits : Bool) × IsWorldButBuffers self.old w × IsInKernel self.old w hart slot waits }
        ensures ended { (w : World) (waits : Bool) (reply : Reply) → IsWorldButBuffers self.old w → (k : IsInKernel self.old w hart slot waits)
            → IsWorldButBuffers self.new (ended w hart (hart_of k.hart) slot k.process reply).world }
        ensures buffers { SameBuffers self.old self.new }
        ensures others { KeepsOtherSlots self.old self.new slot }
    {
        self.harts[hart].take(None);
        let Some(slot_process) = self.slots[slot].take() else {
            unreachable!()
        };
        let seat = slot_process.end(&mut self.frames, &mut self.files);
        self.end_seat(seat);
    }

    /// Closes a seat that holds nothing: joins it to the kernel's seat.
    fn end_seat(&mut self, seat: PlainSeat)
        requires invariant { (others : List View) × PlainStateInvariant self.old.frames (self.old.kernel.seat ∷ seat ∷ others) }
        requires seat { IsBare seat }
        ensures kernel { (frames slots : ℕ) (stacks : List ℕ) (t : tables.Tables)
            → IsKernelTable self.old.kernel.scheme self.old.kernel.seat self.old.kernel.root.0 frames slots stacks t
            → IsKernelTable self.new.kernel.scheme self.new.kernel.seat self.new.kernel.root.0 frames slots stacks t }
        ensures scheme { self.new.kernel.scheme ≡ self.old.kernel.scheme }
        ensures size { self.new.kernel.seat.size ≡ self.old.kernel.seat.size }
        ensures slots { self.new.slots ≡ self.old.slots }
        ensures harts { self.new.harts ≡ self.old.harts }
        ensures files { self.new.files ≡ self.old.files }
        ensures policy { self.new.policy ≡ self.old.policy }
        ensures invariant { (others : List View) → PlainStateInvariant self.old.frames (self.old.kernel.seat ∷ seat ∷ others)
            → PlainStateInvariant self.new.frames (self.new.kernel.seat ∷ others) }
    {
        self.frames.join(&mut self.kernel.seat, seat);
    }
}

impl SlotProcess {
    /// Ends the process: writes the pages with the dirty mark back to the files of their mappings, and releases all its
    /// frames. Returns its seat, which holds nothing.
    fn end(self, frames: &mut PlainFrames, files: &mut Cabinet) -> PlainSeat
        requires fits { IsSeatOf PlainStateInvariant frames.old (view_of self) }
        requires ready { (t : tables.Tables) × (p : Process) × IsSlotProcess self t p }
        ensures bare { IsBare result }
        ensures written { (t : tables.Tables) (p : Process) → IsSlotProcess self t p → files.new ≡ all_written_back files.old p }
        ensures keeps { KeepsSeats PlainStateInvariant frames.old (view_of self) frames.new result }
    {
        let SlotProcess {
            mut space,
            pending: _,
        } = self;
        // files in memory never refuse a promise
        let Ok(()) = promise_write_back(&mut space, frames, files) else {
            unreachable!()
        };
        write_back(&mut space, frames, files);
        space.destroy(frames)
    }
}
