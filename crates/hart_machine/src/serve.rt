// Step `Serve`: the kernel serves the waiting fault of the process on a hart (the xv6 book, "Page-fault exceptions"): the
// page is made resident (the access then succeeds), or the process ends by a rule (a reason to deny the access).

ghost use Rattle.std.specs.Prelude.{◌≡◌, IfErr, IfOk, ℕ, None, not, Some, true};
ghost use Rattle.frame_store.specs.Laws.{IsSeatOf, KeepsSeats};
ghost use Rattle.frame_store.specs.Plain.{PlainStateInvariant};
ghost use Rattle.hart_machine.specs.Buffers.{SameBuffers};
ghost use Rattle.hart_machine.specs.Calls.{IsInKernel};
ghost use Rattle.hart_machine.specs.Harts.{hart_of};
ghost use Rattle.hart_machine.specs.ServeEffect.{HasServed, IsEnding, MustEnd, was_served};
ghost use Rattle.hart_machine.specs.SlotProcesses.{IsSlotProcess, view_of};
ghost use Rattle.hart_machine.specs.Marks.{AreMarked, slot_if};
ghost use Rattle.hart_machine.specs.StepPromises.{KeepsTablesOf, MakesStep, MarksStep};
ghost use Rattle.hart_machine.specs.Worlds.{IsWorldButBuffers, KeepsOtherSlots, KeepsTables, IsModelOutcome};
ghost use Rattle.process_model.specs.Process as model;
ghost use Rattle.process_model.specs.Process.{Process};
ghost use Rattle.process_model.specs.Residence.{is_resident};
ghost use Rattle.process_model.specs.Service.{served};
ghost use Rattle.process_model.specs.World.{is_unserved_access, World};
ghost use Rattle.process_model.specs.declared.reply.ScalarReply.TheVariants.{Ready};
ghost use Rattle.process_model.specs.declared.reply.Reply.TheVariants.{Scalar};
ghost use Rattle.process_model.specs.declared.step.Step.TheVariants as step;
ghost use Rattle.sv39_entry.specs.Address.{page_of};
ghost use Rattle.table_walk.specs.Tables.{Tables};

use crate::machine::Machine;
use crate::slot_process::{Pending, SlotProcess};
use crate::stale_marks::{StepEffect, slot_if};
use fault_rules::Served;
use file_cabinet::Cabinet;
use frame_store::PlainFrames;
use process_model::ScalarReply;
use sv39_entry::Rule;

impl Machine {
    /// Serves the fault of the process on a hart. The reply is `Ready` if the page of the access is resident then; `Ended`
    /// with the first rule that denies the access, or with `NoFrame`, if the process was ended; or a refusal of `in_kernel`.
    #[inline(never)]
    pub(crate) fn serve(&mut self, hart: usize) -> StepEffect<ScalarReply>
        requires world { (w : World) × IsWorldButBuffers self.old w }
        ensures made { MakesStep self.old self.new (step.Serve hart) (Scalar result.reply) }
        ensures buffers { SameBuffers self.old self.new }
        ensures tables { KeepsTablesOf self.old self.new (step.Serve hart) }
        ensures changed { MarksStep self.old (step.Serve hart) result.changed result.born }
    {
        let slot = match self.in_kernel(hart, true) {
            Ok(slot) => slot,
            Err(refusal) => return StepEffect::without_change(ScalarReply::Refused(refusal)),
        };
        match self.serve_slot(slot) {
            Ok(settled) => StepEffect::with_change(ScalarReply::Ready, slot_if(slot, settled)),
            Err(rule) => {
                self.end(hart, slot);
                StepEffect::without_change(ScalarReply::Ended(rule))
            }
        }
    }

    /// Serves the waiting access of the process in `slot`. Returns whether its page was not resident for it before.
    ///
    /// # Errors
    /// The rule by which the process has to end: the first that denies the access, or `NoFrame`. The machine is then in the
    /// world that it was in; the caller ends the process.
    fn serve_slot(&mut self, slot: usize) -> Result<bool, Rule>
        requires world { (w : World) × (h : ℕ) × IsWorldButBuffers self.old w × IsInKernel self.old w h slot true }
        ensures ready { IfOk result (λ _. (w : World) (h : ℕ) → IsWorldButBuffers self.old w → (k : IsInKernel self.old w h slot true)
            → IsModelOutcome self.new (Scalar Ready) (served w h (hart_of k.hart) slot k.process k.process.pending)) }
        ensures changed { IfOk result (λ b. (w : World) (h : ℕ) → IsWorldButBuffers self.old w → (k : IsInKernel self.old w h slot true)
            → AreMarked w (served w h (hart_of k.hart) slot k.process k.process.pending) (slot_if slot b) None) }
        ensures must_end { IfErr result (λ rule. (w : World) (h : ℕ) → IsWorldButBuffers self.old w → (k : IsInKernel self.old w h slot true)
            → IsEnding self.old self.new w h slot k rule) }
        ensures tables { IfOk result (λ _. (w : World) (h : ℕ) → IsWorldButBuffers self.old w → (k : IsInKernel self.old w h slot true)
            → KeepsTables self.old self.new w.slots (served w h (hart_of k.hart) slot k.process k.process.pending).world.slots) }
        ensures others { IfErr result (λ _. KeepsOtherSlots self.old self.new slot) }
        ensures harts { self.new.harts ≡ self.old.harts }
    {
        let frames = &mut self.frames;
        let files = &mut self.files;
        let slots = &mut self.slots;
        let Some(slot_process) = &mut slots[slot] else {
            unreachable!()
        };
        slot_process.serve(frames, files)
    }
}

impl SlotProcess {
    /// Serves the access that waits: makes its page resident. Returns whether it was not resident for the access before.
    ///
    /// # Errors
    /// The first rule that denies the access, or `NoFrame` if none does and too few frames are free. The process is then what
    /// it was.
    fn serve(&mut self, frames: &mut PlainFrames, files: &mut Cabinet) -> Result<bool, Rule>
        requires fits { IsSeatOf PlainStateInvariant frames.old (view_of self.old) }
        requires ready { (t : Tables) × (p : Process) × IsSlotProcess self.old t p }
        requires waits { (t : Tables) (p : Process) → IsSlotProcess self.old t p → is_unserved_access p.pending ≡ true }
        ensures served { IfOk result (λ _. (t : Tables) (p : Process) (a : model.Pending) → IsSlotProcess self.old t p → p.pending ≡ Some a
            → HasServed self.old self.new t p a (was_served a) files.old frames.old frames.new) }
        ensures changed { IfOk result (λ b. (t : Tables) (p : Process) (a : model.Pending) → IsSlotProcess self.old t p → p.pending ≡ Some a
            → b ≡ not (is_resident p a.access (page_of a.address))) }
        ensures must_end { IfErr result (λ rule. (t : Tables) (p : Process) (a : model.Pending) → IsSlotProcess self.old t p
            → p.pending ≡ Some a → MustEnd self.new t p a frames.old rule) }
        ensures trapframe { self.new.space.trapframe ≡ self.old.space.trapframe }
        ensures files { files.new ≡ files.old }
        ensures keeps { KeepsSeats PlainStateInvariant frames.old (view_of self.old) frames.new (view_of self.new) }
    {
        let Some(pending) = self.pending else {
            unreachable!()
        };
        let resident = self.is_resident(frames, pending.va, pending.access);
        match fault_rules::serve(
            &mut self.space,
            frames,
            files,
            pending.va,
            pending.width,
            pending.access,
        ) {
            Served::Ready => {
                self.pending = Some(Pending {
                    served: true,
                    ..pending
                });
                Ok(!resident)
            }
            Served::Ended(rule) => Err(rule),
            // files in memory never refuse a promise
            Served::Unserved(_) => unreachable!(),
        }
    }
}
