// Step `Exec`: replaces the process on a hart by the process of a program image (the xv6 book, "Code: exec").

ghost use Rattle.std.specs.Prelude.{◌≡◌, ◌<◌, ◌≤◌, IfErr, IfOk, None};
ghost use Rattle.frame_store.specs.Laws.{IsSeatOf, KeepsSeats};
ghost use Rattle.frame_store.specs.Plain.{PlainStateInvariant};
ghost use Rattle.hart_machine.specs.Buffers.{SameBuffers};
ghost use Rattle.hart_machine.specs.Calls.{done_or_refused};
ghost use Rattle.hart_machine.specs.ExecEffect.{HasExecuted};
ghost use Rattle.hart_machine.specs.SlotProcesses.{IsSlotProcess, view_of};
ghost use Rattle.hart_machine.specs.Marks.{slot_of_ok};
ghost use Rattle.hart_machine.specs.StepPromises.{KeepsTablesOf, MakesStep, MarksStep};
ghost use Rattle.hart_machine.specs.Worlds.{IsWorldButBuffers};
ghost use Rattle.process_model.specs.declared.reply.Reply.TheVariants.{Scalar};
ghost use Rattle.process_model.specs.Frames.{exec_need};
ghost use Rattle.process_model.specs.Process.{Process};
ghost use Rattle.process_model.specs.World.{World};
ghost use Rattle.process_model.specs.declared.reply.Refusal.TheVariants as refusal;
ghost use Rattle.process_model.specs.declared.step.Step.TheVariants as step;
ghost use Rattle.table_walk.specs.Tables.{Tables};

use crate::machine::Machine;
use crate::slot_process::SlotProcess;
use crate::stale_marks::StepEffect;
use exec_segments::Image;
use file_cabinet::Cabinet;
use frame_store::PlainFrames;
use process_model::{Refusal, ScalarReply};

impl Machine {
    /// Replaces the process on a hart by the process of an image. The reply is `Done`, or the first refusal that applies of
    /// those of `in_kernel`, `BadImage` with the check that the image fails, and `NoFrame`.
    #[inline(never)]
    pub(crate) fn exec(
        &mut self,
        hart: usize,
        image: process_model::Image<'_>,
    ) -> StepEffect<ScalarReply>
        requires world { (w : World) × IsWorldButBuffers self.old w }
        ensures made { MakesStep self.old self.new (step.Exec hart image.entry) (Scalar result.reply) }
        ensures buffers { SameBuffers self.old self.new }
        ensures tables { KeepsTablesOf self.old self.new (step.Exec hart image.entry) }
        ensures changed { MarksStep self.old (step.Exec hart image.entry) result.changed result.born }
    {
        match self.try_exec(hart, image) {
            Ok(slot) => StepEffect::with_change(ScalarReply::Done, Some(slot)),
            Err(refusal) => StepEffect::without_change(ScalarReply::Refused(refusal)),
        }
    }

    /// `exec`, with the slot of the process as the result.
    ///
    /// # Errors
    /// Those of `in_kernel`, then `BadImage` with the check that the image fails, then `NoFrame`.
    fn try_exec(&mut self, hart: usize, image: process_model::Image<'_>) -> Result<usize, Refusal>
        requires world { (w : World) × IsWorldButBuffers self.old w }
        ensures made { MakesStep self.old self.new (step.Exec hart image.entry) (done_or_refused result) }
        ensures changed { MarksStep self.old (step.Exec hart image.entry) (slot_of_ok result) None }
        ensures harts { self.new.harts ≡ self.old.harts }
        ensures tables { KeepsTablesOf self.old self.new (step.Exec hart image.entry) }
    {
        let slot = self.in_kernel(hart, false)?;
        let image = match Image::judged(self.kernel.scheme, image) {
            Ok(image) => image,
            Err(part) => return Err(Refusal::BadImage(part)),
        };
        let frames = &mut self.frames;
        let files = &mut self.files;
        let slots = &mut self.slots;
        let Some(slot_process) = &mut slots[slot] else {
            unreachable!()
        };
        slot_process.exec(frames, files, &image)?;
        Ok(slot)
    }
}

impl SlotProcess {
    /// Replaces the process by the process of `image`; no access is pending then. The pages
    /// with the dirty mark of the old one are written back to the files of their mappings.
    ///
    /// # Errors
    /// `NoFrame`: exactly when fewer than `exec_need` frames are free. The process is then what it was, and the files are
    /// unchanged.
    fn exec(
        &mut self,
        frames: &mut PlainFrames,
        files: &mut Cabinet,
        image: &Image,
    ) -> Result<(), Refusal>
        requires fits { IsSeatOf PlainStateInvariant frames.old (view_of self.old) }
        requires ready { (t : Tables) × (p : Process) × IsSlotProcess self.old t p }
        requires scheme { image.now.scheme ≡ self.old.space.layout.scheme }
        ensures executed { IfOk result (λ _. (t : Tables) (p : Process) → IsSlotProcess self.old t p
            → HasExecuted self.new p image.now.loads files.old files.new) }
        ensures enough { IfOk result (λ _. exec_need image.now.scheme image.now.loads ≤ frames.old.free) }
        ensures dry { IfErr result (λ e. (e ≡ refusal.NoFrame) × (frames.old.free < exec_need image.now.scheme image.now.loads)) }
        ensures whole { IfErr result (λ _. (t : Tables) (p : Process) → IsSlotProcess self.old t p → IsSlotProcess self.new t p) }
        ensures files_stay { IfErr result (λ _. files.new ≡ files.old) }
        ensures trapframe { self.new.space.trapframe ≡ self.old.space.trapframe }
        ensures keeps { KeepsSeats PlainStateInvariant frames.old (view_of self.old) frames.new (view_of self.new) }
    {
        exec_segments::exec(&mut self.space, frames, image, files)?;
        self.pending = None;
        Ok(())
    }
}
