// Step `Fork`: forks the process on a hart by copy-on-write (MIT 6.1810, copy-on-write lab); the child goes to the lowest
// free slot.

ghost use Rattle.std.specs.Prelude.{◌≡◌, ◌∷◌, ◌<◌, IfErr, IfOk, List, ℕ, slice_index};
ghost use Rattle.address_space.specs.Agreement.{IsSpace};
ghost use Rattle.address_space.specs.SettledLists.{AreSettled};
ghost use Rattle.frame_store.specs.Laws.{IsSeatOf, KeepsSeats};
ghost use Rattle.frame_store.specs.Plain.{PlainStateInvariant};
ghost use Rattle.frame_store.specs.View.{IsHeld, View};
ghost use Rattle.hart_machine.specs.Buffers.{SameBuffers};
ghost use Rattle.hart_machine.specs.ForkEffect.{forked_or_refused, HasForkedProcess, in_slot};
ghost use Rattle.hart_machine.specs.SlotProcesses.{body_in, IsSlotProcess, view_of};
ghost use Rattle.hart_machine.specs.Marks.{child_in, marked_with};
ghost use Rattle.hart_machine.specs.StepPromises.{KeepsTablesOf, MakesStep, MarksStep};
ghost use Rattle.hart_machine.specs.Worlds.{IsWorldButBuffers};
ghost use Rattle.process_model.specs.declared.reply.Reply.TheVariants.{Scalar};
ghost use Rattle.process_model.specs.Frames.{fork_need};
ghost use Rattle.process_model.specs.Process.{Process};
ghost use Rattle.process_model.specs.World.{World};
ghost use Rattle.process_model.specs.declared.reply.Refusal.TheVariants as refusal;
ghost use Rattle.process_model.specs.declared.step.Step.TheVariants as step;
ghost use Rattle.process_model.specs.declared.limits.TheConstants.{MOST_REFERENCES};
ghost use Rattle.sv39_entry.specs.Schemes.{trapframe_page};
ghost use Rattle.table_walk.specs.Tables.{Tables};

use crate::machine::Machine;
use crate::slot_process::SlotProcess;
use crate::stale_marks::{StepEffect, slot_if};
use address_space::SettledPage;
use cow_fork::{Child, fork_listed};
use frame_store::{PlainFrames, PlainSeat};
use process_model::{Refusal, ScalarReply};

impl Machine {
    /// Forks the process on a hart; the child is in the lowest free slot. The reply is `Forked` with that slot, or the first
    /// refusal that applies of those of `in_kernel`, `NoSlot`, and `NoFrame`.
    #[inline(never)]
    pub(crate) fn fork(&mut self, hart: usize) -> StepEffect<ScalarReply>
        requires world { (w : World) × IsWorldButBuffers self.old w }
        ensures made { MakesStep self.old self.new (step.Fork hart) (Scalar result.reply) }
        ensures buffers { SameBuffers self.old self.new }
        ensures tables { KeepsTablesOf self.old self.new (step.Fork hart) }
        ensures changed { MarksStep self.old (step.Fork hart) result.changed result.born }
    {
        match self.try_fork(hart) {
            Ok((slot, changed)) => StepEffect {
                reply: ScalarReply::Forked(slot),
                changed,
                born: Some(slot),
            },
            Err(refusal) => StepEffect::without_change(ScalarReply::Refused(refusal)),
        }
    }

    /// `fork`, with the slot of the child as the result, and the slot of the parent if one of its pages got the copy-on-write
    /// mark.
    ///
    /// # Errors
    /// Those of `in_kernel`, then `NoSlot`, then `NoFrame`.
    fn try_fork(&mut self, hart: usize) -> Result<(usize, Option<usize>), Refusal>
        requires world { (w : World) × IsWorldButBuffers self.old w }
        ensures made { MakesStep self.old self.new (step.Fork hart) (forked_or_refused result) }
        ensures changed { MarksStep self.old (step.Fork hart) (marked_with result) (child_in result) }
        ensures harts { self.new.harts ≡ self.old.harts }
        ensures tables { KeepsTablesOf self.old self.new (step.Fork hart) }
    {
        let slot = self.in_kernel(hart, false)?;
        let Some(place) = self.free_slot() else {
            return Err(Refusal::NoSlot);
        };
        let frames = &mut self.frames;
        let list = &mut self.pages;
        let slots = &mut self.slots;
        let Some(slot_process) = &mut slots[slot] else {
            unreachable!()
        };
        let settled = slot_process.settled_pages(frames, list);
        let unmarked = slot_process.has_unmarked(settled);
        let child = slot_process.fork(frames, settled)?;
        let layout = slot_process.space.layout.copied();
        self.slots[place] = Some(SlotProcess {
            space: child.space(layout),
            pending: None,
        });
        Ok((place, slot_if(slot, unmarked)))
    }
}

impl SlotProcess {
    /// Forks the process, whose settled pages are `settled`, and returns the child, to which a copy of the parent's layout
    /// belongs. No access is pending then.
    ///
    /// # Errors
    /// `NoFrame`: exactly when fewer than `fork_need` frames are free. The process is then what it was.
    fn fork(
        &mut self,
        frames: &mut PlainFrames,
        settled: &[SettledPage],
    ) -> Result<Child<PlainSeat>, Refusal>
        requires fits { IsSeatOf PlainStateInvariant frames.old (view_of self.old) }
        requires ready { (t : Tables) × (p : Process) × IsSlotProcess self.old t p }
        requires settled { (t : Tables) (p : Process) → IsSpace (body_in self.old) t p → AreSettled t p 0 (trapframe_page p.scheme) settled.now }
        requires few { (f : ℕ) → IsHeld (view_of self.old) f → slice_index frames.old.counts f < MOST_REFERENCES }
        ensures forked { IfOk result (λ child. (t : Tables) (p : Process) → IsSlotProcess self.old t p
            → HasForkedProcess self.new (in_slot child self.new.space.layout) t p) }
        ensures trapframe { self.new.space.trapframe ≡ self.old.space.trapframe }
        ensures enough { IfOk result (λ _. (t : Tables) (p : Process) → IsSlotProcess self.old t p → frames.old.free < fork_need p → ⊥) }
        ensures dry { IfErr result (λ e. (e ≡ refusal.NoFrame) × ((t : Tables) (p : Process) → IsSlotProcess self.old t p → frames.old.free < fork_need p)) }
        ensures whole { IfErr result (λ _. (t : Tables) (p : Process) → IsSlotProcess self.old t p → IsSlotProcess self.new t p) }
        ensures keeps { IfOk result (λ child. (others : List View) → PlainStateInvariant frames.old (view_of self.old ∷ others)
            → PlainStateInvariant frames.new (view_of self.new ∷ child.seat ∷ others)) }
        ensures keeps_refused { IfErr result (λ _. KeepsSeats PlainStateInvariant frames.old (view_of self.old) frames.new (view_of self.new)) }
    {
        let child = fork_listed(&mut self.space, frames, settled)?;
        self.pending = None;
        Ok(child)
    }
}
