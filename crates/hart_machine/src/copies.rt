// Steps `CopyIn` and `CopyOut`: the kernel copies at most `LONGEST_COPY` bytes from or to the process on a hart (`copyin` and
// `copyout` of xv6). With the reply comes whether leaves of the process changed.

ghost use Rattle.std.specs.Prelude.{◌≡◌, ◌≤◌, ℕ, length};
ghost use Rattle.frame_store.specs.Laws.{IsSeatOf, KeepsSeats};
ghost use Rattle.frame_store.specs.Plain.{PlainStateInvariant};
ghost use Rattle.hart_machine.specs.Buffers.{SameBuffers};
ghost use Rattle.hart_machine.specs.Calls.{IsCaller};
ghost use Rattle.hart_machine.specs.CopyEffect.{CopiesFrom, CopiesTo};
ghost use Rattle.hart_machine.specs.SlotProcesses.{IsSlotProcess, view_of};
ghost use Rattle.hart_machine.specs.Marks.{AreMarked, TellsResidence};
ghost use Rattle.hart_machine.specs.StepPromises.{KeepsTablesOf, MakesStep, MarksStep};
ghost use Rattle.hart_machine.specs.Worlds.{IsWorldButBuffers, KeepsTables, IsModelOutcome};
ghost use Rattle.process_model.specs.declared.reply.Reply.TheVariants.{Scalar};
ghost use Rattle.process_model.specs.Calls as model;
ghost use Rattle.process_model.specs.Copies.{copied_in, copied_out};
ghost use Rattle.process_model.specs.Process.{Process, without_pending};
ghost use Rattle.process_model.specs.Service.{environment_of, initial_progress};
ghost use Rattle.process_model.specs.World.{World};
ghost use Rattle.process_model.specs.declared.step.Step.TheVariants as step;
ghost use Rattle.sv39_entry.specs.declared.access.Access.TheVariants.{Load, Store};
ghost use Rattle.table_walk.specs.Tables.{Tables};

use crate::machine::Machine;
use crate::slot_process::SlotProcess;
use crate::stale_marks::{StepEffect, slot_if};
use file_cabinet::Cabinet;
use frame_store::PlainFrames;
use process_model::{LONGEST_COPY, Refusal, Reply, ScalarReply};
use sv39_entry::{Access, Va};
use user_copy::Stop;

impl Machine {
    /// Copies `count` bytes from the process on a hart, from `address` on. The reply is `CopiedIn` with the bytes; or
    /// `ShortIn` with the rule that stopped the copy and the bytes before that address; or refused: `BadArgument` if `count`
    /// is above `LONGEST_COPY`, then as `in_kernel` says.
    #[inline(never)]
    pub(crate) fn copy_in(&mut self, hart: usize, address: u64, count: usize) -> StepEffect<Reply>
        requires world { (w : World) × IsWorldButBuffers self.old w }
        ensures made { MakesStep self.old self.new (step.CopyIn hart address count) result.reply }
        ensures buffers { SameBuffers self.old self.new }
        ensures tables { KeepsTablesOf self.old self.new (step.CopyIn hart address count) }
        ensures changed { MarksStep self.old (step.CopyIn hart address count) result.changed result.born }
    {
        if count > LONGEST_COPY {
            return StepEffect::without_change(Reply::Scalar(ScalarReply::Refused(
                Refusal::BadArgument,
            )));
        }
        let slot = match self.in_kernel(hart, false) {
            Ok(slot) => slot,
            Err(refusal) => return StepEffect::without_change(Reply::Scalar(ScalarReply::Refused(
                refusal,
            ))),
        };
        self.copy_in_slot(slot, Va(address), count)
    }

    /// `copy_in` from the process in a slot, with at most `LONGEST_COPY` bytes.
    fn copy_in_slot(&mut self, slot: usize, va: Va, count: usize) -> StepEffect<Reply>
        requires world { (w : World) × (h : ℕ) × IsWorldButBuffers self.old w × IsCaller self.old w h slot }
        requires few { count ≤ LONGEST_COPY }
        ensures made { (w : World) (h : ℕ) → IsWorldButBuffers self.old w → (k : IsCaller self.old w h slot) →
            IsModelOutcome self.new result.reply
            (model.copy_in_outcome w slot (copied_in (environment_of w slot) (initial_progress w (without_pending k.process)) va.0 count)) }
        ensures changed { (w : World) (h : ℕ) → IsWorldButBuffers self.old w → (k : IsCaller self.old w h slot) →
            AreMarked w (model.copy_in_outcome w slot
            (copied_in (environment_of w slot) (initial_progress w (without_pending k.process)) va.0 count)) result.changed result.born }
        ensures tables { (w : World) (h : ℕ) → IsWorldButBuffers self.old w → (k : IsCaller self.old w h slot) →
            KeepsTables self.old self.new w.slots
            (model.copy_in_outcome w slot (copied_in (environment_of w slot) (initial_progress w (without_pending k.process)) va.0 count)).world.slots }
        ensures harts { self.new.harts ≡ self.old.harts }
    {
        let frames = &mut self.frames;
        let files = &mut self.files;
        let slots = &mut self.slots;
        let Some(slot_process) = &mut slots[slot] else {
            unreachable!()
        };
        let (reply, settled) = slot_process.copy_in(frames, files, va, count);
        StepEffect::with_change(reply, slot_if(slot, settled))
    }

    /// Copies bytes to the process on a hart, from `address` on. The reply is `CopiedOut` with their number; or `ShortOut`
    /// with the rule that stopped the copy and the number of bytes copied before; or refused: `BadArgument` for more than
    /// `LONGEST_COPY` bytes, then as `in_kernel` says.
    #[inline(never)]
    pub(crate) fn copy_out(
        &mut self,
        hart: usize,
        address: u64,
        bytes: &[u8],
    ) -> StepEffect<ScalarReply>
        requires world { (w : World) × IsWorldButBuffers self.old w }
        ensures made { MakesStep self.old self.new (step.CopyOut hart address bytes.entry) (Scalar result.reply) }
        ensures buffers { SameBuffers self.old self.new }
        ensures tables { KeepsTablesOf self.old self.new (step.CopyOut hart address bytes.entry) }
        ensures changed { MarksStep self.old (step.CopyOut hart address bytes.entry) result.changed result.born }
    {
        if bytes.len() > LONGEST_COPY {
            return StepEffect::without_change(ScalarReply::Refused(Refusal::BadArgument));
        }
        let slot = match self.in_kernel(hart, false) {
            Ok(slot) => slot,
            Err(refusal) => return StepEffect::without_change(ScalarReply::Refused(refusal)),
        };
        self.copy_out_slot(slot, Va(address), bytes)
    }

    /// `copy_out` to the process in a slot, with at most `LONGEST_COPY` bytes.
    fn copy_out_slot(&mut self, slot: usize, va: Va, bytes: &[u8]) -> StepEffect<ScalarReply>
        requires world { (w : World) × (h : ℕ) × IsWorldButBuffers self.old w × IsCaller self.old w h slot }
        requires few { length bytes.now ≤ LONGEST_COPY }
        ensures made { (w : World) (h : ℕ) → IsWorldButBuffers self.old w → (k : IsCaller self.old w h slot) →
            IsModelOutcome self.new (Scalar result.reply)
            (model.copy_out_outcome w slot (copied_out (environment_of w slot) (initial_progress w (without_pending k.process)) va.0 bytes.now)) }
        ensures changed { (w : World) (h : ℕ) → IsWorldButBuffers self.old w → (k : IsCaller self.old w h slot) →
            AreMarked w (model.copy_out_outcome w slot
            (copied_out (environment_of w slot) (initial_progress w (without_pending k.process)) va.0 bytes.now)) result.changed result.born }
        ensures tables { (w : World) (h : ℕ) → IsWorldButBuffers self.old w → (k : IsCaller self.old w h slot) →
            KeepsTables self.old self.new w.slots
            (model.copy_out_outcome w slot (copied_out (environment_of w slot) (initial_progress w (without_pending k.process)) va.0 bytes.now)).world.slots }
        ensures harts { self.new.harts ≡ self.old.harts }
    {
        let frames = &mut self.frames;
        let files = &mut self.files;
        let slots = &mut self.slots;
        let Some(slot_process) = &mut slots[slot] else {
            unreachable!()
        };
        let (reply, settled) = slot_process.copy_out(frames, files, va, bytes);
        StepEffect::with_change(reply, slot_if(slot, settled))
    }
}

impl SlotProcess {
    /// Copies `count` bytes from the process, from `va` on. Returns the reply, and whether the copy made a page resident for
    /// a load; no access is pending then.
    fn copy_in(
        &mut self,
        frames: &mut PlainFrames,
        files: &mut Cabinet,
        va: Va,
        count: usize,
    ) -> (Reply, bool)
        requires fits { IsSeatOf PlainStateInvariant frames.old (view_of self.old) }
        requires ready { (t : Tables) × (p : Process) × IsSlotProcess self.old t p }
        requires few { count ≤ LONGEST_COPY }
        ensures copied { CopiesFrom self.old self.new frames.old frames.new files.old files.new va.0 count result.0 }
        ensures changed { (t u : Tables) (p q : Process) → IsSlotProcess self.old t p → IsSlotProcess self.new u q → TellsResidence result.1 p q Load va.0 }
        ensures trapframe { self.new.space.trapframe ≡ self.old.space.trapframe }
        ensures keeps { KeepsSeats PlainStateInvariant frames.old (view_of self.old) frames.new (view_of self.new) }
    {
        let before = self.residence(frames, va, Access::Load);
        let reply = self.copy_bytes_in(frames, files, va, count);
        // a resident page stays resident: then there is nothing to ask
        if before.0 && before.1 {
            return (reply, false);
        }
        let after = self.residence(frames, va, Access::Load);
        (reply, before.0 != after.0 || before.1 != after.1)
    }

    /// Copies `count` bytes from the process, from `va` on, and returns the reply; no access is pending then.
    fn copy_bytes_in(
        &mut self,
        frames: &mut PlainFrames,
        files: &mut Cabinet,
        va: Va,
        count: usize,
    ) -> Reply
        requires fits { IsSeatOf PlainStateInvariant frames.old (view_of self.old) }
        requires ready { (t : Tables) × (p : Process) × IsSlotProcess self.old t p }
        requires few { count ≤ LONGEST_COPY }
        ensures copied { CopiesFrom self.old self.new frames.old frames.new files.old files.new va.0 count result }
        ensures still { (t : Tables) (p : Process) → IsSlotProcess self.old t p → (u : Tables) × (q : Process) × IsSlotProcess self.new u q }
        ensures trapframe { self.new.space.trapframe ≡ self.old.space.trapframe }
        ensures keeps { KeepsSeats PlainStateInvariant frames.old (view_of self.old) frames.new (view_of self.new) }
    {
        self.pending = None;
        match user_copy::copy_in(&mut self.space, frames, files, va, count) {
            Ok(bytes) => Reply::CopiedIn(bytes),
            Err(short) => match short.rule {
                Stop::Denied(rule) => Reply::ShortIn(rule, short.bytes),
                // files in memory never refuse a promise
                Stop::Unpromised(_) => unreachable!(),
            },
        }
    }

    /// Copies bytes to the process, from `va` on. Returns the reply, and whether the copy made a page resident for a store;
    /// no access is pending then.
    fn copy_out(
        &mut self,
        frames: &mut PlainFrames,
        files: &mut Cabinet,
        va: Va,
        bytes: &[u8],
    ) -> (ScalarReply, bool)
        requires fits { IsSeatOf PlainStateInvariant frames.old (view_of self.old) }
        requires ready { (t : Tables) × (p : Process) × IsSlotProcess self.old t p }
        requires few { length bytes.now ≤ LONGEST_COPY }
        ensures copied { CopiesTo self.old self.new frames.old frames.new files.old files.new va.0 bytes.now (Scalar result.0) }
        ensures changed { (t u : Tables) (p q : Process) → IsSlotProcess self.old t p → IsSlotProcess self.new u q → TellsResidence result.1 p q Store va.0 }
        ensures trapframe { self.new.space.trapframe ≡ self.old.space.trapframe }
        ensures keeps { KeepsSeats PlainStateInvariant frames.old (view_of self.old) frames.new (view_of self.new) }
    {
        let before = self.residence(frames, va, Access::Store);
        let reply = self.copy_bytes_out(frames, files, va, bytes);
        // a resident page stays resident: then there is nothing to ask
        if before.0 && before.1 {
            return (reply, false);
        }
        let after = self.residence(frames, va, Access::Store);
        (reply, before.0 != after.0 || before.1 != after.1)
    }

    /// Copies bytes to the process, from `va` on, and returns the reply; no access is pending then.
    fn copy_bytes_out(
        &mut self,
        frames: &mut PlainFrames,
        files: &mut Cabinet,
        va: Va,
        bytes: &[u8],
    ) -> ScalarReply
        requires fits { IsSeatOf PlainStateInvariant frames.old (view_of self.old) }
        requires ready { (t : Tables) × (p : Process) × IsSlotProcess self.old t p }
        requires few { length bytes.now ≤ LONGEST_COPY }
        ensures copied { CopiesTo self.old self.new frames.old frames.new files.old files.new va.0 bytes.now (Scalar result) }
        ensures still { (t : Tables) (p : Process) → IsSlotProcess self.old t p → (u : Tables) × (q : Process) × IsSlotProcess self.new u q }
        ensures trapframe { self.new.space.trapframe ≡ self.old.space.trapframe }
        ensures keeps { KeepsSeats PlainStateInvariant frames.old (view_of self.old) frames.new (view_of self.new) }
    {
        self.pending = None;
        match user_copy::copy_out(&mut self.space, frames, files, va, bytes) {
            Ok(()) => ScalarReply::CopiedOut(bytes.len()),
            Err(short) => match short.rule {
                Stop::Denied(rule) => ScalarReply::ShortOut(rule, short.done),
                // files in memory never refuse a promise
                Stop::Unpromised(_) => unreachable!(),
            },
        }
    }
}
