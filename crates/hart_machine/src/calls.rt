// Steps `Mmap`, `Munmap` and `Sbrk`: system calls that change the regions of the process on a hart.

ghost use Rattle.std.specs.Prelude.{◌≡◌, Err, IfErr, IfOk, None, Ok, Some};
ghost use Rattle.frame_store.specs.Laws.{IsSeatOf, KeepsSeats};
ghost use Rattle.frame_store.specs.Plain.{PlainStateInvariant};
ghost use Rattle.hart_machine.specs.Buffers.{SameBuffers};
ghost use Rattle.hart_machine.specs.Calls.{done_or_refused, HasResized, HasUnmapped, mapped_or_refused, size_of, size_or_refused};
ghost use Rattle.hart_machine.specs.Marks.{marked_by, marked_with};
ghost use Rattle.hart_machine.specs.SlotProcesses.{IsSlotProcess, view_of};
ghost use Rattle.hart_machine.specs.StepPromises.{KeepsTablesOf, MakesStep, MarksStep};
ghost use Rattle.hart_machine.specs.Worlds.{IsWorldButBuffers, SameTables};
ghost use Rattle.lazy_growth.specs.SbrkResults.{size_before};
ghost use Rattle.mmap_regions.specs.MmapEffect.{address_of_mapped, process_mapped};
ghost use Rattle.process_model.specs.declared.reply.Reply.TheVariants.{Scalar};
ghost use Rattle.process_model.specs.Heap.{sbrk_result};
ghost use Rattle.process_model.specs.Mappings as mappings;
ghost use Rattle.process_model.specs.Process.{Process, without_pending};
ghost use Rattle.process_model.specs.Stale.{is_changed};
ghost use Rattle.process_model.specs.World.{World};
ghost use Rattle.process_model.specs.declared.step.Step.TheVariants as step;
ghost use Rattle.table_walk.specs.Tables.{Tables};

use crate::machine::Machine;
use crate::slot_process::SlotProcess;
use crate::stale_marks::{StepEffect, slot_if};
use file_cabinet::Cabinet;
use frame_store::PlainFrames;
use process_model::{Refusal, ScalarReply};
use sv39_entry::{PAGE_SIZE, Va};

impl Machine {
    /// Maps a file, by its number from 0, for the process on a hart (MIT 6.1810, mmap lab). The reply is `MappedAt` with
    /// the address, or the first refusal that applies of those of `in_kernel`, `BadArgument`, `FileNotWritable`,
    /// `MappingsFull` and `NoRoom`.
    #[inline(never)]
    pub(crate) fn mmap(
        &mut self,
        hart: usize,
        length: u64,
        protection: u64,
        flags: u64,
        file: usize,
    ) -> ScalarReply
        requires world { (w : World) × IsWorldButBuffers self.old w }
        ensures made { MakesStep self.old self.new (step.Mmap hart length protection flags file) (Scalar result) }
        ensures buffers { SameBuffers self.old self.new }
        ensures same_tables { SameTables self.old self.new }
    {
        match self.try_mmap(hart, length, protection, flags, file) {
            Ok(address) => ScalarReply::MappedAt(address),
            Err(refusal) => ScalarReply::Refused(refusal),
        }
    }

    /// `mmap`, with the address of the mapping as the result.
    ///
    /// # Errors
    /// Those of `in_kernel`, then the first that applies of `BadArgument`, `FileNotWritable`, `MappingsFull` and `NoRoom`.
    fn try_mmap(
        &mut self,
        hart: usize,
        length: u64,
        protection: u64,
        flags: u64,
        file: usize,
    ) -> Result<u64, Refusal>
        requires world { (w : World) × IsWorldButBuffers self.old w }
        ensures made { MakesStep self.old self.new (step.Mmap hart length protection flags file) (mapped_or_refused result) }
        ensures harts { self.new.harts ≡ self.old.harts }
        ensures same_tables { SameTables self.old self.new }
    {
        let slot = self.in_kernel(hart, false)?;
        let files = &self.files;
        let slots = &mut self.slots;
        let Some(slot_process) = &mut slots[slot] else {
            unreachable!()
        };
        slot_process.mmap(files, length, protection, flags, file)
    }

    /// Unmaps `length` bytes from `address` on for the process on a hart (MIT 6.1810, mmap lab). The reply is `Done`, or
    /// the first refusal that applies of those of `in_kernel`, `BadArgument` and `HoleInMapping`.
    #[inline(never)]
    pub(crate) fn munmap(
        &mut self,
        hart: usize,
        address: u64,
        length: u64,
    ) -> StepEffect<ScalarReply>
        requires world { (w : World) × IsWorldButBuffers self.old w }
        ensures made { MakesStep self.old self.new (step.Munmap hart address length) (Scalar result.reply) }
        ensures buffers { SameBuffers self.old self.new }
        ensures tables { KeepsTablesOf self.old self.new (step.Munmap hart address length) }
        ensures changed { MarksStep self.old (step.Munmap hart address length) result.changed result.born }
    {
        match self.try_munmap(hart, address, length) {
            Ok(changed) => StepEffect::with_change(ScalarReply::Done, changed),
            Err(refusal) => StepEffect::without_change(ScalarReply::Refused(refusal)),
        }
    }

    /// `munmap`, with the slot of the process as the result if a settled page was released, and else `None`.
    ///
    /// # Errors
    /// Those of `in_kernel`, then `BadArgument`, then `HoleInMapping`.
    fn try_munmap(
        &mut self,
        hart: usize,
        address: u64,
        length: u64,
    ) -> Result<Option<usize>, Refusal>
        requires world { (w : World) × IsWorldButBuffers self.old w }
        ensures made { MakesStep self.old self.new (step.Munmap hart address length) (done_or_refused result) }
        ensures changed { MarksStep self.old (step.Munmap hart address length) (marked_by result) None }
        ensures harts { self.new.harts ≡ self.old.harts }
        ensures tables { KeepsTablesOf self.old self.new (step.Munmap hart address length) }
    {
        let slot = self.in_kernel(hart, false)?;
        let frames = &mut self.frames;
        let files = &mut self.files;
        let slots = &mut self.slots;
        let Some(slot_process) = &mut slots[slot] else {
            unreachable!()
        };
        let released = slot_process.munmap(frames, files, address, length)?;
        Ok(slot_if(slot, released))
    }

    /// Moves the end of the heap of the process on a hart by `delta` bytes; takes no frame. The reply is `OldSize` with
    /// the size before, in bytes, or the first refusal that applies of those of `in_kernel`, `BadSize` and `NoRoom`.
    #[inline(never)]
    pub(crate) fn sbrk(&mut self, hart: usize, delta: i64) -> StepEffect<ScalarReply>
        requires world { (w : World) × IsWorldButBuffers self.old w }
        ensures made { MakesStep self.old self.new (step.Sbrk hart delta) (Scalar result.reply) }
        ensures buffers { SameBuffers self.old self.new }
        ensures tables { KeepsTablesOf self.old self.new (step.Sbrk hart delta) }
        ensures changed { MarksStep self.old (step.Sbrk hart delta) result.changed result.born }
    {
        match self.try_sbrk(hart, delta) {
            Ok((size, changed)) => StepEffect::with_change(ScalarReply::OldSize(size), changed),
            Err(refusal) => StepEffect::without_change(ScalarReply::Refused(refusal)),
        }
    }

    /// `sbrk`, with the size before, in bytes, as the result, and the slot of the process if a settled page was released.
    ///
    /// # Errors
    /// Those of `in_kernel`, then `BadSize`, then `NoRoom`.
    fn try_sbrk(&mut self, hart: usize, delta: i64) -> Result<(u64, Option<usize>), Refusal>
        requires world { (w : World) × IsWorldButBuffers self.old w }
        ensures made { MakesStep self.old self.new (step.Sbrk hart delta) (size_or_refused result) }
        ensures changed { MarksStep self.old (step.Sbrk hart delta) (marked_with result) None }
        ensures harts { self.new.harts ≡ self.old.harts }
        ensures tables { KeepsTablesOf self.old self.new (step.Sbrk hart delta) }
    {
        let slot = self.in_kernel(hart, false)?;
        let frames = &mut self.frames;
        let slots = &mut self.slots;
        let Some(slot_process) = &mut slots[slot] else {
            unreachable!()
        };
        let (size, released) = slot_process.sbrk(frames, delta)?;
        Ok((size, slot_if(slot, released)))
    }
}

impl SlotProcess {
    /// Maps a file and returns the address of the mapping; no access is pending then.
    ///
    /// # Errors
    /// Those of the model (`mapped`). The process is then unchanged.
    fn mmap(
        &mut self,
        files: &Cabinet,
        length: u64,
        protection: u64,
        flags: u64,
        file: usize,
    ) -> Result<u64, Refusal>
        requires ready { (t : Tables) × (p : Process) × IsSlotProcess self.old t p }
        ensures answer { (t : Tables) (p : Process) → IsSlotProcess self.old t p →
            result ≡ address_of_mapped (mappings.mapped files.now p length protection flags file) }
        ensures after { IfOk result (λ _. (t : Tables) (p : Process) → IsSlotProcess self.old t p →
            IsSlotProcess self.new t (without_pending (process_mapped p (mappings.mapped files.now p length protection flags file)))) }
        ensures refused { IfErr result (λ _. self.new ≡ self.old) }
        ensures view { view_of self.new ≡ view_of self.old }
    {
        let address = mmap_regions::mmap(&mut self.space, files, length, protection, flags, file)?;
        self.pending = None;
        Ok(address)
    }

    /// Unmaps `length` bytes from `address` on and returns whether a settled page was released; no access is pending then.
    ///
    /// # Errors
    /// Those of the model (`unmapped`). Process, frames and files are then unchanged.
    fn munmap(
        &mut self,
        frames: &mut PlainFrames,
        files: &mut Cabinet,
        address: u64,
        length: u64,
    ) -> Result<bool, Refusal>
        requires fits { IsSeatOf PlainStateInvariant frames.old (view_of self.old) }
        requires ready { (t : Tables) × (p : Process) × IsSlotProcess self.old t p }
        ensures unmapped { IfOk result (λ _. (t : Tables) (p : Process) → IsSlotProcess self.old t p
            → HasUnmapped self.new t p files.old files.new address length) }
        ensures changed { IfOk result (λ b. (t : Tables) (p : Process) → IsSlotProcess self.old t p → (u : mappings.Unmapped)
            → mappings.unmapped files.old p address length ≡ Ok u → b ≡ is_changed (Some p) (Some (without_pending u.process))) }
        ensures refused { IfErr result (λ e. (t : Tables) (p : Process) → IsSlotProcess self.old t p → mappings.unmapped files.old p address length ≡ Err e) }
        ensures stays { IfErr result (λ _. self.new ≡ self.old) }
        ensures trapframe { self.new.space.trapframe ≡ self.old.space.trapframe }
        ensures files_stay { IfErr result (λ _. files.new ≡ files.old) }
        ensures frames_stay { IfErr result (λ _. frames.new ≡ frames.old) }
        ensures keeps { KeepsSeats PlainStateInvariant frames.old (view_of self.old) frames.new (view_of self.new) }
    {
        let first = Va(address).page().number();
        let released = self.has_settled(frames, first, first + length.div_ceil(PAGE_SIZE));
        mmap_regions::munmap(&mut self.space, frames, files, address, length)?;
        self.pending = None;
        Ok(released)
    }

    /// Moves the end of the heap by `delta` bytes. Returns the size before, in bytes, and whether a settled page was
    /// released; no access is pending then.
    ///
    /// # Errors
    /// Those of the model (`sbrk_result`). Process and frames are then unchanged.
    fn sbrk(&mut self, frames: &mut PlainFrames, delta: i64) -> Result<(u64, bool), Refusal>
        requires fits { IsSeatOf PlainStateInvariant frames.old (view_of self.old) }
        requires ready { (t : Tables) × (p : Process) × IsSlotProcess self.old t p }
        ensures answer { (t : Tables) (p : Process) → IsSlotProcess self.old t p → size_of result ≡ size_before p (sbrk_result p delta) }
        ensures changed { IfOk result (λ x. (t : Tables) (p : Process) → IsSlotProcess self.old t p → (q : Process)
            → sbrk_result p delta ≡ Ok q → x.1 ≡ is_changed (Some p) (Some (without_pending q))) }
        ensures resized { IfOk result (λ _. (t : Tables) (p : Process) → IsSlotProcess self.old t p → HasResized self.new t p delta) }
        ensures stays { IfErr result (λ _. self.new ≡ self.old) }
        ensures trapframe { self.new.space.trapframe ≡ self.old.space.trapframe }
        ensures frames_stay { IfErr result (λ _. frames.new ≡ frames.old) }
        ensures keeps { KeepsSeats PlainStateInvariant frames.old (view_of self.old) frames.new (view_of self.new) }
    {
        let released = self.loses_page(frames, delta);
        let before = lazy_growth::sbrk(&mut self.space, frames, delta)?;
        self.pending = None;
        Ok((before, released))
    }

    /// Whether an sbrk by `delta` bytes, if it is not refused, releases a settled page.
    fn loses_page(&mut self, frames: &mut PlainFrames, delta: i64) -> bool
        requires fits { IsSeatOf PlainStateInvariant frames.old (view_of self.old) }
        requires ready { (t : Tables) × (p : Process) × IsSlotProcess self.old t p }
        ensures changed { (t : Tables) (p : Process) → IsSlotProcess self.old t p → (q : Process) → sbrk_result p delta ≡ Ok q
            → result ≡ is_changed (Some p) (Some (without_pending q)) }
        ensures same { self.new ≡ self.old }
        ensures frames { frames.new ≡ frames.old }
    {
        let size = self.space.layout.size();
        match size.checked_add_signed(delta) {
            Some(wanted) => {
                self.has_settled(frames, wanted.div_ceil(PAGE_SIZE), size.div_ceil(PAGE_SIZE))
            }
            // sbrk is refused then
            None => false,
        }
    }
}
