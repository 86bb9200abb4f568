// Translation on a hart: by a walk of the page table that its `satp` names (`SatpTable`, an enum: the kernel's or a
// process's), or by an entry of its TLB; and fills of the buffer by such a walk.

ghost use Rattle.std.specs.Prelude.{◌≡◌, IfOk, IfSome, is_ok, option_map, slice_get, Some};
ghost use Rattle.hart_machine.specs.Buffers.{BuffersAre};
ghost use Rattle.hart_machine.specs.Harts.{hart_of};
ghost use Rattle.hart_machine.specs.BufferEntries.{IsInWorld};
ghost use Rattle.hart_machine.specs.Tables.{tables_of, IsTranslated, HasTable, MayAsk, present_table};
ghost use Rattle.table_walk.specs.Leaves.{walk_answer};
ghost use Rattle.hart_machine.specs.StepPromises.{MakesStep};
ghost use Rattle.hart_machine.specs.Worlds.{IsWorldButBuffers, SamePlaces, KeepsWorld};
ghost use Rattle.hart_machine.specs.declared.hart.Hart.{Hart};
ghost use Rattle.process_model.specs.Harts.{entry_serves};
ghost use Rattle.process_model.specs.World.{World};
ghost use Rattle.process_model.specs.declared.reply.ScalarReply.TheVariants.{Filled};
ghost use Rattle.process_model.specs.declared.reply.Reply.TheVariants.{Scalar};
ghost use Rattle.process_model.specs.declared.step.Step.TheVariants as step;

use crate::hart::{Hart, has_user_satp};
use crate::machine::Machine;
use hart_tlb::NoEntry;
use sv39_entry::{Access, Mode, Va};
use table_walk::{Walk, translate_held};

/// A page table that `satp` may name: the kernel's, or a process's.
#[derive(Clone, Copy)]
pub(crate) enum SatpTable {
    OfKernel,
    /// The page table of the process in this slot.
    OfProcess(usize),
}

impl Hart {
    /// The page table that the hart's `satp` names in its phase.
    pub(crate) fn table(&self) -> SatpTable
        ensures { result ≡ present_table self.now }
    {
        match self.slot {
            Some(slot) if has_user_satp(self.phase) => SatpTable::OfProcess(slot),
            _ => SatpTable::OfKernel,
        }
    }
}

impl Machine {
    /// The page table that a hart's `satp` names in its phase; `None` if there is no such hart.
    pub(crate) fn table_of(&self, hart: usize) -> Option<SatpTable>
        ensures { result ≡ option_map present_table (slice_get self.now.harts.items hart) }
    {
        match self.harts.get(hart) {
            Some(hart) => Some(hart.table()),
            None => None,
        }
    }

    /// What the entry with number `via` of a hart's buffer makes of an access: the leaf with the physical address, or the fault;
    /// `None` if `via` is `None`.
    ///
    /// # Errors
    /// `NoEntry`: exactly when `via` names an entry that is not there, or is for another page or another ASID.
    pub(crate) fn outcome_by_entry(
        &self,
        hart: usize,
        via: Option<usize>,
        va: Va,
        access: Access,
        mode: Mode,
    ) -> Result<Option<Walk>, NoEntry>
        requires world { (w : World) × IsWorldButBuffers self.now w }
        ensures serves { (w : World) (x : Hart) → IsWorldButBuffers self.now w → slice_get self.now.harts.items hart ≡ Some x →
            is_ok result ≡ entry_serves self.now.policy (hart_of x) va.0 via }
        ensures walk { IfOk result (λ o. IfSome o (λ z. (w : World) (is : IsInWorld self.now w) (x : Hart) →
            slice_get self.now.harts.items hart ≡ Some x → MayAsk self.now.kernel.scheme x va.0 →
            IsTranslated self.now.kernel.scheme x (is.world).tables (is.world).kernel va.0 access mode z)) }
    {
        let Some(entry) = via else {
            return Ok(None);
        };
        match self.translate_by_entry(hart, entry, va, access, mode) {
            Ok(walk) => Ok(Some(walk)),
            Err(NoEntry) => Err(NoEntry),
        }
    }

    /// Translates an access by the entry with number `entry` of a hart's buffer.
    ///
    /// # Errors
    /// `NoEntry`: exactly when that entry is not there, or is for another page or another ASID.
    pub(crate) fn translate_by_entry(
        &self,
        hart: usize,
        entry: usize,
        va: Va,
        access: Access,
        mode: Mode,
    ) -> Result<Walk, NoEntry>
        requires world { (w : World) × IsWorldButBuffers self.now w }
        ensures serves { (w : World) (x : Hart) → IsWorldButBuffers self.now w → slice_get self.now.harts.items hart ≡ Some x
            → is_ok result ≡ entry_serves self.now.policy (hart_of x) va.0 (Some entry) }
        ensures walk { IfOk result (λ z. (w : World) (is : IsInWorld self.now w) (x : Hart) → slice_get self.now.harts.items hart ≡ Some x
            → MayAsk self.now.kernel.scheme x va.0 →
            IsTranslated self.now.kernel.scheme x (is.world).tables (is.world).kernel va.0 access mode z) }
    {
        let Some(hart) = self.harts.get(hart) else {
            return Err(NoEntry);
        };
        let asid = hart.asid(self.policy);
        hart.buffer.use_entry(entry, va, asid, access, mode)
    }

    /// Translates an access by a walk of this page table.
    pub(crate) fn walk(&mut self, table: SatpTable, va: Va, access: Access, mode: Mode) -> Walk
        requires there { HasTable self.old table }
        requires world { (w : World) × IsWorldButBuffers self.old w }
        ensures walk { (w : World) (is : IsWorldButBuffers self.old w) → result ≡ walk_answer w.scheme (tables_of is.tables is.kernel table) va.0 access mode }
        ensures world { KeepsWorld self.old self.new }
        ensures places { SamePlaces self.old self.new }
        ensures policy { self.new.policy ≡ self.old.policy }
        ensures harts { self.new.harts ≡ self.old.harts }
    {
        let frames = &mut self.frames;
        match table {
            SatpTable::OfKernel => {
                let kernel = &mut self.kernel;
                translate_held(
                    frames,
                    &mut kernel.seat,
                    kernel.scheme,
                    kernel.root,
                    va,
                    access,
                    mode,
                )
            }
            SatpTable::OfProcess(slot) => {
                let slots = &mut self.slots;
                let Some(slot_process) = &mut slots[slot] else {
                    unreachable!()
                };
                slot_process.space.translate(frames, va, access, mode)
            }
        }
    }

    /// Walks the page table that a hart's `satp` names for the page of `va`, keeps what the walk finds as the newest entry of
    /// the hart's buffer, and returns the number of that entry.
    pub(crate) fn fill_from_walk(&mut self, hart: usize, table: SatpTable, va: Va) -> usize
        requires present { (x : Hart) × (slice_get self.old.harts.items hart ≡ Some x) × (table ≡ present_table x) }
        requires world { (w : World) × IsWorldButBuffers self.old w }
        ensures made { MakesStep self.old self.new (step.Fill hart va.0) (Scalar (Filled result)) }
        ensures entries { (w : World) (is : IsWorldButBuffers self.old w)
            → BuffersAre self.old self.new is.tables is.kernel (step.Fill hart va.0) (Scalar (Filled result)) }
        ensures places { SamePlaces self.old self.new }
    {
        let policy = self.policy;
        let frames = &mut self.frames;
        let hart = &mut self.harts[hart];
        let asid = hart.asid(policy);
        match table {
            SatpTable::OfKernel => {
                let kernel = &mut self.kernel;
                hart.fill(
                    frames,
                    &mut kernel.seat,
                    kernel.scheme,
                    kernel.root,
                    asid,
                    va,
                )
            }
            SatpTable::OfProcess(slot) => {
                let slots = &mut self.slots;
                let Some(slot_process) = &mut slots[slot] else {
                    unreachable!()
                };
                let space = &mut slot_process.space;
                let scheme = space.layout.scheme();
                hart.fill(frames, &mut space.seat, scheme, space.root, asid, va)
            }
        }
    }
}
