// Step `TrampolineFetch`: the kernel fetches its code in the trampoline's page, during kernel entry and return, by a walk or
// by an entry of the hart's TLB.

ghost use Rattle.std.specs.Prelude.{◌≡◌, IfOk, is_ok, slice_get, Some};
ghost use Rattle.hart_machine.specs.Buffers.{SameBuffers};
ghost use Rattle.hart_machine.specs.BufferEntries.{IsInWorld};
ghost use Rattle.hart_machine.specs.Harts.{hart_of};
ghost use Rattle.hart_machine.specs.Tables.{IsTranslated, MayAsk};
ghost use Rattle.hart_machine.specs.Worlds.{IsModelOutcome, IsWorldButBuffers, KeepsWorld, SamePlaces};
ghost use Rattle.hart_machine.specs.declared.hart.Hart.{Hart};
ghost use Rattle.process_model.specs.Harts.{entry_serves};
ghost use Rattle.process_model.specs.declared.reply.Reply.TheVariants.{Scalar};
ghost use Rattle.process_model.specs.Steps.{plain_step};
ghost use Rattle.process_model.specs.World.{World};
ghost use Rattle.process_model.specs.declared.step.Step.TheVariants as step;

use crate::hart::in_trampoline;
use crate::machine::Machine;
use hart_tlb::NoEntry;
use process_model::{Refusal, ScalarReply};
use sv39_entry::{Access, FrameNo, Mode, PAGE_SIZE, Va};
use table_walk::Walk;

impl Machine {
    /// Fetches the kernel's code at byte `offset` of the trampoline's page on a hart, in supervisor mode, by the entry with
    /// number `via` of its buffer, or by a walk if `via` is `None`. The reply is `InFrame` with the number of the frame.
    /// Refused, the first that applies: `BadArgument`, there is no such hart, or `offset` is no multiple of 4 below 4,096;
    /// `Impossible`, no such code runs in the hart's phase (`in_trampoline`); `NoEntry`, the entry named is not there, or is
    /// for another page or ASID.
    pub(crate) fn fetch_trampoline(
        &mut self,
        hart: usize,
        offset: u64,
        via: Option<usize>,
    ) -> ScalarReply
        requires world { (w : World) × IsInWorld self.old w }
        ensures made { (w : World) → IsInWorld self.old w
            → IsModelOutcome self.new (Scalar result) (plain_step w (step.TrampolineFetch hart offset via)) }
        ensures buffers { SameBuffers self.old self.new }
        ensures places { SamePlaces self.old self.new }
    {
        let Some(phase) = self.phase_of(hart) else {
            return ScalarReply::Refused(Refusal::BadArgument);
        };
        if offset % 4 != 0 || offset >= PAGE_SIZE {
            return ScalarReply::Refused(Refusal::BadArgument);
        }
        if !in_trampoline(phase) {
            return ScalarReply::Refused(Refusal::Impossible(phase));
        }
        let trampoline = self.kernel.scheme.trampoline();
        let va = Va(trampoline.0 + offset);
        let Ok(walk) = self.translate_kernel(hart, via, va, Access::Fetch, Mode::Supervisor) else {
            return ScalarReply::Refused(Refusal::NoEntry);
        };
        let Walk::Leaf { address, .. } = walk else {
            unreachable!()
        };
        let Some(frame) = FrameNo::from_ppn(address / PAGE_SIZE) else {
            unreachable!()
        };
        ScalarReply::InFrame(usize::from(frame.0))
    }

    /// Translates an access of the kernel's code on a hart: by the entry with number `via` of its buffer, or, if `via` is `None`, by a walk of the
    /// page table that its `satp` names. Returns the leaf with the physical address, or the fault.
    ///
    /// # Errors
    /// `NoEntry`: exactly when `via` names an entry that is not there, or is for another page or another ASID.
    fn translate_kernel(
        &mut self,
        hart: usize,
        via: Option<usize>,
        va: Va,
        access: Access,
        mode: Mode,
    ) -> Result<Walk, NoEntry>
        requires hart { (x : Hart) × (slice_get self.old.harts.items hart ≡ Some x) }
        requires world { (w : World) × IsWorldButBuffers self.old w }
        ensures serves { (w : World) (x : Hart) → IsWorldButBuffers self.old w → slice_get self.old.harts.items hart ≡ Some x
            → is_ok result ≡ entry_serves self.old.policy (hart_of x) va.0 via }
        ensures walk { IfOk result (λ z. (w : World) (is : IsInWorld self.old w) (x : Hart) → slice_get self.old.harts.items hart ≡ Some x
            → MayAsk self.old.kernel.scheme x va.0 →
            IsTranslated self.old.kernel.scheme x (is.world).tables (is.world).kernel va.0 access mode z) }
        ensures world { KeepsWorld self.old self.new }
        ensures places { SamePlaces self.old self.new }
        ensures policy { self.new.policy ≡ self.old.policy }
        ensures harts { self.new.harts ≡ self.old.harts }
    {
        if let Some(entry) = via {
            return self.translate_by_entry(hart, entry, va, access, mode);
        }
        let Some(table) = self.table_of(hart) else {
            unreachable!()
        };
        Ok(self.walk(table, va, access, mode))
    }
}
