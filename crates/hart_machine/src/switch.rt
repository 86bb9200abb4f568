// Steps `Switch`, `Trap` and `Next`: schedule a process on a hart, trap into the kernel, and execute the next instruction of
// kernel entry or return (the xv6 book, "Traps from user space").

ghost use Rattle.std.specs.Prelude.{◌≡◌, slice_get, Some};
ghost use Rattle.std.specs.List.{list_any};
ghost use Rattle.hart_machine.specs.Buffers.{BuffersAre, SameBuffers};
ghost use Rattle.hart_machine.specs.StepPromises.{MakesStep};
ghost use Rattle.hart_machine.specs.Worlds.{IsWorldButBuffers, SamePlaces, SameTables};
ghost use Rattle.process_model.specs.declared.reply.Reply.TheVariants.{Scalar};
ghost use Rattle.process_model.specs.Harts as harts;
ghost use Rattle.process_model.specs.World as model;
ghost use Rattle.process_model.specs.World.{World};
ghost use Rattle.process_model.specs.declared.step.Step.TheVariants as step;

use crate::hart::{Hart, is_kernel, is_user, may_switch, next_phase};
use crate::machine::Machine;
use process_model::{Phase, Refusal, ScalarReply};

impl Machine {
    /// Schedules the process of a slot on a hart, in phase `Kernel`; `None` leaves the hart idle. The reply is `Done`, or
    /// refused: `BadArgument`, there is no such hart; `Impossible`, its phase is neither `Idle` nor `Kernel`, or the slot has
    /// no process, or its process is on a hart.
    pub(crate) fn switch(&mut self, hart: usize, slot: Option<usize>) -> ScalarReply
        requires world { (w : World) × IsWorldButBuffers self.old w }
        ensures made { MakesStep self.old self.new (step.Switch hart slot) (Scalar result) }
        ensures buffers { SameBuffers self.old self.new }
        ensures places { SamePlaces self.old self.new }
    {
        let Some(phase) = self.phase_of(hart) else {
            return ScalarReply::Refused(Refusal::BadArgument);
        };
        if !may_switch(phase) || !self.can_run(slot) {
            return ScalarReply::Refused(Refusal::Impossible(phase));
        }
        self.harts[hart].take(slot);
        ScalarReply::Done
    }

    /// Whether a hart may switch to this slot: it has a process, which is on no hart. `None`, for no process, always may.
    fn can_run(&self, slot: Option<usize>) -> bool
        ensures { (w : World) → IsWorldButBuffers self.now w → result ≡ model.can_run w slot }
    {
        let Some(slot) = slot else {
            return true;
        };
        self.has_process(slot) && !is_on_hart(&self.harts, slot)
    }

    /// The process on a hart traps voluntarily: the hart is in phase `Enter0` then, and a pending access is dropped. The reply is
    /// `Done`, or refused: `BadArgument`, there is no such hart; `Impossible`, it is not in phase `User`.
    pub(crate) fn trap(&mut self, hart: usize) -> ScalarReply
        requires world { (w : World) × IsWorldButBuffers self.old w }
        ensures made { MakesStep self.old self.new (step.Trap hart) (Scalar result) }
        ensures buffers { SameBuffers self.old self.new }
        ensures same_tables { SameTables self.old self.new }
    {
        let Some((phase, on)) = self.phase_and_slot(hart) else {
            return ScalarReply::Refused(Refusal::BadArgument);
        };
        if !is_user(phase) {
            return ScalarReply::Refused(Refusal::Impossible(phase));
        }
        let Some(slot) = on else {
            return ScalarReply::Refused(Refusal::Impossible(phase));
        };
        self.set_pending(slot, None);
        self.harts[hart].phase = Phase::Enter0;
        ScalarReply::Done
    }

    /// Executes a hart's next instruction of kernel entry or return, a fence or a write of `satp`. The reply is `Done`, or
    /// refused: `BadArgument`, there is no such hart; `Impossible`, its phase is `Idle` or `User`, or it is `Kernel` and an
    /// access waits for service.
    pub(crate) fn next(&mut self, hart: usize) -> ScalarReply
        requires world { (w : World) × IsWorldButBuffers self.old w }
        ensures made { MakesStep self.old self.new (step.Next hart) (Scalar result) }
        ensures entries { (w : World) (is : IsWorldButBuffers self.old w) → BuffersAre self.old self.new is.tables is.kernel (step.Next hart) (Scalar result) }
        ensures places { SamePlaces self.old self.new }
    {
        let Some((phase, on)) = self.phase_and_slot(hart) else {
            return ScalarReply::Refused(Refusal::BadArgument);
        };
        if !self.can_go_on(phase, on) {
            return ScalarReply::Refused(Refusal::Impossible(phase));
        }
        let policy = self.policy;
        self.harts[hart].advance(policy);
        ScalarReply::Done
    }

    /// Whether a hart in this phase, with the process of this slot, has a next instruction of kernel entry or return, and no
    /// waiting access keeps it in the kernel.
    fn can_go_on(&self, phase: Phase, on: Option<usize>) -> bool
        ensures { (w : World) (x : harts.Hart) → IsWorldButBuffers self.now w → x.phase ≡ phase → x.slot ≡ on → result ≡ model.can_go_on w x }
    {
        next_phase(phase).is_some() && !(is_kernel(phase) && self.awaits_service(on))
    }
}

/// Whether one of the harts has the process of this slot.
fn is_on_hart(harts: &[Hart], slot: usize) -> bool
    ensures { result ≡ list_any (λ x. model.has_slot slot x.slot) harts.now }
{
    harts.iter().any(|hart| hart.slot == Some(slot))
}
