// Whether a hart is in the kernel for its process: `in_kernel`, which every kernel call and `Serve` ask first; and whether an
// access of a process waits for service.

ghost use Rattle.std.specs.Prelude.{◌≡◌, ℕ, IfErr, IfOk};
ghost use Rattle.hart_machine.specs.Calls.{call_while, IsInKernel};
ghost use Rattle.hart_machine.specs.Worlds.{IsWorldButBuffers};
ghost use Rattle.process_model.specs.Harts as harts;
ghost use Rattle.process_model.specs.Process.{Process};
ghost use Rattle.process_model.specs.World as model;
ghost use Rattle.process_model.specs.World.{StepOutcome, refuses, World};

use crate::hart::is_kernel;
use crate::machine::Machine;
use process_model::Refusal;

impl Machine {
    /// The slot of the process for which a hart is in the kernel, if an access of it waits for service exactly as `waits`
    /// says: true for the service of a fault, false for a kernel call.
    ///
    /// # Errors
    /// `BadArgument`: there is no such hart. `Impossible` with the hart's phase: this is not `Kernel`, or an access waits and
    /// `waits` is false, or none waits and `waits` is true.
    pub(crate) fn in_kernel(&self, hart: usize, waits: bool) -> Result<usize, Refusal>
        requires world { (w : World) × IsWorldButBuffers self.now w }
        ensures there { IfOk result (λ s. (w : World) → IsWorldButBuffers self.now w → IsInKernel self.now w hart s waits) }
        ensures refused { IfErr result (λ e. (w : World) (run : harts.Hart → ℕ → Process → StepOutcome) → IsWorldButBuffers self.now w
            → call_while w hart waits run ≡ refuses w e) }
    {
        let Some((phase, on)) = self.phase_and_slot(hart) else {
            return Err(Refusal::BadArgument);
        };
        if !is_kernel(phase) || self.awaits_service(on) != waits {
            return Err(Refusal::Impossible(phase));
        }
        let Some(slot) = on else {
            return Err(Refusal::Impossible(phase));
        };
        Ok(slot)
    }

    /// Whether an access of the process in a slot waits for service: it faulted, and was not served. `None`, for no process:
    /// false.
    pub(crate) fn awaits_service(&self, on: Option<usize>) -> bool
        ensures { (w : World) (x : harts.Hart) → IsWorldButBuffers self.now w → x.slot ≡ on → result ≡ model.awaits_service w x }
    {
        let Some(slot) = on else {
            return false;
        };
        match self.slots.get(slot) {
            Some(Some(slot_process)) => slot_process.is_unserved(),
            _ => false,
        }
    }
}
