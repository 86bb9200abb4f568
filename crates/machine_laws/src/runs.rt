// Boots a machine and makes steps; what happens at each hart is a history (`run_from_boot`).

ghost use Rattle.std.specs.Prelude.{◌≡◌, ◌↔◌, ℕ, false, IfOk, IsErrOf, []};
ghost use Rattle.hart_machine.specs.BufferEntries.{IsInWorld};
ghost use Rattle.hart_machine.specs.Runs.{BuffersFollow};
ghost use Rattle.hart_machine.specs.declared.machine.Machine.{Machine};
ghost use Rattle.machine_laws.specs.HartHistories.{HasHistory};
ghost use Rattle.machine_laws.specs.MachineStates.{first_on};
ghost use Rattle.machine_laws.specs.RunHistories.{after_run};
ghost use Rattle.process_model.specs.Frames.{can_boot};
ghost use Rattle.process_model.specs.Steps.{run};
ghost use Rattle.process_model.specs.World.{booted};

use file_cabinet::Cabinet;
use hart_machine::{BootError, Machine};
use process_model::{Config, Reply, Step};
use std::alloc::Global;

/// Boots a machine as `config` says, with these files, and makes the steps of a list, in order. Returns the machine after them and the replies, the
/// model's, one for each step. Each hart has a history (`HasHistory`): from memory and satp as they were after boot, the events of all steps.
///
/// # Errors
/// `BadArgument`: exactly when `config` breaks a limit (`can_boot`). `Memory`: the host is out of memory. Both drop machine and files.
pub fn run_from_boot(
    alloc: Global,
    config: Config,
    files: Cabinet,
    steps: &[Step<'_>],
) -> Result<(Machine, Vec<Reply>), BootError>
    ensures limits { IsErrOf result BootError.BadArgument ↔ (can_boot config.scheme config.harts config.frames config.slots ≡ false) }
    ensures replies { IfOk result (λ r. r.1.items ≡ (run (booted config files) steps.now).replies) }
    ensures histories { IfOk result (λ r. (m : Machine) × IsInWorld m (booted config files) × (follow : BuffersFollow m (booted config files) steps.now r.0)
        × ((k : ℕ) → HasHistory r.0 k (first_on m k) (after_run k m (booted config files) steps.now r.0 follow []))) }
{
    let mut machine = Machine::boot(alloc, config, files)?;
    let replies = machine.run(alloc, steps)?;
    Ok((machine, replies))
}
