// `Machine::boot`: makes a machine with empty slots, idle harts, and the kernel's page table; and the enum `BootError`, why
// it could not.

ghost use Rattle.std.specs.Prelude.{◌≡◌, ◌↔◌, false, IfErr, IfOk, IsErrOf, map, None, replicate};
ghost use Rattle.hart_machine.specs.Harts.{hart_of};
ghost use Rattle.hart_machine.specs.BufferEntries.{IsInWorld};
ghost use Rattle.process_model.specs.Frames.{can_boot};
ghost use Rattle.process_model.specs.Harts as model;
ghost use Rattle.process_model.specs.World.{booted};

use crate::hart::Hart;
use crate::machine::Machine;
use crate::slot_process::SlotProcess;
use address_space::KernelTable;
use cow_fork::PageList;
use file_cabinet::Cabinet;
use frame_store::PlainFrames;
use process_model::Config;
use std::alloc::{AllocError, AllocFailed, Global};

/// Why a machine was not booted.
#[derive(Clone, Copy, PartialEq, Eq, Debug)]
pub enum BootError {
    /// The configuration breaks a limit, or has fewer frames than the kernel takes.
    BadArgument,
    /// The host is out of memory.
    Memory,
}

impl<T: Drop> From<AllocFailed<T>> for BootError {
    ghost use Rattle.std.specs.Prelude.{◌≡◌};
    ghost use Rattle.hart_machine.specs.declared.boot.BootError.TheVariants.{Memory};

    ghost from_gives = { λ _ e. e ≡ Memory };

    fn from(_e: AllocFailed<T>) -> BootError {
        BootError::Memory
    }
}

impl From<AllocError> for BootError {
    ghost use Rattle.std.specs.Prelude.{◌≡◌};
    ghost use Rattle.hart_machine.specs.declared.boot.BootError.TheVariants.{Memory};

    ghost from_gives = { λ _ e. e ≡ Memory };

    fn from(_e: AllocError) -> BootError {
        BootError::Memory
    }
}

impl Machine {
    /// Boots a machine as `config` says, with these files, and returns it: all slots are empty, all harts idle, and the
    /// kernel's page table is built. All host memory that steps need is allocated here.
    ///
    /// # Errors
    /// `BadArgument`: exactly when `config` breaks a limit (`can_boot`): 1 to `MOST_HARTS` harts, `FEWEST_FRAMES` to
    /// `MOST_FRAMES` frames, 1 to `MOST_SLOTS` slots, and at least the frames that the kernel takes (`kernel_frames`).
    /// `Memory`: the host is out of memory. Both drop the files.
    pub fn boot(alloc: Global, config: Config, files: Cabinet) -> Result<Machine, BootError>
        ensures limits { IsErrOf result BootError.BadArgument ↔ (can_boot config.scheme config.harts config.frames config.slots ≡ false) }
        ensures booted { IfOk result (λ m. IsInWorld m (booted config files)) }
    {
        if !config.is_bootable() {
            return Err(BootError::BadArgument);
        }
        let (mut frames, seat) = PlainFrames::new(alloc, config.frames)?;
        let slots = empty_slots(alloc, config.slots)?;
        let harts = idle_harts(alloc, config.harts)?;
        let Ok(kernel) = KernelTable::build(
            &mut frames,
            seat,
            config.scheme,
            config.frames as u16,
            config.slots as u16,
        ) else {
            unreachable!()
        };
        Ok(Machine {
            policy: config.policy,
            frames,
            kernel,
            slots,
            harts,
            files,
            pages: PageList::new(),
        })
    }
}

/// A list of `count` slots without a process.
///
/// # Errors
/// `Memory`: the host is out of memory.
fn empty_slots(alloc: Global, count: usize) -> Result<Vec<Option<SlotProcess>>, BootError>
    ensures slots { IfOk result (λ v. v.items ≡ replicate count None) }
    ensures memory { IfErr result (λ e. e ≡ BootError.Memory) }
{
    let mut slots = Vec::with_capacity(alloc, count)?;
    for _ in 0..count {
        slots.push(None)?;
    }
    Ok(slots)
}

/// A list of `count` idle harts.
///
/// # Errors
/// `Memory`: the host is out of memory.
fn idle_harts(alloc: Global, count: usize) -> Result<Vec<Hart>, BootError>
    ensures harts { IfOk result (λ v. map hart_of v.items ≡ replicate count model.idle_hart) }
    ensures memory { IfErr result (λ e. e ≡ BootError.Memory) }
{
    let mut harts = Vec::with_capacity(alloc, count)?;
    for _ in 0..count {
        harts.push(Hart::idle())?;
    }
    Ok(harts)
}
