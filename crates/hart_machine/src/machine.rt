// `Machine`, the struct, and its accessors: accounts of frames, files, a hart's phase and slot, whether a slot has a process.
// Also `set_pending`, which sets a process's pending access.

ghost use Rattle.std.specs.Prelude.{◌≡◌, is_some, option_map, slice_get, Some};
ghost use Rattle.std.specs.Vec.{with_item};
ghost use Rattle.hart_machine.specs.declared.slot_process.SlotProcess.{SlotProcess};
ghost use Rattle.hart_machine.specs.BufferEntries.{IsInWorld};
ghost use Rattle.hart_machine.specs.Worlds.{IsWorldButBuffers};
ghost use Rattle.process_model.specs.World.{process_in, report, World};

use crate::hart::Hart;
use crate::slot_process::{Pending, SlotProcess};
use address_space::KernelTable;
use cow_fork::PageList;
use file_cabinet::Cabinet;
use frame_store::{PlainFrames, PlainSeat};
use process_model::{Phase, Policy, Report};

/// A machine: policy, frames, the kernel's page table, slots, harts with their TLBs, and files. `boot` makes one; `step` and
/// `run` make its steps.
#[derive(Drop)]
pub struct Machine {
    pub(crate) policy: Policy,
    pub(crate) frames: PlainFrames,
    pub(crate) kernel: KernelTable<PlainSeat>,
    pub(crate) slots: Vec<Option<SlotProcess>>,
    pub(crate) harts: Vec<Hart>,
    pub(crate) files: Cabinet,
    /// The list into which a fork collects the settled pages of the parent.
    pub(crate) pages: PageList,
}

impl Machine {
    /// Returns the counts of frames: free ones; held ones, which are all others; shared ones, which two or more processes
    /// have, and the trampoline's if there is a process; and the references to frames, those of the kernel's direct map
    /// aside.
    pub fn report(&self) -> Report
        ensures { (w : World) → IsInWorld self.now w → result ≡ report w }
    {
        self.frames.report()
    }

    /// The files, with the bytes that they have at this moment.
    pub fn files(&self) -> &Cabinet
        ensures { (w : World) → IsInWorld self.now w → result.now ≡ w.files }
    {
        &self.files
    }

    /// The phase of a hart between user mode and kernel; `None` if there is no such hart.
    pub(crate) fn phase_of(&self, hart: usize) -> Option<Phase>
        ensures { result ≡ option_map (λ x. x.phase) (slice_get self.now.harts.items hart) }
    {
        match self.harts.get(hart) {
            Some(hart) => Some(hart.phase),
            None => None,
        }
    }

    /// The phase of a hart, and the slot of the process on it, if there is one; `None` if there is no such hart.
    pub(crate) fn phase_and_slot(&self, hart: usize) -> Option<(Phase, Option<usize>)>
        ensures { result ≡ option_map (λ x. (x.phase, x.slot)) (slice_get self.now.harts.items hart) }
    {
        match self.harts.get(hart) {
            Some(hart) => Some((hart.phase, hart.slot)),
            None => None,
        }
    }

    /// Whether there is such a slot and it has a process.
    pub(crate) fn has_process(&self, slot: usize) -> bool
        ensures { (w : World) → IsWorldButBuffers self.now w → result ≡ is_some (process_in w slot) }
    {
        matches!(self.slots.get(slot), Some(Some(_)))
    }

    /// Sets the pending access of the process in a slot; `None` if none is pending.
    pub(crate) fn set_pending(&mut self, slot: usize, pending: Option<Pending>)
        requires there { (x : SlotProcess) × (slice_get self.old.slots.items slot ≡ Some (Some x)) }
        ensures { (x : SlotProcess) → slice_get self.old.slots.items slot ≡ Some (Some x)
            → self.new ≡ record self.old { slots = with_item self.old.slots slot (Some (record x { pending = pending })) } }
    {
        let slots = &mut self.slots;
        let Some(slot_process) = &mut slots[slot] else {
            unreachable!()
        };
        slot_process.pending = pending;
    }
}
