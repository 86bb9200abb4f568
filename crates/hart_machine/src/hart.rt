// `Hart`, a struct: its phase (user mode, or how far it is in kernel entry and return), its process's slot, its TLB and its
// stale marks; and what fences and writes of `satp`, fills and a switch do to them. Also the next phase, and tests of a phase
// (such as `is_user`).

ghost use Rattle.std.specs.Prelude.{◌≡◌, ◌+◌, ◌<◌, ◌≤◌, ℕ, length, Some};
ghost use Rattle.frame_store.specs.Laws.{IsSeatOf};
ghost use Rattle.hart_machine.specs.Harts.{advanced, cleaned, emptied, hart_of, is_before_user, next_number, with_entry};
ghost use Rattle.process_model.specs.declared.limits.TheConstants.{MOST_SLOTS};
ghost use Rattle.hart_machine.specs.WalkEntries.{entry_for};
ghost use Rattle.table_walk.specs.Leaves.{LeavesAreLocal, LeavesAreThere};
ghost use Rattle.process_model.specs.Harts as model;
ghost use Rattle.table_walk.specs.Tables.{HasTables, Tables};

use crate::fill_from_tables::fill_from_tables;
use crate::slots::SlotSet;
use frame_store::{FrameAccess, FrameSeat};
use hart_tlb::Buffer;
use process_model::{BUFFER_SIZE, Phase, Policy};
use sv39_entry::{FrameNo, Scheme, Va};

/// A hart: its phase between user mode and kernel, the slot of its process, if it has one, and its TLB.
#[derive(Drop)]
pub(crate) struct Hart {
    pub(crate) phase: Phase,
    pub(crate) slot: Option<usize>,
    pub(crate) buffer: Buffer<BUFFER_SIZE>,
    /// Policy `asid`: the slots for which the hart is marked. Of their ASIDs the buffer may hold stale entries.
    pub(crate) stale: SlotSet,
}

impl Hart {
    /// An idle hart: no process, an empty buffer, and no mark.
    pub(crate) fn idle() -> Hart
        ensures { hart_of result ≡ model.idle_hart }
    {
        Hart {
            phase: Phase::Idle,
            slot: None,
            buffer: Buffer::new(),
            stale: SlotSet::empty(),
        }
    }

    /// Makes the next instruction of kernel entry or return, a fence or a write of `satp` (the xv6 book, "Traps from user
    /// space"), by the policy. In the phases `Idle` and `User` there is none, and nothing changes.
    pub(crate) fn advance(&mut self, policy: Policy)
        requires slot { (s : ℕ) → self.old.slot ≡ Some s → s < MOST_SLOTS }
        ensures { self.new ≡ advanced policy self.old }
    {
        match policy {
            Policy::Full => self.fence(),
            Policy::Asid => self.clean(),
        }
        if let Some(phase) = next_phase(self.phase) {
            self.phase = phase;
        }
    }

    /// Policy `full`: if the next instruction is a fence, empties the buffer.
    fn fence(&mut self)
        ensures { self.new ≡ emptied self.old }
    {
        if is_before_fence(self.phase) {
            self.buffer.fence(None, None);
        }
    }

    /// Policy `asid`: if the next instruction is the last fence of the return and the hart is marked for its slot, fences
    /// that slot's ASID and clears the mark. No other fence does anything.
    fn clean(&mut self)
        requires slot { (s : ℕ) → self.old.slot ≡ Some s → s < MOST_SLOTS }
        ensures { self.new ≡ cleaned self.old }
    {
        if !is_before_user(self.phase) {
            return;
        }
        let Some(slot) = self.slot else {
            return;
        };
        if self.stale.contains(slot) {
            self.buffer.fence(None, Some(asid_of(slot)));
            self.stale.remove(slot);
        }
    }

    /// The ASID in `satp`: that of the hart's process while `satp` names the process's table and the policy is `asid`, else 0.
    pub(crate) fn asid(&self, policy: Policy) -> u16
        requires slot { (s : ℕ) → self.now.slot ≡ Some s → s < MOST_SLOTS }
        ensures { result ≡ model.present_asid policy (hart_of self.now) }
    {
        match (policy, self.slot) {
            (Policy::Asid, Some(slot)) if has_user_satp(self.phase) => asid_of(slot),
            _ => 0,
        }
    }

    /// Walks the page tables below `root` for the page of `va`, keeps what the walk finds as the newest entry of the buffer,
    /// under `asid`, and returns the number of that entry. A full buffer loses its oldest entry.
    pub(crate) fn fill<F: FrameAccess>(
        &mut self,
        store: &mut F,
        seat: &mut F::Seat,
        scheme: Scheme,
        root: FrameNo,
        asid: u16,
        va: Va,
    ) -> usize
        requires fits { IsSeatOf F.invariant store.old seat.old }
        requires held { (t : Tables) × HasTables scheme (F.Seat.view seat.old) root.0 t }
        ensures kept { (t : Tables) → HasTables scheme (F.Seat.view seat.old) root.0 t → LeavesAreThere scheme t → LeavesAreLocal scheme t
            → self.new ≡ with_entry self.old (entry_for scheme t asid va.0) }
        ensures number { result ≡ next_number self.old.buffer }
        ensures few { length self.old.buffer ≤ BUFFER_SIZE }
        ensures view { F.Seat.view seat.new ≡ F.Seat.view seat.old }
        ensures same { store.new ≡ store.old }
    {
        // a full buffer loses its oldest entry, and then the new one has the last number
        let number = self.buffer.len().min(BUFFER_SIZE - 1);
        fill_from_tables(&mut self.buffer, store, seat, scheme, root, asid, va);
        number
    }

    /// Puts the process of a slot on the hart, in phase `Kernel`; `None` leaves the hart idle.
    pub(crate) fn take(&mut self, slot: Option<usize>)
        ensures { self.new ≡ record self.old { phase = model.phase_for slot; slot = slot } }
    {
        self.phase = match slot {
            None => Phase::Idle,
            Some(_) => Phase::Kernel,
        };
        self.slot = slot;
    }
}

/// The phase after the next instruction of kernel entry or return (the xv6 book, "Traps from user space"); `None` in `Idle` and
/// `User`, which have none.
pub(crate) fn next_phase(phase: Phase) -> Option<Phase>
    ensures { result ≡ model.next_phase phase }
{
    match phase {
        Phase::Enter0 => Some(Phase::Enter1),
        Phase::Enter1 => Some(Phase::Enter2),
        Phase::Enter2 => Some(Phase::Kernel),
        Phase::Kernel => Some(Phase::Leave1),
        Phase::Leave1 => Some(Phase::Leave2),
        Phase::Leave2 => Some(Phase::User),
        Phase::Idle | Phase::User => None,
    }
}

/// The ASID of the process in a slot, under policy `asid`: the slot plus 1. The kernel has ASID 0.
fn asid_of(slot: usize) -> u16
    requires { slot < MOST_SLOTS }
    ensures { result ≡ slot + 1 }
{
    slot as u16 + 1
}

/// Whether the next instruction is the last of the return: the process runs after it.
fn is_before_user(phase: Phase) -> bool
    ensures { result ≡ is_before_user phase }
{
    matches!(phase, Phase::Leave2)
}

/// Whether the next instruction of kernel entry or return is a fence.
fn is_before_fence(phase: Phase) -> bool
    ensures { result ≡ model.is_before_fence phase }
{
    matches!(
        phase,
        Phase::Enter0 | Phase::Enter2 | Phase::Kernel | Phase::Leave2
    )
}

/// Whether the hart may switch to a process, or to none, in this phase.
pub(crate) fn may_switch(phase: Phase) -> bool
    ensures { result ≡ model.may_switch phase }
{
    matches!(phase, Phase::Idle | Phase::Kernel)
}

/// Whether the process runs in user mode in this phase.
pub(crate) fn is_user(phase: Phase) -> bool
    ensures { result ≡ model.is_user phase }
{
    matches!(phase, Phase::User)
}

/// Whether the kernel runs for the process in this phase, outside the trampoline.
pub(crate) fn is_kernel(phase: Phase) -> bool
    ensures { result ≡ model.is_kernel phase }
{
    matches!(phase, Phase::Kernel)
}

/// Whether `satp` names the process's page table in this phase; in all others it names the kernel's.
pub(crate) fn has_user_satp(phase: Phase) -> bool
    ensures { result ≡ model.has_user_satp phase }
{
    matches!(
        phase,
        Phase::User | Phase::Enter0 | Phase::Enter1 | Phase::Leave2
    )
}

/// Whether the kernel's code in the trampoline's page runs in this phase.
pub(crate) fn in_trampoline(phase: Phase) -> bool
    ensures { result ≡ model.in_trampoline phase }
{
    matches!(
        phase,
        Phase::Enter0 | Phase::Enter1 | Phase::Enter2 | Phase::Leave1 | Phase::Leave2
    )
}
