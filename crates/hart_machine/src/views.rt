// What may be seen of a machine from outside, beside its accounts and files: how many harts and slots it has, its policy and
// scheme, where each hart is, its TLB, regions and rights of processes, and the memory with its page tables.

ghost use Rattle.std.specs.Prelude.{◌≡◌, ◌<◌, ℕ, is_some, length, map, option_and_then, option_copied, option_map, slice_get, Some};
ghost use Rattle.frame_store.specs.Plain.{report_of};
ghost use Rattle.hart_machine.specs.BufferEntries.{IsInWorld};
ghost use Rattle.hart_machine.specs.Buffers.{buffer_of};
ghost use Rattle.hart_machine.specs.Harts.{key_of};
ghost use Rattle.hart_machine.specs.SeenTables.{SeesTables};
ghost use Rattle.hart_machine.specs.SlotProcesses.{pending_of};
ghost use Rattle.hart_machine.specs.Tables.{HasTable, present_table, tables_of};
ghost use Rattle.hart_machine.specs.Worlds.{IsWorldButBuffers};
ghost use Rattle.hart_machine.specs.declared.hart.Hart.{Hart};
ghost use Rattle.address_space.specs.Layouts.{granted_unless, region_of};
ghost use Rattle.process_model.specs.Process.{regions};
ghost use Rattle.process_model.specs.Regions.{first_rule, region_at};
ghost use Rattle.process_model.specs.Harts as model;
ghost use Rattle.process_model.specs.World.{World, process_in, report};
ghost use Rattle.sv39_entry.specs.Address.{page_of};
ghost use Rattle.sv39_entry.specs.Frame.{ppn_of};
ghost use Rattle.sv39_entry.specs.Satp.{asid, mode, root_ppn};
ghost use Rattle.sv39_entry.specs.Schemes.{mode_of};

use crate::machine::Machine;
use crate::slot_process::Pending;
use crate::translation::SatpTable;
use address_space::Region;
use arrayvec::ArrayVec;
use hart_tlb::Buffer;
use process_model::{BUFFER_SIZE, MOST_REGIONS, Phase, Policy};
use sv39_entry::{Access, FrameNo, Rule, Satp, Scheme, Va};
use table_walk::StoredWords;

impl Machine {
    /// Returns the number of harts; they are numbered from 0.
    pub fn hart_count(&self) -> usize
        ensures { (w : World) → IsInWorld self.now w → result ≡ length w.harts }
    {
        self.harts.len()
    }

    /// Returns the number of slots; they are numbered from 0.
    #[tactic(auto, using(crate::proofs::SlotCounts::slot_count_is))]
    pub fn slot_count(&self) -> usize
        ensures { (w : World) → IsInWorld self.now w → result ≡ length w.slots }
    {
        self.slots.len()
    }

    /// Returns what the fences of kernel entry and return do.
    pub fn policy(&self) -> Policy
        ensures { (w : World) → IsInWorld self.now w → result ≡ w.policy }
    {
        self.policy
    }

    /// Returns the scheme of the page tables.
    pub fn scheme(&self) -> Scheme
        ensures { (w : World) → IsInWorld self.now w → result ≡ w.scheme }
    {
        self.kernel.scheme
    }

    /// Returns the phase of a hart between user mode and kernel; `None` if there is no such hart.
    pub fn phase(&self, hart: usize) -> Option<Phase>
        ensures { (w : World) → IsInWorld self.now w → result ≡ option_map (λ x. x.phase) (slice_get w.harts hart) }
    {
        self.phase_of(hart)
    }

    /// Returns the slot of the process on a hart; `None` if there is no such hart, or no process on it.
    pub fn slot(&self, hart: usize) -> Option<usize>
        ensures { (w : World) → IsInWorld self.now w → result ≡ option_and_then (λ x. x.slot) (slice_get w.harts hart) }
    {
        match self.harts.get(hart) {
            Some(hart) => hart.slot,
            None => None,
        }
    }

    /// Returns the region that holds the page of an address, of the process in a slot; `None` if none does, or the slot has no
    /// process.
    pub fn region(&self, slot: usize, va: Va) -> Option<Region>
        ensures { (w : World) → IsInWorld self.now w
            → option_map region_of result ≡ option_and_then (λ p. region_at (regions p) (page_of va.0)) (process_in w slot) }
    {
        match self.slots.get(slot) {
            Some(Some(slot_process)) => slot_process.space.layout.region_at(va.page().number()),
            _ => None,
        }
    }

    /// Returns the regions of the process in a slot, in ascending order of address; the heap is among them, even if it has no pages.
    /// `None` if the slot has no process.
    pub fn regions(&self, slot: usize) -> Option<ArrayVec<Region, MOST_REGIONS>>
        ensures { (w : World) → IsInWorld self.now w → option_map (λ rs. map region_of rs.items) result ≡ option_map regions (process_in w slot) }
    {
        match self.slots.get(slot) {
            Some(Some(slot_process)) => Some(slot_process.space.layout.regions()),
            _ => None,
        }
    }

    /// Checks by the regions of the process in a slot whether the user may make an access of `width` bytes, which is not 0: `Err` has the
    /// first rule that denies it. `None` if the slot has no process.
    pub fn granted(
        &self,
        slot: usize,
        access: Access,
        va: Va,
        width: u64,
    ) -> Option<Result<(), Rule>>
        requires { 0 < width }
        ensures { (w : World) → IsInWorld self.now w
            → result ≡ option_map (λ p. granted_unless (first_rule p.scheme (regions p) access va.0 width)) (process_in w slot) }
    {
        match self.slots.get(slot) {
            Some(Some(slot_process)) => Some(slot_process.space.layout.grant(access, va, width)),
            _ => None,
        }
    }

    /// Returns the pending access of the process in a slot: one that faulted, until the process makes another or a kernel call;
    /// `None` if there is none, or the slot has no process.
    pub fn pending(&self, slot: usize) -> Option<Pending>
        ensures { (w : World) → IsInWorld self.now w → pending_of result ≡ option_and_then (λ p. p.pending) (process_in w slot) }
    {
        match self.slots.get(slot) {
            Some(Some(slot_process)) => slot_process.pending,
            _ => None,
        }
    }

    /// Returns the TLB of a hart, its entries in the order of filling; `None` if there is no such hart. Page and ASID of its entries,
    /// in order, are the keys that the model's hart has.
    pub fn buffer(&self, hart: usize) -> Option<&Buffer<BUFFER_SIZE>>
        ensures buffer { option_copied result ≡ buffer_of self.now hart }
        ensures keys { (w : World) → IsInWorld self.now w → option_map (map key_of) (option_copied result) ≡ option_map (λ x. x.keys) (slice_get w.harts hart) }
    {
        self.harts.get(hart).map(|hart| &hart.buffer)
    }

    /// Returns the words of all frames as a memory for walks.
    pub fn words(&self) -> StoredWords<'_>
        ensures { result ≡ self.now.frames.words }
    {
        StoredWords::new(&self.frames)
    }

    /// Returns the reference counts of all frames, by their numbers.
    pub fn counts(&self) -> &[u16]
        ensures counts { result.now ≡ self.now.frames.counts }
        ensures report { (w : World) → IsInWorld self.now w → report_of result.now ≡ report w }
    {
        self.frames.counts()
    }

    /// Returns the frame of the root of the page table of the process in a slot; `None` if the slot has no process.
    pub fn root(&self, slot: usize) -> Option<FrameNo>
        requires world { (w : World) × IsInWorld self.now w }
        ensures there { (w : World) → IsInWorld self.now w → is_some result ≡ is_some (process_in w slot) }
        ensures tables { (w : World) (is : IsInWorld self.now w) (root : FrameNo) → result ≡ Some root
            → SeesTables self.now w.scheme root.0 ((is.world).tables slot) }
    {
        if self.has_process(slot) {
            Some(self.root_of(SatpTable::OfProcess(slot)))
        } else {
            None
        }
    }

    /// Returns the value of a hart's satp: the scheme, the ASID and the root of the page table that it names in the hart's phase;
    /// `None` if there is no such hart.
    pub fn satp(&self, hart: usize) -> Option<Satp>
        requires world { (w : World) × IsInWorld self.now w }
        ensures there { (w : World) → IsInWorld self.now w → is_some result ≡ is_some (slice_get w.harts hart) }
        ensures fields { (w : World) → IsInWorld self.now w → (x : model.Hart) (word : ℕ) → slice_get w.harts hart ≡ Some x
            → result ≡ Some word → (mode word ≡ mode_of w.scheme) × (asid word ≡ model.present_asid w.policy x) }
        ensures tables { (w : World) (is : IsInWorld self.now w) (x : Hart) (word : ℕ) → slice_get self.now.harts.items hart ≡ Some x → result ≡ Some word →
            (root : ℕ) × (root_ppn word ≡ ppn_of root) × SeesTables self.now w.scheme root (tables_of (is.world).tables (is.world).kernel (present_table x)) }
    {
        match self.harts.get(hart) {
            Some(hart) => {
                let root = self.root_of(hart.table());
                Some(Satp::new(self.kernel.scheme, hart.asid(self.policy), root))
            }
            None => None,
        }
    }

    /// The frame of the root of a page table.
    fn root_of(&self, table: SatpTable) -> FrameNo
        requires there { HasTable self.now table }
        ensures { (w : World) (is : IsWorldButBuffers self.now w) → SeesTables self.now w.scheme result.0 (tables_of is.tables is.kernel table) }
    {
        match table {
            SatpTable::OfKernel => self.kernel.root,
            SatpTable::OfProcess(slot) => {
                let Some(slot_process) = &self.slots[slot] else {
                    unreachable!()
                };
                slot_process.space.root
            }
        }
    }
}
