// `Mmu`: a struct, the memory, satp and PMP of a hart with the history of them, and the calls that add an event.

ghost use Rattle.std.specs.Prelude.{◌≡◌, false};
ghost use Rattle.access_judge.specs.Quiet.{HasNoGlobals};
ghost use Rattle.mmu.specs.Recorded.{IsSound, past_of};
ghost use Rattle.std.proofs.Props.{props};

use crate::history::History;
use access_history::has_global;
use std::alloc::{AllocError, Global};
use sv39_entry::{Entry, Satp, Va};
use walk_rules::PmpEntry;

/// A memory, satp and PMP, with what happened to them since the last fence of everything, or from the first.
#[derive(Drop)]
pub struct Mmu {
    pub(crate) history: History,
    // a word with V and G was written
    pub(crate) may_be_global: bool,
    ghost sound: { IsSound history } by { Prim.hlevel props },
    ghost local: { may_be_global ≡ false → HasNoGlobals (past_of history) } by { Prim.hlevel props },
}

impl Mmu {
    ghost use Rattle.std.specs.Prelude.{◌≡◌, ◌/◌, ◌%◌, true, OnErr, OnOk, IsOk};
    ghost use Rattle.access_history.specs.declared.event.Event.TheVariants as event;
    ghost use Rattle.mmu.specs.Pasts.{past};
    ghost use Rattle.mmu.specs.Recorded.{IsNextStore};
    ghost use Rattle.mmu.specs.Units.{fenced, fresh, happened, is_whole, pmp_now, with_run};

    /// Returns a unit without memory, with satp 0 (Bare) and no PMP entries.
    pub fn new(alloc: Global) -> Mmu
        ensures { past result ≡ fresh 0 }
    {
        Mmu {
            history: History::new(alloc),
            may_be_global: false,
        }
    }

    /// Makes the unit as a new one: without memory, with satp 0 (Bare), and with this many PMP entries, 64 at most, all of them OFF.
    pub fn reset(&mut self, pmp_entries: usize)
        ensures { past self.new ≡ fresh pmp_entries }
    {
        self.history.reset(pmp_entries);
        self.may_be_global = false;
    }

    /// Adds the words of memory from a physical address on below another. Those that were not there at first were zero from the first on. The low 3
    /// bits of both addresses do not count. No event.
    ///
    /// # Errors
    /// `AllocError`: the host is out of memory; the unit is unchanged.
    pub fn add(&mut self, address: u64, end: u64) -> Result<(), AllocError>
        ensures ok { OnOk result (past self.new ≡ with_run (address / 8) (end / 8) (past self.old)) }
        ensures err { OnErr result (past self.new ≡ past self.old) }
    {
        self.history.add(address / 8, end / 8)
    }

    /// The word at a physical address is written, which is then in memory. The address's low 3 bits do not count.
    ///
    /// # Errors
    /// `AllocError`: the host is out of memory; the unit is unchanged.
    pub fn store(&mut self, address: u64, word: u64) -> Result<(), AllocError>
        ensures ok { OnOk result (past self.new ≡ happened (event.Store (address / 4096) (address % 4096 / 8) word) (past self.old)) }
        ensures err { OnErr result (past self.new ≡ past self.old) }
    {
        if has_global(Entry::from_word(word)) {
            self.may_be_global = true;
            return self.history.store(address, word);
        }
        self.history.store(address, word)
    }

    /// satp is written, with any word.
    ///
    /// # Errors
    /// `AllocError`: the host is out of memory; the unit is unchanged.
    pub fn write_satp(&mut self, satp: Satp) -> Result<(), AllocError>
        ensures ok { OnOk result (past self.new ≡ happened (event.WriteSatp satp) (past self.old)) }
        ensures err { OnErr result (past self.new ≡ past self.old) }
    {
        self.history.write_satp(satp)
    }

    /// The PMP entry with a number is written; the event alone comes, if there is none.
    ///
    /// # Errors
    /// `AllocError`: the host is out of memory; the unit is unchanged.
    pub fn write_pmp(&mut self, number: usize, entry: PmpEntry) -> Result<(), AllocError>
        ensures ok { OnOk result (past self.new ≡ happened (event.WritePmp number entry) (past self.old)) }
        ensures err { OnErr result (past self.new ≡ past self.old) }
    {
        self.history.write_pmp(number, entry)
    }

    /// Returns the PMP entries as they are now.
    pub fn pmp(&self) -> &[PmpEntry]
        ensures { result.now ≡ pmp_now (past self.now) }
    {
        self.history.protection.present.list()
    }

    /// SFENCE.VMA (RISC-V Privileged Architecture 20211203, 4.2.1) with an address in rs1 and an ASID in rs2, `None` for x0. After a fence of
    /// everything the history begins anew, with memory, satp and PMP as they are.
    ///
    /// # Errors
    /// `AllocError`: the host is out of memory; the unit is unchanged. Not at a fence of everything.
    pub fn fence(&mut self, va: Option<Va>, asid: Option<u16>) -> Result<(), AllocError>
        ensures ok { OnOk result (past self.new ≡ fenced va asid (past self.old)) }
        ensures err { OnErr result (past self.new ≡ past self.old) }
        ensures whole { is_whole va asid ≡ true → IsOk result }
    {
        match (va, asid) {
            (Some(va), _) => self.history.fence_address(va, asid),
            (None, Some(asid)) => self.history.fence_space(asid),
            (None, None) => {
                self.history.forget();
                Ok(())
            }
        }
    }

    /// Returns the number of the first store after a moment to the word at an index of a frame; `None` if there is none.
    pub fn next_change(&self, ppn: u64, index: usize, moment: usize) -> Option<usize>
        ensures { IsNextStore (past self.now).events ppn index moment result }
    {
        self.history.next_change(ppn, index, moment)
    }
}
