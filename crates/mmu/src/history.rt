// `History`: a struct, the memory, satp and PMP of a hart, with what happened to them since the last fence of everything, and the calls that add an event.

ghost use Rattle.std.specs.Prelude.{◌≡◌, ◌<◌, ◌≤◌, ◌+◌, ◌/◌, ◌%◌, ℕ, None, OnErr, OnOk, Some, [], ◌∷◌, length, slice_get};
ghost use Rattle.access_history.specs.Permits.{memory_of};
ghost use Rattle.access_history.specs.declared.event.Event.TheVariants as event;
ghost use Rattle.access_judge.specs.Log.{IsPastWord};
ghost use Rattle.access_judge.specs.Search.{is_address_under};
ghost use Rattle.walk_rules.specs.Addresses.{top_of};
ghost use Rattle.mmu.specs.Changing.{AreInOrder, changes_at, since_by, word_by};
ghost use Rattle.mmu.specs.Recorded.{IsNextStore, IsSound, events_of, past_of, past_satp, present, satps_of};
ghost use Rattle.mmu.specs.Sparse.{is_zeroed, word_of};
ghost use Rattle.mmu.specs.Units.{begun, fresh, happened, with_run};

use crate::changes::{Change, Changes};
use crate::fences::Fences;
use crate::memory::SparseMemory;
use crate::protection::Protection;
use crate::uses::{Used, Uses};
use access_history::Event;
use access_judge::{PastSatp, PastWord};
use std::alloc::{AllocError, Global};
use sv39_entry::{Satp, Va};
use walk_rules::{PmpEntry, is_canonical, top_level};

/// A memory, satp and PMP as they are, with the events since the last fence of everything, or from the first.
#[derive(Drop)]
pub(crate) struct History {
    pub(crate) memory: SparseMemory,
    pub(crate) changes: Changes,
    pub(crate) first_satp: Satp,
    pub(crate) satp: Satp,
    // the number of the last fence of satp's ASID
    pub(crate) epoch: usize,
    pub(crate) uses: Uses,
    pub(crate) fences: Fences,
    pub(crate) protection: Protection,
    // the oldest first
    pub(crate) events: Vec<Event>,
}

/// Whether an address is valid under satp: canonical, or any under Bare.
fn is_address(satp: Satp, va: Va) -> bool
    ensures { result ≡ is_address_under (top_of satp) va.0 }
{
    match top_level(satp) {
        Some(top) => is_canonical(top, va),
        None => true,
    }
}

impl History {
    /// Returns a history without memory, with satp 0 (Bare), no PMP entries and no events.
    pub fn new(alloc: Global) -> History
        ensures sound { IsSound result }
        ensures past { past_of result ≡ fresh 0 }
    {
        History {
            memory: SparseMemory::new(alloc),
            changes: Changes::new(alloc),
            first_satp: Satp::from_word(0),
            satp: Satp::from_word(0),
            epoch: 0,
            uses: Uses::new(alloc),
            fences: Fences::new(alloc),
            protection: Protection::new(alloc, 0),
            events: Vec::new(alloc),
        }
    }

    /// Drops all that is older than now.
    pub fn forget(&mut self)
        ensures sound { IsSound self.new }
        ensures past { past_of self.new ≡ begun self.old }
    {
        self.changes.clear();
        self.first_satp = self.satp;
        self.epoch = 0;
        self.uses.clear();
        self.fences.clear();
        self.protection.forget();
        self.events.clear();
    }

    /// Makes the history as a new one, with this many PMP entries, 64 at most, all of them OFF.
    pub fn reset(&mut self, pmp_entries: usize)
        ensures sound { IsSound self.new }
        ensures past { past_of self.new ≡ fresh pmp_entries }
    {
        self.memory.clear();
        self.satp = Satp::from_word(0);
        self.protection.reset(pmp_entries);
        self.forget();
    }

    /// Adds words of memory.
    pub fn add(&mut self, first: u64, end: u64) -> Result<(), AllocError>
        requires { IsSound self.old }
        ensures sound { IsSound self.new }
        ensures ok { OnOk result (past_of self.new ≡ with_run first end (past_of self.old)) }
        ensures err { OnErr result (past_of self.new ≡ past_of self.old) }
    {
        self.memory.add(first, end)
    }

    /// A store.
    pub fn store(&mut self, address: u64, word: u64) -> Result<(), AllocError>
        requires { IsSound self.old }
        ensures sound { IsSound self.new }
        ensures ok { OnOk result (past_of self.new ≡ happened (event.Store (address / 4096) (address % 4096 / 8) word) (past_of self.old)) }
        ensures err { OnErr result (past_of self.new ≡ past_of self.old) }
    {
        let place = address / 8;
        let event = Event::Store {
            ppn: address / 4096,
            index: (address % 4096 / 8) as usize,
            word,
        };
        let change = Change {
            number: self.events.len() + 1,
            before: self.memory.get(place),
        };
        self.events.reserve(1)?;
        self.memory.reserve()?;
        self.changes.push(place, change)?;
        // there is room for both
        let _ = self.memory.write(place, word);
        let _ = self.events.push(event);
        Ok(())
    }

    /// satp as it is now, with its epoch.
    fn present(&self) -> Used
        ensures { result ≡ present self.now }
    {
        Used {
            satp: self.satp,
            epoch: self.epoch,
        }
    }

    /// A write of satp.
    pub fn write_satp(&mut self, satp: Satp) -> Result<(), AllocError>
        requires { IsSound self.old }
        ensures sound { IsSound self.new }
        ensures ok { OnOk result (past_of self.new ≡ happened (event.WriteSatp satp) (past_of self.old)) }
        ensures err { OnErr result (past_of self.new ≡ past_of self.old) }
    {
        self.uses.reserve()?;
        let before = self.present();
        self.events.push(Event::WriteSatp(satp))?;
        if satp != self.satp {
            self.uses.add(before);
            self.epoch = self.fences.of_space(satp.asid());
            self.satp = satp;
        }
        Ok(())
    }

    /// A write of a PMP entry.
    pub fn write_pmp(&mut self, number: usize, entry: PmpEntry) -> Result<(), AllocError>
        requires { IsSound self.old }
        ensures sound { IsSound self.new }
        ensures ok { OnOk result (past_of self.new ≡ happened (event.WritePmp number entry) (past_of self.old)) }
        ensures err { OnErr result (past_of self.new ≡ past_of self.old) }
    {
        let event = Event::WritePmp { number, entry };
        self.events.reserve(1)?;
        let at = self.events.len() + 1;
        self.protection.write(at, number, entry)?;
        // there is room for it
        let _ = self.events.push(event);
        Ok(())
    }

    /// A fence of an address, of an ASID or of each.
    pub fn fence_address(&mut self, va: Va, asid: Option<u16>) -> Result<(), AllocError>
        requires { IsSound self.old }
        ensures sound { IsSound self.new }
        ensures ok { OnOk result (past_of self.new ≡ happened (event.Fence (Some va) asid) (past_of self.old)) }
        ensures err { OnErr result (past_of self.new ≡ past_of self.old) }
    {
        self.fences.reserve()?;
        self.events.push(Event::Fence { va: Some(va), asid })?;
        if is_address(self.satp, va) {
            self.fences.add_address(va, asid, self.events.len());
        }
        Ok(())
    }

    /// A fence of each address of an ASID.
    pub fn fence_space(&mut self, asid: u16) -> Result<(), AllocError>
        requires { IsSound self.old }
        ensures sound { IsSound self.new }
        ensures ok { OnOk result (past_of self.new ≡ happened (event.Fence None (Some asid)) (past_of self.old)) }
        ensures err { OnErr result (past_of self.new ≡ past_of self.old) }
    {
        self.fences.reserve()?;
        self.uses.reserve()?;
        let before = self.present();
        self.events.push(Event::Fence {
            va: None,
            asid: Some(asid),
        })?;
        self.fences.add_space(asid, self.events.len());
        if asid == self.satp.asid() {
            self.uses.add(before);
            self.epoch = self.events.len();
        }
        Ok(())
    }

    /// Returns the word at an index of a frame as it is now.
    pub fn word(&self, ppn: u64, index: usize) -> Option<u64>
        requires in_frame { index < 512 }
        requires sound { IsSound self.now }
        ensures { result ≡ memory_of (past_of self.now) ppn index }
    {
        if ppn >= 1 << 52 {
            return None;
        }
        self.memory.get(ppn * 512 + index as u64)
    }

    /// Returns the number of the last store to the word with a number until a moment, and the word then.
    fn seen(&self, place: u64, moment: usize) -> (usize, Option<u64>)
        requires { AreInOrder (changes_at self.now.changes place) }
        ensures since { result.0 ≡ since_by 0 (changes_at self.now.changes place) moment }
        ensures word { result.1 ≡ word_by (changes_at self.now.changes place) (word_of self.now.memory place) (is_zeroed self.now.memory place) moment }
    {
        let (since, after) = self.changes.around(place, moment);
        match after {
            None => (since, self.memory.get(place)),
            Some(change) => (since, self.memory.filled(place, change.before)),
        }
    }

    /// Returns the word at an index of a frame as it was at a moment.
    pub fn word_at(&self, ppn: u64, index: usize, moment: usize) -> Option<PastWord>
        requires in_frame { index < 512 }
        requires past { moment ≤ length (events_of self.now) }
        requires sound { IsSound self.now }
        ensures { IsPastWord (past_of self.now) ppn index moment result }
    {
        if ppn >= 1 << 52 {
            return None;
        }
        let (since, word) = self.seen(ppn * 512 + index as u64, moment);
        match word {
            Some(word) => Some(PastWord { word, since }),
            None => None,
        }
    }

    /// Returns a word that satp had, with the last moment at which walks that began under it may go on.
    fn past_satp(&self, used: Used) -> PastSatp
        ensures { result ≡ past_satp self.now used }
    {
        let end = self.fences.end_of(used.satp.asid(), used.epoch);
        PastSatp {
            satp: used.satp,
            epoch: used.epoch,
            last: end.unwrap_or(self.events.len()),
        }
    }

    /// Returns one of the words that satp had, the present one first.
    pub fn use_at(&self, number: usize) -> PastSatp
        requires { number < length (satps_of self.now) }
        ensures { slice_get (satps_of self.now) number ≡ Some result }
    {
        if number == 0 {
            return self.past_satp(self.present());
        }
        self.past_satp(self.uses.get(number - 1))
    }

    /// Returns the number of the first store after a moment to the word at an index of a frame.
    pub fn next_change(&self, ppn: u64, index: usize, moment: usize) -> Option<usize>
        requires { IsSound self.now }
        ensures { IsNextStore (events_of self.now) ppn index moment result }
    {
        if ppn >= 1 << 52 || index >= 512 {
            return None;
        }
        let (_, after) = self.changes.around(ppn * 512 + index as u64, moment);
        match after {
            Some(change) => Some(change.number),
            None => None,
        }
    }
}
