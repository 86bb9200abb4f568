// `Recorded`: a struct, a reference MMU with the number of the line of each of its events, which says when a page table entry was read.

ghost use Rattle.std.specs.Prelude.{◌≡◌, ◌/◌, ◌%◌, OnOk};
ghost use Rattle.access_history.specs.declared.event.Event.TheVariants as event;
ghost use Rattle.mmu.specs.Pasts.{past};
ghost use Rattle.mmu.specs.Units.{fenced, fresh, happened, with_run};

use crate::numbers::put_number;
use crate::ways::{LEVELS, last_step, put_pte, step_at};
use access_judge::{Log, PastSatp, Step, Told};
use mmu::Mmu;
use std::alloc::{AllocError, Global};
use sv39_entry::{Satp, Va};
use text_builder::Text;
use walk_rules::{Extensions, PmpEntry, top_level};

/// The bits of a leaf that a hart may set.
pub(crate) const A_AND_D: u64 = 0xc0;

/// A write of satp.
#[derive(Clone, Copy)]
struct Writing {
    /// The number of the event.
    event: usize,
    satp: Satp,
    /// The ASID of the client's word.
    asid: u16,
}

/// A reference MMU with the number of the line of each event since the last fence of everything.
#[derive(Drop)]
pub struct Recorded {
    pub unit: Mmu,
    lines: Vec<u64>,
    writings: Vec<Writing>,
    /// satp before all events, and the ASID of the client's word.
    first_satp: Satp,
    first_asid: u16,
    /// The line of the last write of a PMP entry.
    pmp_line: u64,
    /// The line of the last write of each PMP entry, of which there are at most 64.
    entry_lines: [u64; 64],
    /// The number of the event since which addresses are translated, or were. 0: from the first.
    translated: Option<usize>,
}

impl Recorded {
    pub fn new(alloc: Global) -> Recorded
        ensures { past result.unit ≡ fresh 0 }
    {
        Recorded {
            unit: Mmu::new(alloc),
            lines: Vec::new(alloc),
            writings: Vec::new(alloc),
            first_satp: Satp::from_word(0),
            first_asid: 0,
            pmp_line: 0,
            entry_lines: [0; 64],
            translated: None,
        }
    }

    /// Makes it as a new one, with some PMP entries.
    pub fn reset(&mut self, pmp_entries: usize)
        ensures { past self.new.unit ≡ fresh pmp_entries }
    {
        self.unit.reset(pmp_entries);
        self.lines.clear();
        self.writings.clear();
        self.first_satp = Satp::from_word(0);
        self.first_asid = 0;
        self.pmp_line = 0;
        self.entry_lines = [0; 64];
        self.translated = None;
    }

    pub fn add(&mut self, address: u64, end: u64) -> Result<(), AllocError>
        ensures { OnOk result (past self.new.unit ≡ with_run (address / 8) (end / 8) (past self.old.unit)) }
    {
        self.unit.add(address, end)
    }

    pub fn store(&mut self, line: u64, address: u64, word: u64) -> Result<(), AllocError>
        ensures { OnOk result (past self.new.unit ≡ happened (event.Store (address / 4096) (address % 4096 / 8) word) (past self.old.unit)) }
    {
        self.unit.store(address, word)?;
        Ok(self.lines.push(line)?)
    }

    /// Writes satp; `asid` is the ASID of the client's word.
    pub fn write_satp(&mut self, line: u64, satp: Satp, asid: u16) -> Result<(), AllocError>
        ensures { OnOk result (past self.new.unit ≡ happened (event.WriteSatp satp) (past self.old.unit)) }
    {
        self.unit.write_satp(satp)?;
        self.lines.push(line)?;
        let event = self.lines.len();
        if self.translated.is_none() && top_level(satp).is_some() {
            self.translated = Some(event);
        }
        Ok(self.writings.push(Writing { event, satp, asid })?)
    }

    pub fn write_pmp(&mut self, line: u64, number: usize, entry: PmpEntry) -> Result<(), AllocError>
        ensures { OnOk result (past self.new.unit ≡ happened (event.WritePmp number entry) (past self.old.unit)) }
    {
        self.unit.write_pmp(number, entry)?;
        self.pmp_line = line;
        if number < self.entry_lines.len() {
            self.entry_lines[number] = line;
        }
        Ok(self.lines.push(line)?)
    }

    /// A fence; one of everything drops what is older.
    pub fn fence(&mut self, line: u64, va: Option<Va>, asid: Option<u16>) -> Result<(), AllocError>
        ensures { OnOk result (past self.new.unit ≡ fenced va asid (past self.old.unit)) }
    {
        self.unit.fence(va, asid)?;
        if va.is_none() && asid.is_none() {
            self.forget();
            return Ok(());
        }
        Ok(self.lines.push(line)?)
    }

    /// Forgets the lines of the events so far.
    fn forget(&mut self)
        ensures { self.new.unit ≡ self.old.unit }
    {
        if let Some(writing) = self.writings.last() {
            self.first_satp = writing.satp;
            self.first_asid = writing.asid;
        }
        if self.translated.is_some() {
            self.translated = Some(0);
        }
        self.lines.clear();
        self.writings.clear();
    }

    /// How many events there were since the last fence of everything.
    pub(crate) fn count(&self) -> usize {
        self.lines.len()
    }

    /// The line of an event.
    fn line_of(&self, event: usize) -> u64 {
        match event.checked_sub(1) {
            Some(n) => self.lines.get(n).copied().unwrap_or(0),
            None => 0,
        }
    }

    /// The line of the last write of a PMP entry.
    pub(crate) fn pmp_line(&self) -> u64 {
        self.pmp_line
    }

    /// The line of the last write of a PMP entry, by its number.
    pub(crate) fn entry_line(&self, number: usize) -> u64 {
        self.entry_lines.get(number).copied().unwrap_or(0)
    }

    /// The last moment, up to that of a root, at which satp had its word, but for one ASID that satp was given, if there is such a moment.
    pub(crate) fn last_had(&self, root: &PastSatp, but: Option<u16>) -> Option<usize> {
        let (mut satp, mut asid, mut since) = (self.first_satp, self.first_asid, 0);
        let mut last = None;
        'writings: for writing in self.writings.as_slice() {
            if satp == root.satp && since <= root.last && but != Some(asid) {
                last = Some(writing.event.saturating_sub(1).min(root.last));
            }
            satp = writing.satp;
            asid = writing.asid;
            since = writing.event;
        }
        if satp == root.satp && since <= root.last && but != Some(asid) {
            last = Some(self.unit.now().min(root.last));
        }
        last
    }

    /// The ASID that satp was given by its last write up to a moment, and the last moment at which it had it.
    pub(crate) fn space_at(&self, moment: usize) -> (u16, usize) {
        let mut asid = self.first_asid;
        'writings: for writing in self.writings.as_slice() {
            if writing.event > moment && writing.asid != asid {
                return (asid, writing.event - 1);
            }
            asid = writing.asid;
        }
        (asid, self.unit.now())
    }

    /// Whether the place of a PTE has another word now than it had on the way of a walk.
    pub(crate) fn is_old(&self, va: Va, step: &Step) -> bool {
        self.unit.word(step.ppn, va.page().index(step.level)) != Some(step.entry.to_word())
    }

    /// Whether a PTE of a walk was there when addresses were translated.
    pub(crate) fn was_walked(&self, step: &Step) -> bool {
        let gone = self.unit.next_change(step.ppn, step.index, step.last);
        match (self.translated, gone) {
            (Some(first), Some(gone)) => gone > first,
            (Some(_), None) => true,
            (None, _) => false,
        }
    }

    /// Whether a PTE of a walk was there up to a moment, if need be without A or D that the hart set since.
    pub(crate) fn was_there(&self, extensions: Extensions, step: &Step, moment: usize) -> bool {
        if step.last <= moment {
            return true;
        }
        if step.index >= 512 || moment > self.unit.now() {
            return false;
        }
        match self.unit.word_at(step.ppn, step.index, moment) {
            Some(past) if extensions.ad.may_update() => {
                past.word | A_AND_D == step.entry.to_word() | A_AND_D
            }
            Some(past) => past.word == step.entry.to_word(),
            None => false,
        }
    }

    /// Appends which PTE a walk went by that is not in memory now.
    pub(crate) fn put_step(&self, out: &mut Text, extensions: Extensions, step: &Step) {
        put_pte(out, extensions, step);
        match self.unit.next_change(step.ppn, step.index, step.last) {
            Some(event) => { put_number(out, " as before line ", self.line_of(event)) }
            None => out.push_str(" of another PTE of its NAPOT range"),
        }
    }

    /// Appends that a walk went by a word that satp had, if it has another one now. `lead` comes first.
    pub(crate) fn put_root(&self, out: &mut Text, told: &Told, lead: &str) {
        let Some(root) = told.way.root else {
            return;
        };
        if root.satp == self.unit.satp() {
            return;
        }
        let last = self.last_had(&root, None).unwrap_or(root.last);
        'writings: for writing in self.writings.as_slice() {
            if writing.event > last {
                out.push_str(lead);
                return put_number(out, "satp as before line ", self.line_of(writing.event));
            }
        }
    }

    /// Appends which PTEs and which satp a walk went by that are not there now.
    pub(crate) fn put_whence(&self, out: &mut Text, extensions: Extensions, va: Va, told: &Told) {
        let mut lead = "";
        if let Some(step) = last_step(&told.way) {
            if step.global && step.asid != self.unit.satp().asid() {
                put_number(out, "global, read under ASID ", step.asid.into());
                lead = ", ";
            }
        }
        'levels: for level in 0..LEVELS {
            if let Some(step) = step_at(&told.way, level) {
                if self.is_old(va, &step) {
                    out.push_str(lead);
                    self.put_step(out, extensions, &step);
                    lead = ", ";
                }
            }
        }
        self.put_root(out, told, lead)
    }
}
