// `PmpEntries`: a struct, the PMP entries of a hart. `PmpWrite`: a struct, the entries after a write. `Protection`: a struct, the entries at first, now and
// after each write.

ghost use Rattle.std.specs.Prelude.{◌≡◌, ◌++◌, ◌∷◌, [], OnErr, OnOk, not, slice_set};
ghost use Rattle.std.specs.List.{list_any};
ghost use Rattle.mmu.specs.Protecting.{any_by, entries_of, is_by, off_entries};
ghost use Rattle.walk_rules.specs.Pmp as pmp;

use std::alloc::{AllocError, Global};
use sv39_entry::Access;
use walk_rules::{PmpEntry, Privilege, pmp_permits};

/// How many PMP entries a hart has at most (RISC-V Privileged Architecture 20211203, 3.7.1).
const MOST: usize = 64;

/// The PMP entries of a hart.
#[derive(Clone, Copy)]
pub(crate) struct PmpEntries {
    pub count: usize,
    pub entries: [PmpEntry; MOST],
}

impl PmpEntries {
    /// Returns this many entries, 64 at most, that match nothing.
    pub fn off(count: usize) -> PmpEntries
        ensures { entries_of result ≡ off_entries count }
    {
        let off = PmpEntry {
            config: 0,
            address: 0,
        };
        PmpEntries {
            count: count.min(MOST),
            entries: [off; MOST],
        }
    }

    /// Returns the entries.
    pub fn list(&self) -> &[PmpEntry]
        ensures { result.now ≡ entries_of self.now }
    {
        &self.entries[..self.count.min(MOST)]
    }

    /// Writes one of the entries; nothing, if there is none of that number.
    pub fn set(&mut self, number: usize, entry: PmpEntry)
        ensures { entries_of self.new ≡ slice_set (entries_of self.old) number entry }
    {
        if number < self.count.min(MOST) {
            self.entries[number] = entry;
        }
    }

    /// Whether they permit an access.
    pub fn permit(&self, privilege: Privilege, access: Access, pa: u64, width: u64) -> bool
        ensures { result ≡ pmp.pmp_permits (entries_of self.now) privilege access pa width }
    {
        pmp_permits(self.list(), privilege, access, pa, width)
    }
}

/// The entries after a write of one.
#[derive(Clone, Copy)]
pub(crate) struct PmpWrite {
    /// The number of the write.
    pub number: usize,
    pub entries: PmpEntries,
}

impl PmpWrite {
    /// Whether the write was made by a moment, and its entries permit an access.
    fn passes(
        &self,
        moment: usize,
        privilege: Privilege,
        access: Access,
        pa: u64,
        width: u64,
    ) -> bool
        ensures { result ≡ is_by (λ es. pmp.pmp_permits es privilege access pa width) moment self.now }
    {
        self.number <= moment && self.entries.permit(privilege, access, pa, width)
    }

    /// Whether the write was made by a moment, and its entries refuse an access.
    fn fails(
        &self,
        moment: usize,
        privilege: Privilege,
        access: Access,
        pa: u64,
        width: u64,
    ) -> bool
        ensures { result ≡ is_by (λ es. not (pmp.pmp_permits es privilege access pa width)) moment self.now }
    {
        self.number <= moment && !self.entries.permit(privilege, access, pa, width)
    }
}

/// Whether the entries after some write up to a moment permit an access.
fn some_passes(
    writes: &[PmpWrite],
    moment: usize,
    privilege: Privilege,
    access: Access,
    pa: u64,
    width: u64,
) -> bool
    ensures { result ≡ list_any (is_by (λ es. pmp.pmp_permits es privilege access pa width) moment) writes.now }
{
    writes
        .iter()
        .any(|write| write.passes(moment, privilege, access, pa, width))
}

/// Whether the entries after some write up to a moment refuse an access.
fn some_fails(
    writes: &[PmpWrite],
    moment: usize,
    privilege: Privilege,
    access: Access,
    pa: u64,
    width: u64,
) -> bool
    ensures { result ≡ list_any (is_by (λ es. not (pmp.pmp_permits es privilege access pa width)) moment) writes.now }
{
    writes
        .iter()
        .any(|write| write.fails(moment, privilege, access, pa, width))
}

/// The entries at first, now, and after each write.
#[derive(Drop)]
pub(crate) struct Protection {
    pub first: PmpEntries,
    pub present: PmpEntries,
    pub writes: Vec<PmpWrite>,
}

impl Protection {
    /// Returns this many entries, 64 at most, that match nothing.
    pub fn new(alloc: Global, count: usize) -> Protection
        ensures first { entries_of result.first ≡ off_entries count }
        ensures present { result.present ≡ result.first }
        ensures writes { result.writes.items ≡ [] }
    {
        let off = PmpEntries::off(count);
        Protection {
            first: off,
            present: off,
            writes: Vec::new(alloc),
        }
    }

    /// Makes the entries as new ones.
    pub fn reset(&mut self, count: usize)
        ensures first { entries_of self.new.first ≡ off_entries count }
        ensures present { self.new.present ≡ self.new.first }
        ensures writes { self.new.writes.items ≡ [] }
    {
        self.present = PmpEntries::off(count);
        self.forget();
    }

    /// Forgets how the entries were before.
    pub fn forget(&mut self)
        ensures first { self.new.first ≡ self.old.present }
        ensures present { self.new.present ≡ self.old.present }
        ensures writes { self.new.writes.items ≡ [] }
    {
        self.first = self.present;
        self.writes.clear();
    }

    /// Adds a write, later than those that there are.
    ///
    /// # Errors
    /// `AllocError`: the host is out of memory; nothing is written.
    pub fn write(&mut self, number: usize, place: usize, entry: PmpEntry) -> Result<(), AllocError>
        ensures first { self.new.first ≡ self.old.first }
        ensures present { OnOk result (entries_of self.new.present ≡ slice_set (entries_of self.old.present) place entry) }
        ensures writes { OnOk result (self.new.writes.items ≡ self.old.writes.items ++ record { number = number; entries = self.new.present } ∷ []) }
        ensures err { OnErr result ((self.new.present ≡ self.old.present) × (self.new.writes.items ≡ self.old.writes.items)) }
    {
        let mut entries = self.present;
        entries.set(place, entry);
        self.writes.push(PmpWrite { number, entries })?;
        self.present = entries;
        Ok(())
    }

    /// Whether the entries permit an access as they were at some moment up to one.
    pub fn may_pass(
        &self,
        moment: usize,
        privilege: Privilege,
        access: Access,
        pa: u64,
        width: u64,
    ) -> bool
        ensures { result ≡ any_by (λ es. pmp.pmp_permits es privilege access pa width) self.now moment }
    {
        self.first.permit(privilege, access, pa, width)
            || some_passes(&self.writes, moment, privilege, access, pa, width)
    }

    /// Whether the entries refuse an access as they were at some moment up to one.
    pub fn may_fail(
        &self,
        moment: usize,
        privilege: Privilege,
        access: Access,
        pa: u64,
        width: u64,
    ) -> bool
        ensures { result ≡ any_by (λ es. not (pmp.pmp_permits es privilege access pa width)) self.now moment }
    {
        !self.first.permit(privilege, access, pa, width)
            || some_fails(&self.writes, moment, privilege, access, pa, width)
    }
}
