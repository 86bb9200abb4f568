// Why an access is refused, in words: methods of `Telling`.

use crate::numbers::{put_hex, put_number};
use crate::reasons::{Why, why_fault};
use crate::telling::Telling;
use crate::ways::{Stop, end_of, last_step, place_at, put_pte, stop_of};
use access_history::Outcome;
use access_judge::{Log, Step, Told, Way};
use sv39_entry::Access;
use text_builder::Text;
use walk_rules::{Privilege, has_ad, leads_to, pmp_permits};

/// The name of an access.
pub(crate) fn access_text(access: Access) -> &'static str {
    match access {
        Access::Fetch => "fetch",
        Access::Load => "load",
        Access::Store => "store",
    }
}

/// The letter of a privilege mode.
pub(crate) fn mode_text(privilege: Privilege) -> &'static str {
    match privilege {
        Privilege::User => "U",
        Privilege::Supervisor => "S",
        Privilege::Machine => "M",
    }
}

impl Telling<'_> {
    /// Whether the access may be refused at a physical address, by PMP as it is or was.
    pub(crate) fn may_fail(&self, pa: u64) -> bool {
        if !self.has_byte(pa) {
            return true;
        }
        let (unit, privilege) = (&self.recorded.unit, self.privilege());
        unit.may_fail(
            unit.now(),
            privilege,
            self.request.kind,
            pa,
            self.request.width,
        )
    }

    /// The lowest of the PMP entries that match one of some bytes, by its number, and whether it matches all of them.
    fn matching(&self, pa: u64, width: u64) -> Option<(usize, bool)> {
        let mut below = 0;
        'entries: for (number, entry) in self.recorded.unit.pmp().iter().enumerate() {
            let region = entry.region(below);
            if region.overlaps(pa, width) {
                return Some((number, region.contains(pa, width)));
            }
            below = entry.address;
        }
        None
    }

    /// Appends by which PMP entry an access is refused, if the entries as they are refuse it: the lowest that matches one of its bytes.
    fn put_entry(&self, out: &mut Text, privilege: Privilege, access: Access, pa: u64, width: u64) {
        if pmp_permits(self.recorded.unit.pmp(), privilege, access, pa, width) {
            return;
        }
        let Some((number, is_whole)) = self.matching(pa, width) else {
            return out.push_str(", as no entry matches it");
        };
        put_number(out, ", by entry ", number as u64);
        put_number(out, " of line ", self.recorded.entry_line(number));
        match (is_whole, privilege) {
            (false, _) => out.push_str(", which matches a part of it"),
            (true, Privilege::Machine) => out.push_str(", with L 1"),
            (true, _) => {}
        }
    }

    /// Appends that PMP refuses to read a PTE at a place, and by which entry.
    pub(crate) fn put_refused_read(&self, out: &mut Text, place: u64, level: u32) {
        put_hex(out, "PMP refuses to read the PTE at ", place);
        put_number(out, ", level ", level.into());
        self.put_entry(out, Privilege::Supervisor, Access::Load, place, 8)
    }

    /// Appends by which PMP entry a store to a PTE is refused.
    fn put_entry_at(&self, out: &mut Text, place: u64) {
        self.put_entry(out, Privilege::Supervisor, Access::Store, place, 8)
    }

    /// Appends why the access is refused at a physical address.
    pub(crate) fn put_fault_at(&self, out: &mut Text, pa: u64) {
        let access = access_text(self.request.kind);
        if self.has_byte(pa) {
            out.push_str("PMP refuses the ");
            out.push_str(access);
            put_hex(out, " at ", pa);
            let (privilege, width) = (self.privilege(), self.request.width);
            self.put_entry(out, privilege, self.request.kind, pa, width)
        } else {
            put_hex(out, "", pa);
            out.push_str(" is outside the memory")
        }
    }

    /// Appends why the access is an access fault by a leaf, in which the hart has set A and D or not.
    pub(crate) fn put_fault_by(&self, out: &mut Text, step: &Step, is_set: bool) {
        if step.level > 4 {
            return;
        }
        let pa = leads_to(step.entry, step.level, self.request.va);
        if is_set
            || has_ad(self.request.kind, step.entry)
            || (self.may_set(step) && self.may_fail(pa))
        {
            return self.put_fault_at(out, pa);
        }
        let (place, level) = (place_at(step.ppn, self.index(step.level)), step.level);
        put_hex(out, "step 7: PMP refuses the store to the PTE at ", place);
        put_number(out, ", level ", level.into());
        self.put_entry_at(out, place)
    }

    /// Appends why a table's PTE is not read.
    pub(crate) fn put_fault_below(&self, out: &mut Text, level: u32, table: u64) {
        let index = self.index(level);
        let place = place_at(table, index);
        if self.recorded.unit.word(table, index).is_some() {
            out.push_str("step 2: ");
            self.put_refused_read(out, place, level)
        } else {
            put_hex(out, "step 2: the PTE at ", place);
            put_number(out, ", level ", level.into());
            out.push_str(", is outside the memory")
        }
    }

    /// Appends why an access fault is one.
    fn put_access_fault(&self, out: &mut Text, way: &Way, is_set: bool) {
        match stop_of(self.extensions, way) {
            Some(Stop::At(step)) => self.put_fault_by(out, &step, is_set),
            Some(Stop::Unread { level, table }) => self.put_fault_below(out, level, table),
            None => self.put_fault_at(out, self.request.va.0),
        }
    }

    /// The step of the walk (the standard, 4.3.2) at which a PTE is a page fault, and what is wrong there.
    pub(crate) fn wrong_in(&self, step: &Step) -> Option<Why> {
        let request = &self.request;
        why_fault(
            self.extensions,
            request.status,
            self.mode()?,
            request.kind,
            step.entry,
            step.level,
        )
    }

    /// Appends why a page fault is one.
    fn put_page_fault(&self, out: &mut Text, way: &Way) {
        let Some(step) = last_step(way) else {
            return;
        };
        let Some(Why { step: number, text }) = self.wrong_in(&step) else {
            return;
        };
        let level = step.level;
        put_number(out, "step ", number.into());
        put_hex(out, ": PTE ", step.entry.to_word());
        put_hex(out, " at ", place_at(step.ppn, self.index(level)));
        put_number(out, ", level ", level.into());
        out.push_str(": ");
        out.push_str(text)
    }

    /// Appends why an outcome is a refusal; nothing if it is none.
    pub(crate) fn put_refusal(&self, out: &mut Text, way: &Way, outcome: &Outcome) {
        match outcome {
            Outcome::Granted { .. } => {}
            Outcome::Refused { cause, update }
                if *cause == self.request.kind.access_fault_cause() => {
                self.put_access_fault(out, way, update.is_some())
            }
            Outcome::Refused { .. } => self.put_page_fault(out, way),
        }
    }

    /// Appends why a hart that sets A and D may not set them in a PTE that lacks them.
    fn put_unset(&self, out: &mut Text, step: &Step, why: Why) {
        let index = self.index(step.level);
        let (word, place) = (step.entry.to_word(), place_at(step.ppn, index));
        match self.recorded.unit.word(step.ppn, index) {
            Some(now) if now != word => {
                put_hex(out, "memory has ", now);
                put_hex(out, " at ", place);
                put_hex(out, ", not ", word);
                out.push_str(": the hart may not set A or D there")
            }
            Some(_) if !self.may_set(step) => {
                put_hex(out, "PMP refuses the store to the PTE at ", place);
                self.put_entry_at(out, place)
            }
            _ => out.push_str(why.text),
        }
    }

    /// Appends what a leaf lacks by which the access is refused: a right, or that memory has its word where the hart would set A or D.
    fn put_lack_of(&self, out: &mut Text, way: &Way, step: &Step) {
        match self.wrong_in(step) {
            None => self.put_access_fault(out, way, true),
            Some(why) if why.step == 7 && self.extensions.ad.may_update() => {
                self.put_unset(out, step, why)
            }
            Some(why) => out.push_str(why.text),
        }
    }

    /// Appends a PTE in words, with the line before which it was there if it is there no more.
    fn put_named(&self, out: &mut Text, step: &Step) {
        if self.recorded.is_old(self.request.va, step) {
            self.recorded.put_step(out, self.extensions, step)
        } else {
            put_pte(out, self.extensions, step)
        }
    }

    /// Appends that a leaf leads to the physical address that a client tells, and why the access is refused all the same; returns whether the
    /// way ends at one.
    pub fn put_refused(&self, out: &mut Text, told: &Told) -> bool {
        let Some(step) = end_of(self.extensions, &told.way) else {
            return false;
        };
        self.put_named(out, &step);
        out.push_str(" leads there, but ");
        self.put_lack_of(out, &told.way, &step);
        true
    }
}
