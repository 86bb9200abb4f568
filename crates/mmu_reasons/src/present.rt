// What walks come to by memory and PMP as they are: methods of `Telling`.

ghost use Rattle.std.specs.Prelude.{◌<◌, ◌≤◌};

use crate::telling::Telling;
use crate::ways::{LEVELS, Stop, place_at, step_at, stop_of};
use access_history::{Outcome, Update};
use access_judge::{Log, Step, Way};
use sv39_entry::Kind;
use walk_rules::{
    MemoryType, Privilege, has_ad, leads_to, pmp_permits, pmp_permits_read, pmp_permits_update,
    with_ad,
};

impl Telling<'_> {
    /// The effective privilege mode of the access.
    pub(crate) fn privilege(&self) -> Privilege {
        self.request
            .status
            .effective(self.request.privilege, self.request.kind)
    }

    /// The index of the address's PTE in a table of a level.
    pub(crate) fn index(&self, level: u32) -> usize
        ensures { result < 512 }
    {
        self.request.va.page().index(level)
    }

    /// Whether the byte at a physical address is in memory.
    pub(crate) fn has_byte(&self, pa: u64) -> bool {
        self.recorded
            .unit
            .word(pa / 4096, (pa % 4096 / 8) as usize)
            .is_some()
    }

    /// Whether PMP permits the access at a physical address.
    fn pmp_permits(&self, pa: u64) -> bool {
        pmp_permits(
            self.recorded.unit.pmp(),
            self.privilege(),
            self.request.kind,
            pa,
            self.request.width,
        )
    }

    /// Whether the access is refused at a physical address.
    pub(crate) fn is_refused_at(&self, pa: u64) -> bool {
        !self.has_byte(pa) || !self.pmp_permits(pa)
    }

    /// Whether PMP permits to set A and D in a PTE.
    pub(crate) fn may_set(&self, step: &Step) -> bool {
        let place = place_at(step.ppn, self.index(step.level));
        pmp_permits_update(self.recorded.unit.pmp(), place)
    }

    /// Whether PMP permits to read each PTE of a way.
    pub(crate) fn may_read(&self, way: &Way) -> bool {
        'levels: for level in 0..LEVELS {
            if let Some(step) = step_at(way, level) {
                let place = place_at(step.ppn, self.index(level));
                if !pmp_permits_read(self.recorded.unit.pmp(), place) {
                    return false;
                }
            }
        }
        true
    }

    /// Whether the PTE of a table is outside the memory, or PMP refuses to read it.
    fn is_unread(&self, level: u32, table: u64) -> bool {
        let (unit, index) = (&self.recorded.unit, self.index(level));
        unit.word(table, index).is_none() || !pmp_permits_read(unit.pmp(), place_at(table, index))
    }

    fn access_fault(&self, update: Option<Update>) -> Outcome {
        Outcome::Refused {
            cause: self.request.kind.access_fault_cause(),
            update,
        }
    }

    fn page_fault(&self) -> Outcome {
        Outcome::Refused {
            cause: self.request.kind.page_fault_cause(),
            update: None,
        }
    }

    /// Whether the access comes to an outcome at a physical address.
    pub(crate) fn ends_so(
        &self,
        pa: u64,
        memory_type: MemoryType,
        update: Option<Update>,
        outcome: Outcome,
    ) -> bool {
        if !self.is_refused_at(pa) {
            let granted = Outcome::Granted {
                pa,
                memory_type,
                update,
            };
            return outcome == granted;
        }
        outcome == self.access_fault(update) || outcome == self.access_fault(None)
    }

    /// What a hart stores that sets A and D in a leaf.
    pub(crate) fn update_of(&self, step: &Step) -> Update {
        Update {
            table: step.ppn,
            index: self.index(step.level),
            word: with_ad(self.request.kind, step.entry).to_word(),
        }
    }

    /// Whether an outcome is by a hart that sets A and D in a leaf.
    fn sets_so(&self, step: &Step, pa: u64, memory_type: MemoryType, outcome: Outcome) -> bool {
        if !self.extensions.ad.may_update() || self.recorded.is_old(self.request.va, step) {
            return false;
        }
        if !self.may_set(step) {
            return outcome == self.access_fault(None);
        }
        self.ends_so(pa, memory_type, Some(self.update_of(step)), outcome)
    }

    /// Whether an outcome is by a leaf that allows the access.
    fn leads_so(&self, step: &Step, memory_type: MemoryType, outcome: Outcome) -> bool
        requires { step.now.level ≤ 4 }
    {
        let pa = leads_to(step.entry, step.level, self.request.va);
        if has_ad(self.request.kind, step.entry) {
            return self.ends_so(pa, memory_type, None, outcome);
        }
        (self.extensions.ad.may_fault() && outcome == self.page_fault())
            || self.sets_so(step, pa, memory_type, outcome)
    }

    /// Whether an outcome is by a PTE at which a walk stops.
    fn says_so(&self, step: &Step, outcome: Outcome) -> bool {
        let Some(mode) = self.mode() else {
            return false;
        };
        if step.level > 4 {
            return false;
        }
        let is_leaf = self.extensions.kind(step.entry, step.level) == Kind::Leaf;
        let (status, kind) = (self.request.status, self.request.kind);
        if !is_leaf || !status.allows(mode, kind, step.entry, step.level) {
            return outcome == self.page_fault();
        }
        match MemoryType::of_entry(step.entry) {
            Some(memory_type) => self.leads_so(step, memory_type, outcome),
            None => false,
        }
    }

    /// Whether a walk that goes this way comes to an outcome.
    pub(crate) fn comes_to(&self, way: &Way, outcome: Outcome) -> bool {
        match stop_of(self.extensions, way) {
            Some(Stop::At(step)) => self.says_so(&step, outcome),
            Some(Stop::Unread { level, table }) => {
                self.is_unread(level, table) && outcome == self.access_fault(None)
            }
            None => false,
        }
    }
}
