// `Fence`: a fence that was executed; `Fences`: those since the history began, which say what each excludes.

use crate::numbers::{put_hex, put_number};
use crate::telling::Telling;
use crate::ways::{LEVELS, offset_bits, step_at};
use access_judge::{Log, PastSatp, Step, Told, Way};
use sv39_entry::{Entry, Kind, Va};
use text_builder::Text;

/// After so many events the history begins anew.
pub(crate) const MOST_EVENTS: usize = 65536;

/// A fence that was executed.
#[derive(Clone, Copy)]
pub(crate) struct Fence {
    pub line: u64,
    /// How many events there were before it.
    pub moment: usize,
    pub va: Option<Va>,
    pub asid: Option<u16>,
    /// The ASID as the client wrote it: with bits that the hart has not.
    pub written: Option<u16>,
    /// The ASID that satp had.
    pub under: u16,
    /// The line of the last write of a PMP entry before it. 0: there was none.
    pub pmp_line: u64,
}

impl Fence {
    /// Whether rs2 is x0 or an ASID.
    fn is_for(&self, asid: u16) -> bool {
        match self.asid {
            None => true,
            Some(space) => space == asid,
        }
    }

    /// Whether it is for an address of another page of 4 KiB.
    fn is_beside(&self, va: Va) -> bool {
        match self.va {
            Some(address) => address.0 / 4096 != va.0 / 4096,
            None => false,
        }
    }

    /// Whether it is for an address and for an ASID that a PTE serves, which a walk for an address under an ASID read; `None`: a global one.
    pub fn reaches(&self, va: Va, step: &Step, asid: Option<u16>) -> bool {
        let bits = offset_bits(step);
        let is_in = match self.va {
            Some(address) => address.0 >> bits == va.0 >> bits,
            None => true,
        };
        is_in
            && match asid {
                Some(asid) => self.is_for(asid),
                None => self.asid.is_none(),
            }
    }

    /// Appends the fence as the client writes it, for example `the fence of line 7 (sfence 0x4000 3)`, where `text` comes before its line; that the
    /// address is one of another page than this one, of the same superpage; and the ASID that satp had, if it is another than this one.
    pub fn put(&self, out: &mut Text, text: &str, va: Va, asid: u16) {
        put_number(out, text, self.line);
        out.push_str(" (sfence");
        match (self.va, self.written) {
            (None, None) => {}
            (None, Some(_)) => out.push_str(" -"),
            (Some(va), _) => put_hex(out, " ", va.0),
        }
        if let Some(asid) = self.written {
            put_number(out, " ", asid.into());
        }
        if self.is_beside(va) {
            out.push_str(", another page of the superpage");
        }
        if self.under != asid {
            put_number(out, ", under ASID ", self.under.into());
        }
        out.push_str(")")
    }
}

/// What a fence excludes on a way.
#[derive(Clone, Copy)]
pub(crate) enum Excluded {
    /// The word of satp by which the walk begins.
    Root,
    /// A PTE, so that what comes after it on the way cannot be read.
    Pte(Step),
    /// PMP entries as they were.
    Pmp,
}

/// The fences that were executed. `telling` is an access with the history without them.
#[derive(Clone, Copy)]
pub(crate) struct Fences<'a> {
    pub list: &'a [Fence],
}

impl Fences<'_> {
    /// Whether a leaf was stored in the place of a PTE after it and up to a fence.
    fn became_leaf(&self, telling: &Telling<'_>, step: &Step, fence: &Fence) -> bool {
        let (unit, mut moment) = (&telling.recorded.unit, step.last);
        'changes: for _ in 0..MOST_EVENTS {
            let Some(event) = unit.next_change(step.ppn, step.index, moment) else {
                return false;
            };
            if event > fence.moment || event > unit.now() || step.index >= 512 {
                return false;
            }
            if let Some(past) = unit.word_at(step.ppn, step.index, event) {
                let entry = Entry::from_word(past.word);
                if telling.extensions.kind(entry, step.level) == Kind::Leaf {
                    return true;
                }
            }
            moment = event;
        }
        false
    }

    /// Whether a fence covers a PTE that a walk under an ASID read before it (RISC-V Privileged Architecture 20211203, 4.2.1).
    fn covers(&self, telling: &Telling<'_>, asid: u16, step: &Step, fence: &Fence) -> bool {
        let asid = if step.global { None } else { Some(asid) };
        if step.level > 4 || !fence.reaches(telling.request.va, step, asid) {
            return false;
        }
        fence.va.is_none()
            || match telling.extensions.kind(step.entry, step.level) {
                Kind::Leaf => true,
                Kind::Pointer => false,
                Kind::Invalid => self.became_leaf(telling, step, fence),
            }
    }

    /// How many fences there were up to a moment.
    fn count_until(&self, moment: usize) -> usize {
        let (mut low, mut high) = (0usize, self.list.len());
        'halves: for _ in 0..64 {
            if low >= high {
                break;
            }
            let middle = low + (high - low) / 2;
            match self.list.get(middle) {
                Some(fence) if fence.moment <= moment => low = middle.saturating_add(1),
                _ => high = middle,
            }
        }
        low
    }

    /// The number of the first fence, from one on, that covers a PTE which a walk read before; how many there are, if none does.
    fn covering(&self, telling: &Telling<'_>, asid: u16, step: &Step, from: usize) -> usize {
        let count = self.list.len();
        'fences: for number in from..count {
            if let Some(fence) = self.list.get(number) {
                if self.covers(telling, asid, step, fence) {
                    return number;
                }
            }
        }
        count
    }

    /// The number of the first fence that ends walks under an ASID, which satp had last at a moment; how many there are, if none does.
    fn ending(&self, asid: u16, last: usize) -> usize {
        let count = self.list.len();
        'fences: for number in self.count_until(last)..count {
            if let Some(fence) = self.list.get(number) {
                if fence.va.is_none() && fence.moment > last && fence.is_for(asid) {
                    return number;
                }
            }
        }
        count
    }

    /// Whether a PTE of a way was there before a fence, or earlier.
    fn was_before(&self, telling: &Telling<'_>, step: &Step, number: usize) -> bool {
        match self.list.get(number) {
            Some(fence) => {
                telling
                    .recorded
                    .was_there(telling.extensions, step, fence.moment)
            }
            None => true,
        }
    }

    /// The ASID under which walks from a root went, and the last moment at which satp had it.
    fn space_of(&self, telling: &Telling<'_>, root: &PastSatp) -> (u16, usize) {
        let last = telling.recorded.last_had(root, None).unwrap_or(root.last);
        let (asid, _) = telling.recorded.space_at(last);
        (asid, last)
    }

    /// The first fence that excludes a PTE of a way, or its root, so that without it and those after it the way is possible: each PTE on the way is
    /// read as late as can be, before a fence excludes what led to it. How many fences there are, if none does.
    fn excluding(&self, telling: &Telling<'_>, way: &Way, root: &PastSatp) -> (usize, Excluded) {
        let (asid, last) = self.space_of(telling, root);
        let (mut number, mut what) = (self.ending(asid, last), Excluded::Root);
        let mut first = (self.list.len(), Excluded::Root);
        'levels: for n in 0..LEVELS {
            if let Some(step) = step_at(way, LEVELS - 1 - n) {
                if !self.was_before(telling, &step, number) {
                    if number < first.0 {
                        first = (number, what);
                    }
                    number = self.list.len();
                }
                let from = number.min(self.count_until(step.last));
                number = self.covering(telling, asid, &step, from);
                what = Excluded::Pte(step);
            }
        }
        if number < first.0 {
            (number, what)
        } else {
            first
        }
    }

    /// The last fence of everything between which and the one before it a PMP entry was written; how many fences there are, if there is none.
    fn ending_pmp(&self) -> usize {
        let (mut found, mut line) = (self.list.len(), 0);
        'fences: for number in 0..self.list.len() {
            if let Some(fence) = self.list.get(number) {
                if fence.va.is_none() && fence.asid.is_none() && fence.pmp_line != line {
                    found = number;
                    line = fence.pmp_line;
                }
            }
        }
        found
    }

    /// The first fence that excludes a way to an outcome, by its number, and what it excludes; `None` if none does.
    pub fn first_excluding(&self, telling: &Telling<'_>, told: &Told) -> Option<(usize, Excluded)> {
        let (number, what) = match &told.way.root {
            Some(root) => self.excluding(telling, &told.way, root),
            None => (self.list.len(), Excluded::Root),
        };
        if !telling.comes_to(&told.way, told.outcome) || !telling.may_read(&told.way) {
            let ending = self.ending_pmp();
            if ending <= number && ending < self.list.len() {
                return Some((ending, Excluded::Pmp));
            }
        }
        if number < self.list.len() {
            Some((number, what))
        } else {
            None
        }
    }

    /// If the fence of a number, which excludes a PTE, is for another page of a superpage, the first later one that covers the PTE and is not.
    pub fn not_beside(
        &self,
        telling: &Telling<'_>,
        told: &Told,
        number: usize,
        what: &Excluded,
    ) -> Option<Fence> {
        let (root, va) = (told.way.root?, telling.request.va);
        let Excluded::Pte(step) = what else {
            return None;
        };
        if !self.list.get(number)?.is_beside(va) {
            return None;
        }
        let (asid, _) = self.space_of(telling, &root);
        'fences: for later in number..self.list.len() {
            if let Some(fence) = self.list.get(later) {
                if !fence.is_beside(va) && self.covers(telling, asid, step, fence) {
                    return Some(*fence);
                }
            }
        }
        None
    }
}
