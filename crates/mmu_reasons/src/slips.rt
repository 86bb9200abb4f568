// What a hart comes to that leaves out one check of the walk over memory as it is, in words: a method of `Telling`.

use crate::reasons::Why;
use crate::telling::Telling;
use crate::walking::{Slip, walk_without};
use crate::ways::{LEVELS, end_of, place_at, put_pte, step_at};
use access_judge::{Log, Step, Way};
use mmu_requests::{Claim, End};
use sv39_entry::{Kind, Satp};
use text_builder::Text;
use walk_rules::{leads_to, pmp_permits_read};

/// The MODEs of satp, from the one of three levels on, with their names.
static MODES: [(u64, &str); 3] = [(8, "Sv39"), (9, "Sv48"), (10, "Sv57")];

/// The name of a MODE of satp.
fn mode_name(satp: Satp) -> &'static str {
    for (mode, name) in MODES.as_slice() {
        if satp.to_word() >> 60 == *mode {
            return name;
        }
    }
    "Bare"
}

impl Telling<'_> {
    /// Whether a leaf grants the access at a physical address.
    fn grants_at(&self, step: &Step, pa: u64) -> bool {
        step.level <= 4
            && self.extensions.kind(step.entry, step.level) == Kind::Leaf
            && self.wrong_in(step).is_none()
            && leads_to(step.entry, step.level, self.request.va) == pa
    }

    /// Whether a client may mean the end of a way: a grant there, or a fault by the PTE that it tells.
    fn is_meant(&self, way: &Way, claim: Claim) -> bool {
        let Some(step) = end_of(self.extensions, way) else {
            return false;
        };
        claim.is_by(Some(step.entry.to_word()))
            && match claim.end {
                End::Granted { pa, .. } => self.grants_at(&step, pa),
                End::Refused(_) => claim.by.is_some(),
            }
    }

    /// The walk by a satp without a check, if a client may mean its end.
    fn slipped(&self, satp: Satp, slip: Slip, claim: Claim) -> Option<Way> {
        let way = walk_without(self.recorded, self.extensions, self.request.va, satp, slip)?;
        if self.is_meant(&way, claim) {
            Some(way)
        } else {
            None
        }
    }

    /// The level and the place of the PTE of a way at a level, if there is one and PMP refuses to read it.
    fn unread_at(&self, way: &Way, level: u32) -> Option<(u32, u64)> {
        let step = step_at(way, level)?;
        let place = place_at(step.ppn, self.index(step.level));
        if pmp_permits_read(self.recorded.unit.pmp(), place) {
            return None;
        }
        Some((step.level, place))
    }

    /// Appends which PTE of a way PMP refuses to read.
    fn put_unread(&self, out: &mut Text, way: &Way) {
        'levels: for n in 0..LEVELS {
            if let Some((level, place)) = self.unread_at(way, LEVELS - 1 - n) {
                return self.put_refused_read(out, place, level);
            }
        }
    }

    /// Why a PTE is no pointer, though it has the form of one.
    fn no_pointer(&self, step: &Step) -> Option<Why> {
        if step.level > 4 || self.extensions.kind(step.entry, step.level) != Kind::Invalid {
            return None;
        }
        self.wrong_in(step)
    }

    /// Appends which PTE of a way is no pointer.
    fn put_no_pointer(&self, out: &mut Text, way: &Way) {
        'levels: for n in 0..LEVELS {
            if let Some(step) = step_at(way, LEVELS - 1 - n) {
                if let Some(why) = self.no_pointer(&step) {
                    put_pte(out, self.extensions, &step);
                    out.push_str(" is on the way there: ");
                    return out.push_str(why.text);
                }
            }
        }
    }

    /// Appends by which other MODE of satp, of those that the hart has, the walk ends as a client may mean; returns whether it does by one.
    fn put_other_mode(&self, out: &mut Text, claim: Claim, has: [bool; 3]) -> bool {
        let satp = self.recorded.unit.satp();
        for (n, (mode, name)) in MODES.iter().enumerate() {
            if has.get(n) != Some(&true) {
                continue;
            }
            let other = Satp::from_word((mode << 60) + satp.to_word() % (1 << 60));
            if self.slipped(other, Slip::None, claim).is_some() {
                out.push_str("it would be so under ");
                out.push_str(name);
                out.push_str(", but MODE in satp is ");
                out.push_str(mode_name(satp));
                return true;
            }
        }
        false
    }

    /// Whether a client may mean the end of another walk than the one over memory as it is.
    fn means_another(&self, claim: Claim) -> bool {
        match self.walk() {
            Some(walk) => !self.is_meant(walk, claim),
            None => false,
        }
    }

    /// Appends that what a client tells would be so under another MODE of satp, if it would under one that the hart has; returns whether it
    /// would. `has`: whether the hart has Sv39, Sv48 and Sv57.
    pub fn put_mode(&self, out: &mut Text, claim: Claim, has: [bool; 3]) -> bool {
        self.means_another(claim) && self.put_other_mode(out, claim, has)
    }

    /// Appends which one check of the walk stands against what a client tells, if one does; returns whether it does.
    pub fn put_slip(&self, out: &mut Text, claim: Claim) -> bool {
        if !self.means_another(claim) {
            return false;
        }
        let satp = self.recorded.unit.satp();
        if let Some(way) = self.slipped(satp, Slip::Pmp, claim) {
            self.put_unread(out, &way);
            return true;
        }
        if let Some(way) = self.slipped(satp, Slip::Pointer, claim) {
            self.put_no_pointer(out, &way);
            return true;
        }
        false
    }
}
