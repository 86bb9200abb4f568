// `Exclusion`: a struct, a fence that excludes a way to an outcome; and methods of `Witness` that look for one, and tell it.

use crate::fences::{Excluded, Fence, Fences};
use crate::seeking::oldest;
use crate::telling::Telling;
use crate::uses::Use;
use crate::ways::{LEVELS, last_step, put_pte, step_at};
use crate::witness::Witness;
use access_history::Request;
use access_judge::{Step, Told, Way};
use sv39_entry::Va;
use text_builder::Text;
use walk_rules::Extensions;

/// A fence that excludes a way that was possible before it.
#[derive(Clone, Copy)]
pub(crate) struct Exclusion {
    /// How many fences there were before it.
    number: usize,
    pub fence: Fence,
    /// A later one that excludes it too, and is not beside, if that one is beside.
    other: Option<Fence>,
    told: Told,
    what: Excluded,
    /// Whether the client tells a PTE by which no access went before.
    is_first: bool,
}

/// By what an exclusion goes before others.
#[derive(Clone, Copy)]
struct Rank {
    number: usize,
    fit: u8,
    /// The moment of what is oldest on the way.
    moment: usize,
}

/// How well something fits, of 3, by two conditions, the first of which counts more.
pub(crate) fn fit_of(first: bool, second: bool) -> u8 {
    match (first, second) {
        (true, true) => 3,
        (true, false) => 2,
        (false, true) => 1,
        (false, false) => 0,
    }
}

impl Rank {
    fn is_above(&self, other: &Rank) -> bool {
        if self.number != other.number {
            return self.number > other.number;
        }
        if self.fit != other.fit {
            return self.fit > other.fit;
        }
        self.moment > other.moment
    }
}

impl Exclusion {
    /// Whether an access under an ASID may have gone by the walk that the fence excludes.
    pub fn is_of(&self, asid: u16) -> bool {
        let way = &self.told.way;
        match (last_step(way), &way.root) {
            (Some(Step { global: true, .. }), _) | (_, None) => true,
            (_, Some(root)) => root.satp.asid() == asid,
        }
    }

    /// How well it explains what a client tells: best if an access may have gone by its walk, and then if it names a PTE.
    fn fit(&self, used: &Option<Use>) -> u8 {
        let is_used = match used {
            Some(used) => self.is_of(used.under),
            None => false,
        };
        fit_of(is_used, !matches!(self.what, Excluded::Root))
    }

    fn rank(&self, used: &Option<Use>) -> Rank {
        Rank {
            number: self.number,
            fit: self.fit(used),
            moment: oldest(&self.told.way),
        }
    }
}

impl Witness {
    /// Whether there was a fence of all before the one of this number.
    fn had_fence(&self, number: usize) -> bool {
        for before in 0..number.min(self.fences.len()) {
            let fence = &self.fences[before];
            if fence.va.is_none() && fence.asid.is_none() {
                return true;
            }
        }
        false
    }

    /// Whether the PTE of a way at a level, if there is one, was there when addresses were translated.
    fn was_walked_at(&self, way: &Way, level: u32) -> bool {
        match step_at(way, level) {
            Some(step) => self.unfenced.was_walked(&step),
            None => true,
        }
    }

    /// Whether each PTE of a way was there when addresses were translated.
    fn was_walked(&self, way: &Way) -> bool {
        'levels: for level in 0..LEVELS {
            if !self.was_walked_at(way, level) {
                return false;
            }
        }
        true
    }

    /// Whether what a fence excludes was there once all was set up: no PTE of the time before addresses were translated, and no PMP entries of the
    /// time before the first fence.
    fn was_used(&self, number: usize, way: &Way, what: &Excluded) -> bool {
        match what {
            Excluded::Pte(_) => self.was_walked(way),
            Excluded::Pmp => self.had_fence(number),
            Excluded::Root => true,
        }
    }

    /// Which fence excludes a way, if one does.
    fn exclusion_of(
        &self,
        telling: &Telling<'_>,
        told: &Told,
        is_first: bool,
    ) -> Option<Exclusion> {
        let fences = Fences {
            list: self.fences.as_slice(),
        };
        let (number, what) = fences.first_excluding(telling, told)?;
        if !self.was_used(number, &told.way, &what) {
            return None;
        }
        let fence = *self.fences.get(number)?;
        Some(Exclusion {
            number,
            fence,
            other: fences.not_beside(telling, told, number, &what),
            told: *told,
            what,
            is_first,
        })
    }

    /// Of the ways to an outcome the one that the latest fence excludes, of several the one that explains it best, and then the one on which the
    /// oldest is newest; `None` if no fence excludes one. `used`: the last access by the PTE that the client tells.
    pub(crate) fn last_exclusion(
        &self,
        extensions: Extensions,
        request: Request,
        ways: &[Option<Told>],
        used: &Option<Use>,
        is_first: bool,
    ) -> Option<Exclusion> {
        let telling = Telling::new(self.alloc, &self.unfenced, extensions, request, &[]);
        let mut found = None;
        let mut best = Rank {
            number: 0,
            fit: 0,
            moment: 0,
        };
        'ways: for way in ways {
            let Some(told) = way else {
                return found;
            };
            if let Some(exclusion) = self.exclusion_of(&telling, told, is_first) {
                let rank = exclusion.rank(used);
                if found.is_none() || rank.is_above(&best) {
                    found = Some(exclusion);
                    best = rank;
                }
            }
        }
        found
    }

    /// The lowest of the pointers by which a PTE was read that memory has no more.
    fn old_above(&self, va: Va, told: &Told, step: &Step) -> Option<Step> {
        'levels: for level in step.level.saturating_add(1)..LEVELS {
            if let Some(above) = step_at(&told.way, level) {
                if self.unfenced.is_old(va, &above) {
                    return Some(above);
                }
            }
        }
        None
    }

    /// Appends a PTE that a fence excludes, as before a line if memory had it no more then, else with what older it was read by, if by something:
    /// that first where the fence is for no address, since it excludes pointers too.
    fn put_read_by(
        &self,
        out: &mut Text,
        extensions: Extensions,
        va: Va,
        exclusion: &Exclusion,
        step: &Step,
    ) {
        let told = &exclusion.told;
        if self.unfenced.is_old(va, step) && step.last < exclusion.fence.moment {
            return self.unfenced.put_step(out, extensions, step);
        }
        match self.old_above(va, told, step) {
            Some(above) if exclusion.fence.va.is_none() => {
                self.unfenced.put_step(out, extensions, &above);
                out.push_str(", which leads to ");
                put_pte(out, extensions, step)
            }
            Some(above) => {
                put_pte(out, extensions, step);
                out.push_str(", read by ");
                self.unfenced.put_step(out, extensions, &above)
            }
            None => self.put_by_root(out, extensions, exclusion, step),
        }
    }

    /// The pointer to a PTE that a fence excludes, if the fence excludes that too.
    fn pointer_to(&self, exclusion: &Exclusion, step: &Step) -> Option<Step> {
        let fence = &exclusion.fence;
        let above = step_at(&exclusion.told.way, step.level.saturating_add(1))?;
        if fence.va.is_none() && (fence.asid.is_none() || !above.global) {
            Some(above)
        } else {
            None
        }
    }

    /// Appends a PTE that a fence excludes, with the satp by which it was read, if that is an older one; of one that was read anew first the
    /// pointer to it.
    fn put_by_root(
        &self,
        out: &mut Text,
        extensions: Extensions,
        exclusion: &Exclusion,
        step: &Step,
    ) {
        let pointer = self.pointer_to(exclusion, step);
        let is_anew = pointer.is_some() && self.is_read_anew(extensions, step, exclusion.is_first);
        if is_anew {
            put_pte(out, extensions, &pointer.unwrap_or(*step))
        } else {
            put_pte(out, extensions, step)
        }
        if pointer.is_some() && !is_anew {
            out.push_str(", or a pointer to it");
        }
        self.unfenced.put_root(out, &exclusion.told, ", read by ");
        if is_anew {
            out.push_str(", which leads to ");
            put_pte(out, extensions, step)
        }
    }

    /// Appends what a fence excludes.
    pub(crate) fn put_exclusion(
        &self,
        out: &mut Text,
        extensions: Extensions,
        va: Va,
        exclusion: &Exclusion,
    ) {
        let (fence, told) = (&exclusion.fence, &exclusion.told);
        let asid = match (&exclusion.what, &told.way.root) {
            (Excluded::Pte(Step { global: false, .. }) | Excluded::Root, Some(root)) => {
                root.satp.asid()
            }
            _ => fence.under,
        };
        fence.put(out, "the fence of line ", va, asid);
        out.push_str(" excludes ");
        match &exclusion.what {
            Excluded::Root => self.unfenced.put_root(out, told, ""),
            Excluded::Pte(step) => self.put_read_by(out, extensions, va, exclusion, step),
            Excluded::Pmp => out.push_str("older PMP entries"),
        }
        if let Some(other) = &exclusion.other {
            other.put(out, ", and so does the fence of line ", va, asid)
        }
    }
}
