// `Foreign`: a struct, a PTE of another ASID; and methods of `Witness` that look for one, and tell it.

use crate::fences::Fences;
use crate::numbers::put_number;
use crate::seeking::oldest;
use crate::telling::Telling;
use crate::ways::{LEVELS, ends_at_leaf, put_pte, step_at};
use crate::witness::Witness;
use access_history::Request;
use access_judge::{Log, PastSatp, Step, Told};
use text_builder::Text;
use walk_rules::{Extensions, top_level};

/// A PTE of another ASID.
#[derive(Clone, Copy)]
pub(crate) struct Foreign {
    step: Step,
    asid: u16,
    /// Whether pointers led to it.
    is_below: bool,
}

impl Witness {
    /// The last PTE on a way of those that a walk may have read up to a moment and that are not global: of one that was read anew the pointer to
    /// it, if there is one.
    fn last_of_space(
        &self,
        extensions: Extensions,
        told: &Told,
        moment: usize,
        is_first: bool,
    ) -> Option<Step> {
        let mut found = None;
        'levels: for n in 0..LEVELS {
            if let Some(step) = step_at(&told.way, LEVELS - 1 - n) {
                if !self.unspaced.was_there(extensions, &step, moment) {
                    return found;
                }
                if !step.global
                    && (found.is_none() || !self.is_read_anew(extensions, &step, is_first))
                {
                    found = Some(step);
                }
            }
        }
        found
    }

    /// A way that would be possible if all ASIDs were one, by its root as satp had it last under another ASID than the present one, if it had it
    /// so.
    fn of_another_space(&self, told: &Told) -> Option<Told> {
        let root = told.way.root?;
        let last = self.unspaced.last_had(&root, Some(self.asid()))?;
        let mut found = *told;
        found.way.root = Some(PastSatp { last, ..root });
        Some(found)
    }

    /// Which PTE of such a way is of another ASID, if one is.
    fn foreign_on(&self, extensions: Extensions, told: &Told, is_first: bool) -> Option<Foreign> {
        let root = told.way.root?;
        let (asid, moment) = self.unspaced.space_at(root.last);
        let step = self.last_of_space(extensions, told, moment, is_first)?;
        let is_below = top_level(root.satp) != Some(step.level);
        Some(Foreign {
            step,
            asid,
            is_below,
        })
    }

    /// Whether a fence excludes a way.
    fn is_excluded(&self, telling: &Telling<'_>, told: &Told) -> bool {
        let fences = Fences {
            list: self.fences.as_slice(),
        };
        fences.first_excluding(telling, told).is_some()
    }

    /// Which PTE of another ASID one of some ways is by: a leaf, if only leaves count, and if only held ones count, one that no fence excludes.
    pub(crate) fn foreign_among(
        &self,
        extensions: Extensions,
        request: Request,
        ways: &[Option<Told>],
        only_leaves: bool,
        only_held: bool,
        is_first: bool,
    ) -> Option<Foreign> {
        let telling = Telling::new(self.alloc, &self.unspaced, extensions, request, &[]);
        let (mut found, mut newest) = (None, 0);
        'ways: for way in ways {
            let Some(told) = way else {
                return found;
            };
            let Some(told) = self.of_another_space(told) else {
                continue;
            };
            let is_left = only_leaves && !ends_at_leaf(extensions, &told.way);
            if is_left || (only_held && self.is_excluded(&telling, &told)) {
                continue;
            }
            let foreign = self.foreign_on(extensions, &told, is_first);
            let moment = oldest(&told.way);
            if foreign.is_some() && (found.is_none() || moment > newest) {
                found = foreign;
                newest = moment;
            }
        }
        found
    }

    /// Appends which PTE is of another ASID.
    pub(crate) fn put_foreign(&self, out: &mut Text, extensions: Extensions, foreign: &Foreign) {
        put_pte(out, extensions, &foreign.step);
        out.push_str(" is of another ASID and not global: ");
        if foreign.is_below {
            out.push_str("it, or a pointer to it, was ");
        }
        put_number(out, "read under ASID ", foreign.asid.into())
    }
}
