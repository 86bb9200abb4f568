// `Use`: a struct, an access that went by a PTE; and methods of `Witness` that look for one.

ghost use Rattle.std.specs.Prelude.{◌≤◌};

use crate::causes::mode_text;
use crate::exclusions::{Exclusion, fit_of};
use crate::numbers::{put_hex, put_number};
use crate::seeking::seek_by;
use crate::ways::{end_of, offset_bits};
use crate::witness::Witness;
use access_history::Request;
use access_judge::Step;
use mmu_requests::{Claim, End};
use sv39_entry::Va;
use text_builder::Text;
use walk_rules::{Extensions, Privilege, Status};

/// An access that went by a PTE, as the client told.
#[derive(Clone, Copy)]
pub(crate) struct Use {
    pub line: u64,
    pub word: u64,
    pub va: Va,
    pub privilege: Privilege,
    pub status: Status,
    /// The ASID that satp had.
    pub under: u16,
}

/// A bit of mstatus, and a blank.
fn digit(bit: bool) -> &'static str {
    if bit { "1 " } else { "0 " }
}

impl Use {
    /// Whether a leaf would allow an access, as a client tells (`is_granted`) or does not, if SUM and MXR were as at this one.
    fn explains(&self, request: Request, step: &Step, is_granted: bool) -> bool {
        let (kind, now) = (request.kind, request.status);
        let Status { sum, mxr, .. } = self.status;
        let status = Status { sum, mxr, ..now };
        match now.effective(request.privilege, kind).translation_mode() {
            Some(mode) => { status.allows(mode, kind, step.entry, step.level.min(4)) == is_granted }
            None => false,
        }
    }

    /// Whether it went by a PTE, by its word, in the page that the PTE maps for an address.
    fn is_by(&self, va: Va, step: &Step) -> bool {
        let bits = offset_bits(step);
        self.word == step.entry.to_word() && self.va.0 >> bits == va.0 >> bits
    }

    /// Appends the access, for example `; line 9 went by 0x200c64df under ASID 2, in S-mode, status 1 0 0 U`.
    pub fn put(&self, out: &mut Text) {
        put_number(out, "; line ", self.line);
        put_hex(out, " went by ", self.word);
        put_number(out, " under ASID ", self.under.into());
        let Status {
            sum,
            mxr,
            mprv,
            mpp,
        } = self.status;
        out.push_str(", in ");
        out.push_str(mode_text(self.privilege));
        out.push_str("-mode, status ");
        out.push_str(digit(sum));
        out.push_str(digit(mxr));
        out.push_str(digit(mprv));
        out.push_str(mode_text(mpp))
    }
}

impl Witness {
    /// Whether a fence since an access covers the PTE that it went by.
    fn is_fenced(&self, used: &Use, step: &Step) -> bool {
        let asid = if step.global { None } else { Some(used.under) };
        'fences: for fence in self.fences.as_slice() {
            if fence.line > used.line && fence.reaches(used.va, step, asid) {
                return true;
            }
        }
        false
    }

    /// The last access that went by a PTE, by its word, in the page that it maps.
    fn last_use(&self, va: Va, step: &Step) -> Option<Use> {
        let mut found = None;
        'uses: for used in self.uses.as_slice() {
            if used.is_by(va, step) {
                found = Some(*used);
            }
        }
        found
    }

    /// The last access by a PTE that may have gone by the walk that a fence excludes, before that; else the last before it, or the last.
    pub(crate) fn use_before(
        &self,
        va: Va,
        step: &Option<Step>,
        exclusion: &Exclusion,
    ) -> Option<Use> {
        let Some(step) = step else {
            return None;
        };
        let (mut found, mut best) = (None, 0);
        'uses: for used in self.uses.as_slice() {
            let fit = fit_of(
                used.line < exclusion.fence.line,
                exclusion.is_of(used.under),
            );
            if used.is_by(va, step) && fit >= best {
                found = Some(*used);
                best = fit;
            }
        }
        found
    }

    /// The last one of those by a PTE, which no fence since covers, whose SUM and MXR explain what a client tells.
    fn last_explaining(&self, request: Request, step: &Step, is_granted: bool) -> Option<Use> {
        let mut found = None;
        'uses: for used in self.uses.as_slice() {
            if used.is_by(request.va, step)
                && used.explains(request, step, is_granted)
                && !self.is_fenced(used, step)
            {
                found = Some(*used);
            }
        }
        found
    }

    /// The PTE that a client tells, by its word, if a walk for the access ends at it, or might without fences and with one ASID.
    pub(crate) fn told_step(
        &self,
        extensions: Extensions,
        request: Request,
        by: Option<u64>,
    ) -> Option<Step>
        requires { 1 ≤ request.width }
    {
        match seek_by(&self.unspaced.unit, extensions, request, by?) {
            Some(told) => end_of(extensions, &told.way),
            None => None,
        }
    }

    /// The last access by a PTE that a client tells; and the one that explains what it tells by SUM and MXR, or else the last, if no fence since covers
    /// the PTE.
    pub(crate) fn uses_of(
        &self,
        request: Request,
        step: &Option<Step>,
        claim: Claim,
    ) -> (Option<Use>, Option<Use>) {
        let Some(step) = step else {
            return (None, None);
        };
        let Some(last) = self.last_use(request.va, step) else {
            return (None, None);
        };
        let is_granted = matches!(claim.end, End::Granted { .. });
        let held = match self.last_explaining(request, step, is_granted) {
            Some(used) => Some(used),
            None if self.is_fenced(&last, step) => None,
            None => Some(last),
        };
        (Some(last), held)
    }

    /// Whether the PTE that a client tells says which pointers led to it: not a word 0, unless the last access by it was under another ASID.
    pub(crate) fn is_told(&self, by: Option<u64>, used: &Option<Use>) -> bool {
        match (by, used) {
            (None, _) => false,
            (Some(word), _) if word != 0 => true,
            (Some(_), Some(used)) => used.under != self.asid(),
            (Some(_), None) => false,
        }
    }
}
