// `Denial`: a struct, an outcome that a client tells and that is not permitted, with what says why.

ghost use Rattle.std.specs.Prelude.{◌≤◌};

use crate::claims::difference;
use access_judge::Told;
use mmu_reasons::{By, Older, Recorded, Telling, Witness, seek_by, seek_refusal};
use mmu_requests::{Claim, End, Profile};
use text_builder::Text;
use walk_lines::Hex;

/// An outcome that a client tells and that is not permitted.
#[derive(Clone, Copy)]
pub(crate) struct Denial<'a> {
    pub recorded: &'a Recorded,
    pub witness: &'a Witness,
    pub profile: Profile,
    /// The access with the history.
    pub telling: Telling<'a>,
    /// The outcomes that are permitted.
    pub found: &'a [Told],
    pub request: access_history::Request,
    pub claim: Claim,
}

impl Denial<'_> {
    /// Why the address has one outcome alone, if it has.
    fn by_address(&self) -> Option<&'static str> {
        match self.telling.by_address() {
            Some(By::Misaligned) => Some("the address is misaligned"),
            Some(By::NotCanonical) => Some("the address is not canonical"),
            _ => None,
        }
    }

    /// Appends in what a permitted outcome is another than what the client tells, if one has the same physical address or cause, by the PTE that
    /// the client tells; returns whether one has.
    fn put_difference(&self, out: &mut Text) -> bool {
        let claim = self.claim;
        'found: for told in self.found {
            if claim.is_end(told.outcome) && claim.is_by(self.telling.word_of(&told.way)) {
                out.push_str(difference(claim.update, told.outcome));
                return true;
            }
        }
        false
    }

    /// What the client tells, if that is permitted by another PTE.
    fn by_another(&self) -> Option<&Told> {
        'found: for told in self.found {
            if self.claim.is_outcome(told.outcome) {
                return Some(told);
            }
        }
        None
    }

    /// Appends by which PTE alone what the client tells is permitted.
    fn put_another(&self, out: &mut Text, told: &Told) {
        match self.telling.word_of(&told.way) {
            Some(word) => {
                let word = Hex(word);
                write!(out, "by another PTE alone: by {word}")
            }
            None => out.push_str("by no PTE"),
        }
    }

    /// Appends to what the access comes by the PTE that the client tells; returns whether it comes to anything else.
    fn put_by(&self, out: &mut Text, word: u64) -> bool
        requires { 1 ≤ self.now.request.width }
    {
        if self.put_difference(out) {
            return true;
        }
        match seek_by(
            &self.recorded.unit,
            self.profile.extensions,
            self.request,
            word,
        ) {
            Some(told) if self.claim.is_end(told.outcome) => {
                out.push_str(difference(self.claim.update, told.outcome));
                true
            }
            Some(told) => self.telling.put_by(out, self.claim, &told),
            None => false,
        }
    }

    /// Appends that a leaf leads to the physical address that the client tells, and why the access is refused all the same; returns whether one
    /// does.
    fn put_refused(&self, out: &mut Text) -> bool
        requires { 1 ≤ self.now.request.width }
    {
        let End::Granted { pa, .. } = self.claim.end else {
            return false;
        };
        match seek_refusal(
            &self.recorded.unit,
            self.profile.extensions,
            self.request,
            pa,
        ) {
            Some(told) => self.telling.put_refused(out, &told),
            None => false,
        }
    }

    /// Appends that no walk for the access ends or ended at the PTE that the client tells, and at which it ends, if that is so; returns whether it
    /// is.
    fn put_unknown(&self, out: &mut Text, word: u64) -> bool
        requires { 1 ≤ self.now.request.width }
    {
        let is_bare = matches!(self.telling.by_address(), Some(By::Bare));
        if is_bare
            || self
                .witness
                .has_word(self.profile.extensions, self.request, word)
        {
            return false;
        }
        let (va, pte) = (Hex(self.request.va.0), Hex(word));
        write!(out, "no walk for {va} ends or ended at a PTE {pte}");
        self.telling.put_last(out, word);
        true
    }

    /// Appends what there is to a fault that the client tells by a PTE at which no walk for the access ends or ended: which check of the walk or
    /// which MODE leads there, or else that none does; returns whether it tells one.
    fn put_unknown_at_fault(&self, out: &mut Text) -> bool
        requires { 1 ≤ self.now.request.width }
    {
        let (End::Refused(_), Some(word)) = (self.claim.end, self.claim.by) else {
            return false;
        };
        if self
            .witness
            .has_word(self.profile.extensions, self.request, word)
        {
            return false;
        }
        self.telling.put_slip(out, self.claim) || self.put_mode(out) || self.put_unknown(out, word)
    }

    /// Appends under which other MODE of satp what the client tells would be so; returns whether it would under one that the hart has, and no
    /// fence and no ASID says why it is not.
    fn put_mode(&self, out: &mut Text) -> bool
        requires { 1 ≤ self.now.request.width }
    {
        let older = self
            .witness
            .older(self.profile.extensions, self.request, self.claim, false);
        if !older.is_nothing() {
            return false;
        }
        let Profile { sv48, sv57, .. } = self.profile;
        // a hart with Sv48 has Sv39, and one with Sv57 has Sv48 (4.5, 4.6)
        self.telling
            .put_mode(out, self.claim, [true, sv48 || sv57, sv57])
    }

    /// Appends what PTEs that the hart may read or hold say against what the client tells; returns whether one says something.
    fn put_held(&self, out: &mut Text) -> bool
        requires { 1 ≤ self.now.request.width }
    {
        let (telling, claim) = (&self.telling, self.claim);
        if self.put_unknown_at_fault(out) {
            return true;
        }
        if telling.put_present(out, claim) || telling.put_slip(out, claim) || self.put_mode(out) {
            return true;
        }
        match self.claim.by {
            Some(word) => self.put_by(out, word) || self.put_unknown(out, word),
            None => self.put_difference(out) || self.put_refused(out),
        }
    }

    /// Appends what is permitted in place of what the client tells.
    fn put_instead(&self, out: &mut Text) {
        match self.by_another() {
            Some(told) => self.put_another(out, told),
            None => self.telling.put_walk(out, self.claim),
        }
    }

    /// Appends what is permitted in place of a fault that the client tells; returns whether it tells one.
    fn put_fault(&self, out: &mut Text) -> bool {
        if let End::Granted { .. } = self.claim.end {
            return false;
        }
        self.put_instead(out);
        true
    }

    /// Appends what is permitted in place of what the client tells, if no reason was told (`is_held`: one was), or the fence or the ASID that is
    /// one.
    fn put_older(&self, out: &mut Text, older: &Older, is_held: bool) {
        if older.is_nothing() {
            if !is_held {
                self.put_instead(out);
            }
            return;
        }
        // what was is told first of a PTE that the client tells, and what is of any
        let is_told = is_held || self.claim.by.is_none() && self.put_fault(out);
        if is_told {
            out.push_str("; or ");
        }
        self.witness
            .put_older(out, self.profile.extensions, self.request.va, older)
    }

    /// Appends why the outcome is not permitted.
    pub fn put(&self, out: &mut Text)
        requires { 1 ≤ self.now.request.width }
    {
        if let Some(text) = self.by_address() {
            return out.push_str(text);
        }
        let is_held = self.put_held(out);
        let older = self
            .witness
            .older(self.profile.extensions, self.request, self.claim, is_held);
        self.put_older(out, &older, is_held);
        older.put_use(out)
    }
}
