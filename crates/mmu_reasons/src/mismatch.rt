// Why the walk over memory, satp and PMP as they are doesn't come to what a client tells, in words: methods of `Telling`.

ghost use Rattle.std.specs.Prelude.{◌≤◌};

use crate::causes::{access_text, mode_text};
use crate::numbers::{put_hex, put_number};
use crate::reasons::{Why, why_fault};
use crate::recorded::A_AND_D;
use crate::telling::Telling;
use crate::ways::{Stop, end_of, put_pte, stop_of};
use access_history::Outcome;
use access_judge::{Log, Step, Told, Way};
use mmu_requests::{Claim, End};
use sv39_entry::{Access, Kind, Mode};
use text_builder::Text;
use walk_rules::{Extensions, MemoryType, Privilege, Status, has_ad, leads_to, reach};

/// The size of a page in which the offset has so many bits.
fn page_size(bits: u32) -> &'static str {
    match bits {
        12 => "4 KiB",
        16 => "64 KiB",
        21 => "2 MiB",
        30 => "1 GiB",
        39 => "512 GiB",
        _ => "256 TiB",
    }
}

impl Telling<'_> {
    /// Whether a leaf would be a page fault under other extensions, status or mode.
    fn would_fault(&self, extensions: Extensions, status: Status, mode: Mode, step: &Step) -> bool {
        why_fault(
            extensions,
            status,
            mode,
            self.request.kind,
            step.entry,
            step.level,
        )
        .is_some()
    }

    /// By which bits of mstatus a leaf doesn't fault, if by some.
    fn by_status(&self, step: &Step, mode: Mode) -> Option<&'static str> {
        let (extensions, status) = (self.extensions, self.request.status);
        let (sum, mxr) = (false, false);
        let by_mxr = self.would_fault(extensions, Status { mxr, ..status }, mode, step);
        let by_sum = self.would_fault(extensions, Status { sum, ..status }, mode, step);
        match (by_mxr, by_sum) {
            (true, true) => Some("R is 0 and U is 1 in S-mode, but X, MXR and SUM are 1"),
            (true, false) => Some("R is 0, but X and MXR are 1"),
            (false, true) => Some("U is 1 in S-mode, but SUM is 1"),
            (false, false) => None,
        }
    }

    /// By which extension of the profile a PTE is a leaf, if by one.
    fn by_extension(&self, step: &Step, mode: Mode) -> Option<&'static str> {
        let (extensions, status) = (self.extensions, self.request.status);
        let svnapot = false;
        if self.would_fault(
            Extensions {
                svnapot,
                ..extensions
            },
            status,
            mode,
            step,
        ) {
            return Some("bit 63 (N) is set, and the profile has Svnapot");
        }
        let svpbmt = false;
        if self.would_fault(
            Extensions {
                svpbmt,
                ..extensions
            },
            status,
            mode,
            step,
        ) {
            return Some("bits 62 and 61 (PBMT) are set, and the profile has Svpbmt");
        }
        None
    }

    /// Whether a leaf at which the walk ends grants the access, and sets A and D first if they lack.
    fn is_granted(&self, way: &Way, step: &Step) -> bool {
        let Some(memory_type) = MemoryType::of_entry(step.entry) else {
            return false;
        };
        let pa = leads_to(step.entry, step.level.min(4), self.request.va);
        let update = if has_ad(self.request.kind, step.entry) {
            None
        } else {
            Some(self.update_of(step))
        };
        let granted = Outcome::Granted {
            pa,
            memory_type,
            update,
        };
        self.comes_to(way, granted)
    }

    /// By what a leaf grants the access, if that is one bit of mstatus or one extension, so that a hart that overlooks it has a page fault.
    fn overlooked(&self, step: &Step) -> Option<&'static str> {
        if !has_ad(self.request.kind, step.entry) {
            return Some("A or D is 0, but the profile has Svadu");
        }
        let mode = self.mode()?;
        if let Some(text) = self.by_status(step, mode) {
            return Some(text);
        }
        self.by_extension(step, mode)
    }

    /// The leaf at the end of a way by which the access is granted.
    fn granted_by(&self, way: &Way) -> Option<Step> {
        let step = end_of(self.extensions, way)?;
        if self.is_granted(way, &step) {
            Some(step)
        } else {
            None
        }
    }

    /// The exception codes of the page fault and of the access fault that the access may have.
    fn fault_causes(&self) -> (u64, u64) {
        let kind = self.request.kind;
        (kind.page_fault_cause(), kind.access_fault_cause())
    }

    /// Whether a leaf would allow the access, as a client tells (`is_granted`) or does not, if MPRV acted in this mode.
    fn is_by_mprv(&self, step: &Step, is_granted: bool) -> bool {
        let (status, kind) = (self.request.status, self.request.kind);
        match status.mpp.translation_mode() {
            Some(mode) => {
                status.mprv
                    && status.allows(mode, kind, step.entry, step.level.min(4)) == is_granted
            }
            None => false,
        }
    }

    /// Appends that MPRV gives the access the mode of MPP, if it does; or that it does not, if what a client tells would be so if it did.
    /// `is_granted`: whether that is a grant by a leaf.
    fn put_mprv(&self, out: &mut Text, step: &Step, is_granted: bool) {
        if self.request.privilege == Privilege::Machine {
            let mode = mode_text(self.privilege());
            out.push_str(", as MPRV is 1 and MPP ");
            out.push_str(mode)
        } else if self.is_by_mprv(step, is_granted) {
            out.push_str(", as MPRV acts in M-mode alone")
        }
    }

    /// Appends by which right and in which mode a leaf grants the access.
    fn put_right(&self, out: &mut Text, step: &Step) {
        let right = match self.request.kind {
            Access::Fetch => "X",
            Access::Load => "R",
            Access::Store => "W",
        };
        let mode = match self.mode() {
            Some(Mode::User) => "U is 1, in U-mode",
            _ => "U is 0, in S-mode",
        };
        let canonical = match self.request.va.0 >> 63 {
            0 => "",
            _ => "the address is canonical, ",
        };
        out.push_str(": ");
        out.push_str(canonical);
        out.push_str(right);
        out.push_str(" is 1, and ");
        out.push_str(mode);
        self.put_mprv(out, step, false)
    }

    /// Appends that a leaf grants the access.
    fn put_grant(&self, out: &mut Text, step: &Step) {
        put_pte(out, self.extensions, step);
        let access = access_text(self.request.kind);
        out.push_str(" grants the ");
        out.push_str(access)
    }

    /// Appends by what a leaf grants an access that a client tells to be a page fault, if that is a bit of mstatus or an extension; returns
    /// whether it is.
    fn put_overlooked(&self, out: &mut Text, step: &Step) -> bool {
        let Some(text) = self.overlooked(step) else {
            return false;
        };
        self.put_grant(out, step);
        out.push_str(": ");
        out.push_str(text);
        self.put_mprv(out, step, false);
        true
    }

    /// Appends that a walk grants an access that a client tells to be a page fault, and by what, if that is a bit of mstatus or an extension;
    /// returns whether it is.
    fn put_granted(&self, out: &mut Text, claim: Claim) -> bool {
        let Some(way) = self.walk() else {
            return false;
        };
        match self.granted_by(way) {
            Some(step) if claim.is_by(Some(step.entry.to_word())) => {
                self.put_overlooked(out, &step)
            }
            _ => false,
        }
    }

    /// The PTE at which the walk ends with a page fault, and why it does; `None` for a leaf that lacks A or D alone where the hart sets them.
    fn faulting(&self) -> Option<(Step, Why)> {
        let step = end_of(self.extensions, self.walk()?)?;
        let why = self.wrong_in(&step)?;
        if why.step == 7 && self.extensions.ad.may_update() {
            return None;
        }
        Some((step, why))
    }

    /// Appends why the walk has a page fault for an access that a client tells to be granted, if the PTE at which it ends leads there; returns
    /// whether it does.
    fn put_lack(&self, out: &mut Text, claim: Claim, pa: u64) -> bool {
        let Some((step, why)) = self.faulting() else {
            return false;
        };
        let there = leads_to(step.entry, step.level.min(4), self.request.va);
        if there != pa || !claim.is_by(Some(step.entry.to_word())) {
            return false;
        }
        put_pte(out, self.extensions, &step);
        out.push_str(" leads there, but ");
        out.push_str(why.text);
        match why.step {
            5 => self.put_mprv(out, &step, true),
            7 if claim.update.is_some() => out.push_str(", and the profile has Svade"),
            _ => {}
        }
        true
    }

    /// Appends why an access that isn't translated is refused at the address, if a client tells that it is granted there; returns whether it is.
    fn put_refused_bare(&self, out: &mut Text, claim: Claim) -> bool {
        let va = self.request.va.0;
        let is_told = match claim.end {
            End::Granted { pa, .. } => pa == va,
            End::Refused(_) => false,
        };
        if self.walk().is_some() || !is_told || !self.is_refused_at(va) {
            return false;
        }
        self.put_fault_at(out, va);
        true
    }

    /// Whether a client tells the virtual address as the physical one, by no PTE.
    fn is_told_bare(&self, claim: Claim, pa: u64) -> bool {
        pa == self.request.va.0 && claim.by.is_none() && claim.update.is_none()
    }

    /// Appends that the access is translated, if a client tells the virtual address as the physical one, by no PTE; returns whether it does.
    fn put_translated(&self, out: &mut Text, claim: Claim, pa: u64) -> bool {
        if self.walk().is_none() || !self.is_told_bare(claim, pa) {
            return false;
        }
        let lead = match self.request.privilege {
            Privilege::Machine => "MPRV is 1, and ",
            _ => "",
        };
        out.push_str("the access is translated: ");
        out.push_str(lead);
        put_hex(out, "satp is ", self.recorded.unit.satp().to_word());
        true
    }

    /// Appends what the walk over all as it is says against what a client tells, if one bit or check decides; returns whether one does.
    pub fn put_present(&self, out: &mut Text, claim: Claim) -> bool {
        match claim.end {
            End::Granted { pa, .. } => {
                self.put_refused_bare(out, claim) || self.put_lack(out, claim, pa)
            }
            End::Refused(cause) => {
                cause == self.request.kind.page_fault_cause() && self.put_granted(out, claim)
            }
        }
    }

    /// Appends to what an access comes by the PTE that a client tells, if that is not what the client tells; returns whether it is told. `told`: an
    /// outcome by that PTE, also one by A or D alone.
    pub fn put_by(&self, out: &mut Text, claim: Claim, told: &Told) -> bool {
        let Some(step) = end_of(self.extensions, &told.way) else {
            return false;
        };
        match (claim.end, told.outcome) {
            (End::Granted { pa, .. }, Outcome::Refused { .. }) => {
                self.put_not_granted(out, told, &step, pa)
            }
            (End::Granted { pa, .. }, Outcome::Granted { pa: there, .. }) if pa != there => {
                self.put_leads(out, &step, Some(pa));
                true
            }
            (End::Refused(cause), Outcome::Granted { .. })
                if cause == self.request.kind.page_fault_cause() => {
                self.put_grants(out, &step);
                true
            }
            (End::Refused(cause), Outcome::Refused { cause: other, .. }) if cause != other => {
                self.put_other_fault(out, told, &step, cause)
            }
            _ => false,
        }
    }

    /// Appends why an access is refused by a PTE by which a client tells it to be granted; returns whether it is told.
    fn put_not_granted(&self, out: &mut Text, told: &Told, step: &Step, pa: u64) -> bool {
        let level = step.level.min(4);
        if self.extensions.kind(step.entry, level) != Kind::Leaf {
            self.put_refusal(out, &told.way, &told.outcome);
            return true;
        }
        if leads_to(step.entry, level, self.request.va) == pa {
            return self.put_refused(out, told);
        }
        self.put_leads(out, step, Some(pa));
        true
    }

    /// Appends that a PTE has the other fault of the access than the one that a client tells; returns whether that is one of its faults.
    fn put_other_fault(&self, out: &mut Text, told: &Told, step: &Step, cause: u64) -> bool {
        let (page, fault) = self.fault_causes();
        if cause == page && has_ad(self.request.kind, step.entry) {
            self.put_refused_grant(out, step);
            return true;
        }
        if cause == page {
            self.put_refusal(out, &told.way, &told.outcome);
            self.put_no_page_fault(out);
            return true;
        }
        let Some(why) = self.wrong_in(step) else {
            return false;
        };
        if cause != fault {
            return false;
        }
        put_pte(out, self.extensions, step);
        put_number(out, " gives page fault ", page);
        put_number(out, ", not access fault ", fault);
        out.push_str(": ");
        out.push_str(why.text);
        true
    }

    /// Appends that a leaf grants the access, in brackets by what, if that is a bit of mstatus or an extension, but that it leads where PMP as it
    /// is, or the memory, refuses it.
    fn put_refused_grant(&self, out: &mut Text, step: &Step) {
        self.put_grant(out, step);
        if let Some(text) = self.overlooked(step) {
            out.push_str(" (");
            out.push_str(text);
            out.push_str(")")
        }
        out.push_str(", but ");
        self.put_fault_at(
            out,
            leads_to(step.entry, step.level.min(4), self.request.va),
        );
        self.put_no_page_fault(out)
    }

    /// Appends that a leaf grants the access, and by what; or that it leads where PMP as it is, or the memory, refuses it.
    fn put_grants(&self, out: &mut Text, step: &Step) {
        let there = leads_to(step.entry, step.level.min(4), self.request.va);
        if !self.is_refused_at(there) && self.put_overlooked(out, step) {
            return;
        }
        if self.is_refused_at(there) {
            return self.put_refused_grant(out, step);
        }
        self.put_grant(out, step);
        self.put_right(out, step)
    }

    /// Appends where a leaf leads; `pa`: where a client tells that it does, if it tells so.
    fn put_leads(&self, out: &mut Text, step: &Step, pa: Option<u64>) {
        let level = step.level.min(4);
        let there = leads_to(step.entry, level, self.request.va);
        put_pte(out, self.extensions, step);
        match self.wrong_in(step) {
            Some(why) if why.step == 6 => {
                out.push_str(" leads nowhere: ");
                return out.push_str(why.text);
            }
            _ => {}
        }
        put_hex(out, " leads to ", there);
        let bits = reach(step.entry, level);
        match pa {
            Some(pa) if pa >> bits == there >> bits => {
                out.push_str(": the offset in its page of ");
                out.push_str(page_size(bits));
                put_number(out, " is bits ", bits.saturating_sub(1).into());
                out.push_str(" to 0 of the address")
            }
            _ => {}
        }
    }

    /// Appends that an access fault, which was told, is not the page fault that a client tells.
    fn put_no_page_fault(&self, out: &mut Text) {
        let (page, fault) = self.fault_causes();
        put_number(out, ": that is access fault ", fault);
        put_number(out, ", not page fault ", page)
    }

    /// Appends at which PTE the walk ends, which is another than the one that a client tells.
    pub fn put_last(&self, out: &mut Text, told: u64) {
        let Some(way) = self.walk() else {
            return;
        };
        if let Some(step) = end_of(self.extensions, way) {
            out.push_str(": it ends at ");
            put_pte(out, self.extensions, &step);
            if step.entry.to_word() | A_AND_D == told | A_AND_D {
                out.push_str(", which differs in A or D alone")
            }
        }
    }

    /// Appends that the walk ends with a page fault, and why. `told`: the exception code that a client tells, if it tells a fault.
    fn put_page_fault_at(&self, out: &mut Text, step: &Step, why: Why, told: Option<u64>) {
        let (page, fault) = self.fault_causes();
        if told == Some(fault) {
            put_number(out, "the walk ends with page fault ", page);
            put_number(out, ", not access fault ", fault);
            out.push_str(": ")
        } else {
            out.push_str("the walk ends with a page fault: ")
        }
        put_pte(out, self.extensions, step);
        out.push_str(": ");
        out.push_str(why.text);
        self.put_mprv(out, step, told.is_none())
    }

    /// Appends at which PTE the walk ends, if a client tells that the access is granted at a physical address.
    fn put_stop(&self, out: &mut Text, step: &Step, pa: u64) {
        let level = step.level.min(4);
        if self.extensions.kind(step.entry, level) != Kind::Leaf {
            out.push_str("the walk ends at ");
            return put_pte(out, self.extensions, step);
        }
        match self.wrong_in(step) {
            Some(why) if leads_to(step.entry, level, self.request.va) == pa => {
                self.put_page_fault_at(out, step, why, None)
            }
            _ => self.put_leads(out, step, Some(pa)),
        }
    }

    /// Appends at what the walk ends, if a client tells that the access is granted at a physical address.
    fn put_end(&self, out: &mut Text, way: &Way, pa: u64) {
        match stop_of(self.extensions, way) {
            Some(Stop::At(step)) => self.put_stop(out, &step, pa),
            Some(Stop::Unread { level, table }) => self.put_fault_below(out, level, table),
            None => {}
        }
    }

    /// Appends that a leaf grants an access for which a client tells a fault.
    fn put_no_fault(&self, out: &mut Text, step: &Step, cause: u64) {
        self.put_grants(out, step);
        if cause == self.request.kind.access_fault_cause() {
            let there = leads_to(step.entry, step.level.min(4), self.request.va);
            put_hex(out, ", and nothing refuses it at ", there)
        }
    }

    /// Appends to what the walk comes by the PTE at which it ends, in place of a fault that a client tells.
    fn put_other_at(&self, out: &mut Text, way: &Way, step: &Step, cause: u64) {
        if self.is_granted(way, step) {
            return self.put_no_fault(out, step, cause);
        }
        match self.wrong_in(step) {
            Some(why) if why.step != 7 || !self.extensions.ad.may_update() => {
                self.put_page_fault_at(out, step, why, Some(cause))
            }
            _ => {
                if has_ad(self.request.kind, step.entry) {
                    return self.put_refused_grant(out, step);
                }
                self.put_fault_by(out, step, false);
                self.put_no_page_fault(out)
            }
        }
    }

    /// Appends what the walk comes to in place of a fault that a client tells.
    fn put_other(&self, out: &mut Text, way: &Way, cause: u64) {
        match stop_of(self.extensions, way) {
            Some(Stop::At(step)) => self.put_other_at(out, way, &step, cause),
            Some(Stop::Unread { level, table }) => {
                self.put_fault_below(out, level, table);
                self.put_no_page_fault(out)
            }
            None => {}
        }
    }

    /// Appends that a fault which a client tells is none that its access may have; returns whether it is so.
    fn put_other_cause(&self, out: &mut Text, cause: u64) -> bool {
        let (page, fault) = self.fault_causes();
        if cause == page || cause == fault {
            return false;
        }
        out.push_str("a ");
        out.push_str(access_text(self.request.kind));
        put_number(out, " has page fault ", page);
        put_number(out, " and access fault ", fault);
        true
    }

    /// Appends that the access isn't translated, with what follows from it, and why.
    fn put_untranslated(&self, out: &mut Text, so: &str) {
        let (fetches, mprv) = (self.request.kind == Access::Fetch, self.request.status.mprv);
        let why = match self.privilege() {
            Privilege::Machine if fetches && mprv => "MPRV does not act on a fetch",
            Privilege::Machine if mprv => "MPRV is 1, but MPP is M",
            Privilege::Machine => "it is of M-mode",
            _ => "satp is Bare",
        };
        out.push_str("the access isn't translated");
        out.push_str(so);
        out.push_str(": ");
        out.push_str(why)
    }

    /// Appends what an access that isn't translated comes to in place of a grant at a physical address that a client tells.
    fn put_bare(&self, out: &mut Text, pa: u64) {
        if pa == self.request.va.0 {
            self.put_fault_at(out, pa)
        } else {
            self.put_untranslated(out, "")
        }
    }

    /// Appends what an access that isn't translated comes to in place of a fault that a client tells.
    fn put_for_bare_fault(&self, out: &mut Text, cause: u64) {
        let pa = self.request.va.0;
        if cause == self.request.kind.access_fault_cause() {
            self.put_untranslated(out, "");
            out.push_str(", and nothing refuses the ");
            out.push_str(access_text(self.request.kind));
            return put_hex(out, " at ", pa);
        }
        if self.is_refused_at(pa) {
            self.put_untranslated(out, "");
            out.push_str(", and ");
            self.put_fault_at(out, pa);
            return self.put_no_page_fault(out);
        }
        self.put_untranslated(out, ", and has no page fault")
    }

    /// Appends what the walk comes to in place of a fault that a client tells.
    fn put_for_fault(&self, out: &mut Text, cause: u64) {
        if self.put_other_cause(out, cause) {
            return;
        }
        match self.walk() {
            Some(way) => self.put_other(out, way, cause),
            None => self.put_for_bare_fault(out, cause),
        }
    }

    /// Appends what the walk comes to in place of a grant at a physical address that a client tells.
    fn put_for_grant(&self, out: &mut Text, claim: Claim, pa: u64) {
        if self.put_translated(out, claim, pa) {
            return;
        }
        match self.walk() {
            Some(way) => self.put_end(out, way, pa),
            None => self.put_bare(out, pa),
        }
    }

    /// Appends what the walk comes to in place of what a client tells.
    pub fn put_walk(&self, out: &mut Text, claim: Claim) {
        match claim.end {
            End::Granted { pa, .. } => self.put_for_grant(out, claim, pa),
            End::Refused(cause) => self.put_for_fault(out, cause),
        }
    }
}
