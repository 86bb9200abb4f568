// `MmuPlayer`: a struct, a reference MMU that answers lines.

ghost use Rattle.std.specs.Prelude.{◌≡◌, ◌≤◌, ◌/◌, ◌%◌, None, IfNone, IfOk, IfSome, MatchOption, OnOk, map, true};
ghost use Rattle.access_history.specs.Permits.{Permits, satp_of};
ghost use Rattle.access_history.specs.declared.event.Event.TheVariants as event;
ghost use Rattle.access_history.specs.declared.outcome.Outcome.{Outcome};
ghost use Rattle.access_judge.specs.Findings.{listed};
ghost use Rattle.access_judge.specs.Search.{is_address_under};
ghost use Rattle.mmu.specs.Units.{happened};
ghost use Rattle.mmu_lines.specs.Claims.{Tells};
ghost use Rattle.mmu_reasons.specs.Answers.{IsError};
ghost use Rattle.mmu_lines.specs.Requests.{IsAnswer, IsAnswered, IsAskedOf, IsDone, IsFenced, IsJudged, IsPlaced, IsPlacedIn, IsPmpWritten, IsSound, ShowPermitted, cut, outcome_in, stored};
ghost use Rattle.mmu_lines.specs.States.{begun, state_of, with_past};
ghost use Rattle.mmu_requests.specs.Lines.{IsNothing};
ghost use Rattle.mmu_requests.specs.Profiles.{plain_with};
ghost use Rattle.mmu_requests.specs.declared.requests.Request.TheVariants as asks;
ghost use Rattle.script_language.specs.Lines.{fields_of};
ghost use Rattle.walk_rules.specs.Addresses.{top_of};

use crate::claims::permitted_outcome;
use crate::denials::Denial;
use crate::writes::{cut_asid, lock_of, satp_written};
use access_history::{Outcome, Update};
use access_judge::{Findings, Log, Told, Way, faulting_part, outcomes};
use line_fields::Mistake;
use mmu_reasons::{Answer, Lock, OutcomeLine, Recorded, Telling, Witness, put_walk_steps, seek};
use mmu_requests::{Claim, End, Profile, Refusal, Request, read_line};
use std::alloc::{AllocError, Global};
use sv39_entry::{Entry, Satp, Va};
use text_builder::Text;
use walk_lines::Hex;
use walk_rules::{MemoryType, PmpEntry, Privilege, Status, is_canonical, top_level};

/// The way of an outcome that comes by no walk.
const NO_WAY: Way = Way {
    root: None,
    steps: [None; 5],
};

/// mstatus at the start.
const FIRST_STATUS: Status = Status {
    sum: false,
    mxr: false,
    mprv: false,
    mpp: Privilege::User,
};

/// A reference MMU that answers lines.
#[derive(Drop)]
pub struct MmuPlayer {
    alloc: Global,
    profile: Profile,
    status: Status,
    recorded: Recorded,
    witness: Witness,
    /// The number of the last line.
    line: u64,
    findings: Findings,
}

/// What a client tells, with the memory type of an outcome.
fn with_type(claim: Claim, outcome: Outcome) -> Claim {
    match (claim.end, outcome) {
        (End::Granted { pa, .. }, Outcome::Granted { memory_type, .. }) => {
            let memory_type = Some(memory_type);
            let end = End::Granted { pa, memory_type };
            Claim { end, ..claim }
        }
        _ => claim,
    }
}

impl MmuPlayer {
    /// Returns a player without memory, with satp 0 (Bare), the plain profile and no events.
    pub fn new(alloc: Global) -> MmuPlayer
        ensures { state_of result ≡ begun (plain_with true) }
    {
        MmuPlayer {
            alloc,
            profile: Profile::plain(),
            status: FIRST_STATUS,
            recorded: Recorded::new(alloc),
            witness: Witness::new(alloc),
            line: 0,
            findings: Findings::new(alloc),
        }
    }

    /// Makes all as at the start, but for the profile.
    fn reset(&mut self)
        ensures { state_of self.new ≡ begun self.old.profile }
    {
        self.status = FIRST_STATUS;
        self.recorded.reset(self.profile.pmp_entries);
        self.witness.reset(self.profile.pmp_entries);
    }

    fn store(&mut self, address: u64, word: u64) -> Result<(), AllocError>
        ensures { OnOk result (state_of self.new ≡ with_past (happened (event.Store (address / 4096) (address % 4096 / 8) word) (state_of self.old).past) (state_of self.old)) }
    {
        self.witness.store(self.line, address, word)?;
        self.recorded.store(self.line, address, word)
    }

    /// Writes satp, and returns what it holds then.
    fn write_satp(&mut self, word: Satp) -> Result<Answer, AllocError>
        ensures { IfOk result (IsDone (state_of self.old) (asks.Satp word) (state_of self.new)) }
    {
        if let Some(satp) = satp_written(&self.profile, word) {
            self.witness.write_satp(self.line, satp)?;
            self.recorded.write_satp(self.line, satp, satp.asid())?;
        }
        Ok(Answer::Satp(Hex(self.recorded.unit.satp().to_word())))
    }

    /// Writes the registers of a PMP entry that are not locked.
    fn write_pmp(&mut self, number: usize, entry: PmpEntry) -> Result<Answer, AllocError>
        ensures { IfOk result (IsPmpWritten (state_of self.old) number entry (state_of self.new)) }
    {
        let entries = self.recorded.unit.pmp();
        if number >= entries.len() {
            return self.no_such_entry();
        }
        let (lock, address) = (lock_of(entries, number), entries[number].address);
        let config = entry.config;
        match lock {
            Lock::Nothing => self.set_pmp(number, entry)?,
            Lock::Address => self.set_pmp(number, PmpEntry { config, address })?,
            Lock::All => {}
        }
        Ok(Answer::Locked(lock))
    }

    fn set_pmp(&mut self, number: usize, entry: PmpEntry) -> Result<(), AllocError>
        ensures { OnOk result (state_of self.new ≡ with_past (happened (event.WritePmp number entry) (state_of self.old).past) (state_of self.old)) }
    {
        self.witness.write_pmp(self.line, number, entry)?;
        self.recorded.write_pmp(self.line, number, entry)
    }

    fn no_such_entry(&self) -> Result<Answer, AllocError>
        ensures { IfOk result IsError }
    {
        let count = self.profile.pmp_entries;
        let text = format!(in self.alloc;
            "the profile has {count} PMP entries, numbered from 0: \"profile pmp16\" and \"profile pmp64\" begin anew with more"
        )?;
        Ok(Answer::mistake(Mistake::of_line(text)))
    }

    /// Appends the walk for an address over memory, satp and PMP as they are: for each PTE that it reads a line, after eight blanks, with the PTE's
    /// place, its word and to what it leads. Nothing under Bare, or of an address that is not canonical.
    pub fn put_walk_steps(&self, out: &mut Text, va: u64) {
        let va = Va(va);
        if self.is_address(va) {
            put_walk_steps(out, &self.recorded, self.profile.extensions, va)
        }
    }

    /// Whether an address is valid under satp: canonical, or any under Bare.
    fn is_address(&self, va: Va) -> bool
        ensures { result ≡ is_address_under (top_of (satp_of (state_of self.now).past)) va.0 }
    {
        match top_level(self.recorded.unit.satp()) {
            Some(top) => is_canonical(top, va),
            None => true,
        }
    }

    fn cut_asid(&self, asid: Option<u16>) -> Option<u16>
        ensures { result ≡ cut (state_of self.now) asid }
    {
        match asid {
            Some(asid) => Some(cut_asid(&self.profile, asid)),
            None => None,
        }
    }

    fn fence(&mut self, va: Option<Va>, asid: Option<u16>) -> Result<Answer, AllocError>
        ensures { IfOk result (IsFenced (state_of self.old) va asid (state_of self.new)) }
    {
        if let Some(va) = va {
            if !self.is_address(va) {
                return Ok(Answer::NoEffect(Hex(va.0)));
            }
        }
        let written = asid;
        let asid = self.cut_asid(asid);
        self.witness.fence(self.line, va, asid, written)?;
        self.recorded.fence(self.line, va, asid)?;
        Ok(Answer::Ok)
    }

    /// An access with the history; `found` are those of its outcomes that were found.
    fn telling(&self, request: access_history::Request, found: &[Told]) -> Telling<'_> {
        let extensions = self.profile.extensions;
        Telling::new(self.alloc, &self.recorded, extensions, request, found)
    }

    /// The outcomes that were found, as they are shown.
    fn lines(&self, request: access_history::Request) -> Result<Vec<OutcomeLine>, AllocError>
        ensures { IfOk result (λ lines. map outcome_in lines.items ≡ listed self.now.findings) }
    {
        let telling = self.telling(request, self.findings.found());
        let mut lines = Vec::new(self.alloc);
        'outcomes: for told in self.findings.found() {
            lines.push(telling.line(told)?)?;
        }
        Ok(lines)
    }

    /// The outcomes of an access, as they are shown.
    fn listed(&mut self, request: access_history::Request) -> Result<Vec<OutcomeLine>, AllocError>
        requires { 1 ≤ request.width }
        ensures shown { IfOk result (λ lines. ShowPermitted (state_of self.old) request lines.items) }
        ensures same { state_of self.new ≡ state_of self.old }
    {
        let extensions = self.profile.extensions;
        outcomes(&self.recorded.unit, extensions, request, &mut self.findings)?;
        self.lines(request)
    }

    /// Answers that the outcome that a client tells is not permitted.
    fn deny(&mut self, request: access_history::Request, claim: Claim) -> Result<Answer, AllocError>
        requires width { 1 ≤ request.width }
        requires none { claim.by ≡ None → (o : Outcome) → Permits (state_of self.old).profile.extensions (state_of self.old).past request o → Tells claim o → ⊥ }
        ensures { IfOk result (IsJudged (state_of self.old) request claim (state_of self.new)) }
    {
        let permitted = self.listed(request)?;
        let denial = Denial {
            recorded: &self.recorded,
            witness: &self.witness,
            profile: self.profile,
            telling: self.telling(request, &[]),
            found: self.findings.found(),
            request,
            claim,
        };
        let mut text = Text::new(self.alloc);
        denial.put(&mut text);
        let reason = text.finish()?;
        Ok(Answer::NotPermitted { reason, permitted })
    }

    /// Stores the PTE that a hart wrote to set A and D.
    fn store_update(&mut self, update: Option<Update>) -> Result<(), AllocError>
        requires { IsPlaced update }
        ensures { OnOk result (state_of self.new ≡ with_past (stored update (state_of self.old).past) (state_of self.old)) }
    {
        match update {
            Some(update) => {
                let address = update.table * 4096 + update.index as u64 * 8;
                self.store(address, update.word)
            }
            None => Ok(()),
        }
    }

    /// A way to an outcome that a client means; `None` if it is by another PTE alone.
    fn way_to(
        &self,
        request: access_history::Request,
        claim: Claim,
        outcome: Outcome,
    ) -> Option<Way>
        requires { 1 ≤ request.width }
        ensures { IfNone result (claim.by ≡ None → ⊥) }
    {
        let exact = with_type(claim, outcome);
        let (unit, extensions) = (&self.recorded.unit, self.profile.extensions);
        let told = seek(unit, extensions, request, exact);
        match (told, claim.by) {
            (Some(told), _) => Some(told.way),
            (None, None) => Some(NO_WAY),
            (None, Some(_)) => None,
        }
    }

    /// The memory type by the PTE that a client tells, else by the walk.
    fn likely_type(&self, request: access_history::Request, claim: Claim) -> MemoryType {
        match claim.by {
            Some(word) => MemoryType::of_entry(Entry::from_word(word)).unwrap_or(MemoryType::Pma),
            None => self.telling(request, &[]).memory_type(),
        }
    }

    /// The outcome that a client tells with what it is by; `None` if it is by another PTE alone.
    fn told_line(
        &self,
        request: access_history::Request,
        claim: Claim,
        outcome: Outcome,
    ) -> Result<Option<OutcomeLine>, AllocError>
        requires { 1 ≤ request.width }
        ensures some { IfOk result (λ line. IfSome line (λ it. it.outcome ≡ outcome)) }
        ensures none { IfOk result (λ line. IfNone line (claim.by ≡ None → ⊥)) }
    {
        let telling = self.telling(request, &[]);
        let walked = Told {
            outcome,
            way: NO_WAY,
        };
        if let Some(line) = telling.line_now(&walked, claim.by)? {
            return Ok(Some(line));
        }
        let Some(way) = self.way_to(request, claim, outcome) else {
            return Ok(None);
        };
        Ok(Some(telling.line_held(&Told { outcome, way })?))
    }

    /// Judges the outcome that a client tells, and stores what its hart set.
    fn judge(
        &mut self,
        request: access_history::Request,
        claim: Claim,
    ) -> Result<Answer, AllocError>
        requires width { 1 ≤ request.width }
        requires place { IsPlaced claim.update }
        ensures { IfOk result (IsJudged (state_of self.old) request claim (state_of self.new)) }
    {
        let first = self.likely_type(request, claim);
        let (unit, extensions) = (&self.recorded.unit, self.profile.extensions);
        let Some(outcome) = permitted_outcome(unit, extensions, request, &claim, first) else {
            return self.deny(request, claim);
        };
        let Some(line) = self.told_line(request, claim, outcome)? else {
            return self.deny(request, claim);
        };
        self.witness.go_by(self.line, request, claim.by)?;
        self.store_update(claim.update)?;
        Ok(Answer::Permitted(line))
    }

    /// The access of which an outcome that a client tells is judged: the whole access; or, if it is misaligned, a part of it that may have this
    /// fault.
    fn asked_of(&self, request: access_history::Request, claim: &Claim) -> access_history::Request
        requires { 1 ≤ request.width }
        ensures width { 1 ≤ result.width }
        ensures asked { IsAskedOf (state_of self.now) request claim.now result }
    {
        let End::Refused(cause) = claim.end else {
            return request;
        };
        let update = claim.update;
        let outcome = Outcome::Refused { cause, update };
        match faulting_part(
            &self.recorded.unit,
            self.profile.extensions,
            request,
            outcome,
        ) {
            Some(part) => part,
            None => request,
        }
    }

    fn access(
        &mut self,
        request: access_history::Request,
        claim: Option<Claim>,
    ) -> Result<Answer, AllocError>
        requires width { 1 ≤ request.width }
        requires place { IsPlacedIn claim }
        ensures { IfOk result (IsAnswered (state_of self.old) request claim (state_of self.new)) }
    {
        match claim {
            Some(claim) => self.judge(self.asked_of(request, &claim), claim),
            None => Ok(Answer::Outcomes(self.listed(request)?)),
        }
    }

    /// Does what a request asks for, and returns the answer.
    ///
    /// # Errors
    /// `AllocError`: the host is out of memory.
    pub fn request(&mut self, request: Request) -> Result<Answer, AllocError>
        requires { IsSound request }
        ensures { IfOk result (IsDone (state_of self.old) request (state_of self.new)) }
    {
        match request {
            Request::Version => Ok(Answer::Version),
            Request::Profile(profile) => {
                self.profile = profile;
                self.reset();
                Ok(Answer::Ok)
            }
            Request::Reset => {
                self.reset();
                Ok(Answer::Ok)
            }
            Request::Status(status) => {
                self.status = status;
                Ok(Answer::Ok)
            }
            Request::Pmp { number, entry } => self.write_pmp(number, entry),
            Request::Ram { address, end } => {
                self.witness.add(address, end)?;
                self.recorded.add(address, end)?;
                Ok(Answer::Ok)
            }
            Request::Mem { address, word } => {
                self.store(address, word)?;
                Ok(Answer::Ok)
            }
            Request::Satp(word) => self.write_satp(word),
            Request::Sfence { va, asid } => self.fence(va, asid),
            Request::Access {
                access,
                va,
                width,
                privilege,
                claim,
            } => {
                let asked = access_history::Request {
                    kind: access,
                    va,
                    width,
                    privilege,
                    status: self.status,
                };
                self.access(asked, claim)
            }
        }
    }

    /// Answers a line, without its line feed; `None` if it is empty or a comment. A faulty line changes nothing. Each call is one line of the
    /// input: answers name lines by their number, from 1.
    ///
    /// # Errors
    /// `AllocError`: the host is out of memory.
    pub fn line(&mut self, line: &[u8]) -> Result<Option<Answer>, AllocError>
        ensures { IfOk result (λ answer. MatchOption answer (IsNothing (fields_of line.now)
            × (state_of self.new ≡ state_of self.old)) (IsAnswer (fields_of line.now) (state_of self.old) (state_of self.new))) }
    {
        self.line = self.line.saturating_add(1);
        match read_line(self.alloc, line) {
            Ok(Some(request)) => Ok(Some(self.request(request)?)),
            Ok(None) => Ok(None),
            Err(Refusal::Mistake(mistake)) => Ok(Some(Answer::mistake(mistake))),
            Err(Refusal::Memory) => Err(AllocError),
        }
    }
}
