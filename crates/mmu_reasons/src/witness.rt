// `Witness`: a struct, the history as if no fence had been executed, and as if besides all were of one ASID. It says why an outcome is not
// permitted.

ghost use Rattle.std.specs.Prelude.{◌≤◌};

use crate::exclusions::Exclusion;
use crate::fences::{Fence, MOST_EVENTS};
use crate::recorded::Recorded;
use crate::seeking::{seek_by, ways_to};
use crate::spaces::Foreign;
use crate::uses::Use;
use access_history::Request;
use access_judge::{Log, Step};
use mmu_requests::Claim;
use std::alloc::{AllocError, Global};
use sv39_entry::{Kind, Satp, Va};
use text_builder::Text;
use walk_rules::{Extensions, PmpEntry};

/// A history without fences.
#[derive(Drop)]
pub struct Witness {
    pub(crate) alloc: Global,
    pub(crate) unfenced: Recorded,
    /// The history in which each satp has ASID 0, too.
    pub(crate) unspaced: Recorded,
    pub(crate) fences: Vec<Fence>,
    pub(crate) uses: Vec<Use>,
}

fn without_asid(satp: Satp) -> Satp {
    Satp::from_word(((satp.to_word() >> 60) << 60) + satp.ppn())
}

/// Whether a PTE is invalid at its level.
fn is_invalid(extensions: Extensions, step: &Step) -> bool {
    step.level <= 4 && extensions.kind(step.entry, step.level) == Kind::Invalid
}

/// Whether a PTE is a pointer at its level.
fn is_pointer(extensions: Extensions, step: &Step) -> bool {
    step.level <= 4 && extensions.kind(step.entry, step.level) == Kind::Pointer
}

/// Why an outcome is not permitted that was possible before a fence, or is by a PTE of another ASID.
#[derive(Clone, Copy)]
pub struct Older {
    foreign: Option<Foreign>,
    exclusion: Option<Exclusion>,
    /// Whether the PTE that the client tells was last used under the present ASID, so that a fence is the reason rather than the ASID.
    is_of_asid: bool,
    /// The access by that PTE that is told: the last before the fence, if one is the reason; else the one that explains what the client tells by
    /// SUM and MXR, or else the last, if no fence since covers the PTE.
    used: Option<Use>,
}

impl Older {
    /// Whether neither a fence nor an ASID is the reason.
    pub fn is_nothing(&self) -> bool {
        self.foreign.is_none() && self.exclusion.is_none()
    }

    /// Appends the access by the PTE that the client tells, if there was one.
    pub fn put_use(&self, out: &mut Text) {
        if let Some(used) = &self.used {
            used.put(out)
        }
    }
}

impl Witness {
    pub fn new(alloc: Global) -> Witness {
        Witness {
            alloc,
            unfenced: Recorded::new(alloc),
            unspaced: Recorded::new(alloc),
            fences: Vec::new(alloc),
            uses: Vec::new(alloc),
        }
    }

    pub fn reset(&mut self, pmp_entries: usize) {
        self.unfenced.reset(pmp_entries);
        self.unspaced.reset(pmp_entries);
        self.fences.clear();
        self.uses.clear();
    }

    /// Begins the history anew if it is long.
    fn bound(&mut self) -> Result<(), AllocError> {
        if self.unfenced.count() < MOST_EVENTS && self.fences.len() < MOST_EVENTS {
            return Ok(());
        }
        self.fences.clear();
        self.unfenced.fence(0, None, None)?;
        self.unspaced.fence(0, None, None)
    }

    pub fn add(&mut self, address: u64, end: u64) -> Result<(), AllocError> {
        self.unfenced.add(address, end)?;
        self.unspaced.add(address, end)
    }

    pub fn store(&mut self, line: u64, address: u64, word: u64) -> Result<(), AllocError> {
        self.bound()?;
        self.unfenced.store(line, address, word)?;
        self.unspaced.store(line, address, word)
    }

    pub fn write_satp(&mut self, line: u64, satp: Satp) -> Result<(), AllocError> {
        self.bound()?;
        self.unfenced.write_satp(line, satp, satp.asid())?;
        self.unspaced
            .write_satp(line, without_asid(satp), satp.asid())
    }

    pub fn write_pmp(
        &mut self,
        line: u64,
        number: usize,
        entry: PmpEntry,
    ) -> Result<(), AllocError> {
        self.bound()?;
        self.unfenced.write_pmp(line, number, entry)?;
        self.unspaced.write_pmp(line, number, entry)
    }

    /// The ASID of satp.
    pub(crate) fn asid(&self) -> u16 {
        self.unfenced.unit.satp().asid()
    }

    pub fn fence(
        &mut self,
        line: u64,
        va: Option<Va>,
        asid: Option<u16>,
        written: Option<u16>,
    ) -> Result<(), AllocError> {
        self.bound()?;
        let (moment, pmp_line) = (self.unfenced.count(), self.unfenced.pmp_line());
        let under = self.asid();
        Ok(
            self.fences.push(Fence {
                line,
                moment,
                va,
                asid,
                written,
                under,
                pmp_line,
            })?,
        )
    }

    /// Notes the PTE that a permitted access went by, if the client tells it.
    pub fn go_by(
        &mut self,
        line: u64,
        request: Request,
        by: Option<u64>,
    ) -> Result<(), AllocError> {
        let Some(word) = by else {
            return Ok(());
        };
        if self.uses.len() >= MOST_EVENTS {
            self.uses.clear();
        }
        let (under, va) = (self.asid(), request.va);
        let (privilege, status) = (request.privilege, request.status);
        Ok(
            self.uses.push(Use {
                line,
                word,
                va,
                privilege,
                status,
                under,
            })?,
        )
    }

    /// Whether what was held is rather a pointer to a PTE: the PTE is invalid; or it is a leaf that memory has, by which no access went before
    /// (`is_first`).
    pub(crate) fn is_read_anew(&self, extensions: Extensions, step: &Step, is_first: bool) -> bool {
        let word = step.entry.to_word();
        is_invalid(extensions, step)
            || (is_first
                && !is_pointer(extensions, step)
                && step.index < 512
                && self.unspaced.unit.word(step.ppn, step.index) == Some(word))
    }

    /// Whether a walk for the access ends at a PTE, by its word, or might end there without fences and with one ASID.
    pub fn has_word(&self, extensions: Extensions, request: Request, word: u64) -> bool
        requires { 1 ≤ request.width }
    {
        seek_by(&self.unspaced.unit, extensions, request, word).is_some()
    }

    /// Returns why the outcome that a client tells is not permitted, if a fence or an ASID is the reason; `has_other`: there is one of another kind.
    /// Where a fence is a reason, a PTE of another ASID must be held still; where there is another reason, or a fence, and the PTE that the client
    /// tells does not say which pointers led to it, it must be a leaf.
    pub fn older(
        &self,
        extensions: Extensions,
        request: Request,
        claim: Claim,
        has_other: bool,
    ) -> Older
        requires { 1 ≤ request.width }
    {
        let ways = ways_to(&self.unfenced.unit, extensions, request, claim);
        let others = ways_to(&self.unspaced.unit, extensions, request, claim);
        let step = self.told_step(extensions, request, claim.by);
        let (used, held) = self.uses_of(request, &step, claim);
        let is_first = claim.by.is_some() && used.is_none();
        let exclusion = self.last_exclusion(extensions, request, ways.as_slice(), &used, is_first);
        let is_excluded = exclusion.is_some();
        let only_leaves = (has_other || is_excluded) && !self.is_told(claim.by, &used);
        let foreign = self.foreign_among(
            extensions,
            request,
            others.as_slice(),
            only_leaves,
            is_excluded,
            claim.by.is_some() && held.is_none(),
        );
        Older {
            foreign,
            exclusion,
            is_of_asid: matches!(&used, Some(used) if used.under == self.asid()),
            used: match &exclusion {
                Some(exclusion) => self.use_before(request.va, &step, exclusion),
                None => held,
            },
        }
    }

    /// Appends why an outcome is not permitted: a fence and an ASID in the order in which they may be the reason.
    pub fn put_older(&self, out: &mut Text, extensions: Extensions, va: Va, older: &Older) {
        match (&older.foreign, &older.exclusion) {
            (Some(foreign), Some(exclusion)) => {
                if older.is_of_asid {
                    self.put_exclusion(out, extensions, va, exclusion);
                    out.push_str("; or ");
                    self.put_foreign(out, extensions, foreign)
                } else {
                    self.put_foreign(out, extensions, foreign);
                    out.push_str("; or ");
                    self.put_exclusion(out, extensions, va, exclusion)
                }
            }
            (Some(foreign), None) => self.put_foreign(out, extensions, foreign),
            (None, Some(exclusion)) => self.put_exclusion(out, extensions, va, exclusion),
            (None, None) => {}
        }
    }
}
