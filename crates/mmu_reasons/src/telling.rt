// `Telling`: a struct, an access and the history by which it is judged, which says of each outcome what it is by.

ghost use Rattle.std.specs.Prelude.{◌≡◌, IfOk, IfSome};

use crate::numbers::put_number;
use crate::outcomes::{By, OutcomeLine};
use crate::recorded::Recorded;
use crate::walking::walk_among;
use crate::ways::end_of;
use access_history::{Outcome, Request};
use access_judge::{Log, Told, Way};
use std::alloc::{AllocError, Global};
use sv39_entry::Mode;
use text_builder::Text;
use walk_lines::Hex;
use walk_rules::{Extensions, MemoryType, is_canonical, top_level};

/// Most texts of what is older, and of why an access is refused, have no more bytes.
const USUAL_BYTES: usize = 80;

/// An access, and the history by which it is judged.
#[derive(Clone, Copy)]
pub struct Telling<'a> {
    pub(crate) alloc: Global,
    pub(crate) recorded: &'a Recorded,
    pub(crate) extensions: Extensions,
    pub(crate) request: Request,
    /// The walk over memory, satp and PMP as they are; `None`: the address is not translated.
    walk: Option<Way>,
}

impl<'a> Telling<'a> {
    /// Returns an access with its history, and with those of its outcomes that were found.
    pub fn new(
        alloc: Global,
        recorded: &'a Recorded,
        extensions: Extensions,
        request: Request,
        found: &[Told],
    ) -> Telling<'a> {
        let telling = Telling {
            alloc,
            recorded,
            extensions,
            request,
            walk: None,
        };
        if telling.by_address().is_some() {
            return telling;
        }
        Telling {
            walk: walk_among(recorded, extensions, request.va, found),
            ..telling
        }
    }
}

impl Telling<'_> {
    /// The mode by which leaves are judged, if the address is translated.
    pub(crate) fn mode(&self) -> Option<Mode> {
        top_level(self.recorded.unit.satp())?;
        self.privilege().translation_mode()
    }

    /// The walk over memory, satp and PMP as they are; `None`: the address is not translated.
    pub(crate) fn walk(&self) -> Option<&Way> {
        self.walk.as_ref()
    }

    /// What the access is judged by before any walk, if something is.
    pub fn by_address(&self) -> Option<By> {
        if self.request.va.0 % self.request.width.max(1) != 0 {
            return Some(By::Misaligned);
        }
        let top = top_level(self.recorded.unit.satp());
        match (self.mode(), top) {
            (Some(_), Some(top)) if is_canonical(top, self.request.va) => None,
            (Some(_), Some(_)) => Some(By::NotCanonical),
            _ => Some(By::Bare),
        }
    }

    /// The memory type of the leaf at which the walk ends; the plain one if there is none.
    pub fn memory_type(&self) -> MemoryType {
        let Some(way) = &self.walk else {
            return MemoryType::Pma;
        };
        match end_of(self.extensions, way) {
            Some(step) => MemoryType::of_entry(step.entry).unwrap_or(MemoryType::Pma),
            None => MemoryType::Pma,
        }
    }

    /// The word of the PTE at which a walk ends.
    pub fn word_of(&self, way: &Way) -> Option<u64> {
        match end_of(self.extensions, way) {
            Some(step) => Some(step.entry.to_word()),
            None => None,
        }
    }

    /// Whether the walk comes to an outcome, by the PTE of a word if one is told.
    fn walks_to(&self, way: &Way, outcome: Outcome, by: Option<u64>) -> bool {
        (by.is_none() || by == self.word_of(way)) && self.comes_to(way, outcome)
    }

    /// What an outcome is by as all is now; `None` if it is by something older.
    fn by_now(&self, outcome: Outcome, by: Option<u64>) -> Option<By> {
        match (self.by_address(), &self.walk) {
            (Some(By::Bare), _)
                if !self.ends_so(self.request.va.0, MemoryType::Pma, None, outcome) => None,
            (None, Some(way)) if self.walks_to(way, outcome, by) => Some(By::Walk),
            (before, _) => before,
        }
    }

    /// What is older on the way to an outcome.
    fn as_of(&self, told: &Told) -> Result<String, AllocError> {
        let mut out = Text::new(self.alloc);
        out.reserve(USUAL_BYTES);
        self.recorded
            .put_whence(&mut out, self.extensions, self.request.va, told);
        if !self.comes_to(&told.way, told.outcome) || !self.may_read(&told.way) {
            let lead = if out.is_empty() { "" } else { ", " };
            out.push_str(lead);
            put_number(&mut out, "PMP as before line ", self.recorded.pmp_line());
        }
        if out.is_empty() {
            out.push_str("as before");
        }
        out.finish()
    }

    /// Why an outcome is a refusal; `None` if it is none.
    fn reason(&self, way: &Way, outcome: &Outcome) -> Result<Option<String>, AllocError> {
        if matches!(outcome, Outcome::Granted { .. }) {
            return Ok(None);
        }
        let mut out = Text::new(self.alloc);
        out.reserve(USUAL_BYTES);
        self.put_refusal(&mut out, way, outcome);
        if out.is_empty() {
            return Ok(None);
        }
        let text = out.finish()?;
        Ok(Some(text))
    }

    /// Returns an outcome by a way.
    fn line_by(
        &self,
        by: By,
        outcome: Outcome,
        way: &Way,
        as_of: Option<String>,
    ) -> Result<OutcomeLine, AllocError>
        ensures { IfOk result (λ line. line.outcome ≡ outcome) }
    {
        let reason = self.reason(way, &outcome)?;
        let step = end_of(self.extensions, way);
        let is_granted = matches!(outcome, Outcome::Granted { .. });
        Ok(OutcomeLine {
            by,
            outcome,
            level: match &step {
                Some(step) if is_granted => Some(step.level),
                _ => None,
            },
            pte: match &step {
                Some(step) => Some(Hex(step.entry.to_word())),
                None => None,
            },
            reason,
            as_of,
        })
    }

    /// Returns an outcome with what it is by, if that is as all is now. `by`: the word of the PTE that it is by, if the client tells one.
    pub fn line_now(&self, told: &Told, by: Option<u64>) -> Result<Option<OutcomeLine>, AllocError>
        ensures { IfOk result (λ line. IfSome line (λ it. it.outcome ≡ told.now.outcome)) }
    {
        let Some(now) = self.by_now(told.outcome, by) else {
            return Ok(None);
        };
        let line = match &self.walk {
            Some(way) => self.line_by(now, told.outcome, way, None)?,
            None => self.line_by(now, told.outcome, &told.way, None)?,
        };
        Ok(Some(line))
    }

    /// Returns an outcome with what is older on the way to it.
    pub fn line_held(&self, told: &Told) -> Result<OutcomeLine, AllocError>
        ensures { IfOk result (λ line. line.outcome ≡ told.now.outcome) }
    {
        let as_of = self.as_of(told)?;
        self.line_by(By::Held, told.outcome, &told.way, Some(as_of))
    }

    /// Returns an outcome with what it is by.
    pub fn line(&self, told: &Told) -> Result<OutcomeLine, AllocError>
        ensures { IfOk result (λ line. line.outcome ≡ told.now.outcome) }
    {
        match self.line_now(told, None)? {
            Some(line) => Ok(line),
            None => self.line_held(told),
        }
    }
}
