// `OutcomeLine`: an outcome of an access with what it is by, as text; `By`: an enum, what it is by.

use crate::numbers::{put_hex, put_number};
use access_history::{Outcome, Update};
use text_builder::Text;
use walk_lines::Hex;
use walk_rules::MemoryType;

/// What an outcome is by.
#[derive(Clone, Copy, PartialEq, Eq)]
pub enum By {
    /// The walk over memory, satp and PMP as they are.
    Walk,
    /// A walk of which a part is older.
    Held,
    /// Bare or M-mode: the physical address is the virtual one.
    Bare,
    /// The address is not a multiple of the width.
    Misaligned,
    /// The address is not canonical.
    NotCanonical,
}

impl By {
    /// Returns its text.
    pub fn text(self) -> &'static str {
        match self {
            By::Walk => "walk",
            By::Held => "held",
            By::Bare => "bare",
            By::Misaligned => "misaligned",
            By::NotCanonical => "not canonical",
        }
    }

    /// Returns what follows the text where a permitted outcome is told.
    pub(crate) fn now(self) -> &'static str {
        match self {
            By::Walk | By::Bare => " now",
            By::Held | By::Misaligned | By::NotCanonical => "",
        }
    }
}

/// An outcome of an access, and what it is by.
#[derive(Drop)]
pub struct OutcomeLine {
    pub by: By,
    pub outcome: Outcome,
    /// The level of the leaf, if the access is granted by one.
    pub level: Option<u32>,
    /// The word of the PTE at which the walk ends.
    pub pte: Option<Hex>,
    /// Why the access is refused.
    pub reason: Option<String>,
    /// What is older: PTEs, satp, PMP.
    pub as_of: Option<String>,
}

/// Returns the text of a memory type; none for the plain one.
pub(crate) fn type_text(memory_type: MemoryType) -> Option<&'static str> {
    match memory_type {
        MemoryType::Pma => None,
        MemoryType::Nc => Some("nc"),
        MemoryType::Io => Some("io"),
    }
}

/// Returns the physical address of a PTE that a hart wrote.
pub(crate) fn place_of(update: &Update) -> Hex {
    Hex(
        update
            .table
            .saturating_mul(4096)
            .saturating_add((update.index as u64).saturating_mul(8)),
    )
}

fn put_update(out: &mut Text, update: &Option<Update>) {
    let Some(update) = update else {
        return;
    };
    put_hex(out, " set ", place_of(update).0);
    put_hex(out, " ", update.word)
}

/// Appends what came of an access, for example `pa 0x80010008 level 0` or `fault 13`.
fn put_end(out: &mut Text, line: &OutcomeLine) {
    match &line.outcome {
        Outcome::Granted {
            pa,
            memory_type,
            update,
        } => {
            put_hex(out, "pa ", *pa);
            if let Some(level) = line.level {
                put_number(out, " level ", level.into());
            }
            if let Some(text) = type_text(*memory_type) {
                out.push_str(" ");
                out.push_str(text);
            }
            put_update(out, update)
        }
        Outcome::Refused { cause, update } => {
            put_number(out, "fault ", *cause);
            put_update(out, update)
        }
    }
}

/// Appends what begins in brackets.
fn put_bracketed(out: &mut Text, text: &str) {
    out.push_str(" (");
    out.push_str(text)
}

/// Appends an outcome and what it is by, for example `held fault 15 (leaf PTE 0x200040d7 at level 0 as before line 12: step 5: ..)`.
pub(crate) fn put_outcome(out: &mut Text, line: &OutcomeLine) {
    out.push_str(line.by.text());
    out.push_str(" ");
    put_end(out, line);
    match (&line.as_of, &line.reason) {
        (Some(as_of), Some(reason)) => {
            put_bracketed(out, as_of.as_str());
            out.push_str(": ");
            out.push_str(reason.as_str());
        }
        (Some(text), None) | (None, Some(text)) => put_bracketed(out, text.as_str()),
        (None, None) => return,
    }
    out.push_str(")")
}
