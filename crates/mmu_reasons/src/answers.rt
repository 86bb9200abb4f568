// `Answer`: an enum, what is answered to a line; and `put_answer`: an answer as a line of text.

ghost use Rattle.std.specs.Prelude.{◌≡◌};
ghost use Rattle.mmu_reasons.specs.Answers.{IsError, is_amiss};

use crate::numbers::{put_hex, put_number};
use crate::outcomes::{OutcomeLine, put_outcome};
use line_fields::Mistake;
use serde::{Described, Serialize, Serializer};
use std::fmt;
use text_builder::Text;
use walk_lines::Hex;

/// What a write of a PMP entry leaves as it was (RISC-V Privileged Architecture 20211203, 3.7.1).
#[derive(Clone, Copy)]
pub enum Lock {
    /// Both registers are written.
    Nothing,
    /// The address is not written: the entry above is locked, and its A is TOR.
    Address,
    /// Neither is written: the entry is locked.
    All,
}

/// What is answered to a line.
#[derive(Drop)]
pub enum Answer {
    /// It was done.
    Ok,
    /// The protocol.
    Version,
    /// What satp holds.
    Satp(Hex),
    /// A PMP entry was written, but for what is locked.
    Locked(Lock),
    /// A fence has no effect: its address is none under the MODE of satp.
    NoEffect(Hex),
    /// The outcomes that an access may have.
    Outcomes(Vec<OutcomeLine>),
    /// The access may have the outcome that the client tells.
    Permitted(OutcomeLine),
    /// The access may not have the outcome that the client tells.
    NotPermitted {
        reason: String,
        /// The outcomes that it may have.
        permitted: Vec<OutcomeLine>,
    },
    /// The line is faulty.
    Error {
        column: Option<usize>,
        text: String,
    },
}

impl Answer {
    /// Returns the answer to a faulty line.
    pub fn mistake(mistake: Mistake) -> Answer
        ensures { IsError result }
    {
        let Mistake { column, text } = mistake;
        Answer::Error { column, text }
    }

    /// Whether the line is faulty, or the outcome that a client tells is not permitted.
    pub fn is_amiss(&self) -> bool
        ensures { result ≡ is_amiss self.now }
    {
        matches!(self, Answer::Error { .. } | Answer::NotPermitted { .. })
    }
}

/// Why a fence has no effect, by its address.
#[derive(Clone, Copy)]
pub(crate) struct NoAddress(pub Hex);

impl fmt::Display for NoAddress {
    fn fmt<W: fmt::Write>(&self, f: &mut fmt::Formatter<W>) -> fmt::Result {
        let address = self.0;
        write!(f, "{address} is no address under the present MODE")
    }
}

impl Described for NoAddress {}

impl Serialize for NoAddress {
    fn serialize<S: Serializer>(&self, out: &mut S) -> Result<(), S::Error> {
        out.collect_str(self)
    }
}

/// Appends outcomes, with `; ` between them.
fn put_list(out: &mut Text, lines: &[OutcomeLine]) {
    if lines.is_empty() {
        return out.push_str("none");
    }
    let mut before = "";
    'lines: for line in lines {
        out.push_str(before);
        put_outcome(out, line);
        before = "; ";
    }
}

/// Appends why an outcome is permitted.
fn put_permitted(out: &mut Text, line: &OutcomeLine) {
    let (text, now) = match &line.as_of {
        Some(as_of) => (as_of.as_str(), ""),
        None => (line.by.text(), line.by.now()),
    };
    out.push_str("permitted (");
    out.push_str(text);
    out.push_str(now);
    out.push_str(")")
}

/// Appends why an outcome is not permitted, and those that are.
fn put_denied(out: &mut Text, reason: &str, permitted: &[OutcomeLine]) {
    out.push_str("NOT permitted: ");
    out.push_str(reason);
    out.push_str(". Permitted: ");
    put_list(out, permitted)
}

fn put_error(out: &mut Text, column: &Option<usize>, text: &str) {
    out.push_str("error");
    if let Some(column) = column {
        put_number(out, " column ", *column as u64);
    }
    out.push_str(": ");
    out.push_str(text)
}

/// Appends an answer as text.
fn put_text(out: &mut Text, answer: &Answer) {
    match answer {
        Answer::Ok | Answer::Locked(Lock::Nothing) => out.push_str("ok"),
        Answer::Version => out.push_str("mmu protocol 2"),
        Answer::Satp(word) => put_hex(out, "satp ", word.0),
        Answer::Locked(Lock::All) => out.push_str("locked"),
        Answer::Locked(Lock::Address) => out.push_str("address locked"),
        Answer::NoEffect(va) => {
            let reason = NoAddress(*va);
            write!(out, "no effect: {reason}")
        }
        Answer::Outcomes(outcomes) => put_list(out, outcomes.as_slice()),
        Answer::Permitted(line) => put_permitted(out, line),
        Answer::NotPermitted { reason, permitted } => {
            put_denied(out, reason.as_str(), permitted.as_slice())
        }
        Answer::Error { column, text } => put_error(out, column, text.as_str()),
    }
}

/// Appends an answer as a line of text.
pub fn put_answer(out: &mut Text, answer: &Answer) {
    put_text(out, answer);
    out.push_str("\n")
}
