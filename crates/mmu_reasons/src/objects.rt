// `AnswerObject`: a struct, an answer with the number of its line, which is written as a JSON object. Numbers in hexadecimal digits are texts,
// `"0x.."`. Each key always has one type; one that does not apply is left out.

use crate::answers::{Answer, Lock, NoAddress};
use crate::outcomes::{OutcomeLine, place_of, type_text};
use access_history::{Outcome, Update};
use json_objects::ObjectWriter;
use serde::{Described, Serialize, Serializer};
use walk_lines::Hex;

/// The number of the protocol.
const PROTOCOL: u32 = 2;

/// An answer with the number of its line, from 1.
#[derive(Clone, Copy)]
pub struct AnswerObject<'a> {
    pub line: u64,
    pub answer: &'a Answer,
}

/// The PTE that a hart writes to set A and D: its physical address, and its word.
#[derive(Clone, Copy)]
struct SetObject(Update);

/// What is wrong with a line, and the column of the field at fault, from 1.
#[derive(Clone, Copy)]
struct ErrorObject<'a> {
    column: Option<usize>,
    text: &'a str,
}

/// Returns what kind of answer it is.
fn kind_of(answer: &Answer) -> &'static str {
    match answer {
        Answer::Ok | Answer::Locked(Lock::Nothing) => "ok",
        Answer::Version => "version",
        Answer::Satp(_) => "satp",
        Answer::Locked(Lock::All) => "locked",
        Answer::Locked(Lock::Address) => "address locked",
        Answer::NoEffect(_) => "no effect",
        Answer::Outcomes(_) => "outcomes",
        Answer::Permitted(_) | Answer::NotPermitted { .. } => "verdict",
        Answer::Error { .. } => "error",
    }
}

impl Described for SetObject {}

impl Serialize for SetObject {
    fn serialize<S: Serializer>(&self, out: &mut S) -> Result<(), S::Error> {
        let mut object = ObjectWriter::begin(out);
        object.member("place", &place_of(&self.0));
        object.member("word", &Hex(self.0.word));
        object.finish()
    }
}

impl Described for ErrorObject<'_> {}

impl Serialize for ErrorObject<'_> {
    fn serialize<S: Serializer>(&self, out: &mut S) -> Result<(), S::Error> {
        let mut object = ObjectWriter::begin(out);
        object.maybe("column", &self.column);
        object.member("text", &self.text);
        object.finish()
    }
}

impl Described for OutcomeLine {}

/// `pa`, the physical address, and `type`, the memory type: if the access is granted. `level`: of the leaf that grants it. `leaf`: the word of
/// the PTE at which the walk ends. `fault`, the exception code (scause), and `reason`: if the access is refused. `as_of`: what is older than
/// memory, satp and PMP as they are.
impl Serialize for OutcomeLine {
    fn serialize<S: Serializer>(&self, out: &mut S) -> Result<(), S::Error> {
        let (pa, memory_type, fault, update) = match self.outcome {
            Outcome::Granted {
                pa,
                memory_type,
                update,
            } => (Some(Hex(pa)), type_text(memory_type), None, update),
            Outcome::Refused { cause, update } => (None, None, Some(cause), update),
        };
        let mut object = ObjectWriter::begin(out);
        object.member("by", &self.by.text());
        object.maybe("pa", &pa);
        object.maybe("level", &self.level);
        object.maybe("leaf", &self.pte);
        object.maybe("type", &memory_type);
        if let Some(update) = update {
            object.member("set", &SetObject(update));
        }
        object.maybe("fault", &fault);
        object.maybe("reason", &self.reason);
        object.maybe("as_of", &self.as_of);
        object.finish()
    }
}

impl Described for AnswerObject<'_> {}

/// `reason`: why an outcome is not permitted, or a fence has no effect. `outcomes`: those that are permitted; of the verdict `"permitted"`
/// the one that the client told.
impl Serialize for AnswerObject<'_> {
    fn serialize<S: Serializer>(&self, out: &mut S) -> Result<(), S::Error> {
        let mut object = ObjectWriter::begin(out);
        object.member("line", &self.line);
        object.member("answer", &kind_of(self.answer));
        match self.answer {
            Answer::Ok | Answer::Locked(_) => {}
            Answer::Version => object.member("protocol", &PROTOCOL),
            Answer::Satp(satp) => object.member("satp", satp),
            Answer::NoEffect(va) => object.member("reason", &NoAddress(*va)),
            Answer::Outcomes(outcomes) => object.member("outcomes", outcomes),
            Answer::Permitted(outcome) => {
                object.member("verdict", &"permitted");
                object.member("outcomes", &[outcome])
            }
            Answer::NotPermitted { reason, permitted } => {
                object.member("verdict", &"not permitted");
                object.member("reason", reason);
                object.member("outcomes", permitted)
            }
            Answer::Error { column, text } => {
                let (column, text) = (*column, text.as_str());
                object.member("error", &ErrorObject { column, text })
            }
        }
        object.finish()
    }
}
