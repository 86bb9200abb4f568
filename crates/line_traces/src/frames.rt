// `FrameChanges`: which frames a line took and gave back, and of which it changed the references.

ghost use Rattle.std.specs.Prelude.{◌≡◌, ◌↔◌, ◌<◌, ◌^◌, ◌++◌, [], ◌∷◌, IfOk, IfSome, IsSome, OnOk, filter, map};
ghost use Rattle.sv39_entry.specs.Frame.{ppn_of};
ghost use Rattle.line_traces.specs.Frames.{given_back_pages, is_given_back, is_recounted, is_taken, page_of, recounts, taken_pages};

use json_objects::ObjectWriter;
use process_model::Report;
use serde::{Described, Serialize, Serializer};
use std::alloc::{AllocError, Global};
use std::fmt;
use sv39_entry::FrameNo;
use walk_lines::Hex;

/// A frame whose number of references is another after a line.
#[derive(Clone, Copy)]
pub struct Recount {
    /// The physical page number of the frame.
    pub frame: Hex,
    pub before: u16,
    pub after: u16,
}

impl Described for Recount {}

impl Serialize for Recount {
    fn serialize<S: Serializer>(&self, out: &mut S) -> Result<(), S::Error> {
        let mut object = ObjectWriter::begin(out);
        object.member("frame", &self.frame);
        object.member("before", &self.before);
        object.member("after", &self.after);
        object.finish()
    }
}

/// What a line changed of the frames.
#[derive(Drop)]
pub struct FrameChanges {
    /// The physical page numbers of the frames that were free before the line and are held after it.
    pub taken: Vec<Hex>,
    /// Those that were held before it and are free after it.
    pub given_back: Vec<Hex>,
    /// Those that are held before and after it, by more references or by fewer.
    pub recounted: Vec<Recount>,
    /// The accounts after the line: frames without a reference, with one or more, with two or more.
    pub free: usize,
    pub held: usize,
    pub shared: usize,
}

impl Described for FrameChanges {}

impl Serialize for FrameChanges {
    fn serialize<S: Serializer>(&self, out: &mut S) -> Result<(), S::Error> {
        let mut object = ObjectWriter::begin(out);
        object.member("taken", &self.taken);
        object.member("given_back", &self.given_back);
        object.member("recounted", &self.recounted);
        object.member("free", &self.free);
        object.member("held", &self.held);
        object.member("shared", &self.shared);
        object.finish()
    }
}

/// Returns the physical page number of a frame by its number, `None` past the last that there may be.
pub fn frame_page(number: usize) -> Option<Hex>
    ensures there { IsSome result ↔ number < 2 ^ 16 }
    ensures page { IfSome result (λ page. page.0 ≡ ppn_of number) }
{
    match u16::try_from(number) {
        Ok(number) => Some(Hex(FrameNo(number).ppn())),
        Err(_) => None,
    }
}

/// Returns what a line changed of the frames, by the reference counts of all frames before and after it: of the first 2^16 that
/// both lists have, each list in ascending order.
///
/// # Errors
/// `AllocError`: the host is out of memory.
#[tactic(auto, using(crate::proofs::FrameSteps::counts_none))]
pub fn changed_frames(
    alloc: Global,
    before: &[u16],
    after: &[u16],
    report: Report,
) -> Result<FrameChanges, AllocError>
    ensures taken { IfOk result (λ x. x.taken.items ≡ taken_pages before.now after.now) }
    ensures given_back { IfOk result (λ x. x.given_back.items ≡ given_back_pages before.now after.now) }
    ensures recounted { IfOk result (λ x. x.recounted.items ≡ recounts before.now after.now) }
    ensures accounts { IfOk result (λ x. (x.free ≡ report.free) × (x.held ≡ report.held) × (x.shared ≡ report.shared)) }
{
    let mut changes = FrameChanges {
        taken: Vec::new(alloc),
        given_back: Vec::new(alloc),
        recounted: Vec::new(alloc),
        free: report.free,
        held: report.held,
        shared: report.shared,
    };
    let count = before.len().min(after.len()).min(1 << 16);
    'frames: for number in 0..count {
        changes.add(Recount {
            frame: Hex(FrameNo(number as u16).ppn()),
            before: before[number],
            after: after[number],
        })?;
    }
    Ok(changes)
}

impl FrameChanges {
    /// Adds a frame to the list to which it belongs.
    fn add(&mut self, it: Recount) -> Result<(), AllocError>
        ensures taken { OnOk result (self.new.taken.items ≡ self.old.taken.items ++ map page_of (filter is_taken (it ∷ []))) }
        ensures given_back { OnOk result (self.new.given_back.items ≡ self.old.given_back.items ++ map page_of (filter is_given_back (it ∷ []))) }
        ensures recounted { OnOk result (self.new.recounted.items ≡ self.old.recounted.items ++ filter is_recounted (it ∷ [])) }
        ensures accounts { (self.new.free ≡ self.old.free) × (self.new.held ≡ self.old.held) × (self.new.shared ≡ self.old.shared) }
    {
        match (it.before, it.after) {
            (0, 0) => {}
            (0, _) => self.taken.push(it.frame)?,
            (_, 0) => self.given_back.push(it.frame)?,
            (old, new) if old != new => self.recounted.push(it)?,
            _ => {}
        }
        Ok(())
    }

    /// Whether nothing changed.
    pub fn is_empty(&self) -> bool {
        self.taken.is_empty() && self.given_back.is_empty() && self.recounted.is_empty()
    }
}

/// For example `0x80014 from 2 references to 1`.
impl fmt::Display for Recount {
    fn fmt<W: fmt::Write>(&self, f: &mut fmt::Formatter<W>) -> fmt::Result {
        let (frame, before, after) = (self.frame, self.before, self.after);
        write!(f, "{frame} from {before} to {after}")
    }
}
