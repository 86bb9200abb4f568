// `RequestTrace`: the access or the fill of a line, how the regions decide it, and which entry of the buffer it uses or what its walk
// reads.

ghost use Rattle.hart_machine.specs.BufferEntries.{IsInWorld};
ghost use Rattle.process_model.specs.World.{World};

use crate::accesses::{AccessLine, leaf_of, reason};
use crate::changes::slot_at;
use crate::places::HartPlace;
use crate::requests::Request;
use crate::walks::{WalkLine, reference_count, walk_of};
use hart_machine::Machine;
use json_objects::ObjectWriter;
use serde::{Described, Serialize, Serializer};
use std::alloc::{AllocError, Global};
use sv39_entry::{Mode, Va};
use walk_lines::BufferLine;

/// The access or the fill of a line.
#[derive(Drop)]
pub struct RequestTrace {
    /// A user access or, if the line serves a fault, the access that faulted.
    pub access: Option<AccessLine>,
    /// Whether the line serves that access.
    pub serves: bool,
    /// The entry of the buffer that the access uses.
    pub entry: Option<BufferLine>,
    /// What the walk of the access or of the fill reads; if the line serves a fault, what the walk of that access reads after it.
    pub walk: Vec<WalkLine>,
    /// Why the access faults, if the regions grant it.
    pub reason: Option<&'static str>,
}

impl Described for RequestTrace {}

impl Serialize for RequestTrace {
    fn serialize<S: Serializer>(&self, out: &mut S) -> Result<(), S::Error> {
        let mut object = ObjectWriter::begin(out);
        object.maybe("access", &self.access);
        object.member("serves", &self.serves);
        object.maybe("entry", &self.entry);
        object.member("walk", &self.walk);
        object.maybe("reason", &self.reason);
        object.finish()
    }
}

/// Returns an entry of a hart's buffer, by its number; `None` if it is not there.
fn entry_of(machine: &Machine, hart: usize, number: usize) -> Option<BufferLine> {
    let entry = machine.buffer(hart)?.entry(number)?;
    Some(BufferLine::of(number, entry))
}

/// Returns the word of an entry's leaf; `None` if it has none.
fn word_of(entry: BufferLine) -> Option<u64> {
    Some(entry.leaf?.word.0)
}

impl Request {
    /// Returns the access of a user that this is, as the regions of the hart's process decide it.
    fn user_access(&self, machine: &Machine) -> Option<AccessLine> {
        if self.mode != Mode::User {
            return None;
        }
        let slot = machine.slot(self.hart)?;
        AccessLine::of(machine, slot, self.access?, self.va, self.width)
    }

    /// Returns the entry that it uses.
    fn entry(&self, machine: &Machine) -> Option<BufferLine> {
        entry_of(machine, self.hart, self.via?)
    }

    /// Returns what its walk reads; nothing if it uses an entry, or is served.
    fn walk(&self, alloc: Global, machine: &Machine) -> Result<Vec<WalkLine>, AllocError>
        requires world { (w : World) × IsInWorld machine.now w }
    {
        match machine.satp(self.hart) {
            Some(satp) if self.via.is_none() && !self.serves => {
                walk_of(alloc, machine, satp.ppn(), self.va)
            }
            _ => Ok(Vec::new(alloc)),
        }
    }
}

/// Returns why an access faults that the regions grant; `None` if they deny it, or the leaf permits it.
fn reason_of(
    machine: &Machine,
    request: Request,
    access: Option<AccessLine>,
    leaf: Option<u64>,
) -> Option<&'static str> {
    if access?.rule.is_some() {
        return None;
    }
    reason(
        request.access?,
        leaf,
        reference_count(machine.counts(), leaf),
    )
}

impl RequestTrace {
    /// Returns how a request is decided, before its line is played.
    ///
    /// # Errors
    /// `AllocError`: the host is out of memory.
    pub fn of(
        alloc: Global,
        machine: &Machine,
        request: Request,
    ) -> Result<RequestTrace, AllocError>
        requires world { (w : World) × IsInWorld machine.now w }
    {
        let access = request.user_access(machine);
        let entry = request.entry(machine);
        let walk = request.walk(alloc, machine)?;
        let leaf = match entry {
            Some(entry) => word_of(entry),
            None => leaf_of(walk.as_slice()),
        };
        Ok(RequestTrace {
            access,
            serves: request.serves,
            entry,
            walk,
            reason: reason_of(machine, request, access, leaf),
        })
    }

    /// Returns what holds of a request once its line was answered; `place` is where its hart was before. `None` if it was refused, since
    /// nothing happened then.
    ///
    /// # Errors
    /// `AllocError`: the host is out of memory.
    pub fn answered(
        self,
        alloc: Global,
        machine: &Machine,
        place: Option<HartPlace>,
        answer: &[u8],
    ) -> Result<Option<RequestTrace>, AllocError>
        requires world { (w : World) × IsInWorld machine.now w }
    {
        if answer.starts_with(b"refused") {
            return Ok(None);
        }
        let mut trace = self;
        if trace.serves {
            trace.walk = served_walk(alloc, machine, place, trace.access)?;
        }
        if !answer.starts_with(b"fault") {
            trace.reason = None;
        }
        Ok(Some(trace))
    }
}

/// Returns what the walk of an access reads in the tables of the process that made it; nothing if the process has ended.
fn served_walk(
    alloc: Global,
    machine: &Machine,
    place: Option<HartPlace>,
    access: Option<AccessLine>,
) -> Result<Vec<WalkLine>, AllocError>
    requires world { (w : World) × IsInWorld machine.now w }
{
    let (Some(slot), Some(access)) = (slot_at(place), access) else {
        return Ok(Vec::new(alloc));
    };
    match machine.root(slot) {
        Some(root) => walk_of(alloc, machine, root.ppn(), Va(access.address.0)),
        None => Ok(Vec::new(alloc)),
    }
}
