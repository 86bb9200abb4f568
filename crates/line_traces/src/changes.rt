// `Snapshot`: what is seen of a machine before a line; and `Changes`: what is other after it.

ghost use Rattle.hart_machine.specs.BufferEntries.{IsInWorld};
ghost use Rattle.process_model.specs.World.{World};

use crate::buffers::buffer_of;
use crate::frames::{FrameChanges, changed_frames};
use crate::leaves::{LeafChange, changed_leaves, leaves_of};
use crate::places::HartPlace;
use hart_machine::Machine;
use json_objects::ObjectWriter;
use serde::{Described, Serialize, Serializer};
use std::alloc::{AllocError, Global};
use walk_lines::{BufferLine, TableEntry};

/// What is seen of a machine, and of a hart, before a line.
#[derive(Drop)]
pub struct Snapshot {
    /// Where the hart is; `None` if the line names no hart that there is.
    pub place: Option<HartPlace>,
    /// The reference counts of all frames, by their numbers; none if there is no machine.
    counts: Vec<u16>,
    /// The entries of the hart's buffer.
    buffer: Vec<BufferLine>,
    /// The leaves of the hart's process.
    leaves: Vec<TableEntry>,
}

/// What is other after a line than before it.
#[derive(Drop)]
pub struct Changes {
    /// Where the line's hart is, if that or its satp is another.
    pub after: Option<HartPlace>,
    /// The frames, if a reference count is another; the accounts if the line booted the machine.
    pub frames: Option<FrameChanges>,
    /// The leaves of the hart's process that are others, if it is the same process.
    pub leaves: Vec<LeafChange>,
    /// All entries of the hart's buffer, if they are others.
    pub buffer: Option<Vec<BufferLine>>,
}

impl Described for Changes {}

impl Serialize for Changes {
    fn serialize<S: Serializer>(&self, out: &mut S) -> Result<(), S::Error> {
        let mut object = ObjectWriter::begin(out);
        object.maybe("after", &self.after);
        object.maybe("frames", &self.frames);
        if !self.leaves.is_empty() {
            object.member("leaves", &self.leaves);
        }
        object.maybe("buffer", &self.buffer);
        object.finish()
    }
}

/// Returns the slot of the process on a hart; `None` if there is no process.
pub fn slot_at(place: Option<HartPlace>) -> Option<usize> {
    place?.slot
}

/// Returns the leaves of the process on a hart; none if there is no process.
fn leaves_at(
    alloc: Global,
    machine: &Machine,
    place: Option<HartPlace>,
) -> Result<Vec<TableEntry>, AllocError>
    requires world { (w : World) × IsInWorld machine.now w }
{
    match slot_at(place) {
        Some(slot) => leaves_of(alloc, machine, slot),
        None => Ok(Vec::new(alloc)),
    }
}

/// Returns the entries of a hart's buffer; none if there is no hart.
fn buffer_at(
    alloc: Global,
    machine: &Machine,
    place: Option<HartPlace>,
) -> Result<Vec<BufferLine>, AllocError> {
    match place {
        Some(place) => buffer_of(alloc, machine, place.hart),
        None => Ok(Vec::new(alloc)),
    }
}

impl Snapshot {
    /// Returns what is seen before a line that makes no step.
    pub fn nothing(alloc: Global) -> Snapshot {
        Snapshot {
            place: None,
            counts: Vec::new(alloc),
            buffer: Vec::new(alloc),
            leaves: Vec::new(alloc),
        }
    }

    /// Returns what is seen of a machine and of the hart that a line names.
    pub fn take(
        alloc: Global,
        machine: &Machine,
        hart: Option<usize>,
    ) -> Result<Snapshot, AllocError>
        requires world { (w : World) × IsInWorld machine.now w }
    {
        let place = match hart {
            Some(hart) => HartPlace::of(machine, hart),
            None => None,
        };
        Ok(Snapshot {
            place,
            counts: Vec::from_slice(alloc, machine.counts())?,
            buffer: buffer_at(alloc, machine, place)?,
            leaves: leaves_at(alloc, machine, place)?,
        })
    }

    /// Returns what changed of the frames, if anything did, or if nothing was seen before.
    fn frames(&self, alloc: Global, machine: &Machine) -> Result<Option<FrameChanges>, AllocError> {
        let counts = self.counts.as_slice();
        let changes = changed_frames(alloc, counts, machine.counts(), machine.report())?;
        if changes.is_empty() && !counts.is_empty() {
            return Ok(None);
        }
        Ok(Some(changes))
    }

    /// Returns the leaves that changed of the hart's process, if it is the same.
    fn leaves(
        &self,
        alloc: Global,
        machine: &Machine,
        now: Option<HartPlace>,
    ) -> Result<Vec<LeafChange>, AllocError>
        requires world { (w : World) × IsInWorld machine.now w }
    {
        if slot_at(self.place) != slot_at(now) {
            return Ok(Vec::new(alloc));
        }
        let leaves = leaves_at(alloc, machine, now)?;
        changed_leaves(
            alloc,
            machine.scheme(),
            self.leaves.as_slice(),
            leaves.as_slice(),
        )
    }

    /// Returns the entries of the hart's buffer, if they are others.
    fn buffer(
        &self,
        alloc: Global,
        machine: &Machine,
    ) -> Result<Option<Vec<BufferLine>>, AllocError> {
        let buffer = buffer_at(alloc, machine, self.place)?;
        if buffer.as_slice() == self.buffer.as_slice() {
            return Ok(None);
        }
        Ok(Some(buffer))
    }
}

impl Changes {
    /// Returns what is other than a snapshot.
    pub fn since(alloc: Global, machine: &Machine, before: &Snapshot) -> Result<Changes, AllocError>
        requires world { (w : World) × IsInWorld machine.now w }
    {
        let now = match before.place {
            Some(place) => HartPlace::of(machine, place.hart),
            None => None,
        };
        Ok(Changes {
            after: if now == before.place { None } else { now },
            frames: before.frames(alloc, machine)?,
            leaves: before.leaves(alloc, machine, now)?,
            buffer: before.buffer(alloc, machine)?,
        })
    }
}
