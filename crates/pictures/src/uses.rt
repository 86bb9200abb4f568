// `FrameUse`: what a process has in a frame; and `frame_uses`, that of each frame.

ghost use Rattle.hart_machine.specs.BufferEntries.{IsInWorld};
ghost use Rattle.process_model.specs.World.{World};

use hart_machine::Machine;
use line_traces::entries_of;
use std::alloc::{AllocError, Global};
use sv39_entry::{Entry, FrameNo, Kind, Scheme};
use walk_lines::TableEntry;

/// What the page tables of a process have in a frame.
#[derive(Clone, Copy)]
pub struct FrameUse {
    pub slot: usize,
    pub holds: Holds,
}

/// What is in a frame.
#[derive(Clone, Copy)]
pub enum Holds {
    /// The root of the page tables.
    Root,
    /// A page table of this level.
    Table(u32),
    /// The page at this address.
    Page(u64),
}

/// Returns the frame to which an entry leads, and what it holds; `None` if the entry leads out of the memory.
fn use_of(scheme: Scheme, entry: TableEntry) -> Option<(FrameNo, Holds)> {
    let word = Entry::from_word(entry.word);
    let frame = FrameNo::from_ppn(word.ppn())?;
    match word.kind() {
        Kind::Leaf => Some((frame, Holds::Page(entry.first_address(scheme).0))),
        Kind::Pointer => Some((frame, Holds::Table(entry.level.saturating_sub(1)))),
        Kind::Invalid => None,
    }
}

/// Notes what is in a frame, unless something was noted before.
fn note(uses: &mut [Option<FrameUse>], frame: FrameNo, it: FrameUse) {
    if let Some(place) = uses.get_mut(frame.0 as usize) {
        if place.is_none() {
            *place = Some(it);
        }
    }
}

/// Notes what the process in a slot has in frames.
fn note_process(
    alloc: Global,
    uses: &mut [Option<FrameUse>],
    machine: &Machine,
    slot: usize,
) -> Result<(), AllocError>
    requires world { (w : World) × IsInWorld machine.now w }
{
    if let Some(root) = machine.root(slot) {
        note(
            uses,
            root,
            FrameUse {
                slot,
                holds: Holds::Root,
            },
        );
    }
    let entries = entries_of(alloc, machine, slot)?;
    for entry in entries.as_slice() {
        if let Some((frame, holds)) = use_of(machine.scheme(), *entry) {
            note(uses, frame, FrameUse { slot, holds });
        }
    }
    Ok(())
}

/// Returns of each frame what the first process that has it has in it; `None` if no process has it.
///
/// # Errors
/// `AllocError`: the host is out of memory.
pub fn frame_uses(alloc: Global, machine: &Machine) -> Result<Vec<Option<FrameUse>>, AllocError>
    requires world { (w : World) × IsInWorld machine.now w }
{
    let mut uses = Vec::new(alloc);
    uses.resize(machine.counts().len(), None)?;
    for slot in 0..machine.slot_count() {
        note_process(alloc, uses.as_mut_slice(), machine, slot)?;
    }
    Ok(uses)
}
