// How many frames a line takes that was refused for want of frames: a start, an exec, a fork, the service of a fault.

ghost use Rattle.hart_machine.specs.BufferEntries.{IsInWorld};
ghost use Rattle.process_model.specs.World.{World};

use crate::leaves::entries_of;
use audit_player::lend;
use exec_segments::{Image, start_frames};
use hart_machine::Machine;
use script_language::OwnedImage;
use std::alloc::{AllocError, Global};
use sv39_entry::{Entry, EntryFlags, FrameNo, Kind, Scheme, Va};
use walk_lines::{TableEntry, walk_entries};

/// How many frames the service of a page with this leaf takes: one if it is copy-on-write and its frame has another reference.
fn leaf_need(machine: &Machine, leaf: Entry) -> usize {
    let Some(frame) = FrameNo::from_ppn(leaf.ppn()) else {
        return 0;
    };
    match machine.counts().get(frame.0 as usize) {
        Some(count) if leaf.has(EntryFlags::COW) && *count > 1 => 1,
        _ => 0,
    }
}

/// Returns how many frames the service of a fault at an address takes, of the process in a slot: one for the page, and one for each
/// page table that is missing on the way to it; of a page in memory one if it is to be copied, else none.
pub fn service_need(machine: &Machine, slot: usize, va: Va) -> usize
    requires world { (w : World) × IsInWorld machine.now w }
{
    let Some(root) = machine.root(slot) else {
        return 1;
    };
    let mut words = machine.words();
    let entries = walk_entries(&mut words, machine.scheme(), root.ppn(), va);
    let Some(last) = entries.as_slice().last() else {
        return 1;
    };
    let Some(word) = last.word else {
        return 1;
    };
    let entry = Entry::from_word(word);
    match entry.kind() {
        Kind::Invalid => (last.level as usize).saturating_add(1),
        Kind::Leaf => leaf_need(machine, entry),
        Kind::Pointer => 1,
    }
}

/// Returns how many frames a start of an image takes; 0 if the image is bad.
pub fn start_need(scheme: Scheme, image: &OwnedImage) -> usize {
    match Image::judged(scheme, lend(image)) {
        Ok(image) => start_frames(&image),
        Err(_) => 0,
    }
}

/// Returns how many page tables of a level above 0, below the root, have a leaf below them.
fn tables_with_leaves(entries: &[TableEntry], pages: u64) -> usize {
    let mut count: usize = 0;
    let mut last = None;
    'entries: for entry in entries {
        let table = entry.page.checked_div(pages);
        if entry.level == 0 && table != last {
            count = count.saturating_add(1);
            last = table;
        }
    }
    count
}

/// Returns how many frames a fork of the process in a slot takes: one for the child's trapframe, and one for each page table that has
/// a page below it.
///
/// # Errors
/// `AllocError`: the host is out of memory.
pub fn fork_need(alloc: Global, machine: &Machine, slot: usize) -> Result<usize, AllocError>
    requires world { (w : World) × IsInWorld machine.now w }
{
    let entries = entries_of(alloc, machine, slot)?;
    let entries = entries.as_slice();
    let lower = tables_with_leaves(entries, 1 << 9);
    let upper = tables_with_leaves(entries, 1 << 18);
    let top = match machine.scheme() {
        Scheme::Sv39 => 0,
        Scheme::Sv48 => tables_with_leaves(entries, 1 << 27),
    };
    Ok(
        lower
            .saturating_add(upper)
            .saturating_add(top)
            .saturating_add(2),
    )
}
