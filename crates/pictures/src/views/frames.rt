// `FramesView`: the accounts of the frames, and those that have pages, each with the names of its pages; tables, the kernel's and free frames are
// counted. Of many frames not all are listed, but always those that the line touches, and those with two or more references in which listed
// pages of processes are.

ghost use Rattle.hart_machine.specs.BufferEntries.{IsInWorld};
ghost use Rattle.process_model.specs.World.{World};

use crate::names::{LeafName, PageName, names_in, names_of};
use crate::views::cells::CellRow;
use hart_machine::Machine;
use line_traces::{entries_of, frame_page};
use serde::Serialize;
use std::alloc::{AllocError, Global};
use sv39_entry::{Entry, FrameNo, Kind};
use walk_lines::{Hex, TableEntry};

/// How many frames are listed, unless more are kept.
const LISTED_FRAMES: usize = 256;

/// A frame in which there are pages.
#[derive(Drop, Serialize)]
pub struct FrameView {
    /// Its physical page number.
    pub ppn: Hex,
    /// How many references it has.
    pub count: u16,
    /// All pages that are in it.
    pub names: Vec<PageName>,
}

/// How many page tables a process has.
#[derive(Clone, Copy, Serialize)]
pub struct TablesView {
    pub slot: usize,
    pub count: usize,
}

/// The frames of a machine.
#[derive(Drop, Serialize)]
pub struct FramesView {
    /// The accounts: frames without a reference, with one or more, with two or more; and all references.
    pub free: usize,
    pub held: usize,
    pub shared: usize,
    pub references: usize,
    /// Frames in which there are pages, those with two or more references first: all that are kept, and others up to `LISTED_FRAMES`; and how
    /// many more there are.
    pub frames: Vec<FrameView>,
    pub more: usize,
    /// The page tables of each process.
    pub tables: Vec<TablesView>,
    /// How many held frames have neither a page nor a table of a process.
    pub kernel: usize,
}

/// What is known of a frame.
#[derive(Clone, Copy)]
struct Mark {
    /// Whether there is a page in it.
    paged: bool,
    /// Whether it is listed however many there are.
    kept: bool,
}

/// Which frames are listed.
#[derive(Drop)]
struct Choice {
    /// Of each frame.
    marks: Vec<Mark>,
    /// How many frames have pages.
    paged: usize,
    /// How many others than those that are kept may still be listed.
    spare: usize,
}

/// Which frames are kept: those of which bytes are shown, and those of listed pages, by their physical page numbers.
#[derive(Clone, Copy)]
pub struct KeptFrames<'a> {
    pub rows: &'a [CellRow],
    pub pages: &'a [u64],
}

/// Marks a frame, by its physical page number, with what is set in `with`.
fn set_mark(marks: &mut [Mark], ppn: u64, with: Mark) {
    let Some(frame) = FrameNo::from_ppn(ppn) else {
        return;
    };
    if let Some(place) = marks.get_mut(frame.0 as usize) {
        place.paged = place.paged || with.paged;
        place.kept = place.kept || with.kept;
    }
}

/// Returns whether a frame, by its physical page number, has two or more references.
fn is_shared(counts: &[u16], ppn: u64) -> bool {
    let Some(frame) = FrameNo::from_ppn(ppn) else {
        return false;
    };
    match counts.get(frame.0 as usize) {
        Some(count) => *count > 1,
        None => false,
    }
}

/// Marks the frames that are kept. Of the frames of listed pages these are the ones with two or more references.
fn mark_kept(marks: &mut [Mark], counts: &[u16], kept: KeptFrames<'_>) {
    let with = Mark {
        paged: false,
        kept: true,
    };
    for row in kept.rows {
        set_mark(marks, row.ppn.0, with);
    }
    for ppn in kept.pages {
        if is_shared(counts, *ppn) {
            set_mark(marks, *ppn, with);
        }
    }
}

impl Choice {
    /// Returns the choice of frames with these marks.
    fn of(marks: Vec<Mark>) -> Choice {
        let (mut paged, mut kept) = (0usize, 0usize);
        for it in marks.as_slice() {
            if it.paged {
                paged = paged.saturating_add(1);
            }
            if it.kept {
                kept = kept.saturating_add(1);
            }
        }
        Choice {
            marks,
            paged,
            spare: LISTED_FRAMES.saturating_sub(kept),
        }
    }

    /// Returns whether a frame is listed, and counts it.
    fn takes(&mut self, number: usize) -> bool {
        match self.marks.get(number) {
            Some(it) if it.paged => {
                if it.kept {
                    return true;
                }
            }
            _ => return false,
        }
        let is_room = self.spare > 0;
        self.spare = self.spare.saturating_sub(1);
        is_room
    }
}

/// Returns the choice among the frames in which there are pages.
fn choice_of(
    alloc: Global,
    counts: &[u16],
    leaves: &[LeafName],
    kept: KeptFrames<'_>,
) -> Result<Choice, AllocError> {
    let mut marks = Vec::new(alloc);
    let unmarked = Mark {
        paged: false,
        kept: false,
    };
    marks.resize(counts.len(), unmarked)?;
    for leaf in leaves {
        let with = Mark {
            paged: true,
            kept: false,
        };
        set_mark(marks.as_mut_slice(), leaf.ppn, with);
    }
    mark_kept(marks.as_mut_slice(), counts, kept);
    Ok(Choice::of(marks))
}

/// Appends the frames that are chosen and have two or more references, or those that have one.
fn put_frames(
    alloc: Global,
    frames: &mut Vec<FrameView>,
    counts: &[u16],
    choice: &mut Choice,
    leaves: &[LeafName],
    shared: bool,
) -> Result<(), AllocError> {
    for number in 0..counts.len() {
        let count = counts[number];
        if (count > 1) == shared && choice.takes(number) {
            if let Some(ppn) = frame_page(number) {
                let names = names_of(alloc, leaves, ppn.0)?;
                frames.push(FrameView { ppn, count, names })?;
            }
        }
    }
    Ok(())
}

/// Returns the frames that are chosen, those with two or more references first.
fn listed(
    alloc: Global,
    counts: &[u16],
    leaves: &[LeafName],
    choice: &mut Choice,
) -> Result<Vec<FrameView>, AllocError> {
    let mut frames = Vec::new(alloc);
    put_frames(alloc, &mut frames, counts, choice, leaves, true)?;
    put_frames(alloc, &mut frames, counts, choice, leaves, false)?;
    Ok(frames)
}

/// Returns how many pointers are among some entries.
fn count_pointers(entries: &[TableEntry]) -> usize {
    let mut count = 0usize;
    for entry in entries {
        if Entry::from_word(entry.word).kind() == Kind::Pointer {
            count = count.saturating_add(1);
        }
    }
    count
}

/// Returns how many page tables each process has.
fn tables_of(alloc: Global, machine: &Machine) -> Result<Vec<TablesView>, AllocError>
    requires world { (w : World) × IsInWorld machine.now w }
{
    let mut tables = Vec::new(alloc);
    for slot in 0..machine.slot_count() {
        if machine.root(slot).is_some() {
            let entries = entries_of(alloc, machine, slot)?;
            let count = count_pointers(entries.as_slice()).saturating_add(1);
            tables.push(TablesView { slot, count })?;
        }
    }
    Ok(tables)
}

/// Returns how many page tables all processes have.
fn count_tables(tables: &[TablesView]) -> usize {
    let mut count = 0usize;
    for it in tables {
        count = count.saturating_add(it.count);
    }
    count
}

impl FramesView {
    /// Returns the frames of a machine.
    ///
    /// # Errors
    /// `AllocError`: the host is out of memory.
    pub fn of(
        alloc: Global,
        machine: &Machine,
        kept: KeptFrames<'_>,
    ) -> Result<FramesView, AllocError>
        requires world { (w : World) × IsInWorld machine.now w }
    {
        let report = machine.report();
        let (leaves, counts) = (names_in(alloc, machine)?, machine.counts());
        let leaves = leaves.as_slice();
        let mut choice = choice_of(alloc, counts, leaves, kept)?;
        let frames = listed(alloc, counts, leaves, &mut choice)?;
        let tables = tables_of(alloc, machine)?;
        let with_tables = count_tables(tables.as_slice());
        Ok(FramesView {
            free: report.free,
            held: report.held,
            shared: report.shared,
            references: report.references,
            more: choice.paged.saturating_sub(frames.len()),
            frames,
            tables,
            kernel: report
                .held
                .saturating_sub(choice.paged)
                .saturating_sub(with_tables),
        })
    }
}
