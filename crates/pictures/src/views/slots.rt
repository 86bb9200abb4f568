// `SlotView`: a process with its regions, and the valid entries of its page tables. Of a region with many pages only the first are listed, and
// those that the line touches.

ghost use Rattle.hart_machine.specs.BufferEntries.{IsInWorld};
ghost use Rattle.process_model.specs.World.{World};

use crate::entries::EntryView;
use crate::views::cells::{CellRow, shows_page};
use address_space::Region;
use hart_machine::Machine;
use line_traces::{RegionLine, entries_of};
use serde::Serialize;
use std::alloc::{AllocError, Global};
use sv39_entry::{Entry, Kind, Scheme};
use walk_lines::{Hex, TableEntry};

/// The most pages of a region that have their leaves listed.
const LISTED_PAGES: usize = 24;

/// A region of a process, and how many of its pages are settled.
#[derive(Clone, Copy, Serialize)]
pub struct RegionView {
    pub line: RegionLine,
    pub settled: usize,
}

/// A process.
#[derive(Drop, Serialize)]
pub struct SlotView {
    pub slot: usize,
    /// The physical page number of the root of its page tables, and the root's level.
    pub root: Hex,
    pub levels: u32,
    /// The address of its trapframe.
    pub trapframe: Hex,
    /// In the order of their addresses.
    pub regions: Vec<RegionView>,
    /// The valid entries of its page tables in the order of their addresses, at most `LISTED_PAGES` leaves of a region; past these, the
    /// leaves of pages whose bytes are shown.
    pub entries: Vec<EntryView>,
}

/// Counts a page as settled in the region that has it, and returns whether it is among the first `LISTED_PAGES` of that region; also
/// true if no region has it.
fn count_page(regions: &[Region], views: &mut [RegionView], page: u64) -> bool {
    for (number, region) in regions.iter().enumerate() {
        if region.holds_page(page) {
            let Some(view) = views.get_mut(number) else {
                return true;
            };
            view.settled = view.settled.saturating_add(1);
            return view.settled <= LISTED_PAGES;
        }
    }
    true
}

/// Returns regions of which no page was counted.
fn views_of(alloc: Global, regions: &[Region]) -> Result<Vec<RegionView>, AllocError> {
    let mut views = Vec::new(alloc);
    for region in regions {
        views.push(RegionView {
            line: RegionLine::of(*region),
            settled: 0,
        })?;
    }
    Ok(views)
}

/// Pages of a process that are listed however many there are: those whose bytes are shown.
#[derive(Clone, Copy)]
struct Kept<'a> {
    slot: usize,
    rows: &'a [CellRow],
}

/// Returns the entries that are shown, and counts all pages.
fn shown_entries(
    alloc: Global,
    scheme: Scheme,
    kept: Kept<'_>,
    regions: &[Region],
    views: &mut [RegionView],
    entries: &[TableEntry],
) -> Result<Vec<EntryView>, AllocError> {
    let mut shown = Vec::new(alloc);
    for entry in entries {
        let is_leaf = Entry::from_word(entry.word).kind() == Kind::Leaf;
        let view = EntryView::of(scheme, *entry);
        let is_first = !is_leaf || count_page(regions, views, entry.page);
        if is_first || shows_page(kept.rows, kept.slot, view.address.0) {
            shown.push(view)?;
        }
    }
    Ok(shown)
}

impl SlotView {
    /// Returns the process in a slot, `None` if there is none; `rows` are the bytes that are shown.
    ///
    /// # Errors
    /// `AllocError`: the host is out of memory.
    pub fn of(
        alloc: Global,
        machine: &Machine,
        slot: usize,
        rows: &[CellRow],
    ) -> Result<Option<SlotView>, AllocError>
        requires world { (w : World) × IsInWorld machine.now w }
    {
        let (Some(regions), Some(root)) = (machine.regions(slot), machine.root(slot)) else {
            return Ok(None);
        };
        let entries = entries_of(alloc, machine, slot)?;
        let mut views = views_of(alloc, regions.as_slice())?;
        let shown = shown_entries(
            alloc,
            machine.scheme(),
            Kept { slot, rows },
            regions.as_slice(),
            views.as_mut_slice(),
            entries.as_slice(),
        )?;
        Ok(Some(SlotView {
            slot,
            root: Hex(root.ppn()),
            levels: machine.scheme().top_level(),
            trapframe: Hex(machine.scheme().trapframe().0),
            regions: views,
            entries: shown,
        }))
    }

    /// Appends the physical page numbers of the pages that are listed.
    ///
    /// # Errors
    /// `AllocError`: the host is out of memory.
    pub fn put_pages(&self, pages: &mut Vec<u64>) -> Result<(), AllocError> {
        for entry in self.entries.as_slice() {
            let word = Entry::from_word(entry.flags.0);
            if word.kind() == Kind::Leaf {
                pages.push(word.ppn())?;
            }
        }
        Ok(())
    }
}
