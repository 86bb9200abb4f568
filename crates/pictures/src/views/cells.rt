// `CellView`: eight bytes around those that a line touches, in each process that maps their page or their frame.

ghost use Rattle.hart_machine.specs.BufferEntries.{IsInWorld};
ghost use Rattle.process_model.specs.World.{World};

use crate::bytes::bytes_at;
use crate::names::{LeafName, names_in};
use crate::views::files::FilePlace;
use hart_machine::Machine;
use line_traces::Touched;
use serde::Serialize;
use std::alloc::{AllocError, Global};
use sv39_entry::PAGE_SIZE;
use walk_lines::Hex;

/// The most rows of a cell.
const LISTED_ROWS: usize = 64;

/// Eight bytes of a page.
#[derive(Clone, Copy, Serialize)]
pub struct CellRow {
    pub slot: usize,
    /// The page's address, and that of the first of the bytes.
    pub page: Hex,
    pub address: Hex,
    /// The physical page number of its frame.
    pub ppn: Hex,
    pub bytes: [u8; 8],
}

/// The bytes around those that a line touches.
#[derive(Drop, Serialize)]
pub struct CellView {
    /// Which of the eight bytes is the first that is touched, and how many are, there or further on.
    pub at: u64,
    pub width: u64,
    /// The file that is mapped there, or was.
    #[serde(skip_serializing_if = "Option::is_none")]
    pub file: Option<u64>,
    /// These bytes in each process that has the page, or another in its frame.
    pub rows: Vec<CellRow>,
}

/// Returns whether bytes of a page of the process in a slot are among some that are shown.
pub fn shows_page(rows: &[CellRow], slot: usize, page: u64) -> bool {
    for row in rows {
        if row.slot == slot && row.page.0 == page {
            return true;
        }
    }
    false
}

/// Returns the frames that processes have for a page.
fn frames_of(alloc: Global, leaves: &[LeafName], page: u64) -> Result<Vec<u64>, AllocError> {
    let mut frames = Vec::new(alloc);
    for leaf in leaves {
        if leaf.name.page.0 == page {
            frames.push(leaf.ppn)?;
        }
    }
    Ok(frames)
}

/// Returns the bytes of a leaf's page at the offset of an address in its page.
fn row_of(machine: &Machine, leaf: LeafName, address: u64) -> Option<CellRow> {
    let page = leaf.name.page;
    Some(CellRow {
        slot: leaf.name.slot,
        page,
        address: Hex(page.0.wrapping_add(address % PAGE_SIZE)),
        ppn: Hex(leaf.ppn),
        bytes: bytes_at(machine, leaf.ppn, address)?,
    })
}

impl CellView {
    /// Returns what a line touches, as it is now; `place` is where it is in a file.
    ///
    /// # Errors
    /// `AllocError`: the host is out of memory.
    pub fn of(
        alloc: Global,
        machine: &Machine,
        touched: Touched,
        place: Option<FilePlace>,
    ) -> Result<CellView, AllocError>
        requires world { (w : World) × IsInWorld machine.now w }
    {
        let va = touched.va.0;
        let (at, page) = (va % 8, va.wrapping_sub(va % PAGE_SIZE));
        let leaves = names_in(alloc, machine)?;
        let frames = frames_of(alloc, leaves.as_slice(), page)?;
        let mut rows = Vec::new(alloc);
        for leaf in leaves.as_slice() {
            if rows.len() < LISTED_ROWS && frames.as_slice().contains(&leaf.ppn) {
                if let Some(row) = row_of(machine, *leaf, va.wrapping_sub(at)) {
                    rows.push(row)?;
                }
            }
        }
        let file = match place {
            Some(place) => Some(place.file),
            None => None,
        };
        Ok(CellView {
            at,
            width: touched.width,
            file,
            rows,
        })
    }
}
