// `Run`: neighbouring mappings of one level that map consecutive frames with the same flags; and its line.

use crate::frames::{flags_of, frame_of};
use crate::listing::ValidEntry;
use crate::space::Space;
use std::alloc::{AllocError, Global};
use std::fmt;
use sv39_entry::PAGE_SIZE;
use walk_lines::Flags;

/// Mappings that follow one another: each begins where the one before it ends, in addresses and in frames, and all have one level and one set of flags.
#[derive(Clone, Copy)]
pub struct Run {
    /// The first of them.
    pub first: ValidEntry,
    /// The physical page number to which it leads.
    pub frame: u64,
    /// How many there are.
    pub count: u64,
    /// How many pages of 4,096 bytes they map.
    pub pages: u64,
}

impl Run {
    /// Returns the run of one mapping.
    fn of(mapping: ValidEntry, top: u32) -> Run {
        Run {
            first: mapping,
            frame: frame_of(mapping, top),
            count: 1,
            pages: mapping.pages(),
        }
    }

    /// Whether the next run goes on where this one ends, in addresses and in frames. `top` is the level of the root's PTEs.
    fn goes_on(&self, next: &Run, top: u32) -> bool {
        self.first.level == next.first.level
            && flags_of(self.first.word) == flags_of(next.first.word)
            && adjoins(self.first, self.pages, next.first, top)
            && self.frame.wrapping_add(self.pages) == next.frame
    }

    /// Adds a run that goes on where this one ends.
    fn extend(&mut self, next: &Run) {
        self.count = self.count.saturating_add(next.count);
        self.pages = self.pages.saturating_add(next.pages);
    }
}

/// Returns the runs of the mappings of an address space, in ascending order of addresses; each is as long as it can be.
pub fn runs_of(alloc: Global, space: &Space) -> Result<Vec<Run>, AllocError> {
    let mut runs: Vec<Run> = Vec::new(alloc);
    for mapping in &space.mappings {
        let next = Run::of(*mapping, space.top);
        match runs.last_mut() {
            Some(run) if run.goes_on(&next, space.top) => run.extend(&next),
            _ => runs.push(next)?,
        }
    }
    Ok(runs)
}

/// Returns the size of what a leaf of a level maps.
pub fn size_name(level: u32) -> &'static str {
    match level {
        0 => "4 KiB",
        1 => "2 MiB",
        2 => "1 GiB",
        3 => "512 GiB",
        _ => "256 TiB",
    }
}

/// A run, as it is printed.
#[derive(Clone, Copy)]
pub struct RunLine {
    pub run: Run,
    /// The level of the root's PTEs.
    pub top: u32,
}

/// For example `0x0000000000000000-0x0000000000002fff pa 0x0000000080014000 VR-XU-A-- 3 x 4 KiB`.
impl fmt::Display for RunLine {
    fn fmt<W: fmt::Write>(&self, f: &mut fmt::Formatter<W>) -> fmt::Result {
        let RunLine { run, top } = *self;
        let va = run.first.first_address(top).0;
        let last = last_address(va, run.pages);
        let (pa, flags) = (run.frame << 12, Flags(run.first.word));
        let (count, size) = (run.count, size_name(run.first.level));
        write!(
            f,
            "0x{va:016x}-0x{last:016x} pa 0x{pa:016x} {flags} {count} x {size}"
        )
    }
}

/// Whether a PTE begins at the address at which so many pages from another's first address on end. Where the lower half of the addresses
/// ends, none does: the upper half is elsewhere.
pub fn adjoins(first: ValidEntry, pages: u64, next: ValidEntry, top: u32) -> bool {
    let last = last_address(first.first_address(top).0, pages);
    last.wrapping_add(1) == next.first_address(top).0
}

/// Returns the address of the last byte of so many pages from an address on.
pub fn last_address(va: u64, pages: u64) -> u64 {
    va.wrapping_add(pages.wrapping_mul(PAGE_SIZE))
        .wrapping_sub(1)
}
