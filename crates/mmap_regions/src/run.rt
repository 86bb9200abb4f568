// Struct `Run`, pages of one mapping from a first page up to an end: all of a mapping, or those that munmap is asked to
// unmap (or why it is refused). Also what a run leaves of its mapping, and the file and offset to which stores to the
// mapping are written back.

ghost use Rattle.std.specs.Prelude.{◌≡◌, ◌<◌, ◌≤◌, ◌^◌, ◌++◌, false, map, option_map, option_to_list};
ghost use Rattle.address_space.specs.Layouts.{LaysOut, region_of, source_of};
ghost use Rattle.mmap_regions.specs.Runs.{all_of, requested_run_of, IsRunOf, requested_run, run_of, stored_file};
ghost use Rattle.process_model.specs.Mappings as model;
ghost use Rattle.process_model.specs.Order.{HasOrder, IsInReach};
ghost use Rattle.process_model.specs.Process.{Process};
ghost use Rattle.process_model.specs.Regions.{end_of};

use address_space::{Layout, Region, RegionKind, Source};
use process_model::Refusal;
use sv39_entry::{Access, PAGE_SIZE, Va, Vpn};

/// The pages of a mapping from `first` up to, and without, `end`.
#[derive(Clone, Copy)]
pub(crate) struct Run {
    pub mapping: Region,
    pub first: Vpn,
    pub end: Vpn,
}

impl Run {
    /// All pages of a mapping.
    pub fn whole(mapping: Region) -> Run
        requires low { end_of (region_of mapping) < 2 ^ 52 }
        ensures { run_of result ≡ all_of (region_of mapping) }
    {
        let end = mapping.first + mapping.pages;
        Run {
            mapping,
            first: Va(mapping.first * PAGE_SIZE).page(),
            end: Va(end * PAGE_SIZE).page(),
        }
    }

    /// Returns the run that munmap is asked to unmap: `length` bytes from `address` on, rounded up to whole pages.
    ///
    /// # Errors
    /// `BadArgument`: `address` is no multiple of 4,096, `length` is 0, or the range is not inside one mapping.
    /// `HoleInMapping`: it touches neither end.
    pub fn requested(layout: &Layout, address: u64, length: u64) -> Result<Run, Refusal>
        requires order { (p : Process) × LaysOut layout.now p × HasOrder 0 p }
        ensures { (p : Process) → LaysOut layout.now p → HasOrder 0 p → requested_run_of result ≡ requested_run p address length }
    {
        if address % PAGE_SIZE != 0 || length == 0 {
            return Err(Refusal::BadArgument);
        }
        let first = Va(address).page();
        let end = first.number() + length.div_ceil(PAGE_SIZE);
        let Some(mapping) = mapping_around(layout.mappings(), first.number(), end) else {
            return Err(Refusal::BadArgument);
        };
        if mapping.first < first.number() && end - mapping.first < mapping.pages {
            return Err(Refusal::HoleInMapping);
        }
        let end = Va(end * PAGE_SIZE).page();
        Ok(Run {
            mapping,
            first,
            end,
        })
    }

    /// Returns what is left of the mapping without the run, which touches one of its ends; `None` if nothing is. Pages that
    /// are left keep their place in the file.
    pub fn left(&self) -> Option<Region>
        requires run { (p : Process) × IsRunOf p (run_of self.now) }
        requires whole { model.leaves_hole (region_of self.now.mapping) self.now.first self.now.end ≡ false }
        ensures { option_to_list (option_map region_of result) ≡ model.front_of (region_of self.now.mapping) self.now.first
            ++ model.back_of (region_of self.now.mapping) self.now.end }
    {
        let mapping = self.mapping;
        let (first, end) = (self.first.number(), self.end.number());
        if mapping.first < first {
            return Some(Region {
                pages: first - mapping.first,
                ..mapping
            });
        }
        let past = mapping.first + mapping.pages;
        if end < past {
            return Some(Region {
                first: end,
                pages: past - end,
                source: moved_along(mapping.source, end - mapping.first),
                ..mapping
            });
        }
        None
    }

    /// Returns the number of the file to which stores to the mapping are written back, and the offset in it of the mapping's
    /// first byte, in bytes; `None` if there is none: if the mapping is not shared, or may not be written.
    pub fn file(&self) -> Option<(usize, usize)>
        ensures { result ≡ stored_file (region_of self.now.mapping) }
    {
        let mapping = self.mapping;
        if mapping.kind != RegionKind::SharedMapping || mapping.lacks_right(Access::Store) {
            return None;
        }
        match mapping.source {
            Source::File { file, offset } => Some((file as usize, offset as usize)),
            Source::Zeros | Source::Image => None,
        }
    }
}

/// Returns the mapping that holds all pages from `first` up to, and without, `end`; `None` if none does.
fn mapping_around(mappings: &[Region], first: u64, end: u64) -> Option<Region>
    requires some { first ≤ end }
    ensures { option_map region_of result ≡ model.mapping_around (map region_of mappings.now) first end }
{
    for mapping in mappings {
        if mapping.first <= first && end - mapping.first <= mapping.pages {
            return Some(*mapping);
        }
    }
    None
}

/// Returns the source of a mapping without its first `pages` pages: a file's offset grows by their bytes.
fn moved_along(source: Source, pages: u64) -> Source
    requires reach { IsInReach (source_of source) pages }
    ensures { source_of result ≡ model.moved_along (source_of source) pages }
{
    match source {
        Source::File { file, offset } => Source::File {
            file,
            offset: offset + pages * PAGE_SIZE,
        },
        Source::Zeros => Source::Zeros,
        Source::Image => Source::Image,
    }
}
