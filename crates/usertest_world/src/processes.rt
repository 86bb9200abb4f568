// `Process`: a process of a script, as its generator knows it.

use crate::mappings::Mapping;
use crate::places::{PAGE, Place, TRAPFRAME};
use std::alloc::{AllocError, Global};

/// The most places of stores that a process keeps.
pub const MOST_SPOTS: usize = 12;

/// A page that munmap took.
#[derive(Clone, Copy)]
pub struct Unmapped {
    /// The number of the mapping that it was in.
    pub number: u64,
    pub place: Place,
}

/// A process of a script.
#[derive(Drop)]
pub struct Process {
    /// Its slot in the process table.
    pub slot: u64,
    /// Its parent in the list of processes; `None` of the first.
    pub parent: Option<usize>,
    /// Whether it has not ended.
    pub lives: bool,
    /// How many children it has had.
    pub spawned: u64,
    /// How many children its parent had before it.
    pub index: u64,
    /// The bytes of its heap.
    pub size: u64,
    /// Offsets in the heap to which it stored lately; at most `MOST_SPOTS`.
    pub spots: Vec<u64>,
    pub mappings: Vec<Mapping>,
    pub unmapped: Vec<Unmapped>,
    /// The number of its next mapping.
    pub next_mapping: u64,
    /// How often it has executed the program anew.
    pub execs: u64,
}

impl Process {
    /// Returns the first process, in slot 0, with an empty heap.
    pub fn first(alloc: Global) -> Process {
        Process {
            slot: 0,
            parent: None,
            lives: true,
            spawned: 0,
            index: 0,
            size: 0,
            spots: Vec::new(alloc),
            mappings: Vec::new(alloc),
            unmapped: Vec::new(alloc),
            next_mapping: 0,
            execs: 0,
        }
    }

    /// Returns the child that a fork makes in this slot; `parent` is the process's place in the list of processes.
    pub fn child(&self, alloc: Global, parent: usize, slot: u64) -> Result<Process, AllocError> {
        let mut mappings = Vec::new(alloc);
        for mapping in self.mappings.as_slice() {
            mappings.push(mapping.child_of())?;
        }
        Ok(Process {
            slot,
            parent: Some(parent),
            lives: true,
            spawned: 0,
            index: self.spawned,
            size: self.size,
            spots: Vec::from_slice(alloc, self.spots.as_slice())?,
            mappings,
            unmapped: Vec::from_slice(alloc, self.unmapped.as_slice())?,
            next_mapping: self.next_mapping,
            execs: 0,
        })
    }

    /// Gives the heap another size.
    pub fn resize(&mut self, size: u64) {
        self.size = size;
        self.spots.retain(|spot| spot.saturating_add(8) <= size);
    }

    /// Executes the program anew, with an empty heap. The process must have no mapping.
    pub fn execute(&mut self) {
        self.execs = self.execs.saturating_add(1);
        self.resize(0);
        self.unmapped.clear();
        self.next_mapping = 0;
    }

    /// Returns the lowest address of the mappings that have an address from `start` on, below `end`.
    fn lowest_between(&self, start: u64, end: u64) -> Option<u64> {
        let mut lowest = None;
        for mapping in self.mappings.as_slice() {
            if mapping.start < end && start < mapping.end() {
                lowest = match lowest {
                    Some(other) if other < mapping.start => Some(other),
                    _ => Some(mapping.start),
                };
            }
        }
        lowest
    }

    /// Returns where the model's mmap puts so many pages: in the highest gap below the trapframe.
    pub fn place_of_mapping(&self, pages: usize) -> u64 {
        let size = (pages as u64).saturating_mul(PAGE);
        let mut end = TRAPFRAME;
        for _ in 0..self.mappings.len() {
            match self.lowest_between(end.saturating_sub(size), end) {
                Some(lowest) => end = lowest,
                None => break,
            }
        }
        end.saturating_sub(size)
    }

    /// Returns the place of the mapping of this number in the list of mappings.
    pub fn find_mapping(&self, number: u64) -> Option<usize> {
        for (at, mapping) in self.mappings.as_slice().iter().enumerate() {
            if mapping.number == number {
                return Some(at);
            }
        }
        None
    }

    /// Returns whether a mapping is of this file.
    pub(crate) fn maps(&self, file: usize) -> bool {
        for mapping in self.mappings.as_slice() {
            if mapping.file.number == file {
                return true;
            }
        }
        false
    }

    /// Returns whether a mapping shares this page of this file and has stored to it.
    pub(crate) fn has_stored(&self, file: usize, page: usize) -> bool {
        for mapping in self.mappings.as_slice() {
            if let Some(its_page) = mapping.page_of(file, page)
                && mapping.shared
                && mapping.view(its_page).stored_to
            {
                return true;
            }
        }
        false
    }
}
