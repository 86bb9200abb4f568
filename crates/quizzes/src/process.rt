// `Process`: what the generator knows of a process: its regions, and which of its pages have a frame.

use std::alloc::{AllocError, Global};
use usertest_world::{PAGE, TRAPFRAME, rounded_up};

/// What an access does.
#[derive(Clone, Copy)]
pub(crate) enum Access {
    Fetch,
    Load,
    Store,
}

/// A run of pages with the same rights; each may be read.
#[derive(Clone, Copy)]
pub(crate) struct Region {
    pub start: u64,
    pub end: u64,
    pub writable: bool,
    pub executable: bool,
    /// Whether stores go back to a file.
    pub shared: bool,
    /// The number of its file, of a mapping.
    pub file: Option<u64>,
}

/// A page that has a frame.
#[derive(Clone, Copy)]
pub(crate) struct Settled {
    /// Its address.
    pub page: u64,
    /// It has the mark of a fork.
    pub forked: bool,
    /// It has the mark to be written back.
    pub stored: bool,
}

/// A process of the script.
#[derive(Drop)]
pub(crate) struct Process {
    pub slot: u64,
    pub lives: bool,
    pub regions: Vec<Region>,
    pub settled: Vec<Settled>,
    /// Where the heap begins.
    pub base: u64,
    /// Where it ends.
    pub size: u64,
}

/// Returns the address of the page of an address.
pub(crate) fn page_of(address: u64) -> u64 {
    address.saturating_sub(address % PAGE)
}

/// Returns the place that comes so many steps after the first of a round of places.
pub(crate) fn place_after(first: usize, step: usize, count: usize) -> usize {
    let at = first.saturating_add(step);
    if at < count {
        at
    } else {
        at.saturating_sub(count)
    }
}

/// Returns whether there is a process of this number, and it lives.
pub(crate) fn lives(processes: &[Process], number: usize) -> bool {
    match processes.get(number) {
        Some(process) => process.lives,
        None => false,
    }
}

impl Region {
    /// Returns whether it has an address.
    fn has(&self, address: u64) -> bool {
        self.start <= address && address < self.end
    }

    /// Returns whether it grants an access.
    fn grants(&self, access: Access) -> bool {
        match access {
            Access::Fetch => self.executable,
            Access::Load => true,
            Access::Store => self.writable,
        }
    }
}

impl Process {
    /// Returns a process with a page of code at 0, some pages of data above it, the guard page, the stack and an empty heap.
    pub fn new(alloc: Global, slot: u64, data_pages: u64) -> Result<Process, AllocError> {
        let guard = PAGE.saturating_add(PAGE.saturating_mul(data_pages));
        let stack = guard.saturating_add(PAGE);
        let base = stack.saturating_add(PAGE);
        let mut process = Process {
            slot,
            lives: true,
            regions: Vec::new(alloc),
            settled: Vec::new(alloc),
            base,
            size: base,
        };
        process.add_segment(0, PAGE, false)?;
        process.add_segment(PAGE, guard, true)?;
        process.add_segment(stack, base, true)?;
        Ok(process)
    }

    /// Adds a region all of whose pages have frames.
    fn add_segment(&mut self, start: u64, end: u64, writable: bool) -> Result<(), AllocError> {
        let region = Region {
            start,
            end,
            writable,
            executable: !writable,
            shared: false,
            file: None,
        };
        self.regions.push(region)?;
        let pages = end.saturating_sub(start) / PAGE;
        for number in 0..pages {
            let page = start.saturating_add(number.saturating_mul(PAGE));
            self.settle(page, false, false)?;
        }
        Ok(())
    }

    /// Notes that a page has a frame.
    fn settle(&mut self, page: u64, forked: bool, stored: bool) -> Result<(), AllocError> {
        let settled = Settled {
            page,
            forked,
            stored,
        };
        self.settled.push(settled)?;
        Ok(())
    }

    /// Returns the region of an address; `None` if there is none.
    pub fn region_of(&self, address: u64) -> Option<Region> {
        for region in self.regions.as_slice() {
            if region.has(address) {
                return Some(*region);
            }
        }
        let heap = Region {
            start: self.base,
            end: rounded_up(self.size),
            writable: true,
            executable: false,
            shared: false,
            file: None,
        };
        if heap.has(address) { Some(heap) } else { None }
    }

    /// Returns whether an access is granted.
    pub fn grants(&self, access: Access, address: u64, width: u64) -> bool {
        match self.region_of(address) {
            Some(region) => address.is_multiple_of(width) && region.grants(access),
            None => false,
        }
    }

    /// Returns what is known of the page of an address that has a frame.
    fn settled_of(&self, address: u64) -> Option<Settled> {
        let page = page_of(address);
        for settled in self.settled.as_slice() {
            if settled.page == page {
                return Some(*settled);
            }
        }
        None
    }

    /// Returns whether a store to a page is kept for its file.
    fn keeps_stores(&self, address: u64) -> bool {
        match self.region_of(address) {
            Some(region) => region.shared && region.writable,
            None => false,
        }
    }

    /// Returns whether an access that is granted needs no service.
    pub fn is_ready(&self, access: Access, address: u64) -> bool {
        let Some(settled) = self.settled_of(address) else {
            return false;
        };
        if access != Access::Store {
            return true;
        }
        !settled.forked && (settled.stored || !self.keeps_stores(address))
    }

    /// Notes that the page of an address is ready for an access.
    pub fn serve(&mut self, access: Access, address: u64) -> Result<(), AllocError> {
        let (page, store) = (page_of(address), access == Access::Store);
        let stored = store && self.keeps_stores(address);
        for settled in self.settled.as_mut_slice() {
            if settled.page == page {
                settled.forked = settled.forked && !store;
                settled.stored = settled.stored || stored;
                return Ok(());
            }
        }
        self.settle(page, false, stored)
    }

    /// `serve`, for so many bytes from an address on.
    pub fn serve_bytes(
        &mut self,
        access: Access,
        address: u64,
        count: u64,
    ) -> Result<(), AllocError> {
        for number in 0..count {
            self.serve(access, address.saturating_add(number))?;
        }
        Ok(())
    }

    /// Marks the pages that a fork shares. Returns whether one was not marked.
    pub fn mark(&mut self) -> bool {
        let mut is_new = false;
        for number in 0..self.settled.len() {
            is_new = self.mark_at(number) || is_new;
        }
        is_new
    }

    /// Marks a page with a frame, if it may be written. Returns whether it was not marked.
    fn mark_at(&mut self, number: usize) -> bool {
        let Some(settled) = self.settled.get(number).copied() else {
            return false;
        };
        let writable = self.grants(Access::Store, settled.page, 1);
        if !writable || settled.forked {
            return false;
        }
        if let Some(settled) = self.settled.get_mut(number) {
            settled.forked = true;
        }
        true
    }

    /// Returns the child that a fork makes in a slot, once the pages are marked.
    pub fn child(&self, alloc: Global, slot: u64) -> Result<Process, AllocError> {
        let mut child = Process {
            slot,
            lives: true,
            regions: Vec::from_slice(alloc, self.regions.as_slice())?,
            settled: Vec::from_slice(alloc, self.settled.as_slice())?,
            base: self.base,
            size: self.size,
        };
        for settled in child.settled.as_mut_slice() {
            settled.stored = false;
        }
        Ok(child)
    }

    /// Notes that the pages of a range have no frames.
    fn release(&mut self, start: u64, end: u64) {
        self.settled
            .retain(|settled| settled.page < start || end <= settled.page);
    }

    /// Notes another end of the heap.
    pub fn resize(&mut self, size: u64) {
        self.size = size;
        let (from, to) = (rounded_up(size), TRAPFRAME / 2);
        if from < to {
            self.release(from, to);
        }
    }

    /// Returns how many of some bytes from an address on a kernel copy copies, which stores if `writes`.
    pub fn copies(&self, writes: bool, address: u64, count: u64) -> u64 {
        let access = if writes { Access::Store } else { Access::Load };
        let mut done = 0;
        for number in 0..count {
            if !self.grants(access, address.saturating_add(number), 1) {
                break;
            }
            done = number.saturating_add(1);
        }
        done
    }

    /// Adds a mapping of a file, of so many bytes of pages.
    pub fn map(
        &mut self,
        size: u64,
        writable: bool,
        shared: bool,
        file: u64,
    ) -> Result<(), AllocError> {
        let start = self.place_of_mapping(size);
        let region = Region {
            start,
            end: start.saturating_add(size),
            writable,
            executable: false,
            shared,
            file: Some(file),
        };
        self.regions.push(region)?;
        Ok(())
    }

    /// Unmaps a part of a region, which is at its front or its back, or the whole.
    pub fn unmap(&mut self, number: usize, start: u64, end: u64) {
        self.release(start, end);
        if let Some(region) = self.regions.get_mut(number) {
            if region.start == start {
                region.start = end;
            } else {
                region.end = start;
            }
        }
        self.regions.retain(|region| region.start < region.end);
    }

    /// Returns the first mapping in a round of the regions from this one on, with its place among them; `None` if there is none.
    pub fn mapping_from(&self, first: usize) -> Option<(usize, Region)> {
        let count = self.regions.len();
        for step in 0..count {
            let number = place_after(first, step, count);
            match self.regions.get(number) {
                Some(region) if region.file.is_some() => return Some((number, *region)),
                _ => {}
            }
        }
        None
    }

    /// Returns where the model's mmap puts so many bytes of pages: in the highest gap below the trapframe.
    fn place_of_mapping(&self, size: u64) -> u64 {
        let mut end = TRAPFRAME;
        for _ in 0..self.regions.len() {
            match self.lowest_between(end.saturating_sub(size), end) {
                Some(lowest) => end = lowest,
                None => break,
            }
        }
        end.saturating_sub(size)
    }

    /// Returns the lowest start of the regions that have an address from `start` on, below `end`.
    fn lowest_between(&self, start: u64, end: u64) -> Option<u64> {
        let mut lowest = None;
        for region in self.regions.as_slice() {
            if region.start < end && start < region.end {
                lowest = match lowest {
                    Some(other) if other < region.start => Some(other),
                    _ => Some(region.start),
                };
            }
        }
        lowest
    }
}
