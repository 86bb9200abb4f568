// Quizzes about mappings of files: where they go, which accesses fault, what is written back and when, what is past the file's end.

use crate::process::Region;
use crate::quiz::{Place, Quiz};
use crate::steps::Touch;
use std::alloc::AllocError;
use usertest_world::{PAGE, rounded_up};

/// PROT and FLAGS of mmap.
const READ: u64 = 1;

const WRITE: u64 = 2;

const SHARED: u64 = 1;

/// The files of a quiz: one that may be written, of some bytes above a page, and a short one that may not.
#[derive(Clone, Copy)]
struct Lengths {
    first: u64,
    second: u64,
}

impl Lengths {
    /// Returns the length of a file.
    fn of(self, file: u64) -> u64 {
        if file == 0 { self.first } else { self.second }
    }
}

/// Returns where a munmap of one of five sorts begins and ends: it takes a mapping's first page, its last page, or all of it.
fn part_of(region: Region, sort: u64) -> (u64, u64) {
    let has_pages = region.end.saturating_sub(region.start) > PAGE;
    match sort {
        1 if has_pages => (region.start, region.start.saturating_add(PAGE)),
        2 if has_pages => (region.end.saturating_sub(PAGE), region.end),
        _ => (region.start, region.end),
    }
}

impl Quiz {
    /// Declares a file that begins with random bytes.
    fn declare_file(&mut self, length: u64, mode: &str) {
        let text = format!(in self.alloc; "file {length} {mode} ");
        let text = self.with_bytes(text, 8);
        self.declare(text);
    }

    /// Maps a file, or is refused: a shared mapping may not write to the second.
    fn map(&mut self) {
        self.to_kernel();
        let file = if self.random.chance(250) { 1 } else { 0 };
        let prot = self
            .random
            .choice(&[READ, WRITE, READ | WRITE, READ | WRITE]);
        let flags = self.random.between(1, 3);
        let length = self.random.choice(&[PAGE, 5000, 2 * PAGE, 10000, 3 * PAGE]);
        let text = format!(in self.alloc; "mmap 0 {length} {prot} {flags} {file}");
        let (writable, shared) = (prot & WRITE != 0, flags == SHARED);
        if file == 1 && shared && writable {
            return self.ask(text, "refused 16");
        }
        if let Some(me) = self.me_mut() {
            let mapped = me.map(rounded_up(length), writable, shared, file);
            self.note(mapped);
        }
        self.ask(text, "at");
    }

    /// Returns one of the mappings, with its place among the regions; `None` if there is none.
    fn mapping(&mut self) -> Option<(usize, Region)> {
        let me = self.processes.get(self.current)?;
        let first = self.random.index(me.regions.len());
        me.mapping_from(first)
    }

    /// Returns a place in a mapping: among the first bytes, which are no zeros, or in any page.
    fn mapped_spot(&mut self, region: Region) -> u64 {
        let offset = self.random.below(8);
        let pages = region.end.saturating_sub(region.start) / PAGE;
        let page = if self.random.chance(800) {
            0
        } else {
            self.random.below(pages)
        };
        region
            .start
            .saturating_add(page.saturating_mul(PAGE))
            .saturating_add(offset)
    }

    /// Loads from a mapping. Returns whether the process goes on.
    fn load_mapped(&mut self) -> bool {
        let Some((_, region)) = self.mapping() else {
            return true;
        };
        let address = self.mapped_spot(region);
        let counts = self.random.chance(400);
        self.touch(Touch::load(address), counts)
    }

    /// Stores to a mapping. Returns whether the process goes on.
    fn store_mapped(&mut self) -> bool {
        let Some((_, region)) = self.mapping() else {
            return true;
        };
        let (address, value) = (self.mapped_spot(region), self.random.between(0x10, 0x100));
        if !region.writable && self.lines.len() < 15 {
            return self.touch(Touch::load(address), false);
        }
        self.touch(Touch::store(address, value), false)
    }

    /// Asks for bytes of a file.
    fn show(&mut self, lengths: Lengths) {
        let file = if self.random.chance(150) { 1 } else { 0 };
        let offset = match self.random.below(5) {
            0 => lengths.of(file).saturating_sub(2),
            1 => PAGE,
            _ => 0,
        };
        let text = format!(in self.alloc; "show {file} {offset} 8");
        self.ask(text, "file");
    }

    /// The kernel copies bytes from a mapping, maybe past its end.
    fn copy_mapped(&mut self) {
        let Some((_, region)) = self.mapping() else {
            return;
        };
        let address = if self.random.chance(500) {
            region.start.saturating_add(self.random.below(4))
        } else {
            region.end.saturating_sub(self.random.between(1, 4))
        };
        let count = self.random.between(2, 6);
        if region.writable && self.random.chance(400) {
            self.copy_out(address, count)
        } else {
            self.copy_in(address, count)
        }
    }

    /// Unmaps a mapping, or its first or last page; of one with three pages, the middle one is refused. Then asks what a file contains.
    fn unmap(&mut self, lengths: Lengths) {
        let Some((number, region)) = self.mapping() else {
            return;
        };
        self.to_kernel();
        let size = region.end.saturating_sub(region.start);
        let sort = self.random.below(5);
        if sort == 0 && size > 2 * PAGE {
            let text = self.munmap_text(region.start.saturating_add(PAGE), PAGE);
            return self.ask(text, "refused 18");
        }
        let (start, end) = part_of(region, sort);
        self.unmap_part(number, start, end);
        if self.random.chance(300) {
            self.audit(true);
        }
        self.show(lengths);
    }

    /// Returns the text of a munmap.
    fn munmap_text(&self, start: u64, length: u64) -> Result<String, AllocError> {
        format!(in self.alloc; "munmap 0 {start:#x} {length}")
    }

    /// Unmaps a part of a mapping, which is at its front or its back, or the whole.
    fn unmap_part(&mut self, number: usize, start: u64, end: u64) {
        if let Some(me) = self.me_mut() {
            me.unmap(number, start, end);
        }
        let text = self.munmap_text(start, end.saturating_sub(start));
        self.say(text, "ok");
    }

    /// Makes an access past a mapping, or one that it does not grant. Returns false.
    fn deny_mmap(&mut self) -> bool {
        let Some((_, region)) = self.mapping() else {
            return true;
        };
        let touch = if self.random.chance(500) {
            Touch::fetch(region.start)
        } else {
            Touch::load(region.end)
        };
        self.touch(touch, false)
    }

    /// Makes a step. Returns whether the process goes on.
    fn step_mmap(&mut self, lengths: Lengths) -> bool {
        match self.random.below(20) {
            0..=3 => return self.load_mapped(),
            4..=8 => return self.store_mapped(),
            9..=11 => self.show(lengths),
            12 | 13 => self.copy_mapped(),
            14 | 15 => self.map(),
            16..=18 => self.unmap(lengths),
            _ if self.lines.len() > 15 => return self.deny_mmap(),
            _ => return self.store_mapped(),
        }
        true
    }

    /// Makes a quiz about mappings.
    pub(crate) fn make_mmap(&mut self) {
        let lengths = Lengths {
            first: self.random.between(4100, 8000),
            second: self.random.between(9, 4000),
        };
        self.declare_file(lengths.first, "rw");
        self.declare_file(lengths.second, "ro");
        self.declare_zeros(PAGE);
        self.begin("boot 1 64 1 full", 1);
        if self.random.chance(500) {
            self.audit(false);
        }
        self.map();
        self.go_on_mmap(lengths);
        self.finish_mmap(lengths);
    }

    /// Makes steps until the script is long, or the process has ended.
    fn go_on_mmap(&mut self, lengths: Lengths) {
        for _ in 0..30 {
            if self.is_long() || self.place == Place::Idle || !self.step_mmap(lengths) {
                break;
            }
        }
    }

    /// Ends the process, if it is there, and asks what a file contains.
    fn finish_mmap(&mut self, lengths: Lengths) {
        if self.place != Place::Idle {
            self.exit();
        }
        self.show(lengths);
    }
}
