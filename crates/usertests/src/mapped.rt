// Steps in mappings, and what files contain.

use crate::state::{Maker, begins};
use std::alloc::AllocError;
use usertest_rows::Call;
use usertest_world::{Base, File, Mapping, PAGE, Place, Unmapped, View, pages_of};

/// The most mappings of a process at once.
const MOST_AT_ONCE: usize = 6;

/// The most mappings that a process ever has.
const MOST_EVER: u64 = 24;

/// Offsets in a page.
const IN_A_PAGE: [u64; 6] = [0, 8, 24, 512, 2040, 4088];

/// The most bytes of a file that are shown.
const MOST_SHOWN: u64 = 32;

/// What mmap is asked for.
#[derive(Clone, Copy)]
struct MapRequest {
    file: File,
    length: u64,
    writable: bool,
    shared: bool,
}

impl MapRequest {
    /// Returns a request for all of a file, shared and writable.
    fn whole(file: File) -> MapRequest {
        MapRequest {
            file,
            length: file.size,
            writable: true,
            shared: true,
        }
    }

    /// Returns whether stores go back to the file.
    fn saves(&self) -> bool {
        self.shared && self.writable
    }
}

/// Which pages of mappings are wanted, of those whose contents labs determine.
#[derive(Clone, Copy)]
pub(crate) struct Known {
    /// Stores to them are granted.
    pub writable: bool,
    /// The process has loaded from them or stored to them.
    pub touched: bool,
    /// The process has stored to them.
    pub stored_to: bool,
}

impl Known {
    /// Adds the pages of a mapping that are wanted; `at` is the mapping's place in the list.
    fn put_pages(
        self,
        found: &mut Vec<(usize, usize)>,
        at: usize,
        mapping: &Mapping,
    ) -> Result<(), AllocError> {
        if self.writable && !mapping.writable {
            return Ok(());
        }
        for page in 0..mapping.pages {
            if self.holds(mapping.view(page)) {
                found.push((at, page))?;
            }
        }
        Ok(())
    }

    /// Returns whether a page is wanted.
    fn holds(self, view: View) -> bool {
        !view.unknown && (view.touched || !self.touched) && (view.stored_to || !self.stored_to)
    }
}

impl Maker {
    /// Returns the mapping of the current process at this place of its list.
    pub(crate) fn mapping(&self, at: usize) -> Option<Mapping> {
        self.world.me().mappings.get(at).copied()
    }

    /// Returns the pages of the current process's mappings that are wanted, as pairs of a place in the list and a page.
    pub(crate) fn pages_that(&self, are: Known) -> Result<Vec<(usize, usize)>, AllocError> {
        let mut found = Vec::new(self.alloc);
        let mut at = 0usize;
        for mapping in self.world.me().mappings.as_slice() {
            are.put_pages(&mut found, at, mapping)?;
            at = at.saturating_add(1);
        }
        Ok(found)
    }

    /// Returns the pages of mappings that may be loaded from, or stored to; the touched ones alone, if so.
    fn known_pages(&self, storing: bool, touched: bool) -> Result<Vec<(usize, usize)>, AllocError> {
        self.pages_that(Known {
            writable: storing,
            touched,
            stored_to: false,
        })
    }

    /// Returns one of the pages that may be loaded from, or stored to; half the time a touched one, if there is one.
    fn any_page(&mut self, storing: bool) -> Result<Option<(usize, usize)>, AllocError> {
        let mut pages = self.known_pages(storing, false)?;
        let touched = self.known_pages(storing, true)?;
        if !touched.is_empty() && self.random.chance(500) {
            pages = touched;
        }
        let chosen = self.random.index(pages.len());
        Ok(pages.get(chosen).copied())
    }

    /// Returns a mapping, by its place in the list, and an offset in it that may be loaded from, or stored to; `None` if there is none.
    pub(crate) fn mapped_place(&mut self, width: u64, storing: bool) -> Option<(usize, u64)> {
        let Ok(page) = self.any_page(storing) else {
            self.lose();
            return None;
        };
        let (at, page) = page?;
        let mapping = self.mapping(at)?;
        let start = (page as u64).saturating_mul(PAGE);
        let offset = start.saturating_add(self.random.choice(&IN_A_PAGE));
        if !storing || mapping.fits(offset, width) {
            return Some((at, offset));
        }
        if mapping.fits(start, width) {
            Some((at, start))
        } else {
            None
        }
    }

    /// Loads from a mapping, by its place in the list.
    pub(crate) fn load_mapped_at(&mut self, at: usize, offset: u64, width: u64) {
        let Some(mapping) = self.mapping(at) else {
            return;
        };
        self.world.note_load(at, (offset / PAGE) as usize);
        self.load(mapping.at(offset), width);
    }

    /// Stores to a mapping, by its place in the list.
    fn store_mapped_at(&mut self, at: usize, offset: u64, width: u64) {
        let Some(mapping) = self.mapping(at) else {
            return;
        };
        self.world.note_store(at, (offset / PAGE) as usize);
        let value = self.random.value(width);
        self.store(mapping.at(offset), width, value);
    }

    /// Loads from any mapping. Returns whether there is one.
    pub(crate) fn load_mapped(&mut self, width: u64) -> bool {
        let Some((at, offset)) = self.mapped_place(width, false) else {
            return false;
        };
        self.load_mapped_at(at, offset, width);
        true
    }

    /// Stores to any mapping. Returns whether there is one.
    pub(crate) fn store_mapped(&mut self, width: u64) -> bool {
        let Some((at, offset)) = self.mapped_place(width, true) else {
            return false;
        };
        self.store_mapped_at(at, offset, width);
        true
    }

    /// Loads from a page of a mapping, or stores to it, if labs determine what it contains.
    fn touch_once(&mut self, at: usize) {
        let Some(mapping) = self.mapping(at) else {
            return;
        };
        let page = self.random.index(mapping.pages);
        if mapping.view(page).unknown {
            return;
        }
        let width = self.random.choice(&[1, 4, 8]);
        let offset = (page as u64)
            .saturating_mul(PAGE)
            .saturating_add(self.random.choice(&[0, 8, 512, 4088]));
        if mapping.writable && self.random.chance(500) && mapping.fits(offset, width) {
            self.store_mapped_at(at, offset, width)
        } else {
            self.load_mapped_at(at, offset, width)
        }
    }

    /// Makes one or two loads or stores in a mapping.
    fn touch(&mut self, at: usize) {
        for _ in 0..self.random.between(1, 3) {
            self.touch_once(at);
        }
    }

    /// Loads from each of so many pages of a mapping that labs determine.
    fn load_each(&mut self, at: usize, first: usize, count: usize) {
        for number in 0..count {
            let page = first.saturating_add(number);
            match self.mapping(at) {
                Some(mapping) if !mapping.view(page).unknown => {
                    self.load_mapped_at(at, (page as u64).saturating_mul(PAGE), 8);
                }
                _ => {}
            }
        }
    }

    /// Returns whether the C program's file has another part after this one: past its end there are no zeros then, but that part.
    fn is_followed(&self, file: &File) -> bool {
        for other in self.world.files.as_slice() {
            if other.c_number == file.c_number && other.offset > file.offset {
                return true;
            }
        }
        false
    }

    /// Returns any request of at most `most` pages; `None` if there is no file.
    fn any_request(&mut self, most: usize) -> Option<MapRequest> {
        let number = self.random.index(self.world.files.len());
        let file = self.world.files.get(number).copied()?;
        let writable = self.random.chance(667);
        let shared = self.random.chance(600);
        let whole = (file.pages() as u64).saturating_mul(PAGE);
        let part = self.random.between(1, file.size.saturating_add(1));
        let mut length = self.random.choice(&[file.size, whole, part]);
        if self.is_followed(&file) {
            length = length.min(file.size);
        }
        Some(MapRequest {
            file,
            length: length.min((most as u64).saturating_mul(PAGE)),
            writable,
            shared,
        })
    }

    /// Returns whether the current process may have another mapping.
    fn has_room(&self, process: usize) -> bool {
        let process = self.world.process(process);
        process.mappings.len() < MOST_AT_ONCE && process.next_mapping < MOST_EVER
    }

    /// Returns the line of a request, without its expected answer.
    fn request_line(&self, request: &MapRequest) -> Result<String, AllocError> {
        let (length, file) = (request.length, request.file.number);
        let rights = if request.writable { 3 } else { 1 };
        let flags = if request.shared { 1 } else { 2 };
        format!(in self.alloc; "mmap 0 {length} {rights} {flags} {file}")
    }

    /// Writes the row of a request, for the mapping of this number.
    fn write_map(&mut self, step: usize, number: u64, mode: &str, request: &MapRequest) {
        let (c_number, offset, length) = (
            request.file.c_number,
            request.file.offset,
            request.length,
        );
        let rights = if request.writable {
            "PROT_READ | PROT_WRITE"
        } else {
            "PROT_READ"
        };
        let flags = if request.shared {
            "MAP_SHARED"
        } else {
            "MAP_PRIVATE"
        };
        let arguments = format!(in self.alloc;
            "{number}, \"kitf{c_number}\", {mode}, {offset}, {length}, {rights}, {flags}, "
        );
        self.write_step(Call::Map, step, arguments);
    }

    /// Asks for a mapping that is refused: stores would go back to a file that is read-only.
    fn map_refused(&mut self, request: &MapRequest) {
        let step = self.test.next_line();
        let line = self.request_line(request);
        self.test.say_kernel(line, "refused 16");
        self.write_map(step, 0, "O_RDONLY", request);
    }

    /// Returns the mapping that the current process gets by a request.
    fn mapping_of(&self, request: &MapRequest) -> Mapping {
        let pages = pages_of(request.length) as usize;
        let process = self.world.me();
        Mapping {
            number: process.next_mapping,
            file: request.file,
            first: 0,
            pages,
            start: process.place_of_mapping(pages),
            writable: request.writable,
            shared: request.shared,
            views: [View::UNTOUCHED; 3],
        }
    }

    /// Adds the lines of a request that is granted at an address.
    fn say_map(&mut self, request: &MapRequest, start: u64) {
        let line = self.request_line(request);
        let words = format!(in self.alloc; "at {start:#x}");
        self.test.say_call(line, begins(words));
    }

    /// Makes a mapping. Returns its place in the list.
    fn map_granted(&mut self, request: &MapRequest) -> usize {
        let (step, mapping) = (self.test.next_line(), self.mapping_of(request));
        self.say_map(request, mapping.start);
        let number = mapping.number;
        if self.world.map(mapping).is_err() {
            self.lose();
        }
        let may_not_write = request.file.read_only || (!request.saves() && self.random.chance(400));
        let mode = if may_not_write { "O_RDONLY" } else { "O_RDWR" };
        self.write_map(step, number, mode, request);
        self.world.me().mappings.len().saturating_sub(1)
    }

    /// Makes what a request asks for, and then accesses: loads from each page, if so.
    fn map(&mut self, request: &MapRequest, each: bool) {
        if request.saves() && request.file.read_only {
            return self.map_refused(request);
        }
        let at = self.map_granted(request);
        if each {
            self.load_each(at, 0, pages_of(request.length) as usize);
        }
        if self.random.chance(800) {
            self.touch(at);
        }
    }

    /// Maps a file. Returns whether the process may have another mapping.
    pub(crate) fn map_any(&mut self) -> bool {
        if !self.has_room(self.world.current) {
            return false;
        }
        let Some(request) = self.any_request(usize::MAX) else {
            return false;
        };
        self.map(&request, false);
        true
    }

    /// Maps at most so many pages of a file, and loads from each, if the process may have another mapping.
    fn map_again(&mut self, most: usize) {
        if !self.has_room(self.world.current) {
            return;
        }
        match self.any_request(most) {
            Some(request) => self.map(&request, true),
            None => {}
        }
    }

    /// Returns how many pages of a mapping to unmap, and whether they are a front; else they are a back.
    fn part_to_unmap(&mut self, mapping: &Mapping) -> (usize, bool) {
        let mut count = mapping.pages;
        if count > 1 && self.random.chance(600) {
            count = self.random.between(1, count as u64) as usize;
        }
        let front = count == mapping.pages || self.random.chance(500);
        (count, front)
    }

    /// Notes the pages that munmap took. `M[i]` moves to the rest, or past it; `Mend[i]` to the rest's end. Names of pages that left earlier
    /// are good until one of them moves.
    fn note_unmapped(&mut self, number: u64, start: u64, count: usize, front: bool) {
        let size = (count as u64).saturating_mul(PAGE);
        let unmapped = &mut self.world.me_mut().unmapped;
        unmapped.retain(|page| page.number != number);
        for page in 0..count {
            let from = (page as u64).saturating_mul(PAGE);
            let base = if front {
                Base::Before(number)
            } else {
                Base::After(number)
            };
            let place = Place {
                base,
                offset: if front {
                    size.saturating_sub(from)
                } else {
                    from
                },
                address: start.saturating_add(from),
            };
            self.add_unmapped(Unmapped { number, place });
        }
    }

    /// Adds a page to those that munmap took.
    fn add_unmapped(&mut self, page: Unmapped) {
        if self.world.me_mut().unmapped.push(page).is_err() {
            self.lose();
        }
    }

    /// Notes that pages of a mapping were unmapped.
    fn cut(&mut self, at: usize, first: usize, count: usize, front: bool) {
        let Some(mapping) = self.mapping(at) else {
            return;
        };
        let current = self.world.current;
        self.world.drop_pages(current, &mapping, first, count);
        let process = self.world.process_mut(current);
        if count == mapping.pages {
            if at < process.mappings.len() {
                process.mappings.remove(at);
            }
        } else if let Some(kept) = process.mappings.get_mut(at) {
            *kept = if front {
                mapping.without_front(count)
            } else {
                mapping.without_back(count)
            };
        }
        let start = mapping
            .start
            .saturating_add((first as u64).saturating_mul(PAGE));
        self.note_unmapped(mapping.number, start, count, front);
    }

    /// Shows some of the pages of a file that were unmapped with a mapping.
    fn show_unmapped(&mut self, mapping: &Mapping, first: usize, count: usize) {
        for number in 0..count {
            let page = first.saturating_add(number);
            let wanted = mapping.view(page).stored_to || self.random.chance(300);
            if wanted && self.random.chance(700) {
                self.show(&mapping.file, mapping.first.saturating_add(page));
            }
        }
    }

    /// Unmaps pages of a mapping.
    fn unmap_part(&mut self, at: usize, first: usize, count: usize, front: bool) {
        let Some(mapping) = self.mapping(at) else {
            return;
        };
        let (step, number) = (self.test.next_line(), mapping.number);
        let place = mapping.at((first as u64).saturating_mul(PAGE));
        let (address, size) = (place.address, (count as u64).saturating_mul(PAGE));
        let line = format!(in self.alloc; "munmap 0 {address:#x} {size}");
        self.test.say_kernel(line, "ok");
        let front_word = front as u64;
        self.write_text(format!(in self.alloc;
            "  unmap({step}, {number}, {place}, {size}, {front_word});\n"
        ));
        self.cut(at, first, count, front);
    }

    /// Unmaps a front or a back of a mapping, or all of it. Half the time each page was loaded from, and another mapping may get the same
    /// addresses: a translation that is kept must not serve it. Returns whether there is a mapping.
    pub(crate) fn unmap(&mut self) -> bool {
        let at = self.random.index(self.world.me().mappings.len());
        let Some(mapping) = self.mapping(at) else {
            return false;
        };
        let (count, front) = self.part_to_unmap(&mapping);
        let first = if front {
            0
        } else {
            mapping.pages.saturating_sub(count)
        };
        let again = self.random.chance(500);
        if again {
            self.load_each(at, first, count);
        }
        // as the loads have left it
        let mapping = self.mapping(at).unwrap_or(mapping);
        self.unmap_part(at, first, count, front);
        if again {
            self.map_again(count);
        }
        self.show_unmapped(&mapping, first, count);
        self.touch_rest(mapping.number);
        true
    }

    /// Accesses what is left of the mapping of this number, or nothing.
    fn touch_rest(&mut self, number: u64) {
        let rest = self.world.me().find_mapping(number);
        if let Some(at) = rest
            && self.random.chance(600)
        {
            self.touch(at);
        }
    }

    /// Shows bytes of a file if labs determine them: the current process reads them, or the parent of the first at the end. Returns
    /// whether they do.
    pub(crate) fn show(&mut self, file: &File, page: usize) -> bool {
        if !self.world.is_shown(file.number, page) {
            return false;
        }
        let offset = (page as u64)
            .saturating_mul(PAGE)
            .saturating_add(self.random.choice(&[0, 0, 8, 512, 4056]));
        let count = file.size.saturating_sub(offset).min(MOST_SHOWN);
        if count == 0 {
            return false;
        }
        self.show_bytes(file, offset, count);
        true
    }

    /// Shows so many bytes of a file from an offset on.
    fn show_bytes(&mut self, file: &File, offset: u64, count: u64) {
        let (step, number, size) = (self.test.next_line(), file.number, file.size);
        let line = format!(in self.alloc; "show {number} {offset} {count}");
        let words = format!(in self.alloc; "file {size}");
        self.test.say(line, begins(words));
        let (c_number, c_offset) = (file.c_number, file.offset.saturating_add(offset));
        let arguments = format!(in self.alloc; "\"kitf{c_number}\", {c_offset}, {count}, ");
        self.write_step(Call::Show, step, arguments);
    }

    /// Shows bytes of any file. Returns whether labs determine them.
    pub(crate) fn show_some(&mut self) -> bool {
        let number = self.random.index(self.world.files.len());
        let Some(file) = self.world.files.get(number).copied() else {
            return false;
        };
        let page = self.random.index(file.pages());
        self.show(&file, page)
    }

    /// Kills a child, and shows what it had stored to files.
    fn kill_and_show(&mut self, child: usize) {
        let Ok(stored) = self.kill(child) else {
            return self.lose();
        };
        for (number, page) in stored.as_slice() {
            if let Some(file) = self.world.files.get(*number).copied() {
                self.show(&file, *page);
            }
        }
    }

    /// Kills a child. Returns whether there is one that can be killed.
    pub(crate) fn kill_child(&mut self) -> bool {
        let children = self.childless();
        match self.any_of(children) {
            Some(child) => {
                self.kill_and_show(child);
                true
            }
            None => false,
        }
    }

    /// Returns the children that can be killed and may have another mapping.
    fn children_with_room(&self) -> Result<Vec<usize>, AllocError> {
        let mut children = Vec::new(self.alloc);
        for child in self.childless()?.as_slice() {
            if self.has_room(*child) {
                children.push(*child)?;
            }
        }
        Ok(children)
    }

    /// Stores to the 8 bytes from 8 on in a page of the current process's mapping, if that may be.
    fn store_in_page(&mut self, at: usize, page: usize) {
        let offset = (page as u64).saturating_mul(PAGE).saturating_add(8);
        match self.mapping(at) {
            Some(mapping) if mapping.fits(offset, 8) && !mapping.view(page).unknown => {
                self.store_mapped_at(at, offset, 8);
            }
            _ => {}
        }
    }

    /// Returns any file, if it may be written and nobody has mapped it.
    fn unmapped_file(&mut self) -> Option<File> {
        let number = self.random.index(self.world.files.len());
        let file = self.world.files.get(number).copied()?;
        if file.read_only || self.world.is_mapped(number) {
            None
        } else {
            Some(file)
        }
    }

    /// Maps a file, and stores to its first page and maybe to another.
    fn map_and_store(&mut self, file: File) {
        self.map(&MapRequest::whole(file), false);
        let at = self.world.me().mappings.len().saturating_sub(1);
        self.store_in_page(at, 0);
        let page = self.random.index(file.pages());
        if page > 0 {
            self.store_in_page(at, page);
        }
    }

    /// A child maps a file that nobody else has, stores to it, and is killed: the file has what it stored. Returns whether there are such
    /// a child and such a file.
    pub(crate) fn kill_after_stores(&mut self) -> bool {
        let parent = self.world.current;
        let Some(file) = self.unmapped_file() else {
            return false;
        };
        let children = self.children_with_room();
        let Some(child) = self.any_of(children) else {
            return false;
        };
        self.pass_turn(child);
        self.map_and_store(file);
        self.pass_turn(parent);
        self.kill_and_show(child);
        true
    }
}
