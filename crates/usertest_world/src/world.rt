// `World`: all processes of a script, and the pages of files of which labs leave open what they contain.

use crate::files::File;
use crate::mappings::{Mapping, View};
use crate::processes::Process;
use std::alloc::{AllocError, Global};

/// All processes of a script, and the pages of files of which labs leave open what they contain.
#[derive(Drop)]
pub struct World {
    alloc: Global,
    /// The files, by number; at most four.
    pub files: Vec<File>,
    first: Process,
    others: Vec<Process>,
    /// The number of the process that is on the hart.
    pub current: usize,
    /// Of each file and each of its pages, whether labs leave open what it contains.
    open: [[bool; 3]; 4],
}

impl World {
    /// Returns the world of the first process alone, without files.
    pub fn new(alloc: Global) -> World {
        World {
            alloc,
            files: Vec::new(alloc),
            first: Process::first(alloc),
            others: Vec::new(alloc),
            current: 0,
            open: [[false; 3]; 4],
        }
    }

    /// Returns how many processes there have been.
    pub fn count(&self) -> usize {
        self.others.len().saturating_add(1)
    }

    /// Returns the process of a number; the first, if there is no such number.
    pub fn process(&self, number: usize) -> &Process {
        match number.checked_sub(1) {
            Some(at) => self.others.get(at).unwrap_or(&self.first),
            None => &self.first,
        }
    }

    /// Returns the process of a number, to be changed; the first, if there is no such number.
    pub fn process_mut(&mut self, number: usize) -> &mut Process {
        let Some(at) = number.checked_sub(1) else {
            return &mut self.first;
        };
        match self.others.get_mut(at) {
            Some(process) => process,
            None => &mut self.first,
        }
    }

    /// Returns the process that is on the hart.
    pub fn me(&self) -> &Process {
        self.process(self.current)
    }

    /// Returns the process that is on the hart, to be changed.
    pub fn me_mut(&mut self) -> &mut Process {
        let current = self.current;
        self.process_mut(current)
    }

    /// Returns how many processes live.
    pub fn living(&self) -> usize {
        let mut living = 0usize;
        for number in 0..self.count() {
            if self.process(number).lives {
                living = living.saturating_add(1);
            }
        }
        living
    }

    /// Returns whether a living process is in this slot.
    fn is_taken(&self, slot: u64) -> bool {
        for number in 0..self.count() {
            let process = self.process(number);
            if process.lives && process.slot == slot {
                return true;
            }
        }
        false
    }

    /// Returns the lowest free slot.
    pub fn free_slot(&self) -> u64 {
        let count = self.count() as u64;
        for slot in 0..count {
            if !self.is_taken(slot) {
                return slot;
            }
        }
        count
    }

    /// Returns the numbers of the children of a process that live.
    pub fn children_of(&self, parent: usize) -> Result<Vec<usize>, AllocError> {
        let mut children = Vec::new(self.alloc);
        for number in 0..self.count() {
            let process = self.process(number);
            if process.lives && process.parent == Some(parent) {
                children.push(number)?;
            }
        }
        Ok(children)
    }

    /// Returns whether a process has a child that lives.
    pub fn has_children(&self, parent: usize) -> bool {
        for number in 0..self.count() {
            let process = self.process(number);
            if process.lives && process.parent == Some(parent) {
                return true;
            }
        }
        false
    }

    /// Returns a process, its parent, and so on to the first.
    pub fn line_of(&self, number: usize) -> Result<Vec<usize>, AllocError> {
        let mut line = Vec::new(self.alloc);
        let mut now = Some(number);
        for _ in 0..self.count() {
            let Some(number) = now else {
                break;
            };
            line.push(number)?;
            now = self.process(number).parent;
        }
        Ok(line)
    }

    /// Returns whether labs leave open what a page of a file contains.
    fn is_open(&self, file: usize, page: usize) -> bool {
        match self.open.get(file) {
            Some(pages) => pages.get(page).copied().unwrap_or(false),
            None => false,
        }
    }

    /// Notes whether labs leave open what a page of a file contains.
    fn set_open(&mut self, file: usize, page: usize, open: bool) {
        if let Some(pages) = self.open.get_mut(file)
            && let Some(old) = pages.get_mut(page)
        {
            *old = open;
        }
    }

    /// Notes what the child of a fork does not know: of the pages of a shared mapping to which its parent has stored.
    fn open_stored(&mut self, mapping: &Mapping) {
        if !mapping.shared {
            return;
        }
        for page in 0..mapping.pages {
            if mapping.view(page).stored_to {
                self.set_open(
                    mapping.file.number,
                    mapping.first.saturating_add(page),
                    true,
                );
            }
        }
    }

    /// Notes what a fork of the current process leaves open.
    pub fn note_fork(&mut self) {
        for at in 0..self.me().mappings.len() {
            if let Some(mapping) = self.me().mappings.get(at).copied() {
                self.open_stored(&mapping);
            }
        }
    }

    /// Adds the child that a fork of the current process makes, in the lowest free slot. Returns its number.
    pub fn fork(&mut self) -> Result<usize, AllocError> {
        let child = self.me().child(self.alloc, self.current, self.free_slot())?;
        self.note_fork();
        let parent = self.me_mut();
        parent.spawned = parent.spawned.saturating_add(1);
        self.others.push(child)?;
        Ok(self.others.len())
    }

    /// Returns whether a shared mapping of a process has this page of this file. The mapping numbered `but` does not count.
    fn process_shares(&self, number: usize, but: Option<u64>, file: usize, page: usize) -> bool {
        let process = self.process(number);
        if !process.lives {
            return false;
        }
        for mapping in process.mappings.as_slice() {
            if mapping.shared
                && Some(mapping.number) != but
                && mapping.page_of(file, page).is_some()
            {
                return true;
            }
        }
        false
    }

    /// Returns whether a shared mapping has this page of this file, beside a mapping of a process.
    fn others_share(&self, owner: usize, mapping: u64, file: usize, page: usize) -> bool {
        for number in 0..self.count() {
            let but = if number == owner { Some(mapping) } else { None };
            if self.process_shares(number, but, file, page) {
                return true;
            }
        }
        false
    }

    /// Notes that pages of a mapping of a process leave. A page that was stored to and that nobody else shares is written back: what the
    /// file's page contains is known again.
    pub fn drop_pages(&mut self, owner: usize, mapping: &Mapping, first: usize, count: usize) {
        for at in 0..count {
            let page = first.saturating_add(at);
            let view = mapping.view(page);
            let (file, file_page) = (mapping.file.number, mapping.first.saturating_add(page));
            if mapping.shared
                && view.stored_to
                && !view.unknown
                && !self.others_share(owner, mapping.number, file, file_page)
            {
                self.set_open(file, file_page, false);
            }
        }
    }

    /// Notes that a process has ended.
    pub fn end(&mut self, number: usize) {
        for at in 0..self.process(number).mappings.len() {
            if let Some(mapping) = self.process(number).mappings.get(at).copied() {
                self.drop_pages(number, &mapping, 0, mapping.pages);
            }
        }
        let process = self.process_mut(number);
        process.mappings.clear();
        process.lives = false;
    }

    /// Notes in the mappings of a process that another mapping has stored to this page of this file: whether they see it, labs leave
    /// open. The mapping numbered `but` has stored. Returns whether one of them is shared.
    fn hide_in_process(
        &mut self,
        number: usize,
        but: Option<u64>,
        file: usize,
        page: usize,
    ) -> bool {
        let process = self.process_mut(number);
        let mut shares = false;
        if !process.lives {
            return false;
        }
        for mapping in process.mappings.as_mut_slice() {
            if Some(mapping.number) == but {
                continue;
            }
            let Some(its_page) = mapping.page_of(file, page) else {
                continue;
            };
            let view = mapping.view(its_page);
            mapping.set_view(
                its_page,
                View {
                    unknown: true,
                    ..view
                },
            );
            shares = shares || mapping.shared;
        }
        shares
    }

    /// Notes in all mappings but one of a process that this one has stored to this page of this file.
    fn hide_from_others(&mut self, owner: usize, mapping: u64, file: usize, page: usize) {
        for number in 0..self.count() {
            let but = if number == owner { Some(mapping) } else { None };
            if self.hide_in_process(number, but, file, page) {
                self.set_open(file, page, true);
            }
        }
    }

    /// Notes that the current process has loaded from a page of its mapping at this place of its list.
    pub fn note_load(&mut self, at: usize, page: usize) {
        if let Some(mapping) = self.me_mut().mappings.get_mut(at) {
            let view = mapping.view(page);
            mapping.set_view(
                page,
                View {
                    touched: true,
                    ..view
                },
            );
        }
    }

    /// Notes that the current process has stored to a page of its mapping at this place of its list.
    pub fn note_store(&mut self, at: usize, page: usize) {
        let Some(mapping) = self.me_mut().mappings.get_mut(at) else {
            return;
        };
        let view = mapping.view(page);
        mapping.set_view(
            page,
            View {
                touched: true,
                stored_to: true,
                ..view
            },
        );
        let mapping = *mapping;
        if mapping.shared {
            let file_page = mapping.first.saturating_add(page);
            self.hide_from_others(self.current, mapping.number, mapping.file.number, file_page);
        }
    }

    /// Returns whether a mapping shares this page of this file and has stored to it.
    fn is_stored_by_sharer(&self, file: usize, page: usize) -> bool {
        for number in 0..self.count() {
            let process = self.process(number);
            if process.lives && process.has_stored(file, page) {
                return true;
            }
        }
        false
    }

    /// Adds a mapping to the current process, from the first page of its file on, with what is known of its pages: if one that shares
    /// a page has stored to it, labs leave open in which order both are written back.
    pub fn map(&mut self, mapping: Mapping) -> Result<(), AllocError> {
        let mut mapping = mapping;
        let file = mapping.file.number;
        for page in 0..mapping.pages {
            let stored = self.is_stored_by_sharer(file, page);
            let unknown = stored || self.is_open(file, page);
            mapping.set_view(
                page,
                View {
                    unknown,
                    ..View::UNTOUCHED
                },
            );
            if mapping.shared && stored {
                self.set_open(file, page, true);
            }
        }
        let process = self.me_mut();
        process.next_mapping = process.next_mapping.saturating_add(1);
        process.unmapped.clear();
        process.mappings.push(mapping)?;
        Ok(())
    }

    /// Returns whether labs determine what a page of a file contains.
    pub fn is_shown(&self, file: usize, page: usize) -> bool {
        !self.is_open(file, page) && !self.is_stored_by_sharer(file, page)
    }

    /// Returns whether a living process has a mapping of this file.
    pub fn is_mapped(&self, file: usize) -> bool {
        for number in 0..self.count() {
            let process = self.process(number);
            if process.lives && process.maps(file) {
                return true;
            }
        }
        false
    }
}
