// `Mapping`: a mapping of a process, with a `View` of each of its pages.

use crate::files::File;
use crate::places::{Base, PAGE, Place};

/// What a process knows of a page of a mapping.
#[derive(Clone, Copy)]
pub struct View {
    /// Labs leave open what the page contains: it is not accessed.
    pub unknown: bool,
    /// The process has loaded from it or stored to it.
    pub touched: bool,
    /// The process has stored to it.
    pub stored_to: bool,
}

impl View {
    /// A page that was not accessed.
    pub const UNTOUCHED: View = View {
        unknown: false,
        touched: false,
        stored_to: false,
    };

    /// A page of which labs leave open what it contains.
    pub const UNKNOWN: View = View {
        unknown: true,
        touched: false,
        stored_to: false,
    };
}

/// A mapping of a process.
#[derive(Clone, Copy)]
pub struct Mapping {
    /// Its index in `M` of the C text.
    pub number: u64,
    pub file: File,
    /// Its first page in the file.
    pub first: usize,
    /// How many pages it has.
    pub pages: usize,
    /// Its address in the script.
    pub start: u64,
    pub writable: bool,
    pub shared: bool,
    /// What is known of its pages: no file has more than three.
    pub views: [View; 3],
}

impl Mapping {
    /// Returns the address past its last page.
    pub fn end(&self) -> u64 {
        self.start
            .saturating_add((self.pages as u64).saturating_mul(PAGE))
    }

    /// Returns the place of an offset in it.
    pub fn at(&self, offset: u64) -> Place {
        Place {
            base: Base::Mapping(self.number),
            offset,
            address: self.start.saturating_add(offset),
        }
    }

    /// Returns what is known of a page of it.
    pub fn view(&self, page: usize) -> View {
        if page >= self.pages {
            return View::UNKNOWN;
        }
        self.views.get(page).copied().unwrap_or(View::UNKNOWN)
    }

    /// Notes what is known of a page of it.
    pub fn set_view(&mut self, page: usize, view: View) {
        if let Some(old) = self.views.get_mut(page) {
            *old = view;
        }
    }

    /// Returns the number of its page that is a page of this file; `None` if it has none.
    pub fn page_of(&self, file: usize, page: usize) -> Option<usize> {
        let its_page = page.checked_sub(self.first)?;
        if self.file.number == file && its_page < self.pages {
            Some(its_page)
        } else {
            None
        }
    }

    /// Returns whether an access of this width may be a store. Stores past the file's end are not made in shared mappings: some kernels
    /// make the file longer.
    pub fn fits(&self, offset: u64, width: u64) -> bool {
        let end = (self.first as u64)
            .saturating_mul(PAGE)
            .saturating_add(offset)
            .saturating_add(width);
        !self.shared || end <= self.file.size
    }

    /// Returns the mapping in a forked child. Labs let it read the file again, or have a copy, where the parent has stored.
    pub fn child_of(&self) -> Mapping {
        let mut child = *self;
        for view in child.views.iter_mut() {
            *view = View {
                unknown: view.unknown || view.stored_to,
                touched: false,
                stored_to: false,
            };
        }
        child
    }

    /// Returns the mapping without its first `pages` pages.
    pub fn without_front(&self, pages: usize) -> Mapping {
        let mut views = [View::UNKNOWN; 3];
        for (at, view) in views.iter_mut().enumerate() {
            *view = self.view(at.saturating_add(pages));
        }
        Mapping {
            first: self.first.saturating_add(pages),
            pages: self.pages.saturating_sub(pages),
            start: self
                .start
                .saturating_add((pages as u64).saturating_mul(PAGE)),
            views,
            ..*self
        }
    }

    /// Returns the mapping without its last `pages` pages.
    pub fn without_back(&self, pages: usize) -> Mapping {
        Mapping {
            pages: self.pages.saturating_sub(pages),
            ..*self
        }
    }
}
