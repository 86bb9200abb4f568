// Accesses that must end the process.

use crate::state::{Maker, begins};
use std::alloc::AllocError;
use usertest_world::{Base, NOBODYS, PAGE, Place, rounded_up};

/// The number of the rule of the guard page.
const GUARD_PAGE: u64 = 4;

/// The number of the rule of addresses in no region.
pub const NO_REGION: u64 = 5;

/// The number of the rule of a right that the region lacks.
const NO_RIGHT: u64 = 7;

/// An access that must end the process.
#[derive(Clone, Copy)]
pub struct Denied {
    pub place: Place,
    pub width: u64,
    pub store: bool,
    /// The number of the rule that denies it; `None` if it depends on the address.
    pub rule: Option<u64>,
}

impl Maker {
    /// Returns an access above the heap. The rest of its last page is granted in the model, and labs differ there.
    fn above_heap(&mut self) -> Denied {
        let distance = self
            .random
            .choice(&[0, 8, 8, 2048, 4088, 4096, 0x10000, 0x100000]);
        let offset = rounded_up(self.world.me().size).saturating_add(distance);
        Denied {
            place: Place::heap(offset),
            width: self.random.choice(&[1, 8]),
            store: self.random.chance(500),
            rule: Some(NO_REGION),
        }
    }

    /// Returns an access to the guard page.
    fn in_guard(&mut self) -> Denied {
        Denied {
            place: Place::guard(self.random.choice(&[0, 8, 2048, 4088])),
            width: 1,
            store: self.random.chance(500),
            rule: Some(GUARD_PAGE),
        }
    }

    /// Returns an access to an address that belongs to no process.
    fn at_nobodys(&mut self) -> Denied {
        Denied {
            place: Place::nobodys(self.random.choice(&NOBODYS)),
            width: 1,
            store: self.random.chance(500),
            rule: None,
        }
    }

    /// Returns a store to the text.
    fn to_text(&self) -> Denied {
        Denied {
            place: Place::TEXT,
            width: 1,
            store: true,
            rule: Some(NO_RIGHT),
        }
    }

    /// Returns an access to a page that was unmapped; above the heap, if there is none.
    fn in_unmapped(&mut self) -> Denied {
        let at = self.random.index(self.world.me().unmapped.len());
        match self.world.me().unmapped.get(at).copied() {
            Some(page) => Denied {
                place: page.place,
                width: 8,
                store: self.random.chance(400),
                rule: Some(NO_REGION),
            },
            None => self.above_heap(),
        }
    }

    /// Returns the places in the list of the mappings that may not be stored to.
    fn read_only_mappings(&self) -> Result<Vec<usize>, AllocError> {
        let mut found = Vec::new(self.alloc);
        for (at, mapping) in self.world.me().mappings.as_slice().iter().enumerate() {
            if !mapping.writable {
                found.push(at)?;
            }
        }
        Ok(found)
    }

    /// Returns a store to one of these mappings, which may not be stored to; above the heap, if there is none.
    fn to_read_only(&mut self, mappings: &[usize]) -> Denied {
        let at = self.random.index(mappings.len());
        let at = mappings.get(at).copied().unwrap_or(0);
        let Some(mapping) = self.world.me().mappings.get(at).copied() else {
            return self.above_heap();
        };
        let page = self.random.index(mapping.pages) as u64;
        let offset = page
            .saturating_mul(PAGE)
            .saturating_add(self.random.choice(&[0, 8, 4088]));
        Denied {
            place: mapping.at(offset),
            width: 8,
            store: true,
            rule: Some(NO_RIGHT),
        }
    }

    /// Returns an access that must end the process.
    fn choose_denied(&mut self) -> Denied {
        let Ok(read_only) = self.read_only_mappings() else {
            self.lose();
            return self.above_heap();
        };
        let unmapped = if self.world.me().unmapped.is_empty() {
            0
        } else {
            5
        };
        let kept = if read_only.is_empty() { 0 } else { 5 };
        let sort = self.random.below(8 + unmapped + kept);
        match sort {
            0..=3 => self.above_heap(),
            4..=5 => self.in_guard(),
            6 => self.at_nobodys(),
            7 => self.to_text(),
            _ if sort < 8 + unmapped => self.in_unmapped(),
            _ => self.to_read_only(read_only.as_slice()),
        }
    }

    /// Adds the lines of an access that must end the process.
    fn say_denied(&mut self, access: Denied) {
        let (address, width) = (access.place.address, access.width);
        let text = if access.store {
            format!(in self.alloc; "store 0 {address:#x} {width} 0x55")
        } else {
            format!(in self.alloc; "load 0 {address:#x} {width}")
        };
        self.test.say_text(text, "fault");
        self.say_ended(access.rule);
    }

    /// Adds the line by which an access ends the process, by the rule of this number.
    fn say_ended(&mut self, rule: Option<u64>) {
        let words = match rule {
            Some(rule) => format!(in self.alloc; "ended {rule}"),
            None => String::from_str(self.alloc, "ended"),
        };
        let text = String::from_str(self.alloc, "fix 0");
        self.test.say(text, begins(words));
    }

    /// Adds a row that old versions of xv6 leave out if it is about the text: before 2023 they let programs store to it.
    fn write_unless_old(&mut self, place: Place, text: Result<String, AllocError>) {
        if !matches!(place.base, Base::Text) {
            return self.write_text(text);
        }
        let Ok(text) = text else {
            return self.lose();
        };
        let shown = text.as_str();
        self.write_text(format!(in self.alloc; "#ifndef KIT_OLD\n{shown}#endif\n"));
    }

    /// A child makes an access that ends it.
    pub(crate) fn deny(&mut self, access: Denied) {
        let step = self.test.next_line();
        self.begin_child();
        self.say_denied(access);
        self.schedule(self.world.current);
        let (place, width, store) = (access.place, access.width, access.store as u64);
        let text = format!(in self.alloc; "  denied({step}, {store}, {place}, {width});\n");
        self.write_unless_old(place, text);
    }

    /// A child makes any access that ends it.
    pub(crate) fn deny_any(&mut self) -> bool {
        let access = self.choose_denied();
        self.deny(access);
        true
    }

    /// Returns the call of an access.
    fn access_text(&self, access: Denied) -> Result<String, AllocError> {
        let (place, width) = (access.place, access.width);
        if access.store {
            format!(in self.alloc; "set({place}, {width}, 0x55);")
        } else {
            format!(in self.alloc; "get({place}, {width});")
        }
    }

    /// Returns the row of an access by which a process ends itself in this step.
    fn end_text(&self, step: usize, access: Denied) -> Result<String, AllocError> {
        let text = self.access_text(access)?;
        let shown = text.as_str();
        format!(in self.alloc;
            "  at({step}); {shown} fail({step}, \"this access must end the process\");\n"
        )
    }

    /// Returns a row that old versions of xv6 leave out: there the process just ends.
    fn unless_old(
        &self,
        step: usize,
        row: Result<String, AllocError>,
    ) -> Result<String, AllocError> {
        let text = row?;
        let shown = text.as_str();
        format!(in self.alloc; "#ifdef KIT_OLD\n  done({step}, -1);\n#else\n{shown}#endif\n")
    }

    /// Writes the access by which the process on the hart ends itself in this step.
    fn write_end(&mut self, step: usize, access: Denied) {
        let row = self.end_text(step, access);
        if matches!(access.place.base, Base::Text) {
            self.write_text(self.unless_old(step, row));
        } else {
            self.write_text(row);
        }
    }

    /// The process on the hart exits, or makes an access that ends it. Returns whether it did: the first does not, and none that has
    /// children.
    pub(crate) fn end(&mut self) -> bool {
        let current = self.world.current;
        if self.world.me().parent.is_none() || self.world.has_children(current) {
            return false;
        }
        if !self.random.chance(300) {
            self.exit();
            return true;
        }
        let step = self.test.next_line();
        let access = self.choose_denied();
        self.say_denied(access);
        self.write_end(step, access);
        self.leave_family(step);
        true
    }
}
