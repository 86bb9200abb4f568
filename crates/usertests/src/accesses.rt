// Loads and stores, in the heap or in a mapping.

use crate::state::Maker;
use usertest_rows::Call;
use usertest_world::{PAGE, Place};

/// The widths of accesses, in bytes.
const WIDTHS: [u64; 4] = [1, 2, 4, 8];

impl Maker {
    /// Returns whether an access goes to a mapping, with this probability if there is one.
    fn takes_mapping(&mut self, permille: u64) -> bool {
        !self.world.me().mappings.is_empty() && self.random.chance(permille)
    }

    /// Makes a load. Returns whether there is a place for it.
    pub(crate) fn load_any(&mut self) -> bool {
        let width = self.random.choice(&WIDTHS);
        if self.takes_mapping(700) {
            self.load_mapped(width)
        } else {
            self.load_heap(width)
        }
    }

    /// Makes a store. Returns whether there is a place for it.
    pub(crate) fn store_any(&mut self) -> bool {
        let width = self.random.choice(&WIDTHS);
        if self.takes_mapping(700) {
            self.store_mapped(width)
        } else {
            self.store_heap(width)
        }
    }

    /// Returns a place in a mapping that a child may load from, and whether it may store there if that is wanted; `None` if there is none
    /// whose value labs determine in a child.
    fn mapped_peek(&mut self, width: u64, storing: bool) -> Option<(Place, bool)> {
        let (at, offset) = self.mapped_place(width, false)?;
        let mapping = self.mapping(at)?;
        if mapping.view((offset / PAGE) as usize).stored_to {
            return None;
        }
        let stores = storing && mapping.writable && !mapping.shared;
        Some((mapping.at(offset), stores))
    }

    /// Returns a place that a child may load from, and whether it may store there if that is wanted.
    fn place_to_peek(&mut self, width: u64, storing: bool) -> Option<(Place, bool)> {
        if self.takes_mapping(600) {
            return self.mapped_peek(width, storing);
        }
        match self.heap_place(width, true) {
            Some(offset) => Some((Place::heap(offset), storing)),
            None => None,
        }
    }

    /// Adds the lines by which a child loads, may store, and exits.
    fn say_peek(&mut self, place: Place, width: u64, store: Option<u64>, status: u64) {
        self.begin_child();
        self.test.say_load(place, width);
        if let Some(value) = store {
            self.test.say_store(place, width, value);
        }
        self.end_child(status);
    }

    /// A child loads, may store, and exits. Returns whether there is a place for it.
    pub(crate) fn peek(&mut self) -> bool {
        let width = self.random.choice(&WIDTHS);
        let wanted = self.random.chance(500);
        let Some((place, storing)) = self.place_to_peek(width, wanted) else {
            return false;
        };
        let (value, status) = (self.random.value(width), self.random.below(60));
        let step = self.test.next_line();
        let store = if storing { Some(value) } else { None };
        self.say_peek(place, width, store, status);
        let word = storing as u64;
        let arguments = format!(in self.alloc; "{place}, {width}, {word}, {value:#x}, {status}, ");
        self.write_step(Call::Peek, step, arguments);
        true
    }
}
