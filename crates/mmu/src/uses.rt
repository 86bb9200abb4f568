// Structs `Used`, a word that satp had, with the number of the last fence of its ASID then; and `Uses`, those of the past.

ghost use Rattle.std.specs.Prelude.{◌≡◌, ◌<◌, ◌≤◌, OnOk, [], length, slice_get, Some, slice_index_or};
ghost use Rattle.mmu.specs.Using.{Extends, HasRoom};
ghost use Rattle.mmu.specs.declared.uses.Used.{Used};

use std::alloc::{AllocError, Global};
use std::collections::HashMap;
use sv39_entry::Satp;

/// A word that satp had, under which walks began.
#[derive(Clone, Copy)]
pub(crate) struct Used {
    pub satp: Satp,
    /// The number of the last fence of its ASID, with rs1 = x0, at that time. 0: there was none.
    pub epoch: usize,
}

/// The words that satp had before the present one.
#[derive(Drop)]
pub(crate) struct Uses {
    past: Vec<Used>,
    // where in `past` a word was put last
    places: HashMap<u64, usize>,
}

impl Uses {
    /// Returns no words.
    pub fn new(alloc: Global) -> Uses
        ensures { result.past.items ≡ [] }
    {
        Uses {
            past: Vec::new(alloc),
            places: HashMap::new(alloc),
        }
    }

    /// Makes room for one word.
    ///
    /// # Errors
    /// `AllocError`: the host is out of memory.
    pub fn reserve(&mut self) -> Result<(), AllocError>
        ensures room { OnOk result (HasRoom self.new) }
        ensures past { self.new.past.items ≡ self.old.past.items }
    {
        self.past.reserve(1)?;
        self.places.reserve(1)
    }

    /// Returns how many there are.
    pub fn len(&self) -> usize
        ensures { result ≡ length self.now.past.items }
    {
        self.past.len()
    }

    /// Returns one of them.
    pub fn get(&self, number: usize) -> Used
        requires { number < length self.now.past.items }
        ensures { slice_get self.now.past.items number ≡ Some result }
    {
        self.past[number]
    }

    /// Returns where a word stands with an epoch; how many words there are, if it does not.
    fn place_of(&self, used: &Used) -> usize
        ensures bound { result ≤ length self.now.past.items }
        ensures same { (d : Used) → result < length self.now.past.items
            → ((slice_index_or self.now.past.items result d).satp ≡ used.now.satp) × ((slice_index_or self.now.past.items result d).epoch ≡ used.now.epoch) }
    {
        let Some(place) = self.places.get(&used.satp.to_word()) else {
            return self.past.len();
        };
        match self.past.get(*place) {
            Some(before) if before.satp == used.satp && before.epoch == used.epoch => *place,
            _ => self.past.len(),
        }
    }

    /// Adds a word that satp had until now, if it is not there with this epoch.
    pub fn add(&mut self, used: Used)
        requires { HasRoom self.old }
        ensures { Extends self.old.past.items used self.new.past.items }
    {
        let place = self.place_of(&used);
        if place < self.past.len() {
            return;
        }
        // there is room for it
        let word = used.satp.to_word();
        let _ = self.places.insert(word, place);
        let _ = self.past.push(used);
    }

    /// Removes all words.
    pub fn clear(&mut self)
        ensures { self.new.past.items ≡ [] }
    {
        self.past.clear();
        self.places.clear();
    }
}
