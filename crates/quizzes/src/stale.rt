// Quizzes about page table entries that change without a fence: which outcomes an access may have then.

use crate::quiz::{Quiz, Teller};
use crate::tables::{Tables, V, W};
use std::alloc::AllocError;

/// The flags of a leaf that user mode may load from and store to.
const GOOD: u64 = 0xd7;

/// The flag G of a leaf, by which its entry is for every ASID.
const G: u64 = 32;

impl Quiz {
    /// Asks for a load or a store in user mode.
    fn ask_user(&mut self, address: u64) {
        let word = if self.random.chance(400) {
            "load"
        } else {
            "store"
        };
        let offset = self.random.below(512).saturating_mul(8);
        let address = address.saturating_add(offset);
        self.ask(format!(in self.alloc; "{word} {address:#x} 8 U"), "walk");
    }

    /// Changes a leaf: takes W or V away, or names another page.
    fn change_leaf(&mut self, tables: Tables, more: u64) {
        let page = self.data_page();
        let flags = match self.random.below(4) {
            0 => GOOD.saturating_sub(W),
            1 => GOOD.saturating_sub(V),
            _ => GOOD,
        };
        self.write_leaf(tables, more, page, flags);
    }

    /// Fences for some of the addresses and ASIDs.
    fn fence_some(&mut self, tables: Tables) {
        let more = self.random.below(2);
        let page = tables.page(more);
        let asid = self.random.between(1, 3);
        let sort = self.random.below(4);
        self.say(self.fence_text(page, asid, sort), "ok");
    }

    /// Returns the text of a fence of one of four sorts.
    fn fence_text(&self, page: u64, asid: u64, sort: u64) -> Result<String, AllocError> {
        match sort {
            0 => format!(in self.alloc; "sfence {page:#x}"),
            1 => format!(in self.alloc; "sfence - {asid}"),
            2 => format!(in self.alloc; "sfence {page:#x} {asid}"),
            _ => String::from_str(self.alloc, "sfence"),
        }
    }

    /// Changes a leaf, the ASID, or fences; then asks for accesses.
    fn step_stale(&mut self, tables: Tables) {
        let more = self.random.below(2);
        match self.random.below(6) {
            0..=2 => self.change_leaf(tables, more),
            3 => {
                let asid = self.random.between(1, 3);
                self.write_satp(asid);
            }
            _ => self.fence_some(tables),
        }
        let page = tables.page(more);
        self.ask_user(page);
    }

    /// Makes a quiz about entries that change without a fence.
    pub(crate) fn make_stale(&mut self) {
        self.teller = Teller::Mmu;
        let tables = self.indices();
        self.write_pointers(tables);
        for more in 0..2 {
            let global = if self.random.chance(300) { G } else { 0 };
            let page = self.data_page();
            self.write_leaf(tables, more, page, GOOD.saturating_add(global));
        }
        self.write_satp(1);
        self.say_words("sfence", "ok");
        self.ask_user(tables.page(0));
        for _ in 0..6 {
            self.step_stale(tables);
        }
    }
}
