// Quizzes about walks of page tables: which entries an address selects, which level ends the walk, and what the bits of the leaf grant.

use crate::quiz::{Quiz, Teller};
use crate::tables::Tables;

impl Quiz {
    /// Asks for the outcome of an access to an address, a multiple of 8, by any access and in any mode.
    pub(crate) fn ask_access(&mut self, address: u64) {
        let (word, width) = match self.random.index(3) {
            0 => ("load", 8),
            1 => ("store", 8),
            _ => ("fetch", 4),
        };
        let mode = if self.random.chance(650) { "U" } else { "S" };
        self.ask(
            format!(in self.alloc; "{word} {address:#x} {width} {mode}"),
            "walk",
        );
    }

    /// Asks for an access that no table decides.
    fn ask_odd(&mut self, address: u64) {
        let (odd, words) = if self.random.chance(500) {
            (
                address.saturating_add(self.random.between(1, 4)),
                "misaligned",
            )
        } else {
            (address.saturating_add(1 << 39), "not canonical")
        };
        self.ask(format!(in self.alloc; "load {odd:#x} 4 U"), words);
    }

    /// Asks for an access beside the pages that are mapped, or in the large page.
    fn ask_beside(&mut self, tables: Tables) {
        let offset = self.random.below(512).saturating_mul(8);
        let address = match self.random.below(6) {
            0 => tables.page(2),
            1 => tables.page(0).saturating_add(1 << 30),
            _ => tables
                .large_page()
                .saturating_add(self.random.below(512).saturating_mul(4096)),
        };
        self.ask_access(address.saturating_add(offset));
    }

    /// Asks for an access.
    fn ask_any(&mut self, tables: Tables) {
        let offset = self.random.below(512).saturating_mul(8);
        match self.random.below(12) {
            0 => self.ask_odd(tables.page(0).saturating_add(offset)),
            1..=4 => self.ask_beside(tables),
            5..=7 => self.ask_access(tables.page(1).saturating_add(offset)),
            _ => self.ask_access(tables.page(0).saturating_add(offset)),
        }
    }

    /// Changes SUM and MXR of the status.
    fn change_status(&mut self) {
        let (sum, mxr) = (self.random.below(2), self.random.below(2));
        self.say(format!(in self.alloc; "status {sum} {mxr} 0 U"), "ok");
    }

    /// Changes what the accesses go by: the status, or a leaf with a fence.
    fn change_walk(&mut self, tables: Tables) {
        if self.random.chance(500) {
            return self.change_status();
        }
        let (more, page, flags) = (self.random.below(2), self.data_page(), self.leaf_flags());
        self.write_leaf(tables, more, page, flags);
        self.say_words("sfence", "ok");
    }

    /// Writes page tables with two leaves beside each other, and one of a large page.
    fn write_tables(&mut self, tables: Tables) {
        self.write_pointers(tables);
        for more in 0..2 {
            let (page, flags) = (self.data_page(), self.leaf_flags());
            self.write_leaf(tables, more, page, flags);
        }
        let (aligned, flags) = (self.random.chance(700), self.leaf_flags());
        let large = if aligned { 0x80200 } else { self.data_page() };
        self.write_large(tables, large, flags);
    }

    /// Makes a quiz about walks.
    pub(crate) fn make_walk(&mut self) {
        self.teller = Teller::Mmu;
        let tables = self.indices();
        self.write_tables(tables);
        self.write_satp(0);
        self.say_words("sfence", "ok");
        for number in 0..10 {
            if number == 4 || number == 7 {
                self.change_walk(tables);
            }
            self.ask_any(tables);
        }
    }
}
