// `Tables`: page tables of Sv39 in the memory of a reference MMU, with the lines that write them.

use crate::quiz::Quiz;

/// Physical page numbers: of the root, of the table of level 1, of the table of level 0.
const ROOT: u64 = 0x80001;

const MIDDLE: u64 = 0x80002;

const LAST: u64 = 0x80003;

/// Flags of a page table entry.
pub(crate) const V: u64 = 1;

pub(crate) const W: u64 = 4;

/// Flags of leaves: with R, W, X, U, A and D set or not, most of them of a kind that some access may use.
const LEAVES: [u64; 16] = [
    0xd7, 0xd7, 0xdf, 0xdb, 0xd3, 0xc7, 0xcf, 0xcb, 0xd9, 0xd5, 0x57, 0x97, 0x17, 0xd6, 0xf7, 0x53,
];

/// Page tables whose three tables have an entry each for one address, and leaves beside it.
#[derive(Clone, Copy)]
pub(crate) struct Tables {
    pub index2: u64,
    pub index1: u64,
    pub index0: u64,
}

impl Tables {
    /// Returns the address with these indices, and the last one changed by `more`.
    pub fn page(self, more: u64) -> u64 {
        let index0 = self.index0.saturating_add(more) % 512;
        (self.index2 % 512)
            .saturating_mul(1 << 30)
            .saturating_add((self.index1 % 512).saturating_mul(1 << 21))
            .saturating_add(index0.saturating_mul(1 << 12))
    }

    /// Returns the first address of the 2 MiB after those of its last table.
    pub fn large_page(self) -> u64 {
        let next = Tables {
            index1: self.index1.saturating_add(1),
            index0: 0,
            ..self
        };
        next.page(0)
    }
}

/// Returns the word of a page table entry.
pub(crate) fn entry(page: u64, flags: u64) -> u64 {
    (page % (1 << 44))
        .saturating_mul(1024)
        .saturating_add(flags % 1024)
}

impl Quiz {
    /// Returns indices whose address is in the lower half, with room beside the last two.
    pub(crate) fn indices(&mut self) -> Tables {
        Tables {
            index2: self.random.below(256),
            index1: self.random.below(511),
            index0: self.random.below(508),
        }
    }

    /// Writes a word of a table.
    pub(crate) fn write_word(&mut self, table: u64, index: u64, word: u64) {
        let place = table
            .saturating_mul(4096)
            .saturating_add((index % 512).saturating_mul(8));
        self.say(format!(in self.alloc; "mem {place:#x} {word:#x}"), "ok");
    }

    /// Writes a leaf of the last table.
    pub(crate) fn write_leaf(&mut self, tables: Tables, more: u64, page: u64, flags: u64) {
        let index = tables.index0.saturating_add(more);
        self.write_word(LAST, index, entry(page, flags));
    }

    /// Describes the memory, and writes the entries that lead to the last table.
    pub(crate) fn write_pointers(&mut self, tables: Tables) {
        self.say_words("ram 0x80000000 0x400000", "ok");
        self.write_word(ROOT, tables.index2, entry(MIDDLE, V));
        self.write_word(MIDDLE, tables.index1, entry(LAST, V));
    }

    /// Writes the leaf of a large page.
    pub(crate) fn write_large(&mut self, tables: Tables, page: u64, flags: u64) {
        self.write_word(MIDDLE, tables.index1.saturating_add(1), entry(page, flags));
    }

    /// Writes satp, with an ASID.
    pub(crate) fn write_satp(&mut self, asid: u64) {
        let word = (8_u64 << 60)
            .saturating_add((asid % 65536).saturating_mul(1 << 44))
            .saturating_add(ROOT);
        self.say(format!(in self.alloc; "satp {word:#x}"), "satp");
    }

    /// Returns the flags of a leaf.
    pub(crate) fn leaf_flags(&mut self) -> u64 {
        self.random.choice(&LEAVES)
    }

    /// Returns the number of a page of the memory that is no table.
    pub(crate) fn data_page(&mut self) -> u64 {
        self.random.between(0x80010, 0x80400)
    }
}
