// Lab 6, stale entries and ASIDs: entries of a TLB that outlive a trap.

use crate::frames::PAGE;
use crate::numbers::Numbers;
use crate::sheet::{self, Form, Name, Values};
use text_builder::Text;

/// The address of frame 0, which the kernel's page table maps to itself (memlayout.h of xv6: KERNBASE).
const KERNBASE: u64 = 0x8000_0000;

/// How many entries the TLB gets before the fork.
const FILLS: u64 = 5;

/// The lines before the TLB gets its entries.
const START: &str =
    "# No fence empties the whole TLB here. The process of slot 0 has ASID 1, that of slot 1 has ASID 2, the kernel has 0.
image {base}:{size}:rw:61
boot 1 {frames} {slots} asid => ok
start 0 => slot 0
on 0 0 => ok
store 0 {place} 8 {word} => stored
store 0 {other} 8 {another} => stored
# The process keeps translations, and so does the kernel.";

/// The lines after the TLB has got its entries.
const QUESTIONS: &str = "# a) The return, without a change of the tables.
leave 0 => ok
load 0 {place} 8 @{entry} => ?
# b) A fork takes W from the leaf of {place}.
enter 0 => ok
fork 0 => slot 1
leave 0 => ok
load 0 {place} 8 @{entry} => refused 20 NoEntry
fill 0 {place} => ?
load 0 {upper} 4 @{parents} => ?
# c) The child runs on the same hart.
enter 0 => ok
on 0 1 => ok
load 0 {place} 8 @{parents} => refused 20 NoEntry
fill 0 {place} => ?
load 0 {place} 8 @{childs} => ?
# d) It stores through its entry.
store 0 {place} 4 {stored} @{childs} => fault 15
fix 0 => ready
store 0 {place} 4 {stored} @{childs} => refused 20 NoEntry
store 0 {place} 4 {stored} => stored
fill 0 {place} => ?
load 0 {place} 8 @{childs} => ?
# e) And the parent, through the entry that it kept?
enter 0 => ok
on 0 0 => ok
load 0 {place} 8 @{parents} => ?
load 0 {other} 8 => ?";

/// The names in the line that fills an entry.
static FILL_NAMES: [Name; 2] = [("address", Form::Hex), ("entry", Form::Count)];

/// The names in the other lines.
static NAMES: [Name; 13] = [
    ("base", Form::Hex),
    ("size", Form::Hex),
    ("frames", Form::Count),
    ("slots", Form::Count),
    ("place", Form::Hex),
    ("other", Form::Hex),
    ("word", Form::Hex),
    ("another", Form::Hex),
    ("entry", Form::Count),
    ("upper", Form::Hex),
    ("parents", Form::Count),
    ("childs", Form::Count),
    ("stored", Form::Hex),
];

/// What varies.
#[derive(Clone, Copy)]
pub struct Script {
    /// The number of the first page of the data, and how many pages they have.
    first: u64,
    data: u64,
    frames: u64,
    slots: u64,
    /// The page of the data to which parent and child store, and another.
    page: u64,
    other: u64,
    /// The place in both pages.
    offset: u64,
    /// What the parent stores to both pages, and the child to four bytes of the first.
    words: (u64, u64),
    childs: u64,
    /// The entry of the page: 0 or 1. The other page has the other.
    entry: u64,
    /// How many entries are filled in user mode: two to five. The kernel fills the others.
    in_user: u64,
    /// The numbers of the pages of the entries from the third on, from the data's or memory's beginning.
    more: (u64, u64, u64),
}

/// The numbers of the page.
pub static OF_PAGE: Script = Script {
    first: 1,
    data: 2,
    frames: 64,
    slots: 3,
    page: 0,
    other: 1,
    offset: 0,
    words: (0x1122_3344_5566_7788, 0x99aa_bbcc_ddee_ff00),
    childs: 0x6162_6364,
    entry: 0,
    in_user: 3,
    more: (3, 0, 1),
};

impl Script {
    /// Returns a script with numbers that are drawn.
    pub fn drawn(numbers: &mut Numbers) -> Script {
        let data = numbers.between(2, 61);
        let page = numbers.below(data);
        let step = numbers.between(1, data);
        let other = page.saturating_add(step);
        Script {
            first: numbers.between(1, 1500),
            data,
            frames: numbers.between(250, 1001),
            slots: numbers.between(3, 61),
            page,
            other: if other < data {
                other
            } else {
                other.saturating_sub(data)
            },
            offset: numbers.below(PAGE / 8).saturating_mul(8),
            words: (numbers.word(), numbers.word()),
            childs: numbers.below(0x1_0000_0000),
            entry: numbers.below(2),
            in_user: numbers.between(2, FILLS + 1),
            more: (
                numbers.below(data),
                numbers.below(data),
                numbers.below(data),
            ),
        }
    }

    /// Returns the place in a page of the data.
    fn place_in(&self, page: u64) -> u64 {
        let page = self.first.saturating_add(page);
        page.saturating_mul(PAGE).saturating_add(self.offset)
    }

    /// Returns the place of the stores of both.
    fn place(&self) -> u64 {
        self.place_in(self.page)
    }

    /// Returns the number of the parent's entry after the fork: the kernel's are before it.
    fn parents_entry(&self) -> u64 {
        FILLS.saturating_sub(self.in_user)
    }

    /// Returns the address of which an entry is filled before the fork.
    fn filled(&self, entry: u64) -> u64 {
        if entry == self.entry {
            return self.place();
        }
        if entry < 2 {
            return self.place_in(self.other);
        }
        let (third, fourth, fifth) = self.more;
        let page = match entry {
            2 => third,
            3 => fourth,
            _ => fifth,
        };
        if entry < self.in_user {
            self.first.saturating_add(page).saturating_mul(PAGE)
        } else {
            KERNBASE.saturating_add(page.saturating_mul(PAGE))
        }
    }

    /// Appends fills of these entries.
    fn put_fills(&self, text: &mut Text, first: u64, end: u64) {
        for entry in first..end {
            let numbers = [self.filled(entry), entry];
            let values = Values {
                names: FILL_NAMES.as_slice(),
                numbers: numbers.as_slice(),
            };
            sheet::put(text, "fill 0 {address} => entry {entry}", values);
        }
    }

    /// Appends the lines.
    pub fn put(&self, text: &mut Text) {
        let (place, parents) = (self.place(), self.parents_entry());
        let (word, another) = self.words;
        let numbers = [
            self.first.saturating_mul(PAGE),
            self.data.saturating_mul(PAGE),
            self.frames,
            self.slots,
            place,
            self.place_in(self.other),
            word,
            another,
            self.entry,
            place.saturating_add(4),
            parents,
            parents.saturating_add(1),
            self.childs,
        ];
        let values = Values {
            names: NAMES.as_slice(),
            numbers: numbers.as_slice(),
        };
        sheet::put(text, START, values);
        self.put_fills(text, 0, self.in_user);
        sheet::put(text, "enter 0 => ok", values);
        self.put_fills(text, self.in_user, FILLS);
        sheet::put(text, QUESTIONS, values);
    }
}
