// Lab 4, copy-on-write fork: parent and child store to a page that they share.

use crate::frames::{Counts, PAGE};
use crate::numbers::Numbers;
use crate::sheet::{self, Form, Name, Values};
use text_builder::Text;

/// The lines of the lab.
const LINES: &str =
    "# The process has {pages} pages: {data} of data, from {base} on, guard and stack.
image {base}:{size}:rw:61
boot 1 {frames} {slots} full => ok
start 0 => slot 0
on 0 0 => ok
store 0 {place} 8 {word} => stored
store 0 {other} 8 {another} => stored
enter 0 => ok
audit => free {free} held {held} shared 1 references {references}
# a) The fork.
fork 0 => slot 1
audit => ?
# b) The parent stores.
leave 0 => ok
store 0 {place} 4 {parents} => fault 15
fix 0 => ready
store 0 {place} 4 {parents} => stored
load 0 {place} 8 => ?
audit => ?
# c) The child loads, and stores to the same page.
enter 0 => ok
on 0 1 => ok
load 0 {place} 8 => ?
store 0 {upper} 2 {childs} => fault 15
fix 0 => ready
store 0 {upper} 2 {childs} => stored
load 0 {place} 8 => ?
audit => ?
# d) The child exits.
enter 0 => ok
exit 0 0 => exited 0
audit => ?
# e) The parent stores again.
on 0 0 => ok
store 0 {again} 8 {last} => ?";

/// The names in the lines.
static NAMES: [Name; 18] = [
    ("pages", Form::Count),
    ("data", Form::Count),
    ("base", Form::Hex),
    ("size", Form::Hex),
    ("frames", Form::Count),
    ("slots", Form::Count),
    ("place", Form::Hex),
    ("other", Form::Hex),
    ("word", Form::Hex),
    ("another", Form::Hex),
    ("free", Form::Count),
    ("held", Form::Count),
    ("references", Form::Count),
    ("parents", Form::Hex),
    ("upper", Form::Hex),
    ("childs", Form::Hex),
    ("again", Form::Hex),
    ("last", Form::Hex),
];

/// What varies.
#[derive(Clone, Copy)]
pub struct Script {
    /// The number of the first page of the data, and how many pages they have.
    first: u64,
    data: u64,
    frames: u64,
    slots: u64,
    /// The page of the data to which both store, and another.
    page: u64,
    other: u64,
    /// The place in both pages.
    offset: u64,
    /// What the process stores to both pages before the fork.
    words: (u64, u64),
    /// What the parent stores to the first four bytes of the page, and the child to the last two of eight.
    parents: u64,
    childs: u64,
    /// Whether the parent's last store is to the page to which it stored before, and what it stores.
    again: bool,
    last: u64,
}

/// The numbers of the page.
pub static OF_PAGE: Script = Script {
    first: 1,
    data: 2,
    frames: 64,
    slots: 3,
    page: 0,
    other: 1,
    offset: 0,
    words: (0x1122_3344_5566_7788, 0x99aa_bbcc_ddee_ff00),
    parents: 0x6162_6364,
    childs: 0x7a79,
    again: false,
    last: 7,
};

impl Script {
    /// Returns a script with numbers that are drawn.
    pub fn drawn(numbers: &mut Numbers) -> Script {
        let data = numbers.between(2, 251);
        let page = numbers.below(data);
        let step = numbers.between(1, data);
        let other = page.saturating_add(step);
        Script {
            first: numbers.between(1, 1500),
            data,
            frames: numbers.between(450, 1001),
            slots: numbers.between(3, 61),
            page,
            other: if other < data {
                other
            } else {
                other.saturating_sub(data)
            },
            offset: numbers.below(PAGE / 8).saturating_mul(8),
            words: (numbers.word(), numbers.word()),
            parents: numbers.below(0x1_0000_0000),
            childs: numbers.below(0x1_0000),
            again: numbers.chance(60),
            last: numbers.word(),
        }
    }

    /// Returns the place in a page of the data.
    fn place_in(&self, page: u64) -> u64 {
        let page = self.first.saturating_add(page);
        page.saturating_mul(PAGE).saturating_add(self.offset)
    }

    /// Appends the lines.
    pub fn put(&self, text: &mut Text) {
        let pages = self.data.saturating_add(2);
        let counts = Counts::of_boot(self.frames, self.slots).with_process(self.first, pages);
        let (place, other) = (self.place_in(self.page), self.place_in(self.other));
        let (word, another) = self.words;
        let numbers = [
            pages,
            self.data,
            self.first.saturating_mul(PAGE),
            self.data.saturating_mul(PAGE),
            self.frames,
            self.slots,
            place,
            other,
            word,
            another,
            counts.free(),
            counts.held,
            counts.references(),
            self.parents,
            place.saturating_add(6),
            self.childs,
            if self.again { place } else { other },
            self.last,
        ];
        let values = Values {
            names: NAMES.as_slice(),
            numbers: numbers.as_slice(),
        };
        sheet::put(text, LINES, values);
    }
}
