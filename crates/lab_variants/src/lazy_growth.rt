// Lab 3, lazy growth: a heap that takes its frames at its first faults.

use crate::accesses::Verb;
use crate::frames::{Counts, PAGE};
use crate::numbers::Numbers;
use crate::sheet::{self, Form, Name, Values};
use text_builder::Text;

/// The lines before the access that is denied.
const LINES: &str = "# The heap begins at {heap}. {free} frames are free after boot.
image {base}:{size}:rw:61
boot 1 {frames} {slots} full => ok
start 0 => slot 0
on 0 0 => ok
audit => free {free_before} held {held_before} shared 1 references {references_before}
# a) The heap grows by {growth} pages, more than there is memory.
enter 0 => ok
sbrk 0 {more} => ?
sbrk 0 0 => ?
audit => ?
leave 0 => ok
# b) The first store to the heap.
store 0 {place} 8 {word} => fault 15
fix 0 => ready
store 0 {place} 8 {word} => stored
load 0 {upper} 4 => ?
audit => free {free_after} held {held_after} shared 1 references {references_after}
# c) A store {far} pages further on, and a load of those bytes and the four before.
store 0 {far_upper} 4 {top} => fault 15
fix 0 => ready
store 0 {far_upper} 4 {top} => stored
load 0 {far_place} 8 => ?
audit => ?
# d) The heap ends at {end}. An access that no service makes ready.";

/// The lines after the access that is denied.
const END: &str = "fix 0 => ?
audit => ?";

/// Where the access that is denied goes.
#[derive(Clone, Copy)]
enum Target {
    PastHeap,
    Guard,
    Heap,
    Misaligned,
}

/// The names in the lines.
static NAMES: [Name; 24] = [
    ("heap", Form::Hex),
    ("free", Form::Count),
    ("base", Form::Hex),
    ("size", Form::Hex),
    ("frames", Form::Count),
    ("slots", Form::Count),
    ("free_before", Form::Count),
    ("held_before", Form::Count),
    ("references_before", Form::Count),
    ("growth", Form::Count),
    ("more", Form::Hex),
    ("place", Form::Hex),
    ("word", Form::Hex),
    ("upper", Form::Hex),
    ("free_after", Form::Count),
    ("held_after", Form::Count),
    ("references_after", Form::Count),
    ("far", Form::Count),
    ("far_upper", Form::Hex),
    ("far_place", Form::Hex),
    ("top", Form::Hex),
    ("end", Form::Hex),
    ("denied", Form::Hex),
    ("value", Form::Hex),
];

/// What varies.
#[derive(Clone, Copy)]
pub struct Script {
    /// The number of the image's first page, and how many pages it has: the whole process is below 1 GiB.
    first: u64,
    data: u64,
    frames: u64,
    slots: u64,
    /// By how many pages the heap grows: more than there are frames.
    growth: u64,
    /// What is stored to the first page of the heap, and how far from its beginning.
    word: u64,
    offset: u64,
    /// What is stored further on, and the page of the heap.
    top: u64,
    far: u64,
    /// The access that is denied.
    target: Target,
    verb: Verb,
}

/// The numbers of the page.
pub static OF_PAGE: Script = Script {
    first: 1,
    data: 1,
    frames: 22,
    slots: 1,
    growth: 1024,
    word: 0x1122_3344_5566_7788,
    offset: 0,
    top: 0x99aa_bbcc,
    far: 1020,
    target: Target::PastHeap,
    verb: Verb::Load,
};

/// Returns an access that is denied.
fn denied(numbers: &mut Numbers) -> (Target, Verb) {
    let value = numbers.word();
    let verb = Verb::load_or_store(numbers, value);
    match numbers.below(4) {
        0 => (Target::PastHeap, verb),
        1 => (Target::Guard, verb),
        2 => (Target::Heap, Verb::Fetch),
        _ => (Target::Misaligned, verb),
    }
}

/// Returns how many pages further on the second store goes: to where a page is all that lacks, or a page table of the lowest level too,
/// or one of the middle level too.
fn far(numbers: &mut Numbers) -> u64 {
    match numbers.below(3) {
        0 => numbers.between(1, 60),
        1 => numbers.between(1000, 100_000),
        _ => numbers.between(270_000, 300_000),
    }
}

impl Script {
    /// Returns a script with numbers that are drawn.
    pub fn drawn(numbers: &mut Numbers) -> Script {
        let (target, verb) = denied(numbers);
        Script {
            first: numbers.between(1, 150_000),
            data: numbers.between(1, 301),
            frames: numbers.between(400, 1001),
            slots: numbers.between(1, 61),
            growth: numbers.between(300_000, 600_000),
            word: numbers.word(),
            offset: numbers.below(PAGE / 8).saturating_mul(8),
            top: numbers.below(0x1_0000_0000),
            far: far(numbers),
            target,
            verb,
        }
    }

    /// Returns the address of the guard page, past the image.
    fn guard(&self) -> u64 {
        self.first.saturating_add(self.data).saturating_mul(PAGE)
    }

    /// Returns the address of the heap, above guard and stack.
    fn heap(&self) -> u64 {
        self.guard().saturating_add(2 * PAGE)
    }

    /// Returns the end of the heap.
    fn end(&self) -> u64 {
        self.heap().saturating_add(self.growth.saturating_mul(PAGE))
    }

    /// Returns the address of the first store to the heap.
    fn place(&self) -> u64 {
        self.heap().saturating_add(self.offset)
    }

    /// Returns the address of the access that is denied.
    fn denied(&self) -> u64 {
        match self.target {
            Target::PastHeap => self.end(),
            Target::Guard => self.guard(),
            Target::Heap => self.place(),
            Target::Misaligned => self.place().saturating_add(4),
        }
    }

    /// Appends the lines.
    pub fn put(&self, text: &mut Text) {
        let (heap, place) = (self.heap(), self.place());
        let far = place.saturating_add(self.far.saturating_mul(PAGE));
        let boot = Counts::of_boot(self.frames, self.slots);
        let counts = boot.with_process(self.first, self.data.saturating_add(2));
        let page = heap / PAGE;
        let touched = counts.with_page(page.saturating_sub(1), page);
        let numbers = [
            heap,
            boot.free(),
            self.first.saturating_mul(PAGE),
            self.data.saturating_mul(PAGE),
            self.frames,
            self.slots,
            counts.free(),
            counts.held,
            counts.references(),
            self.growth,
            self.growth.saturating_mul(PAGE),
            place,
            self.word,
            place.saturating_add(4),
            touched.free(),
            touched.held,
            touched.references(),
            self.far,
            far.saturating_add(4),
            far,
            self.top,
            self.end(),
            self.denied(),
            self.verb.value(),
        ];
        let values = Values {
            names: NAMES.as_slice(),
            numbers: numbers.as_slice(),
        };
        sheet::put(text, LINES, values);
        sheet::put_line(text, self.verb.line(), "?", values);
        sheet::put(text, END, values);
    }
}
