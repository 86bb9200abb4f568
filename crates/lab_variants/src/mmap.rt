// Lab 5, mmap: pages of a file, in a shared and in a private mapping, and when they are written back.

use crate::accesses::Verb;
use crate::frames::{PAGE, TRAPFRAME};
use crate::numbers::Numbers;
use crate::sheet::{self, Form, Name, Values};
use text_builder::Text;

/// The lines before the access that is denied.
const LINES: &str = "file {length} rw {first}{second}
image 0x1000:0x1000:rw:-
boot 1 {frames} {slots} full => ok
start 0 => slot 0
on 0 0 => ok
enter 0 => ok
# a) The file is mapped twice: shared, to read and write; then private, to read. Mappings grow down from 0x3fffffe000.
mmap 0 {shared} 3 1 0 => at {start}
mmap 0 {private} 1 2 0 => ?
leave 0 => ok
# b) A load, and then a store to the same page.
load 0 {place} 8 => fault 13
fix 0 => ready
load 0 {place} 8 => ?
store 0 {upper} 4 {stored} => fault 15
fix 0 => ready
store 0 {upper} 4 {stored} => stored
load 0 {place} 8 => ?
# c) What does the file have now, and what does the private mapping?
show 0 {offset} 8 => ?
load 0 {private_place} 8 => fault 13
fix 0 => ready
load 0 {private_place} 8 => ?
# d) The first page of the shared mapping is unmapped.
enter 0 => ok
munmap 0 {start} 4096 => ok
show 0 {offset} 8 => ?
leave 0 => ok
load 0 {private_place} 8 => ?
# e) An access that is denied.";

/// The lines after the access that is denied.
const END: &str = "fix 0 => ?";

/// Where the access that is denied goes.
#[derive(Clone, Copy)]
enum Target {
    Unmapped,
    Private,
}

/// The names in the lines.
static NAMES: [Name; 15] = [
    ("length", Form::Count),
    ("first", Form::Bytes(8)),
    ("second", Form::Bytes(8)),
    ("frames", Form::Count),
    ("slots", Form::Count),
    ("shared", Form::Count),
    ("private", Form::Count),
    ("start", Form::Hex),
    ("place", Form::Hex),
    ("upper", Form::Hex),
    ("stored", Form::Hex),
    ("offset", Form::Count),
    ("private_place", Form::Hex),
    ("denied", Form::Hex),
    ("value", Form::Hex),
];

/// What varies.
#[derive(Clone, Copy)]
pub struct Script {
    /// The bytes of the file, of which the first 16 are these.
    length: u64,
    words: (u64, u64),
    /// How many bytes of the file the shared and the private mapping have. The first has two pages or more.
    shared: u64,
    private: u64,
    frames: u64,
    slots: u64,
    /// The place in the file that is accessed, 0 or 8; and how far from there four bytes are stored, 0 or 4.
    offset: u64,
    step: u64,
    stored: u64,
    /// The access that is denied.
    target: Target,
    verb: Verb,
}

/// The numbers of the page.
pub static OF_PAGE: Script = Script {
    length: 5000,
    words: (0x6867_6665_6463_6261, 0x706f_6e6d_6c6b_6a69),
    shared: 5000,
    private: 4096,
    frames: 64,
    slots: 2,
    offset: 0,
    step: 0,
    stored: 0x7a79_7877,
    target: Target::Unmapped,
    verb: Verb::Load,
};

/// Returns an access that is denied.
fn denied(numbers: &mut Numbers) -> (Target, Verb) {
    let value = numbers.word();
    let any = Verb::load_or_store(numbers, value);
    match numbers.below(3) {
        0 => (Target::Unmapped, any),
        1 => (Target::Private, Verb::Store(value)),
        _ => (Target::Private, Verb::Fetch),
    }
}

/// Returns the bytes of the pages that this many bytes take.
fn rounded_up(size: u64) -> u64 {
    size.div_ceil(PAGE).saturating_mul(PAGE)
}

impl Script {
    /// Returns a script with numbers that are drawn.
    pub fn drawn(numbers: &mut Numbers) -> Script {
        let (target, verb) = denied(numbers);
        let length = numbers.between(20_000, 65_537);
        let past = length.saturating_add(1);
        Script {
            length,
            words: (numbers.word(), numbers.word()),
            shared: numbers.between(PAGE + 1, past),
            private: numbers.between(1, past),
            frames: numbers.between(100, 1001),
            slots: numbers.between(1, 41),
            offset: numbers.below(2).saturating_mul(8),
            step: numbers.below(2).saturating_mul(4),
            stored: numbers.below(0x1_0000_0000),
            target,
            verb,
        }
    }

    /// Returns the address of the shared mapping.
    fn shared_start(&self) -> u64 {
        TRAPFRAME.saturating_sub(rounded_up(self.shared))
    }

    /// Returns the address of the private mapping, below the shared one.
    fn private_start(&self) -> u64 {
        self.shared_start().saturating_sub(rounded_up(self.private))
    }

    /// Returns the address of the access that is denied.
    fn denied(&self) -> u64 {
        match self.target {
            Target::Unmapped => self.shared_start(),
            Target::Private => self.private_start(),
        }
    }

    /// Appends the lines.
    pub fn put(&self, text: &mut Text) {
        let (first, second) = self.words;
        let start = self.shared_start();
        let place = start.saturating_add(self.offset);
        let private_place = self.private_start().saturating_add(self.offset);
        let numbers = [
            self.length,
            first,
            second,
            self.frames,
            self.slots,
            self.shared,
            self.private,
            start,
            place,
            place.saturating_add(self.step),
            self.stored,
            self.offset,
            private_place,
            self.denied(),
            self.verb.value(),
        ];
        let values = Values {
            names: NAMES.as_slice(),
            numbers: numbers.as_slice(),
        };
        sheet::put(text, LINES, values);
        sheet::put_line(text, self.verb.line(), "?", values);
        sheet::put(text, END, values);
    }
}
