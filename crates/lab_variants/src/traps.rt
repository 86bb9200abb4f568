// Lab 2, traps: the instructions between user mode and the kernel, and their fences. Two harts run a process each.

use crate::accesses::Verb;
use crate::frames::{PAGE, TRAMPOLINE};
use crate::numbers::Numbers;
use crate::sheet::{self, Form, Name, Values};
use text_builder::Text;

/// The lines before the access that is denied.
const LINES: &str =
    "# Pages of the image: {data} of data at {base}. A guard page and a stack page follow. Each hart runs a process of it.
image {base}:{size}:rw:{first}
boot 2 {frames} {slots} full => ok
start 0 => slot 0
start 0 => slot 1
on 0 0 => ok
on 1 1 => ok
store 0 {address} 8 {mine} => stored
store 1 {address} 8 {other} => stored
# Each hart keeps translations in its TLB, and uses them.
fill 0 {address} => entry 0
fill 0 {base} => entry 1
fill 1 {first_fill} => entry 0
fill 1 {second_fill} => entry 1
fill 1 {third_fill} => entry 2
load 0 {upper} 4 @0 => ?
load 0 {base} 8 @1 => ?
# a) The trap: hart 0 is in the trampoline page, before the first instruction of kernel entry.
trap 0 => ok
load 0 {address} 8 => refused 19 Impossible enter0
tramp 0 0 => frame 0
load 1 {address} 8 @{entry} => ?
# b) The first fence, of hart 0.
next 0 => ok
evict {evicts} {evicted} => ?
fill 0 {address} => entry 0
fill 0 {base} => entry 1
load 1 {upper} 4 @{left} => ?
# c) satp is written: from here on it names the kernel's table.
next 0 => ok
tramp 0 0 => frame 0
evict 0 {later} => ?
# d) The second fence. The kernel copies bytes from the process and to it.
next 0 => ok
evict 0 0 => refused 20 NoEntry
copyin 0 {address} 8 => ?
copyout 0 {middle} {copied} => copied 2
# e) Back, and an access that is denied.
leave 0 => ok
load 0 {address} 8 => ?";

/// The lines after the access that is denied.
const END: &str = "fix 0 => ?";

/// Where the access that is denied goes.
#[derive(Clone, Copy)]
enum Target {
    Guard,
    PastStack,
    Trampoline,
    Data,
}

/// The names in the lines.
static NAMES: [Name; 23] = [
    ("data", Form::Count),
    ("base", Form::Hex),
    ("size", Form::Hex),
    ("first", Form::Bytes(8)),
    ("frames", Form::Count),
    ("slots", Form::Count),
    ("address", Form::Hex),
    ("mine", Form::Hex),
    ("other", Form::Hex),
    ("first_fill", Form::Hex),
    ("second_fill", Form::Hex),
    ("third_fill", Form::Hex),
    ("upper", Form::Hex),
    ("entry", Form::Count),
    ("evicts", Form::Count),
    ("evicted", Form::Count),
    ("left", Form::Count),
    ("later", Form::Count),
    ("middle", Form::Hex),
    ("copied", Form::Bytes(2)),
    ("denied", Form::Hex),
    ("value", Form::Hex),
    ("cause", Form::Count),
];

/// What varies.
#[derive(Clone, Copy)]
pub struct Script {
    /// The address of the data, and how many pages they have.
    base: u64,
    data: u64,
    frames: u64,
    slots: u64,
    /// The first eight bytes of the data.
    first: u64,
    /// The place of the stores, from the base on, in the second page of the data or later; and what each hart stores there.
    place: u64,
    words: (u64, u64),
    /// Which of hart 1's three TLB entries is that of this place.
    entry: u64,
    /// The hart of which an entry is evicted after the first fence, and the entry: of hart 1 not that of the place.
    evicts: u64,
    evicted: u64,
    /// The entry that is evicted of hart 0 after the write of satp.
    later: u64,
    /// What the kernel copies to the place.
    copied: u64,
    /// The access that is denied.
    target: Target,
    verb: Verb,
}

/// The numbers of the page.
pub static OF_PAGE: Script = Script {
    base: 0x1000,
    data: 2,
    frames: 64,
    slots: 2,
    first: 0x6867_6665_6463_6261,
    place: 0x1008,
    words: (0x1122_3344_5566_7788, 0x99aa_bbcc_ddee_ff00),
    entry: 1,
    evicts: 0,
    evicted: 0,
    later: 0,
    copied: 0x7a79,
    target: Target::Guard,
    verb: Verb::Store(0),
};

/// Returns an access that is denied.
fn denied(numbers: &mut Numbers) -> (Target, Verb) {
    let value = numbers.word();
    let verb = Verb::load_or_store(numbers, value);
    match numbers.below(4) {
        0 => (Target::Guard, verb),
        1 => (Target::PastStack, verb),
        2 => (Target::Trampoline, verb),
        _ => (Target::Data, Verb::Fetch),
    }
}

impl Script {
    /// Returns a script with numbers that are drawn.
    pub fn drawn(numbers: &mut Numbers) -> Script {
        let (target, verb) = denied(numbers);
        let data = numbers.between(2, 61);
        let page = numbers.between(1, data).saturating_mul(PAGE);
        let entry = numbers.below(3);
        let step = numbers.between(1, 3);
        let evicts = if numbers.chance(40) { 0 } else { 1 };
        let other = entry.saturating_add(step) % 3;
        Script {
            base: numbers.between(1, 2000).saturating_mul(PAGE),
            data,
            frames: numbers.between(250, 1001),
            slots: numbers.between(2, 61),
            first: numbers.word(),
            place: page.saturating_add(numbers.below(PAGE / 8).saturating_mul(8)),
            words: (numbers.word(), numbers.word()),
            entry,
            evicts,
            evicted: if evicts == 0 { numbers.below(2) } else { other },
            later: if numbers.chance(40) {
                numbers.below(2)
            } else {
                numbers.between(2, 5)
            },
            copied: numbers.below(0x1_0000),
            target,
            verb,
        }
    }

    /// Returns the address of the stores.
    fn address(&self) -> u64 {
        self.base.saturating_add(self.place)
    }

    /// Returns the address of the guard page, past the data.
    fn guard(&self) -> u64 {
        self.base.saturating_add(self.data.saturating_mul(PAGE))
    }

    /// Returns the number of hart 1's entry of the place, once the other was evicted.
    fn entry_left(&self) -> u64 {
        if self.evicts == 1 && self.evicted < self.entry {
            self.entry.saturating_sub(1)
        } else {
            self.entry
        }
    }

    /// Returns the address of the access that is denied.
    fn denied(&self) -> u64 {
        match self.target {
            Target::Guard => self.guard(),
            Target::PastStack => self.guard().saturating_add(2 * PAGE),
            Target::Trampoline => TRAMPOLINE,
            Target::Data => self.base,
        }
    }

    /// Returns the address of which hart 1's entry of this number is.
    fn filled(&self, entry: u64) -> u64 {
        if entry == self.entry {
            self.address()
        } else if entry == 0 {
            self.base
        } else {
            self.guard().saturating_add(PAGE)
        }
    }

    /// Appends the lines.
    pub fn put(&self, text: &mut Text) {
        let address = self.address();
        let (mine, other) = self.words;
        let numbers = [
            self.data,
            self.base,
            self.data.saturating_mul(PAGE),
            self.first,
            self.frames,
            self.slots,
            address,
            mine,
            other,
            self.filled(0),
            self.filled(1),
            self.filled(2),
            address.saturating_add(4),
            self.entry,
            self.evicts,
            self.evicted,
            self.entry_left(),
            self.later,
            address.saturating_add(2),
            self.copied,
            self.denied(),
            self.verb.value(),
            self.verb.cause(),
        ];
        let values = Values {
            names: NAMES.as_slice(),
            numbers: numbers.as_slice(),
        };
        sheet::put(text, LINES, values);
        sheet::put_line(text, self.verb.line(), "fault {cause}", values);
        sheet::put(text, END, values);
    }
}
