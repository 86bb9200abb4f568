// Lab 1, page tables: which frames a process takes, and what its tables map.

use crate::accesses::Verb;
use crate::frames::{Counts, PAGE, TRAMPOLINE, TRAPFRAME};
use crate::numbers::Numbers;
use crate::sheet::{self, Form, Name, Values};
use text_builder::Text;

/// The lines before the access that is denied.
const LINES: &str =
    "# Pages of the image: {code} of code at {base}, {data} of data at {start}. A guard page and a stack page follow.
image {base}:{code_size}:rx:{instruction} {start}:{data_size}:rw:{first}
boot 1 {frames} {slots} full => ok
audit => free {free} held {held} shared 0 references {held}
start 0 => slot 0
# a) How many frames does the process take?
audit => ?
on 0 0 => ok
# b) The first instruction, and the first eight bytes of the data.
fetch 0 {base} => ?
load 0 {start} 8 => ?
# Eight bytes are stored at the end of the data, and then two of them anew.
store 0 {last} 8 {word} => stored
load 0 {upper} 4 => ?
store 0 {middle} 2 {half} => stored
load 0 {last} 8 => ?
# Four bytes are stored to the stack, and eight loaded.
store 0 {stack_upper} 4 {top} => stored
load 0 {stack} 8 => ?
# c) A page that is mapped, but not for this access.";

/// The lines after the access that is denied.
const END: &str = "fix 0 => ?
# d) What is left of the process?
audit => ?";

/// `lui x0, 0`: the lowest bits of an instruction that loads the upper 20 bits of a register.
const LUI: u64 = 0x37;

/// The pages of the process that the user may not access in each way.
#[derive(Clone, Copy)]
enum Target {
    Trampoline,
    Trapframe,
    Guard,
    Code,
    Data,
    Stack,
}

/// The names in the lines.
static NAMES: [Name; 22] = [
    ("code", Form::Count),
    ("base", Form::Hex),
    ("data", Form::Count),
    ("start", Form::Hex),
    ("code_size", Form::Hex),
    ("instruction", Form::Bytes(4)),
    ("data_size", Form::Hex),
    ("first", Form::Bytes(8)),
    ("frames", Form::Count),
    ("slots", Form::Count),
    ("free", Form::Count),
    ("held", Form::Count),
    ("last", Form::Hex),
    ("word", Form::Hex),
    ("upper", Form::Hex),
    ("middle", Form::Hex),
    ("half", Form::Hex),
    ("stack_upper", Form::Hex),
    ("top", Form::Hex),
    ("stack", Form::Hex),
    ("denied", Form::Hex),
    ("value", Form::Hex),
];

/// What varies.
#[derive(Clone, Copy)]
pub struct Script {
    /// The address of the code.
    base: u64,
    /// How many pages of code and of data the image has.
    code: u64,
    data: u64,
    frames: u64,
    slots: u64,
    /// The first instruction of the code, and the first eight bytes of the data.
    instruction: u64,
    first: u64,
    /// What is stored to the last eight bytes of the data, and to two of these.
    word: u64,
    half: u64,
    /// What is stored to the stack, in the upper half of the eight bytes from this offset on.
    top: u64,
    offset: u64,
    /// The access that is denied.
    target: Target,
    verb: Verb,
}

/// The numbers of the page.
pub static OF_PAGE: Script = Script {
    base: 0,
    code: 1,
    data: 2,
    frames: 64,
    slots: 2,
    instruction: 0x513,
    first: 0x6867_6665_6463_6261,
    word: 0x1122_3344_5566_7788,
    half: 0x99aa,
    top: 0xbbcc_ddee,
    offset: 0xff8,
    target: Target::Trampoline,
    verb: Verb::Load,
};

/// Returns any access.
fn any_verb(numbers: &mut Numbers) -> Verb {
    let value = numbers.word();
    match numbers.below(3) {
        0 => Verb::Load,
        1 => Verb::Store(value),
        _ => Verb::Fetch,
    }
}

/// Returns an access that is denied.
fn denied(numbers: &mut Numbers) -> (Target, Verb) {
    let any = any_verb(numbers);
    let value = numbers.word();
    match numbers.below(6) {
        0 => (Target::Trampoline, any),
        1 => (Target::Trapframe, any),
        2 => (Target::Guard, any),
        3 => (Target::Code, Verb::Store(value)),
        4 => (Target::Data, Verb::Fetch),
        _ => (Target::Stack, Verb::Fetch),
    }
}

impl Script {
    /// Returns a script with numbers that are drawn.
    pub fn drawn(numbers: &mut Numbers) -> Script {
        let (target, verb) = denied(numbers);
        let register = numbers.below(32).saturating_mul(0x80);
        let upper = numbers.below(0x10_0000).saturating_mul(PAGE);
        Script {
            base: numbers.below(1500).saturating_mul(PAGE),
            code: numbers.between(1, 41),
            data: numbers.between(2, 151),
            frames: numbers.between(400, 1001),
            slots: numbers.between(2, 61),
            instruction: upper.saturating_add(register).saturating_add(LUI),
            first: numbers.word(),
            word: numbers.word(),
            half: numbers.below(0x1_0000),
            top: numbers.below(0x1_0000_0000),
            offset: numbers.below(PAGE / 8).saturating_mul(8),
            target,
            verb,
        }
    }

    /// Returns the address of the data.
    fn data_start(&self) -> u64 {
        self.base.saturating_add(self.code.saturating_mul(PAGE))
    }

    /// Returns the address of the guard page, past the data.
    fn guard(&self) -> u64 {
        self.data_start()
            .saturating_add(self.data.saturating_mul(PAGE))
    }

    /// Returns the address of the stack.
    fn stack(&self) -> u64 {
        self.guard().saturating_add(PAGE)
    }

    /// Returns the address of the access that is denied.
    fn denied(&self) -> u64 {
        match self.target {
            Target::Trampoline => TRAMPOLINE,
            Target::Trapframe => TRAPFRAME,
            Target::Guard => self.guard(),
            Target::Code => self.base,
            Target::Data => self.data_start(),
            Target::Stack => self.stack(),
        }
    }

    /// Appends the lines.
    pub fn put(&self, text: &mut Text) {
        let (guard, stack) = (self.guard(), self.stack().saturating_add(self.offset));
        let boot = Counts::of_boot(self.frames, self.slots);
        let numbers = [
            self.code,
            self.base,
            self.data,
            self.data_start(),
            self.code.saturating_mul(PAGE),
            self.instruction,
            self.data.saturating_mul(PAGE),
            self.first,
            self.frames,
            self.slots,
            boot.free(),
            boot.held,
            guard.saturating_sub(8),
            self.word,
            guard.saturating_sub(4),
            guard.saturating_sub(6),
            self.half,
            stack.saturating_add(4),
            self.top,
            stack,
            self.denied(),
            self.verb.value(),
        ];
        let values = Values {
            names: NAMES.as_slice(),
            numbers: numbers.as_slice(),
        };
        sheet::put(text, LINES, values);
        sheet::put_line(text, self.verb.line(), "?", values);
        sheet::put(text, END, values);
    }
}
