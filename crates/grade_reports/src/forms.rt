// `form_of`: the parts of an answer, by the word of its line and its own; `Part`, an enum: one of them, and what it is called; `put_forms`:
// the forms of all answers to a line, in words.

use crate::joints::joint;
use text_builder::Text;

/// A part of an answer after its word, and what it is called.
#[derive(Clone, Copy)]
pub enum Part {
    /// This very text.
    Text(&'static str),
    /// Decimal digits.
    Decimal(&'static str),
    /// `0x` and hexadecimal digits.
    Hexadecimal(&'static str),
    /// Decimal digits, `-` before them if it is negative.
    Signed(&'static str),
    /// Letters and digits.
    Name(&'static str),
    /// Two hexadecimal digits a byte; `-` is none.
    Bytes(&'static str),
}

/// A form of answers: their word, and the parts after it.
#[derive(Clone, Copy)]
struct Form {
    word: &'static str,
    parts: &'static [Part],
    /// The parts of such an answer if it has more of them; none if it never has.
    longer: &'static [Part],
    /// The words of the lines that can have such an answer, a blank between two.
    lines: &'static str,
}

/// The forms of all answers, as docs/SCRIPTS.md has them. Those of a line stand in the order in which they are told.
static FORMS: [Form; 20] = [
    Form {
        word: "ok",
        parts: &[],
        longer: &[],
        lines: "boot on switch enter leave trap next evict exec munmap",
    },
    Form {
        word: "slot",
        parts: &[Part::Decimal("slot")],
        longer: &[],
        lines: "start fork",
    },
    Form {
        word: "ready",
        parts: &[],
        longer: &[],
        lines: "fix serve",
    },
    Form {
        word: "ended",
        parts: &[Part::Decimal("rule"), Part::Name("rule")],
        longer: &[],
        lines: "fix serve",
    },
    Form {
        word: "value",
        parts: &[Part::Hexadecimal("value")],
        longer: &[],
        lines: "fetch load",
    },
    Form {
        word: "stored",
        parts: &[],
        longer: &[],
        lines: "store",
    },
    Form {
        word: "entry",
        parts: &[Part::Decimal("entry")],
        longer: &[],
        lines: "fill",
    },
    Form {
        word: "nothing",
        parts: &[],
        longer: &[],
        lines: "fill",
    },
    Form {
        word: "frame",
        parts: &[Part::Decimal("frame")],
        longer: &[],
        lines: "tramp",
    },
    Form {
        word: "old",
        parts: &[Part::Hexadecimal("size")],
        longer: &[],
        lines: "sbrk",
    },
    Form {
        word: "at",
        parts: &[Part::Hexadecimal("address")],
        longer: &[],
        lines: "mmap",
    },
    Form {
        word: "copied",
        parts: &[Part::Decimal("length")],
        longer: &[],
        lines: "copyout",
    },
    Form {
        word: "copied",
        parts: &[Part::Decimal("length"), Part::Bytes("bytes")],
        longer: &[],
        lines: "copyin",
    },
    Form {
        word: "short",
        parts: &[
            Part::Decimal("rule"),
            Part::Name("rule"),
            Part::Text("done"),
            Part::Decimal("length"),
        ],
        longer: &[],
        lines: "copyout",
    },
    Form {
        word: "short",
        parts: &[
            Part::Decimal("rule"),
            Part::Name("rule"),
            Part::Text("done"),
            Part::Decimal("length"),
            Part::Bytes("bytes"),
        ],
        longer: &[],
        lines: "copyin",
    },
    Form {
        word: "exited",
        parts: &[Part::Signed("status")],
        longer: &[],
        lines: "exit",
    },
    Form {
        word: "file",
        parts: &[Part::Decimal("length"), Part::Bytes("bytes")],
        longer: &[],
        lines: "show",
    },
    Form {
        word: "free",
        parts: &[
            Part::Decimal("free"),
            Part::Text("held"),
            Part::Decimal("held"),
            Part::Text("shared"),
            Part::Decimal("shared"),
            Part::Text("references"),
            Part::Decimal("references"),
        ],
        longer: &[],
        lines: "audit",
    },
    Form {
        word: "fault",
        parts: &[Part::Decimal("cause")],
        longer: &[],
        lines: "fetch load store tramp",
    },
    Form {
        word: "refused",
        parts: &[Part::Decimal("refusal"), Part::Name("refusal")],
        longer: &[
            Part::Decimal("refusal"),
            Part::Name("refusal"),
            Part::Name("detail"),
        ],
        lines: "start on switch enter leave fix trap next serve fetch load store fill evict tramp fork exec sbrk mmap munmap copyin copyout exit",
    },
];

/// Returns the forms of all answers.
fn forms() -> &'static [Form] {
    FORMS.as_slice()
}

impl Form {
    /// Whether lines of a word can have such an answer.
    fn is_of(&self, line: &str) -> bool {
        'lines: for word in self.lines.split(' ') {
            if word == line {
                return true;
            }
        }
        false
    }

    /// Returns the parts of an answer that has so many.
    fn parts_of(&self, count: usize) -> &'static [Part] {
        if count > self.parts.len() && !self.longer.is_empty() {
            self.longer
        } else {
            self.parts
        }
    }
}

/// Returns the parts of an answer that has so many, by its word and that of its line; `None` if such a line has no such answer.
pub fn form_of(line: &str, word: &str, count: usize) -> Option<&'static [Part]> {
    'forms: for form in forms() {
        if form.word == word && form.is_of(line) {
            return Some(form.parts_of(count));
        }
    }
    None
}

/// What a text is made of.
#[derive(Clone, Copy)]
enum Signs {
    /// Decimal digits.
    Decimal,
    /// Hexadecimal digits in lower case.
    Hexadecimal,
    /// Letters and digits.
    Name,
}

impl Signs {
    /// Whether a byte is one of these.
    fn has(self, byte: u8) -> bool {
        match self {
            Signs::Decimal => byte.is_ascii_digit(),
            Signs::Hexadecimal => matches!(byte, b'0'..=b'9' | b'a'..=b'f'),
            Signs::Name => byte.is_ascii_alphanumeric(),
        }
    }

    /// Whether each of some bytes is one of these.
    fn are(self, bytes: &[u8]) -> bool {
        'bytes: for byte in bytes {
            if !self.has(*byte) {
                return false;
            }
        }
        true
    }
}

/// Whether digits are those of a number; `zeros`: there may be some before it.
fn is_number(digits: &[u8], zeros: bool) -> bool {
    match digits {
        [] => false,
        [b'0', _, ..] => zeros,
        _ => true,
    }
}

/// Whether some bytes are a number in decimal digits; `zeros`: there may be some before it.
fn is_decimal(digits: &[u8], zeros: bool) -> bool {
    is_number(digits, zeros) && Signs::Decimal.are(digits)
}

/// Whether some bytes are `0x` and a number in hexadecimal digits; `zeros`: there may be some before it.
fn is_hexadecimal(text: &[u8], zeros: bool) -> bool {
    match text {
        [b'0', b'x', digits @ ..] => is_number(digits, zeros) && Signs::Hexadecimal.are(digits),
        _ => false,
    }
}

/// Whether some bytes are a number in decimal digits, with `-` before it if it is negative; `zeros`: there may be some before its digits.
fn is_signed(text: &[u8], zeros: bool) -> bool {
    match text {
        [b'-', b'0'] => zeros,
        [b'-', digits @ ..] => is_decimal(digits, zeros),
        _ => is_decimal(text, zeros),
    }
}

/// Whether some bytes are bytes in hexadecimal digits, or `-`.
fn is_bytes(text: &[u8]) -> bool {
    match text {
        [] => false,
        [b'-'] => true,
        _ => text.len() % 2 == 0 && Signs::Hexadecimal.are(text),
    }
}

impl Part {
    /// Whether a text has the form of this part; `zeros`: there may be some before its number.
    pub fn fits(self, text: &str, zeros: bool) -> bool {
        let bytes = text.as_bytes();
        match self {
            Part::Text(own) => text == own,
            Part::Decimal(_) => is_decimal(bytes, zeros),
            Part::Hexadecimal(_) => is_hexadecimal(bytes, zeros),
            Part::Signed(_) => is_signed(bytes, zeros),
            Part::Name(_) => !bytes.is_empty() && Signs::Name.are(bytes),
            Part::Bytes(_) => is_bytes(bytes),
        }
    }

    /// Returns what stands for the part in the form of an answer.
    fn sign(self) -> &'static str {
        match self {
            Part::Text(text) => text,
            Part::Decimal(_) | Part::Signed(_) => "N",
            Part::Hexadecimal(_) => "0x..",
            Part::Name(_) => "NAME",
            Part::Bytes(_) => "HEX",
        }
    }

    /// Returns what the part is called.
    pub fn name(self) -> &'static str {
        match self {
            Part::Text(name)
            | Part::Decimal(name)
            | Part::Hexadecimal(name)
            | Part::Signed(name)
            | Part::Name(name)
            | Part::Bytes(name) => name,
        }
    }
}

/// Appends a form of answers, as `fault N`. After the parts of one that may have more there may be more.
fn put_form(text: &mut Text, form: &Form) {
    text.push_str("`");
    text.push_str(form.word);
    'parts: for part in form.parts {
        text.push_str(" ");
        text.push_str(part.sign());
    }
    text.push_str(if form.longer.is_empty() { "`" } else { " ..`" });
}

/// Returns how many forms the answers to a line have, by its word.
fn form_count(line: &str) -> usize {
    let mut count = 0usize;
    'forms: for form in forms() {
        count = count.saturating_add(usize::from(form.is_of(line)));
    }
    count
}

/// Appends the forms of the answers to a line, by its word.
pub fn put_forms(text: &mut Text, line: &str) {
    let (count, mut number) = (form_count(line), 0usize);
    'forms: for form in forms() {
        if form.is_of(line) {
            text.push_str(joint(number, count, " or "));
            put_form(text, form);
            number = number.saturating_add(1);
        }
    }
}
