// `Hex`: a number that text and JSON have as `0x` and hexadecimal digits.

use serde::{Described, Serialize, Serializer};
use std::fmt;

/// A number that is written in hexadecimal digits, as `0x1000`, in JSON as a text: many readers of JSON keep only 53 bits of a number.
#[derive(Clone, Copy, PartialEq, Eq)]
pub struct Hex(pub u64);

impl fmt::Display for Hex {
    ghost use Rattle.std.specs.Prelude.{Some};
    ghost use Rattle.walk_lines.specs.Texts.{hexadecimal};

    ghost output = { λ number. Some (hexadecimal number.0) };

    fn fmt<W: fmt::Write>(&self, f: &mut fmt::Formatter<W>) -> fmt::Result {
        let number = self.0;
        write!(f, "0x{number:x}")
    }
}

impl Described for Hex {}

impl Serialize for Hex {
    fn serialize<S: Serializer>(&self, out: &mut S) -> Result<(), S::Error> {
        out.collect_str(self)
    }
}
