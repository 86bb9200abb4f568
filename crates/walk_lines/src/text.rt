// The text of a word that a walk reads (`Display` of `WalkEntry`), and of the flags of a page table entry (`Flags`).

ghost use Rattle.std.specs.Prelude.{◌≡◌, ◌<◌};
ghost use Rattle.sv39_entry.specs.Address.{has};
ghost use Rattle.walk_lines.specs.Texts as texts;

use crate::walk::WalkEntry;
use serde::{Described, Serialize, Serializer};
use std::fmt;
use sv39_entry::{Entry, Kind};

/// Returns a letter if this bit of a word is set, else a dash.
fn letter(word: u64, bit: u32, letter: &'static str) -> &'static str
    requires { bit < 64 }
    ensures { result.now ≡ texts.letter (has word bit) letter.now }
{
    if (word >> bit) % 2 == 1 { letter } else { "-" }
}

/// The flags of a page table entry, printed by letters: `VRWXUGADC`, with a dash for each that is clear. C is bit 8, by which the
/// kernel marks copy-on-write. JSON has them as this text.
#[derive(Clone, Copy, PartialEq, Eq)]
pub struct Flags(pub u64);

impl fmt::Display for Flags {
    ghost use Rattle.std.specs.Prelude.{Some};
    ghost use Rattle.walk_lines.specs.Texts.{flags_text};

    ghost output = { λ flags. Some (flags_text flags.0) };

    fn fmt<W: fmt::Write>(&self, f: &mut fmt::Formatter<W>) -> fmt::Result {
        write!(
            f,
            "{}{}{}{}{}{}{}{}{}",
            letter(self.0, 0, "V"),
            letter(self.0, 1, "R"),
            letter(self.0, 2, "W"),
            letter(self.0, 3, "X"),
            letter(self.0, 4, "U"),
            letter(self.0, 5, "G"),
            letter(self.0, 6, "A"),
            letter(self.0, 7, "D"),
            letter(self.0, 8, "C"),
        )
    }
}

impl Described for Flags {}

impl Serialize for Flags {
    fn serialize<S: Serializer>(&self, out: &mut S) -> Result<(), S::Error> {
        out.collect_str(self)
    }
}

/// What a page table entry says to a walk, as text: the table or the page that it leads to, or that there is no leaf.
#[derive(Clone, Copy)]
struct Meaning(u64);

impl fmt::Display for Meaning {
    ghost use Rattle.std.specs.Prelude.{Some};
    ghost use Rattle.walk_lines.specs.Texts.{meaning_text};

    ghost output = { λ meaning. Some (meaning_text meaning.0) };

    fn fmt<W: fmt::Write>(&self, f: &mut fmt::Formatter<W>) -> fmt::Result {
        let entry = Entry::from_word(self.0);
        let ppn = entry.ppn();
        match entry.kind() {
            Kind::Invalid => write!(f, "no leaf"),
            Kind::Pointer => write!(f, "table 0x{ppn:x}"),
            Kind::Leaf => write!(f, "leaf 0x{ppn:x}"),
        }
    }
}

/// A word that a walk reads, as text.
#[derive(Clone, Copy)]
struct Word(Option<u64>);

impl fmt::Display for Word {
    ghost use Rattle.std.specs.Prelude.{Some};
    ghost use Rattle.walk_lines.specs.Texts.{word_text};

    ghost output = { λ word. Some (word_text word.0) };

    fn fmt<W: fmt::Write>(&self, f: &mut fmt::Formatter<W>) -> fmt::Result {
        match self.0 {
            None => write!(f, "outside the memory"),
            Some(word) => {
                let (flags, meaning) = (Flags(word), Meaning(word));
                write!(f, "0x{word:x} {flags} {meaning}")
            }
        }
    }
}

impl fmt::Display for WalkEntry {
    ghost use Rattle.std.specs.Prelude.{Some};
    ghost use Rattle.walk_lines.specs.Texts.{entry_text};

    ghost output = { λ entry. Some (entry_text entry) };

    fn fmt<W: fmt::Write>(&self, f: &mut fmt::Formatter<W>) -> fmt::Result {
        let (level, table, index, word) = (self.level, self.table, self.index, Word(self.word));
        write!(f, "level {level}: 0x{table:x}[{index}] = {word}")
    }
}
