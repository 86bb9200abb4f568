// The lines of a listing of page tables, as `vmprint` of MIT 6.1810 prints them (the page table lab of 2024): `TableTitle`, the
// line of the root table, and `TableLine`, that of an entry.

ghost use Rattle.std.specs.Prelude.{◌≡◌, ◌≤◌};
ghost use Rattle.walk_lines.specs.Texts as texts;

use crate::listing::TableEntry;
use std::fmt;
use sv39_entry::{Entry, PAGE_SIZE, Scheme};

/// A number as 16 hexadecimal digits after `0x`.
#[derive(Clone, Copy)]
struct Wide(u64);

impl fmt::Display for Wide {
    ghost use Rattle.std.specs.Prelude.{Some};
    ghost use Rattle.walk_lines.specs.Texts.{wide_text};

    ghost output = { λ wide. Some (wide_text wide.0) };

    fn fmt<W: fmt::Write>(&self, f: &mut fmt::Formatter<W>) -> fmt::Result {
        let number = self.0;
        write!(f, "0x{number:016x}")
    }
}

/// The first line of a listing of page tables: `page table `, and the physical address of the root table as 16 hexadecimal
/// digits (MIT 6.1810, the page table lab of 2024).
#[derive(Clone, Copy)]
pub struct TableTitle {
    /// The physical page number of the root table, below 2^44 (the low 64 bits of its address are printed).
    pub root: u64,
}

impl fmt::Display for TableTitle {
    ghost use Rattle.std.specs.Prelude.{Some};
    ghost use Rattle.walk_lines.specs.Texts.{title_text};

    ghost output = { λ title. Some (title_text title.root) };

    fn fmt<W: fmt::Write>(&self, f: &mut fmt::Formatter<W>) -> fmt::Result {
        let address = Wide(self.root << 12);
        write!(f, "page table {address}")
    }
}

/// The line of a page table entry in a listing (MIT 6.1810, the page table lab of 2024): ` ..` for the root's level, and once
/// more for each level below; the first virtual address that the entry maps or leads to; `pte` and its word; `pa` and the
/// physical address of the frame that it names. Each number has 16 hexadecimal digits.
#[derive(Clone, Copy)]
pub struct TableLine {
    /// The scheme of the tables: it has the root's level.
    pub scheme: Scheme,
    /// The entry.
    pub entry: TableEntry,
}

impl fmt::Display for TableLine {
    ghost use Rattle.std.specs.Prelude.{Some};
    ghost use Rattle.walk_lines.specs.Texts.{line_text};

    ghost output = { λ line. Some (line_text line.scheme line.entry) };

    fn fmt<W: fmt::Write>(&self, f: &mut fmt::Formatter<W>) -> fmt::Result {
        let entry = self.entry;
        let dots = dots(self.scheme.top_level().saturating_sub(entry.level));
        let address = Wide(entry.first_address(self.scheme).0);
        let word = Wide(entry.word);
        let physical = Wide(Entry::from_word(entry.word).ppn() * PAGE_SIZE);
        write!(f, "{dots}{address}: pte {word} pa {physical}")
    }
}

/// Returns ` ..` for the root's entries, and once more for each level of `depth` below it.
fn dots(depth: u32) -> &'static str
    requires { depth ≤ 3 }
    ensures { result.now ≡ texts.dots depth }
{
    match depth {
        0 => " ..",
        1 => " .. ..",
        2 => " .. .. ..",
        _ => " .. .. .. ..",
    }
}
