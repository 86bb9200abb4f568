// `LeafLine`: a leaf, and `BufferLine`: an entry of a hart's TLB, as text and as JSON.

ghost use Rattle.std.specs.Prelude.{◌≡◌};
ghost use Rattle.walk_lines.specs.Buffers.{buffer_line, leaf_line};

use crate::numbers::Hex;
use crate::text::Flags;
use hart_tlb::TlbEntry;
use serde::Serialize;
use std::fmt;
use sv39_entry::Entry;

/// A leaf, by its flags and the page to which it leads.
#[derive(Clone, Copy, Serialize, PartialEq, Eq)]
pub struct LeafLine {
    /// Its level: 0 for a page of 4,096 bytes, 1 to 3 for superpages.
    pub level: u32,
    pub word: Hex,
    pub flags: Flags,
    /// The physical page number in it.
    pub ppn: Hex,
}

impl LeafLine {
    /// Returns the leaf of a level and a word, as it is shown.
    pub fn of(level: u32, word: u64) -> LeafLine
        ensures { result ≡ leaf_line level word }
    {
        LeafLine {
            level,
            word: Hex(word),
            flags: Flags(word),
            ppn: Hex(Entry::from_word(word).ppn()),
        }
    }
}

/// An entry of a hart's TLB.
#[derive(Clone, Copy, Serialize, PartialEq, Eq)]
pub struct BufferLine {
    /// Its number: 0 is the oldest.
    pub number: usize,
    /// The address of the page that it serves.
    pub page: Hex,
    pub asid: u16,
    /// Whether it serves every ASID.
    pub global: bool,
    /// What the walk found; `None` if it found no leaf.
    pub leaf: Option<LeafLine>,
}

impl BufferLine {
    /// Returns an entry as it is shown, with its number.
    pub fn of(number: usize, entry: TlbEntry) -> BufferLine
        ensures { result ≡ buffer_line number entry }
    {
        let leaf = match entry.leaf {
            Some(leaf) => Some(LeafLine::of(leaf.level(), leaf.word())),
            None => None,
        };
        BufferLine {
            number,
            page: Hex(entry.page.at(0).0),
            asid: entry.asid,
            global: entry.global,
            leaf,
        }
    }
}

/// A leaf as text, or that there is none.
#[derive(Clone, Copy)]
struct LeafText(Option<LeafLine>);

impl fmt::Display for LeafText {
    fn fmt<W: fmt::Write>(&self, f: &mut fmt::Formatter<W>) -> fmt::Result {
        let Some(leaf) = self.0 else {
            return write!(f, "no leaf");
        };
        let LeafLine {
            level,
            word,
            flags,
            ppn,
        } = leaf;
        write!(f, "{word} {flags} leaf {ppn} of level {level}")
    }
}

/// For example `entry 0: page 0x1000, ASID 0, 0x200051d3 VR--U-A-C leaf 0x80014 of level 0`.
impl fmt::Display for BufferLine {
    fn fmt<W: fmt::Write>(&self, f: &mut fmt::Formatter<W>) -> fmt::Result {
        let BufferLine {
            number,
            page,
            asid,
            ..
        } = *self;
        let (global, leaf) = (
            if self.global { ", global" } else { "" },
            LeafText(self.leaf),
        );
        write!(
            f,
            "entry {number}: page {page}, ASID {asid}{global}, {leaf}"
        )
    }
}
