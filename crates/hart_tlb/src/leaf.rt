// `TlbLeaf`: a struct, the leaf that a TLB entry records, with its word and level. Its methods also give the physical
// address for a virtual one, and whether the leaf maps a virtual address.

ghost use Rattle.std.specs.Prelude.{◌≡◌, ◌≤◌};
ghost use Rattle.hart_tlb.specs.Entries.{covers};
ghost use Rattle.table_walk.specs.Memory as memory;

use std::marker::Model;
use sv39_entry::{Entry, Va, Vpn};
use table_walk::physical_address;

/// The leaf that a walk found: its word, a page table entry, and its level (0 for a page of 4,096 bytes, 1 to 3 for
/// superpages).
#[derive(Clone, Copy, PartialEq, Eq, Debug)]
pub struct TlbLeaf {
    word: u64,
    level: u32,
}

/// Contracts see the word and the level.
impl Model for TlbLeaf {
    ghost use Rattle.std.specs.Prelude.{◌≤◌};
    ghost use Rattle.table_walk.specs.Leaves.{Leaf};

    ghost Value = { Leaf };

    ghost view = { λ leaf. record { word = leaf.word; level = leaf.level } };

    ghost invariant = { λ leaf. leaf.level ≤ 3 };

    ghost inverse = { λ leaf. record { word = leaf.word; level = leaf.level } };
}

impl TlbLeaf {
    /// Returns the leaf with this word, a page table entry, and level, at most 3.
    pub fn new(word: u64, level: u32) -> TlbLeaf
        requires { level ≤ 3 }
        ensures word { result.word ≡ word }
        ensures level { result.level ≡ level }
    {
        TlbLeaf { word, level }
    }

    /// Returns the word of the leaf, a page table entry.
    pub fn word(self) -> u64
        ensures { result ≡ self.word }
    {
        self.word
    }

    /// Returns the level at which the walk found the leaf, at most 3.
    pub fn level(self) -> u32
        ensures value { result ≡ self.level }
        ensures low { result ≤ 3 }
    {
        self.level
    }

    /// Returns the physical address that the leaf gives to an address (the standard, 4.3.2, step 8).
    pub(crate) fn address(self, va: Va) -> u64
        ensures { result ≡ memory.physical_address self.word self.level va.0 }
    {
        physical_address(Entry::from_word(self.word), self.level, va)
    }

    /// Whether the leaf, which maps `page`, maps an address too: both agree in all bits above the
    /// offset in a page of the leaf's size.
    pub(crate) fn covers(self, page: Vpn, va: Va) -> bool
        ensures { result ≡ covers page self va.0 }
    {
        let bits = 12 + 9 * self.level;
        page.at(0).0 >> bits == va.0 >> bits
    }
}
