// `LentEntry`: a struct, one place of a TLB that lies in a caller's array, as plain numbers; which TLB entry it says, and the
// place that says a given one.

ghost use Rattle.std.specs.Prelude.{◌≡◌, is_none, None};
ghost use Rattle.hart_tlb.specs.Entries.{is_match};
ghost use Rattle.lent_memory.specs.Entries.{entry_in, removes};

use hart_tlb::{TlbEntry, TlbLeaf};
use sv39_entry::Va;

/// The kind of an empty place.
pub const NO_ENTRY: u8 = 0;

/// The kind of an entry with a leaf.
pub const LEAF: u8 = 1;

/// The kind of an entry that records that a walk found no leaf.
pub const NO_LEAF: u8 = 2;

/// One place of a TLB in a caller's memory. All zeros is an empty place.
#[repr(C)]
#[derive(Clone, Copy, PartialEq, Eq, Debug)]
pub struct LentEntry {
    /// An address of the page whose addresses the entry serves; its low 12 bits do not count.
    pub address: u64,
    /// The word of the leaf, a page table entry; of an entry without a leaf it does not count.
    pub word: u64,
    /// The level of the leaf, 0 to 3; of an entry without a leaf it does not count.
    pub level: u32,
    /// The ASID that satp had at the fill.
    pub asid: u16,
    /// 0 if the entry serves its own ASID alone; anything else if it serves every ASID.
    pub global: u8,
    /// `LEAF`, `NO_LEAF`, or anything else for an empty place.
    pub kind: u8,
}

impl LentEntry {
    /// Returns the entry in this place; `None` if the place is empty: its kind is neither `LEAF` nor `NO_LEAF`, or it is `LEAF`
    /// with a level above 3.
    pub fn entry(&self) -> Option<TlbEntry>
        ensures { result ≡ entry_in self.now }
    {
        let leaf = match self.kind {
            LEAF if self.level <= 3 => Some(TlbLeaf::new(self.word, self.level)),
            NO_LEAF => None,
            _ => return None,
        };
        Some(TlbEntry {
            page: Va(self.address).page(),
            asid: self.asid,
            global: self.global != 0,
            leaf,
        })
    }

    /// Whether the place is empty.
    pub(crate) fn is_empty(&self) -> bool
        ensures { result ≡ is_none (entry_in self.now) }
    {
        self.entry().is_none()
    }

    /// Whether the place has an entry that may serve an access to an address under an ASID.
    pub fn matches(&self, va: Va, asid: u16) -> bool
        ensures { result ≡ is_match va.0 asid (entry_in self.now) }
    {
        match self.entry() {
            Some(entry) => entry.matches(va, asid),
            None => false,
        }
    }

    /// Whether the place has an entry that a fence for an address and an ASID removes.
    pub(crate) fn is_fenced(&self, va: Option<Va>, asid: Option<u16>) -> bool
        ensures { result ≡ removes va asid (entry_in self.now) }
    {
        match self.entry() {
            Some(entry) => entry.is_fenced(va, asid),
            None => false,
        }
    }

    /// Returns a place that says an entry; an empty place for `None`.
    pub fn of(entry: Option<TlbEntry>) -> LentEntry
        ensures { entry_in result ≡ entry }
    {
        let Some(entry) = entry else {
            return empty();
        };
        let (kind, word, level) = match entry.leaf {
            Some(leaf) => (LEAF, leaf.word(), leaf.level()),
            None => (NO_LEAF, 0, 0),
        };
        LentEntry {
            address: entry.page.at(0).0,
            word,
            level,
            asid: entry.asid,
            global: u8::from(entry.global),
            kind,
        }
    }
}

/// An empty place: all zeros.
pub(crate) fn empty() -> LentEntry
    ensures { entry_in result ≡ None }
{
    LentEntry {
        address: 0,
        word: 0,
        level: 0,
        asid: 0,
        global: 0,
        kind: NO_ENTRY,
    }
}
