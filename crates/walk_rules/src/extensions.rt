// Struct `Extensions`, which extensions a hart has: the kind of a page table entry under them. Enum `AdScheme`, how the hart manages
// the bits A and D.

ghost use Rattle.std.specs.Prelude.{◌≡◌};
ghost use Rattle.walk_rules.specs.Kinds as kinds;

use sv39_entry::{Entry, EntryFlags, Kind};

/// How a hart manages A and D: what becomes of an access by a leaf with A clear, or D clear at a store (RISC-V Privileged Architecture
/// 20211203, 4.3.1 and 4.3.2, step 7).
#[derive(Clone, Copy)]
pub enum AdScheme {
    /// A page fault.
    Svade,
    /// The hart sets the bits in memory (menvcfg.ADUE is 1).
    Svadu,
    /// One or the other, at each access: the standard without either extension.
    Either,
}

/// The extensions of a hart that change what a page table entry means.
#[derive(Clone, Copy)]
pub struct Extensions {
    /// Leaves of 64 KiB by bit 63, N (the standard, chapter 5).
    pub svnapot: bool,
    /// Memory types by bits 62 and 61, PBMT (the standard, chapter 6).
    pub svpbmt: bool,
    /// How the hart manages A and D.
    pub ad: AdScheme,
}

impl AdScheme {
    /// Whether such an access may be a page fault.
    pub fn may_fault(self) -> bool
        ensures { result ≡ kinds.may_fault self }
    {
        match self {
            AdScheme::Svade | AdScheme::Either => true,
            AdScheme::Svadu => false,
        }
    }

    /// Whether the hart may set the bits in memory and go on.
    pub fn may_update(self) -> bool
        ensures { result ≡ kinds.may_update self }
    {
        match self {
            AdScheme::Svadu | AdScheme::Either => true,
            AdScheme::Svade => false,
        }
    }
}

/// N, bit 63.
const NAPOT: u64 = 1 << 63;

/// Whether a PTE at a level is a NAPOT leaf, of 64 KiB: N is set, the level is 0 and PPN[0] ends in 1000 (the standard, chapter 5).
/// Whether it is a leaf at all, `kind` says.
pub(crate) fn is_napot(entry: Entry, level: u32) -> bool
    ensures { result ≡ kinds.is_napot level entry }
{
    entry.to_word() >= NAPOT && level == 0 && entry.ppn() % 16 == 8
}

/// Returns the kind of a PTE with R or X.
fn leaf_kind(entry: Entry, level: u32) -> Kind
    ensures { result ≡ kinds.leaf_kind level entry }
{
    if entry.to_word() >= NAPOT && !is_napot(entry, level) {
        Kind::Invalid
    } else {
        Kind::Leaf
    }
}

/// Whether a PTE without R, W and X has bits set that are reserved there: N, PBMT, U, A or D.
#[tactic(auto, using(crate::proofs::Bits::flags))]
fn is_reserved_in_pointer(entry: Entry) -> bool
    ensures { result ≡ kinds.reserved_in_pointer entry }
{
    let word = entry.to_word();
    word >= NAPOT
        || (word >> 61) % 4 != 0
        || entry.has(EntryFlags::USER)
        || entry.has(EntryFlags::ACCESSED)
        || entry.has(EntryFlags::DIRTY)
}

/// Returns the kind of a PTE without R, W and X.
fn pointer_kind(entry: Entry, level: u32) -> Kind
    ensures { result ≡ kinds.pointer_kind level entry }
{
    if is_reserved_in_pointer(entry) || level == 0 {
        Kind::Invalid
    } else {
        Kind::Pointer
    }
}

impl Extensions {
    /// Whether a PTE has bits set that the hart reserves: one of 60 to 54, N without Svnapot, PBMT without Svpbmt or of 3.
    fn has_reserved(self, entry: Entry) -> bool
        ensures { result ≡ kinds.has_reserved self entry }
    {
        let word = entry.to_word();
        let pbmt = (word >> 61) % 4;
        (word >> 54) % 128 != 0
            || (word >= NAPOT && !self.svnapot)
            || (pbmt != 0 && (!self.svpbmt || pbmt == 3))
    }

    /// Returns the kind of a PTE at a level, 0 for the last tables: invalid, pointer or leaf (the standard, 4.3.2, steps 3 and 4). A
    /// pointer at level 0 is invalid. Whether a superpage is aligned is left to `Status::allows`.
    #[tactic(auto, using(crate::proofs::Bits::flags))]
    pub fn kind(self, entry: Entry, level: u32) -> Kind
        ensures { result ≡ kinds.kind_in self level entry }
    {
        if !entry.has(EntryFlags::VALID)
            || (entry.has(EntryFlags::WRITE) && !entry.has(EntryFlags::READ))
            || self.has_reserved(entry)
        {
            return Kind::Invalid;
        }
        if entry.has(EntryFlags::READ) || entry.has(EntryFlags::EXECUTE) {
            leaf_kind(entry, level)
        } else {
            pointer_kind(entry, level)
        }
    }
}
