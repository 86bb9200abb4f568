// Struct `Entry`, a page table entry (PTE), and enum `Kind` (invalid, pointer, leaf). A pointer or a leaf made for a frame;
// the kind, PPN and flags of an entry, and whether its flags permit an access in a mode (`permits`).

ghost use Rattle.std.specs.Prelude.{◌≡◌, ◌<◌, ◌^◌};
ghost use Rattle.sv39_entry.specs.Word as words;

use crate::access::{Access, Mode};
use crate::flags::EntryFlags;
use crate::frame::FrameNo;
use crate::rights::Rights;
use bitflags::Flags;
use std::marker::Model;

/// What the bits of a PTE say that it is (RISC-V Privileged Architecture 20211203, 4.3.1 and 4.3.2, steps 3 and 4), whatever
/// its level: whether a superpage is aligned, or a pointer is at level 0, is left to the walk.
#[derive(Clone, Copy, PartialEq, Eq, Debug)]
pub enum Kind {
    /// V is clear, or a bit of 63 to 54 is set, or the bits are reserved: W without R, or no R, W, X but one of U, A, D.
    Invalid,
    /// Names the next table: V is set; R, W, X, U, A, D and bits 63 to 54 are clear.
    Pointer,
    /// Maps a page or superpage: V is set, R or X is set, W is set only with R, and bits 63 to 54 are clear.
    Leaf,
}

/// A page table entry (PTE): a word of 64 bits (RISC-V Privileged Architecture 20211203, 4.4.1).
#[derive(Clone, Copy, PartialEq, Eq, Debug)]
pub struct Entry {
    word: u64,
}

/// Contracts see an entry as its word.
impl Model for Entry {
    ghost use Rattle.std.specs.Prelude.{ℕ};

    ghost Value = { ℕ };

    ghost view = { λ entry. entry.word };

    ghost inverse = { λ word. record { word = word } };
}

impl Entry {
    /// Returns the entry with these 64 bits.
    pub fn from_word(word: u64) -> Entry
        ensures { result ≡ word }
    {
        Entry { word }
    }

    /// Returns the 64 bits of the entry.
    pub fn to_word(self) -> u64
        ensures { result ≡ self }
    {
        self.word
    }

    /// Returns an entry that points to the table in a frame: the frame's PPN and V, all other bits clear.
    pub fn pointer(frame: FrameNo) -> Entry
        ensures word { result ≡ words.pointer_word frame.0 }
        ensures made { words.IsPointerTo result frame.0 }
    {
        Entry {
            word: frame.ppn() * 1024 + EntryFlags::VALID.bits(),
        }
    }

    /// Returns a leaf over a frame, as the kernel writes it: the frame's PPN, V and A, with R and X as in `rights`, and U if
    /// `user`. W is set if `rights` has it and `cow` is false, D if `rights` has W and `dirty` is true, and RSW bit 8, the
    /// mark of copy-on-write, if `cow`. G is clear.
    /// The entry is a `Kind::Leaf` if `rights` has R, or X without W.
    #[tactic(auto, using(crate::proofs::Bits::flags))]
    pub fn leaf(frame: FrameNo, rights: Rights, user: bool, cow: bool, dirty: bool) -> Entry
        ensures word { result ≡ words.leaf_word frame.0 rights.0 user cow dirty }
        ensures made { words.IsLeafOf result frame.0 rights.0 user cow dirty }
    {
        let flags = leaf_flags(
            rights.contains(Rights::READ),
            rights.contains(Rights::WRITE),
            rights.contains(Rights::EXECUTE),
            user,
            cow,
            dirty,
        );
        Entry {
            word: frame.ppn() * 1024 + flags,
        }
    }

    /// Returns the kind of the entry: invalid, pointer or leaf, by its bits alone (`Kind`).
    #[tactic(auto, using(crate::proofs::Bits::flags), unfolding(crate::specs::Word::kind_of))]
    pub fn kind(self) -> Kind
        ensures { result ≡ words.kind_of self }
    {
        if self.word >> 54 != 0 || !self.has(EntryFlags::VALID) {
            return Kind::Invalid;
        }
        if self.has(EntryFlags::READ) {
            return Kind::Leaf;
        }
        if self.has(EntryFlags::WRITE) {
            return Kind::Invalid;
        }
        if self.has(EntryFlags::EXECUTE) {
            return Kind::Leaf;
        }
        if self.has(EntryFlags::USER)
            || self.has(EntryFlags::ACCESSED)
            || self.has(EntryFlags::DIRTY)
        {
            Kind::Invalid
        } else {
            Kind::Pointer
        }
    }

    /// Returns the PPN field, bits 53 to 10: the physical page number that a pointer or a leaf names.
    pub fn ppn(self) -> u64
        ensures value { result ≡ words.ppn self }
        ensures small { result < 2 ^ 44 }
    {
        (self.word >> 10) % (1 << 44)
    }

    /// Whether all bits of `flag` are set in the entry.
    pub fn has(self, flag: EntryFlags) -> bool
        ensures { result ≡ words.has_flag self flag.0 }
    {
        EntryFlags::from_bits_retain(self.word).contains(flag)
    }

    /// Whether the flags of a leaf permit an access in a mode (the standard, 4.3.1 and 4.3.2, steps 5 and 7, with SUM and
    /// MXR clear). The leaf needs U in user mode, and U clear in supervisor mode; X for a fetch, R for a load, W and D for a
    /// store; and always A. A leaf without A, or without D for a store, faults (own choice: the
    /// standard also lets hardware set them). No other bit is read: whether the entry is a leaf, the caller asks `kind`.
    #[tactic(auto, using(crate::proofs::Bits::flags))]
    pub fn permits(self, access: Access, mode: Mode) -> bool
        ensures { result ≡ words.permits mode access self }
    {
        let allowed = match access {
            Access::Fetch => self.has(EntryFlags::EXECUTE),
            Access::Load => self.has(EntryFlags::READ),
            Access::Store => self.has(EntryFlags::WRITE) && self.has(EntryFlags::DIRTY),
        };
        let in_mode = match mode {
            Mode::User => self.has(EntryFlags::USER),
            Mode::Supervisor => !self.has(EntryFlags::USER),
        };
        in_mode && allowed && self.has(EntryFlags::ACCESSED)
    }
}

/// The low ten bits of a leaf.
fn leaf_flags(read: bool, write: bool, execute: bool, user: bool, cow: bool, dirty: bool) -> u64
    ensures small { result < 2 ^ 10 }
    ensures value { result ≡ words.leaf_flags read write execute user cow dirty }
{
    let writable = if cow { false } else { write };
    let modified = if dirty { write } else { false };
    EntryFlags::COW.only_if(cow)
        + EntryFlags::DIRTY.only_if(modified)
        + EntryFlags::ACCESSED.bits()
        + EntryFlags::USER.only_if(user)
        + EntryFlags::EXECUTE.only_if(execute)
        + EntryFlags::WRITE.only_if(writable)
        + EntryFlags::READ.only_if(read)
        + EntryFlags::VALID.bits()
}
