// Struct `EntryFlags`, a set of flag bits of a page table entry: V, R, W, X, U, G, A, D, and RSW bit 8, the software bit
// that marks copy-on-write.

ghost use Rattle.std.specs.Prelude.{⊤, ◌≡◌, [], ◌∷◌, codes};
ghost use Rattle.sv39_entry.specs.Word.{if_set};

use bitflags::{Flag, Flags, bitflag_items};

/// The flags of a page table entry, bits 7 to 0 (RISC-V Privileged Architecture 20211203, 4.4.1), and RSW bit 8, which marks
/// copy-on-write (own choice).
#[derive(Clone, Copy, PartialEq, Eq, Debug)]
pub struct EntryFlags(u64);

bitflag_items! {
    impl EntryFlags: u64 {
        const VALID = 1;
        const READ = 2;
        const WRITE = 4;
        const EXECUTE = 8;
        const USER = 16;
        const GLOBAL = 32;
        const ACCESSED = 64;
        const DIRTY = 128;
        const COW = 256;
    }
}

impl Flags for EntryFlags {
    type Bits = u64;

    ghost exact = { ⊤ };

    ghost table = { (codes "VALID", 1) ∷ (codes "READ", 2) ∷ (codes "WRITE", 4) ∷ (codes "EXECUTE", 8) ∷ (codes "USER", 16)
        ∷ (codes "GLOBAL", 32) ∷ (codes "ACCESSED", 64) ∷ (codes "DIRTY", 128) ∷ (codes "COW", 256) ∷ [] };

    ghost set_of = { λ flags. flags.0 };

    fn flags<'a>() -> &'a [Flag<EntryFlags>] {
        EntryFlags::FLAGS
    }

    fn bits(&self) -> u64 {
        self.0
    }

    fn from_bits_retain(bits: u64) -> EntryFlags {
        EntryFlags(bits)
    }
}

impl EntryFlags {
    /// Returns the bits of the flag if `wanted`, else 0.
    pub fn only_if(self, wanted: bool) -> u64
        ensures { result ≡ if_set wanted self.0 }
    {
        if wanted { self.0 } else { 0 }
    }
}
