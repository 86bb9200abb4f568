// Enum `MemoryType`, the memory type of a leaf (Svpbmt).

ghost use Rattle.std.specs.Prelude.{◌≡◌};
ghost use Rattle.walk_rules.specs.Kinds.{memory_type};

use sv39_entry::Entry;

/// A page-based memory type, which overrides the attributes of the physical address (RISC-V Privileged Architecture 20211203, chapter 6,
/// Svpbmt).
#[derive(Clone, Copy, PartialEq, Eq, Debug)]
pub enum MemoryType {
    /// PBMT 0: the attributes of the physical address.
    Pma,
    /// PBMT 1: main memory, non-cacheable, idempotent.
    Nc,
    /// PBMT 2: I/O, non-cacheable, not idempotent, strongly ordered.
    Io,
}

impl MemoryType {
    /// Returns the memory type of a PTE by PBMT, bits 62 and 61; `None` exactly if they are both set, which is reserved.
    pub fn of_entry(entry: Entry) -> Option<MemoryType>
        ensures { result ≡ memory_type entry }
    {
        match (entry.to_word() >> 61) % 4 {
            0 => Some(MemoryType::Pma),
            1 => Some(MemoryType::Nc),
            2 => Some(MemoryType::Io),
            _ => None,
        }
    }
}
