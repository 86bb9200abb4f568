// Enum `Scheme`, Sv39 or Sv48: the root's level, how many pages there are, MODE of satp, which addresses are canonical; and
// the addresses MAXVA, TRAMPOLINE, TRAPFRAME and KSTACK (kernel stacks) of xv6's memory layout.

ghost use Rattle.std.specs.Prelude.{◌≡◌, ◌+◌, ◌*◌, ◌<◌, ◌≤◌, ◌↔◌, IsTrue};
ghost use Rattle.sv39_entry.specs.Schemes as words;

use crate::address::{PAGE_SIZE, Va};

/// A scheme of address translation (RISC-V Privileged Architecture 20211203, 4.4 and 4.5).
#[derive(Clone, Copy, PartialEq, Eq, Debug)]
pub enum Scheme {
    /// Page tables of three levels, virtual addresses of 39 bits.
    Sv39,
    /// Page tables of four levels, virtual addresses of 48 bits.
    Sv48,
}

impl Scheme {
    /// Returns the level of the root's entries, one less than LEVELS: 2 under Sv39, 3 under Sv48 (the standard, 4.4.1 and
    /// 4.5.1). The last tables have level 0.
    pub fn top_level(self) -> u32
        ensures value { result ≡ words.top_level self }
        ensures few { result ≤ 3 }
    {
        match self {
            Scheme::Sv39 => 2,
            Scheme::Sv48 => 3,
        }
    }

    /// Returns the highest bit of the table indices in an address: 38 under Sv39, 47 under Sv48. There are nine bits for each
    /// level, above the 12 bits of the offset.
    fn sign_bit(self) -> u32
        ensures value { result ≡ words.sign_bit self }
        ensures few { 11 ≤ result × (result < 48) }
    {
        9 * (self.top_level() + 1) + 11
    }

    /// Returns how many pages the table indices of all levels distinguish: 2^27 under Sv39, 2^36 under Sv48.
    pub fn page_limit(self) -> u64
        ensures value { result ≡ words.page_limit self }
    {
        1 << (self.sign_bit() - 11)
    }

    /// Returns the MODE of satp for the scheme: 8 for Sv39, 9 for Sv48 (the standard, 4.1.11).
    pub fn mode(self) -> u64
        ensures value { result ≡ words.mode_of self }
        ensures few { result < 16 }
    {
        match self {
            Scheme::Sv39 => 8,
            Scheme::Sv48 => 9,
        }
    }

    /// Returns MAXVA, 2^38 under Sv39 and 2^47 under Sv48: every address of a process is below it. It is half of the
    /// addresses of the scheme, so that no address has to be sign-extended (the xv6 book, "Kernel address space").
    pub fn maxva(self) -> Va
        ensures { result.0 ≡ words.maxva self }
    {
        Va(1 << self.sign_bit())
    }

    /// Returns TRAMPOLINE, the address of the trampoline page in every address space: the highest page below MAXVA (the xv6
    /// book, "Kernel address space").
    pub fn trampoline(self) -> Va
        ensures { result.0 ≡ 4096 * words.trampoline_page self }
    {
        Va(self.maxva().0 - PAGE_SIZE)
    }

    /// Returns TRAPFRAME, the address of a process's trapframe: the page below the trampoline (the xv6 book, "Process
    /// address space").
    pub fn trapframe(self) -> Va
        ensures { result.0 ≡ 4096 * words.trapframe_page self }
    {
        Va(self.maxva().0 - 2 * PAGE_SIZE)
    }

    /// Returns KSTACK(slot), the address of a slot's kernel stack: 2 * (slot + 1) pages below the trampoline, so that one
    /// page is left free above each stack (the xv6 book, "Kernel address space").
    pub fn kernel_stack(self, slot: u16) -> Va
        ensures { result.0 + (slot + 1) * 2 * 4096 ≡ 4096 * words.trampoline_page self }
    {
        Va(self.trampoline().0 - (u64::from(slot) + 1) * 2 * PAGE_SIZE)
    }

    /// Whether the address is canonical: bits 63 to 38 (Sv39) or 63 to 47 (Sv48) are all equal. If they are not, each access
    /// is a page fault (the standard, 4.4.1 and 4.5.1).
    pub fn is_canonical(self, va: Va) -> bool
        ensures test { result ≡ words.is_canonical self va.0 }
        ensures bits { IsTrue result ↔ words.IsCanonical self va.0 }
    {
        self.has_equal_upper_bits(va)
    }

    fn has_equal_upper_bits(self, va: Va) -> bool
        ensures { result ≡ words.is_canonical self va.0 }
    {
        let sign_bit = self.sign_bit();
        let upper = va.0 >> sign_bit;
        upper == 0 || upper == u64::MAX >> sign_bit
    }
}
