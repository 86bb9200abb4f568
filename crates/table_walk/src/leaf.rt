// Two functions of a leaf at a level (0 for a page, more for superpages): whether its physical page number is aligned, and
// the physical address that it gives to a virtual one (RISC-V Privileged Architecture 20211203, 4.3.2, steps 6 and 8).

ghost use Rattle.std.specs.Prelude.{◌≡◌, ◌≤◌, ◌*◌, ◌%◌, ◌^◌, ◌↔◌, IsTrue};
ghost use Rattle.sv39_entry.specs.Word.{ppn};
ghost use Rattle.table_walk.specs.Memory as memory;

use sv39_entry::{Entry, PAGE_SIZE, Va};

/// Whether a leaf at `level` is aligned: its physical page number is a multiple of the pages that it maps (4.3.2, step 6).
#[tactic(auto, using(std::proofs::lemmas::Nat::one_shl))]
pub(crate) fn is_aligned(leaf: Entry, level: u32) -> bool
    requires { level ≤ 3 }
    ensures { IsTrue result ↔ (ppn leaf % 2 ^ (9 * level) ≡ 0) }
{
    leaf.ppn() % (1 << (9 * level)) == 0
}

/// Returns the physical address, in bytes, that a leaf at `level` gives to a virtual address: the address of the leaf's
/// frame, plus the low 12 + 9 * level bits of `va` (4.3.2, step 8). `level` must be at most 3. Neither rights nor alignment
/// are judged.
#[tactic(auto, using(std::proofs::lemmas::Nat::one_shl))]
pub fn physical_address(leaf: Entry, level: u32, va: Va) -> u64
    requires { level ≤ 3 }
    ensures { result ≡ memory.physical_address leaf level va.0 }
{
    leaf.ppn() * PAGE_SIZE + va.0 % (1 << (12 + 9 * level))
}
