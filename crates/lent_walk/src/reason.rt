// `fault_step`: the step of a walk by which a page table entry is a page fault.

ghost use Rattle.std.specs.Prelude.{◌≡◌, ◌≤◌};
ghost use Rattle.lent_walk.specs.Steps as steps;
ghost use Rattle.sv39_entry.specs.Word.{mode_allows};

use sv39_entry::{Access, Entry, EntryFlags, Kind, Mode};

/// Whether a mode may use a leaf.
#[tactic(auto, using(crate::proofs::Bits::flags))]
fn allows(entry: Entry, mode: Mode) -> bool
    ensures { result ≡ mode_allows mode entry }
{
    match mode {
        Mode::User => entry.has(EntryFlags::USER),
        Mode::Supervisor => !entry.has(EntryFlags::USER),
    }
}

/// Whether a leaf has the right that an access needs.
#[tactic(auto, using(crate::proofs::Bits::flags))]
fn grants(entry: Entry, access: Access) -> bool
    ensures { result ≡ steps.grants access entry }
{
    match access {
        Access::Fetch => entry.has(EntryFlags::EXECUTE),
        Access::Load => entry.has(EntryFlags::READ),
        Access::Store => entry.has(EntryFlags::WRITE),
    }
}

/// Whether a leaf grants a mode this kind of access, whatever A and D.
fn has_right(entry: Entry, access: Access, mode: Mode) -> bool
    ensures { result ≡ steps.has_right mode access entry }
{
    allows(entry, mode) && grants(entry, access)
}

/// Returns the step of the walk (RISC-V Privileged Architecture 20211203, 4.3.2) by which a page table entry at a level is a page fault: 3, it is
/// invalid or has a reserved form; 4, a pointer at level 0; 5, the leaf does not grant the access to the mode; 6, it is a misaligned superpage; 7, A
/// is clear, or D at a store. SUM and MXR are 0. Of an entry that is no page fault: 7.
pub fn fault_step(entry: Entry, level: u32, access: Access, mode: Mode) -> u32
    requires { level ≤ 3 }
    ensures { result ≡ steps.fault_step entry level mode access }
{
    match entry.kind() {
        Kind::Invalid => 3,
        Kind::Pointer => 4,
        Kind::Leaf if !has_right(entry, access, mode) => 5,
        Kind::Leaf if entry.ppn() % (1 << (9 * level)) != 0 => 6,
        Kind::Leaf => 7,
    }
}
