// Why a page table entry at which a walk ends is a page fault (`why_fault`): the step of the walk (RISC-V Privileged Architecture 20211203, 4.3.2) and
// what is wrong.

ghost use Rattle.std.specs.Prelude.{◌≤◌};

use bitflags::Flags;
use sv39_entry::{Access, Entry, EntryFlags, Kind, Mode};
use walk_rules::{Extensions, Status};

/// N, bit 63.
const NAPOT: u64 = 1 << 63;

/// A step of the walk, and what is wrong there.
#[derive(Clone, Copy)]
pub(crate) struct Why {
    pub step: u32,
    pub text: &'static str,
}

fn at(step: u32, text: &'static str) -> Option<Why> {
    Some(Why { step, text })
}

/// Which bits of a valid PTE the hart reserves.
fn why_reserved(extensions: Extensions, entry: Entry) -> Option<Why> {
    let word = entry.to_word();
    let pbmt = (word >> 61) % 4;
    let text = if (word >> 54) % 128 != 0 {
        "one of the bits 60 to 54 is set"
    } else if word >= NAPOT && !extensions.svnapot {
        "bit 63 (N) is set, without Svnapot"
    } else if pbmt != 0 && !extensions.svpbmt {
        "bits 62 and 61 (PBMT) are set, without Svpbmt"
    } else if pbmt == 3 {
        "bits 62 and 61 (PBMT) are 3, which is reserved"
    } else {
        return None;
    };
    at(3, text)
}

/// Why a PTE without reserved bits is neither a leaf nor a pointer at a level.
fn why_no_kind(entry: Entry, level: u32) -> Option<Why> {
    let word = entry.to_word();
    let is_leaf = entry.has(EntryFlags::READ) || entry.has(EntryFlags::EXECUTE);
    let (step, text) = if is_leaf && level > 0 {
        (3, "bit 63 (N) is set above level 0")
    } else if is_leaf {
        (
            3,
            "bit 63 (N) is set, and bits 3 to 0 of the PPN are not 1000",
        )
    } else if word >= NAPOT || (word >> 61) % 4 != 0 {
        (3, "it is a pointer with N or PBMT")
    } else if entry.has(EntryFlags::USER)
        || entry.has(EntryFlags::ACCESSED)
        || entry.has(EntryFlags::DIRTY)
    {
        (3, "it is a pointer with U, A or D")
    } else {
        (4, "it is a pointer at level 0")
    };
    at(step, text)
}

/// Why a PTE is invalid at a level.
fn why_invalid(extensions: Extensions, entry: Entry, level: u32) -> Option<Why> {
    if !entry.has(EntryFlags::VALID) {
        return at(3, "V is 0");
    }
    if entry.has(EntryFlags::WRITE) && !entry.has(EntryFlags::READ) {
        return at(3, "W is 1 and R is 0");
    }
    match why_reserved(extensions, entry) {
        Some(why) => Some(why),
        None => why_no_kind(entry, level),
    }
}

/// Why a leaf lacks the right for an access.
fn why_no_right(status: Status, access: Access, entry: Entry) -> Option<Why> {
    let text = match access {
        Access::Fetch if !entry.has(EntryFlags::EXECUTE) => "X is 0 at a fetch",
        Access::Load if entry.has(EntryFlags::READ) => return None,
        Access::Load if !entry.has(EntryFlags::EXECUTE) => "R is 0 at a load",
        Access::Load if !status.mxr => "R is 0 at a load, with X 1 and MXR 0",
        Access::Store if !entry.has(EntryFlags::WRITE) => "W is 0 at a store",
        _ => return None,
    };
    at(5, text)
}

/// Why a leaf denies a mode.
fn why_no_mode(status: Status, mode: Mode, access: Access, entry: Entry) -> Option<Why> {
    let text = match (mode, entry.has(EntryFlags::USER)) {
        (Mode::User, false) => "U is 0, in U-mode",
        (Mode::Supervisor, true) if access == Access::Fetch => "U is 1, at a fetch in S-mode",
        (Mode::Supervisor, true) if !status.sum => "U is 1, in S-mode with SUM 0",
        _ => return None,
    };
    at(5, text)
}

/// Why a leaf that has the rights is a page fault.
fn why_late(access: Access, entry: Entry, level: u32) -> Option<Why>
    requires { level ≤ 4 }
{
    if entry.ppn() % (1 << (9 * level)) != 0 {
        return at(6, "the superpage is not aligned");
    }
    if !entry.has(EntryFlags::ACCESSED) {
        return at(7, "A is 0");
    }
    if access == Access::Store && !entry.has(EntryFlags::DIRTY) {
        return at(7, "D is 0 at a store");
    }
    None
}

/// Returns why a PTE at which a walk ends is a page fault; `None` if it is none.
pub(crate) fn why_fault(
    extensions: Extensions,
    status: Status,
    mode: Mode,
    access: Access,
    entry: Entry,
    level: u32,
) -> Option<Why> {
    if level > 4 {
        return None;
    }
    if extensions.kind(entry, level) != Kind::Leaf {
        return why_invalid(extensions, entry, level);
    }
    if let Some(why) = why_no_mode(status, mode, access, entry) {
        return Some(why);
    }
    if let Some(why) = why_no_right(status, access, entry) {
        return Some(why);
    }
    why_late(access, entry, level)
}
