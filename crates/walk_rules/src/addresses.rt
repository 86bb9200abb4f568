// Virtual addresses that are canonical under Sv39, Sv48 and Sv57, and the physical address that a leaf gives.

ghost use Rattle.std.specs.Prelude.{◌≡◌, ◌≤◌, ◌<◌, ◌^◌, ◌↔◌, IfSome, IsTrue};
ghost use Rattle.walk_rules.specs.Addresses as addresses;

use crate::extensions::is_napot;
use sv39_entry::{Entry, Satp, Va};

/// Returns the level of the root's PTEs by MODE of satp: 2 for Sv39, 3 for Sv48, 4 for Sv57 (RISC-V Privileged Architecture 20211203, 4.1.11).
/// `None`: Bare, or a reserved MODE.
pub fn top_level(satp: Satp) -> Option<u32>
    ensures value { result ≡ addresses.top_of satp }
    ensures few { IfSome result (λ top. (2 ≤ top) × (top ≤ 4)) }
{
    match satp.mode() {
        8 => Some(2),
        9 => Some(3),
        10 => Some(4),
        _ => None,
    }
}

/// Whether an address is canonical where the root's PTEs have level `top`: bits 63 to 38 (47, 56) are all equal. If they are not, each access
/// is a page fault (the standard, 4.4.1, 4.5.1 and 4.6.1).
pub fn is_canonical(top: u32, va: Va) -> bool
    requires { top ≤ 4 }
    ensures test { result ≡ addresses.is_canonical top va.0 }
    ensures bits { IsTrue result ↔ addresses.IsCanonical top va.0 }
{
    has_equal_upper_bits(top, va)
}

fn has_equal_upper_bits(top: u32, va: Va) -> bool
    requires { top ≤ 4 }
    ensures { result ≡ addresses.is_canonical top va.0 }
{
    let sign_bit = 20 + 9 * top;
    let upper = va.0 >> sign_bit;
    upper == 0 || upper == u64::MAX >> sign_bit
}

/// Returns how many low bits of an address a PTE at a level leaves alone: 12 for a page of 4 KiB, 16 for a NAPOT leaf of 64 KiB, 21, 30, 39
/// or 48 for superpages and for pointers of those levels.
pub fn reach(entry: Entry, level: u32) -> u32
    requires { level ≤ 4 }
    ensures value { result ≡ addresses.reach level entry }
    ensures few { (12 ≤ result) × (result ≤ 48) }
{
    if is_napot(entry, level) {
        16
    } else {
        12 + 9 * level
    }
}

/// Returns the physical address, below 2^56, that a leaf at a level gives to a virtual address (the standard, 4.3.2, step 8; chapter 5 for a NAPOT
/// leaf): the bits above `reach` from the leaf, the others from the address.
pub fn leads_to(entry: Entry, level: u32, va: Va) -> u64
    requires { level ≤ 4 }
    ensures value { result ≡ addresses.leads_to level entry va.0 }
    ensures small { result < 2 ^ 56 }
{
    let bits = reach(entry, level);
    ((entry.ppn() << 12 >> bits) << bits) + va.0 % (1 << bits)
}
