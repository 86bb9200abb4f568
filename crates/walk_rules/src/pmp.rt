// Physical memory protection (PMP). Struct `PmpEntry`, an entry's registers; enum `Matching`, its field A; struct `Region`, the bytes that it
// matches; and whether a hart's entries permit an access.

ghost use Rattle.std.specs.Prelude.{◌≡◌, ◌<◌, ◌^◌};
ghost use Rattle.sv39_entry.specs.declared.access.Access.TheVariants as access;
ghost use Rattle.walk_rules.specs.Pmp as pmp;
ghost use Rattle.walk_rules.specs.declared.pmp.Matching.TheVariants as matching;
ghost use Rattle.walk_rules.specs.declared.status.Privilege.TheVariants as privilege;

use crate::status::Privilege;
use bitflags::Flags;
use sv39_entry::{Access, Rights};

/// A, bits 4 and 3 of pmpcfg: how an entry matches addresses (RISC-V Privileged Architecture 20211203, 3.7.1).
#[derive(Clone, Copy, PartialEq, Eq, Debug)]
pub enum Matching {
    /// The entry matches no byte.
    Off,
    /// Top of range: from the pmpaddr before, or 0, up to the entry's own.
    Tor,
    /// Four bytes.
    Na4,
    /// A power of two of bytes, 8 at least, aligned to it.
    Napot,
}

/// The registers of a PMP entry (the standard, 3.7.1).
#[derive(Clone, Copy)]
pub struct PmpEntry {
    /// The entry's byte of pmpcfg: L 7, A 4-3, X 2, W 1, R 0.
    pub config: u8,
    /// pmpaddr: bits 55 to 2 of an address. Bits 63 to 54 do not count.
    pub address: u64,
}

/// The bytes from a physical address on that are below `end`; none if `end` is not above `first`.
#[derive(Clone, Copy, PartialEq, Eq, Debug)]
pub struct Region {
    pub first: u64,
    pub end: u64,
}

impl Region {
    /// Whether one of `width` bytes from a physical address on is in the region.
    pub fn overlaps(self, pa: u64, width: u64) -> bool
        ensures { result ≡ pmp.overlaps self pa width }
    {
        self.first < self.end
            && pa < self.end
            && width != 0
            && (self.first <= pa || self.first - pa < width)
    }

    /// Whether all of `width` bytes from a physical address on are in the region.
    pub fn contains(self, pa: u64, width: u64) -> bool
        ensures { result ≡ pmp.contains self pa width }
    {
        self.first <= pa && pa <= self.end && width <= self.end - pa
    }
}

impl PmpEntry {
    /// Returns A, how the entry matches addresses.
    pub fn matching(self) -> Matching
        ensures { result ≡ pmp.matching_of self.config }
    {
        match (self.config >> 3) % 4 {
            0 => Matching::Off,
            1 => Matching::Tor,
            2 => Matching::Na4,
            _ => Matching::Napot,
        }
    }

    /// Returns the bytes that the entry matches. `below` is the pmpaddr of the entry before it, 0 for the lowest; only TOR asks for it.
    pub fn region(self, below: u64) -> Region
        ensures value { result ≡ pmp.region_of below self }
        ensures napot { pmp.matching_of self.config ≡ matching.Napot → pmp.IsNapotRegion (pmp.number_of self.address) result }
    {
        let number = self.address % (1 << 54);
        match self.matching() {
            Matching::Off => Region { first: 0, end: 0 },
            Matching::Tor => Region {
                first: below % (1 << 54) * 4,
                end: number * 4,
            },
            Matching::Na4 => Region {
                first: number * 4,
                end: number * 4 + 4,
            },
            Matching::Napot => napot_region(number),
        }
    }

    /// Whether the entry, which matches the access, grants it: in M-mode if L is clear, or else by R, W and X.
    pub fn grants(self, privilege: Privilege, access: Access) -> bool
        ensures { result ≡ pmp.entry_grants self privilege access }
    {
        let binds = privilege != Privilege::Machine || self.config >= 128;
        !binds || Rights::from_bits_retain(self.config).grants(access)
    }
}

/// Returns the region of a NAPOT entry: pmpaddr ends in k ones below a zero, and the region has 2^(k + 3) bytes.
fn napot_region(number: u64) -> Region
    requires { number < 2 ^ 54 }
    ensures value { result ≡ pmp.napot_region number }
    ensures napot { pmp.IsNapotRegion number result }
{
    let bits = number.trailing_ones() + 1;
    let first = (number >> bits) << bits;
    Region {
        first: first * 4,
        end: (first + (1 << bits)) * 4,
    }
}

/// Whether PMP permits an access of `width` bytes from a physical address on, by its effective privilege mode (the standard, 3.7.1). The lowest
/// entry that matches a byte decides, and must match all of them. If none matches, an access of M-mode succeeds; one of S or U only if the hart
/// has no entries.
pub fn pmp_permits(
    entries: &[PmpEntry],
    privilege: Privilege,
    access: Access,
    pa: u64,
    width: u64,
) -> bool
    ensures { result ≡ pmp.pmp_permits entries.now privilege access pa width }
{
    let mut below = 0;
    for entry in entries {
        let region = entry.region(below);
        if region.overlaps(pa, width) {
            return region.contains(pa, width) && entry.grants(privilege, access);
        }
        below = entry.address;
    }
    privilege == Privilege::Machine || entries.is_empty()
}

/// Whether PMP permits a walk to read the PTE at a physical address: a load of 8 bytes of S-mode (the standard, 3.7.1 and 4.3.2, step 2).
pub fn pmp_permits_read(entries: &[PmpEntry], place: u64) -> bool
    ensures { result ≡ pmp.pmp_permits entries.now privilege.Supervisor access.Load place 8 }
{
    pmp_permits(entries, Privilege::Supervisor, Access::Load, place, 8)
}

/// Whether PMP permits a hart to set A and D in the PTE at a physical address: a store of 8 bytes of S-mode (the standard, 3.7.1 and 4.3.2, step 7).
pub fn pmp_permits_update(entries: &[PmpEntry], place: u64) -> bool
    ensures { result ≡ pmp.pmp_permits entries.now privilege.Supervisor access.Store place 8 }
{
    pmp_permits(entries, Privilege::Supervisor, Access::Store, place, 8)
}
