// Structs `Va`, a virtual address, and `Vpn`, a virtual page number; `PAGE_SIZE`. The page and offset of an address, an
// address in a page, and VPN[level]: which entry a page table of that level has for the page.

ghost use Rattle.std.specs.Prelude.{◌≡◌, ◌<◌, ◌+◌, ◌*◌, ◌%◌, ◌^◌};
ghost use Rattle.std.specs.Option.{SomeIff};
ghost use Rattle.sv39_entry.specs.Address as words;

use std::marker::Model;

/// The number of bytes in a page (RISC-V Privileged Architecture 20211203, 4.4.1).
pub const PAGE_SIZE: u64 = 4096;

/// A virtual address: any 64 bits, canonical or not.
#[derive(Clone, Copy, PartialEq, Eq, PartialOrd, Ord, Debug)]
pub struct Va(pub u64);

/// A virtual page number: bits 63 to 12 of the addresses in the page, so below 2^52. It keeps the bits above the table
/// indices.
#[derive(Clone, Copy, PartialEq, Eq, PartialOrd, Ord, Debug)]
pub struct Vpn {
    number: u64,
}

/// Contracts see a page as its number.
impl Model for Vpn {
    ghost use Rattle.std.specs.Prelude.{ℕ, ◌<◌, ◌^◌};

    ghost Value = { ℕ };

    ghost view = { λ page. page.number };

    ghost invariant = { λ page. page.number < 2 ^ 52 };

    ghost inverse = { λ number. record { number = number } };
}

impl Va {
    /// Returns the page that holds the address.
    pub fn page(self) -> Vpn
        ensures number { result ≡ words.page_of self.0 }
        ensures whole { result * 2 ^ 12 + words.page_offset self.0 ≡ self.0 }
    {
        Vpn {
            number: self.0 >> 12,
        }
    }

    /// Returns the offset of the address in its page, in bytes, below 4,096.
    pub fn offset(self) -> u64
        ensures value { result ≡ words.page_offset self.0 }
        ensures small { result < 4096 }
    {
        self.0 & 0xfff
    }
}

impl Vpn {
    /// Returns the page with this number, `None` exactly when the number is 2^52 or above.
    pub fn new(number: u64) -> Option<Vpn>
        ensures { SomeIff result (number < 2 ^ 52) number }
    {
        if number < 1 << 52 {
            Some(Vpn { number })
        } else {
            None
        }
    }

    /// Returns the page number, below 2^52.
    pub fn number(self) -> u64
        ensures value { result ≡ self }
        ensures small { result < 2 ^ 52 }
    {
        self.number
    }

    /// Returns the address at a byte offset in the page. Only the low twelve bits of the offset count (it is taken modulo
    /// 4,096).
    pub fn at(self, offset: u64) -> Va
        ensures { result.0 ≡ self * 2 ^ 12 + words.page_offset offset }
    {
        Va((self.number << 12) + offset % PAGE_SIZE)
    }

    /// Returns VPN[level], below 512: the index of the page's entry in a table of that level (the standard, 4.4.1). The last
    /// tables have level 0.
    /// Above level 5 a page number has no bit left, so it is 0.
    pub fn index(self, level: u32) -> usize
        ensures value { result ≡ words.vpn self level }
        ensures small { result < 512 }
    {
        let number = self.number;
        if level > 5 {
            return 0;
        }
        (number >> (9 * level)) as usize % 512
    }
}
