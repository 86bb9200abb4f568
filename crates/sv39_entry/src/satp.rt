// Struct `Satp`, a value of the satp register: made of a scheme, an ASID and the frame of a root table, or of 64 bits; its
// fields MODE, ASID and PPN, and the scheme that MODE selects.

ghost use Rattle.std.specs.Prelude.{◌≡◌, IfSome};
ghost use Rattle.sv39_entry.specs.Frame.{ppn_of};
ghost use Rattle.sv39_entry.specs.Satp as words;
ghost use Rattle.sv39_entry.specs.Schemes.{mode_of};

use crate::frame::FrameNo;
use crate::scheme::Scheme;
use std::marker::Model;

/// A value of satp, the supervisor address translation and protection register (RISC-V Privileged
/// Architecture 20211203, 4.1.11).
#[derive(Clone, Copy, PartialEq, Eq, Debug)]
pub struct Satp {
    word: u64,
}

/// Contracts see the register as its word.
impl Model for Satp {
    ghost use Rattle.std.specs.Prelude.{ℕ};

    ghost Value = { ℕ };

    ghost view = { λ satp. satp.word };

    ghost inverse = { λ word. record { word = word } };
}

impl Satp {
    /// Returns the register value for a scheme (MODE 8 or 9), an address-space identifier (ASID) and the frame of a root
    /// table, whose physical page number is the PPN field.
    pub fn new(scheme: Scheme, asid: u16, root: FrameNo) -> Satp
        ensures word { result ≡ words.satp_word (mode_of scheme) asid root.0 }
        ensures mode { words.mode result ≡ mode_of scheme }
        ensures asid { words.asid result ≡ asid }
        ensures root { words.root_ppn result ≡ ppn_of root.0 }
    {
        Satp {
            word: (scheme.mode() << 60) + (u64::from(asid) << 44) + root.ppn(),
        }
    }

    /// Returns the register value with these 64 bits.
    pub fn from_word(word: u64) -> Satp
        ensures { result ≡ word }
    {
        Satp { word }
    }

    /// Returns the 64 bits of the register.
    pub fn to_word(self) -> u64
        ensures { result ≡ self }
    {
        self.word
    }

    /// Returns the MODE field, bits 63 to 60: 8 is Sv39, 9 is Sv48.
    pub fn mode(self) -> u64
        ensures { result ≡ words.mode self }
    {
        self.word >> 60
    }

    /// Returns the scheme that MODE selects: Sv39 by 8, Sv48 by 9. `None`: MODE is 0 (Bare, no translation), or a mode that is
    /// not supported here.
    pub fn scheme(self) -> Option<Scheme>
        ensures scheme { result ≡ words.scheme_of self }
        ensures mode { IfSome result (λ s. words.mode self ≡ mode_of s) }
    {
        match self.mode() {
            8 => Some(Scheme::Sv39),
            9 => Some(Scheme::Sv48),
            _ => None,
        }
    }

    /// Returns the ASID field, bits 59 to 44: the address-space identifier.
    pub fn asid(self) -> u16
        ensures { result ≡ words.asid self }
    {
        ((self.word >> 44) % (1 << 16)) as u16
    }

    /// Returns the PPN field, bits 43 to 0: the physical page number of the root table.
    pub fn ppn(self) -> u64
        ensures { result ≡ words.root_ppn self }
    {
        self.word % (1 << 44)
    }
}
