// `Place`: an address in a script, and the same place in the text of a C program.

use std::fmt;

/// The bytes of a page.
pub const PAGE: u64 = 4096;

/// The address of the guard page, above an image of two pages.
pub const GUARD: u64 = 0x2000;

/// The address of the heap, above the guard page and the page of the stack.
pub const HEAP: u64 = 0x4000;

/// The address of the trapframe: mappings end below it.
pub const TRAPFRAME: u64 = 0x3f_ffff_e000;

/// Addresses that belong to no process: a frame, the trapframe, the trampoline, the first address past Sv39's lower half, and the last.
pub const NOBODYS: [u64; 5] = [
    0x8000_0000,
    0x3f_ffff_e000,
    0x3f_ffff_f000,
    0x40_0000_0000,
    0xffff_ffff_ffff_ffff,
];

/// Returns how many pages this many bytes take.
pub fn pages_of(size: u64) -> u64 {
    size.div_ceil(PAGE)
}

/// Returns the bytes of the pages that this many bytes take.
pub fn rounded_up(size: u64) -> u64 {
    pages_of(size).saturating_mul(PAGE)
}

/// From where the C program counts a place.
#[derive(Clone, Copy)]
pub enum Base {
    /// From the beginning of the heap.
    Heap,
    /// From the beginning of the guard page.
    Guard,
    /// From 0: an address that belongs to no process.
    Number,
    /// The text of the program.
    Text,
    /// From the beginning of the mapping of this number.
    Mapping(u64),
    /// Down from the beginning of that mapping: in a front that was unmapped.
    Before(u64),
    /// From the end of that mapping: in a back that was unmapped.
    After(u64),
}

/// An address in a script, and the same place in the text of a C program.
#[derive(Clone, Copy)]
pub struct Place {
    pub base: Base,
    /// The bytes from the base.
    pub offset: u64,
    /// The address in the script.
    pub address: u64,
}

impl Place {
    /// The text of the program, which begins at 0 in the script.
    pub const TEXT: Place = Place {
        base: Base::Text,
        offset: 0,
        address: 0,
    };

    /// Returns a place in the heap, or above it.
    pub fn heap(offset: u64) -> Place {
        Place {
            base: Base::Heap,
            offset,
            address: HEAP.saturating_add(offset),
        }
    }

    /// Returns a place in the guard page.
    pub fn guard(offset: u64) -> Place {
        Place {
            base: Base::Guard,
            offset,
            address: GUARD.saturating_add(offset),
        }
    }

    /// Returns a place that belongs to no process.
    pub fn nobodys(address: u64) -> Place {
        Place {
            base: Base::Number,
            offset: address,
            address,
        }
    }
}

/// The place in C, as `H + 0x8`.
impl fmt::Display for Place {
    fn fmt<W: fmt::Write>(&self, f: &mut fmt::Formatter<W>) -> fmt::Result {
        let offset = self.offset;
        match self.base {
            Base::Heap => write!(f, "H + {offset:#x}"),
            Base::Guard => write!(f, "G + {offset:#x}"),
            Base::Number => write!(f, "{offset:#x}UL"),
            Base::Text => write!(f, "T"),
            Base::Mapping(number) => write!(f, "M[{number}] + {offset:#x}"),
            Base::Before(number) => write!(f, "M[{number}] - {offset:#x}"),
            Base::After(number) => write!(f, "Mend[{number}] + {offset:#x}"),
        }
    }
}
