// `File`: a file of the model, which is a part of a file of the C program.

use crate::places::{PAGE, pages_of};

/// A file of the model: a part of a file of the C program, since the model's mmap has no offset.
#[derive(Clone, Copy)]
pub struct File {
    /// Its number in the script.
    pub number: usize,
    /// The number of the C program's file, `kitf0` and so on.
    pub c_number: u64,
    /// Where the part begins there.
    pub offset: u64,
    /// Its bytes.
    pub size: u64,
    /// What its contents follow from.
    pub seed: u64,
    pub read_only: bool,
}

impl File {
    /// Returns how many pages it has.
    pub fn pages(&self) -> usize {
        pages_of(self.size) as usize
    }

    /// Returns a byte of it, as `file_make` of the runtime makes it.
    pub fn byte_at(&self, at: u64) -> u8 {
        let sum = at
            .wrapping_mul(7)
            .wrapping_add((at / 256).wrapping_mul(13))
            .wrapping_add(self.seed);
        (sum & 0xff) as u8
    }

    /// Returns how many bytes it has from a page on.
    pub fn bytes_from(&self, page: usize) -> u64 {
        self.size.saturating_sub((page as u64).saturating_mul(PAGE))
    }
}
