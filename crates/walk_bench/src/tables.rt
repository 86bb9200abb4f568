// Builds the input of the benchmark: the words of page tables for Sv39 and Sv48 that map 1,000 pages, and the virtual
// addresses, one on each page, in the order of the walks; and finds the scheme of a root (`root_scheme`).

use std::alloc::{AllocError, Global};
use sv39_entry::{Entry, FrameNo, Rights, Scheme};

/// The number of mapped pages, from page 0 on.
pub(crate) const PAGES: usize = 1000;

/// The frame of the Sv39 root. The table below it is in frame 2, and the two last-level tables are in frames 3 and 4.
pub(crate) const ROOT: u16 = 1;

/// The frame of the Sv48 root, whose entry 0 points to the Sv39 root.
pub(crate) const TALL_ROOT: u16 = 1005;

/// Returns the scheme of a root by its entry 0, so that the compiler does not know the scheme: Sv48 if
/// that points to the Sv39 root.
pub(crate) fn root_scheme(words: &[u64], root: u16) -> Scheme {
    if words.get(usize::from(root) * 512) == Some(&Entry::pointer(FrameNo(ROOT)).to_word()) {
        Scheme::Sv48
    } else {
        Scheme::Sv39
    }
}

/// Returns the words of 1,024 frames, 512 each: tables that map page n to frame 5 + n, and zeros.
///
/// # Errors
/// `AllocError`: host memory was refused.
pub(crate) fn words(alloc: Global) -> Result<Vec<u64>, AllocError> {
    let mut words = Vec::new(alloc);
    for frame in 0..1024 {
        for index in 0..512 {
            words.push(word(frame, index).to_word())?;
        }
    }
    Ok(words)
}

/// The page table entry at an index of a frame; 0 outside of the tables.
fn word(frame: u16, index: u16) -> Entry {
    match (frame, index) {
        (ROOT, 0) => Entry::pointer(FrameNo(2)),
        (2, 0) => Entry::pointer(FrameNo(3)),
        (2, 1) => Entry::pointer(FrameNo(4)),
        (3, 0..512) => data(5 + index),
        (4, 0..488) => data(517 + index),
        (TALL_ROOT, 0) => Entry::pointer(FrameNo(ROOT)),
        _ => Entry::from_word(0),
    }
}

/// A leaf that grants user loads and user stores.
fn data(frame: u16) -> Entry {
    Entry::leaf(
        FrameNo(frame),
        Rights::READ | Rights::WRITE,
        true,
        false,
        true,
    )
}

/// Returns one virtual address on each mapped page, in an order that looks random: that of a linear congruential generator
/// with full period 1,024, without the numbers that are no mapped page.
///
/// # Errors
/// `AllocError`: host memory was refused.
pub(crate) fn addresses(alloc: Global) -> Result<Vec<u64>, AllocError> {
    let mut addresses = Vec::new(alloc);
    let mut number = 1u64;
    for _ in 0..1024 {
        number = number.wrapping_mul(421).wrapping_add(647) % 1024;
        if number < PAGES as u64 {
            addresses.push((number << 12) + number % 512 * 8)?;
        }
    }
    Ok(addresses)
}
