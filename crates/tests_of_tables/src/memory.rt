// `words_of`: a memory for walks, of at most 1,024 frames, by its words other than 0. And words that the tests share.

use std::alloc::{AllocError, Global};

/// The frames of a memory: those of `DATA`, a superpage from frame 512 on, are inside.
pub(crate) const FRAMES: usize = 1024;

/// A pointer to frame 2.
pub(crate) const POINTER: u64 = 0x20000801;

/// A leaf of frame 512 that grants user loads and stores. A and D are set.
pub(crate) const DATA: u64 = 0x200800d7;

/// The index of a word in the memory, and the word. Each frame has 512 words.
pub(crate) type Word = (usize, u64);

/// The words of `frames` frames, at most `FRAMES`: all are 0 but the given ones.
pub(crate) fn words_of(
    alloc: Global,
    frames: usize,
    given: &[Word],
) -> Result<Vec<u64>, AllocError> {
    let mut words = vec![in alloc; 0; frames.min(FRAMES) * 512]?;
    for (index, word) in given {
        if *index < words.len() {
            words[*index] = *word;
        }
    }
    Ok(words)
}
