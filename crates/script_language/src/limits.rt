// The limits of scripts and of files for threads (the input for processes on threads), each a constant that definitions, code
// and texts read. Those of machines and processes are `process_model`'s.

use process_model::{LONGEST_IMAGE, MOST_ENTRIES};

/// The most bytes of a line, without its end: enough for `elf` and the longest image in hexadecimal digits.
pub const LONGEST_LINE: usize = 2 * LONGEST_IMAGE + 512;

/// The most bytes of a script or of a file for threads.
pub const LONGEST_SCRIPT: usize = 16_777_216;

/// The most images that a script or a file for threads may declare.
pub const MOST_IMAGES: usize = 64;

/// The most lines that a script may have after `boot`, and a file for threads after `pool`, without those that are skipped.
pub const MOST_COMMANDS: usize = 100_000;

/// The most lists of calls of a file for threads; their numbers are below it.
pub const MOST_LISTS: usize = 64;

/// The most calls of a list: as many as a journal has entries.
pub const MOST_CALLS: usize = MOST_ENTRIES;
