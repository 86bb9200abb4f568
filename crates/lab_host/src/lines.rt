// `read_line`: reads a line of a file; `without_feed` and `is_among`, what is asked of one.

use crate::fault::Fault;
use script_language::LONGEST_LINE;
use std::io::{BufRead, BufReader, Read};

/// Whether a word is one of some words.
pub fn is_among(words: &[&[u8]], word: &[u8]) -> bool {
    'words: for one in words {
        if *one == word {
            return true;
        }
    }
    false
}

/// Returns a line without its line feed.
pub fn without_feed(line: &[u8]) -> &[u8] {
    line.strip_suffix(b"\n".as_slice()).unwrap_or(line)
}

/// The most bytes that are read of one line: those of the longest line, a carriage return, a line feed, and one more.
const LONGEST_READ: u64 = LONGEST_LINE as u64 + 3;

/// Reads the next line with its line feed, and returns how many bytes it has: 0 at the end. Of a line that is too long, its first
/// `LONGEST_READ` bytes.
///
/// # Errors
/// `Read`: the reader failed. `Memory`: the host is out of memory.
pub fn read_line<R: Read + Drop>(
    reader: &mut BufReader<R>,
    line: &mut Vec<u8>,
) -> Result<usize, Fault> {
    let mut front = reader.by_ref().take(LONGEST_READ);
    match front.read_until(b'\n', line) {
        Ok(count) => Ok(count),
        Err(error) => Err(Fault::of_reading(error)),
    }
}
