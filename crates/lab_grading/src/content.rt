// `Content`: what was read of a file that is handed in.

use grade_reports::Standing;
use handouts::{Line, student_lines};
use memchr::memchr;
use std::alloc::{AllocError, Global};

/// The most bytes that a handout, or what a student hands in, may have.
pub const MOST_BYTES: usize = 1_048_576;

/// The most lines that what a student hands in may have that are neither empty nor comments.
const MOST_LINES: usize = 2000;

/// What was read of a file.
#[derive(Drop)]
pub struct Content {
    pub standing: Standing,
    pub bytes: Vec<u8>,
    /// Whether the file was there and could be read.
    pub is_read: bool,
    /// Why it could not be read; empty if it could.
    pub why: String,
}

/// Whether a text begins with the byte order mark of UTF-16.
fn is_utf16(bytes: &[u8]) -> bool {
    bytes.starts_with(&[0xff, 0xfe]) || bytes.starts_with(&[0xfe, 0xff])
}

impl Content {
    /// Returns what there is of a file that cannot be graded.
    pub fn nothing(alloc: Global, standing: Standing, is_read: bool) -> Content {
        Content {
            standing,
            bytes: Vec::new(alloc),
            is_read,
            why: String::new(alloc),
        }
    }

    /// Returns what there is of a file with these bytes.
    pub fn of(alloc: Global, bytes: Vec<u8>) -> Content {
        if bytes.len() > MOST_BYTES {
            return Content::nothing(alloc, Standing::TooLong, true);
        }
        if is_utf16(bytes.as_slice()) {
            return Content::nothing(alloc, Standing::Wide, true);
        }
        if memchr(0, bytes.as_slice()).is_some() {
            return Content::nothing(alloc, Standing::Binary, true);
        }
        Content {
            standing: Standing::Whole,
            bytes,
            is_read: true,
            why: String::new(alloc),
        }
    }

    /// Returns what there is of a file that is to be graded by the student whom it names, and names none.
    pub fn unnamed(self, alloc: Global) -> Result<Content, AllocError> {
        let has_lines = !student_lines(alloc, self.bytes.as_slice())?.is_empty();
        match self.standing {
            Standing::Whole if has_lines => {
                Ok(Content::nothing(alloc, Standing::Unnamed, self.is_read))
            }
            _ => Ok(self),
        }
    }

    /// Returns its lines, none if there are too many.
    pub fn lines(&mut self, alloc: Global) -> Result<Vec<Line>, AllocError> {
        let lines = student_lines(alloc, self.bytes.as_slice())?;
        if lines.len() > MOST_LINES {
            self.standing = Standing::TooLong;
            return Ok(Vec::new(alloc));
        }
        Ok(lines)
    }
}
