// Struct `FileText`: a file as a script or a file for threads declares it: its length, whether it may be written, and its
// first bytes.

use crate::sequence::Bytes;

/// A file of fixed length, as a script or a file for threads declares it.
#[derive(Drop)]
pub struct FileText {
    /// The length of the file, in bytes.
    pub length: usize,
    /// Whether the file may be written: only then may a shared mapping of it be writable.
    pub writable: bool,
    /// The first bytes of the file; zeros follow up to its length.
    pub bytes: Bytes,
}
