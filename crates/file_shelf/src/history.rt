// `PageUse`, a struct: an entry of a shelf's history (its page reads and writes, in order): the file's number, the
// offset, the 4,096 bytes, and whether they were written or read.

ghost use Rattle.std.specs.Prelude.{◌≡◌};

use std::marker::Model;

/// 4,096 bytes of a file, from an offset on, that were read or written. Contracts see the model's `PageMove`.
#[derive(Drop)]
pub struct PageUse {
    /// The number of the file.
    pub file: usize,
    /// Where in the file the page begins, in bytes.
    pub offset: usize,
    /// The bytes that were read, zeros past the file's end; or the bytes that the write was given.
    pub bytes: [u8; 4096],
    /// Whether the page was written; if not, it was read.
    pub writes: bool,
}

impl Model for PageUse {
    ghost use Rattle.file_shelf.specs.Histories.{use_of};
    ghost use Rattle.process_model.specs.PageMoves.{PageMove};

    ghost Value = { PageMove };

    ghost view = { λ u. use_of u.writes u.file u.offset u.bytes };
}

impl PageUse {
    /// Returns a copy of the entry.
    pub fn copied(&self) -> PageUse
        ensures { result ≡ self.now }
    {
        PageUse {
            file: self.file,
            offset: self.offset,
            bytes: self.bytes,
            writes: self.writes,
        }
    }
}
