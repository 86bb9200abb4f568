// `HeldFile`, a crate-internal struct: one file of a cabinet, its bytes in host memory and whether it may be written; it
// is made as declared, and read and written in pages of 4,096 bytes from any offset.

ghost use Rattle.std.specs.Prelude.{◌≡◌, ◌≤◌, drop, IfOk, length, take};
ghost use Rattle.process_model.specs.Bytes.{padded};
ghost use Rattle.process_model.specs.Files.{written_over};
ghost use Rattle.process_model.specs.Files.{file_of};

use process_model::FileText;
use std::alloc::{AllocError, Global};
use std::marker::Model;

/// A file of a fixed length. Contracts see the model's file: its bytes, and whether it may be written.
#[derive(Drop)]
pub struct HeldFile {
    contents: Vec<u8>,
    writable: bool,
}

impl Model for HeldFile {
    ghost use Rattle.process_model.specs.Files.{File};

    ghost Value = { File };

    ghost view = { λ f. record { bytes = f.contents.items; writable = f.writable } };
}

impl HeldFile {
    /// Makes the declared file: the bytes that were declared, then zeros up to its length. No other call takes host memory.
    ///
    /// # Errors
    /// `AllocError`: the host is out of memory.
    pub fn new(alloc: Global, text: &FileText) -> Result<HeldFile, AllocError>
        ensures { IfOk result (λ f. f ≡ file_of text.now) }
    {
        let mut contents = Vec::with_capacity(alloc, text.length)?;
        contents.extend_from_slice(text.bytes.as_slice())?;
        contents.resize(text.length, 0)?;
        Ok(HeldFile {
            contents,
            writable: text.writable,
        })
    }

    /// Returns all bytes of the file.
    pub fn bytes(&self) -> &[u8]
        ensures { result.now ≡ (self.now).bytes }
    {
        self.contents.as_slice()
    }

    /// Returns whether the file may be written.
    pub fn is_writable(&self) -> bool
        ensures { result ≡ (self.now).writable }
    {
        self.writable
    }

    /// Returns the bytes of the file from byte `offset` on, at most 4,096.
    pub fn page(&self, offset: usize) -> &[u8]
        ensures short { length result.now ≤ 4096 }
        ensures bytes { result.now ≡ take 4096 (drop offset (self.now).bytes) }
    {
        let bytes = self.contents.as_slice();
        let rest = &bytes[offset.min(bytes.len())..];
        &rest[..rest.len().min(4096)]
    }

    /// Reads 4,096 bytes of the file, from byte `offset` on, into `page`, with zeros past the file's end.
    pub fn read(&self, offset: usize, page: &mut [u8; 4096])
        ensures { page.new ≡ padded 4096 (drop offset (self.now).bytes) }
    {
        let held = self.page(offset);
        page[..held.len()].copy_from_slice(held);
        page[held.len()..].fill(0);
    }

    /// Writes 4,096 bytes to the file, from byte `offset` on and up to its length, which stays.
    pub fn write(&mut self, offset: usize, page: &[u8; 4096])
        ensures { self.new ≡ record self.old { bytes = written_over (self.old).bytes offset page.now } }
    {
        overwrite(&mut self.contents, offset, page);
    }
}

/// Overwrites the bytes from `offset` on with those of `page`, up to their end.
fn overwrite(bytes: &mut [u8], offset: usize, page: &[u8])
    ensures { bytes.new ≡ written_over bytes.old offset page.now }
{
    let start = offset.min(bytes.len());
    let count = (bytes.len() - start).min(page.len());
    bytes[start..start + count].copy_from_slice(&page[..count]);
}
