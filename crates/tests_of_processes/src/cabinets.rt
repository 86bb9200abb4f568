// `cabinet`: makes the files of a test from a table (`Text`: length, mode and bytes). `changes_of`: which bytes of files differ
// from their beginning, each as a `Change` (file, offset, value).

ghost use Rattle.std.specs.Prelude.{◌≡◌};
ghost use Rattle.process_model.specs.Files.{fits_file};

use file_cabinet::Cabinet;
use process_model::{Bytes, FileText};
use std::alloc::{AllocError, Global};
use std::test::Fail;

/// A file: its length in bytes, whether it is writable, how many of its bytes are declared (zeros follow), and their values: the
/// first one, and after how many bytes the next higher value comes, with 0 after 255.
pub(crate) type Text = (usize, bool, usize, u8, usize);

/// A byte of a file that differs from the beginning: the number of the file, the byte's offset, and its value.
pub(crate) type Change = (usize, usize, u8);

/// The byte of a declared file at offset `place` in the beginning.
fn byte_at(text: Text, place: usize) -> u8 {
    let (_, _, _, first, every) = text;
    first.wrapping_add((place / every.max(1) % 256) as u8)
}

fn declared(alloc: Global, text: Text) -> Result<FileText, AllocError> {
    let mut bytes = Vec::new(alloc);
    for place in 0..text.2 {
        bytes.push(byte_at(text, place))?;
    }
    Ok(FileText {
        length: text.0,
        writable: text.1,
        bytes: Bytes::from_vec(bytes),
    })
}

/// Whether a file has at most 65,536 bytes, and declares no more bytes than its length.
fn fits(text: &FileText) -> bool
    ensures { result ≡ fits_file text.now }
{
    text.length <= 65_536 && text.bytes.as_slice().len() <= text.length
}

/// A cabinet of these files.
///
/// # Errors
/// `Fail`: there are more than 16 files, one does not fit (`fits`), or the host is out of memory.
pub(crate) fn cabinet(alloc: Global, table: &[Text]) -> Result<Cabinet, Fail> {
    let mut texts = Vec::new(alloc);
    for number in 0..table.len() {
        texts.push(declared(alloc, table[number])?)?;
    }
    if texts.len() > 16 || !texts.iter().all(fits) {
        return Err(Fail::from("too large"));
    }
    Ok(Cabinet::new(alloc, &texts)?)
}

/// The bytes of files that differ from their beginning. A file whose length differs adds a change at its length, with value 0.
///
/// # Errors
/// `AllocError`: the host is out of memory.
pub(crate) fn changes_of(
    alloc: Global,
    files: &Cabinet,
    table: &[Text],
) -> Result<Vec<Change>, AllocError> {
    let mut changes = Vec::new(alloc);
    for file in 0..table.len() {
        let bytes = files.bytes(file).unwrap_or_default();
        for place in 0..bytes.len() {
            if bytes[place] != byte_at(table[file], place) {
                changes.push((file, place, bytes[place]))?;
            }
        }
        if bytes.len() != table[file].0 {
            changes.push((file, bytes.len(), 0))?;
        }
    }
    Ok(changes)
}
