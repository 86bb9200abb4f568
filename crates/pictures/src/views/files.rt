// `FileView`: a file with eight of its bytes; `FilePlace`: which of them are those of a mapped address.

use address_space::Source;
use file_cabinet::Files;
use hart_machine::Machine;
use line_traces::Touched;
use process_model::MOST_FILES;
use serde::Serialize;
use std::alloc::{AllocError, Global};
use sv39_entry::PAGE_SIZE;

/// A file, and up to eight of its bytes.
#[derive(Drop, Serialize)]
pub struct FileView {
    pub number: usize,
    /// In bytes.
    pub length: usize,
    pub writable: bool,
    /// Where the bytes begin.
    pub offset: usize,
    pub bytes: Vec<u8>,
}

/// A place in a file.
#[derive(Clone, Copy)]
pub struct FilePlace {
    /// The file's number.
    pub file: u64,
    /// In bytes.
    pub offset: u64,
}

/// Returns the place in the file that is mapped where a line touches memory, of the eight bytes that are shown there; `None` if no file
/// is mapped there.
pub fn file_place(machine: &Machine, touched: Touched) -> Option<FilePlace> {
    let region = machine.region(touched.slot, touched.va)?;
    let start = region.first.wrapping_mul(PAGE_SIZE);
    let row = touched.va.0.wrapping_sub(touched.va.0 % 8);
    match region.source {
        Source::File { file, offset } => Some(FilePlace {
            file,
            offset: offset.wrapping_add(row.wrapping_sub(start)),
        }),
        Source::Zeros | Source::Image => None,
    }
}

/// Returns where the bytes of a file that are shown begin: at its first, unless a line touches others.
fn offset_in(place: Option<FilePlace>, number: usize) -> usize {
    match place {
        Some(place) if place.file == number as u64 => place.offset as usize,
        _ => 0,
    }
}

/// Returns the files of a machine, by their numbers; of one the bytes from a place on.
///
/// # Errors
/// `AllocError`: the host is out of memory.
pub fn files_of(
    alloc: Global,
    machine: &Machine,
    place: Option<FilePlace>,
) -> Result<Vec<FileView>, AllocError> {
    let (mut files, held) = (Vec::new(alloc), machine.files());
    for number in 0..MOST_FILES {
        let offset = offset_in(place, number);
        if let (Some(length), Some(bytes)) = (held.length(number), held.lent_page(number, offset)) {
            files.push(FileView {
                number,
                length,
                writable: held.writable(number),
                offset,
                bytes: Vec::from_slice(alloc, &bytes[..bytes.len().min(8)])?,
            })?;
        }
    }
    Ok(files)
}
