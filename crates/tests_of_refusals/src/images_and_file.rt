// The images (`standard_segments`; `SMALL`, an ELF file) and the file (`one_file`, which may refuse one promise, a
// reservation of page I/O) that each story (test case) begins with.

ghost use Rattle.std.specs.Prelude.{◌≡◌};
ghost use Rattle.process_model.specs.Files.{fits_file};

use file_cabinet::Cabinet;
use process_model::{Bytes, FileText, Segment};
use std::alloc::{AllocError, Global};
use std::test::Fail;
use tests_of_files::RefusingFiles;

/// An ELF file of 124 bytes: a file header, one program header, and the four bytes of its code at 0, which has one page. Its
/// process has that page, a guard and a stack.
pub(crate) const SMALL: &[u8; 124] = b"\x7fELF\x02\x01\x01\0\0\0\0\0\0\0\0\0\x02\0\xf3\0\x01\0\0\0\
    \0\0\0\0\0\0\0\0\x40\0\0\0\0\0\0\0\0\0\0\0\0\0\0\0\0\0\0\0\x40\0\x38\0\x01\0\0\0\0\0\0\0\
    \x01\0\0\0\x05\0\0\0\x78\0\0\0\0\0\0\0\0\0\0\0\0\0\0\0\0\0\0\0\0\0\0\0\
    \x04\0\0\0\0\0\0\0\0\x10\0\0\0\0\0\0\0\x10\0\0\0\0\0\0\x13\x05\0\0";

/// The number of frames that a start of the standard segments takes: five pages, five page tables and the trapframe.
pub(crate) const STANDARD: usize = 11;

/// Code at 0, of one page, and 0x1800 bytes of data at 0x1000. Their process has its guard at 0x3000, its stack at 0x4000,
/// and its heap from 0x5000 on.
///
/// # Errors
/// `AllocError`: the host is out of memory.
pub(crate) fn standard_segments(alloc: Global) -> Result<Vec<Segment>, AllocError> {
    let segments = vec![in alloc;
        Segment {
            address: 0x0,
            memory_size: 0x1000,
            writes: false,
            executes: true,
            bytes: Bytes::from_vec(Vec::from_slice(alloc, &[0x13, 0x05, 0, 0])?),
        },
        Segment {
            address: 0x1000,
            memory_size: 0x1800,
            writes: true,
            executes: false,
            bytes: Bytes::from_vec(Vec::new(alloc)),
        },
    ]?;
    Ok(segments)
}

/// The files of a story: one file, which may refuse one promise.
pub(crate) type OneFile = RefusingFiles<Cabinet>;

/// Whether a file has at most 65,536 bytes, and declares no more bytes than its length.
fn fits(text: &FileText) -> bool
    ensures { result ≡ fits_file text.now }
{
    text.length <= 65_536 && text.bytes.as_slice().len() <= text.length
}

/// A writable file of two pages: 4,096 bytes of 7, then zeros. It makes `promises` promises and then refuses one; `None`: it
/// refuses none.
///
/// # Errors
/// `Fail`: the host is out of memory.
pub(crate) fn one_file(alloc: Global, promises: Option<usize>) -> Result<OneFile, Fail> {
    let texts = vec![in alloc;
        FileText {
            length: 0x2000,
            writable: true,
            bytes: Bytes::from_vec(Vec::from_elem(alloc, 7, 0x1000)?),
        },
    ]?;
    if texts.len() > 16 || !texts.iter().all(fits) {
        return Err(Fail::from("too large"));
    }
    Ok(RefusingFiles {
        files: Cabinet::new(alloc, &texts)?,
        until_refusal: promises,
    })
}
