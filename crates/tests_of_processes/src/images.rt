// `FILE`: an ELF file. Tests that `read_image` takes a file of 1 MiB, and refuses one with a byte more; and that an image of no
// segments is refused.

use crate::SCHEMES;
use crate::rows::expect;
use exec_segments::{Image, read_image};
use process_model::BadImage;
use std::alloc::{AllocError, Global};
use sv39_entry::Scheme;

/// A file header, one program header, and the four bytes of its segment: code at 0, of one page. Its process has its guard at
/// 0x1000 and its stack at 0x2000.
pub(crate) const FILE: &[u8; 124] = b"\x7fELF\x02\x01\x01\0\0\0\0\0\0\0\0\0\x02\0\xf3\0\x01\0\0\0\
    \0\0\0\0\0\0\0\0\x40\0\0\0\0\0\0\0\0\0\0\0\0\0\0\0\0\0\0\0\x40\0\x38\0\x01\0\0\0\0\0\0\0\
    \x01\0\0\0\x05\0\0\0\x78\0\0\0\0\0\0\0\0\0\0\0\0\0\0\0\0\0\0\0\0\0\0\0\
    \x04\0\0\0\0\0\0\0\0\x10\0\0\0\0\0\0\0\x10\0\0\0\0\0\0\x13\x05\0\0";

/// The check that the file fails with zeros appended up to a length in bytes; `None` if it is accepted.
fn with_length(alloc: Global, length: usize) -> Result<Option<BadImage>, AllocError> {
    let mut bytes = Vec::from_slice(alloc, FILE)?;
    bytes.resize(length, 0)?;
    Ok(read_image(Scheme::Sv39, &bytes).err())
}

#[test]
fn takes_a_mebibyte(rt: HostRuntime) {
    let too_long = Some(BadImage::TooLong);
    expect(&rt, 0, with_length(rt.alloc(), 1_048_576), Ok(None));
    expect(&rt, 1, with_length(rt.alloc(), 1_048_577), Ok(too_long));
}

#[test]
fn refuses_no_segments(rt: HostRuntime) {
    for scheme in SCHEMES {
        let told = Image::from_segments(scheme, &[]).err();
        expect(&rt, 0, told, Some(BadImage::NoLoad));
    }
}
