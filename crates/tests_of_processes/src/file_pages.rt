// Tests that `Cabinet` (the files of a machine) keeps the lengths and modes of sixteen files, and reads, lends and writes
// pages at the ends of files, past them, and of files that do not exist: rows of file, offset, place and byte. `THREE_FILES`:
// the files of these tests and of those of promises.

use crate::cabinets::{Text, cabinet};
use crate::rows::expect;
use file_cabinet::{Cabinet, Files};
use std::test::Fail;

/// Three files: 0 is writable, with 5,000 bytes of which 4,100 are declared; 1 is read-only and has no bytes; 2 is writable,
/// with 65,536 bytes, all declared. Bytes are 0, 1, 2 and so on, with 0 again after 255.
pub(crate) static THREE_FILES: [Text; 3] = [
    (5_000, true, 4_100, 0, 1),
    (0, false, 0, 0, 1),
    (65_536, true, 65_536, 0, 1),
];

/// Sixteen files that declare all their bytes. Those with an even number are writable.
static SIXTEEN_FILES: [Text; 16] = [
    (0, true, 0, 0, 1),
    (1, false, 1, 0, 1),
    (100, true, 100, 0, 1),
    (4_095, false, 4_095, 0, 1),
    (4_096, true, 4_096, 0, 1),
    (4_097, false, 4_097, 0, 1),
    (5_000, true, 5_000, 0, 1),
    (8_192, false, 8_192, 0, 1),
    (12_288, true, 12_288, 0, 1),
    (12_289, false, 12_289, 0, 1),
    (20_000, true, 20_000, 0, 1),
    (32_768, false, 32_768, 0, 1),
    (40_000, true, 40_000, 0, 1),
    (61_440, false, 61_440, 0, 1),
    (65_535, true, 65_535, 0, 1),
    (65_536, false, 65_536, 0, 1),
];

/// The length of a file, the number of its bytes, `None` if there is no such file; and whether it is writable.
fn shape(files: &Cabinet, number: usize) -> (Option<usize>, Option<usize>, bool) {
    let bytes = match files.bytes(number) {
        Some(bytes) => Some(bytes.len()),
        None => None,
    };
    (files.length(number), bytes, files.writable(number))
}

#[test]
fn keeps_sixteen_files(rt: HostRuntime) -> Result<(), Fail> {
    let files = cabinet(rt.alloc(), &SIXTEEN_FILES)?;
    for number in 0..SIXTEEN_FILES.len() {
        let length = Some(SIXTEEN_FILES[number].0);
        let wanted = (length, length, SIXTEEN_FILES[number].1);
        expect(&rt, number, shape(&files, number), wanted);
    }
    for number in [16, usize::MAX] {
        expect(&rt, number, shape(&files, number), (None, None, false));
    }
    Ok(())
}

/// The byte at `place` of a page that is lent, `Some(None)` if the page ends before it; `None` if no page is lent.
fn lent_byte(files: &Cabinet, file: usize, offset: usize, place: usize) -> Option<Option<u8>> {
    let bytes = files.lent_page(file, offset)?;
    Some(bytes.get(place).copied())
}

/// `byte`, as `lent_byte` must return it at `place` of a page from `offset` on of a file of this length.
fn as_lent(length: Option<usize>, offset: usize, place: usize, byte: u8) -> Option<Option<u8>> {
    let rest = length?.saturating_sub(offset);
    Some(if place < rest { Some(byte) } else { None })
}

/// A file, the offset of a page in it, a place in the page, and the byte there.
static READS: [(usize, usize, usize, u8); 22] = [
    (0, 0, 0, 0),
    (0, 0, 255, 255),
    (0, 0, 256, 0),
    (0, 0, 4_095, 255),
    (0, 1, 0, 1),
    (0, 4_000, 0, 160),
    (0, 4_000, 99, 3),
    (0, 4_000, 100, 0),
    (0, 4_099, 0, 3),
    (0, 4_100, 0, 0),
    (0, 4_999, 4_095, 0),
    (0, 5_000, 0, 0),
    (0, usize::MAX, 4_095, 0),
    (1, 0, 0, 0),
    (1, 0, 4_095, 0),
    (2, 61_440, 4_095, 255),
    (2, 65_534, 0, 254),
    (2, 65_534, 1, 255),
    (2, 65_534, 2, 0),
    (2, 65_536, 0, 0),
    (3, 0, 0, 0),
    (3, 0, 4_095, 0),
];

#[test]
fn reads_pages(rt: HostRuntime) -> Result<(), Fail> {
    let mut files = cabinet(rt.alloc(), &THREE_FILES)?;
    for number in 0..READS.len() {
        let (file, offset, place, byte) = READS[number];
        let mut page = [9; 4096];
        files.read_page(file, offset, &mut page);
        let there = page.get(place).copied();
        let lent = lent_byte(&files, file, offset, place);
        let wanted = as_lent(files.length(file), offset, place, byte);
        expect(&rt, number, (there, lent), (Some(byte), wanted));
    }
    Ok(())
}

/// The byte of a file at an offset; `None` if it has none there.
pub(crate) fn byte_at(files: &Cabinet, file: usize, offset: usize) -> Option<u8> {
    files.bytes(file)?.get(offset).copied()
}

/// A file and the offset at which the page below is written to it; and a file, an offset in it, and the byte there then.
static WRITES: [(usize, usize, usize, usize, Option<u8>); 21] = [
    (0, 0, 0, 0, Some(8)),
    (0, 0, 0, 1, Some(7)),
    (0, 0, 0, 4_095, Some(9)),
    (0, 0, 0, 4_098, Some(2)),
    (0, 0, 2, 1, Some(1)),
    (0, 4_000, 0, 3_999, Some(159)),
    (0, 4_000, 0, 4_000, Some(8)),
    (0, 4_000, 0, 4_999, Some(7)),
    (0, 4_000, 0, 5_000, None),
    (0, 4_999, 0, 4_998, Some(0)),
    (0, 4_999, 0, 4_999, Some(8)),
    (0, 5_000, 0, 4_999, Some(0)),
    (0, usize::MAX, 0, 4_999, Some(0)),
    (1, 0, 1, 0, None),
    (2, 61_440, 2, 61_439, Some(255)),
    (2, 61_440, 2, 61_440, Some(8)),
    (2, 61_440, 2, 65_535, Some(9)),
    (2, 61_441, 2, 65_535, Some(7)),
    (2, 61_441, 2, 65_536, None),
    (3, 0, 2, 2, Some(2)),
    (3, 0, 3, 0, None),
];

#[test]
fn writes_pages(rt: HostRuntime) -> Result<(), Fail> {
    let mut page = [7; 4096];
    page[0] = 8;
    page[4_095] = 9;
    for number in 0..WRITES.len() {
        let (file, offset, seen, at, byte) = WRITES[number];
        let mut files = cabinet(rt.alloc(), &THREE_FILES)?;
        files.write_page(file, offset, &page);
        let lengths = [files.length(0), files.length(1), files.length(2)];
        let kept = [Some(5_000), Some(0), Some(65_536)];
        expect(
            &rt,
            number,
            (byte_at(&files, seen, at), lengths),
            (byte, kept),
        );
    }
    Ok(())
}
