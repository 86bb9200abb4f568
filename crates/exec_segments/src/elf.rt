// `read_image`: reads a 64-bit ELF file as exec does (the xv6 book, "Code: exec"; System V ABI, "Object files") and makes an
// `Image` of its segments. Private: the enum `Header` (a program header: outside the file, skipped, or a segment to load),
// and where in the file a program header and its segment's bytes are.

ghost use Rattle.std.specs.Prelude.{◌≡◌, ◌≤◌, ◌+◌, ◌*◌, IfOk, length, drop, nat_le, take};
ghost use Rattle.exec_segments.specs.Headers.{HasAtMostFileSize, IsHeaderPlace, header_of};
ghost use Rattle.exec_segments.specs.Loads.{load_of, loads_in};
ghost use Rattle.process_model.specs.Images as model;

use crate::fields::{u16_at, u32_at, u64_at};
use crate::image::Image;
use crate::image_builder::ImageBuilder;
use crate::load::Load;
use process_model::{BadImage, LONGEST_IMAGE};
use sv39_entry::Scheme;

/// Length of the file header, in bytes.
pub const FILE_HEADER: usize = 64;

/// Length of each program header, in bytes.
pub const PROGRAM_HEADER: u64 = 56;

/// The first four bytes of a file, 7f 45 4c 46, as a little-endian number.
pub(crate) const MAGIC: u32 = 0x464c_457f;

/// PT_LOAD: the type of a program header that describes a segment to load.
const LOAD: u32 = 1;

/// PF_X and PF_W, the flags of a segment that matter: any segment may be read.
const EXECUTES: u32 = 1;

const WRITES: u32 = 2;

/// A program header, as exec reads it.
pub(crate) enum Header<'a> {
    /// Its 56 bytes do not all lie inside the file.
    Outside,
    /// Its type is not PT_LOAD, so exec skips it.
    PassedOver,
    /// It describes this segment to load.
    Load(Load<'a>),
}

/// Reads the program in the ELF file `bytes`, for an address space of `scheme`, and returns the image of its segments
/// that have pages; the image borrows their bytes.
/// Of the file header, the first four bytes (7f 45 4c 46), the offset of the program headers (at byte 32, in 8 bytes) and
/// their number (at byte 56, in 2) are read. Of a program header, its type is read, and if that is PT_LOAD, the flags for
/// execution and writing, offset, address, size in the file and size in memory. No other field is read, such as class,
/// byte order, machine, entry point, the length of a program header (taken to be 56), physical address and alignment. Any
/// segment may be read.
///
/// # Errors
/// The first check that fails (`elf_loads`; `BadImage` says what each means). Of the file: `TooLong` (more than
/// `LONGEST_IMAGE` bytes), `Header` (fewer than 64), `Magic`. Then of each program header in turn: `ProgramHeader` (its 56
/// bytes do not all lie inside the file), and if its type is PT_LOAD, the checks of its segment: `Sizes`, `Wraps`, `Align`,
/// and if it has bytes in memory, `Contents`, `TooHigh`, `Order`, `TooMany`. At the end: `NoLoad` (no segment has pages).
pub fn read_image(scheme: Scheme, bytes: &[u8]) -> Result<Image<'_>, BadImage>
    ensures loads { loads_in result ≡ model.elf_loads scheme bytes.now }
    ensures scheme { IfOk result (λ i. i.scheme ≡ scheme) }
{
    if bytes.len() > LONGEST_IMAGE {
        return Err(BadImage::TooLong);
    }
    if bytes.len() < FILE_HEADER {
        return Err(BadImage::Header);
    }
    if u32_at(bytes, 0) != MAGIC {
        return Err(BadImage::Magic);
    }
    let table = u64_at(bytes, 32);
    let count = u16_at(bytes, 56);
    let mut judging = ImageBuilder::new(scheme);
    'headers: for index in 0..count {
        match header_at(bytes, table, index) {
            Header::Outside => return Err(BadImage::ProgramHeader),
            Header::PassedOver => {}
            Header::Load(load) => judging.judge(load)?,
        }
    }
    judging.into_image()
}

/// The program header with number `index`, from 0, of those that begin at offset `table` of the file.
pub(crate) fn header_at(bytes: &[u8], table: u64, index: u16) -> Header<'_>
    requires { length bytes.now ≤ LONGEST_IMAGE }
    ensures header { header_of result ≡ model.header_at bytes.now (table + 56 * index) }
    ensures fits { HasAtMostFileSize result }
{
    let Some(at) = place(bytes, table, index) else {
        return Header::Outside;
    };
    if u32_at(bytes, at) != LOAD {
        return Header::PassedOver;
    }
    Header::Load(load_at(bytes, at))
}

/// The offset in the file of that program header; `None` if its 56 bytes do not all lie inside the file.
pub(crate) fn place(bytes: &[u8], table: u64, index: u16) -> Option<usize>
    requires { length bytes.now ≤ LONGEST_IMAGE }
    ensures { IsHeaderPlace bytes.now (table + 56 * index) result }
{
    let at = table.checked_add(PROGRAM_HEADER * u64::from(index))?;
    let last = (bytes.len() as u64).checked_sub(PROGRAM_HEADER)?;
    if at > last {
        return None;
    }
    Some(at as usize)
}

/// The segment that the program header at offset `at` of the file describes. The header has the flags at byte 4, the offset
/// of the segment's bytes at 8, its address at 16, its size in the file at 32, and its size in memory at 40.
fn load_at(bytes: &[u8], at: usize) -> Load<'_>
    requires inside { at + 56 ≤ length bytes.now }
    requires few { length bytes.now ≤ LONGEST_IMAGE }
    ensures load { load_of result ≡ model.load_at bytes.now at }
    ensures fits { length result.bytes.now ≤ result.file_size }
{
    let flags = u32_at(bytes, at + 4);
    let offset = u64_at(bytes, at + 8);
    let file_size = u64_at(bytes, at + 32);
    let behind = bytes_from(bytes, offset);
    let contents = first_bytes(behind, file_size);
    Load {
        address: u64_at(bytes, at + 16),
        memory_size: u64_at(bytes, at + 40),
        file_size,
        writes: flags & WRITES != 0,
        executes: flags & EXECUTES != 0,
        is_inside: lies_inside(bytes, offset, file_size),
        bytes: contents,
    }
}

/// Whether `count` bytes from `offset` on lie inside the file.
fn lies_inside(bytes: &[u8], offset: u64, count: u64) -> bool
    ensures { result ≡ nat_le (offset + count) (length bytes.now) }
{
    match offset.checked_add(count) {
        Some(end) => end <= bytes.len() as u64,
        None => false,
    }
}

/// The bytes of the file from `offset` on; none if it is past the end.
fn bytes_from(bytes: &[u8], offset: u64) -> &[u8]
    ensures { result.now ≡ drop offset bytes.now }
{
    &bytes[offset.min(bytes.len() as u64) as usize..]
}

/// The first `count` bytes, or all if there are fewer.
fn first_bytes(bytes: &[u8], count: u64) -> &[u8]
    ensures { result.now ≡ take count bytes.now }
{
    &bytes[..count.min(bytes.len() as u64) as usize]
}
