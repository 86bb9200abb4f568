// `image_fault`: the first check that an image fails (`ImageFault`), and of which segment, with the numbers that the checks are made of
// (`FaultySegment`).

ghost use Rattle.std.specs.Prelude.{◌≡◌, ◌≤◌, length, map, Err, IfSome, IsOk, MatchOption};
ghost use Rattle.process_model.specs.Images as model;
ghost use Rattle.exec_segments.specs.FirstFaults.{IsFirstFaulty, headers_in};

use crate::elf::{FILE_HEADER, Header, MAGIC, header_at, place};
use crate::fields::{u16_at, u32_at, u64_at};
use crate::image::Image as JudgedImage;
use crate::image_builder::ImageBuilder;
use crate::load::Load;
use process_model::{BadImage, Image, LONGEST_IMAGE, Segment};
use sv39_entry::{PAGE_SIZE, Scheme};

/// The first segment of an image that fails a check, by the numbers of its program header (System V ABI, "Program header") or of
/// the list of segments. Those that a list does not have are 0, and so are all but the first two if the header is not inside the file.
#[derive(Clone, Copy, PartialEq, Eq, Debug)]
pub struct FaultySegment {
    /// The number of the program header, or of the segment, counted from 0.
    pub number: usize,
    /// The offset of the program headers in the file, e_phoff.
    pub table: u64,
    /// The offset of its bytes in the file, p_offset.
    pub offset: u64,
    /// Its first address, p_vaddr.
    pub address: u64,
    /// The number of its bytes, p_filesz.
    pub file_size: u64,
    /// Its size in memory, p_memsz, in bytes.
    pub memory_size: u64,
    /// The end, rounded up to a page, of the last segment before it that has pages: the lowest address at which it may begin.
    pub least_address: u64,
}

/// Why an image is refused.
#[derive(Clone, Copy, PartialEq, Eq, Debug)]
pub struct ImageFault {
    /// The first check that it fails.
    pub part: BadImage,
    /// The segment that fails it; `None` for a check of the image as a whole: `TooLong`, `Header`, `Magic` and `NoLoad`.
    pub segment: Option<FaultySegment>,
}

impl FaultySegment {
    /// The program header with this number, which is not inside the file.
    fn outside(number: usize, table: u64) -> FaultySegment
        ensures { result.number ≡ number }
    {
        FaultySegment {
            number,
            table,
            offset: 0,
            address: 0,
            file_size: 0,
            memory_size: 0,
            least_address: 0,
        }
    }

    /// A segment that fails a check, after segments that end before page `end`.
    fn of(number: usize, load: &Load<'_>, end: u64) -> FaultySegment
        ensures { result.number ≡ number }
    {
        FaultySegment {
            number,
            table: 0,
            offset: 0,
            address: load.address,
            file_size: load.file_size,
            memory_size: load.memory_size,
            least_address: end.saturating_mul(PAGE_SIZE),
        }
    }
}

/// The offset of the bytes of a segment in the file, which the program header with this number has at byte 8.
fn offset_of(bytes: &[u8], table: u64, index: u16) -> u64
    requires { length bytes.now ≤ LONGEST_IMAGE }
{
    match place(bytes, table, index) {
        Some(at) => u64_at(bytes, at + 8),
        None => 0,
    }
}

/// The first program header of an ELF file that fails a check.
fn faulty_header(scheme: Scheme, bytes: &[u8]) -> Option<FaultySegment>
    ensures { IfSome result (λ f. IsFirstFaulty scheme (model.headers_from bytes.now (model.field bytes.now 32 8) (model.field bytes.now 56 2)) f.number) }
{
    if bytes.len() > LONGEST_IMAGE || bytes.len() < FILE_HEADER || u32_at(bytes, 0) != MAGIC {
        return None;
    }
    let table = u64_at(bytes, 32);
    let mut judging = ImageBuilder::new(scheme);
    let count = u16_at(bytes, 56);
    'headers: for index in 0..count {
        match header_at(bytes, table, index) {
            Header::Outside => return Some(FaultySegment::outside(usize::from(index), table)),
            Header::PassedOver => {}
            Header::Load(load) => {
                let end = judging.end_page();
                if judging.judge(load).is_err() {
                    let segment = FaultySegment::of(usize::from(index), &load, end);
                    let offset = offset_of(bytes, table, index);
                    return Some(FaultySegment {
                        table,
                        offset,
                        ..segment
                    });
                }
            }
        }
    }
    None
}

/// The first segment of a list that fails a check.
fn faulty_of_list(scheme: Scheme, segments: &[Segment]) -> Option<FaultySegment>
    ensures { IfSome result (λ f. IsFirstFaulty scheme (map model.load_of segments.now) f.number) }
{
    let mut judging = ImageBuilder::new(scheme);
    'segments: for (number, segment) in segments.iter().enumerate() {
        let load = Load::of(segment);
        let end = judging.end_page();
        if judging.judge(load).is_err() {
            return Some(FaultySegment::of(number, &load, end));
        }
    }
    None
}

/// The first segment of an image that fails a check.
fn faulty_segment(scheme: Scheme, image: Image<'_>) -> Option<FaultySegment>
    ensures { IfSome result (λ f. IsFirstFaulty scheme (headers_in image.entry) f.number) }
{
    match image {
        Image::Elf(bytes) => faulty_header(scheme, bytes),
        Image::Segments(segments) => faulty_of_list(scheme, segments),
    }
}

/// Returns why an image is refused for an address space of `scheme`. `None`: it passes every check.
pub fn image_fault(scheme: Scheme, image: Image<'_>) -> Option<ImageFault>
    ensures segment { IfSome result (λ fault. IfSome fault.segment (λ f. IsFirstFaulty scheme (headers_in image.entry) f.number)) }
    ensures part { MatchOption result (IsOk (model.image_loads scheme image.entry)) (λ fault. model.image_loads scheme image.entry ≡ Err fault.part) }
{
    match JudgedImage::judged(scheme, image) {
        Ok(_) => None,
        Err(part) => Some(ImageFault {
            part,
            segment: faulty_segment(scheme, image),
        }),
    }
}
