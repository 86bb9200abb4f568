// `explain_image`: which check an image fails, in which program header of an ELF file or in which segment of a list, and what would be
// right. Numbers of an ELF file have the names of the standard (System V ABI, "ELF header", "Program header"), those of a list the
// names of an `image` line.

ghost use Rattle.std.specs.Prelude.{◌≡◌, IfOk, is_err, is_some};
ghost use Rattle.process_model.specs.Images.{image_loads};

use exec_segments::{FILE_HEADER, FaultySegment, PROGRAM_HEADER, image_fault};
use process_model::{BadImage, GUARD_PAGES, Image, LONGEST_IMAGE, MOST_SEGMENTS, STACK_PAGES};
use std::alloc::{AllocError, Global};
use sv39_entry::{PAGE_SIZE, Scheme};
use text_builder::Text;

/// What a segment and its numbers are called.
#[derive(Clone, Copy)]
struct Names {
    segment: &'static str,
    address: &'static str,
    bytes: &'static str,
    size: &'static str,
}

/// The names in this image.
fn names_in(image: Image<'_>) -> Names {
    match image {
        Image::Elf(_) => Names {
            segment: "program header",
            address: "p_vaddr",
            bytes: "p_filesz",
            size: "p_memsz",
        },
        Image::Segments(_) => Names {
            segment: "segment",
            address: "VADDR",
            bytes: "the number of bytes of HEX",
            size: "MEMSZ",
        },
    }
}

/// The number of bytes of an ELF file, 0 for a list of segments.
fn length_of(image: Image<'_>) -> usize {
    match image {
        Image::Elf(bytes) => bytes.len(),
        Image::Segments(_) => 0,
    }
}

/// That an ELF file does not begin with the four bytes of its format.
fn put_no_magic(text: &mut Text, image: Image<'_>) {
    if let Image::Elf(bytes) = image
        && let [a, b, c, d, ..] = bytes
    {
        write!(
            text,
            "e_ident begins with {a:02x} {b:02x} {c:02x} {d:02x}, not with 7f 45 4c 46"
        )
    } else {
        text.push_str("e_ident does not begin with 7f 45 4c 46")
    }
}

/// That an image has no segment with pages.
fn no_pages(image: Image<'_>) -> &'static str {
    match image {
        Image::Elf(_) => "no program header of type 1 (PT_LOAD) has a p_memsz above 0",
        Image::Segments(_) => "no segment has a MEMSZ above 0",
    }
}

/// Which check an image fails as a whole.
fn put_whole(text: &mut Text, image: Image<'_>, part: BadImage) {
    let length = length_of(image);
    match part {
        BadImage::TooLong => write!(
            text,
            "the file has {length} bytes, and may have at most {LONGEST_IMAGE}"
        ),
        BadImage::Header => write!(
            text,
            "the file has {length} bytes, fewer than its header, {FILE_HEADER}"
        ),
        BadImage::Magic => put_no_magic(text, image),
        _ => text.push_str(no_pages(image)),
    }
}

/// The highest address at which a segment may end: guard and stack follow, and then the trapframe.
fn highest_end(scheme: Scheme) -> u64 {
    scheme
        .trapframe()
        .0
        .saturating_sub((GUARD_PAGES + STACK_PAGES) * PAGE_SIZE)
}

/// Which check of addresses and sizes a segment fails.
fn put_numbers(text: &mut Text, scheme: Scheme, names: Names, part: BadImage, it: &FaultySegment) {
    let (address, bytes, size) = (names.address, names.bytes, names.size);
    let (at, memory_size, file_size) = (it.address, it.memory_size, it.file_size);
    match part {
        BadImage::Sizes => write!(
            text,
            "{bytes} is 0x{file_size:x}, above {size}, which is 0x{memory_size:x}"
        ),
        BadImage::Wraps => write!(
            text,
            "{address} 0x{at:x} + {size} 0x{memory_size:x} is 2^64 or more"
        ),
        BadImage::Align => write!(text, "{address} is 0x{at:x}, not a multiple of {PAGE_SIZE}"),
        BadImage::TooHigh => {
            let (end, most) = (at.saturating_add(memory_size), highest_end(scheme));
            write!(
                text,
                "{address} + {size} is 0x{end:x}, above 0x{most:x}: guard and stack must fit below the trapframe"
            )
        }
        BadImage::Order => {
            let least = it.least_address;
            write!(
                text,
                "{address} is 0x{at:x}, below 0x{least:x}, the end of the pages of the one before it"
            )
        }
        _ => write!(
            text,
            "an image has at most {MOST_SEGMENTS} with pages, and this is one more"
        ),
    }
}

/// Which check a segment fails, or its program header.
fn put_segment(
    text: &mut Text,
    scheme: Scheme,
    image: Image<'_>,
    part: BadImage,
    it: &FaultySegment,
) {
    let (names, length) = (names_in(image), length_of(image));
    let (table, offset, file_size) = (it.table, it.offset, it.file_size);
    let (segment, number) = (names.segment, it.number);
    write!(text, "{segment} {number}: ");
    match part {
        BadImage::ProgramHeader => write!(
            text,
            "its {PROGRAM_HEADER} bytes are not all inside the file, which has {length} bytes; e_phoff is 0x{table:x}"
        ),
        BadImage::Contents => write!(
            text,
            "p_offset 0x{offset:x} + p_filesz 0x{file_size:x} is past the end of the file, which has 0x{length:x} bytes"
        ),
        _ => put_numbers(text, scheme, names, part, it),
    }
}

/// Returns which check an image fails in an address space of `scheme`, the first by which a start is refused; in which program header or
/// segment, counted from 0; and what would be right. `None`: the image passes every check.
///
/// # Errors
/// `AllocError`: host memory was refused.
pub fn explain_image(
    alloc: Global,
    scheme: Scheme,
    image: Image<'_>,
) -> Result<Option<String>, AllocError>
    ensures { IfOk result (λ text. is_some text ≡ is_err (image_loads scheme image.entry)) }
{
    let Some(fault) = image_fault(scheme, image) else {
        return Ok(None);
    };
    let mut text = Text::new(alloc);
    match fault.segment {
        Some(segment) => put_segment(&mut text, scheme, image, fault.part, &segment),
        None => put_whole(&mut text, image, fault.part),
    }
    let text = text.finish()?;
    Ok(Some(text))
}
