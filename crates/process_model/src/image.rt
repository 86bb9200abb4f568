// Program images to start or exec, each an ELF file or a list of segments: struct `Segment`; enums `Image` (as a step
// borrows it) and `BadImage` (the checks that an image may fail).

use crate::sequence::Bytes;

/// A segment of an image that is given as a list: a range of addresses, its rights and its first bytes. It may always be
/// read.
#[derive(Drop)]
pub struct Segment {
    /// The first address.
    pub address: u64,
    /// The length of the range, in bytes.
    pub memory_size: u64,
    /// Whether the process may write to it.
    pub writes: bool,
    /// Whether the process may execute it.
    pub executes: bool,
    /// The first bytes of the range; zeros follow up to its length.
    pub bytes: Bytes,
}

/// An image as a step or call borrows it. The step that starts or executes it makes the checks.
#[derive(Clone, Copy)]
pub enum Image<'a> {
    /// The bytes of an ELF file.
    Elf(&'a [u8]),
    Segments(&'a [Segment]),
}

/// The first check that an image failed. `TooLong`, `Header` and `Magic` are checks of an ELF file as a whole. Then
/// `ProgramHeader` to `TooMany` are made for one segment after the other (in an ELF file, one program header after the
/// other); those from `Contents` on only for a segment with bytes in memory. `NoLoad` is last.
#[derive(Clone, Copy, PartialEq, Eq, Debug)]
pub enum BadImage {
    /// The ELF file has more than `LONGEST_IMAGE` bytes.
    TooLong,
    /// The ELF file has fewer bytes than its header, 64.
    Header,
    /// The ELF file does not begin with 7f 45 4c 46.
    Magic,
    /// A program header does not lie inside the ELF file.
    ProgramHeader,
    /// The segment has more bytes in the image than in memory.
    Sizes,
    /// The segment ends at 2^64 or above: its address plus its size in memory.
    Wraps,
    /// The segment's address is no multiple of 4,096.
    Align,
    /// The segment's bytes do not lie inside the ELF file.
    Contents,
    /// Fewer than two pages, for guard and stack, are left between the segment's end, rounded up to a page, and the
    /// trapframe.
    TooHigh,
    /// The segment begins below the end, rounded up to a page, of the last one before it that has pages.
    Order,
    /// The segment has pages, and `MOST_SEGMENTS` before it have some.
    TooMany,
    /// No segment has pages.
    NoLoad,
}
