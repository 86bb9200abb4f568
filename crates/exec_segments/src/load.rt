// `Load`, a struct: one segment to load as an image states it (address, sizes, rights, bytes); `Load::fault`, the checks
// that exec makes of it, in order.

ghost use Rattle.std.specs.Prelude.{◌≡◌, ◌<◌, ◌≤◌, ◌+◌, ◌^◌, length, List};
ghost use Rattle.exec_segments.specs.Loads.{load_of, segment_load};
ghost use Rattle.process_model.specs.Images as model;
ghost use Rattle.process_model.specs.Images.{LoadSegment};

use process_model::{BadImage, GUARD_PAGES, MOST_SEGMENTS, STACK_PAGES, Segment};
use sv39_entry::{PAGE_SIZE, Scheme};

/// A segment to load, as the image describes it.
#[derive(Clone, Copy)]
pub(crate) struct Load<'a> {
    pub(crate) address: u64,
    /// Its size in memory, in bytes.
    pub(crate) memory_size: u64,
    /// Its size in the file, in bytes, as the image states it.
    pub(crate) file_size: u64,
    pub(crate) writes: bool,
    pub(crate) executes: bool,
    /// Whether its `file_size` bytes all lie inside the image.
    pub(crate) is_inside: bool,
    /// Those of its `file_size` bytes that lie inside the image.
    pub(crate) bytes: &'a [u8],
}

/// Filler for an unused place of a fixed-size list.
impl Default for Load<'_> {
    ghost use Rattle.std.specs.Prelude.{◌≡◌, ℕ, false, []};

    ghost is_default = { λ l. (l.address ≡ 0) × (l.memory_size ≡ 0) × (l.file_size ≡ 0) × (l.writes ≡ false) × (l.executes ≡ false)
        × (l.is_inside ≡ false) × (l.bytes.now ≡ []) };

    fn default() -> Self {
        Load {
            address: 0,
            memory_size: 0,
            file_size: 0,
            writes: false,
            executes: false,
            is_inside: false,
            bytes: &[],
        }
    }
}

impl<'a> Load<'a> {
    /// A segment of a list: all its bytes lie inside the image, and their number is its size in the file.
    pub(crate) fn of(segment: &'a Segment) -> Load<'a>
        ensures load { load_of result ≡ segment_load segment.now }
        ensures fits { length result.bytes.now ≤ result.file_size }
    {
        let bytes = segment.bytes.as_slice();
        Load {
            address: segment.address,
            memory_size: segment.memory_size,
            file_size: bytes.len() as u64,
            writes: segment.writes,
            executes: segment.executes,
            is_inside: true,
            bytes,
        }
    }

    /// The number of the page after its last one.
    pub(crate) fn end_page(&self) -> u64
        requires { self.now.address + self.now.memory_size < 2 ^ 64 }
        ensures { result ≡ model.end_page (load_of self.now) }
    {
        (self.address + self.memory_size).div_ceil(PAGE_SIZE)
    }

    /// The first check that it fails in an address space of `scheme`, or `None`. Before it there are `count` segments with
    /// pages, and page `end` follows the last of them. In order: `Sizes` (fewer bytes in memory than in the file), `Wraps`
    /// (it ends at 2^64 or above), `Align` (it does not start at a multiple of 4,096). If it has bytes in memory, then:
    /// `Contents` (its bytes do not all lie inside the image), `TooHigh` (fewer than two pages are left between its end and
    /// the trapframe), `Order` (it starts below page `end`), `TooMany` (`count` is 16 or more).
    pub(crate) fn fault(&self, scheme: Scheme, end: u64, count: usize) -> Option<BadImage>
        ensures { (before : List LoadSegment) → length before ≡ count → model.end_of_loads 0 before ≡ end →
            result ≡ model.load_fault scheme before (load_of self.now) }
    {
        if self.memory_size < self.file_size {
            return Some(BadImage::Sizes);
        }
        let Some(past) = self.address.checked_add(self.memory_size) else {
            return Some(BadImage::Wraps);
        };
        if self.address % PAGE_SIZE != 0 {
            return Some(BadImage::Align);
        }
        if self.memory_size == 0 {
            return None;
        }
        if !self.is_inside {
            return Some(BadImage::Contents);
        }
        let trapframe = scheme.trapframe().0 / PAGE_SIZE;
        if past.div_ceil(PAGE_SIZE) + (GUARD_PAGES + STACK_PAGES) > trapframe {
            return Some(BadImage::TooHigh);
        }
        if self.address / PAGE_SIZE < end {
            return Some(BadImage::Order);
        }
        if count >= MOST_SEGMENTS {
            return Some(BadImage::TooMany);
        }
        None
    }
}
