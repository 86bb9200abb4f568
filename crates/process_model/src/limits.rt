// The limits of machines, processes and runs on threads, each a constant that definitions, code and texts read: counts of
// harts, slots (places in the process table), frames, references, segments, mappings, parts and regions, files, buffer entries
// and calls; lengths of images, mappings, copies and files.

/// The most harts of a machine or of a run on threads.
pub const MOST_HARTS: usize = 8;

/// The fewest frames (of 4,096 bytes) of a machine, or that threads share.
pub const FEWEST_FRAMES: usize = 16;

/// The most frames of a machine.
pub const MOST_FRAMES: usize = 1024;

/// The most frames that threads share.
pub const MOST_SHARED_FRAMES: usize = 256;

/// The most references that a frame can have: a leaf, pointer or root that names it is one.
pub const MOST_REFERENCES: u16 = u16::MAX;

/// The most slots of a machine or of a run on threads.
pub const MOST_SLOTS: usize = 64;

/// The most segments with pages of an image.
pub const MOST_SEGMENTS: usize = 16;

/// The most mappings of a process.
pub const MOST_MAPPINGS: usize = 16;

/// The most bytes of a mapping.
pub const LONGEST_MAPPING: u64 = 1_048_576;

/// The most bytes of an image in ELF form.
pub const LONGEST_IMAGE: usize = 1_048_576;

/// The pages of a guard, below the stack.
pub const GUARD_PAGES: u64 = 1;

/// The pages of a stack.
pub const STACK_PAGES: u64 = 1;

/// The most parts of a process: the segments of its image, the guard and the stack.
pub const MOST_PARTS: usize = MOST_SEGMENTS + 2;

/// The most regions of a process: its parts, the heap and the mappings.
pub const MOST_REGIONS: usize = MOST_PARTS + 1 + MOST_MAPPINGS;

/// The most files of a machine or of a run on threads.
pub const MOST_FILES: usize = 16;

/// The most bytes of a file.
pub const LONGEST_FILE: usize = 65_536;

/// The most bytes that the kernel copies in one call.
pub const LONGEST_COPY: usize = 256;

/// The most entries of a hart's translation buffer.
pub const BUFFER_SIZE: usize = 32;

/// The most entries of a journal, the calls of a process on threads with their replies.
pub const MOST_ENTRIES: usize = 10_000;
