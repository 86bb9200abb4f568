//! Process start and `exec` (the xv6 book, "Code: exec"). `read_image` and `Image` check a program image, an ELF file or a
//! list of segments; `start` and `exec` make the address space of its process: the segments, a guard page, a stack page, and
//! an empty heap.
#![tactic(auto)]

mod elf;
mod exec_image;
mod fields;
mod image;
mod image_builder;
mod image_faults;
mod load;
mod start_process;

pub use elf::{FILE_HEADER, PROGRAM_HEADER, read_image};
pub use exec_image::exec;
pub use image::Image;
pub use image_faults::{FaultySegment, ImageFault, image_fault};
pub use start_process::{start, start_frames};
