//! Functions `mmap` and `munmap`, for mappings of files in the space of a process (MIT 6.1810, mmap lab); and
//! `promise_write_back` and `write_back`, by which pages of writable shared mappings that were stored to are written to
//! their files.
#![tactic(auto)]

mod dirty_pages;
mod map_file;
mod place;
mod run;
mod unmap_range;

pub use dirty_pages::{promise_write_back, write_back};
pub use map_file::mmap;
pub use unmap_range::munmap;
