//! Functions that use a frame of any store of `frame_store` as a page of 4,096 bytes: load or store a number of 1, 2, 4
//! or 8 bytes, read or write a run of bytes at any offset, fill, copy or read the whole page. None of them can fail.
#![tactic(auto)]

mod contents;
mod runs;

pub use contents::{copy_frame, fill_frame, load_bytes, read_frame, store_bytes};
pub use runs::{read_run, write_run};
