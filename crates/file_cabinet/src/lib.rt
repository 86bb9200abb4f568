//! Files of a fixed length that are read and written in pages of 4,096 bytes, as mmap and write-back need them (mmap lab
//! of MIT 6.1810): the trait `Files`, the struct `Cabinet`, which has them in host memory, and the enum `PromiseError`,
//! why a promise of page reads and writes (so that they cannot fail) was refused.
//!
//! The calls are a trait, `Files`, so that the crates above are proved once, for any files. `Cabinet` has the files of a
//! single thread, in host memory.
#![tactic(auto)]

mod cabinet;
mod files;
mod held_file;
mod promise;

pub use cabinet::Cabinet;
pub use files::Files;
pub use promise::PromiseError;
