//! sbrk with lazy growth (the xv6 book, "Page-fault exceptions"): function `sbrk` and its errors, enum `SizeError`. A heap
//! that grows takes no frame, since each page of it gets one at its first access; a heap that shrinks releases the frames of
//! the pages above its new end.
#![tactic(auto)]

mod heap_size;
mod size_error;

pub use heap_size::sbrk;
pub use size_error::SizeError;
