//! Kernel copies `copy_in` and `copy_out` (copyin and copyout of the xv6 book, "Code: exec" and "Real world"), of at most
//! `LONGEST_COPY` bytes from or to the memory of a process, over any store of frames and any files; and their error, struct
//! `Short` with enum `Stop`. They make pages resident as the service of a fault does.
#![tactic(auto)]

mod copying;
mod short;

pub use copying::{copy_in, copy_out};
pub use short::{Short, Stop};
