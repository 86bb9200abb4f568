// Processes on threads. Enums `Call` (an access, a system call or a kernel copy) and `ProcessEnd` (how a process ended); struct
// `Start` (a process to start).

use crate::image::Image;
use crate::reply::Refusal;
use sv39_entry::Rule;

/// One call of a process on threads: an access, a system call or a kernel copy. An access to a page that is not resident is
/// served within the call.
///
/// Addresses and lengths are in bytes.
#[derive(Clone, Copy)]
pub enum Call<'a> {
    /// Fetches the 4 bytes at `address`.
    Fetch {
        address: u64,
    },
    /// Loads `width` bytes: 1, 2, 4 or 8.
    Load {
        address: u64,
        width: u64,
    },
    /// Stores the low `width` bytes of `value`, the lowest first; `width` is 1, 2, 4 or 8.
    Store {
        address: u64,
        width: u64,
        value: u64,
    },
    /// Replaces the process by one of `image`. Its mappings are written back.
    Exec {
        image: Image<'a>,
    },
    /// Grows the heap by `delta` bytes, or shrinks it if `delta` is negative.
    Sbrk {
        delta: i64,
    },
    /// Maps `length` bytes of a file, from its beginning; `file` is the file's index, from 0. `protection` is a sum of 1
    /// (read), 2 (write) and 4 (execute); `flags` is 1 (shared) or 2 (private).
    Mmap {
        length: u64,
        protection: u64,
        flags: u64,
        file: usize,
    },
    /// Unmaps `length` bytes from `address` on, rounded up to whole pages. Pages of a shared mapping that were made ready
    /// for a store are written back.
    Munmap {
        address: u64,
        length: u64,
    },
    /// The kernel copies `count` bytes, at most `LONGEST_COPY`, from the process, from `address` on (copyin of xv6).
    CopyIn {
        address: u64,
        count: usize,
    },
    /// The kernel copies `bytes`, at most `LONGEST_COPY`, to the process, from `address` on (copyout of xv6).
    CopyOut {
        address: u64,
        bytes: &'a [u8],
    },
    /// Ends the process with this status. Its mappings are written back.
    Exit {
        status: i32,
    },
    /// Forks. The child makes the calls of list number `list`.
    Fork {
        list: usize,
    },
}

/// A process to start: its image, and the number of the list of its calls.
#[derive(Clone, Copy)]
pub struct Start<'a> {
    pub image: Image<'a>,
    pub list: usize,
}

/// How a process on threads ended.
#[derive(Clone, Copy, PartialEq, Eq, Debug)]
pub enum ProcessEnd {
    /// It exited with this status.
    Exited(i32),
    /// The kernel ended it by this rule, which denied an access of its own; by `NoFrame` if the access needed a frame that
    /// it did not get.
    Ended(Rule),
    /// Its start was refused, so it made no call.
    Refused(Refusal),
    /// The host was out of memory: for its next call, for its space, or for pages of files that the call reads or writes.
    Memory,
    /// Its journal (the list of its calls with their replies) had no room for its next call, or the history of the files
    /// none for the pages that the call reads or writes.
    JournalFull,
}
