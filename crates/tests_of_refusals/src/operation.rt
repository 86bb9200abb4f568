// `Operation`, an enum: one system call, kernel copy or served fault in a story (test case). `Answer`, an enum: what it
// returned. `Row`: an operation, the answer that it must get, and whether it must change nothing.

use fault_rules::Served;
use process_model::Refusal;
use sv39_entry::Access;
use user_copy::Stop;

/// A system call of a process, or a copy or service that the kernel does for it. Lengths are in bytes.
#[derive(Clone, Copy)]
pub(crate) enum Operation {
    /// fork. The process may have one child.
    Fork,
    /// exec of the image with this number.
    Exec(usize),
    /// sbrk by this number of bytes; a negative one shrinks the heap.
    Grow(i64),
    /// The service of a fault, by this access to the byte at an address.
    Serve(Access, u64),
    /// mmap of this length of the file: readable, writable and shared.
    Map(u64),
    /// munmap: the address and the length.
    Unmap(u64, u64),
    /// A kernel copy of four bytes from the process, from an address on.
    CopyIn(u64),
    /// A kernel copy of these four bytes to the process, from an address on.
    CopyOut(u64, [u8; 4]),
}

/// What an operation returned.
#[derive(Clone, Copy, PartialEq, Eq, Debug)]
pub(crate) enum Answer {
    Done,
    Refused(Refusal),
    Served(Served),
    /// The bytes copied from the process, as a number whose lowest byte is the first.
    Copied(u64),
    /// A copy stopped: why, after how many bytes, and the bytes copied from the process, as for `Copied`; 0 for a copy to
    /// it.
    Short(Stop, usize, u64),
}

/// An operation, the answer that it must get, and whether it must leave all that is observed (`seen`) unchanged.
pub(crate) type Row = (Operation, Answer, bool);
