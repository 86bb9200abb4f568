// `Operation`, an enum: one operation in a story (test case): sbrk, mmap, munmap, the service of a fault, a user access,
// write-back, or a read of a file. `Row`: an operation and the reply that it must get.

use process_model::ScalarReply;
use sv39_entry::Access;

/// One operation of a process, or of the kernel for it. Lengths and widths are in bytes.
#[derive(Clone, Copy)]
pub(crate) enum Operation {
    /// sbrk by this number of bytes; a negative one shrinks the heap.
    Grow(i64),
    /// mmap: the length, the protection, the flags and the number of the file.
    Map(u64, u64, u64, usize),
    /// munmap: the address and the length.
    Unmap(u64, u64),
    /// The service of a fault, by this access to the byte at an address.
    Serve(Access, u64),
    /// A user access: the address, the width and, for a store, the value, whose lowest byte is stored first.
    Touch(Access, u64, u64, u64),
    /// Write-back of all mappings; their pages stay.
    WriteBack,
    /// A read of eight bytes of a file, beside the process: the file's number and the offset.
    Look(usize, usize),
}

/// An operation, and the reply that it must get.
pub(crate) type Row = (Operation, ScalarReply);
