// Enums `Reply`, the reply to a step of the machine or to a call of a process on threads; `ScalarReply`, one that carries no
// bytes; and `Refusal`, why a step or call is refused.

use crate::image::BadImage;
use crate::limits::LONGEST_COPY;
use crate::phase::Phase;
use arrayvec::ArrayVec;
use sv39_entry::Rule;

/// The reply to a step.
#[derive(Drop, PartialEq, Eq, Debug)]
pub enum Reply {
    /// A reply that carries no bytes: the only kind for any step but `CopyIn`.
    Scalar(ScalarReply),
    /// All the bytes that were to be copied from the process.
    CopiedIn(ArrayVec<u8, LONGEST_COPY>),
    /// The rule that stopped the copy from the process, and the bytes that were copied before it.
    ShortIn(Rule, ArrayVec<u8, LONGEST_COPY>),
}

/// A reply that carries no bytes. It has no room for them, so it is passed on at little cost.
#[derive(Clone, Copy, PartialEq, Eq, Debug)]
pub enum ScalarReply {
    /// The step is made, and has no other reply.
    Done,
    /// The slot of the new process.
    Started(usize),
    /// The slot of the child. In a journal of a process on threads: the child's number among its parent's children, from 0.
    Forked(usize),
    /// The value that was loaded or fetched, little-endian and without sign.
    Value(u64),
    /// The store is made.
    Stored,
    /// The access faulted with this exception cause (RISC-V Privileged Architecture 20211203, 4.1.8).
    Fault(u64),
    /// The number of the new buffer entry: 0 is the oldest.
    Filled(usize),
    /// No buffer entry was added. No step of the model replies this: a fill adds an entry even if the walk finds no leaf.
    NothingFilled,
    /// The frame that the trampoline's page is in: 0.
    InFrame(usize),
    /// The page is resident for the access that faulted: if made next, the access succeeds.
    Ready,
    /// The kernel ended the process by this rule; by `NoFrame` if its access was granted but lacked a frame.
    Ended(Rule),
    /// The size before the change, in bytes: the address at which the heap ended.
    OldSize(u64),
    /// The address of the new mapping.
    MappedAt(u64),
    /// How many bytes were copied to the process: all.
    CopiedOut(usize),
    /// The rule that stopped the copy to the process, and how many bytes were copied before it.
    ShortOut(Rule, usize),
    /// The process exited with this status.
    Exited(i32),
    /// The step or call was refused.
    Refused(Refusal),
}

/// Why a step of the machine, or a call of a process on threads, was refused.
#[derive(Clone, Copy, PartialEq, Eq, Debug)]
pub enum Refusal {
    /// It needs more frames than are free. On threads: the free count was read as 0 while fewer frames were reserved than it
    /// needs.
    NoFrame,
    /// Every slot has a process.
    NoSlot,
    /// A frame's reference count is `MOST_REFERENCES`. The model refuses no step by this.
    SharersFull,
    /// The image fails this check.
    BadImage(BadImage),
    /// The heap would end below its base.
    BadSize,
    /// The heap would reach into the lowest mapping or the trapframe; or the mapping fits nowhere between heap and
    /// trapframe.
    NoRoom,
    /// There is no such hart; a width is not 1, 2, 4 or 8; a trampoline offset is no multiple of 4 below 4,096; a copy is
    /// longer than `LONGEST_COPY`. `Mmap`: the length is 0 or above `LONGEST_MAPPING`, the protection is 0 or above 7, the
    /// flags are neither 1 nor 2, or there is no such file. `Munmap`: the address is no multiple of 4,096, the length is 0,
    /// or the pages are not all in one mapping.
    BadArgument,
    /// The mapping would be shared and writable, and its file may not be written.
    FileNotWritable,
    /// The process has `MOST_MAPPINGS` mappings, the most that it may have.
    MappingsFull,
    /// The pages to unmap touch neither end of their mapping, which would be left in two parts.
    HoleInMapping,
    /// The step is not possible in this phase of the hart. Or in phase `Kernel`: an access waits for its service, or for
    /// `Serve` none does. `Switch`: the slot has no process, or its process is on a hart.
    Impossible(Phase),
    /// There is no such buffer entry; or, for an access, it is for another page or another ASID.
    NoEntry,
    /// The host is out of memory for it. The model refuses no step by this.
    Memory,
    /// The history of the files has no room for the pages that it reads or writes. The model refuses no step by this.
    JournalFull,
}
