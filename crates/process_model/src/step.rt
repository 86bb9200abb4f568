// Enum `Step` (one step of the machine: a start, a switch, an access, a kernel call ..); struct `Report` (counts of frames);
// `is_width` (whether an access may have that many bytes).

ghost use Rattle.std.specs.Prelude.{◌≡◌};
ghost use Rattle.process_model.specs.Bytes.{is_width};

use crate::image::Image;

/// One step of the machine: a start, a switch, a trap, an instruction of kernel entry or return, a change of a buffer, an
/// access, the service of a fault, or a whole kernel call. A refused step changes nothing.
///
/// Addresses and lengths are in bytes. `via` names the entry of the hart's buffer that an access uses: 0 is the oldest.
/// Without it the access walks the page table.
#[derive(Clone, Copy)]
pub enum Step<'a> {
    /// Starts a process of the image in the lowest free slot.
    Start(Image<'a>),
    /// Schedules the slot's process on the hart, in phase `Kernel`; `None` leaves the hart idle.
    Switch {
        hart: usize,
        slot: Option<usize>,
    },
    /// The process traps voluntarily; the hart is then in phase `Enter0`.
    Trap {
        hart: usize,
    },
    /// The hart executes the next instruction of kernel entry or return: a fence, or the write of `satp`.
    Next {
        hart: usize,
    },
    /// The hart translates the page of `address` by the table that `satp` names, and keeps the outcome, a leaf or "no leaf",
    /// as the newest entry of its buffer; a full buffer loses its oldest.
    Fill {
        hart: usize,
        address: u64,
    },
    /// Removes an entry of the hart's buffer: 0 is the oldest.
    Evict {
        hart: usize,
        entry: usize,
    },
    /// Fetches the 4 bytes at `address`.
    Fetch {
        hart: usize,
        address: u64,
        via: Option<usize>,
    },
    /// Loads `width` bytes: 1, 2, 4 or 8.
    Load {
        hart: usize,
        address: u64,
        width: u64,
        via: Option<usize>,
    },
    /// Stores the low `width` bytes of `value`, the lowest first; `width` is 1, 2, 4 or 8.
    Store {
        hart: usize,
        address: u64,
        width: u64,
        value: u64,
        via: Option<usize>,
    },
    /// The kernel fetches its code at `offset` in the trampoline's page, in supervisor mode. `offset` is a multiple of 4
    /// below 4,096.
    TrampolineFetch {
        hart: usize,
        offset: u64,
        via: Option<usize>,
    },
    /// The kernel serves the access that waits after a fault: it makes the page resident for it (in memory and ready, so if
    /// made next, the access succeeds); or it ends the process, by the first rule that denies the access or, if frames are
    /// too few, by `NoFrame`.
    Serve {
        hart: usize,
    },
    /// Forks the process; the child is in the lowest free slot.
    Fork {
        hart: usize,
    },
    /// Replaces the process by one of `image`. Its mappings are written back.
    Exec {
        hart: usize,
        image: Image<'a>,
    },
    /// Grows the heap by `delta` bytes, or shrinks it if `delta` is negative.
    Sbrk {
        hart: usize,
        delta: i64,
    },
    /// Maps `length` bytes of a file, from its beginning; `file` is the file's index, from 0. `protection` is a sum of 1
    /// (read), 2 (write) and 4 (execute); `flags` is 1 (shared) or 2 (private).
    Mmap {
        hart: usize,
        length: u64,
        protection: u64,
        flags: u64,
        file: usize,
    },
    /// Unmaps `length` bytes from `address` on, rounded up to whole pages. Pages of a shared mapping that were made ready
    /// for a store are written back.
    Munmap {
        hart: usize,
        address: u64,
        length: u64,
    },
    /// The kernel copies `count` bytes, at most `LONGEST_COPY`, from the process, from `address` on (copyin of xv6).
    CopyIn {
        hart: usize,
        address: u64,
        count: usize,
    },
    /// The kernel copies `bytes`, at most `LONGEST_COPY`, to the process, from `address` on (copyout of xv6).
    CopyOut {
        hart: usize,
        address: u64,
        bytes: &'a [u8],
    },
    /// Ends the process with this status. Its mappings are written back.
    Exit {
        hart: usize,
        status: i32,
    },
}

/// The counts of a machine's frames, and of the references to them.
#[derive(Clone, Copy, PartialEq, Eq, Debug)]
pub struct Report {
    /// Frames to which nothing refers.
    pub free: usize,
    /// All other frames, the kernel's included.
    pub held: usize,
    /// Frames that two or more processes have, and the trampoline's if there is a process.
    pub shared: usize,
    /// References to frames: the leaves, pointers and roots of all page tables, those of the kernel's direct map aside.
    pub references: usize,
}

/// Whether an access may have this width in bytes: 1, 2, 4 or 8.
pub fn is_width(width: u64) -> bool
    ensures { result ≡ is_width width }
{
    matches!(width, 1 | 2 | 4 | 8)
}
