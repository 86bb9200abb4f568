// Enum `Phase`: where a hart is between user mode and the kernel: idle, in user mode, in the kernel, or before one of the
// instructions (fence, write of satp, fence) of kernel entry or of the return.

/// Where a hart is between user mode and the kernel. Kernel entry and the return are three instructions each, a fence, a
/// write of `satp` and a fence, with a phase before each of them (the xv6 book, "Traps from user space").
#[derive(Clone, Copy, PartialEq, Eq, Debug)]
pub enum Phase {
    /// No process is on the hart; the scheduler runs.
    Idle,
    /// The process runs in user mode.
    User,
    /// The process trapped; the first fence of kernel entry is next.
    Enter0,
    /// The first fence of kernel entry is done; the write of `satp` is next.
    Enter1,
    /// `satp` names the kernel's root; the second fence of kernel entry is next.
    Enter2,
    /// The kernel runs for the process.
    Kernel,
    /// The first fence of the return is done; the write of `satp` is next.
    Leave1,
    /// `satp` names the process's root; the second fence of the return is next.
    Leave2,
}
