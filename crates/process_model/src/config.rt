// Struct `Config`, what a machine boots with: harts, frames, slots, TLB policy and translation scheme, and whether it can
// boot; enum `Policy`, fences or ASIDs; and `kernel_frames`, how many frames the kernel takes at boot.

ghost use Rattle.std.specs.Prelude.{◌≡◌, ◌≤◌};
ghost use Rattle.process_model.specs.Frames as model;

use crate::limits::{FEWEST_FRAMES, MOST_FRAMES, MOST_HARTS, MOST_SLOTS};
use sv39_entry::Scheme;

/// How the kernel keeps stale translations out of the buffers (the TLBs of the harts).
#[derive(Clone, Copy, PartialEq, Eq, Debug)]
pub enum Policy {
    /// Every ASID is 0. Fences before and after each write of `satp` empty the buffer, as in xv6 (SFENCE.VMA, RISC-V
    /// Privileged Architecture 20211203, 4.2.1).
    Full,
    /// The process in slot s has address-space identifier (ASID) s + 1, the kernel 0. Only the last fence of the return to
    /// user mode removes entries: those of the process's ASID, if its slot is marked as stale on the hart.
    Asid,
}

/// What a machine boots with.
#[derive(Clone, Copy, PartialEq, Eq, Debug)]
pub struct Config {
    /// How many harts (hardware threads) there are.
    pub harts: usize,
    /// How many frames of 4,096 bytes the memory has.
    pub frames: usize,
    /// How many slots the process table has: the most processes at a time.
    pub slots: usize,
    /// How stale translations are kept out of the buffers.
    pub policy: Policy,
    /// The scheme by which addresses are translated, Sv39 or Sv48.
    pub scheme: Scheme,
}

impl Config {
    ghost use Rattle.process_model.specs.Frames.{can_boot};

    /// Whether a machine can boot with these sizes: 1 to `MOST_HARTS` harts, `FEWEST_FRAMES` to `MOST_FRAMES` frames, 1 to
    /// `MOST_SLOTS` slots, and at least as many frames as the kernel takes at boot (`kernel_frames`). The policy does not
    /// matter.
    pub fn is_bootable(&self) -> bool
        ensures { result ≡ can_boot self.now.scheme self.now.harts self.now.frames self.now.slots }
    {
        (1..=MOST_HARTS).contains(&self.harts)
            && (FEWEST_FRAMES..=MOST_FRAMES).contains(&self.frames)
            && (1..=MOST_SLOTS).contains(&self.slots)
            && kernel_frames(self.scheme, self.frames, self.slots) <= self.frames
    }
}

/// Returns how many frames the kernel takes at boot: the trampoline's, its page tables, and a stack for each of the `slots`.
/// There are five tables under Sv39 and seven under Sv48, and one more if memory has more than 512 `frames` (two megabytes).
/// The caller gives at most `MOST_SLOTS` slots.
pub fn kernel_frames(scheme: Scheme, frames: usize, slots: usize) -> usize
    requires few { slots ≤ MOST_SLOTS }
    ensures { result ≡ model.kernel_frames scheme frames slots }
{
    let first = match scheme {
        Scheme::Sv39 => 6,
        Scheme::Sv48 => 8,
    };
    let more = if frames <= 512 { 0 } else { 1 };
    first + more + slots
}
