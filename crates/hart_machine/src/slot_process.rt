// `SlotProcess`, a struct: the process in a slot, as its address space and its pending access; and `Pending`, a struct: an
// access that faulted, and whether the kernel has served it.

ghost use Rattle.std.specs.Prelude.{◌≡◌};
ghost use Rattle.hart_machine.specs.SlotProcesses.{pending_of};
ghost use Rattle.process_model.specs.World.{is_unserved_access};

use address_space::Space;
use frame_store::PlainSeat;
use sv39_entry::{Access, Va};

/// An access that faulted.
#[derive(Clone, Copy, PartialEq, Eq, Debug)]
pub struct Pending {
    pub access: Access,
    pub va: Va,
    /// Its width in bytes.
    pub width: u64,
    /// Whether the kernel has served it.
    pub served: bool,
}

/// The process in a slot: its address space, and its pending access, if there is one.
#[derive(Drop)]
pub(crate) struct SlotProcess {
    pub(crate) space: Space<PlainSeat>,
    pub(crate) pending: Option<Pending>,
}

impl SlotProcess {
    /// Whether an access is pending and was not served.
    pub(crate) fn is_unserved(&self) -> bool
        ensures { result ≡ is_unserved_access (pending_of self.now.pending) }
    {
        match self.pending {
            None => false,
            Some(pending) => !pending.served,
        }
    }
}
