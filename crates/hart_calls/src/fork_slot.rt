// `ForkSlot` (enum): what `next_call` is given for a fork's child: a name and a `ChildRoom`, or why the fork is refused (no free
// slot, a place in the process table; no host memory). `ChildRoom` (struct): host memory for the child's space, with a filler
// until then.

ghost use Rattle.std.specs.Prelude.{◌≡◌};
ghost use Rattle.address_space.specs.Steps.{IsBare};
ghost use Rattle.shared_frames.specs.SeatsOfTable.{view_of};

use address_space::{Layout, Space};
use cow_fork::Child;
use shared_frames::SharedSeat;
use std::alloc::{AllocError, Global};
use sv39_entry::{FrameNo, Scheme};

/// Host memory for a child's space. It is allocated before the fork, so a fork for which the host has no memory changes
/// nothing. Until the fork it has a filler, which is no process and whose seat holds no frame and has none reserved
/// (`bare`), so none is lost with it. `Tracked::child_room` makes one.
#[derive(Drop)]
pub struct ChildRoom {
    pub(crate) space: Box<Space<SharedSeat>>,
    pub ghost bare: { IsBare (view_of space.value.seat) },
}

impl ChildRoom {
    /// Allocates the room, with a filler on the seat `bare`.
    ///
    /// # Errors
    /// `AllocError`: the host is out of memory.
    pub(crate) fn new(alloc: Global, bare: SharedSeat) -> Result<ChildRoom, AllocError>
        requires bare { IsBare (view_of bare) }
    {
        let nobody = Space {
            seat: bare,
            root: FrameNo(0),
            trapframe: FrameNo(0),
            layout: Layout::new(Scheme::Sv39, &[]),
        };
        let space = Box::new(alloc, nobody)?;
        Ok(ChildRoom { space })
    }

    /// Puts the child's space, of what a fork made and a copy of the parent's layout, in this room, and returns it there.
    #[inline(always)]
    pub(crate) fn fill(self, child: Child<SharedSeat>, layout: Layout) -> Box<Space<SharedSeat>>
        ensures { result.value ≡ record { seat = child.seat; root = child.root; trapframe = child.trapframe; layout = layout } }
    {
        let ChildRoom { mut space } = self;
        let _nobody = Box::replace(&mut space, child.space(layout));
        space
    }
}

/// What `Tracked::next_call` is given for the child of a fork: a slot, or the reason why the fork is refused. A call that is
/// no fork needs no slot, and takes any of these.
#[derive(Drop)]
pub enum ForkSlot {
    /// The child's name, which must be `Tracked::child_name`, and room for its space, from `Tracked::child_room`. The
    /// fork may still be refused, with `NoFrame` or `SharersFull`.
    Free(Vec<u64>, ChildRoom),
    /// Every slot is in use: a fork is refused with `NoSlot`.
    NoSlot,
    /// The host has no memory for another process: a fork is refused with `Memory`.
    Memory,
}
