// `StartResult` (enum): the result of a start: a process that took a slot, with its name and space, or a `Finished` without a
// process; `slots` and `frames`: how many of each it took.

ghost use Rattle.std.specs.Prelude.{◌≡◌, cond};
ghost use Rattle.run_roster.specs.StartEffects.{takes_slot};

use address_space::Space;
use hart_calls::{Finished, ModelProcess};
use shared_frames::SharedSeat;

/// The result of a start.
#[derive(Drop)]
pub enum StartResult<'a> {
    /// A process that took a slot and has made no call.
    Begun {
        name: Vec<u64>,
        space: Box<Space<SharedSeat>>,
        opening: ModelProcess,
    },
    /// A start that was refused, or for whose space the host had no memory. It took no slot.
    Over(Finished<'a>),
}

impl<'a> StartResult<'a> {
    /// Returns how many slots the start took: 1 or 0.
    pub(crate) fn slots(&self) -> usize
        ensures { result ≡ cond (takes_slot self.now) 1 0 }
    {
        match self {
            StartResult::Begun { .. } => 1,
            StartResult::Over(_) => 0,
        }
    }

    /// Returns how many frames the start took, if its process takes `need`.
    pub(crate) fn frames(&self, need: usize) -> usize
        ensures { result ≡ cond (takes_slot self.now) need 0 }
    {
        match self {
            StartResult::Begun { .. } => need,
            StartResult::Over(_) => 0,
        }
    }
}
