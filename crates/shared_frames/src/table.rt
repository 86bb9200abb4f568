// `FramesInvariant`, a ghost struct: the invariant of the table of shared frames, with the view (what a seat holds and knows)
// of its first seat. `Words`, a type alias: the table as all handles on it see it.

use crate::seat::Knowledge;
use atomic_table::{Shared, TableRule};

/// The invariant of shared frames (`Kept`), with the view of the first seat. The table's key is the number of frames.
pub struct FramesInvariant;

impl TableRule<(), Knowledge, usize> for FramesInvariant {
    ghost use Rattle.shared_frames.specs.Invariant.{Kept};
    ghost use Rattle.frame_store.specs.View.{opening_view};

    ghost holds = { Kept };

    ghost first = { λ n. opening_view n };
}

/// The table of shared frames, as all handles on it see it.
pub type Words = Shared<(), Knowledge, usize, FramesInvariant>;
