// `Accounts`, a trait: the report of a store's frames and references; `None` for shared frames, whose counts other threads
// may change.

use frame_store::PlainFrames;
use process_model::Report;
use shared_frames::SharedSupply;
use std::sync::Wait;

/// A store that may be able to report on all its frames.
pub(crate) trait Accounts {
    /// The numbers of free, held and shared frames and of references; `None` if the store cannot count them.
    fn accounts(&self) -> Option<Report>;
}

impl Accounts for PlainFrames {
    fn accounts(&self) -> Option<Report> {
        Some(self.report())
    }
}

/// Shared frames have no report: other threads may change the counts at any time.
impl<'a, R: Wait> Accounts for SharedSupply<'a, R> {
    fn accounts(&self) -> Option<Report> {
        None
    }
}
