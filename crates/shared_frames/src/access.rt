// `SharedAccess`, a struct: a thread's handle on frames that threads share in one table of atomic words. It has the calls
// of `FrameAccess` (load, search, store, clear, fill, copy, look, release, give back, join), which neither wait nor
// retry, and cannot allocate.

ghost use Rattle.std.specs.Prelude.{◌≡◌, ℕ, ◌+◌, ◌-◌, ◌<◌, ◌≤◌, ◌==◌, ◌++◌, ◌∷◌};
ghost use Rattle.atomic_table.specs.Seated.{TableId};
ghost use Rattle.shared_frames.specs.SeatsOfTable.{IsSized};

use crate::seat::SharedSeat;
use crate::table::Words;
use crate::{many_words, split_join, steps};
use frame_store::FrameAccess;
use std::marker::Model;
use sv39_entry::FrameNo;

/// A handle on shared frames for any thread, with the calls of `FrameAccess`; none of them waits or retries. Contracts
/// see it as the identity of its table. Other threads may change the store at any time (it is never `alone`), so
/// contracts promise no exact counts.
#[derive(Drop)]
pub struct SharedAccess<'a> {
    table: &'a Words,
}

impl<'a> Model for SharedAccess<'a> {
    ghost Value = { TableId };

    ghost view = { λ a. a.table.now.table_id };

    ghost invariant = { λ a. IsSized a.table.now.table_id.words a.table.now.key };
}

impl<'a> SharedAccess<'a> {
    /// Returns a handle on the table.
    pub(crate) fn new(table: &'a Words) -> SharedAccess<'a>
        requires { IsSized table.now.table_id.words table.now.key }
        ensures { result ≡ table.now.table_id }
    {
        SharedAccess { table }
    }
}

impl<'a> FrameAccess for SharedAccess<'a> {
    type Seat = SharedSeat;

    ghost use Rattle.shared_frames.specs.SeatsOfTable.{AllFit, held_within, to_front, to_back};

    ghost invariant = { AllFit };

    ghost alone = { ⊥ };

    ghost free = { λ a. 0 };

    ghost count = { λ a f. 0 };

    ghost comes_front = { to_front };

    ghost goes_back = { to_back };

    ghost within = { held_within };

    fn load(&mut self, seat: &mut SharedSeat, frame: FrameNo, index: usize) -> u64 {
        steps::load_word(self.table, seat, frame, index)
    }

    fn store(&mut self, seat: &mut SharedSeat, frame: FrameNo, index: usize, value: u64) {
        steps::store_word(self.table, seat, frame, index, value);
    }

    fn next_word(
        &mut self,
        seat: &mut SharedSeat,
        frame: FrameNo,
        first: usize,
        last: usize,
    ) -> Option<(usize, u64)> {
        many_words::next_word(self.table, seat, frame, first, last)
    }

    fn clear(&mut self, seat: &mut SharedSeat, frame: FrameNo, first: usize) {
        many_words::clear(self.table, seat, frame, first);
    }

    fn copy(&mut self, seat: &mut SharedSeat, from: FrameNo, to: FrameNo) {
        many_words::copy(self.table, seat, from, to);
    }

    fn look(&mut self, seat: &mut SharedSeat, frame: FrameNo) -> u32 {
        steps::look(self.table, seat, frame) as u32
    }

    fn release(&mut self, seat: &mut SharedSeat, frame: FrameNo) {
        steps::release(self.table, seat, frame);
    }

    fn give_back(&mut self, seat: &mut SharedSeat, n: usize) {
        steps::give_back(self.table, seat, n as u64);
    }

    fn join(&mut self, seat: &mut SharedSeat, other: SharedSeat) {
        split_join::join(self.table, seat, other);
    }
}
