// `SharedSupply`, a struct: a thread's handle on frames that threads share, with all calls of `FrameAccess` and
// `FrameSupply`. Of these, `reserve`, `claim` and `share` retry until an exchange succeeds or the call is refused.

ghost use Rattle.std.specs.Prelude.{◌≡◌, ◌≢◌, ℕ, ◌+◌, ◌-◌, ◌<◌, ◌≤◌, ◌==◌, ◌++◌, ◌∷◌};
ghost use Rattle.atomic_table.specs.Seated.{TableId};
ghost use Rattle.shared_frames.specs.SeatsOfTable.{IsSized};

use crate::seat::SharedSeat;
use crate::table::Words;
use crate::{many_words, retry, split_join, steps};
use frame_store::{FrameAccess, FrameSupply, NoFrame, SharersFull};
use std::marker::Model;
use std::sync::Wait;
use sv39_entry::FrameNo;

/// A handle on shared frames for any thread, with all calls of `FrameAccess` and `FrameSupply`. `reserve`, `claim` and
/// `share` retry until an exchange succeeds or the call is refused. Contracts see it as the identity of its table. Other
/// threads may change the store at any time (it is never `alone`), so contracts promise no exact counts.
#[derive(Drop)]
pub struct SharedSupply<'a, R> {
    rt: &'a R,
    table: &'a Words,
    frames: usize,
    /// Where the next search for a free frame begins: at the frame that was freed or claimed last. So a thread gets frames
    /// that its processor has at hand, and threads search in different places.
    next: FrameNo,
}

impl<'a, R> Model for SharedSupply<'a, R> {
    ghost Value = { TableId };

    ghost view = { λ a. a.table.now.table_id };

    ghost invariant = { λ a. IsSized a.table.now.table_id.words a.table.now.key × (a.frames ≡ a.table.now.key) };
}

impl<'a, R> SharedSupply<'a, R> {
    /// Returns a handle on the table of `frames` frames, whose first search for a free frame begins at frame `first`.
    pub(crate) fn new(
        rt: &'a R,
        table: &'a Words,
        frames: usize,
        first: FrameNo,
    ) -> SharedSupply<'a, R>
        requires sized { IsSized table.now.table_id.words table.now.key }
        requires counted { frames ≡ table.now.key }
        ensures { result ≡ table.now.table_id }
    {
        SharedSupply {
            rt,
            table,
            frames,
            next: first,
        }
    }
}

impl<'a, R> FrameAccess for SharedSupply<'a, R> {
    type Seat = SharedSeat;

    ghost use Rattle.shared_frames.specs.SeatsOfTable.{AllFit, held_within, to_front, to_back};

    ghost invariant = { AllFit };

    ghost alone = { ⊥ };

    ghost free = { λ a. 0 };

    ghost count = { λ a f. 0 };

    ghost comes_front = { to_front };

    ghost goes_back = { to_back };

    ghost within = { held_within };

    fn load(&mut self, seat: &mut SharedSeat, frame: FrameNo, index: usize) -> u64 {
        steps::load_word(self.table, seat, frame, index)
    }

    fn store(&mut self, seat: &mut SharedSeat, frame: FrameNo, index: usize, value: u64) {
        steps::store_word(self.table, seat, frame, index, value);
    }

    fn next_word(
        &mut self,
        seat: &mut SharedSeat,
        frame: FrameNo,
        first: usize,
        last: usize,
    ) -> Option<(usize, u64)> {
        many_words::next_word(self.table, seat, frame, first, last)
    }

    fn clear(&mut self, seat: &mut SharedSeat, frame: FrameNo, first: usize) {
        many_words::clear(self.table, seat, frame, first);
    }

    fn copy(&mut self, seat: &mut SharedSeat, from: FrameNo, to: FrameNo) {
        many_words::copy(self.table, seat, from, to);
    }

    fn look(&mut self, seat: &mut SharedSeat, frame: FrameNo) -> u32 {
        steps::look(self.table, seat, frame) as u32
    }

    fn release(&mut self, seat: &mut SharedSeat, frame: FrameNo) {
        if steps::release(self.table, seat, frame) {
            self.next = frame;
        }
    }

    fn give_back(&mut self, seat: &mut SharedSeat, n: usize) {
        steps::give_back(self.table, seat, n as u64);
    }

    fn join(&mut self, seat: &mut SharedSeat, other: SharedSeat) {
        split_join::join(self.table, seat, other);
    }
}

impl<'a, R: Wait> FrameSupply for SharedSupply<'a, R> {
    fn reserve(&mut self, seat: &mut SharedSeat, n: usize) -> Result<(), NoFrame> {
        retry::reserve(self.rt, self.table, seat, n as u64)
    }

    fn claim(&mut self, seat: &mut SharedSeat) -> FrameNo {
        let frame = retry::claim(self.rt, self.table, self.frames, self.next, seat);
        self.next = frame;
        frame
    }

    fn share(&mut self, seat: &mut SharedSeat, frame: FrameNo) -> Result<(), SharersFull> {
        retry::share(self.rt, self.table, seat, frame)
    }

    fn split(&mut self, seat: &mut SharedSeat, frames: &[FrameNo]) -> SharedSeat {
        split_join::split(self.table, seat, frames)
    }
}
