// Two structs. `SharedFrames`: owns the table of atomic words that holds the frames that threads share; `new` makes it,
// `access` and `supply` give threads their handles, `close` ends it and returns `Totals`: how many frames are then free
// and held, and the count of frame 0.

ghost use Rattle.std.specs.Prelude.{◌≡◌, ℕ, ◌+◌, ◌-◌, ◌*◌, ◌<◌, ◌≤◌, [], IfOk};
ghost use Rattle.std.specs.Slots.{IsFull, slots_items, slots_len};
ghost use Rattle.frame_store.specs.View.{IsSole, opening_view, references};
ghost use Rattle.shared_frames.specs.SeatsOfTable.{FitsIn, IsSized, view_of};
ghost use Rattle.shared_frames.specs.Pool.{Pool};
ghost use Rattle.shared_frames.specs.Invariant.{zero_counts};
ghost use Rattle.shared_frames.specs.Totals.{AreLastTotals, AreTotals, first_words, held_frames};

use crate::access::SharedAccess;
use crate::seat::{Knowledge, SharedSeat};
use crate::supply::SharedSupply;
use crate::table::FramesInvariant;
use atomic_table::{Closed, Table};
use process_model::MOST_SHARED_FRAMES;
use std::alloc::{AllocError, Global};
use std::marker::Model;
use std::sync::Wait;
use sv39_entry::FrameNo;

/// The frames that threads share, with their memory. Contracts see the identity of the table and the number of frames.
#[derive(Drop)]
pub struct SharedFrames {
    table: Table<(), Knowledge, usize, FramesInvariant, Global>,
    frames: usize,
}

impl Model for SharedFrames {
    ghost Value = { Pool };

    ghost view = { λ f. record { table = f.table.shared.table_id; frames = f.frames } };

    ghost invariant = { λ f. (f.frames ≡ f.table.shared.key) × IsSized f.table.shared.table_id.words f.table.shared.key × (f.table.shared.table_id.slots ≡ 0) };
}

/// What `SharedFrames::close` reads from the reference counts.
#[derive(Clone, Copy, Debug, PartialEq, Eq, Drop)]
pub struct Totals {
    /// How many frames have count 0.
    pub free: usize,
    /// How many frames have count 1 or more.
    pub held: usize,
    /// The reference count of frame 0, which holds the trampoline's code.
    pub trampoline: u64,
}

impl SharedFrames {
    /// Makes `frames` frames, 1 to `MOST_SHARED_FRAMES`, and returns them with the first seat: the sole holder of frame 0,
    /// with one reference, which knows no word. The other frames are free.
    ///
    /// # Errors
    /// `AllocError`: the host is out of memory.
    pub fn new(alloc: Global, frames: usize) -> Result<(SharedFrames, SharedSeat), AllocError>
        requires some { 1 ≤ frames }
        requires few { frames ≤ MOST_SHARED_FRAMES }
        ensures frames { IfOk result (λ r. r.0.frames ≡ frames) }
        ensures fits { IfOk result (λ r. FitsIn r.0.table r.1) }
        ensures view { IfOk result (λ r. view_of r.1 ≡ opening_view frames) }
    {
        let words = words_of(alloc, frames)?;
        let (table, seat) = Table::of_words(alloc, &words, &frames)?;
        Ok((SharedFrames { table, frames }, SharedSeat { seat }))
    }

    /// Returns a handle on these frames with the calls of `FrameAccess`, which neither wait nor retry.
    pub fn access(&self) -> SharedAccess<'_>
        ensures { result ≡ self.now.table }
    {
        SharedAccess::new(&self.table.shared)
    }

    /// Returns a handle on these frames with all calls of `FrameAccess` and `FrameSupply`. `rt` is the caller's
    /// permission to wait: it lets a call retry without a limit.
    pub fn supply<'a, R: Wait>(&'a self, rt: &'a R) -> SharedSupply<'a, R>
        ensures { result ≡ self.now.table }
    {
        SharedSupply::new(rt, &self.table.shared, self.frames, FrameNo(0))
    }

    /// Returns a handle as `supply` does, whose first search for a free frame begins at frame `first` (at 0, if there is no
    /// such frame). Threads that begin apart seldom try the same frame.
    pub fn supply_from<'a, R: Wait>(&'a self, rt: &'a R, first: FrameNo) -> SharedSupply<'a, R>
        ensures { result ≡ self.now.table }
    {
        SharedSupply::new(rt, &self.table.shared, self.frames, first)
    }

    /// Closes the table with `seat`, which must be at this table, frees its memory, and returns the totals of its last
    /// reference counts. If the count of frame 0 is the number of references that the seat has to it, then no other seat
    /// holds a frame: `held` is how many frames this seat holds. If the seat is known to be the sole holder of frame 0 and has
    /// a credit for each frame that it does not hold, then no other seat has anything: `last` says this of the seats, and
    /// `free` frames are exactly those reserved for this seat.
    pub fn close(self, seat: SharedSeat) -> Totals
        requires { FitsIn self.table seat }
        ensures totals { AreTotals self.frames (view_of seat) result.free result.trampoline }
        ensures all { result.free + result.held ≡ self.frames }
        ensures alone { result.trampoline ≡ references (view_of seat) 0 → result.held ≡ held_frames self.frames (view_of seat) }
        ensures last { IsSole (view_of seat) 0 → self.frames ≤ held_frames self.frames (view_of seat) + (view_of seat).credits
            → AreLastTotals self.frames (view_of seat) result.free result.trampoline }
    {
        let SharedFrames { table, frames } = self;
        let SharedSeat { seat } = seat;
        let closed = table.close_with(seat);
        let free = count_free(&closed, frames);
        let trampoline = closed.word(1);
        closed.free();
        Totals {
            free,
            held: frames - free,
            trampoline,
        }
    }
}

/// Returns the words of the table at the start: the free count `frames - 1`, count 1 for frame 0, and 0 elsewhere.
///
/// # Errors
/// `AllocError`: the host is out of memory.
fn words_of(alloc: Global, frames: usize) -> Result<Vec<u64>, AllocError>
    requires some { 1 ≤ frames }
    requires few { frames ≤ MOST_SHARED_FRAMES }
    ensures { IfOk result (λ v. v.items ≡ first_words frames) }
{
    let mut words = vec![in alloc; 0; 513 * frames + 1]?;
    words[0] = frames as u64 - 1;
    words[1] = 1;
    Ok(words)
}

/// Returns how many frames have count 0.
fn count_free(closed: &Closed<(), Global>, frames: usize) -> usize
    requires full { IsFull closed.now.words }
    requires sized { slots_len closed.now.words ≡ 513 * frames + 1 }
    requires few { frames ≤ MOST_SHARED_FRAMES }
    ensures { result ≡ zero_counts (slots_items closed.now.words) frames }
{
    let mut free = 0;
    for frame in 0..frames {
        if closed.word(513 * frame + 1) == 0 {
            free += 1;
        }
    }
    free
}
