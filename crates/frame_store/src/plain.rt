// Two structs. `PlainFrames`: the frame store of a single thread (words, reference counts, free count, list of unused
// frames), with `new`, `report` (how many frames are free, held, shared) and the calls of `FrameAccess` and `FrameSupply`.
// `PlainSeat`: a seat at it.

ghost use Rattle.std.specs.Prelude.{◌≡◌, ◌+◌, ◌*◌, ◌<◌, ◌≤◌, ◌∷◌, [], count_by, IfOk, length, slice_get, slice_index, sum};
ghost use Rattle.frame_store.specs.Plain.{PlainStateInvariant, held_within, is_shared, is_zero, initial_plain_state, report_of, to_back, to_front};
ghost use Rattle.frame_store.specs.View.{opening_view};

use crate::access::{FrameAccess, FrameSeat};
use crate::knowledge::{Knowledge, knowing};
use crate::memory::Memory;
use crate::refusal::{NoFrame, SharersFull};
use crate::supply::FrameSupply;
use arrayvec::ArrayVec;
use process_model::{MOST_FRAMES, MOST_REFERENCES, Report};
use std::alloc::{AllocError, Global};
use std::marker::Model;
use sv39_entry::FrameNo;

/// The frame store of a machine with a single thread, of at most `MOST_FRAMES` frames. Contracts see the frames' words, their
/// reference counts, and the free count: the frames of count 0 less the credits of all seats.
#[derive(Drop)]
pub struct PlainFrames {
    words: Memory,
    counts: Vec<u16>,
    free: usize,
    /// The frames of count 0, each once, reserved ones included.
    unused: ArrayVec<u16, MOST_FRAMES>,
}

impl Model for PlainFrames {
    ghost use Rattle.frame_store.specs.Plain.{PlainState, ListsUnused};

    ghost Value = { PlainState };

    ghost view = { λ s. record { words = s.words; counts = s.counts.items; free = s.free } };

    ghost invariant = { λ s. ListsUnused s.unused.items s.counts.items };
}

/// A seat at `PlainFrames`: one owner's capability, with its references to frames and its credits. Its view is ghost
/// state, so it takes no bytes at run time.
#[derive(Drop)]
pub struct PlainSeat {
    known: Knowledge,
}

impl Model for PlainSeat {
    ghost use Rattle.frame_store.specs.View.{View, view_code};

    ghost Value = { View };

    ghost coded = { view_code };

    ghost view = { λ s. s.known.view };
}

impl FrameSeat for PlainSeat {
    ghost view = { λ v. v };
}

impl PlainFrames {
    /// Makes `frames` frames, 1 to `MOST_FRAMES`, whose words are all 0, and returns them with the first seat: the sole
    /// holder of frame 0, with one reference, which knows no word. The other frames are free.
    ///
    /// # Errors
    /// `AllocError`: the host is out of memory.
    pub fn new(alloc: Global, frames: usize) -> Result<(PlainFrames, PlainSeat), AllocError>
        requires some { 0 < frames }
        requires few { frames ≤ MOST_FRAMES }
        ensures seat { IfOk result (λ r. r.1 ≡ opening_view frames) }
        ensures store { IfOk result (λ r. r.0 ≡ initial_plain_state frames) }
        ensures invariant { IfOk result (λ r. PlainStateInvariant r.0 (r.1 ∷ [])) }
    {
        let words = Memory::new(alloc, frames)?;
        let mut counts = Vec::from_elem(alloc, 0, frames)?;
        let mut unused = ArrayVec::new();
        for frame in 1..frames {
            unused.push(frame as u16);
        }
        counts[0] = 1;
        let store = PlainFrames {
            words,
            counts,
            free: frames - 1,
            unused,
        };
        let seat = PlainSeat {
            known: knowing(&frames),
        };
        Ok((store, seat))
    }

    /// Returns the word at `index`, below 512, of a frame; `None` if there is no frame of this number.
    pub fn word(&self, frame: FrameNo, index: usize) -> Option<u64>
        requires in_page { index < 512 }
        ensures { result ≡ slice_get self.now.words (frame.0 * 512 + index) }
    {
        self.words.get(frame, index)
    }

    /// Returns the reference counts of all frames, by their numbers.
    pub fn counts(&self) -> &[u16]
        ensures { result.now ≡ self.now.counts }
    {
        self.counts.as_slice()
    }

    /// Returns how many frames have count 0 (`free`, reserved ones included), count 1 or more (`held`) and count 2 or more
    /// (`shared`), and the sum of all counts (`references`).
    pub fn report(&self) -> Report
        ensures { result ≡ report_of self.now.counts }
    {
        let counts = self.counts.as_slice();
        let free = unreferenced(counts);
        Report {
            free,
            held: counts.len() - free,
            shared: shared(counts),
            references: total(counts),
        }
    }
}

/// Returns how many frames have count 0.
fn unreferenced(counts: &[u16]) -> usize
    ensures { result ≡ count_by is_zero counts.now }
{
    counts.iter().filter(|count| **count == 0).count()
}

/// Returns how many frames have count 2 or more.
fn shared(counts: &[u16]) -> usize
    ensures { result ≡ count_by is_shared counts.now }
{
    counts.iter().filter(|count| **count > 1).count()
}

/// Returns the sum of all counts.
fn total(counts: &[u16]) -> usize
    requires few { length counts.now ≤ MOST_FRAMES }
    ensures { result ≡ sum counts.now }
{
    let mut total = 0;
    for count in counts {
        total += *count as usize;
    }
    total
}

impl FrameAccess for PlainFrames {
    type Seat = PlainSeat;

    ghost invariant = { PlainStateInvariant };

    ghost alone = { Unit {0} };

    ghost free = { λ s. s.free };

    ghost count = { λ s f. slice_index s.counts f };

    ghost comes_front = { λ s. to_front s.words s.counts s.free };

    ghost goes_back = { λ s. to_back s.words s.counts s.free };

    ghost within = { held_within };

    fn load(&mut self, _seat: &mut PlainSeat, frame: FrameNo, index: usize) -> u64 {
        self.words.word(frame, index)
    }

    fn next_word(
        &mut self,
        _seat: &mut PlainSeat,
        frame: FrameNo,
        first: usize,
        last: usize,
    ) -> Option<(usize, u64)> {
        self.words.next(frame, first, last)
    }

    fn next_busy_word(
        &mut self,
        _seat: &mut PlainSeat,
        frame: FrameNo,
        first: usize,
        last: usize,
    ) -> Option<(usize, u64)> {
        self.words.next_busy(frame, first, last)
    }

    fn store(&mut self, seat: &mut PlainSeat, frame: FrameNo, index: usize, value: u64) {
        self.words.put(frame, index, value);
        seat.known = knowing(&(&seat.known, frame, index, value));
    }

    fn clear(&mut self, seat: &mut PlainSeat, frame: FrameNo, first: usize) {
        self.words.clear(frame, first);
        seat.known = knowing(&(&seat.known, frame, first));
    }

    fn fill(&mut self, seat: &mut PlainSeat, frame: FrameNo, bytes: &[u8]) {
        self.words.fill(frame, bytes);
        seat.known = knowing(&(&seat.known, frame, bytes));
    }

    fn copy(&mut self, seat: &mut PlainSeat, from: FrameNo, to: FrameNo) {
        self.words.copy(from, to);
        seat.known = knowing(&(&seat.known, from, to));
    }

    fn look(&mut self, seat: &mut PlainSeat, frame: FrameNo) -> u32 {
        let count = self.counts[frame.0 as usize] as u32;
        seat.known = knowing(&(&seat.known, frame, count));
        count
    }

    fn release(&mut self, seat: &mut PlainSeat, frame: FrameNo) {
        let at = frame.0 as usize;
        let count = self.counts[at];
        self.counts[at] = count - 1;
        seat.known = knowing(&(&seat.known, frame));
        if count > 1 {
            return;
        }
        self.unused.push(frame.0);
        self.free += 1;
    }

    fn give_back(&mut self, seat: &mut PlainSeat, n: usize) {
        self.free += n;
        seat.known = knowing(&(&seat.known, n));
    }

    fn join(&mut self, seat: &mut PlainSeat, other: PlainSeat) {
        seat.known = knowing(&(&seat.known, &other.known));
    }
}

impl FrameSupply for PlainFrames {
    fn reserve(&mut self, seat: &mut PlainSeat, n: usize) -> Result<(), NoFrame> {
        let enough = n <= self.free;
        seat.known = knowing(&(&seat.known, n, self.free, enough));
        if !enough {
            return Err(NoFrame);
        }
        self.free -= n;
        Ok(())
    }

    fn claim(&mut self, seat: &mut PlainSeat) -> FrameNo {
        let Some(number) = self.unused.pop() else {
            unreachable!()
        };
        self.counts[number as usize] = 1;
        let frame = FrameNo(number);
        seat.known = knowing(&(&seat.known, frame));
        frame
    }

    fn share(&mut self, seat: &mut PlainSeat, frame: FrameNo) -> Result<(), SharersFull> {
        let at = frame.0 as usize;
        let count = self.counts[at];
        let room = count < MOST_REFERENCES;
        seat.known = knowing(&(&seat.known, frame, room));
        if !room {
            return Err(SharersFull);
        }
        self.counts[at] = count + 1;
        Ok(())
    }

    fn split(&mut self, seat: &mut PlainSeat, frames: &[FrameNo]) -> PlainSeat {
        let right = PlainSeat {
            known: knowing(&(&seat.known, frames, true)),
        };
        seat.known = knowing(&(&seat.known, frames));
        right
    }
}
