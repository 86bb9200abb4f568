// `Pool`, an example struct: owns one `PlainFrames` store and a list of places, each empty or with a seat. Calls: `new`,
// `open` (a seat in an empty place), `fill` (a new frame, with words), `read` (one word), and `close` (joins a seat to that
// of another place).

ghost use Rattle.std.specs.Prelude.{◌≡◌, ◌≢◌, ◌-◌, ◌<◌, ◌≤◌, ◌↔◌, ◌∷◌, if◌then◌else◌, IfErr, IfOk, is_ok, IsOk, IsSome, None, replicate, slice_set, Some};
ghost use Rattle.frame_clients.specs.FilledFrames.{filled};
ghost use Rattle.frame_store.specs.SeatOpening.{opened, opener};
ghost use Rattle.frame_clients.specs.Places.{IsEmpty, IsSeated, view_at};
ghost use Rattle.frame_store.specs.Laws.{IsDry};
ghost use Rattle.frame_store.specs.View.{IsHeld, joined, known_word, opening_view, read_full, references};

use crate::filling::{filled_frame, read_word};
use frame_store::{FrameAccess, NoFrame, PlainFrames, PlainSeat, SharersFull, opened_seat};
use process_model::MOST_FRAMES;
use std::alloc::{AllocError, Global};
use std::marker::Model;
use sv39_entry::FrameNo;

/// A `PlainFrames` store with places for seats at it. Contracts see its free count (frames of count 0 less all credits) and,
/// for each place that has a seat, the view of the seat.
#[derive(Drop)]
pub struct Pool {
    store: PlainFrames,
    seats: Vec<Option<PlainSeat>>,
}

impl Model for Pool {
    ghost use Rattle.frame_clients.specs.Places.{Holdings, holdings_code, PoolInvariant};

    ghost Value = { Holdings };

    ghost coded = { holdings_code };

    ghost view = { λ p. record { free = p.store.free; seats = p.seats.items } };

    ghost invariant = { λ p. PoolInvariant p.store p.seats.items };
}

impl Pool {
    /// Makes a pool of `frames` frames, 1 to `MOST_FRAMES`, and `places` places, at least 1. Place 0 has the first seat, the
    /// sole holder of frame 0; the other places are empty, and the other frames are free.
    ///
    /// # Errors
    /// `AllocError`: the host is out of memory.
    pub fn new(alloc: Global, frames: usize, places: usize) -> Result<Pool, AllocError>
        requires some { 0 < frames }
        requires few { frames ≤ MOST_FRAMES }
        requires room { 0 < places }
        ensures free { IfOk result (λ p. p.free ≡ frames - 1) }
        ensures seats { IfOk result (λ p. p.seats ≡ Some (opening_view frames) ∷ replicate (places - 1) None) }
    {
        let (store, seat) = PlainFrames::new(alloc, frames)?;
        let mut seats = Vec::new(alloc);
        seats.push(Some(seat))?;
        for _ in 1..places {
            seats.push(None)?;
        }
        Ok(Pool { store, seats })
    }

    /// Opens a seat in the empty place `place`, with one reference to frame 0 and the words that the seat in the place
    /// `from` knows there. There must be a seat in `from`; it shares frame 0 for this, and is then not known to be its
    /// sole holder. The free count stays.
    ///
    /// # Errors
    /// `SharersFull`: the count of frame 0 was read as `MOST_REFERENCES`. Only the tallies of the seat in `from` change: they
    /// record this count.
    pub fn open(&mut self, from: usize, place: usize) -> Result<(), SharersFull>
        requires seated { IsSeated self.old.seats from }
        requires empty { IsEmpty self.old.seats place }
        ensures ok { IfOk result (λ _. self.new.seats
            ≡ slice_set (slice_set self.old.seats from (Some (opener (view_at self.old.seats from))))
            place (Some (opened (view_at self.old.seats from)))) }
        ensures full { IfErr result (λ _. self.new.seats
            ≡ slice_set self.old.seats from (Some (read_full (view_at self.old.seats from)))) }
        ensures free { self.new.free ≡ self.old.free }
    {
        let seats = &mut self.seats;
        let Some(seat) = &mut seats[from] else {
            unreachable!()
        };
        let opened = opened_seat(&mut self.store, seat)?;
        self.seats[place] = Some(opened);
        Ok(())
    }

    /// Allocates a free frame for the seat in `place`, where there must be one, stores the 512 words in it, and returns
    /// its number. The seat is then the frame's sole holder and knows all its words. Other places stay, and the free
    /// count falls by 1.
    ///
    /// # Errors
    /// `NoFrame`: exactly when no frame is free. The references, known words and credits of the seat are then unchanged,
    /// and its tallies record that the free count was read as 0 (`IsDry`); the free count is unchanged.
    pub fn fill(&mut self, place: usize, words: &[u64; 512]) -> Result<FrameNo, NoFrame>
        requires seated { IsSeated self.old.seats place }
        ensures ok { IfOk result (λ f. self.new.seats
            ≡ slice_set self.old.seats place (Some (filled f.0 words.now (view_at self.old.seats place)))) }
        ensures fresh { IfOk result (λ f. references (view_at self.old.seats place) f.0 ≡ 0) }
        ensures dry { IfErr result (λ _. IsDry 1 (view_at self.old.seats place) (view_at self.new.seats place)) }
        ensures others { self.new.seats ≡ slice_set self.old.seats place (Some (view_at self.new.seats place)) }
        ensures exact { IsOk result ↔ (1 ≤ self.old.free) }
        ensures free { self.new.free ≡ self.old.free - (if is_ok result then 1 else 0) }
    {
        let seats = &mut self.seats;
        let Some(seat) = &mut seats[place] else {
            unreachable!()
        };
        filled_frame(&mut self.store, seat, words)
    }

    /// Returns the word at `index`, below 512, of a frame that the seat in `place` holds. That seat must know this word. The
    /// pool is unchanged.
    pub fn read(&mut self, place: usize, frame: FrameNo, index: usize) -> u64
        requires seated { IsSeated self.old.seats place }
        requires held { IsHeld (view_at self.old.seats place) frame.0 }
        requires in_page { index < 512 }
        requires known { IsSome (known_word (view_at self.old.seats place) frame.0 index) }
        ensures word { known_word (view_at self.old.seats place) frame.0 index ≡ Some result }
        ensures same { self.new ≡ self.old }
    {
        let seats = &mut self.seats;
        let Some(seat) = &mut seats[place] else {
            unreachable!()
        };
        read_word(&mut self.store, seat, frame, index)
    }

    /// Ends the seat in `place`, which is then empty: its references, known words and credits are added to those of the
    /// seat in `into`, another place, and its tallies are dropped. There must be a seat in each of the two. The free
    /// count stays.
    pub fn close(&mut self, place: usize, into: usize)
        requires seated { IsSeated self.old.seats place }
        requires into_seated { IsSeated self.old.seats into }
        requires apart { into ≢ place }
        ensures seats { self.new.seats ≡ slice_set (slice_set self.old.seats place None) into
            (Some (joined (view_at self.old.seats into) (view_at self.old.seats place))) }
        ensures free { self.new.free ≡ self.old.free }
    {
        let Some(other) = self.seats[place].take() else {
            unreachable!()
        };
        let seats = &mut self.seats;
        let Some(seat) = &mut seats[into] else {
            unreachable!()
        };
        self.store.join(seat, other);
    }
}
