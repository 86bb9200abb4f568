// `HeldWords`: a struct, a frame store and a seat as a memory for walks. It implements `Words`: a walk reads the words of the
// frames that the seat holds.

use crate::words::Words;
use frame_store::{FrameAccess, FrameSeat};
use sv39_entry::FrameNo;

/// A frame store and a seat at it, both lent, as a memory for walks: its words are those that the seat knows, and a frame is
/// readable if the seat holds it and knows each of its words. Each physical
/// page number of a frame (`FrameNo::from_ppn`) counts as inside the memory, whatever the size of the store: a kernel writes
/// no other into its tables.
#[derive(Drop)]
pub struct HeldWords<'a, F: FrameAccess> {
    /// The store that has the frames.
    pub store: &'a mut F,
    /// The seat that holds the frames.
    pub seat: &'a mut F::Seat,
}

impl<F: FrameAccess> Words for HeldWords<'_, F> {
    ghost use Rattle.std.proofs.Common.{◌≡◌, refl, ap, sym, ◌∙◌};
    ghost use Rattle.std.specs.Prelude.{is_some};
    ghost use Rattle.sv39_entry.specs.Frame.{frame_at};
    ghost use Rattle.frame_store.specs.Laws.{IsSeatOf, KeepsSeats, fits_after};
    ghost use Rattle.table_walk.specs.HeldMemory.{held_memory, IsReadable, known_there};

    ghost memory = { λ w. held_memory (F.Seat.view w.seat.now) };

    ghost readable = { λ w ppn. IsSeatOf F.invariant w.store.now w.seat.now × IsReadable (F.Seat.view w.seat.now) ppn };

    ghost there = { λ w ppn index. is_some (frame_at ppn) };

    ghost stays = { λ a b. (b.store.ghost_name ≡ a.store.ghost_name) × (b.seat.ghost_name ≡ a.seat.ghost_name) × (b.store.now ≡ a.store.now)
        × (F.Seat.view b.seat.now ≡ F.Seat.view a.seat.now) × KeepsSeats F.invariant a.store.now a.seat.now b.store.now b.seat.now };

    ghost stays_itself = { λ a. (refl, refl, refl, refl, λ others h. h) };

    ghost stays_on = { λ a b c p q. (q.0 ∙ p.0, q.1 ∙ p.1, q.2 ∙ p.2, q.3 ∙ p.3, λ others h. q.4 others (p.4 others h)) };

    ghost same_memory = { λ a b p. ap held_memory p.3 };

    ghost same_there = { λ a b p. refl };

    ghost one_memory = { λ a ppn index r low. sym (known_there _ ppn index r.1 low) };

    ghost same_readable = { λ a b ppn p r. (fits_after F.invariant p.4 r.0, rw p.3 r.1) };

    fn word(&mut self, ppn: u64, index: usize) -> Option<u64> {
        let frame = FrameNo::from_ppn(ppn)?;
        Some(self.store.load(&mut *self.seat, frame, index))
    }

    fn has_word(&self, ppn: u64, index: usize) -> bool {
        FrameNo::from_ppn(ppn).is_some()
    }
}
