// Two example functions over any frame store: `filled_frame` allocates a frame for a seat and fills it with 512 words, or
// fails with `NoFrame`; `read_word` reads one word of a held frame.

ghost use Rattle.std.specs.Prelude.{◌≡◌, ◌+◌, ◌-◌, ◌<◌, ◌≤◌, ◌↔◌, ℕ, if◌then◌else◌, IfErr, IfOk, is_ok, IsOk, IsSome, Some};
ghost use Rattle.frame_clients.specs.FilledFrames.{filled, page_hold};
ghost use Rattle.frame_store.specs.Laws.{CountBecomes, IsSeatOf, IsDry, KeepsSeats};
ghost use Rattle.frame_store.specs.View.{hold_of, IsHeld, known_word, references, sole_hold, with_hold};

use frame_store::{FrameAccess, FrameSeat, FrameSupply, NoFrame};
use sv39_entry::FrameNo;

/// Stores the 512 words in a frame that was just claimed.
fn fill<A: FrameAccess>(store: &mut A, seat: &mut A::Seat, frame: FrameNo, words: &[u64; 512])
    requires fits { IsSeatOf A.invariant store.old seat.old }
    requires claimed { hold_of (A.Seat.view seat.old) frame.0 ≡ sole_hold }
    ensures view { A.Seat.view seat.new ≡ with_hold frame.0 (page_hold words.now) (A.Seat.view seat.old) }
    ensures keeps { KeepsSeats A.invariant store.old seat.old store.new seat.new }
    ensures free { A.alone → A.free store.new ≡ A.free store.old }
    ensures counts { A.alone → (f : ℕ) → A.count store.new f ≡ A.count store.old f }
{
    for (index, word) in words.iter().enumerate() {
        store.store(seat, frame, index, *word);
    }
}

/// Allocates a free frame for the seat, stores the 512 words in it, and returns its number. The seat must hold frame 0.
/// Then it is the sole holder of the new frame and knows all its words; its credits are as before. If nobody else changes
/// the store (`alone`), the free count falls by 1.
///
/// # Errors
/// `NoFrame`; the seat's references, known words and credits are unchanged, and its tallies record that the free count
/// was read as 0 (`IsDry`). If nobody else changes the store (`alone`): exactly when no frame is free, and then no count
/// changes.
pub fn filled_frame<F: FrameSupply>(
    store: &mut F,
    seat: &mut F::Seat,
    words: &[u64; 512],
) -> Result<FrameNo, NoFrame>
    requires fits { IsSeatOf F.invariant store.old seat.old }
    requires anchored { IsHeld (F.Seat.view seat.old) 0 }
    ensures ok { IfOk result (λ f. F.Seat.view seat.new ≡ filled f.0 words.now (F.Seat.view seat.old)) }
    ensures fresh { IfOk result (λ f. references (F.Seat.view seat.old) f.0 ≡ 0) }
    ensures dry { IfErr result (λ _. IsDry 1 (F.Seat.view seat.old) (F.Seat.view seat.new)) }
    ensures anchored { IsHeld (F.Seat.view seat.new) 0 }
    ensures exact { F.alone → IsOk result ↔ (1 ≤ F.free store.old) }
    ensures keeps { KeepsSeats F.invariant store.old seat.old store.new seat.new }
    ensures free { F.alone → F.free store.new ≡ F.free store.old - (if is_ok result then 1 else 0) }
    ensures was_free { F.alone → IfOk result (λ f. F.count store.old f.0 ≡ 0) }
    ensures counts { F.alone → IfOk result (λ f. CountBecomes (F.count store.old) (F.count store.new) f.0 1) }
    ensures counts_dry { F.alone → IfErr result (λ _. (f : ℕ) → F.count store.new f ≡ F.count store.old f) }
{
    store.reserve(seat, 1)?;
    let frame = store.claim(seat);
    fill(store, seat, frame, words);
    Ok(frame)
}

/// Returns the word at `index`, below 512, of a held frame. The seat must know this word. Store and view stay.
pub fn read_word<A: FrameAccess>(
    store: &mut A,
    seat: &mut A::Seat,
    frame: FrameNo,
    index: usize,
) -> u64
    requires fits { IsSeatOf A.invariant store.old seat.old }
    requires held { IsHeld (A.Seat.view seat.old) frame.0 }
    requires in_page { index < 512 }
    requires known { IsSome (known_word (A.Seat.view seat.old) frame.0 index) }
    ensures word { known_word (A.Seat.view seat.old) frame.0 index ≡ Some result }
    ensures view { A.Seat.view seat.new ≡ A.Seat.view seat.old }
    ensures same { store.new ≡ store.old }
    ensures keeps { KeepsSeats A.invariant store.old seat.old store.new seat.new }
{
    store.load(seat, frame, index)
}
