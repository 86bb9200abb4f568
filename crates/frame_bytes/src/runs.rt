// `read_run` and `write_run`: functions that read and write a run of bytes within one frame of any frame store, from any
// offset and of any length up to the frame's end: the bytes before its first whole word, its whole words, and those after
// the last one.

ghost use Rattle.std.specs.Prelude.{◌≡◌, ◌+◌, ◌-◌, ◌*◌, ◌%◌, ◌≤◌, ℕ, drop, length, List, min, take};
ghost use Rattle.frame_bytes.specs.Contents.{ChangesWords, HasBytes};
ghost use Rattle.frame_store.specs.Laws.{IsSeatOf, KeepsSeats};
ghost use Rattle.frame_store.specs.View.{IsHeld, IsSole};
ghost use Rattle.process_model.specs.Bytes.{write_bytes};

use crate::contents::{read_words, store_in_word};
use frame_store::{FrameAccess, FrameSeat, whole_word};
use sv39_entry::FrameNo;

/// Reads the bytes of a held frame from byte `offset` on and fills `bytes` with them. The run must end inside the frame,
/// and the seat must know the frame's bytes. Store and view stay.
pub fn read_run<F: FrameAccess>(
    store: &mut F,
    seat: &mut F::Seat,
    frame: FrameNo,
    offset: usize,
    bytes: &mut [u8],
)
    requires fits { IsSeatOf F.invariant store.old seat.old }
    requires held { IsHeld (F.Seat.view seat.old) frame.0 }
    requires known { (page : List ℕ) × HasBytes (F.Seat.view seat.old) frame.0 page }
    requires inside { offset + length bytes.old ≤ 4096 }
    ensures bytes { (page : List ℕ) → HasBytes (F.Seat.view seat.old) frame.0 page →
        bytes.new ≡ take (length bytes.old) (drop offset page) }
    ensures view { F.Seat.view seat.new ≡ F.Seat.view seat.old }
    ensures same { store.new ≡ store.old }
    ensures keeps { KeepsSeats F.invariant store.old seat.old store.new seat.new }
{
    let len = bytes.len();
    let (front, end) = whole_words(offset, len);
    read_part(store, seat, frame, offset, &mut bytes[..front]);
    read_words(
        store,
        seat,
        frame,
        (offset + front) / 8,
        &mut bytes[front..end],
    );
    read_part(store, seat, frame, offset + end, &mut bytes[end..len]);
}

/// Returns where in a run of `len` bytes, which begins at byte `offset` of a frame, its whole words begin and end. The two are
/// equal if it has none.
fn whole_words(offset: usize, len: usize) -> (usize, usize)
    ensures front { result.0 ≡ min len ((8 - offset % 8) % 8) }
    ensures end { result.1 ≡ len - (len - result.0) % 8 }
{
    let front = len.min((8 - offset % 8) % 8);
    (front, len - (len - front) % 8)
}

/// `read_run` of bytes that all lie in one word.
fn read_part<F: FrameAccess>(
    store: &mut F,
    seat: &mut F::Seat,
    frame: FrameNo,
    offset: usize,
    bytes: &mut [u8],
)
    requires fits { IsSeatOf F.invariant store.old seat.old }
    requires held { IsHeld (F.Seat.view seat.old) frame.0 }
    requires known { (page : List ℕ) × HasBytes (F.Seat.view seat.old) frame.0 page }
    requires inside { offset + length bytes.old ≤ 4096 }
    requires in_word { offset % 8 + length bytes.old ≤ 8 }
    ensures bytes { (page : List ℕ) → HasBytes (F.Seat.view seat.old) frame.0 page →
        bytes.new ≡ take (length bytes.old) (drop offset page) }
    ensures view { F.Seat.view seat.new ≡ F.Seat.view seat.old }
    ensures same { store.new ≡ store.old }
    ensures keeps { KeepsSeats F.invariant store.old seat.old store.new seat.new }
{
    if bytes.is_empty() {
        return;
    }
    let skipped = offset % 8;
    let word = store.load(seat, frame, offset / 8).to_le_bytes();
    bytes.copy_from_slice(&word[skipped..skipped + bytes.len()]);
}

/// Writes `bytes` into a frame from byte `offset` on; the other bytes of the frame stay. The run must end inside the
/// frame, and the seat must be the sole holder of the frame and know its bytes; then it knows the new ones.
pub fn write_run<F: FrameAccess>(
    store: &mut F,
    seat: &mut F::Seat,
    frame: FrameNo,
    offset: usize,
    bytes: &[u8],
)
    requires fits { IsSeatOf F.invariant store.old seat.old }
    requires held { IsHeld (F.Seat.view seat.old) frame.0 }
    requires sole { IsSole (F.Seat.view seat.old) frame.0 }
    requires known { (page : List ℕ) × HasBytes (F.Seat.view seat.old) frame.0 page }
    requires inside { offset + length bytes.now ≤ 4096 }
    ensures bytes { (page : List ℕ) → HasBytes (F.Seat.view seat.old) frame.0 page →
        HasBytes (F.Seat.view seat.new) frame.0 (write_bytes page offset bytes.now) }
    ensures others { ChangesWords frame.0 (F.Seat.view seat.old) (F.Seat.view seat.new) }
    ensures keeps { KeepsSeats F.invariant store.old seat.old store.new seat.new }
    ensures free { F.alone → F.free store.new ≡ F.free store.old }
    ensures counts { F.alone → (f : ℕ) → F.count store.new f ≡ F.count store.old f }
{
    let (front, end) = whole_words(offset, bytes.len());
    write_part(store, seat, frame, offset, &bytes[..front]);
    write_words(store, seat, frame, (offset + front) / 8, &bytes[front..end]);
    write_part(store, seat, frame, offset + end, &bytes[end..]);
}

/// `write_run` of bytes that all lie in one word.
fn write_part<F: FrameAccess>(
    store: &mut F,
    seat: &mut F::Seat,
    frame: FrameNo,
    offset: usize,
    bytes: &[u8],
)
    requires fits { IsSeatOf F.invariant store.old seat.old }
    requires held { IsHeld (F.Seat.view seat.old) frame.0 }
    requires sole { IsSole (F.Seat.view seat.old) frame.0 }
    requires known { (page : List ℕ) × HasBytes (F.Seat.view seat.old) frame.0 page }
    requires inside { offset + length bytes.now ≤ 4096 }
    requires in_word { offset % 8 + length bytes.now ≤ 8 }
    ensures bytes { (page : List ℕ) → HasBytes (F.Seat.view seat.old) frame.0 page →
        HasBytes (F.Seat.view seat.new) frame.0 (write_bytes page offset bytes.now) }
    ensures others { ChangesWords frame.0 (F.Seat.view seat.old) (F.Seat.view seat.new) }
    ensures keeps { KeepsSeats F.invariant store.old seat.old store.new seat.new }
    ensures free { F.alone → F.free store.new ≡ F.free store.old }
    ensures counts { F.alone → (f : ℕ) → F.count store.new f ≡ F.count store.old f }
{
    if bytes.is_empty() {
        return;
    }
    store_in_word(store, seat, frame, offset, bytes);
}

/// `write_run` of bytes, a multiple of 8, from word `first` of the frame on.
fn write_words<F: FrameAccess>(
    store: &mut F,
    seat: &mut F::Seat,
    frame: FrameNo,
    first: usize,
    bytes: &[u8],
)
    requires fits { IsSeatOf F.invariant store.old seat.old }
    requires held { IsHeld (F.Seat.view seat.old) frame.0 }
    requires sole { IsSole (F.Seat.view seat.old) frame.0 }
    requires known { (page : List ℕ) × HasBytes (F.Seat.view seat.old) frame.0 page }
    requires inside { 8 * first + length bytes.now ≤ 4096 }
    requires whole { length bytes.now % 8 ≡ 0 }
    ensures bytes { (page : List ℕ) → HasBytes (F.Seat.view seat.old) frame.0 page →
        HasBytes (F.Seat.view seat.new) frame.0 (write_bytes page (8 * first) bytes.now) }
    ensures others { ChangesWords frame.0 (F.Seat.view seat.old) (F.Seat.view seat.new) }
    ensures keeps { KeepsSeats F.invariant store.old seat.old store.new seat.new }
    ensures free { F.alone → F.free store.new ≡ F.free store.old }
    ensures counts { F.alone → (f : ℕ) → F.count store.new f ≡ F.count store.old f }
{
    'words: for place in 0..bytes.len() / 8 {
        let start = 8 * place;
        store.store(
            seat,
            frame,
            first + place,
            whole_word(&bytes[start..start + 8]),
        );
    }
}
