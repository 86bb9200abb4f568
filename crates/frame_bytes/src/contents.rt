// Functions on the 4,096 bytes of a frame of any frame store: `load_bytes` and `store_bytes` (a number of 1, 2, 4 or 8
// bytes), `fill_frame` (some bytes, then zeros), `copy_frame` and `read_frame`. The bytes lie in the frame's 512 words in
// little-endian order, as loads and stores of RV64 have it. Crate-internal: `read_words` and `store_in_word`.

ghost use Rattle.std.specs.Int.{from_le_bytes, w64};
ghost use Rattle.std.specs.Prelude.{◌≡◌, ◌≢◌, ◌+◌, ◌*◌, ◌/◌, ◌%◌, ◌^◌, ◌<◌, ◌≤◌, ℕ, drop, IsTrue, length, List, take};
ghost use Rattle.frame_bytes.specs.Contents.{ChangesWords, HasBytes, HasWords};
ghost use Rattle.frame_store.specs.Laws.{IsSeatOf, KeepsSeats};
ghost use Rattle.frame_store.specs.View.{IsHeld, IsSole};
ghost use Rattle.process_model.specs.Bytes.{is_width, low_bytes, number, padded, write_bytes};

use frame_store::{FrameAccess, FrameSeat, whole_word};
use sv39_entry::FrameNo;

/// Returns the little-endian number in `width` bytes of a held frame, from byte `offset` on. `width` is 1, 2, 4 or 8, and
/// `offset` a multiple of it below 4,096; so the bytes lie in one word. The seat must know the frame's bytes. Store and
/// view stay.
pub fn load_bytes<F: FrameAccess>(
    store: &mut F,
    seat: &mut F::Seat,
    frame: FrameNo,
    offset: usize,
    width: usize,
) -> u64
    requires fits { IsSeatOf F.invariant store.old seat.old }
    requires held { IsHeld (F.Seat.view seat.old) frame.0 }
    requires known { (bytes : List ℕ) × HasBytes (F.Seat.view seat.old) frame.0 bytes }
    requires width { IsTrue (is_width width) }
    requires inside { offset < 4096 }
    requires aligned { offset % width ≡ 0 }
    ensures number { (bytes : List ℕ) → HasBytes (F.Seat.view seat.old) frame.0 bytes → result ≡ number (drop offset bytes) width }
    ensures view { F.Seat.view seat.new ≡ F.Seat.view seat.old }
    ensures same { store.new ≡ store.old }
    ensures keeps { KeepsSeats F.invariant store.old seat.old store.new seat.new }
{
    let word = store.load(seat, frame, offset / 8);
    low_bytes_of(word >> (8 * (offset % 8)), width)
}

/// Returns the `width` lowest bytes of a word, as a number.
fn low_bytes_of(word: u64, width: usize) -> u64
    requires { IsTrue (is_width width) }
    ensures { result ≡ word % 2 ^ (8 * width) }
{
    if width == 8 {
        word
    } else {
        word % (1 << (8 * width))
    }
}

/// Stores the `width` lowest bytes of `value` into a frame, from byte `offset` on; the other bytes of the frame stay.
/// `width` is 1, 2, 4 or 8, and `offset` a multiple of it below 4,096. The seat must be the sole holder of the frame and
/// know its bytes; then it knows the new ones.
pub fn store_bytes<F: FrameAccess>(
    store: &mut F,
    seat: &mut F::Seat,
    frame: FrameNo,
    offset: usize,
    width: usize,
    value: u64,
)
    requires fits { IsSeatOf F.invariant store.old seat.old }
    requires held { IsHeld (F.Seat.view seat.old) frame.0 }
    requires sole { IsSole (F.Seat.view seat.old) frame.0 }
    requires known { (bytes : List ℕ) × HasBytes (F.Seat.view seat.old) frame.0 bytes }
    requires width { IsTrue (is_width width) }
    requires inside { offset < 4096 }
    requires aligned { offset % width ≡ 0 }
    ensures bytes { (bytes : List ℕ) → HasBytes (F.Seat.view seat.old) frame.0 bytes →
        HasBytes (F.Seat.view seat.new) frame.0 (write_bytes bytes offset (low_bytes value width)) }
    ensures others { ChangesWords frame.0 (F.Seat.view seat.old) (F.Seat.view seat.new) }
    ensures keeps { KeepsSeats F.invariant store.old seat.old store.new seat.new }
    ensures free { F.alone → F.free store.new ≡ F.free store.old }
    ensures counts { F.alone → (f : ℕ) → F.count store.new f ≡ F.count store.old f }
{
    let value = value.to_le_bytes();
    store_in_word(store, seat, frame, offset, &value[..width]);
}

/// Stores bytes into a frame from byte `offset` on; all of them lie in one word. The other bytes of the frame stay.
pub(crate) fn store_in_word<F: FrameAccess>(
    store: &mut F,
    seat: &mut F::Seat,
    frame: FrameNo,
    offset: usize,
    part: &[u8],
)
    requires fits { IsSeatOf F.invariant store.old seat.old }
    requires held { IsHeld (F.Seat.view seat.old) frame.0 }
    requires sole { IsSole (F.Seat.view seat.old) frame.0 }
    requires known { (bytes : List ℕ) × HasBytes (F.Seat.view seat.old) frame.0 bytes }
    requires inside { offset < 4096 }
    requires in_word { offset % 8 + length part.now ≤ 8 }
    ensures bytes { (bytes : List ℕ) → HasBytes (F.Seat.view seat.old) frame.0 bytes →
        HasBytes (F.Seat.view seat.new) frame.0 (write_bytes bytes offset part.now) }
    ensures others { ChangesWords frame.0 (F.Seat.view seat.old) (F.Seat.view seat.new) }
    ensures keeps { KeepsSeats F.invariant store.old seat.old store.new seat.new }
    ensures free { F.alone → F.free store.new ≡ F.free store.old }
    ensures counts { F.alone → (f : ℕ) → F.count store.new f ≡ F.count store.old f }
{
    let index = offset / 8;
    if part.len() == 8 {
        store.store(seat, frame, index, whole_word(part));
        return;
    }
    let mut word = store.load(seat, frame, index).to_le_bytes();
    overwrite(&mut word, offset % 8, part);
    store.store(seat, frame, index, u64::from_le_bytes(word));
}

/// Overwrites the bytes from index `at` on with `part`.
fn overwrite(bytes: &mut [u8], at: usize, part: &[u8])
    requires { at + length part.now ≤ length bytes.old }
    ensures { bytes.new ≡ write_bytes bytes.old at part.now }
{
    bytes[at..at + part.len()].copy_from_slice(part);
}

/// Copies at most 4,096 bytes to the start of a frame and zeroes the rest. The seat must be the sole holder of the frame,
/// and need not know its bytes; then it knows them.
pub fn fill_frame<F: FrameAccess>(store: &mut F, seat: &mut F::Seat, frame: FrameNo, bytes: &[u8])
    requires fits { IsSeatOf F.invariant store.old seat.old }
    requires sole { IsSole (F.Seat.view seat.old) frame.0 }
    requires inside { length bytes.now ≤ 4096 }
    ensures bytes { HasBytes (F.Seat.view seat.new) frame.0 (padded 4096 bytes.now) }
    ensures others { ChangesWords frame.0 (F.Seat.view seat.old) (F.Seat.view seat.new) }
    ensures keeps { KeepsSeats F.invariant store.old seat.old store.new seat.new }
    ensures free { F.alone → F.free store.new ≡ F.free store.old }
    ensures counts { F.alone → (f : ℕ) → F.count store.new f ≡ F.count store.old f }
{
    fill_words(store, seat, frame, bytes);
    let filled = fill_part(store, seat, frame, bytes);
    zero_words(store, seat, frame, filled);
}

/// Stores the bytes that make whole words to the start of a frame.
fn fill_words<F: FrameAccess>(store: &mut F, seat: &mut F::Seat, frame: FrameNo, bytes: &[u8])
    requires fits { IsSeatOf F.invariant store.old seat.old }
    requires sole { IsSole (F.Seat.view seat.old) frame.0 }
    requires inside { length bytes.now ≤ 4096 }
    ensures words { HasWords (F.Seat.view seat.new) frame.0 bytes.now (length bytes.now / 8) }
    ensures others { ChangesWords frame.0 (F.Seat.view seat.old) (F.Seat.view seat.new) }
    ensures keeps { KeepsSeats F.invariant store.old seat.old store.new seat.new }
    ensures free { F.alone → F.free store.new ≡ F.free store.old }
    ensures counts { F.alone → (f : ℕ) → F.count store.new f ≡ F.count store.old f }
{
    store.fill(seat, frame, bytes);
}

/// Stores the bytes after the last whole word, if there are any, as one word, padded with zeros. Returns how many words then
/// have bytes.
fn fill_part<F: FrameAccess>(
    store: &mut F,
    seat: &mut F::Seat,
    frame: FrameNo,
    bytes: &[u8],
) -> usize
    requires fits { IsSeatOf F.invariant store.old seat.old }
    requires sole { IsSole (F.Seat.view seat.old) frame.0 }
    requires inside { length bytes.now ≤ 4096 }
    ensures words { HasWords (F.Seat.view seat.old) frame.0 bytes.now (length bytes.now / 8) →
        HasWords (F.Seat.view seat.new) frame.0 bytes.now result }
    ensures all { length bytes.now ≤ 8 * result }
    ensures few { result ≤ 512 }
    ensures others { ChangesWords frame.0 (F.Seat.view seat.old) (F.Seat.view seat.new) }
    ensures keeps { KeepsSeats F.invariant store.old seat.old store.new seat.new }
    ensures free { F.alone → F.free store.new ≡ F.free store.old }
    ensures counts { F.alone → (f : ℕ) → F.count store.new f ≡ F.count store.old f }
{
    let whole = bytes.len() / 8;
    if bytes.len() % 8 == 0 {
        return whole;
    }
    store.store(seat, frame, whole, last_word(&bytes[8 * whole..]));
    whole + 1
}

/// Zeroes the words of a frame from index `first` on.
fn zero_words<F: FrameAccess>(store: &mut F, seat: &mut F::Seat, frame: FrameNo, first: usize)
    requires fits { IsSeatOf F.invariant store.old seat.old }
    requires sole { IsSole (F.Seat.view seat.old) frame.0 }
    requires few { first ≤ 512 }
    ensures words { (bytes : List ℕ) → length bytes ≤ 8 * first → HasWords (F.Seat.view seat.old) frame.0 bytes first →
        HasWords (F.Seat.view seat.new) frame.0 bytes 512 }
    ensures others { ChangesWords frame.0 (F.Seat.view seat.old) (F.Seat.view seat.new) }
    ensures keeps { KeepsSeats F.invariant store.old seat.old store.new seat.new }
    ensures free { F.alone → F.free store.new ≡ F.free store.old }
    ensures counts { F.alone → (f : ℕ) → F.count store.new f ≡ F.count store.old f }
{
    store.clear(seat, frame, first);
}

/// Returns the little-endian word of fewer than eight bytes, padded with zeros.
fn last_word(bytes: &[u8]) -> u64
    requires { length bytes.now < 8 }
    ensures { result ≡ number bytes.now 8 }
{
    let mut word = [0; 8];
    overwrite(&mut word, 0, bytes);
    u64::from_le_bytes(word)
}

/// Copies the 4,096 bytes of the held frame `from`, which the seat must know, to another frame `to`, of which the seat
/// must be the sole holder. Then the seat knows the bytes of `to`.
pub fn copy_frame<F: FrameAccess>(store: &mut F, seat: &mut F::Seat, from: FrameNo, to: FrameNo)
    requires fits { IsSeatOf F.invariant store.old seat.old }
    requires held { IsHeld (F.Seat.view seat.old) from.0 }
    requires known { (bytes : List ℕ) × HasBytes (F.Seat.view seat.old) from.0 bytes }
    requires sole { IsSole (F.Seat.view seat.old) to.0 }
    requires apart { from.0 ≢ to.0 }
    ensures bytes { (bytes : List ℕ) → HasBytes (F.Seat.view seat.old) from.0 bytes →
        HasBytes (F.Seat.view seat.new) to.0 bytes }
    ensures others { ChangesWords to.0 (F.Seat.view seat.old) (F.Seat.view seat.new) }
    ensures keeps { KeepsSeats F.invariant store.old seat.old store.new seat.new }
    ensures free { F.alone → F.free store.new ≡ F.free store.old }
    ensures counts { F.alone → (f : ℕ) → F.count store.new f ≡ F.count store.old f }
{
    store.copy(seat, from, to);
}

/// Reads the 4,096 bytes of a held frame, which the seat must know, into `bytes`. Store and view stay.
pub fn read_frame<F: FrameAccess>(
    store: &mut F,
    seat: &mut F::Seat,
    frame: FrameNo,
    bytes: &mut [u8; 4096],
)
    requires fits { IsSeatOf F.invariant store.old seat.old }
    requires held { IsHeld (F.Seat.view seat.old) frame.0 }
    requires known { (page : List ℕ) × HasBytes (F.Seat.view seat.old) frame.0 page }
    ensures bytes { (page : List ℕ) → HasBytes (F.Seat.view seat.old) frame.0 page → bytes.new ≡ page }
    ensures view { F.Seat.view seat.new ≡ F.Seat.view seat.old }
    ensures same { store.new ≡ store.old }
    ensures keeps { KeepsSeats F.invariant store.old seat.old store.new seat.new }
{
    read_words(store, seat, frame, 0, bytes);
}

/// Reads words of a held frame, which the seat must know, from word `first` on, and fills `bytes`, whose length is a multiple
/// of 8, with their bytes. Store and view stay.
pub(crate) fn read_words<F: FrameAccess>(
    store: &mut F,
    seat: &mut F::Seat,
    frame: FrameNo,
    first: usize,
    bytes: &mut [u8],
)
    requires fits { IsSeatOf F.invariant store.old seat.old }
    requires held { IsHeld (F.Seat.view seat.old) frame.0 }
    requires known { (page : List ℕ) × HasBytes (F.Seat.view seat.old) frame.0 page }
    requires inside { 8 * first + length bytes.old ≤ 4096 }
    requires whole { length bytes.old % 8 ≡ 0 }
    ensures bytes { (page : List ℕ) → HasBytes (F.Seat.view seat.old) frame.0 page →
        bytes.new ≡ take (length bytes.old) (drop (8 * first) page) }
    ensures view { F.Seat.view seat.new ≡ F.Seat.view seat.old }
    ensures same { store.new ≡ store.old }
    ensures keeps { KeepsSeats F.invariant store.old seat.old store.new seat.new }
{
    for place in 0..bytes.len() / 8 {
        let word = store.load(seat, frame, first + place).to_le_bytes();
        let start = 8 * place;
        bytes[start..start + 8].copy_from_slice(&word);
    }
}
