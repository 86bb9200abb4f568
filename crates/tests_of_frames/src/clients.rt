// Tests that clients of a frame store read back what they wrote and are refused when no frame is left: several seats
// (owners' capabilities at a store) at one `Pool`, and functions over any store run over plain and over shared frames. And
// that both stores find the next word other than 0 in a frame (`next_word`, `next_busy_word`), by rows. `shared_to_the_most`:
// shares a frame of any store until that is refused.

ghost use Rattle.std.specs.Prelude.{◌≡◌, ◌<◌, IfOk, slice_index};
ghost use Rattle.frame_store.specs.Laws.{IsSeatOf, KeepsSeats};
ghost use Rattle.frame_store.specs.View.{IsHeld};

use crate::rows::expect;
use frame_clients::{Pool, filled_frame, read_word};
use frame_store::{
    FrameAccess, FrameSeat, FrameSupply, NoFrame, PlainFrames, SharersFull, opened_seat,
};
use shared_frames::SharedFrames;
use std::test::Fail;

#[test]
fn reads_back_through_two_places(rt: HostRuntime) -> Result<(), Fail> {
    let mut words = [7; 512];
    words[511] = 8;
    let mut pool = Pool::new(rt.alloc(), 4, 3)?;
    pool.open(0, 2)?;
    let frame = pool.fill(2, &words)?;
    let last = pool.read(2, frame, 511);
    prove!(last == 8);
    pool.close(2, 0);
    expect(&rt, 0, pool.read(0, frame, 0), 7);
    expect(&rt, 511, pool.read(0, frame, 511), 8);
    Ok(())
}

#[test]
fn refuses_when_too_few_are_left(rt: HostRuntime) -> Result<(), Fail> {
    let mut pool = Pool::new(rt.alloc(), 3, 2)?;
    pool.open(0, 1)?;
    pool.fill(0, &[1; 512])?;
    pool.fill(1, &[2; 512])?;
    let refused = pool.fill(0, &[3; 512]);
    prove!(refused.is_err());
    expect(&rt, 0, refused, Err(NoFrame));
    pool.close(0, 1);
    expect(&rt, 1, pool.fill(1, &[3; 512]), Err(NoFrame));
    Ok(())
}

/// Why a client of a store is refused.
#[derive(Clone, Copy, PartialEq, Eq, Debug)]
pub(crate) enum Refusal {
    NoFrame,
    SharersFull,
}

impl From<NoFrame> for Refusal {
    fn from(_: NoFrame) -> Refusal {
        Refusal::NoFrame
    }
}

impl From<SharersFull> for Refusal {
    fn from(_: SharersFull) -> Refusal {
        Refusal::SharersFull
    }
}

/// Takes a frame, fills it with `words`, and returns the word read back at `index`; `NoFrame` if no frame could be reserved.
fn filled_word<F: FrameSupply>(
    store: &mut F,
    seat: &mut F::Seat,
    words: &[u64; 512],
    index: usize,
) -> Result<u64, Refusal>
    requires fits { IsSeatOf F.invariant store.old seat.old }
    requires anchored { IsHeld (F.Seat.view seat.old) 0 }
    requires in_page { index < 512 }
    ensures word { IfOk result (λ w. w ≡ slice_index words.now index) }
    ensures keeps { KeepsSeats F.invariant store.old seat.old store.new seat.new }
{
    let frame = filled_frame(store, seat, words)?;
    Ok(read_word(store, seat, frame, index))
}

/// `filled_word` through a seat that is opened for it. That seat is then joined to `seat`, which holds what the other held:
/// a reference of frame 0, and the filled frame if there is one.
fn word_through_a_new_seat<F: FrameSupply>(
    store: &mut F,
    seat: &mut F::Seat,
    words: &[u64; 512],
    index: usize,
) -> Result<u64, Refusal>
    requires fits { IsSeatOf F.invariant store.old seat.old }
    requires anchored { IsHeld (F.Seat.view seat.old) 0 }
    requires in_page { index < 512 }
    ensures word { IfOk result (λ w. w ≡ slice_index words.now index) }
    ensures anchored { IsHeld (F.Seat.view seat.new) 0 }
    ensures keeps { KeepsSeats F.invariant store.old seat.old store.new seat.new }
{
    let mut opened = opened_seat(store, seat)?;
    let word = filled_word(store, &mut opened, words, index);
    store.join(seat, opened);
    word
}

/// 512 words: 7, and 8 at index 511.
fn sevens() -> [u64; 512]
    ensures { slice_index result 511 ≡ 8 }
{
    let mut words = [7; 512];
    words[511] = 8;
    words
}

#[test]
fn runs_over_plain_frames(rt: HostRuntime) -> Result<(), Fail> {
    let words = sevens();
    let (mut plain, mut seat) = PlainFrames::new(rt.alloc(), 2)?;
    let word = word_through_a_new_seat(&mut plain, &mut seat, &words, 511)?;
    prove!(word == 8);
    expect(&rt, 0, word, 8);
    let refused = word_through_a_new_seat(&mut plain, &mut seat, &words, 511);
    expect(&rt, 1, refused, Err(Refusal::NoFrame));
    // each opened seat left its reference of frame 0 to `seat`: three there, and one of the filled frame
    let report = plain.report();
    let counts = (report.free, report.held, report.references);
    expect(&rt, 2, counts, (0, 2, 4));
    Ok(())
}

#[test]
fn runs_over_shared_frames(rt: HostRuntime) -> Result<(), Fail> {
    let words = sevens();
    let (frames, mut seat) = SharedFrames::new(rt.alloc(), 2)?;
    let mut supply = frames.supply(&rt);
    let word = word_through_a_new_seat(&mut supply, &mut seat, &words, 511)?;
    prove!(word == 8);
    expect(&rt, 0, word, 8);
    let refused = word_through_a_new_seat(&mut supply, &mut seat, &words, 511);
    expect(&rt, 1, refused, Err(Refusal::NoFrame));
    let totals = frames.close(seat);
    let counts = (totals.free, totals.held, totals.trampoline);
    expect(&rt, 2, counts, (0, 2, 3));
    Ok(())
}

/// Claims a frame and shares it until that is refused. Returns its reference count at first, how often it was shared, and its
/// count then.
pub(crate) fn shared_to_the_most<F: FrameSupply>(
    store: &mut F,
    seat: &mut F::Seat,
) -> Result<(u32, u32, u32), NoFrame>
    requires fits { IsSeatOf F.invariant store.old seat.old }
    requires anchored { IsHeld (F.Seat.view seat.old) 0 }
{
    store.reserve(seat, 1)?;
    let frame = store.claim(seat);
    let first = store.look(seat, frame);
    'times: for times in 0..70_000 {
        if store.share(seat, frame).is_err() {
            return Ok((first, times, store.look(seat, frame)));
        }
    }
    Ok((first, 70_000, 0))
}

/// Indices `first` and `last`, and the first word other than 0 between them, with its index, of the frame below.
static NEXT_WORDS: [(usize, usize, Option<(usize, u64)>); 9] = [
    (0, 512, Some((0, 1))),
    (1, 512, Some((9, 2))),
    (2, 10, Some((9, 2))),
    (1, 9, None),
    (9, 9, None),
    (10, 511, None),
    (10, 512, Some((511, 3))),
    (504, 512, Some((511, 3))),
    (512, 512, None),
];

/// Fills a frame that has three words other than 0. Returns the first row for which `next_word` or `next_busy_word` does not
/// find the first of these words from index `first` on and below index `last`; `None` if there is none.
fn first_not_found<F: FrameSupply>(
    store: &mut F,
    seat: &mut F::Seat,
) -> Result<Option<usize>, NoFrame>
    requires fits { IsSeatOf F.invariant store.old seat.old }
    requires anchored { IsHeld (F.Seat.view seat.old) 0 }
    ensures keeps { KeepsSeats F.invariant store.old seat.old store.new seat.new }
{
    let mut words = [0; 512];
    words[0] = 1;
    words[9] = 2;
    words[511] = 3;
    let frame = filled_frame(store, seat, &words)?;
    'cases: for number in 0..NEXT_WORDS.len() {
        let (first, last, next) = NEXT_WORDS[number];
        if first > last || last > 512 || store.next_word(seat, frame, first, last) != next {
            return Ok(Some(number));
        }
        // none of the three words names a frame, so no word is skipped
        if store.next_busy_word(seat, frame, first, last) != next {
            return Ok(Some(number));
        }
    }
    Ok(None)
}

#[test]
fn finds_next_words_of_plain_frames(rt: HostRuntime) -> Result<(), Fail> {
    let (mut plain, mut seat) = PlainFrames::new(rt.alloc(), 2)?;
    let wrong = first_not_found(&mut plain, &mut seat);
    expect(&rt, 0, wrong, Ok(None));
    Ok(())
}

#[test]
fn finds_next_words_of_shared_frames(rt: HostRuntime) -> Result<(), Fail> {
    let (frames, mut seat) = SharedFrames::new(rt.alloc(), 2)?;
    let wrong = first_not_found(&mut frames.supply(&rt), &mut seat);
    expect(&rt, 0, wrong, Ok(None));
    let totals = frames.close(seat);
    expect(&rt, 1, (totals.free, totals.held), (0, 2));
    Ok(())
}
