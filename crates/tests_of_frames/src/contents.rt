// Tests that `frame_bytes` fills, loads, stores and copies frames, and reads and writes runs of their bytes, with the right
// values, over plain frames. `Bench`, a struct: a store with two frames for the tests. A test is a row of steps (`Step`), of
// which some change the frames, and some say what they must hold then.

ghost use Rattle.std.specs.Prelude.{◌≡◌, ◌%◌, ◌<◌, ◌≤◌, IsTrue, length};
ghost use Rattle.process_model.specs.Bytes.{is_width};

use crate::rows::expect;
use frame_bytes::{
    copy_frame, fill_frame, load_bytes, read_frame, read_run, store_bytes, write_run,
};
use frame_store::{FrameAccess, FrameSupply, PlainFrames, PlainSeat};
use std::alloc::Global;
use std::marker::Model;
use std::process::Abort;
use std::test::Fail;
use sv39_entry::{Entry, FrameNo, Rights};

/// The bytes of a page.
#[derive(Clone, Copy)]
enum Pattern {
    /// Each is 1.
    Ones,
    /// The first 600 count from 0 to 255, again and again; the others are 0.
    Front,
    /// All count from 0 to 250, again and again, so that no word equals the next one.
    Whole,
}

/// A change of the two frames, or what the first must hold. An offset is one of the page, a width and a length are in bytes.
#[derive(Clone, Copy)]
enum Step {
    /// A fill with these bytes.
    Fill(&'static [u8]),
    /// A fill with the first bytes of a pattern, and how many these are.
    FillWith(Pattern, usize),
    /// A store: the offset, the width and the value.
    Store(usize, usize, u64),
    /// A write of these bytes from an offset on.
    Write(usize, &'static [u8]),
    /// A write of a whole pattern.
    WriteWith(Pattern),
    /// A copy of the first frame to the second.
    Copy,
    /// The first frame becomes the second, and the second the first.
    Turn,
    /// A load: the offset, the width and the number that it must return.
    Load(usize, usize, u64),
    /// A load of one byte at each offset must return that of the pattern.
    Bytes(Pattern),
    /// The word at an index, as page tables have it.
    Word(usize, u64),
    /// A read of the whole page must return the pattern, but for the last byte, which must be this one.
    Page(Pattern, u8),
    /// A read of a run must return that of `Pattern::Whole`: the offset and the length.
    Run(usize, usize),
    /// A read of a run must return these bytes: the offset and the bytes.
    Read(usize, &'static [u8]),
}

/// The byte of a pattern at an offset.
fn byte_of(pattern: Pattern, offset: usize) -> u8 {
    match pattern {
        Pattern::Ones => 1,
        Pattern::Front if offset < 600 => (offset % 256) as u8,
        Pattern::Front => 0,
        Pattern::Whole => (offset % 251) as u8,
    }
}

fn page_of(pattern: Pattern) -> [u8; 4096] {
    let mut bytes = [0; 4096];
    for at in 0..4096 {
        bytes[at] = byte_of(pattern, at);
    }
    bytes
}

/// A store with one seat, which is the sole holder of two frames. Each of their bytes is 1 at first. Contracts see the
/// numbers of the two frames.
#[derive(Drop)]
struct Bench {
    store: PlainFrames,
    seat: PlainSeat,
    first: FrameNo,
    second: FrameNo,
}

impl Model for Bench {
    ghost use Rattle.std.specs.Prelude.{ℕ};
    ghost use Rattle.tests_of_frames.specs.Owned.{OwnsBoth};

    ghost Value = { ℕ × ℕ };

    ghost view = { λ b. (b.first.0, b.second.0) };

    ghost invariant = { λ b. OwnsBoth b.store b.seat b.first.0 b.second.0 };
}

/// Whether `width` is 1, 2, 4 or 8, and `offset` is a multiple of it below 4,096.
fn is_access(offset: usize, width: usize) -> bool
    ensures width { IsTrue result → IsTrue (is_width width) }
    ensures inside { IsTrue result → offset < 4096 }
    ensures aligned { IsTrue result → offset % width ≡ 0 }
{
    matches!(width, 1 | 2 | 4 | 8) && offset < 4096 && offset % width == 0
}

impl Bench {
    fn new(alloc: Global) -> Result<Bench, Fail> {
        let (mut store, mut seat) = PlainFrames::new(alloc, 4)?;
        store.reserve(&mut seat, 2)?;
        let first = store.claim(&mut seat);
        let second = store.claim(&mut seat);
        let ones = [1; 4096];
        fill_frame(&mut store, &mut seat, first, &ones);
        fill_frame(&mut store, &mut seat, second, &ones);
        Ok(Bench {
            store,
            seat,
            first,
            second,
        })
    }

    fn fill(&mut self, bytes: &[u8])
        requires { length bytes.now ≤ 4096 }
    {
        fill_frame(&mut self.store, &mut self.seat, self.first, bytes);
    }

    /// Loads `width` bytes at `offset` of the first frame; `None` if that is no access (`is_access`).
    fn load(&mut self, offset: usize, width: usize) -> Option<u64> {
        if !is_access(offset, width) {
            return None;
        }
        let number = load_bytes(&mut self.store, &mut self.seat, self.first, offset, width);
        Some(number)
    }

    /// Whether a load of one byte at each offset of the first frame returns that of the pattern.
    fn has_bytes(&mut self, pattern: Pattern) -> bool {
        'bytes: for offset in 0..4096 {
            if self.load(offset, 1) != Some(u64::from(byte_of(pattern, offset))) {
                return false;
            }
        }
        true
    }

    /// Stores the low `width` bytes of `value` at `offset` of the first frame; does nothing if that is no access.
    fn store(&mut self, offset: usize, width: usize, value: u64) {
        if is_access(offset, width) {
            store_bytes(
                &mut self.store,
                &mut self.seat,
                self.first,
                offset,
                width,
                value,
            );
        }
    }

    /// The word at `index` of the first frame, as page tables have it; 0 if there is no such word.
    fn word(&mut self, index: usize) -> u64 {
        if index >= 512 {
            return 0;
        }
        self.store.load(&mut self.seat, self.first, index)
    }

    /// Whether the 4,096 bytes of the first frame, read into an array that had other bytes, are those of the pattern, with
    /// `last` as the last one.
    fn has_page(&mut self, pattern: Pattern, last: u8) -> bool {
        let mut bytes = [0xee; 4096];
        read_frame(&mut self.store, &mut self.seat, self.first, &mut bytes);
        let mut wanted = page_of(pattern);
        wanted[4095] = last;
        bytes == wanted
    }

    /// Whether a read of the first frame from `offset` on, into an array that had other bytes, returns these. False if they
    /// are not all in the page.
    fn has_run(&mut self, offset: usize, wanted: &[u8]) -> bool {
        let length = wanted.len();
        if offset > 4096 || length > 4096 - offset {
            return false;
        }
        let mut bytes = [0xee; 4096];
        let run = &mut bytes[..length];
        read_run(&mut self.store, &mut self.seat, self.first, offset, run);
        &bytes[..length] == wanted
    }

    /// Writes `bytes` to the first frame from `offset` on; does nothing if they are not all in the page.
    fn write(&mut self, offset: usize, bytes: &[u8]) {
        if offset <= 4096 && bytes.len() <= 4096 - offset {
            write_run(&mut self.store, &mut self.seat, self.first, offset, bytes);
        }
    }

    /// Copies the first frame to the second.
    fn copy(&mut self) {
        copy_frame(&mut self.store, &mut self.seat, self.first, self.second);
    }

    /// Exchanges the two frames: the first becomes the second, and the second the first.
    fn turn(&mut self) {
        let first = self.first;
        self.first = self.second;
        self.second = first;
    }

    /// Makes a change, which is right; of another step, returns whether the first frame holds what it says.
    fn is_right(&mut self, step: Step) -> bool {
        match step {
            Step::Fill(bytes) => self.fill(&bytes[..bytes.len().min(4096)]),
            Step::FillWith(pattern, length) => self.fill(&page_of(pattern)[..length.min(4096)]),
            Step::Store(offset, width, value) => self.store(offset, width, value),
            Step::Write(offset, bytes) => self.write(offset, bytes),
            Step::WriteWith(pattern) => self.write(0, &page_of(pattern)),
            Step::Copy => self.copy(),
            Step::Turn => self.turn(),
            _ => return self.holds(step),
        }
        true
    }

    /// Whether the first frame holds what a step says; false for a change.
    fn holds(&mut self, step: Step) -> bool {
        match step {
            Step::Load(offset, width, number) => self.load(offset, width) == Some(number),
            Step::Bytes(pattern) => self.has_bytes(pattern),
            Step::Word(index, word) => self.word(index) == word,
            Step::Page(pattern, last) => self.has_page(pattern, last),
            Step::Run(offset, length) => {
                let end = offset.saturating_add(length).min(4096);
                self.has_run(offset, &page_of(Pattern::Whole)[offset.min(end)..end])
            }
            Step::Read(offset, bytes) => self.has_run(offset, bytes),
            _ => false,
        }
    }
}

/// Makes the steps, one after another, and asserts that all are right.
///
/// # Errors
/// `Fail`: the host is out of memory.
fn play<R: Abort>(rt: &R, alloc: Global, steps: &[Step]) -> Result<(), Fail> {
    let mut bench = Bench::new(alloc)?;
    'steps: for number in 0..steps.len() {
        expect(rt, number, bench.is_right(steps[number]), true);
    }
    Ok(())
}

static FILLED: [Step; 13] = [
    Step::Load(4088, 8, 0x0101_0101_0101_0101),
    Step::FillWith(Pattern::Front, 600),
    Step::Bytes(Pattern::Front),
    Step::Load(254, 2, 0xfffe),
    Step::Load(256, 2, 0x0100),
    Step::Load(598, 2, 0x5756),
    Step::Load(600, 2, 0),
    Step::Load(252, 4, 0xfffe_fdfc),
    Step::Load(596, 4, 0x5756_5554),
    Step::Load(600, 4, 0),
    Step::Load(0, 8, 0x0706_0504_0302_0100),
    Step::Load(592, 8, 0x5756_5554_5352_5150),
    Step::Load(4088, 8, 0),
];

#[test]
fn loads_what_was_filled(rt: HostRuntime) -> Result<(), Fail> {
    play(&rt, rt.alloc(), &FILLED)
}

static PARTLY_FILLED: [Step; 6] = [
    Step::Fill(&[0xff; 13]),
    Step::Load(0, 8, 0xffff_ffff_ffff_ffff),
    Step::Load(8, 8, 0x0000_00ff_ffff_ffff),
    Step::Load(16, 8, 0),
    Step::Fill(&[]),
    Step::Load(0, 8, 0),
];

#[test]
fn fills_a_part_of_a_word(rt: HostRuntime) -> Result<(), Fail> {
    play(&rt, rt.alloc(), &PARTLY_FILLED)
}

static STORED: [Step; 13] = [
    Step::FillWith(Pattern::Front, 600),
    Step::Store(11, 1, 0x1ff),
    Step::Store(22, 2, 0x1234_abcd),
    Step::Store(24, 4, 0xffff_ffff_2345_6789),
    Step::Store(32, 8, 0xfedc_ba98_7654_3210),
    Step::Load(0, 8, 0x0706_0504_0302_0100),
    Step::Load(8, 8, 0x0f0e_0d0c_ff0a_0908),
    Step::Load(16, 8, 0xabcd_1514_1312_1110),
    Step::Load(24, 8, 0x1f1e_1d1c_2345_6789),
    Step::Load(32, 8, 0xfedc_ba98_7654_3210),
    Step::Load(40, 8, 0x2f2e_2d2c_2b2a_2928),
    Step::Load(10, 2, 0xff0a),
    Step::Load(20, 4, 0xabcd_1514),
];

#[test]
fn stores_beside_neighbors(rt: HostRuntime) -> Result<(), Fail> {
    play(&rt, rt.alloc(), &STORED)
}

/// The leaf of frame 5 with R, X and U.
const LEAF: u64 = 0x2000145b;

/// The bytes in which it lies in memory, from the lowest address on.
const LEAF_BYTES: &[u8] = &[0x5b, 0x14, 0x00, 0x20, 0x00, 0x00, 0x00, 0x00];

/// The leaf, stored to a frame, lies there in those bytes; and those bytes, filled into a frame, are the leaf.
static LEAF_IN_MEMORY: [Step; 4] = [
    Step::Store(8, 8, LEAF),
    Step::Read(8, LEAF_BYTES),
    Step::Fill(LEAF_BYTES),
    Step::Word(0, LEAF),
];

#[test]
fn leaves_lie_low_byte_first(rt: HostRuntime) -> Result<(), Fail> {
    let code = Rights::READ | Rights::EXECUTE;
    let leaf = Entry::leaf(FrameNo(5), code, true, false, true);
    expect(&rt, 0, leaf.to_word(), LEAF);
    play(&rt, rt.alloc(), &LEAF_IN_MEMORY)
}

/// What the copy holds, and then what the first frame does, whose first word was stored after the copy.
static COPIED: [Step; 11] = [
    Step::FillWith(Pattern::Front, 600),
    Step::Copy,
    Step::Store(0, 8, 0),
    Step::Turn,
    Step::Load(0, 8, 0x0706_0504_0302_0100),
    Step::Load(592, 8, 0x5756_5554_5352_5150),
    Step::Load(600, 8, 0),
    Step::Load(4088, 8, 0),
    Step::Turn,
    Step::Load(0, 8, 0),
    Step::Load(8, 8, 0x0f0e_0d0c_0b0a_0908),
];

#[test]
fn copies_to_another_frame(rt: HostRuntime) -> Result<(), Fail> {
    play(&rt, rt.alloc(), &COPIED)
}

/// 4,095 is 16 times 251, and 79.
static PAGES: [Step; 3] = [
    Step::Page(Pattern::Ones, 1),
    Step::FillWith(Pattern::Whole, 4096),
    Step::Page(Pattern::Whole, 79),
];

#[test]
fn reads_a_whole_page(rt: HostRuntime) -> Result<(), Fail> {
    play(&rt, rt.alloc(), &PAGES)
}

static EACH_BYTE: [Step; 3] = [
    Step::FillWith(Pattern::Front, 600),
    Step::Store(4095, 1, 0x7f),
    Step::Page(Pattern::Front, 0x7f),
];

#[test]
fn reads_each_byte_of_a_page(rt: HostRuntime) -> Result<(), Fail> {
    play(&rt, rt.alloc(), &EACH_BYTE)
}

static RUNS: [Step; 17] = [
    Step::FillWith(Pattern::Whole, 4096),
    Step::Run(0, 0),
    Step::Run(0, 1),
    Step::Run(0, 8),
    Step::Run(0, 32),
    Step::Run(1, 7),
    Step::Run(1, 8),
    Step::Run(3, 2),
    Step::Run(5, 30),
    Step::Run(7, 1),
    Step::Run(7, 2),
    Step::Run(8, 9),
    Step::Run(4064, 32),
    Step::Run(4089, 7),
    Step::Run(4095, 1),
    Step::Run(4096, 0),
    Step::Run(0, 4096),
];

#[test]
fn reads_runs(rt: HostRuntime) -> Result<(), Fail> {
    play(&rt, rt.alloc(), &RUNS)
}

static WRITTEN: [Step; 20] = [
    Step::FillWith(Pattern::Front, 600),
    Step::Write(0, b"a"),
    Step::Write(13, b"bcdefg"),
    Step::Write(24, b"hijklmnopqrstuvw"),
    Step::Write(47, b"0123456789"),
    Step::Write(4095, b"z"),
    Step::Write(4096, b""),
    Step::Load(0, 8, 0x0706_0504_0302_0161),
    Step::Load(8, 8, 0x6463_620c_0b0a_0908),
    Step::Load(16, 8, 0x1716_1514_1367_6665),
    Step::Load(24, 8, 0x6f6e_6d6c_6b6a_6968),
    Step::Load(32, 8, 0x7776_7574_7372_7170),
    Step::Load(40, 8, 0x302e_2d2c_2b2a_2928),
    Step::Load(48, 8, 0x3837_3635_3433_3231),
    Step::Load(56, 8, 0x3f3e_3d3c_3b3a_3939),
    Step::Load(64, 8, 0x4746_4544_4342_4140),
    Step::Load(4088, 8, 0x7a00_0000_0000_0000),
    Step::Read(13, b"bcdefg"),
    Step::WriteWith(Pattern::Whole),
    Step::Page(Pattern::Whole, 79),
];

#[test]
fn writes_runs(rt: HostRuntime) -> Result<(), Fail> {
    play(&rt, rt.alloc(), &WRITTEN)
}
