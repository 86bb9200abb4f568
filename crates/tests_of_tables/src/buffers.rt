// Tests that `Buffer`, a hart's TLB, keeps, fences, evicts and uses entries as it must: whole superpages, entries that
// record no leaf, at most 32 entries, nothing of access faults; over a memory of at most 1,024 frames with two page tables.
// Each test is a row: how a buffer is filled (`Filling`, a struct), and steps (`Step`), of which some change the buffer, and
// some say what it must keep or answer then.

ghost use Rattle.std.specs.Prelude.{◌≡◌};
ghost use Rattle.sv39_entry.specs.Satp as satps;
ghost use Rattle.sv39_entry.specs.Schemes.{mode_of};

use crate::memory::{DATA, FRAMES, POINTER, words_of};
use crate::rows::expect;
use hart_tlb::{Buffer, NoEntry};
use std::alloc::{AllocError, Global};
use sv39_entry::{Access, FrameNo, Mode, Satp, Scheme, Va};
use table_walk::{PlainWords, Walk};

/// `DATA` with G set.
const GLOBAL: u64 = 0x200800f7;

/// `DATA` for the page at physical address 0, where there is no memory.
const NOWHERE: u64 = 0x000000d7;

const SV39: Scheme = Scheme::Sv39;

const SV48: Scheme = Scheme::Sv48;

/// The addresses at which a buffer is filled, by walks of a memory of `frames` frames whose root is frame 1. Its words are
/// all 0 but `first`, word 0 of frame 1, and `second`, the word at index 1 of frame 2.
#[derive(Clone, Copy)]
struct Filling {
    scheme: Scheme,
    frames: usize,
    first: u64,
    second: u64,
    addresses: &'static [u64],
}

/// A change of a buffer, or what it must keep or answer. `n` is the number of an entry.
#[derive(Clone, Copy)]
enum Step {
    /// The number of entries.
    Length(usize),
    /// A fence: the address and the ASID.
    Fence(Option<Va>, Option<u16>),
    /// Entry `n` is for this page and this word of a leaf of level 1, with ASID 7, and global or not.
    Keeps(usize, u64, u64, bool),
    /// There is no entry `n`.
    Lacks(usize),
    /// The numbers of the entries for 0x234000 under an ASID.
    Matches(u16, &'static [usize]),
    /// A use of entry `n`: the address, the ASID, the access, the mode and the outcome.
    Use(usize, u64, u16, Access, Mode, Result<Walk, NoEntry>),
    /// An eviction of entry `n`, and its outcome.
    Evict(usize, Result<(), NoEntry>),
}

/// satp of a scheme with ASID 7 and the root in frame 1.
fn satp(scheme: Scheme) -> Satp
    ensures mode { satps.mode result ≡ mode_of scheme }
{
    Satp::new(scheme, 7, FrameNo(1))
}

/// A buffer that was empty, after the fills.
fn filled<const N: usize>(alloc: Global, filling: Filling) -> Result<Buffer<N>, AllocError> {
    let given = [(512, filling.first), (2 * 512 + 1, filling.second)];
    let words = words_of(alloc, filling.frames, &given)?;
    let mut memory = PlainWords::new(&words);
    let scheme = filling.scheme;
    let mut buffer = Buffer::new();
    'addresses: for address in filling.addresses {
        buffer.fill(&mut memory, scheme, satp(scheme), Va(*address));
    }
    Ok(buffer)
}

/// Whether entry `n` is for this page and this word of a leaf of level 1, with ASID 7, and global or not.
fn keeps<const N: usize>(buffer: &Buffer<N>, n: usize, page: u64, word: u64, global: bool) -> bool {
    let Some(entry) = buffer.entry(n) else {
        return false;
    };
    let Some(leaf) = entry.leaf else {
        return false;
    };
    entry.page.number() == page
        && entry.asid == 7
        && entry.global == global
        && leaf.word() == word
        && leaf.level() == 1
}

/// Makes a change, which is right; of another step, returns whether it is as the step says.
fn is_right<const N: usize>(buffer: &mut Buffer<N>, step: Step) -> bool {
    match step {
        Step::Length(length) => buffer.len() == length,
        Step::Fence(va, asid) => {
            buffer.fence(va, asid);
            true
        }
        Step::Keeps(n, page, word, global) => keeps(buffer, n, page, word, global),
        Step::Lacks(n) => buffer.entry(n).is_none(),
        Step::Matches(asid, numbers) => buffer.matching(Va(0x234000), asid).as_slice() == numbers,
        Step::Use(n, address, asid, access, mode, outcome) => {
            buffer.use_entry(n, Va(address), asid, access, mode) == outcome
        }
        Step::Evict(n, outcome) => buffer.evict(n) == outcome,
    }
}

/// The number of the first step that is not as it says; `None` if there is none.
fn first_wrong<const N: usize>(buffer: &mut Buffer<N>, steps: &[Step]) -> Option<usize> {
    'steps: for number in 0..steps.len() {
        if !is_right(buffer, steps[number]) {
            return Some(number);
        }
    }
    None
}

/// `first_wrong` of a buffer of 32 entries.
fn wrong_of_32(
    alloc: Global,
    filling: Filling,
    steps: &[Step],
) -> Result<Option<usize>, AllocError> {
    let mut buffer: Buffer<32> = filled(alloc, filling)?;
    Ok(first_wrong(&mut buffer, steps))
}

/// `first_wrong` of a buffer of two entries.
fn wrong_of_2(
    alloc: Global,
    filling: Filling,
    steps: &[Step],
) -> Result<Option<usize>, AllocError> {
    let mut buffer: Buffer<2> = filled(alloc, filling)?;
    Ok(first_wrong(&mut buffer, steps))
}

/// `DATA` at two addresses of its superpage, and no leaf between the two.
const THREE: Filling = Filling {
    scheme: SV39,
    frames: FRAMES,
    first: POINTER,
    second: DATA,
    addresses: &[0x234567, 0x400000, 0x234fff],
};

/// A leaf in the root of Sv48.
const LEVEL_3: Filling = Filling {
    scheme: SV48,
    frames: FRAMES,
    first: NOWHERE,
    second: 0,
    addresses: &[0x80234000],
};

/// A walk of `THREE`, and one of `LEVEL_3`.
const MAPPED: Walk = Walk::Leaf {
    word: DATA,
    level: 1,
    address: 0x80234567,
};

const MAPPED_AT_LEVEL_3: Walk = Walk::Leaf {
    word: NOWHERE,
    level: 3,
    address: 0x80234567,
};

const LOAD: Access = Access::Load;

const USER: Mode = Mode::User;

static ROWS: [(Filling, &[Step]); 10] = [
    // whole superpages
    (
        Filling {
            addresses: &[0x200000, 0x234000],
            ..THREE
        },
        &[
            Step::Length(2),
            Step::Fence(Some(Va(0x401000)), None),
            Step::Length(2),
            Step::Fence(Some(Va(0x201000)), Some(8)),
            Step::Length(2),
            Step::Fence(Some(Va(0x201000)), None),
            Step::Length(0),
        ],
    ),
    // a leaf in the root of Sv48 is removed by a fence of any address in its 512 GiB
    (
        LEVEL_3,
        &[
            Step::Length(1),
            Step::Fence(Some(Va(0x8000000000)), None),
            Step::Length(1),
            Step::Fence(Some(Va(0x7000000000)), None),
            Step::Length(0),
        ],
    ),
    // missing leaves at each address; a global leaf by no ASID
    (
        Filling {
            second: GLOBAL,
            addresses: &[0x400000, 0x234000],
            ..THREE
        },
        &[
            Step::Length(2),
            Step::Fence(Some(Va(0)), Some(7)),
            Step::Length(1),
            Step::Fence(None, Some(7)),
            Step::Length(1),
            Step::Fence(None, None),
            Step::Length(0),
        ],
    ),
    // nothing is kept of access faults
    (
        Filling {
            frames: 3,
            addresses: &[0x200000],
            ..THREE
        },
        &[Step::Length(0)],
    ),
    (
        Filling {
            second: NOWHERE,
            addresses: &[0x200000],
            ..THREE
        },
        &[Step::Length(0)],
    ),
    (
        Filling {
            second: 0x00000001,
            addresses: &[0x200000],
            ..THREE
        },
        &[Step::Length(0)],
    ),
    // the last 32 of 33 pages
    (
        Filling {
            addresses: &[
                0x200000, 0x201000, 0x202000, 0x203000, 0x204000, 0x205000, 0x206000, 0x207000,
                0x208000, 0x209000, 0x20a000, 0x20b000, 0x20c000, 0x20d000, 0x20e000, 0x20f000,
                0x210000, 0x211000, 0x212000, 0x213000, 0x214000, 0x215000, 0x216000, 0x217000,
                0x218000, 0x219000, 0x21a000, 0x21b000, 0x21c000, 0x21d000, 0x21e000, 0x21f000,
                0x220000,
            ],
            ..THREE
        },
        &[
            Step::Length(32),
            Step::Keeps(0, 0x201, DATA, false),
            Step::Keeps(1, 0x202, DATA, false),
            Step::Keeps(2, 0x203, DATA, false),
            Step::Keeps(3, 0x204, DATA, false),
            Step::Keeps(4, 0x205, DATA, false),
            Step::Keeps(5, 0x206, DATA, false),
            Step::Keeps(6, 0x207, DATA, false),
            Step::Keeps(7, 0x208, DATA, false),
            Step::Keeps(8, 0x209, DATA, false),
            Step::Keeps(9, 0x20a, DATA, false),
            Step::Keeps(10, 0x20b, DATA, false),
            Step::Keeps(11, 0x20c, DATA, false),
            Step::Keeps(12, 0x20d, DATA, false),
            Step::Keeps(13, 0x20e, DATA, false),
            Step::Keeps(14, 0x20f, DATA, false),
            Step::Keeps(15, 0x210, DATA, false),
            Step::Keeps(16, 0x211, DATA, false),
            Step::Keeps(17, 0x212, DATA, false),
            Step::Keeps(18, 0x213, DATA, false),
            Step::Keeps(19, 0x214, DATA, false),
            Step::Keeps(20, 0x215, DATA, false),
            Step::Keeps(21, 0x216, DATA, false),
            Step::Keeps(22, 0x217, DATA, false),
            Step::Keeps(23, 0x218, DATA, false),
            Step::Keeps(24, 0x219, DATA, false),
            Step::Keeps(25, 0x21a, DATA, false),
            Step::Keeps(26, 0x21b, DATA, false),
            Step::Keeps(27, 0x21c, DATA, false),
            Step::Keeps(28, 0x21d, DATA, false),
            Step::Keeps(29, 0x21e, DATA, false),
            Step::Keeps(30, 0x21f, DATA, false),
            Step::Keeps(31, 0x220, DATA, false),
            Step::Lacks(32),
        ],
    ),
    // an entry is used for its own page and ASID, by its rights
    (
        THREE,
        &[
            Step::Use(0, 0x234567, 7, LOAD, USER, Ok(MAPPED)),
            Step::Use(2, 0x234567, 7, LOAD, USER, Ok(MAPPED)),
            Step::Use(0, 0x234567, 7, Access::Fetch, USER, Ok(Walk::PageFault(12))),
            Step::Use(
                0,
                0x234567,
                7,
                LOAD,
                Mode::Supervisor,
                Ok(Walk::PageFault(13)),
            ),
            Step::Use(1, 0x400abc, 7, LOAD, USER, Ok(Walk::PageFault(13))),
            Step::Use(0, 0x234567, 8, LOAD, USER, Err(NoEntry)),
            Step::Use(0, 0x235567, 7, LOAD, USER, Err(NoEntry)),
            Step::Use(3, 0x234567, 7, LOAD, USER, Err(NoEntry)),
        ],
    ),
    (
        LEVEL_3,
        &[Step::Use(0, 0x80234567, 7, LOAD, USER, Ok(MAPPED_AT_LEVEL_3))],
    ),
    // evictions
    (
        THREE,
        &[
            Step::Matches(7, &[0, 2]),
            Step::Evict(0, Ok(())),
            Step::Evict(2, Err(NoEntry)),
            Step::Matches(7, &[1]),
        ],
    ),
];

/// A row of a buffer of two entries.
static ROW_OF_TWO: (Filling, &[Step]) = (
    Filling {
        second: GLOBAL,
        addresses: &[0x234567],
        ..THREE
    },
    &[Step::Keeps(0, 0x234, GLOBAL, true), Step::Matches(8, &[0])],
);

#[test]
fn keeps_and_uses_entries(rt: HostRuntime) {
    for number in 0..ROWS.len() {
        let (filling, steps) = ROWS[number];
        expect(
            &rt,
            number,
            wrong_of_32(rt.alloc(), filling, steps),
            Ok(None),
        );
    }
}

#[test]
fn shows_what_entries_keep(rt: HostRuntime) {
    let (filling, steps) = ROW_OF_TWO;
    expect(&rt, 0, wrong_of_2(rt.alloc(), filling, steps), Ok(None));
    expect(&rt, 1, satp(SV48).mode(), 9);
}
