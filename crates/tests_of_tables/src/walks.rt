// Tests that walks (RISC-V Privileged Architecture 20211203, 4.3.2) agree with independent test vectors (`Row`: a PTE, an
// access and the outcome) over a memory of at most 1,024 frames with a few page tables, under Sv39 and Sv48; and that map,
// protect, unmap, look-up and release work on page tables that a seat holds.

ghost use Rattle.std.specs.Prelude.{◌≡◌, ◌+◌, ◌<◌, [], ◌∷◌, ℕ, IfOk};
ghost use Rattle.frame_store.specs.Laws.{IsSeatOf, KeepsSeats};
ghost use Rattle.frame_store.specs.Plain.{PlainStateInvariant};
ghost use Rattle.frame_store.specs.View.{hold_of, IsHeld};
ghost use Rattle.table_walk.specs.Tables.{HasTables, Tables};

use crate::memory::{DATA, FRAMES, POINTER, Word, words_of};
use crate::rows::expect;
use frame_store::{FrameAccess, FrameSeat, FrameSupply, PlainFrames, PlainSeat};
use std::alloc::{AllocError, Global};
use sv39_entry::{Access, Entry, FrameNo, Mode, Rights, Scheme, Va};
use table_walk::{
    Found, HeldWords, PlainWords, Walk, lookup, map, missing_tables, new_table, next_leaf_before,
    protect, release_tables, translate, unmap, walks_of_tables,
};

/// A pointer to frame 1.
const UPPER: u64 = 0x20000401;

/// Page tables with one word at index 1 of frame 2: frame 1 is their root in Sv39, frame 3 in Sv48.
const fn tables(word: u64) -> [Word; 3] {
    [(512, POINTER), (2 * 512 + 1, word), (3 * 512, UPPER)]
}

/// `DATA` with a reserved bit set.
const RESERVED: u64 = 0x00400000200800d7;

/// A pointer to frame 3 with A set, which is reserved.
const ACCESSED_POINTER: u64 = 0x20000c41;

/// `DATA` without D.
const CLEAN: u64 = 0x20080057;

/// `DATA` without U.
const KERNEL: u64 = 0x200800c7;

/// The word at index 1 of frame 2; an access, its address and its mode; and the outcome of the walk.
type Row = (u64, Access, u64, Mode, Walk);

/// Shorthands of the rows.
const USER: Mode = Mode::User;

const LOAD: Access = Access::Load;

static ACCESSES: [Row; 16] = [
    (
        DATA,
        LOAD,
        0x234567,
        USER,
        Walk::Leaf {
            word: DATA,
            level: 1,
            address: 0x80234567,
        },
    ),
    (0x200804d7, LOAD, 0x234567, USER, Walk::PageFault(13)),
    (RESERVED, LOAD, 0x234567, USER, Walk::PageFault(13)),
    (DATA, Access::Fetch, 0x200000, USER, Walk::PageFault(12)),
    (CLEAN, Access::Store, 0x200000, USER, Walk::PageFault(15)),
    (
        CLEAN,
        LOAD,
        0x200000,
        USER,
        Walk::Leaf {
            word: CLEAN,
            level: 1,
            address: 0x80200000,
        },
    ),
    (0x20080097, LOAD, 0x200000, USER, Walk::PageFault(13)),
    (KERNEL, LOAD, 0x200000, USER, Walk::PageFault(13)),
    (
        KERNEL,
        LOAD,
        0x200000,
        Mode::Supervisor,
        Walk::Leaf {
            word: KERNEL,
            level: 1,
            address: 0x80200000,
        },
    ),
    (0x200800d5, LOAD, 0x200000, USER, Walk::PageFault(13)),
    (ACCESSED_POINTER, LOAD, 0x200000, USER, Walk::PageFault(13)),
    (0x000000d7, LOAD, 0x200000, USER, Walk::AccessFault(5)),
    (
        0x00000001,
        Access::Store,
        0x200000,
        USER,
        Walk::AccessFault(7),
    ),
    (0x000000c7, LOAD, 0x200000, USER, Walk::PageFault(13)),
    (DATA, LOAD, 0x4000000000, USER, Walk::PageFault(13)),
    (DATA, LOAD, 0xffffffc000000000, USER, Walk::PageFault(13)),
];

/// The outcome of a translation over `FRAMES` frames with these words.
fn translated(
    alloc: Global,
    given: &[Word],
    scheme: Scheme,
    root: FrameNo,
    access: Access,
    address: u64,
    mode: Mode,
) -> Result<Walk, AllocError> {
    let words = words_of(alloc, FRAMES, given)?;
    let mut memory = PlainWords::new(&words);
    let (root, va) = (root.ppn(), Va(address));
    Ok(translate(&mut memory, scheme, root, va, access, mode))
}

#[test]
fn translates_accesses(rt: HostRuntime) {
    let (three, four) = (Scheme::Sv39, Scheme::Sv48);
    let alloc = rt.alloc();
    for number in 0..ACCESSES.len() {
        let (word, access, address, mode, outcome) = ACCESSES[number];
        let given = tables(word);
        let in_sv39 = translated(alloc, &given, three, FrameNo(1), access, address, mode);
        expect(&rt, number, in_sv39, Ok(outcome));
        let in_sv48 = translated(alloc, &given, four, FrameNo(3), access, address, mode);
        expect(&rt, number, in_sv48, Ok(outcome));
    }
}

/// A leaf in the root of Sv48 leads here.
const AT_LEVEL_3: Walk = Walk::Leaf {
    word: 0x000000d7,
    level: 3,
    address: 0x80234567,
};

static LOADS_OF_THE_ROOT: [(u64, Walk); 11] = [
    (0x80234567, AT_LEVEL_3),
    (0x00234567, Walk::AccessFault(5)),
    (0x4080234567, Walk::AccessFault(5)),
    (0x8000000000, Walk::PageFault(13)),
    (0x7fffffffffff, Walk::PageFault(13)),
    (0x800080234567, Walk::PageFault(13)),
    (0xffff000080234567, Walk::PageFault(13)),
    (0xffff7fffffffffff, Walk::PageFault(13)),
    (0xffff800080234567, AT_LEVEL_3),
    (0xffff800000234567, Walk::AccessFault(5)),
    (0xffffffffffffffff, Walk::PageFault(13)),
];

/// Leaves in the root of Sv48. The address of the one at index 0 is a multiple of its size, and so is that at index 256, the
/// first of the upper half. That of the one at index 1 is not.
static IN_THE_ROOT: [Word; 3] = [(512, 0x000000d7), (512 + 1, DATA), (512 + 256, 0x000000d7)];

#[test]
fn walks_from_the_root(rt: HostRuntime) {
    let (scheme, root) = (Scheme::Sv48, FrameNo(1));
    for number in 0..LOADS_OF_THE_ROOT.len() {
        let (address, outcome) = LOADS_OF_THE_ROOT[number];
        let told = translated(rt.alloc(), &IN_THE_ROOT, scheme, root, LOAD, address, USER);
        expect(&rt, number, told, Ok(outcome));
    }
}

/// What `lookup` finds at a root and an address.
static FOUND: [(Scheme, FrameNo, u64, Found); 6] = [
    (Scheme::Sv39, FrameNo(1), 0x3fffff, MEGAPAGE),
    (Scheme::Sv39, FrameNo(1), 0x400000, Found::NoLeaf),
    (Scheme::Sv39, FrameNo(4), 0, Found::Outside),
    (Scheme::Sv48, FrameNo(3), 0x3fffff, MEGAPAGE),
    (Scheme::Sv48, FrameNo(3), 0x400000, Found::NoLeaf),
    (Scheme::Sv48, FrameNo(4), 0, Found::Outside),
];

const MEGAPAGE: Found = Found::Leaf {
    word: DATA,
    level: 1,
    global: false,
};

/// What `lookup` finds over four frames with `DATA` in their page tables.
fn looked_up(
    alloc: Global,
    scheme: Scheme,
    root: FrameNo,
    address: u64,
) -> Result<Found, AllocError> {
    let words = words_of(alloc, 4, &tables(DATA))?;
    let mut memory = PlainWords::new(&words);
    Ok(lookup(&mut memory, scheme, root.ppn(), Va(address)))
}

#[test]
fn finds_leaves(rt: HostRuntime) {
    for number in 0..FOUND.len() {
        let (scheme, root, address, wanted) = FOUND[number];
        let told = looked_up(rt.alloc(), scheme, root, address);
        expect(&rt, number, told, Ok(wanted));
    }
}

/// An address, the frame that its page is mapped to, and the word of the leaf.
type Mapping = (Va, u16, u64);

/// Five mappings in ascending order; the address of the last one depends on the scheme. The leaves grant loads, to the
/// kernel alone.
const fn mappings(last: Va) -> [Mapping; 5] {
    [
        (Va(0), 9, 0x20002443),
        (Va(0x1000), 10, 0x20002843),
        (Va(0x200000), 11, 0x20002c43),
        (Va(0x40000000), 12, 0x20003043),
        (last, 13, 0x20003443),
    ]
}

/// A scheme, the last page of its lower half, and the number of page tables that are missing at each mapping.
static CASES: [(Scheme, Va, [usize; 5]); 2] = [
    (Scheme::Sv39, Va(0x3ffffff000), [2, 0, 1, 2, 2]),
    (Scheme::Sv48, Va(0x7ffffffff000), [3, 0, 1, 2, 3]),
];

/// Claims a frame, makes each of its words other than 0, and releases it: a table that reuses it must be cleared.
fn leave_words<F: FrameSupply>(store: &mut F, seat: &mut F::Seat)
    requires fits { IsSeatOf F.invariant store.old seat.old }
    requires anchored { IsHeld (F.Seat.view seat.old) 0 }
    requires credit { 0 < (F.Seat.view seat.old).credits }
    ensures kept { (f : ℕ) → IsHeld (F.Seat.view seat.old) f → hold_of (F.Seat.view seat.new) f ≡ hold_of (F.Seat.view seat.old) f }
    ensures credits { (F.Seat.view seat.new).credits + 1 ≡ (F.Seat.view seat.old).credits }
    ensures keeps { KeepsSeats F.invariant store.old seat.old store.new seat.new }
{
    let frame = store.claim(seat);
    for index in 0..512 {
        store.store(seat, frame, index, u64::MAX);
    }
    store.release(seat, frame);
}

/// Makes the five mappings at a new store. Returns the store, its seat, the root, and the number of page tables that were
/// missing at each mapping.
fn mapped(
    alloc: Global,
    scheme: Scheme,
    last: Va,
) -> Result<(PlainFrames, PlainSeat, FrameNo, [usize; 5]), AllocError>
    ensures invariant { IfOk result (λ r. PlainStateInvariant r.0 (r.1 ∷ [])) }
    ensures tables { IfOk result (λ r. (t : Tables) × HasTables scheme r.1 r.2.0 t) }
{
    let (mut frames, mut seat) = PlainFrames::new(alloc, 32)?;
    let reserved = frames.reserve(&mut seat, 20);
    prove!(reserved.is_ok());
    let root = new_table(&mut frames, &mut seat);
    leave_words(&mut frames, &mut seat);
    let mut missing = [0; 5];
    for (index, (va, frame, _)) in mappings(last).iter().enumerate() {
        let leaf = Entry::leaf(FrameNo(*frame), Rights::READ, false, false, true);
        missing[index] = missing_tables(&mut frames, &mut seat, scheme, root, va.page());
        map(&mut frames, &mut seat, scheme, root, va.page(), leaf);
    }
    Ok((frames, seat, root, missing))
}

/// The number of the first mapping that `next_leaf_before` does not find in turn; 5 if it finds one more; `None` if it finds
/// just the five. And the number of page tables that were missing at each mapping.
fn first_not_found(
    alloc: Global,
    scheme: Scheme,
    last: Va,
) -> Result<(Option<usize>, [usize; 5]), AllocError> {
    let (mut frames, mut seat, root, missing) = mapped(alloc, scheme, last)?;
    let mappings = mappings(last);
    let end = scheme.page_limit();
    let mut from = Va(0).page();
    'found: for number in 0..5 {
        let (va, _, word) = mappings[number];
        let found = next_leaf_before(&mut frames, &mut seat, scheme, root, from, end);
        if found != Some((va.page(), Entry::from_word(word))) {
            return Ok((Some(number), missing));
        }
        from = Va(va.0.wrapping_add(4096)).page();
    }
    let more = next_leaf_before(&mut frames, &mut seat, scheme, root, from, end);
    Ok((if more.is_none() { None } else { Some(5) }, missing))
}

/// The number of the first mapping that `lookup` does not find as it was made; `None` if it finds all.
fn first_not_walked(alloc: Global, scheme: Scheme, last: Va) -> Result<Option<usize>, AllocError> {
    let (mut frames, mut seat, root, _) = mapped(alloc, scheme, last)?;
    walks_of_tables();
    let mappings = mappings(last);
    let mut words = HeldWords {
        store: &mut frames,
        seat: &mut seat,
    };
    'walked: for number in 0..5 {
        let (va, _, word) = mappings[number];
        let leaf = Found::Leaf {
            word,
            level: 0,
            global: false,
        };
        if lookup(&mut words, scheme, root.ppn(), va) != leaf {
            return Ok(Some(number));
        }
    }
    Ok(None)
}

#[test]
fn finds_what_is_mapped(rt: HostRuntime) {
    for number in 0..CASES.len() {
        let (scheme, last, needed) = CASES[number];
        let told = first_not_found(rt.alloc(), scheme, last);
        expect(&rt, number, told, Ok((None, needed)));
        let not_walked = first_not_walked(rt.alloc(), scheme, last);
        expect(&rt, number, not_walked, Ok(None));
    }
}

/// What unmapping a page returned, and unmapping it again; and what `lookup` then finds at that page, and at the next one,
/// whose leaf was replaced.
type Changed = (Option<Entry>, Option<Entry>, Found, Found);

/// Makes the mappings, unmaps one of them and replaces the leaf of the next; `None` if there is no next one.
fn changed(alloc: Global, scheme: Scheme, last: Va) -> Result<Option<Changed>, AllocError> {
    let (mut frames, mut seat, root, _) = mapped(alloc, scheme, last)?;
    let gone = Va(0x200000);
    let leaf = unmap(&mut frames, &mut seat, scheme, root, gone.page());
    let again = unmap(&mut frames, &mut seat, scheme, root, gone.page());
    let (from, end) = (Va(0x2000).page(), scheme.page_limit());
    let next = next_leaf_before(&mut frames, &mut seat, scheme, root, from, end);
    let Some(found) = next else {
        return Ok(None);
    };
    let new = Entry::leaf(FrameNo(12), Rights::READ, false, false, true);
    protect(&mut frames, &mut seat, scheme, root, found.0, new);
    walks_of_tables();
    let mut words = HeldWords {
        store: &mut frames,
        seat: &mut seat,
    };
    let first = lookup(&mut words, scheme, root.ppn(), gone);
    let second = lookup(&mut words, scheme, root.ppn(), Va(0x40000123));
    Ok(Some((leaf, again, first, second)))
}

#[test]
fn changes_one_leaf(rt: HostRuntime) {
    let leaf = Found::Leaf {
        word: 0x20003043,
        level: 0,
        global: false,
    };
    for number in 0..CASES.len() {
        let (scheme, last, _) = CASES[number];
        let dropped = Entry::from_word(0x20002c43);
        let wanted = (Some(dropped), None, Found::NoLeaf, leaf);
        let told = changed(rt.alloc(), scheme, last);
        expect(&rt, number, told, Ok(Some(wanted)));
    }
}

/// The numbers of frames that are held after a mapping was made and unmapped, and after its tables were released.
fn held_by_tables(alloc: Global) -> Result<(usize, usize), AllocError> {
    let (mut frames, mut seat) = PlainFrames::new(alloc, 16)?;
    let reserved = frames.reserve(&mut seat, 4);
    prove!(reserved.is_ok());
    let scheme = Scheme::Sv48;
    let root = new_table(&mut frames, &mut seat);
    let page = Va(0x200000).page();
    let leaf = Entry::leaf(FrameNo(9), Rights::READ, false, false, true);
    map(&mut frames, &mut seat, scheme, root, page, leaf);
    unmap(&mut frames, &mut seat, scheme, root, page);
    let before = frames.report().held;
    release_tables(&mut frames, &mut seat, scheme, root);
    Ok((before, frames.report().held))
}

#[test]
fn releases_what_was_made(rt: HostRuntime) {
    expect(&rt, 0, held_by_tables(rt.alloc()), Ok((5, 1)));
}
