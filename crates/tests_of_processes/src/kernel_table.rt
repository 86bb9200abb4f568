// Tests that `KernelTable`, xv6's `kvmmake`, leads addresses to the right frames (`Row`: an access, an address and its walk)
// over both frame stores, and maps each slot's kernel stack (slot: a place in the process table); and, if too few frames are
// free, returns its seat.

ghost use Rattle.std.specs.Prelude.{◌≤◌, IfErr, IfOk};
ghost use Rattle.address_space.specs.Agreement.{HoldsTrampoline};
ghost use Rattle.frame_store.specs.Laws.{IsSeatOf, KeepsSeats};

use crate::rows::expect;
use address_space::KernelTable;
use frame_store::{FrameAccess, FrameSeat, FrameSupply, NoFrame, PlainFrames};
use shared_frames::SharedFrames;
use std::alloc::{AllocError, Global};
use std::sync::Wait;
use sv39_entry::{Access, Scheme, Va};
use table_walk::Walk;

/// An access to an address, and the outcome of its walk; `None`: it is a leaf, of another frame than that of the row before.
type Row = (Access, u64, Option<Walk>);

/// The outcomes of walks that end at a leaf of level 0: at byte 8 of frame 5, at the last eight bytes of frame 63, and at the
/// first and the second instruction in frame 0, that of the trampoline.
const AT_FRAME_5: Option<Walk> = Some(Walk::Leaf {
    word: 0x200014c7,
    level: 0,
    address: 0x80005008,
});

const AT_FRAME_63: Option<Walk> = Some(Walk::Leaf {
    word: 0x2000fcc7,
    level: 0,
    address: 0x8003fff8,
});

const AT_FRAME_0: Option<Walk> = Some(Walk::Leaf {
    word: 0x2000004b,
    level: 0,
    address: 0x80000000,
});

const IN_TRAMPOLINE: Option<Walk> = Some(Walk::Leaf {
    word: 0x2000004b,
    level: 0,
    address: 0x80000004,
});

const FETCH: Access = Access::Fetch;

const LOAD: Access = Access::Load;

const STORE: Access = Access::Store;

const NO_LOAD: Option<Walk> = Some(Walk::PageFault(13));

const NO_FETCH: Option<Walk> = Some(Walk::PageFault(12));

const NO_STORE: Option<Walk> = Some(Walk::PageFault(15));

/// For 64 frames and four stacks. The last address is not canonical in Sv39.
const IN_SV39: &[Row] = &[
    (LOAD, 0x80005008, AT_FRAME_5),
    (STORE, 0x80005008, AT_FRAME_5),
    (FETCH, 0x80005008, NO_FETCH),
    (LOAD, 0x8003fff8, AT_FRAME_63),
    (LOAD, 0x80040000, NO_LOAD),
    (LOAD, 0x7ffffff8, NO_LOAD),
    (FETCH, 0x80000000, AT_FRAME_0),
    (STORE, 0x80000000, NO_STORE),
    (FETCH, 0x3ffffff004, IN_TRAMPOLINE),
    (LOAD, 0x3fffffe000, NO_LOAD),
    (LOAD, 0x3fffffc000, NO_LOAD),
    (LOAD, 0x3fffff5000, NO_LOAD),
    (STORE, 0x3fffffd000, None),
    (STORE, 0x3fffffb000, None),
    (STORE, 0x3fffff9000, None),
    (STORE, 0x3fffff7000, None),
    (LOAD, 0xffffffff80005008, NO_LOAD),
    (LOAD, 0x8080005008, NO_LOAD),
];

/// The last address is canonical in Sv48, and another than that of frame 5.
const IN_SV48: &[Row] = &[
    (LOAD, 0x80005008, AT_FRAME_5),
    (STORE, 0x80005008, AT_FRAME_5),
    (FETCH, 0x80005008, NO_FETCH),
    (LOAD, 0x8003fff8, AT_FRAME_63),
    (LOAD, 0x80040000, NO_LOAD),
    (LOAD, 0x7ffffff8, NO_LOAD),
    (FETCH, 0x80000000, AT_FRAME_0),
    (STORE, 0x80000000, NO_STORE),
    (FETCH, 0x7ffffffff004, IN_TRAMPOLINE),
    (LOAD, 0x7fffffffe000, NO_LOAD),
    (LOAD, 0x7fffffffc000, NO_LOAD),
    (LOAD, 0x7fffffff5000, NO_LOAD),
    (STORE, 0x7fffffffd000, None),
    (STORE, 0x7fffffffb000, None),
    (STORE, 0x7fffffff9000, None),
    (STORE, 0x7fffffff7000, None),
    (LOAD, 0xffffffff80005008, NO_LOAD),
    (LOAD, 0x8080005008, NO_LOAD),
];

/// The physical address that a walk leads to; `None`: it faults.
fn place(walk: Walk) -> Option<u64> {
    match walk {
        Walk::Leaf { address, .. } => Some(address),
        _ => None,
    }
}

/// Whether a walk has the outcome of a row, after one that led to the address `before`.
fn is_right(walk: Walk, outcome: Option<Walk>, before: Option<u64>) -> bool {
    match outcome {
        Some(outcome) => walk == outcome,
        None => place(walk).is_some() && place(walk) != before,
    }
}

/// Builds the table for 64 frames and four stacks. Returns the first row whose walk has another outcome, and the table's
/// seat; `NoFrame` with the seat if too few frames are free.
fn first_wrong<S: FrameSeat, F: FrameSupply<Seat = S>>(
    store: &mut F,
    seat: S,
    scheme: Scheme,
    rows: &[Row],
) -> Result<(Option<Row>, S), (NoFrame, S)>
    requires fits { IsSeatOf F.invariant store.old seat }
    requires opening { HoldsTrampoline (S.view seat) }
    ensures keeps { IfOk result (λ r. KeepsSeats F.invariant store.old seat store.new r.1) }
    ensures keeps_dry { IfErr result (λ e. KeepsSeats F.invariant store.old seat store.new e.1) }
{
    let mut kernel = KernelTable::build(store, seat, scheme, 64, 4)?;
    let mut before = None;
    for row in rows {
        let (access, address, outcome) = *row;
        let walk = kernel.translate(store, Va(address), access);
        if !is_right(walk, outcome, before) {
            return Ok((Some(*row), kernel.seat));
        }
        before = place(walk);
    }
    Ok((None, kernel.seat))
}

/// The first wrong row, or `NoFrame` if the table could not be built; and the number of free frames then.
type Checked = (Result<Option<Row>, NoFrame>, usize);

fn over_plain(alloc: Global, scheme: Scheme, rows: &[Row]) -> Result<Checked, AllocError> {
    let (mut store, seat) = PlainFrames::new(alloc, 64)?;
    let wrong = match first_wrong(&mut store, seat, scheme, rows) {
        Ok((wrong, _)) => Ok(wrong),
        Err((refusal, _)) => Err(refusal),
    };
    Ok((wrong, store.report().free))
}

fn over_shared<R: Wait>(
    rt: &R,
    alloc: Global,
    scheme: Scheme,
    rows: &[Row],
) -> Result<Checked, AllocError> {
    let (frames, seat) = SharedFrames::new(alloc, 64)?;
    let mut supply = frames.supply(rt);
    let (wrong, seat) = match first_wrong(&mut supply, seat, scheme, rows) {
        Ok((wrong, seat)) => (Ok(wrong), seat),
        Err((refusal, seat)) => (Err(refusal), seat),
    };
    Ok((wrong, frames.close(seat).free))
}

const SV39: Scheme = Scheme::Sv39;

const SV48: Scheme = Scheme::Sv48;

/// A scheme, its rows, and the number of frames that the table leaves free.
static TABLES: [(Scheme, &'static [Row], usize); 2] = [(SV39, IN_SV39, 54), (SV48, IN_SV48, 52)];

#[test]
fn maps_alike_over_both_stores(rt: HostRuntime) {
    for number in 0..TABLES.len() {
        let (scheme, rows, free) = TABLES[number];
        let plain = over_plain(rt.alloc(), scheme, rows);
        expect(&rt, number, plain, Ok((Ok(None), free)));
        let shared = over_shared(&rt, rt.alloc(), scheme, rows);
        expect(&rt, number, shared, Ok((Ok(None), free)));
    }
}

/// Numbers of free frames, held frames and references, after a refusal.
type Accounts = (usize, usize, usize);

/// Builds a table that lacks one frame, with a stack more than there is room for in 16 frames, and then with the same seat one
/// of `slots` stacks. Returns the refusal, the accounts after it, and the number of free frames in the end; `None` if the first
/// is not refused or the second is.
fn built_after_refusal(
    alloc: Global,
    scheme: Scheme,
    slots: u16,
) -> Result<Option<(NoFrame, Accounts, usize)>, AllocError>
    requires some { 1 ≤ slots }
    requires few { slots ≤ 63 }
{
    let (mut store, seat) = PlainFrames::new(alloc, 16)?;
    let Err((refusal, seat)) = KernelTable::build(&mut store, seat, scheme, 16, slots + 1) else {
        return Ok(None);
    };
    let report = store.report();
    match KernelTable::build(&mut store, seat, scheme, 16, slots) {
        Ok(_) => Ok(Some((
            refusal,
            (report.free, report.held, report.references),
            store.report().free,
        ))),
        Err(_) => Ok(None),
    }
}

#[test]
fn gives_the_seat_back(rt: HostRuntime) {
    let wanted = Ok(Some((NoFrame, (15, 1, 1), 0)));
    expect(&rt, 0, built_after_refusal(rt.alloc(), SV39, 10), wanted);
    expect(&rt, 1, built_after_refusal(rt.alloc(), SV48, 8), wanted);
}
