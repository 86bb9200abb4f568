// Tests that `Machine` boots within its limits (`Boot`: a scheme, harts, frames, slots and the error); that `run` makes the
// steps of a list, of which there may be thousands, on two harts (`Move`: a step and its reply); and that a hart's TLB keeps
// entries by the policy.

use crate::images::FILE;
use crate::rows::expect;
use file_cabinet::Cabinet;
use hart_machine::{BootError, Machine};
use machine_laws::run_from_boot;
use process_model::Refusal::{BadArgument, Impossible, NoEntry};
use process_model::ScalarReply::{Done, Fault, Filled, InFrame, Refused, Started, Stored, Value};
use process_model::{Config, Image, Phase, Policy, Reply, ScalarReply, Step};
use std::alloc::{AllocError, Global};
use sv39_entry::Scheme;

const POLICIES: [Policy; 2] = [Policy::Full, Policy::Asid];

const SV39: Scheme = Scheme::Sv39;

const SV48: Scheme = Scheme::Sv48;

/// A scheme, the numbers of harts, frames and slots of a machine, and why it is not booted; `None`: it is.
type Boot = (Scheme, usize, usize, usize, Option<BootError>);

const BAD: Option<BootError> = Some(BootError::BadArgument);

/// The kernel takes a frame for each slot and six more, eight under Sv48; above 512 frames, one more still.
static BOOTS: [Boot; 28] = [
    (SV39, 1, 64, 4, None),
    (SV39, 8, 1024, 64, None),
    (SV39, 1, 16, 10, None),
    (SV39, 1, 64, 58, None),
    (SV39, 1, 512, 64, None),
    (SV39, 1, 513, 64, None),
    (SV39, 0, 64, 4, BAD),
    (SV39, 9, 64, 4, BAD),
    (SV39, 1, 15, 1, BAD),
    (SV39, 1, 1025, 4, BAD),
    (SV39, 1, 64, 0, BAD),
    (SV39, 1, 64, 65, BAD),
    (SV39, 1, 64, 59, BAD),
    (SV39, 1, 16, 11, BAD),
    (SV48, 1, 64, 4, None),
    (SV48, 8, 1024, 64, None),
    (SV48, 1, 16, 8, None),
    (SV48, 1, 64, 56, None),
    (SV48, 1, 512, 64, None),
    (SV48, 1, 513, 64, None),
    (SV48, 0, 64, 4, BAD),
    (SV48, 9, 64, 4, BAD),
    (SV48, 1, 15, 1, BAD),
    (SV48, 1, 1025, 4, BAD),
    (SV48, 1, 64, 0, BAD),
    (SV48, 1, 64, 65, BAD),
    (SV48, 1, 64, 57, BAD),
    (SV48, 1, 16, 9, BAD),
];

/// Why a machine is not booted; `None`: it is.
fn boot_error(alloc: Global, config: Config) -> Result<Option<BootError>, AllocError> {
    let files = Cabinet::new(alloc, &[])?;
    Ok(Machine::boot(alloc, config, files).err())
}

#[test]
fn boots_within_limits(rt: HostRuntime) {
    for number in 0..BOOTS.len() {
        let (scheme, harts, frames, slots, refusal) = BOOTS[number];
        for policy in POLICIES {
            let config = Config {
                harts,
                frames,
                slots,
                policy,
                scheme,
            };
            expect(&rt, number, boot_error(rt.alloc(), config), Ok(refusal));
        }
    }
}

/// A step, with the number of its hart first.
#[derive(Clone, Copy)]
enum Deed {
    /// A start of the ELF file: code in page 0, and the stack in page 2.
    Start,
    /// The hart, and the slot whose process is scheduled there.
    Switch(usize, usize),
    Next(usize),
    Trap(usize),
    /// The hart and the address.
    Fill(usize, u64),
    /// The hart and the entry.
    Evict(usize, usize),
    /// The hart and the address.
    Fetch(usize, u64),
    /// The hart, the address, the width, and the buffer entry that is used, if one is.
    Load(usize, u64, u64, Option<usize>),
    /// The hart, the address and the value, of eight bytes.
    Store(usize, u64, u64),
    /// The hart, and the offset in the trampoline's page.
    TrampolineFetch(usize, u64),
}

/// A step, and the reply that it must get.
type Move = (Deed, ScalarReply);

/// The next step of kernel entry or return, on hart 0 and on hart 1. Entry and return have three each.
const NEXT: Move = (Deed::Next(0), Done);

const NEXT_OF_1: Move = (Deed::Next(1), Done);

/// What a hart without a process replies.
const IDLE: ScalarReply = Refused(Impossible(Phase::Idle));

/// Two processes of one image, each on a hart of its own: each reads the pages of its own process at one address. Hart 0 faults
/// at a fetch, so it is before the first fence of kernel entry, and its buffer keeps its entry.
static ON_TWO_HARTS: [Move; 24] = [
    (Deed::Start, Started(0)),
    (Deed::Start, Started(1)),
    (Deed::Switch(0, 0), Done),
    (Deed::Switch(1, 0), IDLE),
    (Deed::Switch(1, 1), Done),
    NEXT,
    NEXT,
    NEXT,
    (Deed::Store(0, 0x2008, 0x1122_3344_5566_7788), Stored),
    (Deed::Load(0, 0x2008, 8, None), Value(0x1122_3344_5566_7788)),
    (Deed::Load(0, 0x2008, 4, None), Value(0x5566_7788)),
    (Deed::Fill(0, 0x2008), Filled(0)),
    (Deed::Load(0, 0x200c, 2, Some(0)), Value(0x3344)),
    (Deed::Fetch(0, 0x2000), Fault(12)),
    (
        Deed::Load(0, 0x2008, 4, None),
        Refused(Impossible(Phase::Enter0)),
    ),
    NEXT_OF_1,
    NEXT_OF_1,
    NEXT_OF_1,
    (Deed::Load(1, 0x0, 4, None), Value(0x513)),
    (Deed::Load(1, 0x2008, 8, None), Value(0)),
    (Deed::Trap(1), Done),
    (Deed::TrampolineFetch(1, 0), InFrame(0)),
    (Deed::Evict(1, 0), Refused(NoEntry)),
    (Deed::Next(2), Refused(BadArgument)),
];

/// A process starts, is scheduled and returns to user mode; its page is filled into the buffer; it traps into the kernel and
/// returns.
static THERE_AND_BACK: [Move; 13] = [
    (Deed::Start, Started(0)),
    (Deed::Switch(0, 0), Done),
    NEXT,
    NEXT,
    NEXT,
    (Deed::Fill(0, 0x2000), Filled(0)),
    (Deed::Trap(0), Done),
    NEXT,
    NEXT,
    NEXT,
    NEXT,
    NEXT,
    NEXT,
];

fn step_of(deed: Deed) -> Step<'static> {
    let via = None;
    match deed {
        Deed::Start => Step::Start(Image::Elf(FILE)),
        Deed::Switch(hart, slot) => Step::Switch {
            hart,
            slot: Some(slot),
        },
        Deed::Next(hart) => Step::Next { hart },
        Deed::Trap(hart) => Step::Trap { hart },
        Deed::Fill(hart, address) => Step::Fill { hart, address },
        Deed::Evict(hart, entry) => Step::Evict { hart, entry },
        Deed::Fetch(hart, address) => Step::Fetch { hart, address, via },
        Deed::Load(hart, address, width, via) => Step::Load {
            hart,
            address,
            width,
            via,
        },
        Deed::Store(hart, address, value) => Step::Store {
            hart,
            address,
            width: 8,
            value,
            via,
        },
        Deed::TrampolineFetch(hart, offset) => Step::TrampolineFetch { hart, offset, via },
    }
}

/// The number of entries of a buffer, and the page of the oldest.
type Buffered = (usize, Option<u64>);

/// The buffer with page 2, and without an entry.
const FILLED: Buffered = (1, Some(2));

const EMPTY: Buffered = (0, None);

/// A policy and a scheme, and what is in the buffer of hart 0 after `THERE_AND_BACK`. With policy `full` the fences empty it.
/// With ASIDs the entry stays, since no leaf of the process has changed.
static RUNS: [(Policy, Scheme, Buffered); 4] = [
    (Policy::Full, SV39, EMPTY),
    (Policy::Asid, SV39, FILLED),
    (Policy::Full, SV48, EMPTY),
    (Policy::Asid, SV48, FILLED),
];

/// The number of the first reply that is not that of its move, if the moves are made over and over; `None` if there is none.
fn first_wrong(replies: &[Reply], moves: &[Move]) -> Option<usize> {
    for number in 0..replies.len() {
        let Some((_, wanted)) = moves.get(number % moves.len().max(1)) else {
            return Some(number);
        };
        if replies[number] != Reply::Scalar(*wanted) {
            return Some(number);
        }
    }
    None
}

/// What is in a hart's buffer; `None` if there is no such hart.
fn buffered(machine: &Machine, hart: usize) -> Option<Buffered> {
    let buffer = machine.buffer(hart)?;
    match buffer.entry(0) {
        Some(entry) => Some((buffer.len(), Some(entry.page.number()))),
        None => Some((buffer.len(), None)),
    }
}

/// The number of replies, that of the first wrong one, and what is in the buffers of hart 0 and of a hart that does not exist.
type Outcome = (usize, Option<usize>, Option<Buffered>, Option<Buffered>);

/// Boots a machine and makes the steps of the moves, `times` times over, all at once.
fn outcome(
    alloc: Global,
    config: Config,
    moves: &[Move],
    times: usize,
) -> Result<Outcome, BootError> {
    let files = Cabinet::new(alloc, &[])?;
    let mut steps = Vec::new(alloc);
    for _ in 0..times {
        for number in 0..moves.len() {
            steps.push(step_of(moves[number].0))?;
        }
    }
    let (machine, replies) = run_from_boot(alloc, config, files, &steps)?;
    let wrong = first_wrong(&replies, moves);
    Ok((
        replies.len(),
        wrong,
        buffered(&machine, 0),
        buffered(&machine, 9),
    ))
}

/// What a machine of 64 frames and four slots boots with.
fn config(harts: usize, policy: Policy, scheme: Scheme) -> Config {
    Config {
        harts,
        frames: 64,
        slots: 4,
        policy,
        scheme,
    }
}

#[test]
fn runs_lists_of_steps(rt: HostRuntime) {
    for number in 0..RUNS.len() {
        let (policy, scheme, left) = RUNS[number];
        let (two, one) = (config(2, policy, scheme), config(1, policy, scheme));
        let told = outcome(rt.alloc(), two, &ON_TWO_HARTS, 1);
        expect(&rt, number, told, Ok((24, None, Some(FILLED), None)));
        let told = outcome(rt.alloc(), one, &THERE_AND_BACK, 1);
        expect(&rt, number, told, Ok((13, None, Some(left), None)));
    }
}

/// A step on an idle hart.
static REFUSED: [Move; 1] = [(Deed::Next(0), IDLE)];

#[test]
fn runs_thousands_of_steps(rt: HostRuntime) {
    let config = config(2, Policy::Full, SV48);
    let told = outcome(rt.alloc(), config, &REFUSED, 5_000);
    expect(&rt, 0, told, Ok((5_000, None, Some(EMPTY), None)));
}
