// Tests that fork, exec and served faults are refused and change nothing with each number of free frames below their need,
// and succeed with exactly their need (`Case`: an operation, its answers and its need); that a kernel copy stops at the
// first page for which no frame is free; and that fork is refused at 65,535 references of frame 0.

use crate::operation::Answer::{Copied, Done, Refused, Served, Short};
use crate::operation::Operation::{CopyIn, CopyOut, Exec, Fork, Grow, Map, Serve};
use crate::operation::{Answer, Operation, Row};
use crate::stores::{play, play_all};
use crate::stories::Story;
use fault_rules::Served::{Ended, Ready};
use process_model::Refusal::{NoFrame, SharersFull};
use std::test::Fail;
use sv39_entry::{Access, Rule};
use user_copy::Stop::Denied;

/// An operation after two rows: the number of frames that these take, the number that it needs, and the number of frames that
/// are free after it, if just its need was: those of the process that exec replaces. Then all rows, if too few frames are
/// free, and if enough are.
type Case = (usize, usize, usize, &'static [Row], &'static [Row]);

/// Grows the heap by 1 GiB.
const GROWN: Row = (Grow(0x4000_0000), Done, false);

/// A copy of two bytes to the end of page 1, and of two to the beginning of page 2.
const ACROSS: Operation = CopyOut(0x1ffe, [1, 2, 3, 4]);

const COPIED: Row = (ACROSS, Done, false);

/// Maps a page, and writes to it.
const MAPPED: Row = (Map(0x1000), Done, false);

const WRITTEN: Row = (CopyOut(0x3f_ffff_d000, [1, 2, 3, 4]), Done, false);

/// The answers if no frame is free, and that to a fault that is served.
const DRY: Answer = Refused(NoFrame);

const ENDS: Answer = Served(Ended(Rule::NoFrame));

const READY: Answer = Served(Ready);

/// Faults at pages of the heap, which lack no page table, one and two.
const NEAR: Operation = Serve(Access::Store, 0x5000);

const MIDDLE: Operation = Serve(Access::Store, 0x20_0000);

const FAR: Operation = Serve(Access::Store, 0x4000_0000);

/// A fork takes a trapframe and five page tables. The images have five pages and three, with five page tables each. The
/// process that exec replaces has five pages, five page tables and the page of its mapping, which is not written back before
/// all frames are reserved.
static CASES: [Case; 6] = [
    (
        1,
        6,
        0,
        &[MAPPED, WRITTEN, (Fork, DRY, true)],
        &[MAPPED, WRITTEN, (Fork, Done, false)],
    ),
    (
        1,
        10,
        11,
        &[MAPPED, WRITTEN, (Exec(0), DRY, true)],
        &[MAPPED, WRITTEN, (Exec(0), Done, false)],
    ),
    (
        1,
        8,
        11,
        &[MAPPED, WRITTEN, (Exec(1), DRY, true)],
        &[MAPPED, WRITTEN, (Exec(1), Done, false)],
    ),
    (
        0,
        1,
        0,
        &[COPIED, GROWN, (NEAR, ENDS, true)],
        &[COPIED, GROWN, (NEAR, READY, false)],
    ),
    (
        0,
        2,
        0,
        &[COPIED, GROWN, (MIDDLE, ENDS, true)],
        &[COPIED, GROWN, (MIDDLE, READY, false)],
    ),
    (
        0,
        3,
        0,
        &[COPIED, GROWN, (FAR, ENDS, true)],
        &[COPIED, GROWN, (FAR, READY, false)],
    ),
];

/// The story of a case with `left` frames beside those that its first rows take, at most its need.
fn story_of(case: Case, left: usize) -> Story {
    let (taken, need, back, dry, enough) = case;
    let (rows, free) = if left < need {
        (dry, left)
    } else {
        (enough, back)
    };
    Story {
        left: taken.saturating_add(left),
        sharers: 0,
        promises: None,
        rows,
        free,
    }
}

#[test]
fn refuses_below_the_need(rt: HostRuntime) -> Result<(), Fail> {
    for number in 0..CASES.len() {
        let case = CASES[number];
        for left in 0..=case.1 {
            play(&rt, rt.alloc(), number, &story_of(case, left))?;
        }
    }
    Ok(())
}

/// A fork, which takes six frames. The child shares the pages of the data.
const FORKED: Row = (Fork, Done, false);

const READ: Operation = CopyIn(0x1ffe);

const TO_FIRST: Operation = CopyOut(0x1000, [5; 4]);

const TO_SECOND: Operation = CopyOut(0x2000, [6; 4]);

/// A copy that stops after so many bytes.
const NONE_COPIED: Answer = Short(Denied(Rule::NoFrame), 0, 0);

const TWO_COPIED: Answer = Short(Denied(Rule::NoFrame), 2, 0);

/// With no free frame nothing is copied, with one the two bytes in page 1, with two all four; then only the pages that got a
/// frame can be written without another one.
static COPIES: [Story; 3] = [
    Story {
        left: 6,
        sharers: 0,
        promises: None,
        rows: &[
            FORKED,
            (ACROSS, NONE_COPIED, true),
            (READ, Copied(0), true),
            (TO_SECOND, NONE_COPIED, true),
            (TO_FIRST, NONE_COPIED, true),
        ],
        free: 0,
    },
    Story {
        left: 7,
        sharers: 0,
        promises: None,
        rows: &[
            FORKED,
            (ACROSS, TWO_COPIED, false),
            (READ, Copied(0x0201), true),
            (TO_SECOND, NONE_COPIED, true),
            (TO_FIRST, Done, false),
        ],
        free: 0,
    },
    Story {
        left: 8,
        sharers: 0,
        promises: None,
        rows: &[
            FORKED,
            (ACROSS, Done, false),
            (READ, Copied(0x0403_0201), true),
            (TO_SECOND, Done, false),
            (TO_FIRST, Done, false),
        ],
        free: 0,
    },
];

#[test]
fn copies_to_pages_that_get_frames(rt: HostRuntime) -> Result<(), Fail> {
    play_all(&rt, rt.alloc(), &COPIES)
}

/// The keeper and the process have one reference of frame 0 each, beside those of the sharers; the child needs one more, and
/// 65,535 is the most.
static SHARERS: [Story; 2] = [
    Story {
        left: 6,
        sharers: 65_532,
        promises: None,
        rows: &[COPIED, FORKED],
        free: 0,
    },
    Story {
        left: 6,
        sharers: 65_533,
        promises: None,
        rows: &[COPIED, (Fork, Refused(SharersFull), true)],
        free: 6,
    },
];

#[test]
fn forks_while_frame_zero_can_be_shared(rt: HostRuntime) -> Result<(), Fail> {
    play_all(&rt, rt.alloc(), &SHARERS)
}
