// Tests that wrong heap sizes, mappings and unmappings are refused, that accesses and copies that a rule denies get that
// rule, and that a shrinking heap releases its frames: two stories (test cases), rows of an operation, its answer, and
// whether it changes nothing.

use crate::operation::Answer::{Copied, Done, Refused, Served, Short};
use crate::operation::Operation::{CopyIn, CopyOut, Grow, Map, Serve, Unmap};
use crate::operation::{Answer, Row};
use crate::stores::play_all;
use crate::stories::Story;
use fault_rules::Served::{Ended, Ready};
use process_model::Refusal::{BadArgument, BadSize, HoleInMapping, NoRoom};
use std::test::Fail;
use sv39_entry::Access;
use sv39_entry::Rule::{GuardPage, NoExec, NoFrame, NoRegion, NoWrite};
use user_copy::Stop::Denied;

/// How far the heap grows, in bytes.
const FAR: i64 = 1 << 37;

/// Addresses in pages of the heap. The page of `LOW` has its page tables from the start; those of `MIDDLE` and `HIGH` lack
/// two each, and that of `BESIDE` one.
const LOW: u64 = 0x5000;

const MIDDLE: u64 = 1 << 30;

const HIGH: u64 = 1 << 37;

const BESIDE: u64 = 1 << 21;

const READY: Answer = Served(Ready);

/// A fault at a page for which no frame is free.
const DRY: Row = (Serve(Access::Store, BESIDE), Served(Ended(NoFrame)), true);

/// The heap grows, and three of its pages take all seven frames. It shrinks to one byte, which releases the frames of two
/// pages and no page table, and grows again.
const HEAP: &[Row] = &[
    (Grow(-1), Refused(BadSize), true),
    (Grow(i64::MIN), Refused(BadSize), true),
    (Grow(FAR), Done, false),
    (Grow(FAR), Refused(NoRoom), true),
    (Serve(Access::Store, LOW), READY, false),
    (Serve(Access::Store, MIDDLE), READY, false),
    (Serve(Access::Store, HIGH), READY, false),
    (CopyOut(LOW, [1, 2, 3, 4]), Done, false),
    (CopyOut(HIGH, [5, 6, 7, 8]), Done, false),
    DRY,
    (Grow(1 - FAR), Done, false),
    (CopyIn(LOW), Copied(0x0403_0201), true),
    (CopyIn(HIGH), Short(Denied(NoRegion), 0, 0), true),
    (Grow(FAR - 1), Done, false),
    (Serve(Access::Store, HIGH), READY, false),
    (CopyIn(HIGH), Copied(0), true),
    DRY,
    (Serve(Access::Store, MIDDLE), READY, false),
];

/// The address of the mapping of three pages.
const FIRST: u64 = 0x3f_ffff_b000;

const BAD: Answer = Refused(BadArgument);

/// Mappings and unmappings that are refused, and accesses and copies that a rule denies.
const DENIED: &[Row] = &[
    (Map(0), BAD, true),
    (Map(0x10_0001), BAD, true),
    (Unmap(FIRST, 0x1000), BAD, true),
    (Map(0x3000), Done, false),
    (Unmap(FIRST + 1, 0x1000), BAD, true),
    (Unmap(FIRST, 0x3001), BAD, true),
    (Unmap(FIRST + 0x1000, 0x1000), Refused(HoleInMapping), true),
    (Serve(Access::Store, 0x0), Served(Ended(NoWrite)), true),
    (Serve(Access::Fetch, 0x1000), Served(Ended(NoExec)), true),
    (Serve(Access::Load, 0x3000), Served(Ended(GuardPage)), true),
    (CopyOut(0xffe, [1; 4]), Short(Denied(NoWrite), 0, 0), true),
    (CopyIn(0x2ffe), Short(Denied(GuardPage), 2, 0), true),
];

static STORIES: [Story; 2] = [
    Story {
        left: 7,
        sharers: 0,
        promises: None,
        rows: HEAP,
        free: 0,
    },
    Story {
        left: 0,
        sharers: 0,
        promises: None,
        rows: DENIED,
        free: 0,
    },
];

#[test]
fn refuses_what_cannot_be(rt: HostRuntime) -> Result<(), Fail> {
    play_all(&rt, rt.alloc(), &STORIES)
}
