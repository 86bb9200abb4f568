// Tests that a served fault, both kernel copies, munmap and exec are refused if the file refuses a promise (a reservation of
// page I/O), keep what was copied before but change nothing else, and succeed when they are repeated if frames are free.
// Each is a story (test case): four rows of an operation and its answer.

use crate::operation::Answer::{Copied, Done, Refused, Served, Short};
use crate::operation::Operation::{CopyIn, CopyOut, Exec, Map, Serve, Unmap};
use crate::operation::{Answer, Operation, Row};
use crate::stores::play_all;
use crate::stories::Story;
use fault_rules::Served::{Ready, Unserved};
use process_model::Refusal::{Memory, NoFrame};
use std::test::Fail;
use sv39_entry::Access;
use user_copy::Stop::Unpromised;

/// The addresses of the two pages of the mapping.
const FIRST: u64 = 0x3f_ffff_c000;

const SECOND: u64 = 0x3f_ffff_d000;

const MAPPED: Row = (Map(0x2000), Done, false);

const SERVE: Operation = Serve(Access::Store, FIRST);

/// Copies across the end of the first page.
const COPY_IN: Operation = CopyIn(SECOND - 2);

const COPY_OUT: Operation = CopyOut(SECOND - 2, [1, 2, 3, 4]);

const WRITTEN: Row = (COPY_OUT, Done, false);

const ALL: Operation = Unmap(FIRST, 0x2000);

const BACK: Operation = Unmap(SECOND, 0x1000);

const NO: Answer = Refused(Memory);

/// In the last story exec's promise is refused, and no frame is free either: the promise is asked for first.
static STORIES: [Story; 9] = [
    Story {
        left: 12,
        sharers: 0,
        promises: Some(0),
        rows: &[
            MAPPED,
            (SERVE, Served(Unserved(Memory)), true),
            (SERVE, Served(Ready), false),
            (SERVE, Served(Ready), true),
        ],
        free: 11,
    },
    Story {
        left: 12,
        sharers: 0,
        promises: Some(0),
        rows: &[
            MAPPED,
            (COPY_OUT, Short(Unpromised(Memory), 0, 0), true),
            WRITTEN,
            (COPY_IN, Copied(0x0403_0201), true),
        ],
        free: 10,
    },
    Story {
        left: 12,
        sharers: 0,
        promises: Some(1),
        rows: &[
            MAPPED,
            (COPY_OUT, Short(Unpromised(Memory), 2, 0), false),
            (COPY_IN, Copied(0x0201), false),
            WRITTEN,
        ],
        free: 10,
    },
    Story {
        left: 12,
        sharers: 0,
        promises: Some(1),
        rows: &[
            MAPPED,
            (COPY_IN, Short(Unpromised(Memory), 2, 0x0707), false),
            (COPY_IN, Copied(0x0707), false),
            WRITTEN,
        ],
        free: 10,
    },
    Story {
        left: 12,
        sharers: 0,
        promises: Some(2),
        rows: &[MAPPED, WRITTEN, (ALL, NO, true), (ALL, Done, false)],
        free: 12,
    },
    Story {
        left: 12,
        sharers: 0,
        promises: Some(3),
        rows: &[
            MAPPED,
            WRITTEN,
            (Unmap(FIRST, 0x1000), Done, false),
            (BACK, NO, true),
        ],
        free: 11,
    },
    Story {
        left: 12,
        sharers: 0,
        promises: Some(2),
        rows: &[MAPPED, WRITTEN, (Exec(0), NO, true), (Exec(0), Done, false)],
        free: 12,
    },
    Story {
        left: 12,
        sharers: 0,
        promises: Some(2),
        rows: &[MAPPED, WRITTEN, (Exec(1), NO, true), (Exec(1), Done, false)],
        free: 14,
    },
    Story {
        left: 2,
        sharers: 0,
        promises: Some(2),
        rows: &[
            MAPPED,
            WRITTEN,
            (Exec(0), NO, true),
            (Exec(0), Refused(NoFrame), true),
        ],
        free: 0,
    },
];

#[test]
fn changes_nothing_without_a_promise(rt: HostRuntime) -> Result<(), Fail> {
    play_all(&rt, rt.alloc(), &STORIES)
}
