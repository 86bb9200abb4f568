// The stories (test cases) of one process, each over plain frames and over shared frames: rows of an operation and its reply.
// What is stored to a page of data is kept while a page of the heap is brought into memory, or is refused for want of a frame;
// unmapping gives a frame back; write-back writes the stored pages of shared mappings to their place in the file, and keeps them
// in memory; munmap, write-back and the service of a fault change nothing if the files refuse a promise (a reservation of page
// I/O), and succeed when they are repeated.
//
// Under Sv39 frame 0, the trapframe, the page of data and five page tables are taken, 8 frames; under Sv48 two more.

use crate::operation::Operation::{Grow, Look, Map, Serve, Touch, Unmap, WriteBack};
use crate::operation::Row;
use crate::stores::{Story, play};
use process_model::Refusal::Memory;
use process_model::ScalarReply::{
    Done, Ended, Fault, MappedAt, OldSize, Ready, Refused, Stored, Value,
};
use std::test::Fail;
use sv39_entry::Rule::NoFrame;
use sv39_entry::{Access, Scheme};

const SV39: Scheme = Scheme::Sv39;

const SV48: Scheme = Scheme::Sv48;

const LOAD: Access = Access::Load;

const STORE: Access = Access::Store;

/// What is stored to the page of data, before the far page is to be settled (`NEAR`) and after (`AGAIN`), and to the far page
/// (`FAR`).
const NEAR: u64 = 0x0123_4567_89ab_cdef;

const AGAIN: u64 = 0x1122_3344_5566_7788;

const FAR: u64 = 0xfedc_ba98_7654_3210;

const NEAR_STORED: Row = (Touch(STORE, 0x0, 8, NEAR), Stored);

const NEAR_LOADED: Row = (Touch(LOAD, 0x0, 8, 0), Value(NEAR));

const AGAIN_STORED: Row = (Touch(STORE, 0x0, 8, AGAIN), Stored);

const AGAIN_LOADED: Row = (Touch(LOAD, 0x0, 8, 0), Value(AGAIN));

/// The address of page 5, whose page tables serve the page of data too; of page 2^26, which lacks two page tables; and of page
/// 2^27, past the last page of Sv39, which lacks three.
const BESIDE: u64 = 0x5000;

const MIDDLE: u64 = 1 << 38;

const HIGH: u64 = 1 << 39;

/// A far page is refused. It lacks a leaf then, so a load faults (RISC-V Privileged Architecture 20211203, 4.1.8).
const BESIDE_REFUSED: &[Row] = &[
    NEAR_STORED,
    NEAR_LOADED,
    (Grow(0x5000), OldSize(0x1000)),
    (Serve(STORE, BESIDE), Ended(NoFrame)),
    NEAR_LOADED,
    AGAIN_STORED,
    AGAIN_LOADED,
    (Touch(LOAD, BESIDE, 8, 0), Fault(13)),
];

/// A far page is settled, loaded from and stored to; and the heap shrinks, which releases it.
const BESIDE_SETTLED: &[Row] = &[
    NEAR_STORED,
    NEAR_LOADED,
    (Grow(0x5000), OldSize(0x1000)),
    (Serve(STORE, BESIDE), Ready),
    NEAR_LOADED,
    AGAIN_STORED,
    AGAIN_LOADED,
    (Touch(LOAD, BESIDE, 8, 0), Value(0)),
    (Touch(STORE, BESIDE, 8, FAR), Stored),
    (Touch(LOAD, BESIDE, 8, 0), Value(FAR)),
    (Grow(-0x1000), OldSize(0x6000)),
    (Touch(LOAD, BESIDE, 8, 0), Fault(13)),
    AGAIN_LOADED,
];

const MIDDLE_REFUSED: &[Row] = &[
    NEAR_STORED,
    NEAR_LOADED,
    (Grow(1 << 38), OldSize(0x1000)),
    (Serve(STORE, MIDDLE), Ended(NoFrame)),
    NEAR_LOADED,
    AGAIN_STORED,
    AGAIN_LOADED,
    (Touch(LOAD, MIDDLE, 8, 0), Fault(13)),
];

const MIDDLE_SETTLED: &[Row] = &[
    NEAR_STORED,
    NEAR_LOADED,
    (Grow(1 << 38), OldSize(0x1000)),
    (Serve(STORE, MIDDLE), Ready),
    NEAR_LOADED,
    AGAIN_STORED,
    AGAIN_LOADED,
    (Touch(LOAD, MIDDLE, 8, 0), Value(0)),
    (Touch(STORE, MIDDLE, 8, FAR), Stored),
    (Touch(LOAD, MIDDLE, 8, 0), Value(FAR)),
    (Grow(-0x1000), OldSize((1 << 38) + 0x1000)),
    (Touch(LOAD, MIDDLE, 8, 0), Fault(13)),
    AGAIN_LOADED,
];

const HIGH_REFUSED: &[Row] = &[
    NEAR_STORED,
    NEAR_LOADED,
    (Grow(1 << 39), OldSize(0x1000)),
    (Serve(STORE, HIGH), Ended(NoFrame)),
    NEAR_LOADED,
    AGAIN_STORED,
    AGAIN_LOADED,
    (Touch(LOAD, HIGH, 8, 0), Fault(13)),
];

const HIGH_SETTLED: &[Row] = &[
    NEAR_STORED,
    NEAR_LOADED,
    (Grow(1 << 39), OldSize(0x1000)),
    (Serve(STORE, HIGH), Ready),
    NEAR_LOADED,
    AGAIN_STORED,
    AGAIN_LOADED,
    (Touch(LOAD, HIGH, 8, 0), Value(0)),
    (Touch(STORE, HIGH, 8, FAR), Stored),
    (Touch(LOAD, HIGH, 8, 0), Value(FAR)),
    (Grow(-0x1000), OldSize((1 << 39) + 0x1000)),
    (Touch(LOAD, HIGH, 8, 0), Fault(13)),
    AGAIN_LOADED,
];

/// One frame is free. The page tables of the process serve the mapping too.
const FRAME_GIVEN_BACK: &[Row] = &[
    (Map(8_192, 1, 2, 0), MappedAt(0x3fffffc000)),
    (Serve(LOAD, 0x3fffffc000), Ready),
    (Serve(LOAD, 0x3fffffd000), Ended(NoFrame)),
    (Unmap(0x3fffffc000, 4_096), Done),
    (Serve(LOAD, 0x3fffffd000), Ready),
];

/// File 0 has 5,000 bytes, 904 (0x388) of them in the second page.
const TO_THE_END: &[Row] = &[
    (Map(6_000, 3, 1, 0), MappedAt(0x3fffffc000)),
    (Serve(STORE, 0x3fffffc000), Ready),
    (Serve(STORE, 0x3fffffd000), Ready),
    (
        Touch(LOAD, 0x3fffffcff8, 8, 0),
        Value(0x0f0f_0f0f_0f0f_0f0f),
    ),
    (
        Touch(LOAD, 0x3fffffd000, 8, 0),
        Value(0x1010_1010_1010_1010),
    ),
    (
        Touch(LOAD, 0x3fffffd380, 8, 0),
        Value(0x1313_1313_1313_1313),
    ),
    (Touch(LOAD, 0x3fffffd388, 8, 0), Value(0)),
    (Touch(STORE, 0x3fffffd384, 4, 0xa1a2_a3a4), Stored),
    (Touch(STORE, 0x3fffffd388, 4, 0xb1b2_b3b4), Stored),
    (
        Touch(LOAD, 0x3fffffd380, 8, 0),
        Value(0xa1a2_a3a4_1313_1313),
    ),
    (Touch(LOAD, 0x3fffffd388, 8, 0), Value(0xb1b2_b3b4)),
    (Look(0, 4_992), Value(0x1313_1313_1313_1313)),
    (Unmap(0x3fffffc000, 6_000), Done),
    (Look(0, 4_992), Value(0xa1a2_a3a4_1313_1313)),
    (Look(0, 5_000), Value(0)),
    (Touch(LOAD, 0x3fffffd380, 8, 0), Fault(13)),
];

/// Of three pages the first is unmapped, then the last; the middle one has the bytes of file 2 from offset 4,096 on.
const PLACES: &[Row] = &[
    (Map(12_288, 3, 1, 2), MappedAt(0x3fffffb000)),
    (Unmap(0x3fffffb000, 4_096), Done),
    (Unmap(0x3fffffd000, 4_096), Done),
    (Serve(STORE, 0x3fffffc000), Ready),
    (
        Touch(LOAD, 0x3fffffc000, 8, 0),
        Value(0x9090_9090_9090_9090),
    ),
    (Touch(STORE, 0x3fffffc000, 2, 0xc1c2), Stored),
    (Unmap(0x3fffffc000, 4_096), Done),
];

const ONLY_LOADED: &[Row] = &[
    (Map(4_096, 3, 1, 0), MappedAt(0x3fffffd000)),
    (Map(4_096, 3, 1, 0), MappedAt(0x3fffffc000)),
    (Map(4_096, 3, 2, 0), MappedAt(0x3fffffb000)),
    (Serve(LOAD, 0x3fffffd000), Ready),
    (Serve(STORE, 0x3fffffc000), Ready),
    (Serve(STORE, 0x3fffffb000), Ready),
    // a store page fault: this page of a writable shared mapping was loaded from, and lacks the dirty mark
    (Touch(STORE, 0x3fffffd000, 8, 1), Fault(15)),
    (Touch(STORE, 0x3fffffc100, 2, 0x0202), Stored),
    (Touch(STORE, 0x3fffffb200, 2, 0x0303), Stored),
    (Unmap(0x3fffffc000, 4_096), Done),
    (Look(0, 0x100), Value(0x0101_0101_0101_0202)),
    // the page that was only loaded from has the bytes that the file had; the private page has its own
    (
        Touch(LOAD, 0x3fffffd100, 8, 0),
        Value(0x0101_0101_0101_0101),
    ),
    (
        Touch(LOAD, 0x3fffffb200, 8, 0),
        Value(0x0202_0202_0202_0303),
    ),
    (WriteBack, Done),
    (Unmap(0x3fffffd000, 4_096), Done),
    (Unmap(0x3fffffb000, 4_096), Done),
];

/// File 2 has 10,003 bytes, 1,811 (0x713) of them in the third page.
const ALL_MAPPINGS: &[Row] = &[
    (Map(5_000, 3, 1, 0), MappedAt(0x3fffffc000)),
    (Map(10_003, 3, 1, 2), MappedAt(0x3fffff9000)),
    (Serve(STORE, 0x3fffffd000), Ready),
    (Serve(STORE, 0x3fffff9000), Ready),
    (Serve(STORE, 0x3fffffb000), Ready),
    (Touch(STORE, 0x3fffffd000, 1, 0xd1), Stored),
    (Touch(STORE, 0x3fffff9fff, 1, 0xe1), Stored),
    (Touch(LOAD, 0x3fffffb710, 8, 0), Value(0xa7a7a7)),
    (Touch(STORE, 0x3fffffb710, 8, 0xf1f2_f3f4_f5f6_f7f8), Stored),
    (WriteBack, Done),
    (Look(0, 4_096), Value(0x1010_1010_1010_10d1)),
    (Look(2, 10_000), Value(0xf6f7f8)),
    // the pages stay settled, with their dirty marks
    (
        Touch(LOAD, 0x3fffffb710, 8, 0),
        Value(0xf1f2_f3f4_f5f6_f7f8),
    ),
    (Touch(STORE, 0x3fffffd001, 1, 0xd2), Stored),
    (Look(0, 4_096), Value(0x1010_1010_1010_10d1)),
    (Unmap(0x3fffffd000, 4_096), Done),
    (Look(0, 4_096), Value(0x1010_1010_1010_d2d1)),
    (Unmap(0x3fffff9000, 10_003), Done),
    (Unmap(0x3fffffc000, 1), Done),
];

/// Maps two pages of file 2 shared, and stores a byte to each, which takes two promises. The stories below begin so.
const MAPPED: Row = (Map(8_192, 3, 1, 2), MappedAt(0x3fffffc000));

const FIRST_READY: Row = (Serve(STORE, 0x3fffffc000), Ready);

const SECOND_READY: Row = (Serve(STORE, 0x3fffffd000), Ready);

const FIRST_STORED: Row = (Touch(STORE, 0x3fffffc000, 1, 0xc1), Stored);

const SECOND_STORED: Row = (Touch(STORE, 0x3fffffd000, 1, 0xd1), Stored);

const SECOND_LOADED: Row = (Touch(LOAD, 0x3fffffd000, 1, 0), Value(0xd1));

/// The munmap of the whole mapping is refused.
const UNMAPS_ALL: &[Row] = &[
    MAPPED,
    FIRST_READY,
    SECOND_READY,
    FIRST_STORED,
    SECOND_STORED,
    (Unmap(0x3fffffc000, 8_192), Refused(Memory)),
    (Look(2, 0), Value(0x8080_8080_8080_8080)),
    (Look(2, 4_096), Value(0x9090_9090_9090_9090)),
    (Touch(LOAD, 0x3fffffc000, 1, 0), Value(0xc1)),
    SECOND_LOADED,
    (Unmap(0x3fffffc000, 8_192), Done),
    (Touch(LOAD, 0x3fffffc000, 1, 0), Fault(13)),
    (Touch(LOAD, 0x3fffffd000, 1, 0), Fault(13)),
];

/// With one promise more, that of its second page alone is.
const UNMAPS_SECOND: &[Row] = &[
    MAPPED,
    FIRST_READY,
    SECOND_READY,
    FIRST_STORED,
    SECOND_STORED,
    (Unmap(0x3fffffc000, 4_096), Done),
    (Unmap(0x3fffffd000, 4_096), Refused(Memory)),
    (Look(2, 4_096), Value(0x9090_9090_9090_9090)),
    SECOND_LOADED,
    (Unmap(0x3fffffd000, 4_096), Done),
    (Look(2, 4_096), Value(0x9090_9090_9090_90d1)),
    (Touch(LOAD, 0x3fffffd000, 1, 0), Fault(13)),
];

const WRITES: &[Row] = &[
    MAPPED,
    FIRST_READY,
    SECOND_READY,
    FIRST_STORED,
    SECOND_STORED,
    (WriteBack, Refused(Memory)),
    (Look(2, 0), Value(0x8080_8080_8080_8080)),
    SECOND_LOADED,
    (Touch(STORE, 0x3fffffc001, 1, 0xc2), Stored),
    (WriteBack, Done),
];

/// No frame is taken without a promise.
const UNSERVED: &[Row] = &[
    (Map(4_096, 3, 1, 2), MappedAt(0x3fffffd000)),
    (Serve(STORE, 0x3fffffd000), Refused(Memory)),
    (Touch(LOAD, 0x3fffffd000, 8, 0), Fault(13)),
    (Serve(STORE, 0x3fffffd000), Ready),
];

/// Beside a process that cannot be built frame 0 is taken.
static STORIES: [Story; 19] = [
    Story {
        scheme: SV39,
        frames: 7,
        promises: None,
        rows: &[],
        changes: &[],
        end: (None, 6),
    },
    Story {
        scheme: SV39,
        frames: 8,
        promises: None,
        rows: BESIDE_REFUSED,
        changes: &[],
        end: (Some(None), 8),
    },
    Story {
        scheme: SV39,
        frames: 9,
        promises: None,
        rows: BESIDE_SETTLED,
        changes: &[],
        end: (Some(None), 9),
    },
    Story {
        scheme: SV48,
        frames: 9,
        promises: None,
        rows: &[],
        changes: &[],
        end: (None, 8),
    },
    Story {
        scheme: SV48,
        frames: 10,
        promises: None,
        rows: BESIDE_REFUSED,
        changes: &[],
        end: (Some(None), 10),
    },
    Story {
        scheme: SV48,
        frames: 11,
        promises: None,
        rows: BESIDE_SETTLED,
        changes: &[],
        end: (Some(None), 11),
    },
    Story {
        scheme: SV48,
        frames: 12,
        promises: None,
        rows: MIDDLE_REFUSED,
        changes: &[],
        end: (Some(None), 12),
    },
    Story {
        scheme: SV48,
        frames: 13,
        promises: None,
        rows: MIDDLE_SETTLED,
        changes: &[],
        end: (Some(None), 13),
    },
    Story {
        scheme: SV48,
        frames: 13,
        promises: None,
        rows: HIGH_REFUSED,
        changes: &[],
        end: (Some(None), 13),
    },
    Story {
        scheme: SV48,
        frames: 14,
        promises: None,
        rows: HIGH_SETTLED,
        changes: &[],
        end: (Some(None), 14),
    },
    Story {
        scheme: SV39,
        frames: 9,
        promises: None,
        rows: FRAME_GIVEN_BACK,
        changes: &[],
        end: (Some(None), 9),
    },
    Story {
        scheme: SV39,
        frames: 12,
        promises: None,
        rows: TO_THE_END,
        changes: &[
            (0, 4_996, 0xa4),
            (0, 4_997, 0xa3),
            (0, 4_998, 0xa2),
            (0, 4_999, 0xa1),
        ],
        end: (Some(None), 12),
    },
    Story {
        scheme: SV39,
        frames: 12,
        promises: None,
        rows: PLACES,
        changes: &[(2, 4_096, 0xc2), (2, 4_097, 0xc1)],
        end: (Some(None), 12),
    },
    Story {
        scheme: SV39,
        frames: 12,
        promises: None,
        rows: ONLY_LOADED,
        changes: &[(0, 0x100, 2), (0, 0x101, 2)],
        end: (Some(None), 12),
    },
    Story {
        scheme: SV39,
        frames: 12,
        promises: None,
        rows: ALL_MAPPINGS,
        changes: &[
            (0, 4_096, 0xd1),
            (0, 4_097, 0xd2),
            (2, 4_095, 0xe1),
            (2, 10_000, 0xf8),
            (2, 10_001, 0xf7),
            (2, 10_002, 0xf6),
        ],
        end: (Some(None), 12),
    },
    Story {
        scheme: SV39,
        frames: 12,
        promises: Some(2),
        rows: UNMAPS_ALL,
        changes: &[(2, 0, 0xc1), (2, 4_096, 0xd1)],
        end: (Some(None), 12),
    },
    Story {
        scheme: SV39,
        frames: 12,
        promises: Some(3),
        rows: UNMAPS_SECOND,
        changes: &[(2, 0, 0xc1), (2, 4_096, 0xd1)],
        end: (Some(None), 12),
    },
    Story {
        scheme: SV39,
        frames: 12,
        promises: Some(2),
        rows: WRITES,
        changes: &[(2, 0, 0xc1), (2, 1, 0xc2), (2, 4_096, 0xd1)],
        end: (Some(None), 12),
    },
    Story {
        scheme: SV39,
        frames: 9,
        promises: Some(0),
        rows: UNSERVED,
        changes: &[],
        end: (Some(None), 9),
    },
];

#[test]
fn plays_all(rt: HostRuntime) -> Result<(), Fail> {
    for number in 0..STORIES.len() {
        play(&rt, rt.alloc(), number, &STORIES[number])?;
    }
    Ok(())
}
