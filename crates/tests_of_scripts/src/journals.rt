// Tests that the journal of a process (its calls with their replies) has the right reply on 1, 2 and 8 harts. `Row`: a file
// for threads, the name of a process, the number of a call, and the reply.

use crate::players::{Look, run_file};
use hart_calls::{Finished, JournalReply, StoredReply};
use hart_threads::OpenGate;
use process_model::ScalarReply::{Forked, Refused, Value};
use process_model::{Refusal, Reply, ScalarReply};
use std::test::Fail;

/// A reply that a journal must have: a scalar, or bytes that were copied from a process.
enum Told {
    Scalar(ScalarReply),
    Copied(&'static [u8]),
}

/// Whether the reply that a journal keeps is this one.
fn is_reply(kept: &JournalReply, told: &Told) -> bool {
    match (kept.kept(), told) {
        (StoredReply::Scalar(scalar), Told::Scalar(wanted)) => scalar == *wanted,
        (StoredReply::Long(Reply::CopiedIn(list)), Told::Copied(bytes)) => list.as_slice()
            == *bytes,
        _ => false,
    }
}

/// A file for threads, the name of a process, the number of a call of its list, and the reply.
type Row = (&'static str, &'static [u64], usize, Told);

/// Looks for the reply of a row in the journal of its process.
#[derive(Drop)]
struct Seeks<'r> {
    row: &'r Row,
    /// Whether it is there.
    is_there: bool,
}

impl Look for Seeks<'_> {
    fn look(&mut self, ended: &[Finished<'_>]) {
        let (_, name, number, told) = self.row;
        for finished in ended {
            if finished.name.as_slice() == *name {
                self.is_there = match finished.journal.get(*number) {
                    Some(entry) => is_reply(&entry.reply, told),
                    None => false,
                };
            }
        }
    }
}

/// A fork without a free slot.
const ALONE: &str = "image 0x1000:0x1000:rw:-\npool 64 1\nlist 0\nfork 0\nstart 0 0\n";

/// A byte that its own process wrote back.
const WRITTEN: &str =
    "file 16 rw -\nimage 0x1000:0x1000:rw:-\npool 64 4\nlist 0\nmmap 16 3 1 0\nstore 0x3fffffd000 1 9\nmunmap 0x3fffffd000 16\nmmap 16 3 1 0\nload 0x3fffffd000 1\nstart 0 0\n";

/// A parent and a child that each store to a page they shared.
const PARTED: &str =
    "image 0x1000:0x1000:rw:-\npool 64 4\nlist 0\nstore 0x1000 1 1\nfork 1\nstore 0x1000 1 2\nload 0x1000 1\nlist 1\nload 0x1000 1\nstore 0x1000 1 3\nload 0x1000 1\nstart 0 0\n";

/// A heap page that was released, and is zeros when it returns.
const RETURNED: &str =
    "image 0x1000:0x1000:rw:-\npool 64 4\nlist 0\nsbrk 0x1000\nstore 0x4000 1 9\nsbrk -0x1000\nsbrk 0x1000\nload 0x4000 1\nstart 0 0\n";

/// Bytes copied to a process across the end of a page.
const COPIES: &str =
    "image 0x1000:0x2000:rw:-\npool 64 4\nlist 0\ncopyout 0x1ffc 0102030405060708\nload 0x1ff8 8\nload 0x2000 4\ncopyin 0x1ffb 6\nstart 0 0\n";

/// The first bytes of a file.
const READ: &str =
    "file 5000 rw 6162\nimage 0x1000:0x1000:rw:-\npool 64 4\nlist 0\nmmap 5000 1 2 0\nload 0x3fffffc000 2\nstart 0 0\n";

static ROWS: [Row; 11] = [
    (ALONE, &[0], 0, Told::Scalar(Refused(Refusal::NoSlot))),
    (WRITTEN, &[0], 4, Told::Scalar(Value(9))),
    (PARTED, &[0], 1, Told::Scalar(Forked(0))),
    (PARTED, &[0], 3, Told::Scalar(Value(2))),
    (PARTED, &[0, 0], 0, Told::Scalar(Value(1))),
    (PARTED, &[0, 0], 2, Told::Scalar(Value(3))),
    (RETURNED, &[0], 4, Told::Scalar(Value(0))),
    (COPIES, &[0], 1, Told::Scalar(Value(0x0403_0201_0000_0000))),
    (COPIES, &[0], 2, Told::Scalar(Value(0x0807_0605))),
    (COPIES, &[0], 3, Told::Copied(&[0, 1, 2, 3, 4, 5])),
    (READ, &[0], 1, Told::Scalar(Value(0x6261))),
];

#[test]
fn journals_tell_the_replies(rt: HostRuntime) -> Result<(), Fail> {
    for harts in [1, 2, 8] {
        for number in 0..ROWS.len() {
            let row = &ROWS[number];
            let mut seeks = Seeks {
                row,
                is_there: false,
            };
            run_file(&rt, rt.alloc(), row.0, harts, &OpenGate, &mut seeks)?;
            assert_eq!(rt; (harts, number, seeks.is_there), (harts, number, true));
        }
    }
    Ok(())
}
