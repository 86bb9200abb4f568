// `play`: plays a story (a test case of one process: rows of an operation and its reply) over plain frames and over shared
// frames, with files that may refuse one promise (a reservation of page I/O). `Story`, a struct: the scheme, the frames, the
// page, the promises, the rows, the changed bytes and the end of a story.

ghost use Rattle.std.specs.Prelude.{IfErr, IfOk};
ghost use Rattle.address_space.specs.Agreement.{HoldsTrampoline};
ghost use Rattle.address_space.specs.Steps.{IsBare};
ghost use Rattle.frame_store.specs.Laws.{IsSeatOf, KeepsSeats};

use crate::cabinets::{Change, Text, cabinet, changes_of};
use crate::initial_parts::one_page;
use crate::operation::Row;
use crate::perform::{Wrong, first_wrong};
use address_space::Space;
use file_cabinet::Files;
use frame_store::{FrameAccess, FrameSeat, FrameSupply, NoFrame, PlainFrames};
use shared_frames::SharedFrames;
use std::alloc::{AllocError, Global};
use std::process::Abort;
use std::sync::Wait;
use std::test::Fail;
use sv39_entry::Scheme;
use tests_of_files::RefusingFiles;

/// The files that each story begins with. The byte of file n at offset k is k / 256 + 64 * n.
static FILES: [Text; 3] = [
    (5_000, true, 5_000, 0, 256),
    (4_096, false, 4_096, 64, 256),
    (10_003, true, 10_003, 128, 256),
];

/// What a process that begins with one page does.
#[derive(Clone, Copy)]
pub(crate) struct Story {
    pub scheme: Scheme,
    /// The number of frames of the store, 1 to 256.
    pub frames: usize,
    /// How many promises the files make before they refuse one; `None`: they refuse none.
    pub promises: Option<usize>,
    pub rows: &'static [Row],
    /// The bytes of the three files that differ in the end.
    pub changes: &'static [Change],
    /// How the story ends.
    pub end: End,
}

/// How a story ends: its first wrong reply, `Some(None)` if there is none, `None` if the process could not be built; and the
/// number of free frames, once the process is destroyed.
pub(crate) type End = (Option<Wrong>, usize);

/// Plays a story over plain frames and over shared frames, with the three files. Asserts that it ends as it must, and that the
/// files differ in its bytes then. `number` is that of the story, for a failed assertion.
///
/// # Errors
/// `Fail`: the host is out of memory.
pub(crate) fn play<R: Abort + Wait>(
    rt: &R,
    alloc: Global,
    number: usize,
    story: &Story,
) -> Result<(), Fail> {
    for is_shared in [false, true] {
        let mut files = RefusingFiles {
            files: cabinet(alloc, &FILES)?,
            until_refusal: story.promises,
        };
        let end = if is_shared {
            over_shared(rt, alloc, story, &mut files)?
        } else {
            over_plain(alloc, story, &mut files)?
        };
        let changes = changes_of(alloc, &files.files, &FILES)?;
        let key = (number, is_shared);
        let told = (key, end, changes.as_slice());
        assert_eq!(rt; told, (key, story.end, story.changes));
    }
    Ok(())
}

/// Builds a process of page 0, performs the rows and destroys it. Returns the first wrong reply and the seat, which holds
/// nothing; `NoFrame` with the seat if too few frames are free to build it.
fn lived<S: FrameSeat, F: FrameSupply<Seat = S>, C: Files>(
    store: &mut F,
    seat: S,
    story: &Story,
    files: &mut C,
) -> Result<(Wrong, S), (NoFrame, S)>
    requires fits { IsSeatOf F.invariant store.old seat }
    requires opening { HoldsTrampoline (S.view seat) }
    ensures bare { IfOk result (λ r. IsBare (S.view r.1)) }
    ensures keeps { IfOk result (λ r. KeepsSeats F.invariant store.old seat store.new r.1) }
    ensures keeps_refused { IfErr result (λ e. KeepsSeats F.invariant store.old seat store.new e.1) }
{
    let mut space = Space::build(store, seat, story.scheme, &one_page(story.scheme))?;
    let wrong = first_wrong(&mut space, store, files, story.rows);
    Ok((wrong, space.destroy(store)))
}

fn over_plain<C: Files>(alloc: Global, story: &Story, files: &mut C) -> Result<End, AllocError> {
    // changes no story; it shows the limits to the proof
    let (mut store, seat) = PlainFrames::new(alloc, story.frames.clamp(1, 256))?;
    let wrong = match lived(&mut store, seat, story, files) {
        Ok((wrong, _)) => Some(wrong),
        Err(_) => None,
    };
    Ok((wrong, store.report().free))
}

fn over_shared<R: Wait, C: Files>(
    rt: &R,
    alloc: Global,
    story: &Story,
    files: &mut C,
) -> Result<End, AllocError> {
    // changes no story; it shows the limits to the proof
    let (frames, seat) = SharedFrames::new(alloc, story.frames.clamp(1, 256))?;
    let mut supply = frames.supply(rt);
    let (wrong, seat) = match lived(&mut supply, seat, story, files) {
        Ok((wrong, seat)) => (Some(wrong), seat),
        Err((_, seat)) => (None, seat),
    };
    Ok((wrong, frames.close(seat).free))
}
