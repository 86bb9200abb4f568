// `Story`, a struct: a test case of one process beside a second seat, the keeper: frames left, references of frame 0,
// promises (reservations of page I/O), rows of operations. `played_over` plays it over any store.

ghost use Rattle.std.specs.Prelude.{IfOk};
ghost use Rattle.frame_store.specs.Laws.{IsSeatOf, KeepsSeats};
ghost use Rattle.frame_store.specs.View.{IsHeld};

use crate::accounts::Accounts;
use crate::family::{Wrong, ended, first_wrong};
use crate::images_and_file::{OneFile, STANDARD};
use crate::initial_process::{begun, reserved_all};
use crate::operation::Row;
use frame_store::{FrameAccess, FrameSeat, FrameSupply};
use process_model::Image;
use std::alloc::Global;
use std::test::Fail;
use sv39_entry::Scheme;

/// The number of frames of a story's store. The keeper reserves all but frame 0 and those that are left to the process.
pub(crate) const FRAMES: usize = 64;

/// What a process of the first image does.
#[derive(Clone, Copy)]
pub(crate) struct Story {
    /// The number of frames that are free when the process has started.
    pub left: usize,
    /// How many references of frame 0 the keeper takes beside its own.
    pub sharers: usize,
    /// How many promises the file makes before it refuses one; `None`: it refuses none.
    pub promises: Option<usize>,
    pub rows: &'static [Row],
    /// The number of frames that must be free after the rows.
    pub free: usize,
}

/// The first wrong row, and the number of free frames after the rows, before the process is destroyed.
pub(crate) type Told = (Wrong, usize);

/// Plays a story over a store whose only seat is the keeper. Returns its result, and the one seat in the end.
///
/// # Errors
/// `Fail`: there is no image or it is not accepted, the process could not be started, or the host is out of memory.
pub(crate) fn played_over<S: FrameSeat + Drop, F: FrameSupply<Seat = S> + Accounts>(
    alloc: Global,
    store: &mut F,
    mut keeper: S,
    files: &mut OneFile,
    images: &[Image],
    story: &Story,
) -> Result<(Told, S), Fail>
    requires fits { IsSeatOf F.invariant store.old keeper }
    requires anchored { IsHeld (S.view keeper) 0 }
    ensures keeps { IfOk result (λ r. KeepsSeats F.invariant store.old keeper store.new r.1) }
{
    let Some(image) = images.first() else {
        return Err(Fail::from("no image"));
    };
    let reserved = (FRAMES - 1 - STANDARD).saturating_sub(story.left);
    let image = exec_segments::Image::judged(Scheme::Sv39, *image)?;
    let mut space = begun(store, &mut keeper, &image, reserved, story.sharers)?;
    let mut child = None;
    let wrong = first_wrong(
        alloc, &mut space, &mut child, store, files, images, story.rows,
    )?;
    let free = reserved_all(store, &mut keeper);
    let mut seat = ended(space, child, store);
    store.join(&mut seat, keeper);
    Ok(((wrong, free), seat))
}
