// What scripts and files for threads declare, as they own it: enums `OwnedImage` (an image) and `ListedCall` (a call);
// structs `CallList` and `ListedStart` (a list of calls, a start), and `Pool`, the numbers of frames and slots that threads
// share, and whether they can.

use process_model::{
    Bytes, Call, FEWEST_FRAMES, MOST_SHARED_FRAMES, MOST_SLOTS, Segment, Sequence, kernel_frames,
};
use sv39_entry::Scheme;

/// An image as a script or a file for threads declares it, before any check.
#[derive(Drop)]
pub enum OwnedImage {
    Elf(Bytes),
    Segments(Sequence<Segment>),
}

/// A call as a file for threads declares it: it names an image by its number, from 0, and owns the bytes of a copy.
#[derive(Drop)]
pub enum ListedCall {
    /// A call that borrows nothing.
    One(Call<'static>),
    Exec { image: usize },
    CopyOut { address: u64, bytes: Bytes },
}

/// A list of calls as a file for threads declares it.
#[derive(Drop)]
pub struct CallList {
    /// The number by which starts and forks name the list.
    pub number: usize,
    pub calls: Sequence<ListedCall>,
}

/// A process to start as a file for threads declares it: it names its image by its number, from 0, and its list of calls by
/// the list's own number.
#[derive(Clone, Copy)]
pub struct ListedStart {
    pub image: usize,
    pub list: usize,
}

/// The sizes of a pool: how many frames (of 4,096 bytes) the threads share, the kernel's included, and how many slots, the
/// most processes at a time.
#[derive(Clone, Copy)]
pub struct Pool {
    pub frames: usize,
    pub slots: usize,
}

impl Pool {
    ghost use Rattle.std.specs.Prelude.{◌≡◌};
    ghost use Rattle.process_model.specs.Frames.{can_share};

    /// Whether threads can share a pool of these sizes: `FEWEST_FRAMES` to `MOST_SHARED_FRAMES` frames, 1 to `MOST_SLOTS`
    /// slots, and at least as many frames as the kernel takes at boot under Sv39 (`kernel_frames`).
    pub fn is_usable(&self) -> bool
        ensures { result ≡ can_share self.now.frames self.now.slots }
    {
        (FEWEST_FRAMES..=MOST_SHARED_FRAMES).contains(&self.frames)
            && (1..=MOST_SLOTS).contains(&self.slots)
            && kernel_frames(Scheme::Sv39, self.frames, self.slots) <= self.frames
    }
}
