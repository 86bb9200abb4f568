// `play`: plays a story (test case) over plain frames and over shared frames, and asserts that it has no wrong row and gives
// its frames back. `play_all`: plays the stories of a table.

use crate::images_and_file::{SMALL, one_file, standard_segments};
use crate::stories::{FRAMES, Story, Told, played_over};
use frame_store::PlainFrames;
use process_model::Image;
use shared_frames::SharedFrames;
use std::alloc::Global;
use std::process::Abort;
use std::sync::Wait;
use std::test::Fail;

/// Plays a story over both stores. Image 0 is of the standard segments, and image 1 is the small ELF file. Asserts that no row
/// is wrong, that as many frames are free after the rows as the story says, and that all but frame 0 are free once the
/// processes are destroyed. `number` is that of the story, for a failed assertion.
///
/// # Errors
/// `Fail`: the process could not be started, or the host is out of memory.
pub(crate) fn play<R: Abort + Wait>(
    rt: &R,
    alloc: Global,
    number: usize,
    story: &Story,
) -> Result<(), Fail> {
    let segments = standard_segments(alloc)?;
    let images = [Image::Segments(&segments), Image::Elf(SMALL)];
    let plain = over_plain(alloc, &images, story)?;
    let shared = over_shared(rt, alloc, &images, story)?;
    let wanted = ((None, story.free), FRAMES - 1);
    let key = (number, story.left);
    assert_eq!(rt; (key, plain, shared), (key, wanted, wanted));
    Ok(())
}

/// Plays stories, one after another.
///
/// # Errors
/// `Fail`: a process could not be started, or the host is out of memory.
pub(crate) fn play_all<R: Abort + Wait>(
    rt: &R,
    alloc: Global,
    stories: &[Story],
) -> Result<(), Fail> {
    for number in 0..stories.len() {
        play(rt, alloc, number, &stories[number])?;
    }
    Ok(())
}

fn over_plain(alloc: Global, images: &[Image], story: &Story) -> Result<(Told, usize), Fail> {
    let mut files = one_file(alloc, story.promises)?;
    let (mut store, seat) = PlainFrames::new(alloc, FRAMES)?;
    let (played, _) = played_over(alloc, &mut store, seat, &mut files, images, story)?;
    Ok((played, store.report().free))
}

fn over_shared<R: Wait>(
    rt: &R,
    alloc: Global,
    images: &[Image],
    story: &Story,
) -> Result<(Told, usize), Fail> {
    let mut files = one_file(alloc, story.promises)?;
    let (frames, seat) = SharedFrames::new(alloc, FRAMES)?;
    let mut supply = frames.supply(rt);
    let (played, seat) = played_over(alloc, &mut supply, seat, &mut files, images, story)?;
    Ok((played, frames.close(seat).free))
}
