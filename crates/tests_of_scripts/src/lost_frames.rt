// Tests that no frame is lost in a run on threads: when it is over, the kernel's seat (its capability at the frame store) can
// reserve every user frame. A frame that a seat which is gone still has reserved would count as free, but nobody could have
// it.

ghost use Rattle.std.specs.Prelude.{◌≡◌, ◌≤◌};
ghost use Rattle.script_reader.specs.ThreadsPlayable.{IsThreadPlayable};
ghost use Rattle.shared_frames.specs.SeatsOfTable.{FitsIn};

use audit_player::{lend_lists, lend_starts};
use file_cabinet::Cabinet;
use file_shelf::Shelf;
use frame_store::FrameSupply;
use hart_threads::{OpenGate, RunFiles, RunShelf, run_harts};
use script_reader::ThreadScript;
use shared_frames::{SharedFrames, SharedSeat, SharedSupply};
use std::alloc::{AllocError, Global};
use std::marker::Brand;
use std::sync::{Mutex, Wait};
use std::test::Fail;
use std::thread::Threads;

/// Files for threads.
static FILES: [&str; 3] = [
    // Forks with a slot and without one, and a process that ends by a rule; a start without a slot.
    "image 0x1000:0x1000:rw:-\npool 200 3\nlist 0\nfork 1\nstore 0x1000 8 1\nfork 2\nfork 1\nsbrk 0x3000\nstore 0x4000 8 1\nfork 2\nlist 1\nstore 0x1000 8 2\nload 0x9000 8\nlist 2\nstore 0x1000 8 3\nfork 1\nstart 0 0\nstart 0 0\nstart 0 2\nstart 0 1\n",
    // Starts, forks, stores, copies and an exec for which frames are missing.
    "image 0x1000:0x3000:rw:-\npool 24 8\nlist 0\nstore 0x1000 8 1\nfork 1\nstore 0x2000 8 1\nfork 1\nfork 1\nexec 0\nlist 1\nstore 0x1000 8 2\ncopyout 0x2ffc 0102030405060708\nsbrk 0x2000\nstore 0x4000 8 1\nfork 1\nstart 0 0\nstart 0 0\nstart 0 1\nstart 0 0\n",
    // Pages of files that two processes map, shared and private, write back and unmap, before and after forks.
    "file 9000 rw 6162\nimage 0x1000:0x1000:rw:-\npool 128 4\nlist 0\nmmap 9000 3 1 0\nstore 0x3fffffb000 1 1\nfork 1\nstore 0x3fffffc000 1 2\nmunmap 0x3fffffb000 4096\nexec 0\nlist 1\nload 0x3fffffb000 1\nmmap 9000 3 2 0\nstore 0x3fffff8000 1 9\nstart 0 0\nstart 0 0\n",
];

/// Runs a file for threads over the frames of its pool, all but one of them user frames, on `harts` harts. Returns whether the
/// kernel's seat can then reserve all user frames.
fn can_reserve_all<R: Threads + Wait + Sync>(
    rt: &R,
    alloc: Global,
    file: &str,
    harts: usize,
) -> Result<bool, Fail> {
    let Ok(script) = ThreadScript::read(alloc, file.as_bytes()) else {
        return Err(Fail::from("a file for threads is refused"));
    };
    let shelf = Shelf::new(alloc, Cabinet::new(alloc, script.files())?);
    Ok(run_and_reserve::<Brand, R>(rt, alloc, &script, shelf, harts)?)
}

/// `can_reserve_all` for a file for threads that was read, with the shelf.
fn run_and_reserve<W: RunFiles + Send + Sync, R: Threads + Wait + Sync>(
    rt: &R,
    alloc: Global,
    script: &ThreadScript,
    shelf: Shelf,
    harts: usize,
) -> Result<bool, AllocError>
    requires playable { IsThreadPlayable script.now }
    requires first { shelf.first ≡ W.files }
{
    let lists = lend_lists(alloc, script)?;
    let starts = lend_starts(alloc, script)?;
    let pool = script.pool();
    let shelf = Mutex::new(RunShelf::<W>::new(shelf));
    let (frames, mut seat) = SharedFrames::new(alloc, pool.frames)?;
    let _ended = run_harts(
        rt, alloc, &frames, &mut seat, &shelf, &lists, &starts, pool.slots, harts, 8, &OpenGate,
    )?;
    let mut store = frames.supply(rt);
    Ok(reserves(&mut store, &mut seat, pool.frames - 1))
}

/// Reserves frames for a seat, and returns whether that many are free.
fn reserves<R: Wait>(store: &mut SharedSupply<'_, R>, seat: &mut SharedSeat, count: usize) -> bool
    requires fits { FitsIn store.old seat.old }
{
    store.reserve(seat, count).is_ok()
}

#[test]
fn the_kernel_can_reserve_every_user_frame(rt: HostRuntime) -> Result<(), Fail> {
    for harts in [1, 2, 8] {
        for number in 0..FILES.len() {
            let whole = can_reserve_all(&rt, rt.alloc(), FILES[number], harts)?;
            assert_eq!(rt; (harts, number, whole), (harts, number, true));
        }
    }
    Ok(())
}
