// Tests of the shelf, the files that threads share. Calls that need no files do not lock it: processes run to their end
// while the test holds the lock. When 65,536 pages have been read or written, it is full, and promises no further page.

ghost use Rattle.std.specs.Prelude.{◌≡◌};
ghost use Rattle.script_reader.specs.ThreadsPlayable.{IsThreadPlayable};

use audit_player::{lend_lists, lend_starts};
use file_cabinet::{Cabinet, Files, PromiseError};
use file_shelf::{MOST_USES, Shelf};
use hart_threads::{OpenGate, RunFiles, RunShelf, run_harts};
use process_model::{Bytes, FileText};
use script_reader::ThreadScript;
use shared_frames::SharedFrames;
use std::alloc::{AllocError, Global};
use std::marker::Brand;
use std::sync::{Mutex, Wait};
use std::test::Fail;
use std::thread::Threads;

/// A file for threads of three processes that map nothing: loads, a store, a fork, a heap, copies and an exec.
const NO_FILES: &str =
    "image 0x1000:0x1000:rw:-\npool 64 4\nlist 0\nfork 1\nstore 0x1000 8 1\nsbrk 0x1000\ncopyout 0x4000 0102\ncopyin 0x4000 2\nexec 0\nlist 1\nload 0x1000 8\nstart 0 0\nstart 0 1\n";

/// The test holds the lock of the shelf while the processes run. A call that locked it would wait for ever.
#[test]
fn without_files_nobody_locks_the_shelf(rt: HostRuntime) -> Result<(), Fail> {
    let Ok(script) = ThreadScript::read(rt.alloc(), NO_FILES.as_bytes()) else {
        return Err(Fail::from("a file for threads is refused"));
    };
    let shelf = Shelf::new(rt.alloc(), Cabinet::new(rt.alloc(), &[])?);
    let (ended, free) = run_while_locked::<Brand, HostRuntime>(&rt, rt.alloc(), &script, shelf)?;
    assert_eq!(rt; (ended, free), (3, 63));
    Ok(())
}

/// Runs the processes of a file for threads while the lock of their shelf is held. Returns how many ended, and how many frames
/// are free then.
fn run_while_locked<W: RunFiles + Send + Sync, R: Threads + Wait + Sync>(
    rt: &R,
    alloc: Global,
    script: &ThreadScript,
    shelf: Shelf,
) -> Result<(usize, usize), AllocError>
    requires playable { IsThreadPlayable script.now }
    requires first { shelf.first ≡ W.files }
{
    let lists = lend_lists(alloc, script)?;
    let starts = lend_starts(alloc, script)?;
    let shelf = Mutex::new(RunShelf::<W>::new(shelf));
    let (frames, mut seat) = SharedFrames::new(alloc, 64)?;
    let held = shelf.lock(rt);
    let ended = run_harts(
        rt,
        alloc,
        &frames,
        &mut seat,
        &shelf,
        lists.as_slice(),
        starts.as_slice(),
        4,
        1,
        8,
        &OpenGate,
    )?;
    drop(held);
    Ok((ended.len(), frames.close(seat).free))
}

/// Writes and reads the first page of file 0 in turn, `uses` times in all, each time by a promise of one page. Returns
/// whether all promises were made; stops at the first that is refused.
fn use_pages(shelf: &mut Shelf, uses: usize) -> bool {
    let mut page = [1; 4096];
    for at in 0..uses {
        if shelf.promise(1).is_err() {
            return false;
        }
        if at % 2 == 0 {
            shelf.write_page(0, 0, &page);
        } else {
            shelf.read_page(0, 0, &mut page);
        }
    }
    true
}

#[test]
fn a_full_shelf_promises_no_page(rt: HostRuntime) -> Result<(), Fail> {
    let file = FileText {
        length: 8,
        writable: true,
        bytes: Bytes::from_vec(Vec::new(rt.alloc())),
    };
    let mut shelf = Shelf::new(rt.alloc(), Cabinet::new(rt.alloc(), &[file])?);
    let full = Err(PromiseError::JournalFull);
    let first = shelf.promise(MOST_USES);
    let used = use_pages(&mut shelf, MOST_USES - 1);
    let two = shelf.promise(2);
    let last = use_pages(&mut shelf, 1);
    let one = shelf.promise(1);
    assert_eq!(rt;
        (first, used, two, last, one),
        (Ok(()), true, full, true, full)
    );
    let uses = shelf.history().len();
    let kept = shelf.cabinet().bytes(0) == Some([1; 8].as_slice());
    assert_eq!(rt; (uses, kept, shelf.promise(0)), (MOST_USES, true, Ok(())));
    Ok(())
}
