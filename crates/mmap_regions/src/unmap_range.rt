// The system call `munmap`: writes back and unmaps a whole mapping, or its front or back.

ghost use Rattle.std.specs.Prelude.{[], ◌≡◌, ◌≤◌, IfErr, IfOk};
ghost use Rattle.address_space.specs.Agreement.{body_of, IsSpace, IsAlive};
ghost use Rattle.address_space.specs.Kept.{IsUntouched};
ghost use Rattle.address_space.specs.Steps.{TakesFrames};
ghost use Rattle.frame_store.specs.Laws.{IsSeatOf, KeepsSeats};
ghost use Rattle.mmap_regions.specs.MunmapEffect.{IsUnmapRefusal, Unmaps, unmap_moves};
ghost use Rattle.process_model.specs.Process.{Process};
ghost use Rattle.table_walk.specs.Tables.{Tables};

use crate::dirty_pages::{count_run, write_run};
use crate::run::Run;
use address_space::Space;
use file_cabinet::Files;
use frame_store::{FrameAccess, FrameSeat};
use process_model::Refusal;

/// Unmaps `length` bytes from `address` on, rounded up to whole pages: one mapping, or its front or back (MIT 6.1810, mmap
/// lab). First, pages with the dirty mark are written back in ascending order, up to the file's length; then each leaf is
/// removed and the reference to its frame dropped. Page tables stay. Waits for nobody. Makes no fence: the caller must.
///
/// # Errors
/// The first that applies. `BadArgument`: `address` is no multiple of 4,096, `length` is 0, or the range is not inside one
/// mapping. `HoleInMapping`: it touches neither end. `Memory`, `JournalFull`: `files` refused to promise the page writes,
/// as the host is out of memory or the history of page I/O has no room. Layout, seat's view, store and files are then
/// unchanged.
pub fn munmap<S: FrameSeat, F: FrameAccess<Seat = S>, C: Files>(
    space: &mut Space<S>,
    store: &mut F,
    files: &mut C,
    address: u64,
    length: u64,
) -> Result<(), Refusal>
    requires fits { IsSeatOf F.invariant store.old space.old.seat }
    requires ready { IsAlive (body_of S.view space.old) }
    ensures unmapped { IfOk result (λ _. (t : Tables) (p : Process) →
        IsSpace (body_of S.view space.old) t p →
        Unmaps (body_of S.view space.new) t p (C.files files.old) (C.files files.new) address length) }
    ensures moves { IfOk result (λ _. (t : Tables) (p : Process) →
        IsSpace (body_of S.view space.old) t p →
        C.becomes files.old (unmap_moves p address length) files.new) }
    ensures refused { IfErr result (λ e. (t : Tables) (p : Process) →
        IsSpace (body_of S.view space.old) t p →
        IsUnmapRefusal (C.can_refuse files.old) (C.files files.old) p address length e) }
    ensures files_stay { IfErr result (λ _. C.becomes files.old [] files.new) }
    ensures stays { IfErr result (λ _. IsUntouched S.view space.old space.new store.old store.new) }
    ensures tallies { TakesFrames (S.view space.old.seat) (S.view space.new.seat) 0 [] }
    ensures root { space.new.root ≡ space.old.root }
    ensures trapframe { space.new.trapframe ≡ space.old.trapframe }
    ensures keeps { KeepsSeats F.invariant store.old space.old.seat store.new space.new.seat }
    ensures free { F.alone → F.free store.old ≤ F.free store.new }
{
    let run = Run::requested(&space.layout, address, length)?;
    let pages = count_run(space, store, &run);
    files.promise(pages)?;
    write_run(space, store, files, &run);
    space.drop_pages(store, run.first, run.end);
    space.replace_mapping(run.mapping.first, run.left());
    Ok(())
}
