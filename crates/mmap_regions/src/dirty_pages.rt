// Write-back of pages that have the dirty mark (D, in a writable shared mapping) to their files: `promise_write_back`
// reserves the file writes, so that they cannot fail; `write_back` writes the pages of all mappings. For the crate also
// `count_run` and `write_run`, for one run (pages of one mapping).

ghost use Rattle.std.specs.Prelude.{[], ◌≡◌, ◌<◌, ◌≤◌, ◌+◌, IfErr, IfOk, length, ℕ};
ghost use Rattle.address_space.specs.Agreement.{body_of, IsSpace, no_extra, IsAlive};
ghost use Rattle.address_space.specs.Kept.{OnlyReads};
ghost use Rattle.address_space.specs.SpacesInCalls.{IsSpaceInCall};
ghost use Rattle.frame_store.specs.Laws.{IsSeatOf, KeepsSeats};
ghost use Rattle.mmap_regions.specs.Runs.{IsRunOf, moves_in, run_of};
ghost use Rattle.process_model.specs.Mappings.{all_written_back};
ghost use Rattle.process_model.specs.PageMoves.{all_moves};
ghost use Rattle.process_model.specs.Process.{Process};
ghost use Rattle.table_walk.specs.Tables.{Tables};

use crate::run::Run;
use address_space::Space;
use file_cabinet::{Files, PromiseError};
use frame_store::{FrameAccess, FrameSeat};
use sv39_entry::PAGE_SIZE;

/// Returns how many pages of a run are to be written back: its settled pages with the dirty mark (D in the leaf), if stores
/// to the mapping are written back to a file, else 0. They are found by the leaves that exist.
pub(crate) fn count_run<S: FrameSeat, F: FrameAccess<Seat = S>>(
    space: &mut Space<S>,
    store: &mut F,
    run: &Run,
) -> usize
    requires fits { IsSeatOf F.invariant store.old space.old.seat }
    requires ready { (t : Tables) × (p : Process) × IsSpace (body_of S.view space.old) t p × IsRunOf p (run_of run.now) }
    ensures count { (t : Tables) (p : Process) → IsSpace (body_of S.view space.old) t p → IsRunOf p (run_of run.now)
        → result ≡ length (moves_in p (run_of run.now)) }
    ensures few { run.now.first + result ≤ run.now.end }
    ensures reads { OnlyReads S.view space.old space.new store.old store.new }
    ensures keeps { KeepsSeats F.invariant store.old space.old.seat store.new space.new.seat }
{
    if run.file().is_none() {
        return 0;
    }
    let mut count = 0;
    let mut from = run.first.number();
    let mut last = None;
    'pages: while let Some(found) = space.next_settled_with_last(store, from, run.end, &mut last) {
        if found.dirty {
            count += 1;
        }
        from = found.page.number() + 1;
    }
    count
}

/// Writes back the pages of a run that have the dirty mark, in ascending order, up to the file's length. `files` has
/// promised as many pages. The pages stay, with their marks.
pub(crate) fn write_run<S: FrameSeat, F: FrameAccess<Seat = S>, C: Files>(
    space: &mut Space<S>,
    store: &mut F,
    files: &mut C,
    run: &Run,
)
    requires fits { IsSeatOf F.invariant store.old space.old.seat }
    requires ready { (t : Tables) × (p : Process) × IsSpaceInCall (body_of S.view space.old) t p no_extra × IsRunOf p (run_of run.now)
        × (length (moves_in p (run_of run.now)) ≤ C.room files.old) }
    ensures moves { (t : Tables) (p : Process) → IsSpaceInCall (body_of S.view space.old) t p no_extra → IsRunOf p (run_of run.now)
        → C.becomes files.old (moves_in p (run_of run.now)) files.new }
    ensures rest { (t : Tables) (p : Process) → IsSpaceInCall (body_of S.view space.old) t p no_extra → IsRunOf p (run_of run.now)
        → C.room files.old ≤ length (moves_in p (run_of run.now)) + C.room files.new }
    ensures reads { OnlyReads S.view space.old space.new store.old store.new }
    ensures keeps { KeepsSeats F.invariant store.old space.old.seat store.new space.new.seat }
{
    let Some((file, offset)) = run.file() else {
        return;
    };
    let mut bytes = [0; 4096];
    let mut from = run.first.number();
    let mut last = None;
    'pages: while let Some(settled) = space.next_settled_with_last(
        store, from, run.end, &mut last,
    ) {
        if settled.dirty {
            space.page_bytes(store, settled.page, &mut bytes);
            let at = (settled.page.number() - run.mapping.first) * PAGE_SIZE;
            files.write_page(file, offset + at as usize, &bytes);
        }
        from = settled.page.number() + 1;
    }
}

/// Asks `files` for a promise: to reserve as many page writes as `write_back` will make, so that writing these pages cannot
/// fail. Reads and writes no page of a file; layout, seat's view and store are unchanged, promised or not.
///
/// # Errors
/// Only as `files` can refuse to promise that many pages: `Memory` (the host is out of memory) or `JournalFull` (the
/// history of page I/O has no room for them). Never if there is nothing to write back.
pub fn promise_write_back<S: FrameSeat, F: FrameAccess<Seat = S>, C: Files>(
    space: &mut Space<S>,
    store: &mut F,
    files: &mut C,
) -> Result<(), PromiseError>
    requires fits { IsSeatOf F.invariant store.old space.old.seat }
    requires ready { IsAlive (body_of S.view space.old) }
    ensures promised { IfOk result (λ _. (t : Tables) (p : Process) → IsSpace (body_of S.view space.old) t p → length (all_moves p) ≤ C.room files.new) }
    ensures refused { IfErr result (λ e. (t : Tables) (p : Process) → IsSpace (body_of S.view space.old) t p
        → C.can_refuse files.old (length (all_moves p)) e) }
    ensures files { C.becomes files.old [] files.new }
    ensures reads { OnlyReads S.view space.old space.new store.old store.new }
    ensures keeps { KeepsSeats F.invariant store.old space.old.seat store.new space.new.seat }
{
    let mut pages = 0;
    'runs: for i in 0..space.layout.mappings().len() {
        let run = Run::whole(space.layout.mappings()[i]);
        pages += count_run(space, store, &run);
    }
    files.promise(pages)
}

/// Writes back the pages of all mappings that have the dirty mark, in order of address, up to each file's length: what
/// exec, an exit and an end by a rule do before the pages are released. `files` must have promised as many pages
/// (`promise_write_back`), so none of these writes can fail. The pages stay, with their marks. The seat may have credits.
pub fn write_back<S: FrameSeat, F: FrameAccess<Seat = S>, C: Files>(
    space: &mut Space<S>,
    store: &mut F,
    files: &mut C,
)
    requires fits { IsSeatOf F.invariant store.old space.old.seat }
    requires ready { (t : Tables) × (p : Process) × IsSpaceInCall (body_of S.view space.old) t p no_extra × (length (all_moves p) ≤ C.room files.old) }
    ensures moves { (t : Tables) (p : Process) → IsSpaceInCall (body_of S.view space.old) t p no_extra → C.becomes files.old (all_moves p) files.new }
    ensures written { (t : Tables) (p : Process) → IsSpaceInCall (body_of S.view space.old) t p no_extra
        → C.files files.new ≡ all_written_back (C.files files.old) p }
    ensures reads { OnlyReads S.view space.old space.new store.old store.new }
    ensures keeps { KeepsSeats F.invariant store.old space.old.seat store.new space.new.seat }
{
    'runs: for i in 0..space.layout.mappings().len() {
        let run = Run::whole(space.layout.mappings()[i]);
        write_run(space, store, files, &run);
    }
}
