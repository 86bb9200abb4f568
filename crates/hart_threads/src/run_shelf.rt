// `RunShelf` (struct): the files that the processes of a run share under a lock, known by its type to have begun as the files
// that the run was given (`RunFiles`, trait: a ghost constant of a run); `call` makes a call that needs files.

ghost use Rattle.std.specs.Prelude.{◌≡◌};
ghost use Rattle.hart_calls.specs.Track.{child_name};
ghost use Rattle.hart_calls.specs.TurnCases.{IsNamed};
ghost use Rattle.hart_calls.specs.TurnResults.{HasTurned};
ghost use Rattle.run_roster.specs.FilesOfRun.{HasGoneOver};

use file_shelf::Shelf;
use hart_calls::{ForkSlot, RunBrand, Tracked, Turn};
use shared_frames::SharedSupply;
use std::marker::{Brand, PhantomData};
use std::sync::Wait;

/// Ghost constant of a run: the files that it begins with. A contract knows a value under a lock by its type alone, so it is
/// in the type. Each run picks its own.
pub trait RunFiles {
    ghost use Rattle.std.specs.Prelude.{List};
    ghost use Rattle.process_model.specs.Files.{File};

    ghost files: { List File };
}

impl RunFiles for Brand {
    ghost use Rattle.run_roster.specs.Plans.{no_files};

    ghost files = { no_files };
}

/// The files that the processes of a run share, under a lock. Type invariant: the shelf began with the files of `W`.
#[derive(Drop)]
pub struct RunShelf<W: RunFiles> {
    shelf: Shelf,
    of: PhantomData<W>,
    ghost first: { shelf.first ≡ W.files },
}

impl<W: RunFiles> RunShelf<W> {
    /// Returns the shelf as that of a run. It must have begun with the files of `W`.
    pub fn new(shelf: Shelf) -> RunShelf<W>
        requires first { shelf.first ≡ W.files }
    {
        RunShelf {
            shelf,
            of: PhantomData,
        }
    }

    /// Returns the files, with all writes so far, and the pages read and written so far.
    pub fn shelf(&self) -> &Shelf
        ensures { (result.now).first ≡ W.files }
    {
        &self.shelf
    }

    /// Makes the next call of a process, which may need files (`Tracked::turn`).
    pub(crate) fn call<'a, B: RunBrand, R: Wait>(
        &mut self,
        store: &mut SharedSupply<'_, R>,
        tracked: Tracked<'a, B>,
        slot: ForkSlot,
    ) -> Turn<'a, B>
        requires store { store.old ≡ B.table }
        requires slot { IsNamed slot (child_name tracked) }
        ensures store { store.new ≡ B.table }
        ensures turned { HasTurned B.table tracked.entry result slot }
        ensures over { HasGoneOver W.files tracked.entry result }
    {
        self.shelf.replays();
        tracked.turn(store, &mut self.shelf, slot)
    }
}
