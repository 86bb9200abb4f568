// `PageList`, a struct: a list with room for `MOST_FRAMES` pages, used again and again. `settled_pages` collects in it the
// settled pages (those in memory) of a process, in ascending order.

ghost use Rattle.std.specs.Prelude.{[], ◌≡◌};
ghost use Rattle.address_space.specs.Agreement.{body_of, IsSpace, IsAlive};
ghost use Rattle.address_space.specs.Kept.{OnlyReads};
ghost use Rattle.address_space.specs.SettledLists.{AreSettled};
ghost use Rattle.frame_store.specs.Laws.{IsSeatOf, KeepsSeats};
ghost use Rattle.process_model.specs.Process.{Process};
ghost use Rattle.sv39_entry.specs.Schemes.{trapframe_page};
ghost use Rattle.table_walk.specs.Tables.{Tables};

use address_space::{SettledPage, Space};
use arrayvec::ArrayVec;
use frame_store::{FrameAccess, FrameSeat};
use process_model::MOST_FRAMES;
use std::marker::Model;

/// A list of settled pages (those in memory) that each call of `settled_pages` fills anew, for one process after another.
/// Contracts do not see what is in it.
#[derive(Drop)]
pub struct PageList {
    pages: ArrayVec<SettledPage, MOST_FRAMES>,
}

impl Model for PageList {
    ghost Value = { Unit {0} };

    ghost view = { λ list. tt };
}

impl PageList {
    /// An empty list with room for `MOST_FRAMES` pages: a store has at most as many frames.
    pub fn new() -> PageList {
        PageList {
            pages: ArrayVec::new(),
        }
    }

    /// Collects in this list the settled pages (those in memory) of the process in `space`, and returns them as a slice:
    /// all of them, each once, in ascending order, with frame, copy-on-write mark, and whether the leaf has D. Only reads: the
    /// store, the space, and the view of its seat (references, credits, known words) stay.
    pub fn settled_pages<S: FrameSeat, F: FrameAccess<Seat = S>>(
        &mut self,
        space: &mut Space<S>,
        store: &mut F,
    ) -> &[SettledPage]
        requires fits { IsSeatOf F.invariant store.old space.old.seat }
        requires ready { IsAlive (body_of S.view space.old) }
        ensures settled { (t : Tables) (p : Process) → IsSpace (body_of S.view space.old) t p → AreSettled t p 0 (trapframe_page p.scheme) result.now }
        ensures reads { OnlyReads S.view space.old space.new store.old store.new }
        ensures keeps { KeepsSeats F.invariant store.old space.old.seat store.new space.new.seat }
    {
        self.pages.clear();
        list_settled(space, store, &mut self.pages);
        self.pages.as_slice()
    }
}

/// Adds the settled pages to an empty list in ascending order, found by their leaves. There are fewer than `MOST_FRAMES` of
/// them: a store has at most `MOST_FRAMES` frames, and one is the trampoline's.
fn list_settled<S: FrameSeat, F: FrameAccess<Seat = S>>(
    space: &mut Space<S>,
    store: &mut F,
    pages: &mut ArrayVec<SettledPage, MOST_FRAMES>,
)
    requires fits { IsSeatOf F.invariant store.old space.old.seat }
    requires ready { IsAlive (body_of S.view space.old) }
    requires empty { pages.old.items ≡ [] }
    ensures settled { (t : Tables) (p : Process) → IsSpace (body_of S.view space.old) t p → AreSettled t p 0 (trapframe_page p.scheme) pages.new.items }
    ensures reads { OnlyReads S.view space.old space.new store.old store.new }
    ensures keeps { KeepsSeats F.invariant store.old space.old.seat store.new space.new.seat }
{
    let scheme = space.layout.scheme();
    let end = scheme.trapframe().page();
    let mut from = 0;
    let mut last = None;
    'pages: while let Some(found) = space.next_settled_with_last(store, from, end, &mut last) {
        from = found.page.number() + 1;
        pages.push(found);
    }
}
