// `Tracked::next_call` makes an unfinished process's next call, with a shelf (files that threads share, and their history)
// or without. `Turn` (enum) is what that leaves: the process, perhaps with a child, or its end.

ghost use Rattle.std.specs.Prelude.{[], ◌≡◌, ◌<◌, ◌≤◌, IfOk, vec_capacity};
ghost use Rattle.hart_calls.specs.CallKinds.{HasRoomFor};
ghost use Rattle.hart_calls.specs.LentFiles.{IsLent, OfLent};
ghost use Rattle.hart_calls.specs.Track.{child_name, next_of, SameTrack};
ghost use Rattle.hart_calls.specs.TurnResults.{HasFilesAfter, HasTurned, IsFullWithoutShelf};
ghost use Rattle.hart_calls.specs.TurnCases.{IsNamed, NeedsFiles};

use crate::finished::Finished;
use crate::fork_slot::ForkSlot;
use crate::journal_entry::JournalEntry;
use crate::journal_reply::room_for_reply;
use crate::run_brand::RunBrand;
use crate::tracked::Tracked;
use file_cabinet::Cabinet;
use file_shelf::{PageUse, Shelf};
use process_model::{Call, MOST_ENTRIES, ProcessEnd, Reply};
use shared_frames::SharedSupply;
use std::alloc::{AllocError, Global};
use std::mem;
use std::sync::Wait;

/// A journal of fewer entries takes memory as it grows. Most processes make few calls, and their lists may be long.
const SHORT_JOURNAL: usize = 512;

/// What one call leaves of a process, as `Tracked::next_call` returns it.
#[derive(Drop)]
pub enum Turn<'a, B: RunBrand> {
    /// The process continues, with one journal entry more. There is a child exactly when the entry's reply is `Forked`.
    Continues(Tracked<'a, B>, Option<Tracked<'a, B>>),
    /// The process has ended. Its seat is still at the frame table of the run, and holds nothing.
    Over(Finished<'a>),
}

impl<'a, B: RunBrand> Tracked<'a, B> {
    /// Makes the list's next call, `exit 0` after the last. A user access includes the service of its fault. `store` must be
    /// at the frame table of the run.
    ///
    /// Returns `Continues` with one journal entry more, whose reply is the model's for some shortage (what the call needed
    /// and did not get) that is possible (`CanBeShort`), and the child if it forked. Or returns `Over`. After an exit or an
    /// end by a rule the journal has one entry more that says so, and every mapping was written back. With outcome `Memory`
    /// or `JournalFull` it has none more, the seat has claimed no frame, and no file was changed; the history may have the
    /// pages that the call read.
    ///
    /// `slot`: for a fork, the child's place and its name, which must be `child_name`, or why it has none. If the process
    /// continues after a fork, the reply is the refusal `NoSlot` exactly for `ForkSlot::NoSlot` and `Memory` exactly for
    /// `ForkSlot::Memory`; else it is `Forked`, `NoFrame` or `SharersFull`. `shelf`: must be `Some` if `needs_files` returns
    /// true.
    ///
    /// The reply is or names `NoFrame` only if the seat read the free count as 0 in this call, with fewer frames reserved
    /// than were then needed; a fork's reply is `SharersFull` only if the seat read a reference count of `MOST_REFERENCES`.
    ///
    /// `JournalFull` ends the process only if its journal has `MOST_ENTRIES` entries or, with a shelf, if the history lacks
    /// room for the page that an access reads, or for what a call that ends the process reads and the end writes. `Memory`
    /// ends it only if its journal has fewer; each call then asks the host for memory, and nothing is promised of when it is
    /// refused.
    pub fn next_call<R: Wait>(
        self,
        store: &mut SharedSupply<'_, R>,
        shelf: Option<&mut Shelf>,
        slot: ForkSlot,
    ) -> Turn<'a, B>
        requires store { store.old ≡ B.table }
        requires slot { IsNamed slot (child_name self) }
        requires lent { NeedsFiles self → IsLent shelf }
        ensures store { store.new ≡ B.table }
        ensures turned { HasTurned B.table self.entry result slot }
        ensures files { OfLent (HasFilesAfter self.entry result) (IsFullWithoutShelf self.entry result) shelf.entry shelf.exit }
    {
        match shelf {
            Some(shelf) => self.turn(store, shelf, slot),
            None => self.turn_without_files(store, slot),
        }
    }

    /// `next_call` without a shelf, for a process that has no mapping and does not call mmap. It asks nothing of files, so
    /// it gets an empty cabinet.
    fn turn_without_files<R: Wait>(
        self,
        store: &mut SharedSupply<'_, R>,
        slot: ForkSlot,
    ) -> Turn<'a, B>
        requires store { store.old ≡ B.table }
        requires slot { IsNamed slot (child_name self) }
        requires none { NeedsFiles self → ⊥ }
        ensures store { store.new ≡ B.table }
        ensures turned { HasTurned B.table self.entry result slot }
        ensures full { IsFullWithoutShelf self.entry result }
    {
        let alloc = self.parts.alloc;
        let Ok(cabinet) = Cabinet::new(alloc, &[]) else {
            if self.made() < MOST_ENTRIES {
                return Turn::Over(self.cut(store, ProcessEnd::Memory));
            }
            return Turn::Over(self.cut(store, ProcessEnd::JournalFull));
        };
        let mut shelf = Shelf::new(alloc, cabinet);
        self.turn(store, &mut shelf, slot)
    }

    /// `next_call` with a shelf.
    // A function pays at entry for the size of its locals, so ends, forks, copies and exec, which have large ones, are
    // functions of their own (`inline(never)`).
    pub fn turn<R: Wait>(
        mut self,
        store: &mut SharedSupply<'_, R>,
        shelf: &mut Shelf,
        slot: ForkSlot,
    ) -> Turn<'a, B>
        requires store { store.old ≡ B.table }
        requires slot { IsNamed slot (child_name self) }
        ensures store { store.new ≡ B.table }
        ensures turned { HasTurned B.table self.entry result slot }
        ensures files { HasFilesAfter self.entry result shelf.old shelf.new }
    {
        if self.made() == MOST_ENTRIES {
            return Turn::Over(self.cut(store, ProcessEnd::JournalFull));
        }
        let Ok(()) = self.with_entry() else {
            return Turn::Over(self.cut(store, ProcessEnd::Memory));
        };
        match self.next() {
            Call::Fork { list } => {
                let (tracked, child) = self.fork(store, list, slot);
                Turn::Continues(tracked, child)
            }
            Call::Exit { status } => Turn::Over(self.exit(store, shelf, status)),
            call => {
                let Ok((pages, room)) = self.with_room() else {
                    return Turn::Over(self.cut(store, ProcessEnd::Memory));
                };
                self.plain_call(store, shelf, call, pages, room, &slot)
            }
        }
    }

    /// For how many entries the journal asks memory when it has no more: for one while it is short, and then at once for all
    /// calls that its list has left and the exit, so that a long journal is moved but once.
    pub(crate) fn entries_wanted(&self) -> usize
        ensures { 0 < result }
    {
        let made = self.made();
        if made < SHORT_JOURNAL {
            return 1;
        }
        let listed = self.parts.lists[self.parts.list].as_slice().len();
        listed.saturating_sub(made).saturating_add(1)
    }

    /// Reserves memory for one journal entry more.
    ///
    /// # Errors
    /// `AllocError`: the host is out of memory. The process is unchanged.
    fn with_entry(&mut self) -> Result<(), AllocError>
        ensures same { SameTrack self.old self.new }
        ensures room { IfOk result (λ _. 0 < self.new.room) }
    {
        let wanted = self.entries_wanted();
        self.parts.journal.reserve(wanted)
    }

    /// Memory for the two pages that the next call may read from files, and a box for its reply if the call is `CopyIn`.
    ///
    /// # Errors
    /// `AllocError`: the host is out of memory. The process is unchanged.
    fn with_room(&mut self) -> Result<(Box<Vec<PageUse>>, Option<Box<Reply>>), AllocError>
        ensures same { SameTrack self.old self.new }
        ensures room { self.new.room ≡ self.old.room }
        ensures none { IfOk result (λ r. r.0.value.items ≡ []) }
        ensures pages { IfOk result (λ r. 2 ≤ vec_capacity r.0.value) }
        ensures long { IfOk result (λ r. HasRoomFor (next_of self.new) r.1) }
    {
        let room = room_for_reply(self.parts.alloc, self.next())?;
        let spare = mem::replace(&mut self.parts.spare, None);
        let pages = room_for_pages(self.parts.alloc, spare)?;
        Ok((pages, room))
    }
}

/// Memory for two pages, in a box: the spare one if there is one.
///
/// # Errors
/// `AllocError`: the host is out of memory.
fn room_for_pages(
    alloc: Global,
    spare: Option<Box<Vec<PageUse>>>,
) -> Result<Box<Vec<PageUse>>, AllocError>
    ensures none { IfOk result (λ pages. pages.value.items ≡ []) }
    ensures room { IfOk result (λ pages. 2 ≤ vec_capacity pages.value) }
{
    let mut pages = match spare {
        Some(pages) => pages,
        None => Box::new(alloc, Vec::new(alloc))?,
    };
    make_room(&mut pages)?;
    Ok(pages)
}

/// Makes a list of pages empty, with room for two.
///
/// # Errors
/// `AllocError`: the host is out of memory.
fn make_room(pages: &mut Vec<PageUse>) -> Result<(), AllocError>
    ensures none { IfOk result (λ _. pages.new.items ≡ []) }
    ensures room { IfOk result (λ _. 2 ≤ vec_capacity pages.new) }
{
    pages.clear();
    pages.reserve(2)
}
