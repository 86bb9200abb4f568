// `Tracked` (struct; fields in `TrackedParts`): an unfinished process with its name, list of calls, journal (its calls with
// their replies) and address space. `new`; readers: name, calls made, next call and what it needs, number of children, next
// child's name; a law: the journal replays in the model. `next_call` is in `turn`.

ghost use Rattle.std.specs.Prelude.{[], ◌≡◌, ◌↔◌, ◌<◌, ◌≤◌, IfOk, length, true};
ghost use Rattle.address_space.specs.Agreement.{body_of, IsSpace};
ghost use Rattle.hart_calls.specs.Replay.{forks, listed_call, Replays};
ghost use Rattle.hart_calls.specs.Track.{NameLists, calls_of, child_name, next_of, Track};
ghost use Rattle.hart_calls.specs.TurnCases.{HasMapping, IsFork, IsMmap, NeedsFiles};
ghost use Rattle.shared_frames.specs.SeatsOfTable.{FitsIn, view_of};
ghost use Rattle.table_walk.specs.Tables.{Tables};

use crate::journal_entry::{JournalEntry, Listed, call_at};
use crate::model_process::{ModelProcess, begun};
use crate::run_brand::RunBrand;
use address_space::Space;
use cow_fork::PageList;
use file_shelf::PageUse;
use process_model::{Call, Sequence};
use shared_frames::SharedSeat;
use std::alloc::{AllocError, Global};
use std::marker::{Model, PhantomData};

/// The parts of an unfinished process.
#[derive(Drop)]
pub(crate) struct TrackedParts<'a> {
    pub(crate) alloc: Global,
    pub(crate) name: Vec<u64>,
    pub(crate) lists: &'a [Sequence<Call<'a>>],
    /// The number of its list in `lists`.
    pub(crate) list: usize,
    /// The process that it began with.
    pub(crate) opening: ModelProcess,
    /// The process that it is: its space agrees with it.
    pub(crate) present: ModelProcess,
    pub(crate) journal: Vec<JournalEntry<'a>>,
    /// How many children the journal names.
    pub(crate) children: usize,
    /// Memory for the pages that the next call may read from files.
    pub(crate) spare: Option<Box<Vec<PageUse>>>,
    /// Room for a list of its settled pages (those in memory), from the first fork on.
    pub(crate) settled: Option<Box<PageList>>,
    /// In a box, because it is large and each call moves the process.
    pub(crate) space: Box<Space<SharedSeat>>,
}

/// An unfinished process, its list of calls and its journal. Type invariant: the journal, of at most `MOST_ENTRIES` entries,
/// replays in the model along the list, from the process that it began with to the present one; the space agrees with the
/// present one; the seat is at the frame table of the run `B`.
#[derive(Drop)]
pub struct Tracked<'a, B: RunBrand> {
    pub(crate) parts: TrackedParts<'a>,
    pub(crate) of: PhantomData<B>,
}

impl<'a, B: RunBrand> Model for Tracked<'a, B> {
    ghost use Rattle.std.specs.Prelude.{◌≡◌, ◌-◌, ◌<◌, ◌≤◌, length, vec_len, vec_capacity};
    ghost use Rattle.std.specs.Coded.{codes};
    ghost use Rattle.address_space.specs.Agreement.{body_of, IsSpace};
    ghost use Rattle.frame_store.specs.View.{view_code};
    ghost use Rattle.hart_calls.specs.ProcessCodes.{process_code};
    ghost use Rattle.hart_calls.specs.Replay.{forks, list_at, Replays};
    ghost use Rattle.hart_calls.specs.Track.{NameLists, Track};
    ghost use Rattle.process_model.specs.declared.limits.TheConstants.{MOST_ENTRIES};
    ghost use Rattle.shared_frames.specs.SeatsOfTable.{FitsIn, view_of};
    ghost use Rattle.table_walk.specs.Tables.{Tables};

    ghost Value = { Track };

    ghost coded = { Prim.hlevel (codes, view_code, process_code) };

    ghost view = { λ x. record {
      name = x.parts.name.items;
      lists = x.parts.lists.now;
      list = x.parts.list;
      opening = x.parts.opening.state;
      state = x.parts.present.state;
      journal = x.parts.journal.items;
      seat = view_of x.parts.space.value.seat;
      room = vec_capacity x.parts.journal - vec_len x.parts.journal;
    } };

    ghost invariant = { λ x. FitsIn B.table x.parts.space.value.seat
        × ((t : Tables) × IsSpace (body_of view_of x.parts.space.value) t x.parts.present.state)
        × Replays x.parts.opening.state 0 0 (list_at x.parts.lists.now x.parts.list) x.parts.journal.items x.parts.present.state
        × NameLists x.parts.lists.now
        × (x.parts.list < length x.parts.lists.now)
        × (length x.parts.journal.items ≤ MOST_ENTRIES)
        × (x.parts.children ≡ forks x.parts.journal.items) };
}

impl<'a, B: RunBrand> Tracked<'a, B> {
    /// Returns an unfinished process that has made no call. `opening` is the process of the model that it begins as: `space`
    /// must agree with it, and the seat of `space` must be at the frame table of the run. `name` is its name. `list` is the
    /// index of its list of calls in `lists`, and must be below their number; each fork in `lists` must name a list that
    /// exists. Allocates nothing.
    pub fn new(
        alloc: Global,
        opening: ModelProcess,
        space: Box<Space<SharedSeat>>,
        name: Vec<u64>,
        lists: &'a [Sequence<Call<'a>>],
        list: usize,
    ) -> Tracked<'a, B>
        requires fits { FitsIn B.table space.value.seat }
        requires agrees { (t : Tables) × IsSpace (body_of view_of space.value) t opening.state }
        requires there { list < length lists.now }
        requires named { NameLists lists.now }
        ensures name { result.name ≡ name.items }
        ensures lists { result.lists ≡ lists.entry.now }
        ensures list { result.list ≡ list }
        ensures opening { result.opening ≡ opening.state }
        ensures state { result.state ≡ opening.state }
        ensures journal { result.journal ≡ [] }
        ensures seat { result.seat ≡ view_of space.value.seat }
    {
        let present = begun(&opening);
        Tracked {
            parts: TrackedParts {
                alloc,
                name,
                lists,
                list,
                opening,
                present,
                journal: Vec::new(alloc),
                children: 0,
                spare: None,
                settled: None,
                space,
            },
            of: PhantomData,
        }
    }

    /// Returns its name, a sequence of numbers. A child's is its parent's, with the child's number after it.
    pub fn name(&self) -> &[u64]
        ensures { result.now ≡ self.now.name }
    {
        self.parts.name.as_slice()
    }

    /// Returns how many calls it has made: the number of its journal entries.
    pub fn made(&self) -> usize
        ensures { result ≡ length self.now.journal }
    {
        self.parts.journal.len()
    }

    /// Returns the next call of its list, the one after those that it has made; `Exit` with status 0 after the last.
    pub fn next(&self) -> Call<'a>
        ensures { result ≡ next_of self.now }
    {
        call_at(&self.parts.lists[self.parts.list], self.parts.journal.len())
    }

    /// The place of the next call in its list.
    pub(crate) fn listed(&self) -> Listed<'a>
        ensures { listed_call result ≡ next_of self.now }
    {
        let lists = self.parts.lists;
        Listed {
            list: &lists[self.parts.list],
            number: self.parts.journal.len() as u16,
        }
    }

    /// Returns whether `next_call` must be given a shelf: true exactly when the next call is mmap or the process has a
    /// mapping.
    pub fn needs_files(&self) -> bool
        ensures { (result ≡ true) ↔ NeedsFiles self.now }
    {
        is_mmap(self.next()) || self.has_mapping()
    }

    /// Whether the process has a mapping.
    pub(crate) fn has_mapping(&self) -> bool
        ensures { (result ≡ true) ↔ HasMapping self.now.state.mappings }
    {
        !self.parts.space.layout.mappings().is_empty()
    }

    /// Returns whether the next call is a fork, which needs a slot for its child.
    pub fn needs_slot(&self) -> bool
        ensures { (result ≡ true) ↔ IsFork (next_of self.now) }
    {
        matches!(self.next(), Call::Fork { .. })
    }

    /// Returns how many children the journal names: how many of its replies are `Forked`.
    pub fn children(&self) -> usize
        ensures { result ≡ forks self.now.journal }
    {
        self.parts.children
    }

    /// Returns the name that its next child must have: this process's, with the number of children that the journal names
    /// after it.
    ///
    /// # Errors
    /// `AllocError`: the host is out of memory.
    pub fn child_name(&self) -> Result<Vec<u64>, AllocError>
        ensures { IfOk result (λ name. name.items ≡ child_name self.now) }
    {
        let parent = self.parts.name.as_slice();
        let mut name = Vec::with_capacity(self.parts.alloc, parent.len() + 1)?;
        name.extend_from_slice(parent)?;
        name.push(self.children() as u64)?;
        Ok(name)
    }

    /// Law: the journal replays in the model along the list of calls, from the process that it began with to the present
    /// one.
    pub fn replays(&self)
        ensures { Replays self.now.opening 0 0 (calls_of self.now) self.now.journal self.now.state }
    {
        let _ = self.parts.journal.len();
    }
}

/// Whether a call is mmap.
fn is_mmap(call: Call<'_>) -> bool
    ensures { (result ≡ true) ↔ IsMmap call.entry }
{
    matches!(call, Call::Mmap { .. })
}
