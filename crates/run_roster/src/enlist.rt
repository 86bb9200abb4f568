// `Enlister` (struct): what the starts of a run share when they are enlisted; `enlist_all` enters each start's result on the
// roster (list of unfinished and ended processes) and puts the process, if there is one, into the run queue.

ghost use Rattle.std.specs.Prelude.{◌≡◌, ◌+◌, ◌-◌, ◌<◌, ◌∷◌, [], All, cond, Some, length, slice_get, take};
ghost use Rattle.hart_calls.specs.Track.{NameLists};
ghost use Rattle.run_roster.specs.StartEffects.{any_full, AreStartResults, IsFullKnown, IsStartResult, slots_of, takes_slot};
ghost use Rattle.run_roster.specs.StartFrames.{AreFramed, IfNoFrame, LeftTooFew};
ghost use Rattle.run_roster.specs.Slots.{count};

use crate::job::Job;
use crate::plan::Plan;
use crate::queue_part::{QueuePart, put};
use crate::roster::Roster;
use crate::start_outcomes::StartOutcomes;
use crate::start_result::StartResult;
use hart_calls::Tracked;
use process_model::{Call, Sequence, Start};
use std::alloc::Global;
use std::collections::VecDeque;
use std::sync::Wait;
use vouchers::TokenTable;

/// What the processes of a run share when they are enlisted.
#[derive(Drop)]
pub struct Enlister<'r, 'a, B: Plan, R: Wait> {
    /// Waits for the locks of the run queue.
    pub rt: &'r R,
    /// Where the journals are allocated.
    pub alloc: Global,
    /// The table of the run's vouchers.
    pub token_table: &'r TokenTable,
    /// The lists of calls, which the starts name.
    pub lists: &'a [Sequence<Call<'a>>],
    /// The run queue.
    pub parts: &'r [QueuePart<'a, B>],
    ghost at: { token_table.now ≡ B.token_table },
    ghost of_lists: { lists.now ≡ B.lists },
}

impl<'r, 'a, B: Plan, R: Wait> Enlister<'r, 'a, B, R> {
    /// Puts the next start's process on the roster and into the queue, or its end on the roster if it has no process.
    fn enlist<F: StartOutcomes>(
        &self,
        roster: &mut Roster<'a, B, F>,
        made: StartResult<'a>,
        start: Start<'_>,
        place: usize,
    )
        requires made { IsStartResult B.table F.slots (count (take (length B.plan - roster.old.left) F.taken)) start
            ((length B.plan - roster.old.left) ∷ []) made }
        requires taken { slice_get F.taken (length B.plan - roster.old.left) ≡ Some (takes_slot made) }
        requires full { IsFullKnown F.full made }
        requires framed { IfNoFrame (LeftTooFew F.free B.plan F.taken (length B.plan - roster.old.left)) made }
        requires list { start.list < length self.now.lists.now }
        requires start { slice_get B.plan (length B.plan - roster.old.left) ≡ Some start }
        requires named { NameLists self.now.lists.now }
        requires left { 0 < roster.old.left }
        requires slots { roster.old.slots ≡ F.slots }
        requires out { roster.old.out ≡ count (take (length B.plan - roster.old.left) F.taken) }
        ensures left { roster.new.left ≡ roster.old.left - 1 }
        ensures slots { roster.new.slots ≡ roster.old.slots }
        ensures out { roster.new.out ≡ roster.old.out + cond (takes_slot made.entry) 1 0 }
    {
        match made {
            StartResult::Begun {
                name,
                space,
                opening,
            } => {
                let token = roster.start(self.token_table, name.as_slice(), start.list, &opening);
                let tracked = Tracked::<B>::new(
                    self.alloc, opening, space, name, self.lists, start.list,
                );
                put(self.rt, self.parts, place, Job { tracked, token });
            }
            StartResult::Over(finished) => roster.refuse(finished),
        }
    }

    /// Enlists all starts in order. Their jobs are put into the parts of the queue in turn.
    pub fn enlist_all<F: StartOutcomes>(
        &self,
        roster: &mut Roster<'a, B, F>,
        all: &mut VecDeque<StartResult<'a>>,
        starts: &[Start<'_>],
    )
        requires made { AreStartResults B.table F.slots starts.now 0 0 all.old.items }
        requires all { length all.old.items ≡ length starts.now }
        requires taken { F.taken ≡ slots_of all.old.items }
        requires full { F.full ≡ any_full all.old.items }
        requires framed { AreFramed F.free starts.now F.taken 0 all.old.items }
        requires lists { All (λ start. start.list < length self.now.lists.now) starts.now }
        requires named { NameLists self.now.lists.now }
        requires of_starts { starts.now ≡ B.plan }
        requires left { roster.old.left ≡ length starts.now }
        requires slots { roster.old.slots ≡ F.slots }
        requires none_out { roster.old.out ≡ 0 }
    {
        'starts: for number in 0..starts.len() {
            let Some(made) = all.pop_front() else {
                unreachable!()
            };
            self.enlist::<F>(roster, made, starts[number], number);
        }
    }
}
