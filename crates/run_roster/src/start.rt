// `StartContext` (struct): what the starts of a run share; `make_all` makes or refuses each start, in order, before any hart
// runs, and lists the results; a start is refused with NoSlot if no slot is left.

ghost use Rattle.std.specs.Prelude.{◌≡◌, ◌≤◌, [], false, true, length, vec_len};
ghost use Rattle.std.specs.VecDeque.{deque_capacity};
ghost use Rattle.frame_store.specs.View.{IsHeld};
ghost use Rattle.run_roster.specs.Slots.{HasRead, HasReadFull};
ghost use Rattle.run_roster.specs.StartEffects.{any_full, AreStartResults, IsStartResult, slots_of};
ghost use Rattle.run_roster.specs.StartFrames.{AreFramed, IfFull, IfNoFrame};
ghost use Rattle.run_roster.specs.Starts.{Lends};
ghost use Rattle.shared_frames.specs.SeatsOfTable.{FitsIn, view_of};

use crate::name_buffer::NameBuffer;
use crate::seats::{end_unstarted, frames_for, started};
use crate::start_result::StartResult;
use hart_calls::Finished;
use process_model::{ProcessEnd, Start};
use shared_frames::{SharedFrames, SharedSeat};
use std::alloc::Global;
use std::collections::VecDeque;
use std::sync::Wait;

/// What all starts of a run share.
#[derive(Drop)]
pub struct StartContext<'r, R: Wait> {
    /// Waits for frames.
    pub rt: &'r R,
    /// Where the spaces are allocated.
    pub alloc: Global,
    /// The frames of all processes of the run.
    pub frames: &'r SharedFrames,
    /// Whether the caller says that no other seat is at the table of these frames.
    pub alone: bool,
    /// How many frames are free for the starts, as the caller says.
    pub free: usize,
}

impl<'r, R: Wait> StartContext<'r, R> {
    /// Makes a start while `taken` of `slots` slots are taken, or refuses it; `enough` says that it finds its frames free. If
    /// the host has no memory for its space, the process ends before its first call.
    fn make<'a>(
        &self,
        kernel: &mut SharedSeat,
        name: Vec<u64>,
        start: Start<'_>,
        slots: usize,
        taken: usize,
        enough: bool,
    ) -> StartResult<'a>
        requires fits { FitsIn self.now.frames.now.table kernel.old }
        requires anchored { IsHeld (view_of kernel.old) 0 }
        ensures made { IsStartResult self.now.frames.now.table slots taken start.entry name.items result }
        ensures full { IfFull ((self.now.alone ≡ false) × HasReadFull (view_of kernel.old) (view_of kernel.new)) result }
        ensures frames { IfNoFrame (enough ≡ false) result }
        ensures reads { HasRead (view_of kernel.old) (view_of kernel.new) }
        ensures fits { FitsIn self.now.frames.now.table kernel.new }
        ensures lends { Lends (view_of kernel.old) (view_of kernel.new) }
    {
        let mut store = self.frames.supply(self.rt);
        match started(
            self.rt,
            &mut store,
            kernel,
            start.image,
            taken < slots,
            self.alone,
            enough,
        ) {
            Ok((space, opening)) => match Box::new(self.alloc, space) {
                Ok(space) => StartResult::Begun {
                    name,
                    space,
                    opening,
                },
                Err(full) => StartResult::Over(end_unstarted(
                    self.alloc, &mut store, full.value, opening, name,
                )),
            },
            Err((refusal, seat)) => StartResult::Over(Finished {
                name,
                outcome: ProcessEnd::Refused(refusal),
                journal: Vec::new(self.alloc),
                seat,
            }),
        }
    }

    /// Makes or refuses all starts in order, for a run of `slots` slots, and puts their results into `all`. `rooms` has a
    /// name buffer for each start, `all` has room for all results.
    pub fn make_all<'a>(
        &self,
        kernel: &mut SharedSeat,
        rooms: &mut Vec<NameBuffer>,
        all: &mut VecDeque<StartResult<'a>>,
        starts: &[Start<'_>],
        slots: usize,
    )
        requires fits { FitsIn self.now.frames.now.table kernel.old }
        requires anchored { IsHeld (view_of kernel.old) 0 }
        requires names { vec_len rooms.old ≡ length starts.now }
        requires none { all.old.items ≡ [] }
        requires room { length starts.now ≤ deque_capacity all.old }
        ensures made { AreStartResults self.now.frames.now.table slots starts.now 0 0 all.new.items }
        ensures all { length all.new.items ≡ length starts.now }
        ensures full { any_full all.new.items ≡ true → (self.now.alone ≡ false) × HasReadFull (view_of kernel.old) (view_of kernel.new) }
        ensures frames { AreFramed self.now.free starts.now (slots_of all.new.items) 0 all.new.items }
        ensures fits { FitsIn self.now.frames.now.table kernel.new }
        ensures lends { Lends (view_of kernel.old) (view_of kernel.new) }
    {
        let mut taken = 0;
        let mut left = self.free;
        'starts: for number in 0..starts.len() {
            let Some(room) = rooms.pop() else {
                unreachable!()
            };
            let name = room.fill(number as u64);
            let start = starts[number];
            let need = frames_for(start.image);
            let made = self.make(kernel, name, start, slots, taken, need <= left);
            taken += made.slots();
            left = left.saturating_sub(made.frames(need));
            let Ok(()) = all.push_back(made) else {
                unreachable!()
            };
        }
    }
}
