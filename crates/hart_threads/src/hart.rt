// `HartThread` (struct): one hart of a run and what it shares with the others; its scheduler loop `run`: take a process from
// the run queue, make up to a quantum of its calls with the gate's hooks around each, put it back; a fork's slot and child,
// and the end of a process, go through the roster.

ghost use Rattle.std.specs.Prelude.{◌≡◌, ◌∷◌, [], IfErr, IfOk};
ghost use Rattle.hart_calls.specs.Track.{child_name};
ghost use Rattle.hart_calls.specs.TurnResults.{HasTurned};
ghost use Rattle.hart_calls.specs.TurnCases.{IsNamed};
ghost use Rattle.hart_threads.specs.Due.{IsDue, IsNone};
ghost use Rattle.run_roster.specs.FilesOfRun.{HasGoneOver};
ghost use Rattle.run_roster.specs.RosterState.{IsEndedWithToken, IsOut};
ghost use Rattle.vouchers.specs.Entries.{nameless};
ghost use Rattle.vouchers.specs.IssuerSeats.{HoldsAt, held_of};

use crate::gate::Gate;
use crate::job_step::{EndedJob, JobStep, access_at_once, access_served};
use crate::queue::{exchange, take};
use crate::run_shelf::{RunFiles, RunShelf};
use hart_calls::{ChildRoom, ForkSlot, Tracked, Turn};
use process_model::MOST_HARTS;
use run_roster::{Admission, Job, Plan, QueuePart, Roster, StartOutcomes, put};
use shared_frames::{SharedFrames, SharedSupply};
use std::alloc::AllocError;
use std::marker::PhantomData;
use std::sync::{Mutex, Wait};
use std::thread;
use sv39_entry::FrameNo;
use vouchers::{Token, TokenTable};

/// How many frames lie between the places where two harts begin to search.
const FRAMES_APART: usize = 32;

/// One hart, and what it shares with the others of its run.
#[derive(Drop)]
pub(crate) struct HartThread<'r, 'a, B: Plan, F: StartOutcomes, W: RunFiles, R: Wait, G: Gate> {
    pub(crate) rt: &'r R,
    pub(crate) frames: &'r SharedFrames,
    pub(crate) token_table: &'r TokenTable,
    pub(crate) roster: &'r Mutex<Roster<'a, B, F>>,
    pub(crate) shelf: &'r Mutex<RunShelf<W>>,
    pub(crate) parts: &'r [QueuePart<'a, B>],
    pub(crate) gate: &'r G,
    pub(crate) number: usize,
    ghost table: { frames.now.table ≡ B.table },
    ghost at: { token_table.now ≡ B.token_table },
    ghost of_files: { W.files ≡ B.files },
}

impl<'r, 'a, B: Plan, F: StartOutcomes, W: RunFiles, R: Wait, G: Gate> HartThread<
    'r,
    'a,
    B,
    F,
    W,
    R,
    G,
> {
    /// Keeps a slot for the child of the next call, with the child's name and room for its space.
    ///
    /// # Errors
    /// Why there is none: `NoSlot` if the call is no fork or every slot is in use, `Memory` if the host is out of memory.
    fn admit(
        &self,
        store: &mut SharedSupply<'_, R>,
        tracked: &mut Tracked<'a, B>,
    ) -> Result<(Token, Vec<u64>, ChildRoom), ForkSlot>
        requires store { store.old ≡ B.table }
        ensures store { store.new ≡ B.table }
        ensures same { tracked.new ≡ tracked.old }
        ensures at { IfOk result (λ r. HoldsAt B.token_table r.0) }
        ensures slot { IfOk result (λ r. held_of r.0 ≡ nameless ∷ []) }
        ensures name { IfOk result (λ r. r.1.items ≡ child_name tracked.old) }
        ensures none { IfErr result (λ slot. IsNone slot) }
    {
        if !tracked.needs_slot() {
            return Err(ForkSlot::NoSlot);
        }
        let admission = self.roster.lock(self.rt).admit(self.token_table);
        let slot = match admission {
            Admission::Kept(slot) => slot,
            Admission::NoSlot => return Err(ForkSlot::NoSlot),
            Admission::Memory => return Err(ForkSlot::Memory),
        };
        match self.room_for_child(store, tracked) {
            Ok((name, room)) => Ok((slot, name, room)),
            Err(_) => {
                self.roster.lock(self.rt).withdraw(self.token_table, slot);
                Err(ForkSlot::Memory)
            }
        }
    }

    /// Allocates the name of the next child, and room for its space.
    ///
    /// # Errors
    /// `AllocError`: the host is out of memory.
    fn room_for_child(
        &self,
        store: &mut SharedSupply<'_, R>,
        tracked: &mut Tracked<'a, B>,
    ) -> Result<(Vec<u64>, ChildRoom), AllocError>
        requires store { store.old ≡ B.table }
        ensures store { store.new ≡ B.table }
        ensures same { tracked.new ≡ tracked.old }
        ensures name { IfOk result (λ r. r.0.items ≡ child_name tracked.old) }
    {
        let name = tracked.child_name()?;
        let room = tracked.child_room(store)?;
        Ok((name, room))
    }

    /// Makes the next call. If it needs files, the shelf is locked for the whole call.
    fn call(
        &self,
        store: &mut SharedSupply<'_, R>,
        tracked: Tracked<'a, B>,
        slot: ForkSlot,
    ) -> Turn<'a, B>
        requires store { store.old ≡ B.table }
        requires slot { IsNamed slot (child_name tracked) }
        ensures store { store.new ≡ B.table }
        ensures turned { HasTurned B.table tracked.entry result slot }
        ensures over { HasGoneOver B.files tracked.entry result }
    {
        if tracked.needs_files() {
            self.shelf.lock(self.rt).call(store, tracked, slot)
        } else {
            tracked.next_call(store, None, slot)
        }
    }

    /// Makes the next call, a fork with a slot. The child, if there is one, is entered on the roster and put into the queue;
    /// else the slot is freed.
    #[inline(never)]
    fn fork(
        &self,
        store: &mut SharedSupply<'_, R>,
        tracked: Tracked<'a, B>,
        token: Token,
        slot: Token,
        name: Vec<u64>,
        room: ChildRoom,
    ) -> JobStep<'a, B>
        requires store { store.old ≡ B.table }
        requires at { HoldsAt B.token_table token × HoldsAt B.token_table slot }
        requires out { IsOut B.files B.lists B.plan (held_of token) tracked }
        requires slot { held_of slot ≡ nameless ∷ [] }
        requires name { name.items ≡ child_name tracked }
        ensures store { store.new ≡ B.table }
        ensures due { IsDue result }
    {
        match self.call(store, tracked, ForkSlot::Free(name, room)) {
            Turn::Continues(tracked, child) => match child {
                Some(child) => {
                    let (token, young) = self
                        .roster
                        .lock(self.rt)
                        .add_child(self.token_table, &tracked, &child, slot, token);
                    let job = Job {
                        tracked: child,
                        token: young,
                    };
                    put(self.rt, self.parts, self.number, job);
                    JobStep::Continues(Job { tracked, token })
                }
                None => {
                    self.roster.lock(self.rt).withdraw(self.token_table, slot);
                    JobStep::Continues(Job { tracked, token })
                }
            },
            Turn::Over(finished) => {
                self.roster.lock(self.rt).withdraw(self.token_table, slot);
                JobStep::Over(EndedJob {
                    finished,
                    token,
                    of: PhantomData,
                })
            }
        }
    }

    /// Makes the next call, for which no slot is kept.
    fn plain(
        &self,
        store: &mut SharedSupply<'_, R>,
        tracked: Tracked<'a, B>,
        token: Token,
        slot: ForkSlot,
    ) -> JobStep<'a, B>
        requires store { store.old ≡ B.table }
        requires at { HoldsAt B.token_table token }
        requires out { IsOut B.files B.lists B.plan (held_of token) tracked }
        requires none { IsNone slot }
        ensures store { store.new ≡ B.table }
        ensures due { IsDue result }
    {
        match self.call(store, tracked, slot) {
            Turn::Continues(tracked, child) => match child {
                Some(_) => unreachable!(),
                None => JobStep::Continues(Job { tracked, token }),
            },
            Turn::Over(finished) => JobStep::Over(EndedJob {
                finished,
                token,
                of: PhantomData,
            }),
        }
    }

    /// Makes the next call of a job.
    fn step(&self, store: &mut SharedSupply<'_, R>, job: Job<'a, B>) -> JobStep<'a, B>
        requires store { store.old ≡ B.table }
        ensures store { store.new ≡ B.table }
        ensures due { IsDue result }
    {
        let Job { mut tracked, token } = job;
        match self.admit(store, &mut tracked) {
            Ok((slot, name, room)) => self.fork(store, tracked, token, slot, name, room),
            Err(slot) => self.plain(store, tracked, token, slot),
        }
    }

    /// Returns an ended process and its voucher to the roster.
    #[inline(never)]
    fn finish(&self, gone: EndedJob<'a, B>)
        requires back { IsEndedWithToken B.table B.files B.lists B.plan (held_of gone.token) gone.finished }
    {
        let EndedJob {
            finished,
            token,
            of: _,
        } = gone;
        self.roster
            .lock(self.rt)
            .finish(self.token_table, finished, token);
    }

    /// Runs a job and those that its part of the queue has, until one of them has ended: makes up to `quantum` calls of a
    /// process, with the hooks around each, puts it back and takes the next. Most calls are user accesses; they are made in
    /// place, so the process is not moved.
    fn turns(&self, store: &mut SharedSupply<'_, R>, job: Job<'a, B>, quantum: usize)
        requires store { store.old ≡ B.table }
        ensures store { store.new ≡ B.table }
    {
        let mut current = job;
        'turns: for _ in self.rt.forever() {
            'calls: for _ in 0..quantum {
                let call = current.tracked.next();
                self.gate.enter(self.number, current.tracked.name(), call);
                if access_at_once(&mut current, store) || access_served(&mut current, store) {
                    self.gate.leave(self.number, current.tracked.name(), call);
                    continue;
                }
                match self.step(store, current) {
                    JobStep::Continues(next) => {
                        self.gate.leave(self.number, next.tracked.name(), call);
                        current = next;
                    }
                    JobStep::Over(gone) => {
                        self.gate
                            .leave(self.number, gone.finished.name.as_slice(), call);
                        self.finish(gone);
                        return;
                    }
                }
            }
            current = exchange(self.rt, self.parts, self.number, current);
        }
        unreachable!()
    }

    /// Takes jobs from the queue and runs them, until the queue is empty and no slot is in use.
    pub(crate) fn run(&self, quantum: usize) {
        let first = FrameNo((FRAMES_APART * (self.number % MOST_HARTS)) as u16);
        let mut store = self.frames.supply_from(self.rt, first);
        'turns: for _ in self.rt.forever() {
            match take(self.rt, self.parts, self.number) {
                Some(job) => self.turns(&mut store, job, quantum),
                None => {
                    if self.roster.lock(self.rt).is_done() {
                        return;
                    }
                    thread::yield_now();
                }
            }
        }
    }
}
