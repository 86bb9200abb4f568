// A test that copy-on-write works on threads: eight children and their parent, each on its own thread, store numbers to pages
// that they share, each loads its own, and in the end all frames but frame 0 are free. `Job`, a struct: a process with the
// addresses and the numbers that its thread stores.

ghost use Rattle.std.specs.Prelude.{◌<◌, All, IfOk};
ghost use Rattle.address_space.specs.Agreement.{body_of, IsAlive};
ghost use Rattle.frame_store.specs.Laws.{IsSeatOf, KeepsSeats};
ghost use Rattle.shared_frames.specs.SeatsOfTable.{FitsIn};
ghost use Rattle.tests_of_refusals.specs.Ready.{IsReady};

use crate::images_and_file::standard_segments;
use crate::initial_process::begun;
use address_space::{AccessRequest, Space};
use cow_fork::fork;
use exec_segments::Image;
use fault_rules::{Served, serve};
use file_cabinet::{Cabinet, Files};
use frame_store::{FrameAccess, FrameSeat, FrameSupply};
use process_model::{Reply, ScalarReply};
use shared_frames::{SharedFrames, SharedSeat, Totals};
use std::alloc::Global;
use std::sync::Wait;
use std::test::Fail;
use std::thread::{Threads, map_vec};
use sv39_entry::{Access, Mode, Scheme, Va};

/// A process for a thread: the addresses to which it stores numbers, and the numbers, from `first` up to but not including
/// `last`.
#[derive(Drop)]
struct Job {
    space: Space<SharedSeat>,
    files: Cabinet,
    addresses: [u64; 2],
    first: u64,
    last: u64,
}

/// A user access to eight bytes, by a walk of the page table.
fn access<S: FrameSeat, F: FrameAccess<Seat = S>>(
    space: &mut Space<S>,
    store: &mut F,
    access: Access,
    address: u64,
    value: u64,
) -> Reply
    requires fits { IsSeatOf F.invariant store.old space.old.seat }
    requires alive { IsAlive (body_of S.view space.old) }
    ensures alive { IsAlive (body_of S.view space.new) }
    ensures keeps { KeepsSeats F.invariant store.old space.old.seat store.new space.new.seat }
{
    let asked = AccessRequest {
        access,
        va: Va(address),
        width: 8,
        value,
    };
    let walk = space.translate(store, asked.va, access, Mode::User);
    Reply::Scalar(space.user_access(store, walk, asked))
}

/// Stores a number; if the store faults, serves the fault and stores again. Returns whether it was stored.
fn store_served<S: FrameSeat, F: FrameSupply<Seat = S>, C: Files>(
    space: &mut Space<S>,
    store: &mut F,
    files: &mut C,
    address: u64,
    number: u64,
) -> bool
    requires fits { IsSeatOf F.invariant store.old space.old.seat }
    requires alive { IsAlive (body_of S.view space.old) }
    ensures alive { IsAlive (body_of S.view space.new) }
    ensures keeps { KeepsSeats F.invariant store.old space.old.seat store.new space.new.seat }
{
    if access(space, store, Access::Store, address, number) == Reply::Scalar(ScalarReply::Stored) {
        return true;
    }
    if serve(space, store, files, Va(address), 8, Access::Store) != Served::Ready {
        return false;
    }
    access(space, store, Access::Store, address, number) == Reply::Scalar(ScalarReply::Stored)
}

/// Stores a number at two addresses and loads both. Returns whether both stores were made and both loads read the number.
fn keep<S: FrameSeat, F: FrameSupply<Seat = S>, C: Files>(
    space: &mut Space<S>,
    store: &mut F,
    files: &mut C,
    addresses: [u64; 2],
    number: u64,
) -> bool
    requires fits { IsSeatOf F.invariant store.old space.old.seat }
    requires alive { IsAlive (body_of S.view space.old) }
    ensures alive { IsAlive (body_of S.view space.new) }
    ensures keeps { KeepsSeats F.invariant store.old space.old.seat store.new space.new.seat }
{
    let [one, other] = addresses;
    let first = store_served(space, store, files, one, number);
    let second = store_served(space, store, files, other, number);
    let there = access(space, store, Access::Load, one, 0);
    let there_too = access(space, store, Access::Load, other, 0);
    let read = Reply::Scalar(ScalarReply::Value(number));
    first && second && there == read && there_too == read
}

/// Does a job and destroys its space. Returns the seat, and whether each number was kept.
fn done<R: Wait>(rt: &R, frames: &SharedFrames, job: Job) -> (SharedSeat, bool)
    requires ready { IsReady frames.now.table job.space }
    ensures { FitsIn frames.now.table result.0 }
{
    let mut store = frames.supply(rt);
    let Job {
        mut space,
        mut files,
        addresses,
        first,
        last,
    } = job;
    let mut all = true;
    'numbers: for number in first..last {
        if !keep(&mut space, &mut store, &mut files, addresses, number) {
            all = false;
        }
    }
    (space.destroy(&mut store), all)
}

/// Forks a child over the same frames. Its job is to store `number` at 0x1000 and at 0x2000.
fn child<R: Wait>(
    rt: &R,
    alloc: Global,
    frames: &SharedFrames,
    parent: &mut Space<SharedSeat>,
    number: u64,
) -> Result<Job, Fail>
    requires number { number < 100 }
    requires ready { IsReady frames.now.table parent.old }
    ensures ready { IsReady frames.now.table parent.new }
    ensures job { IfOk result (λ job. IsReady frames.now.table job.space) }
{
    let files = Cabinet::new(alloc, &[])?;
    let space = fork(parent, &mut frames.supply(rt))?;
    Ok(Job {
        space,
        files,
        addresses: [0x1000, 0x2000],
        first: number,
        last: number + 1,
    })
}

/// The jobs of eight children and, last, that of the parent, which stores 100,000 numbers at 0x1000.
fn jobs<R: Wait>(
    rt: &R,
    alloc: Global,
    frames: &SharedFrames,
    mut parent: Space<SharedSeat>,
) -> Result<Vec<Job>, Fail>
    requires ready { IsReady frames.now.table parent }
    ensures ready { IfOk result (λ jobs. All (λ job. IsReady frames.now.table job.space) jobs.items) }
{
    let mut jobs = Vec::new(alloc);
    'children: for number in 1..9 {
        jobs.push(child(rt, alloc, frames, &mut parent, number)?)?;
    }
    jobs.push(Job {
        space: parent,
        files: Cabinet::new(alloc, &[])?,
        addresses: [0x1000, 0x1000],
        first: 1_000,
        last: 101_000,
    })?;
    Ok(jobs)
}

/// Does all jobs, each on its own thread, and joins their seats to `seat`. Returns whether each number was kept.
fn join_all<R: Threads + Wait + Sync>(
    rt: &R,
    frames: &SharedFrames,
    jobs: Vec<Job>,
    seat: &mut SharedSeat,
) -> Result<bool, Fail>
    requires fits { FitsIn frames.now.table seat.old }
    requires ready { All (λ job. IsReady frames.now.table job.space) jobs.items }
    ensures fits { IfOk result (λ _. FitsIn frames.now.table seat.new) }
{
    let mut seats = map_vec(
        rt,
        jobs,
        &|job: Job| -> (SharedSeat, bool)
            requires { IsReady frames.now.table job.space }
            ensures { FitsIn frames.entry.now.table result.0 }
        { done(rt, frames, job) },
    )?;
    let mut all = true;
    'seats: while let Some((other, kept)) = seats.pop() {
        frames.access().join(seat, other);
        all &= kept;
    }
    Ok(all)
}

/// Starts a process, does the jobs of its children and its own, and returns the totals in the end; `None` if a number was
/// not kept.
fn totals_after<R: Threads + Wait + Sync>(rt: &R, alloc: Global) -> Result<Option<Totals>, Fail> {
    let segments = standard_segments(alloc)?;
    let image = Image::from_segments(Scheme::Sv39, &segments)?;
    let (frames, mut seat) = SharedFrames::new(alloc, 256)?;
    let parent = begun(&mut frames.supply(rt), &mut seat, &image, 0, 0)?;
    let jobs = jobs(rt, alloc, &frames, parent)?;
    let all = join_all(rt, &frames, jobs, &mut seat)?;
    let totals = frames.close(seat);
    Ok(if all { Some(totals) } else { None })
}

#[test]
fn nine_threads_take_over_at_once(rt: HostRuntime) -> Result<(), Fail> {
    // the only reference left is that of the first seat to frame 0
    let totals = Totals {
        free: 255,
        held: 1,
        trampoline: 1,
    };
    assert_eq!(rt; totals_after(&rt, rt.alloc())?, Some(totals));
    Ok(())
}
