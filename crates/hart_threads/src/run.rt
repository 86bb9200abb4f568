// `run_harts`, and `run_harts_alone` for a caller whose seat is alone: makes the starts in order, runs the harts on threads
// until no process is unfinished, and returns each process as it ended. Steps: host memory and starts (`run_in`), roster and
// queue (`run_made`), threads (`run_all`, `run_hart`).

ghost use Rattle.std.specs.Prelude.{◌≡◌, ◌+◌, ◌<◌, ◌≤◌, [], All, length, true, vec_len, vec_capacity, IfErr, IfOk};
ghost use Rattle.frame_store.specs.View.{IsHeld};
ghost use Rattle.hart_calls.specs.Track.{NameLists};
ghost use Rattle.run_roster.specs.StartEffects.{any_full, AreStartResults, slots_of};
ghost use Rattle.run_roster.specs.RosterState.{ComesBack};
ghost use Rattle.run_roster.specs.Settled.{MatchesSlots};
ghost use Rattle.run_roster.specs.Slots.{AreSlotted, HasReadFull, OnFull};
ghost use Rattle.run_roster.specs.StartFrames.{AreFramed, ArePoolStarts};
ghost use Rattle.run_roster.specs.Starts.{Lends};
ghost use Rattle.shared_frames.specs.SeatsOfTable.{FitsIn, view_of};
ghost use Rattle.vouchers.specs.IssuerSeats.{KeepsAt, given_of};
ghost use denote.Param.Send.{IsSend, IsSync};

use crate::gate::Gate;
use crate::hart::HartThread;
use crate::queue::parts_for;
use crate::run_shelf::{RunFiles, RunShelf};
use hart_calls::Finished;
use process_model::{Call, Sequence, Start};
use run_roster::{
    Enlister, Plan, QueuePart, Roster, StartContext, StartOutcomes, StartResult, name_rooms,
};
use shared_frames::{SharedFrames, SharedSeat};
use std::alloc::{AllocError, Global};
use std::collections::VecDeque;
use std::marker::Brand;
use std::sync::{Mutex, Wait};
use std::thread;
use std::thread::Threads;
use vouchers::{TokenIssuer, TokenTable};

/// Runs one hart until no slot is in use.
fn run_hart<'a, B: Plan, F: StartOutcomes, W: RunFiles, R: Wait, G: Gate>(
    rt: &R,
    frames: &SharedFrames,
    token_table: &TokenTable,
    roster: &Mutex<Roster<'a, B, F>>,
    shelf: &Mutex<RunShelf<W>>,
    parts: &[QueuePart<'a, B>],
    gate: &G,
    number: usize,
    quantum: usize,
)
    requires frames { frames.now.table ≡ B.table }
    requires token_table { token_table.now ≡ B.token_table }
    requires of_files { W.files ≡ B.files }
{
    let hart = HartThread {
        rt,
        frames,
        token_table,
        roster,
        shelf,
        parts,
        gate,
        number,
    };
    hart.run(quantum);
}

/// Runs all harts until no slot is in use. Hart 0 is this thread; a thread that cannot be started is left out.
fn run_all<
    'r,
    'a,
    B: Plan + Send + Sync,
    F: StartOutcomes + Send + Sync,
    W: RunFiles + Send + Sync,
    R: Threads + Wait + Sync,
    G: Gate + Sync,
>(
    rt: &'r R,
    frames: &'r SharedFrames,
    token_table: &'r TokenTable,
    roster: &'r Mutex<Roster<'a, B, F>>,
    shelf: &'r Mutex<RunShelf<W>>,
    parts: &'r [QueuePart<'a, B>],
    gate: &'r G,
    harts: usize,
    quantum: usize,
)
    requires frames { frames.now.table ≡ B.table }
    requires token_table { token_table.now ≡ B.token_table }
    requires of_files { W.files ≡ B.files }
{
    thread::scope(
        thread::scope_env(),
        rt,
        |scope|
            requires { (frames.now.table ≡ B.table) × (token_table.now ≡ B.token_table) × IsSync R.row × IsSync G.row × IsSend B.row
                × IsSync B.row × IsSend F.row × IsSync F.row × IsSend W.row × IsSync W.row × (W.files ≡ B.files) }
        {
            for number in 1..harts {
                let _ = scope.spawn(
                    move || -> ()
                        requires { (frames.now.table ≡ B.table) × (token_table.now ≡ B.token_table) × (W.files ≡ B.files) }
                    {
                        run_hart(
                            rt,
                            frames,
                            token_table,
                            roster,
                            shelf,
                            parts,
                            gate,
                            number,
                            quantum,
                        )
                    },
                );
            }
            run_hart(
                rt,
                frames,
                token_table,
                roster,
                shelf,
                parts,
                gate,
                0,
                quantum,
            );
        },
    );
}

/// Enlists the results of the starts, runs the harts until no process is unfinished, and returns the ended processes.
fn run_made<
    'a,
    B: Plan + Send + Sync,
    F: StartOutcomes + Send + Sync,
    W: RunFiles + Send + Sync,
    R: Threads + Wait + Sync,
    G: Gate + Sync,
>(
    starting: &StartContext<'_, R>,
    shelf: &Mutex<RunShelf<W>>,
    token_table: &TokenTable,
    issuer: TokenIssuer,
    ends: Vec<Finished<'a>>,
    lists: &'a [Sequence<Call<'a>>],
    starts: &[Start<'_>],
    parts: &[QueuePart<'a, B>],
    all: &mut VecDeque<StartResult<'a>>,
    slots: usize,
    harts: usize,
    quantum: usize,
    gate: &G,
) -> Vec<Finished<'a>>
    requires frames { starting.now.frames.now.table ≡ B.table }
    requires token_table { token_table.now ≡ B.token_table }
    requires of_files { W.files ≡ B.files }
    requires of_lists { lists.now ≡ B.lists }
    requires of_starts { starts.now ≡ B.plan }
    requires lists { All (λ start. start.list < length lists.now) starts.now }
    requires named { NameLists lists.now }
    requires at { KeepsAt B.token_table issuer }
    requires none { given_of issuer ≡ [] }
    requires none_ended { ends.items ≡ [] }
    requires room { vec_len ends + length starts.now ≤ vec_capacity ends }
    requires slots { slots ≡ F.slots }
    requires made { AreStartResults B.table F.slots starts.now 0 0 all.old.items }
    requires all { length all.old.items ≡ length starts.now }
    requires taken { F.taken ≡ slots_of all.old.items }
    requires full { F.full ≡ any_full all.old.items }
    requires free { F.free ≡ starting.now.free }
    requires framed { AreFramed F.free starts.now F.taken 0 all.old.items }
    ensures back { ComesBack B.table B.files B.lists B.plan result.items }
    ensures settled { All (MatchesSlots B.plan F.slots F.taken F.full F.free) result.items }
{
    let mut roster = Roster::<B, F>::with_room(ends, issuer, slots, starts.len());
    let rt = starting.rt;
    let alloc = starting.alloc;
    let enlisting = Enlister {
        rt,
        alloc,
        token_table,
        lists,
        parts,
    };
    enlisting.enlist_all::<F>(&mut roster, all, starts);
    let roster = Mutex::new(roster);
    run_all(
        rt,
        starting.frames,
        token_table,
        &roster,
        shelf,
        parts,
        gate,
        harts,
        quantum,
    );
    'rest: for _ in rt.forever() {
        if let Some(all) = roster.lock(rt).close(alloc) {
            return all;
        }
        thread::yield_now();
    }
    unreachable!()
}

/// `run_harts` for the run `B`. All host memory for the starts is allocated before the first is made, except for their
/// spaces. A process for whose space the host has no memory ends before its first call. `free` frames are free for the starts,
/// and if `alone`, no other seat is at the table, as the caller says.
fn run_in<
    'a,
    B: Plan + Send + Sync,
    W: RunFiles + Send + Sync,
    R: Threads + Wait + Sync,
    G: Gate + Sync,
>(
    rt: &R,
    alloc: Global,
    frames: &SharedFrames,
    kernel: &mut SharedSeat,
    shelf: &Mutex<RunShelf<W>>,
    token_table: &TokenTable,
    issuer: TokenIssuer,
    lists: &'a [Sequence<Call<'a>>],
    starts: &[Start<'_>],
    slots: usize,
    harts: usize,
    quantum: usize,
    gate: &G,
    alone: bool,
    free: usize,
) -> Result<Vec<Finished<'a>>, AllocError>
    requires frames { frames.now.table ≡ B.table }
    requires token_table { token_table.now ≡ B.token_table }
    requires of_files { W.files ≡ B.files }
    requires of_lists { lists.now ≡ B.lists }
    requires of_starts { starts.now ≡ B.plan }
    requires at { KeepsAt B.token_table issuer }
    requires none { given_of issuer ≡ [] }
    requires lists { All (λ start. start.list < length lists.now) starts.now }
    requires named { NameLists lists.now }
    requires fits { FitsIn B.table kernel.old }
    requires anchored { IsHeld (view_of kernel.old) 0 }
    ensures back { IfOk result (λ all. ComesBack B.table B.files B.lists B.plan all.items) }
    ensures slots { IfOk result (λ all. AreSlotted slots all.items) }
    ensures full { IfOk result (λ all. All (λ f. OnFull (HasReadFull (view_of kernel.old) (view_of kernel.new)) f.outcome) all.items) }
    ensures starts { alone ≡ true → IfOk result (λ all. ArePoolStarts slots free starts.now all.items) }
    ensures memory { IfErr result (λ _. kernel.new ≡ kernel.old) }
    ensures fits { FitsIn B.table kernel.new }
    ensures lends { Lends (view_of kernel.old) (view_of kernel.new) }
{
    let mut ends = Vec::new(alloc);
    ends.reserve(starts.len())?;
    let mut rooms = name_rooms(alloc, starts.len())?;
    let mut made = VecDeque::with_capacity(alloc, starts.len())?;
    let parts = parts_for::<B>(alloc, harts, slots)?;
    let starting = StartContext {
        rt,
        alloc,
        frames,
        alone,
        free,
    };
    starting.make_all(kernel, &mut rooms, &mut made, starts, slots);
    let parts = parts.as_slice();
    Ok(run_made::<B, Brand, W, R, G>(
        &starting,
        shelf,
        token_table,
        issuer,
        ends,
        lists,
        starts,
        parts,
        &mut made,
        slots,
        harts,
        quantum,
        gate,
    ))
}

/// Starts processes in order, each of an image and with a list of calls, and runs them on `harts` harts until all have
/// ended. Hart 0 is this thread, the others are threads of their own; a thread that cannot be started is left out. Page
/// tables are of Sv39. A hart takes a process from the run queue, makes up to `quantum` calls and puts it back. `slots` is
/// the number of places for processes. `shelf` has their files, which were those of `W` at first; `gate` is called before and
/// after each call.
///
/// `kernel` must be a seat at the table of `frames` that has a reference to frame 0, which it shares with the processes. It
/// then has the references and credits that it had, but may no longer be the sole holder of frame 0. Each start, and each
/// fork in `lists`, must name a list by an index below their number.
///
/// Returns each process that was started, and each child that a journal names, once, as it ended, and no other. Its journal
/// has the first calls of its list, which is that of its start or of its parent's fork; the last entry says how it ended,
/// except after `Memory` and `JournalFull`. After `Memory` there are fewer than `MOST_ENTRIES` entries; after `JournalFull`
/// there are as many, or the process has a mapping and its next call asks a promise for which a history of files has no room.
/// Its seat is still at the table of `frames`, and holds nothing. A start that was refused is returned too, with an empty
/// journal. Each call that needs files is answered over files that some page reads and writes give from those of `W`, each
/// read with the bytes that the writes before it left.
///
/// A start is refused with `NoSlot` exactly when at least `slots` of the starts before it took a slot. A start whose process
/// made a call took one, and one that was refused took none; nothing is said of a process that ended with `Memory` before its
/// first call. A start is refused with `SharersFull` only if the kernel's seat read a count of `MOST_REFERENCES` in this
/// call; with `BadImage` only if its image fails that check; with `NoFrame` only if its image is accepted and the free count
/// was read as 0 with fewer frames reserved than it needs. No start is refused with another refusal.
///
/// # Errors
/// `AllocError`: the kernel's seat is unchanged. All memory whose refusal is reported so is allocated before the first
/// start.
pub fn run_harts<'a, W: RunFiles + Send + Sync, R: Threads + Wait + Sync, G: Gate + Sync>(
    rt: &R,
    alloc: Global,
    frames: &SharedFrames,
    kernel: &mut SharedSeat,
    shelf: &Mutex<RunShelf<W>>,
    lists: &'a [Sequence<Call<'a>>],
    starts: &[Start<'_>],
    slots: usize,
    harts: usize,
    quantum: usize,
    gate: &G,
) -> Result<Vec<Finished<'a>>, AllocError>
    requires lists { All (λ start. start.list < length lists.now) starts.now }
    requires named { NameLists lists.now }
    requires fits { FitsIn frames.now.table kernel.old }
    requires anchored { IsHeld (view_of kernel.old) 0 }
    ensures back { IfOk result (λ all. ComesBack frames.now.table W.files lists.entry.now starts.now all.items) }
    ensures slots { IfOk result (λ all. AreSlotted slots all.items) }
    ensures full { IfOk result (λ all. All (λ f. OnFull (HasReadFull (view_of kernel.old) (view_of kernel.new)) f.outcome) all.items) }
    ensures memory { IfErr result (λ _. kernel.new ≡ kernel.old) }
    ensures fits { FitsIn frames.now.table kernel.new }
    ensures lends { Lends (view_of kernel.old) (view_of kernel.new) }
{
    let (token_table, issuer) = TokenTable::open(alloc)?;
    run_in::<Brand, W, R, G>(
        rt,
        alloc,
        frames,
        kernel,
        shelf,
        &token_table,
        issuer,
        lists,
        starts,
        slots,
        harts,
        quantum,
        gate,
        false,
        0,
    )
}

/// `run_harts` for a caller who says that no seat but `kernel` is at the table of `frames`, and that `free` frames are free. A
/// start that is refused with `SharersFull`, or with `NoFrame` though enough frames should be free, is tried again: if the
/// caller is wrong, or `slots` is above 65,534, the call may wait without end.
///
/// Returns what `run_harts` does. A start is refused with `NoFrame` only if the starts before it leave fewer of the `free`
/// frames than it needs, and with `SharersFull` never.
///
/// # Errors
/// `AllocError`: as of `run_harts`.
pub fn run_harts_alone<'a, W: RunFiles + Send + Sync, R: Threads + Wait + Sync, G: Gate + Sync>(
    rt: &R,
    alloc: Global,
    frames: &SharedFrames,
    kernel: &mut SharedSeat,
    shelf: &Mutex<RunShelf<W>>,
    lists: &'a [Sequence<Call<'a>>],
    starts: &[Start<'_>],
    slots: usize,
    harts: usize,
    quantum: usize,
    gate: &G,
    free: usize,
) -> Result<Vec<Finished<'a>>, AllocError>
    requires lists { All (λ start. start.list < length lists.now) starts.now }
    requires named { NameLists lists.now }
    requires fits { FitsIn frames.now.table kernel.old }
    requires anchored { IsHeld (view_of kernel.old) 0 }
    ensures back { IfOk result (λ all. ComesBack frames.now.table W.files lists.entry.now starts.now all.items) }
    ensures starts { IfOk result (λ all. ArePoolStarts slots free starts.now all.items) }
    ensures memory { IfErr result (λ _. kernel.new ≡ kernel.old) }
    ensures fits { FitsIn frames.now.table kernel.new }
    ensures lends { Lends (view_of kernel.old) (view_of kernel.new) }
{
    let (token_table, issuer) = TokenTable::open(alloc)?;
    run_in::<Brand, W, R, G>(
        rt,
        alloc,
        frames,
        kernel,
        shelf,
        &token_table,
        issuer,
        lists,
        starts,
        slots,
        harts,
        quantum,
        gate,
        true,
        free,
    )
}
