// `play_threads` reads a file for threads, runs its processes on harts that are threads, and writes how each of them ended;
// `play_threads_with` adds hooks around each call; `run_pool` only runs parsed lists and starts, and returns the ends.

ghost use Rattle.std.specs.Prelude.{◌≡◌, ◌↔◌, ◌||◌, ◌≤◌, ◌<◌, All, false, length, map, IfOk, IsTrue, IsErrOf};
ghost use Rattle.atomic_table.specs.Seated.{TableId};
ghost use Rattle.hart_calls.specs.Track.{NameLists};
ghost use Rattle.run_roster.specs.RosterState.{ComesBack};
ghost use Rattle.run_roster.specs.StartFrames.{ArePoolStarts};
ghost use Rattle.process_model.specs.Files.{file_of};
ghost use Rattle.script_language.specs.declared.limits.TheConstants.{MOST_LISTS};
ghost use Rattle.script_reader.specs.ThreadsPlayable.{IsThreadPlayable};
ghost use Rattle.audit_player.specs.ThreadRunResult.{LeavesFree, PlaysLists, PlaysThreads, user_frames};

use crate::fault::PlayError;
use crate::kernel::{reserve_user_frames, take_kernel_frames};
use crate::player::play_error_of;
use crate::sink::Sink;
use crate::source::Source;
use crate::text_block::TextBlock;
use crate::thread_lists::{lend_lists, lend_starts};
use crate::thread_text::{sort_by_name, write_text};
use crate::transfer::{ReadError, read_bytes};
use file_cabinet::Cabinet;
use file_shelf::Shelf;
use hart_calls::Finished;
use hart_threads::{Gate, OpenGate, RunFiles, RunShelf, run_harts_alone};
use process_model::{Call, MOST_HARTS, Sequence, Start, kernel_frames};
use script_reader::ThreadScript;
use shared_frames::SharedFrames;
use std::alloc::{AllocError, Global};
use std::marker::Brand;
use std::sync::{Mutex, Wait};
use std::thread::Threads;
use sv39_entry::Scheme;

/// The most calls of a process that a hart makes before it takes the next process.
const QUANTUM: usize = 8;

/// Runs processes over the frames, slots and files of a parsed file for threads, on `harts` harts, 1 to 8, each of them a
/// thread; `gate` is called before and after each call of a process. There must be `MOST_LISTS` lists, and each start and each
/// fork must name one of them (`lend_lists`, `lend_starts`).
///
/// Returns the processes as they ended, one for each start and for each child (`ComesBack`, over the declared files), and how
/// many frames have reference count 0 then: all user frames. No seat but the kernel's holds a frame or has a credit then
/// (`LeavesFree`); the kernel waits for that.
/// A start is refused with `NoSlot` exactly when as many starts before it took a slot as there are, with `NoFrame` only if
/// these leave fewer user frames than it needs, and with `SharersFull` never.
///
/// # Errors
/// `AllocError`: host memory was refused.
pub fn run_pool<'a, T: Threads + Wait + Sync, G: Gate + Sync>(
    rt: &T,
    alloc: Global,
    script: &ThreadScript,
    lists: &'a [Sequence<Call<'a>>],
    starts: &[Start<'a>],
    harts: usize,
    gate: &G,
) -> Result<(Vec<Finished<'a>>, usize), AllocError>
    requires playable { IsThreadPlayable script.now }
    requires all { length lists.now ≡ MOST_LISTS }
    requires there { NameLists lists.now }
    requires starts { All (λ start. start.list < MOST_LISTS) starts.now }
    requires some { 1 ≤ harts }
    requires few { harts ≤ MOST_HARTS }
    ensures ended { IfOk result (λ r. (table : TableId) × ComesBack table (map file_of script.now.files) lists.entry.now starts.now r.0.items) }
    ensures refusals { IfOk result (λ r. ArePoolStarts script.now.pool.slots (user_frames script.now.pool) starts.now r.0.items) }
    ensures free { IfOk result (λ r. LeavesFree script.now.pool r.1) }
{
    let shelf = Shelf::new(alloc, Cabinet::new(alloc, script.files())?);
    run_files::<Brand, T, G>(rt, alloc, script, shelf, lists, starts, harts, gate)
}

/// `run_pool`, with the shelf, which began with the files of `W`, those that the file for threads declares.
fn run_files<'a, W: RunFiles + Send + Sync, T: Threads + Wait + Sync, G: Gate + Sync>(
    rt: &T,
    alloc: Global,
    script: &ThreadScript,
    shelf: Shelf,
    lists: &'a [Sequence<Call<'a>>],
    starts: &[Start<'a>],
    harts: usize,
    gate: &G,
) -> Result<(Vec<Finished<'a>>, usize), AllocError>
    requires playable { IsThreadPlayable script.now }
    requires first { shelf.first ≡ W.files }
    requires of_files { W.files ≡ map file_of script.now.files }
    requires all { length lists.now ≡ MOST_LISTS }
    requires there { NameLists lists.now }
    requires starts { All (λ start. start.list < MOST_LISTS) starts.now }
    requires some { 1 ≤ harts }
    requires few { harts ≤ MOST_HARTS }
    ensures ended { IfOk result (λ r. (table : TableId) × ComesBack table (map file_of script.now.files) lists.entry.now starts.now r.0.items) }
    ensures refusals { IfOk result (λ r. ArePoolStarts script.now.pool.slots (user_frames script.now.pool) starts.now r.0.items) }
    ensures free { IfOk result (λ r. LeavesFree script.now.pool r.1) }
{
    let pool = script.pool();
    let shelf = Mutex::new(RunShelf::<W>::new(shelf));
    let (frames, mut seat) = SharedFrames::new(alloc, pool.frames)?;
    let kernel = kernel_frames(Scheme::Sv39, pool.frames, pool.slots);
    take_kernel_frames(rt, &frames, &mut seat, kernel);
    let free = pool.frames - kernel;
    let ended = run_harts_alone(
        rt, alloc, &frames, &mut seat, &shelf, lists, starts, pool.slots, harts, QUANTUM, gate,
        free,
    )?;
    reserve_user_frames(rt, &frames, &mut seat, free);
    let totals = frames.close(seat);
    Ok((ended, totals.free))
}

/// Plays a parsed file for threads on `harts` harts, 1 to 8, each of them a thread, and writes how its processes ended.
///
/// # Errors
/// `Memory`: host memory was refused; nothing is written. `Io`: exactly when the writer fails in this call, if
/// it had not failed before.
fn run_threads<T: Threads + Wait + Sync, W: Sink, G: Gate + Sync>(
    rt: &T,
    alloc: Global,
    script: &ThreadScript,
    writer: &mut W,
    harts: usize,
    gate: &G,
) -> Result<(), PlayError>
    requires playable { IsThreadPlayable script.now }
    requires some { 1 ≤ harts }
    requires few { harts ≤ MOST_HARTS }
    ensures plays { PlaysLists (W.contents writer.old) (W.contents writer.new) result (Ok script.now) }
    ensures io { W.broken writer.old ≡ false → (IsErrOf result PlayError.Io ↔ IsTrue (W.broken writer.new)) }
{
    let Ok(block) = TextBlock::new(alloc) else {
        return Err(PlayError::Memory);
    };
    let Ok(lists) = lend_lists(alloc, script) else {
        return Err(PlayError::Memory);
    };
    let Ok(starts) = lend_starts(alloc, script) else {
        return Err(PlayError::Memory);
    };
    let Ok((mut ended, free)) = run_pool(
        rt,
        alloc,
        script,
        lists.as_slice(),
        starts.as_slice(),
        harts,
        gate,
    ) else {
        return Err(PlayError::Memory);
    };
    sort_by_name(&mut ended);
    let pool = script.pool();
    let frames = pool.frames - kernel_frames(Scheme::Sv39, pool.frames, pool.slots);
    if write_text(writer, block, ended.as_slice(), free as u64, frames as u64) {
        Ok(())
    } else {
        Err(PlayError::Io)
    }
}

/// Reads a file for threads, runs its processes on `harts` harts, 1 to 8, each of them a thread, and writes how each process
/// ended: a line for each start and each child, sorted by their names, and last how many user frames are free. A process for
/// whose calls the host has no memory ends by `21 Memory`, which its line says. Clause `plays` speaks of known bytes
/// (`Source::remaining`, `Sink::contents`).
///
/// # Errors
/// `Script(n, cause)`: the file's first fault, in line `n`, counted from 1, or 0 for the file as a whole; nothing is
/// written. `Memory`: host memory was refused; nothing is written. `Io`: exactly when the reader or the writer fails in this
/// call, if neither had failed before; nothing is written, or a prefix of a text of the file.
pub fn play_threads<T: Threads + Wait + Sync, R: Source, W: Sink>(
    rt: &T,
    alloc: Global,
    reader: &mut R,
    writer: &mut W,
    harts: usize,
) -> Result<(), PlayError>
    requires some { 1 ≤ harts }
    requires few { harts ≤ MOST_HARTS }
    ensures plays { PlaysThreads (R.remaining reader.old) (W.contents writer.old) (W.contents writer.new) result }
    ensures io { R.broken reader.old ≡ false → W.broken writer.old ≡ false
        → (IsErrOf result PlayError.Io ↔ IsTrue (R.broken reader.new || W.broken writer.new)) }
{
    play_threads_with(rt, alloc, reader, writer, harts, &OpenGate)
}

/// `play_threads`, with hooks: `gate` is called before and after each call of a process, on the thread of
/// its hart, with no lock held.
///
/// # Errors
/// `Script(n, cause)`: the file's first fault, in line `n`, counted from 1, or 0 for the file as a whole; nothing is
/// written. `Memory`: host memory was refused; nothing is written. `Io`: exactly when the reader or the writer fails in this
/// call, if neither had failed before; nothing is written, or a prefix of a text of the file.
pub fn play_threads_with<T: Threads + Wait + Sync, R: Source, W: Sink, G: Gate + Sync>(
    rt: &T,
    alloc: Global,
    reader: &mut R,
    writer: &mut W,
    harts: usize,
    gate: &G,
) -> Result<(), PlayError>
    requires some { 1 ≤ harts }
    requires few { harts ≤ MOST_HARTS }
    ensures plays { PlaysThreads (R.remaining reader.old) (W.contents writer.old) (W.contents writer.new) result }
    ensures io { R.broken reader.old ≡ false → W.broken writer.old ≡ false
        → (IsErrOf result PlayError.Io ↔ IsTrue (R.broken reader.new || W.broken writer.new)) }
{
    let bytes = match read_bytes(alloc, reader) {
        Ok(bytes) => bytes,
        Err(ReadError::Memory) => return Err(PlayError::Memory),
        Err(ReadError::Io) => return Err(PlayError::Io),
    };
    let script = match ThreadScript::read(alloc, bytes.as_slice()) {
        Ok(script) => script,
        Err(error) => return Err(play_error_of(error)),
    };
    // What the lists say is in the script now.
    drop(bytes);
    run_threads(rt, alloc, &script, writer, harts, gate)
}
