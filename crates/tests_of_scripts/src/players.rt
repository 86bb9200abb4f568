// Plays scripts and files for threads, for other tests: `played` and `played_with` return the result and the text; `run_file`
// shows the processes that ended to a `Look` (trait).

ghost use Rattle.std.specs.Prelude.{◌≤◌};

use audit_player::{
    PlayError, Reader, Writer, lend_lists, lend_starts, play, play_threads_with, run_pool,
};
use hart_calls::Finished;
use hart_threads::Gate;
use script_reader::ThreadScript;
use std::alloc::Global;
use std::sync::Wait;
use std::test::Fail;
use std::thread::Threads;

/// Plays a script. Returns the result, and the text that was written.
pub(crate) fn played(alloc: Global, script: &[u8]) -> (Result<(), PlayError>, Vec<u8>) {
    let mut text = Vec::new(alloc);
    let mut reader = Reader::new(script);
    let mut writer = Writer::new(&mut text);
    let result = play(alloc, &mut reader, &mut writer);
    (result, text)
}

/// Plays a file for threads on `harts` harts, with hooks. Returns the result, and the text that was written.
pub(crate) fn played_with<T: Threads + Wait + Sync, G: Gate + Sync>(
    rt: &T,
    alloc: Global,
    file: &str,
    harts: usize,
    gate: &G,
) -> (Result<(), PlayError>, Vec<u8>)
    requires some { 1 ≤ harts }
    requires few { harts ≤ 8 }
{
    let mut text = Vec::new(alloc);
    let mut reader = Reader::new(file.as_bytes());
    let mut writer = Writer::new(&mut text);
    let result = play_threads_with(rt, alloc, &mut reader, &mut writer, harts, gate);
    (result, text)
}

/// Looks at the processes of a run.
pub(crate) trait Look {
    /// Looks at all processes of a run when they have ended.
    fn look(&mut self, ended: &[Finished<'_>]);
}

/// Runs a file for threads on `harts` harts, with hooks, and shows its processes to `look`.
///
/// # Errors
/// `Fail`: the file is refused, or the host is out of memory.
pub(crate) fn run_file<T: Threads + Wait + Sync, G: Gate + Sync, L: Look>(
    rt: &T,
    alloc: Global,
    file: &str,
    harts: usize,
    gate: &G,
    look: &mut L,
) -> Result<(), Fail>
    requires some { 1 ≤ harts }
    requires few { harts ≤ 8 }
{
    let Ok(script) = ThreadScript::read(alloc, file.as_bytes()) else {
        return Err(Fail::from("a file for threads is refused"));
    };
    let lists = lend_lists(alloc, &script)?;
    let starts = lend_starts(alloc, &script)?;
    let (ended, _) = run_pool(rt, alloc, &script, &lists, &starts, harts, gate)?;
    look.look(&ended);
    Ok(())
}
