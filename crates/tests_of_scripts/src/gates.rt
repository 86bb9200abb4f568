// Tests that a hook (`Gate`, run before and after each call) sees each call once before it is made and once after, on one
// hart (`Pairs`, a struct); and that no lock is held then: while a hook holds a call, the other hart goes on (`HoldsZero`, a
// struct).

ghost use Rattle.std.specs.Prelude.{◌≤◌};

use crate::bounded_waits::is_reached;
use crate::players::{Look, run_file};
use hart_calls::Finished;
use hart_threads::Gate;
use process_model::Call;
use std::alloc::Global;
use std::sync::Wait;
use std::sync::atomic::{AtomicU64, Ordering};
use std::test::Fail;
use std::thread::Threads;

/// A number above 0 by which to tell calls apart: made of the name of the process, the call and its fields.
fn number_of(name: &[u64], call: Call<'_>) -> u64 {
    let (kind, first, second): (u64, u64, u64) = match call {
        Call::Load { address, width } => (1, address, width),
        Call::Store { address, value, .. } => (2, address, value),
        Call::Fork { list } => (3, list as u64, 0),
        Call::Mmap { length, file, .. } => (4, length, file as u64),
        Call::Munmap { address, length } => (5, address, length),
        Call::Exit { status } => (6, status.unsigned_abs() as u64, 0),
        _ => (7, 0, 0),
    };
    let mut number = mixed(mixed(kind, first), second);
    for part in name {
        number = mixed(number, *part).wrapping_add(1);
    }
    number.max(1)
}

/// A number made of two.
fn mixed(number: u64, part: u64) -> u64 {
    number.wrapping_mul(1_000_003).wrapping_add(part)
}

/// A hook that checks that calls enter and leave in pairs, by hart, process and call, and counts the pairs.
#[derive(Drop)]
struct Pairs {
    /// By hart, the call that has entered and not left; 0 for none.
    inside: [AtomicU64; 8],
    pairs: AtomicU64,
    wrong: AtomicU64,
}

impl Pairs {
    /// No call has entered.
    fn new() -> Pairs {
        Pairs {
            inside: [
                AtomicU64::new(0),
                AtomicU64::new(0),
                AtomicU64::new(0),
                AtomicU64::new(0),
                AtomicU64::new(0),
                AtomicU64::new(0),
                AtomicU64::new(0),
                AtomicU64::new(0),
            ],
            pairs: AtomicU64::new(0),
            wrong: AtomicU64::new(0),
        }
    }

    /// Sets the number of a hart to `after`. Sets `wrong` if it was not `before`, or if there is no such hart.
    fn change(&self, hart: usize, before: u64, after: u64) {
        let is_right = match self.inside.get(hart) {
            Some(inside) => inside.swap(after, Ordering::SeqCst) == before,
            None => false,
        };
        if !is_right {
            self.wrong.store(1, Ordering::SeqCst);
        }
    }
}

impl Gate for Pairs {
    fn enter(&self, hart: usize, name: &[u64], call: Call<'_>) {
        self.change(hart, 0, number_of(name, call));
    }

    fn leave(&self, hart: usize, name: &[u64], call: Call<'_>) {
        self.change(hart, number_of(name, call), 0);
        self.pairs.fetch_add(1, Ordering::SeqCst);
    }
}

/// A file for threads of seven processes. Four of them fork; in each of the other three a call is refused, and the process
/// ends by a rule.
const FAMILIES: &str =
    "file 16 rw -\nimage 0x1000:0x1000:rw:-\npool 128 8\nlist 0\nfork 1\nmmap 16 3 1 0\nfork 1\nstore 0x1000 8 1\nlist 1\nload 0x1000 8\nstore 0x1000 8 2\nfork 2\nlist 2\nmmap 16 3 1 0\nmunmap 0x3fffffc000 32\nload 0x2000 1\nstart 0 0\nstart 0 1\n";

/// How many processes there were in a run, and how many calls they made.
#[derive(Drop)]
struct Counts {
    processes: usize,
    calls: u64,
}

impl Look for Counts {
    fn look(&mut self, ended: &[Finished<'_>]) {
        self.processes = ended.len();
        for finished in ended {
            let calls = finished.journal.len() as u64;
            self.calls = self.calls.saturating_add(calls);
        }
    }
}

/// Runs a file for threads on `harts` harts, with hooks. Returns what was counted.
fn counted<T: Threads + Wait + Sync, G: Gate + Sync>(
    rt: &T,
    alloc: Global,
    file: &str,
    harts: usize,
    gate: &G,
) -> Result<Counts, Fail>
    requires some { 1 ≤ harts }
    requires few { harts ≤ 8 }
{
    let mut counts = Counts {
        processes: 0,
        calls: 0,
    };
    run_file(rt, alloc, file, harts, gate, &mut counts)?;
    Ok(counts)
}

#[test]
fn each_call_enters_and_leaves_once(rt: HostRuntime) -> Result<(), Fail> {
    for harts in [1, 2, 8] {
        let gate = Pairs::new();
        let counts = counted(&rt, rt.alloc(), FAMILIES, harts, &gate)?;
        let pairs = gate.pairs.load(Ordering::SeqCst);
        let wrong = gate.wrong.load(Ordering::SeqCst);
        assert_eq!(rt;
            (harts, counts.processes, pairs, wrong),
            (harts, 7, counts.calls, 0)
        );
    }
    Ok(())
}

/// A hook that holds the first call of process 0 twice: before it is made, until process 2 has ended, and after it was made,
/// until process 4 has. Process 1 waits until the first hold begins, and process 4 until the second does. So during each
/// hold the other hart forks, maps a file, ends a process, and takes the next one from the held hart's part of the run
/// queue.
#[derive(Drop)]
struct HoldsZero<'r> {
    rt: &'r HostRuntime,
    entered: AtomicU64,
    leaving: AtomicU64,
    /// 2 once process 2 has ended, 4 once process 4 has.
    ended: AtomicU64,
    gave_up: AtomicU64,
}

impl HoldsZero<'_> {
    fn wait(&self, number: &AtomicU64, least: u64) {
        if !is_reached(self.rt, number, least) {
            self.gave_up.store(1, Ordering::SeqCst);
        }
    }
}

impl Gate for HoldsZero<'_> {
    fn enter(&self, _hart: usize, name: &[u64], _call: Call<'_>) {
        match name {
            [0] => {
                self.entered.store(1, Ordering::SeqCst);
                self.wait(&self.ended, 2);
            }
            [1] => self.wait(&self.entered, 1),
            [4] => self.wait(&self.leaving, 1),
            _ => {}
        }
    }

    fn leave(&self, _hart: usize, name: &[u64], call: Call<'_>) {
        match (name, call) {
            ([0], _) => {
                self.leaving.store(1, Ordering::SeqCst);
                self.wait(&self.ended, 4);
            }
            ([2], Call::Exit { .. }) => self.ended.store(2, Ordering::SeqCst),
            ([4], Call::Exit { .. }) => self.ended.store(4, Ordering::SeqCst),
            _ => {}
        }
    }
}

/// A file for threads. Processes 0 and 1 run first, on a hart each; 2 and 4 come after process 0 in the run queue, and 3
/// after process 1.
const BEHIND: &str =
    "file 16 rw -\nimage 0x1000:0x1000:rw:-\npool 128 8\nlist 0\nload 0x1000 1\nlist 1\nfork 3\nmmap 16 3 1 0\nload 0x3fffffd000 1\nlist 3\nstart 0 0\nstart 0 1\nstart 0 1\nstart 0 3\nstart 0 1\n";

#[test]
fn no_lock_is_held_at_a_gate(rt: HostRuntime) -> Result<(), Fail> {
    let gate = HoldsZero {
        rt: &rt,
        entered: AtomicU64::new(0),
        leaving: AtomicU64::new(0),
        ended: AtomicU64::new(0),
        gave_up: AtomicU64::new(0),
    };
    let counts = counted(&rt, rt.alloc(), BEHIND, 2, &gate)?;
    let ended = gate.ended.load(Ordering::SeqCst);
    let gave_up = gate.gave_up.load(Ordering::SeqCst);
    assert_eq!(rt; (counts.processes, ended, gave_up), (8, 4, 0));
    Ok(())
}
