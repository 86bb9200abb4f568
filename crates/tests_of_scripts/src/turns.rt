// Tests how many calls of a process a hart makes before it takes the next one, and which one it takes: on one hart, a hook
// (`Turns`, a struct) sees eight calls of each process in turn, so that none waits until another ends.

use crate::players::played_with;
use hart_threads::Gate;
use process_model::Call;
use std::alloc::{AllocError, Global};
use std::sync::atomic::{AtomicU64, Ordering};
use std::test::Fail;
use text_builder::Text;

/// A hook that keeps the turns as a number with two hexadecimal digits for each, the last turn lowest: one more than the number
/// of the process, and how many calls it made.
#[derive(Drop)]
struct Turns {
    turns: AtomicU64,
}

impl Gate for Turns {
    fn enter(&self, _hart: usize, name: &[u64], _call: Call<'_>) {
        let process = match name {
            [number] => number.wrapping_add(1),
            _ => 0,
        };
        let turns = self.turns.load(Ordering::SeqCst);
        let turns = if turns / 16 % 16 == process {
            turns.wrapping_add(1)
        } else {
            let front = turns.wrapping_mul(256);
            front.wrapping_add(process.wrapping_mul(16).wrapping_add(1))
        };
        self.turns.store(turns, Ordering::SeqCst);
    }

    fn leave(&self, _hart: usize, _name: &[u64], _call: Call<'_>) {}
}

/// A file for threads of so many processes, each with so many loads and the exit at the end of its list.
fn file(alloc: Global, processes: usize, loads: usize) -> Result<String, AllocError> {
    let mut text = Text::new(alloc);
    text.push_str("image 0x1000:0x1000:rw:-\npool 64 4\nlist 0\n");
    for _ in 0..loads {
        text.push_str("load 0x1000 1\n");
    }
    for _ in 0..processes {
        text.push_str("start 0 0\n");
    }
    text.finish()
}

/// Processes, loads of each, the text, and the turns.
static ROWS: [(usize, usize, &str, u64); 2] = [
    (
        2,
        23,
        "process 0 calls 24 exit 0\nprocess 1 calls 24 exit 0\nfree 54 of 54\n",
        0x1828_1828_1828,
    ),
    (
        3,
        15,
        "process 0 calls 16 exit 0\nprocess 1 calls 16 exit 0\nprocess 2 calls 16 exit 0\nfree 54 of 54\n",
        0x1828_3818_2838,
    ),
];

#[test]
fn a_turn_is_eight_calls_of_each(rt: HostRuntime) -> Result<(), Fail> {
    for number in 0..ROWS.len() {
        let (processes, loads, wanted, turns) = &ROWS[number];
        let gate = Turns {
            turns: AtomicU64::new(0),
        };
        let file = file(rt.alloc(), *processes, *loads)?;
        let (result, text) = played_with(&rt, rt.alloc(), file.as_str(), 1, &gate);
        let is_text = text.as_slice() == wanted.as_bytes();
        let seen = gate.turns.load(Ordering::SeqCst);
        assert_eq!(rt; (result, is_text, seen), (Ok(()), true, *turns));
    }
    Ok(())
}
