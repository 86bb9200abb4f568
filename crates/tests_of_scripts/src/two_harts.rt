// Tests that two harts are two threads: while a hook (`HoldsFirst`, a struct) holds the first call of one hart, a call of
// the other is made.

use crate::bounded_waits::is_reached;
use crate::players::played_with;
use hart_threads::Gate;
use process_model::Call;
use std::sync::atomic::{AtomicU64, Ordering};
use std::test::Fail;

/// A hook that holds the first call that enters until a call of another hart has left, or `is_reached` gives up.
#[derive(Drop)]
struct HoldsFirst<'r> {
    rt: &'r HostRuntime,
    /// One more than the number of the hart whose call entered first; 0 before.
    first: AtomicU64,
    others_left: AtomicU64,
    gave_up: AtomicU64,
}

impl Gate for HoldsFirst<'_> {
    fn enter(&self, hart: usize, _name: &[u64], _call: Call<'_>) {
        let this = (hart as u64).saturating_add(1);
        let is_first = self
            .first
            .compare_exchange(0, this, Ordering::SeqCst, Ordering::SeqCst)
            .is_ok();
        if is_first && !is_reached(self.rt, &self.others_left, 1) {
            self.gave_up.store(1, Ordering::SeqCst);
        }
    }

    fn leave(&self, hart: usize, _name: &[u64], _call: Call<'_>) {
        let this = (hart as u64).saturating_add(1);
        let first = self.first.load(Ordering::SeqCst);
        if first > 0 && first != this {
            self.others_left.store(1, Ordering::SeqCst);
        }
    }
}

const FILE: &str =
    "image 0x1000:0x1000:rw:-\npool 64 4\nlist 0\nload 0x1000 1\nload 0x1000 1\nstart 0 0\nstart 0 0\n";

const TEXT: &str = "process 0 calls 3 exit 0\nprocess 1 calls 3 exit 0\nfree 54 of 54\n";

/// From the bytes of a file for threads to its text. On one thread no call of another hart could leave while the first is
/// held.
#[test]
fn two_harts_are_two_threads(rt: HostRuntime) -> Result<(), Fail> {
    let gate = HoldsFirst {
        rt: &rt,
        first: AtomicU64::new(0),
        others_left: AtomicU64::new(0),
        gave_up: AtomicU64::new(0),
    };
    let (result, text) = played_with(&rt, rt.alloc(), FILE, 2, &gate);
    let seen = [
        gate.others_left.load(Ordering::SeqCst),
        gate.gave_up.load(Ordering::SeqCst),
    ];
    assert_eq!(rt;
        (result, text.as_slice(), seen),
        (Ok(()), TEXT.as_bytes(), [1, 0])
    );
    Ok(())
}
