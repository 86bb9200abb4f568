// `is_reached`: waits until other threads have raised a number, at most 10,000 sleeps of a millisecond; returns whether they
// have.

use std::sync::atomic::{AtomicU64, Ordering};
use std::thread;
use std::time::Duration;

/// Waits until `number` is at least `least`, and returns true. Returns false after 10,000 looks with a millisecond of sleep
/// after each.
pub(crate) fn is_reached(rt: &HostRuntime, number: &AtomicU64, least: u64) -> bool {
    for _ in 0..10_000 {
        if number.load(Ordering::SeqCst) >= least {
            return true;
        }
        thread::sleep(rt, Duration::from_millis(1));
    }
    false
}
