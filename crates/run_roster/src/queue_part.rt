// The run queue: `QueuePart`, a queue of jobs (unfinished processes) under a lock, one for each hart; `put` appends a job to a
// part that has room. No contract names what is in a part, since other harts change it as soon as its lock is released: that no
// job is lost or doubled follows from the types, as a `Job` is neither `Drop` nor `Copy`.

use crate::job::Job;
use crate::job_queue::JobQueue;
use crate::plan::Plan;
use crossbeam_utils::CachePadded;
use std::sync::{Mutex, Wait};

/// One part of the run queue, under its lock. No other part is on its cache lines, so a hart that locks its own part does
/// not slow down the others.
pub type QueuePart<'a, B> = Mutex<CachePadded<JobQueue<'a, B>>>;

/// Puts a job into part `hart`, or the next one that has room; it tries until one has. Each part has room for as many jobs
/// as there are slots.
pub fn put<'a, B: Plan, R: Wait>(rt: &R, parts: &[QueuePart<'a, B>], hart: usize, job: Job<'a, B>) {
    let mut left = job;
    let mut place = hart;
    'tries: for _ in rt.forever() {
        if parts.len() == 0 {
            continue;
        }
        place %= parts.len();
        match parts[place].lock(rt).push(left) {
            Ok(()) => return,
            Err(job) => left = job,
        }
        place += 1;
    }
    unreachable!()
}
