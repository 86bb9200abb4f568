// What harts do with the run queue, whose parts are queues of jobs (unfinished processes) under locks, one for each hart:
// `parts_for` allocates them, `take` pops a job from the hart's own part or else from another, `exchange` puts one back into
// the hart's own part and takes the next. As of `put`, no contract names what is in a part.

use crossbeam_utils::CachePadded;
use run_roster::{Job, JobQueue, Plan, QueuePart, put};
use std::alloc::{AllocError, Global};
use std::sync::{Mutex, Wait};

/// Makes a part for each hart, at least one, each with room for `slots` jobs.
///
/// # Errors
/// `AllocError`: the host is out of memory.
pub(crate) fn parts_for<'a, B: Plan>(
    alloc: Global,
    harts: usize,
    slots: usize,
) -> Result<Vec<QueuePart<'a, B>>, AllocError> {
    let mut parts = Vec::new(alloc);
    'parts: for _ in 0..harts.max(1) {
        let jobs = JobQueue::with_room(alloc, slots)?;
        parts.push(Mutex::new(CachePadded::new(jobs)))?;
    }
    Ok(parts)
}

/// Takes the next job from the hart's own part, or else from the others in turn. `None` if each part was empty when it was
/// locked.
pub(crate) fn take<'a, B: Plan, R: Wait>(
    rt: &R,
    parts: &[QueuePart<'a, B>],
    hart: usize,
) -> Option<Job<'a, B>> {
    'parts: for k in 0..parts.len() {
        let part = &parts[(hart % parts.len() + k) % parts.len()];
        match part.lock(rt).pop() {
            Some(job) => return Some(job),
            None => {}
        }
    }
    None
}

/// Puts a job back into the hart's own part, behind its other jobs, and takes the first of these, under one lock. Returns the
/// job itself if there is no other.
pub(crate) fn exchange<'a, B: Plan, R: Wait>(
    rt: &R,
    parts: &[QueuePart<'a, B>],
    hart: usize,
    job: Job<'a, B>,
) -> Job<'a, B> {
    let Some(part) = parts.get(hart) else {
        return job;
    };
    let mut part = part.lock(rt);
    let next = match part.pop() {
        Some(next) => next,
        None => return job,
    };
    match part.push(job) {
        Ok(()) => {}
        Err(job) => {
            drop(part);
            put(rt, parts, hart, job);
        }
    }
    next
}
