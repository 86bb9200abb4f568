// `JobQueue` (struct): the jobs (unfinished processes) of one part of the run queue, in order; `push` appends one, `pop` takes
// the first. Contracts see them by their vouchers.

ghost use Rattle.std.specs.Prelude.{◌≡◌, ◌∷◌, ◌++◌, [], IfErr, IfOk, MatchOption};
ghost use Rattle.run_roster.specs.Queues.{jobs_of};
ghost use Rattle.vouchers.specs.IssuerSeats.{held_of};

use crate::job::Job;
use crate::plan::Plan;
use crate::queued_job::QueuedJob;
use std::alloc::{AllocError, Global};
use std::collections::VecDeque;

/// Jobs in order. A job that was pushed stays until it is popped.
#[derive(Drop)]
pub struct JobQueue<'a, B: Plan> {
    jobs: VecDeque<QueuedJob<'a, B>>,
}

impl<'a, B: Plan> JobQueue<'a, B> {
    /// Makes a queue without jobs, with room for `jobs` of them.
    ///
    /// # Errors
    /// `AllocError`: the host is out of memory.
    pub fn with_room(alloc: Global, jobs: usize) -> Result<JobQueue<'a, B>, AllocError>
        ensures none { IfOk result (λ queue. jobs_of queue ≡ []) }
    {
        let jobs = VecDeque::with_capacity(alloc, jobs)?;
        Ok(JobQueue { jobs })
    }

    /// Appends a job.
    ///
    /// # Errors
    /// The job, if there is no room and the host is out of memory.
    #[tactic(auto, using(crate::proofs::Queueing::waiting_push))]
    pub fn push(&mut self, job: Job<'a, B>) -> Result<(), Job<'a, B>>
        ensures pushed { IfOk result (λ _. jobs_of self.new ≡ jobs_of self.old ++ held_of job.entry.token ∷ []) }
        ensures back { IfErr result (λ same. held_of same.token ≡ held_of job.entry.token) }
        ensures stays { IfErr result (λ _. jobs_of self.new ≡ jobs_of self.old) }
    {
        let Job { tracked, token } = job;
        match self.jobs.push_back(QueuedJob { tracked, token }) {
            Ok(()) => Ok(()),
            Err(full) => {
                let QueuedJob { tracked, token } = full.value;
                Err(Job { tracked, token })
            }
        }
    }

    /// Takes the first job, if there is one.
    pub fn pop(&mut self) -> Option<Job<'a, B>>
        ensures { MatchOption result (jobs_of self.new ≡ jobs_of self.old) (λ job.
            jobs_of self.old ≡ held_of job.token ∷ jobs_of self.new) }
    {
        match self.jobs.pop_front() {
            Some(queued) => {
                let QueuedJob { tracked, token } = queued;
                Some(Job { tracked, token })
            }
            None => None,
        }
    }
}
