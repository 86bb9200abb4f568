// `make`: the quiz of a subject and a seed.

use crate::quiz::Quiz;
use crate::subject::Subject;
use std::alloc::{AllocError, Global};

/// Returns a quiz of a subject and a seed: equal ones give equal quizzes. Each attempt is another quiz.
///
/// # Errors
/// `AllocError`: the host is out of memory.
pub fn make(alloc: Global, subject: Subject, seed: u64, attempt: u64) -> Result<Quiz, AllocError> {
    let mut quiz = Quiz::new(alloc, subject, seed, attempt);
    match subject {
        Subject::Cow => quiz.make_cow(),
        Subject::Lazy => quiz.make_lazy(),
        Subject::Mmap => quiz.make_mmap(),
        Subject::Tlb => quiz.make_tlb(),
        Subject::Walk => quiz.make_walk(),
    }
    quiz.finish()
}
