// `Quiz`: a script that is being made, and which of its lines are worth a question.

use crate::process::Process;
use crate::subject::Subject;
use std::alloc::{AllocError, Global};
use usertest_rows::{Expected, Line};
use usertest_world::Random;

/// Who answers the lines of a quiz.
#[derive(Clone, Copy)]
pub enum Teller {
    /// The machine that plays scripts.
    Machine,
    /// The reference MMU.
    Mmu,
}

/// Where the hart is.
#[derive(Clone, Copy)]
pub(crate) enum Place {
    Idle,
    User,
    Kernel,
}

/// A quiz: its script, with what is predicted of each answer, and which of its lines are worth a question.
#[derive(Drop)]
pub struct Quiz {
    pub(crate) alloc: Global,
    pub subject: Subject,
    pub seed: u64,
    pub teller: Teller,
    pub lines: Vec<Line>,
    /// The places of the lines that are worth a question, from 0, ascending.
    pub worthy: Vec<usize>,
    pub(crate) random: Random,
    pub(crate) processes: Vec<Process>,
    /// The place of the process on hart 0.
    pub(crate) current: usize,
    pub(crate) place: Place,
    /// Whether the host was out of memory for a part of it.
    is_lost: bool,
}

impl Quiz {
    /// Returns a quiz without lines.
    pub(crate) fn new(alloc: Global, subject: Subject, seed: u64, attempt: u64) -> Quiz {
        // Each subject and attempt has numbers of its own.
        let numbers = seed
            .wrapping_mul(8)
            .wrapping_add(attempt)
            .wrapping_mul(8)
            .wrapping_add(subject.number());
        Quiz {
            alloc,
            subject,
            seed,
            teller: Teller::Machine,
            lines: Vec::new(alloc),
            worthy: Vec::new(alloc),
            random: Random::of_seed(numbers),
            processes: Vec::new(alloc),
            current: 0,
            place: Place::Idle,
            is_lost: false,
        }
    }

    /// Notes that the host was out of memory for a part: `finish` returns the error, so no step needs to.
    pub(crate) fn lose(&mut self) {
        self.is_lost = true;
    }

    /// `lose`, if a part was not made.
    pub(crate) fn note(&mut self, made: Result<(), AllocError>) {
        if made.is_err() {
            self.lose();
        }
    }

    /// Returns the quiz.
    ///
    /// # Errors
    /// `AllocError`: the host was out of memory for a part of it.
    pub(crate) fn finish(self) -> Result<Quiz, AllocError> {
        if self.is_lost {
            Err(AllocError)
        } else {
            Ok(self)
        }
    }

    /// Adds a line.
    fn push(&mut self, text: Result<String, AllocError>, expected: Expected) {
        let Ok(text) = text else {
            return self.lose();
        };
        if self.lines.push(Line { text, expected }).is_err() {
            self.lose();
        }
    }

    /// Adds a declaration, which has no answer.
    pub(crate) fn declare(&mut self, text: Result<String, AllocError>) {
        self.push(text, Expected::Nothing);
    }

    /// Adds a line whose answer begins with these words.
    pub(crate) fn say(&mut self, text: Result<String, AllocError>, words: &str) {
        match String::from_str(self.alloc, words) {
            Ok(words) => self.push(text, Expected::Begins(words)),
            Err(_) => self.lose(),
        }
    }

    /// Notes that the next line is worth a question.
    fn mark_next(&mut self) {
        if self.worthy.push(self.lines.len()).is_err() {
            self.lose();
        }
    }

    /// Adds a line whose answer begins with these words, and that is worth a question.
    pub(crate) fn ask(&mut self, text: Result<String, AllocError>, words: &str) {
        self.mark_next();
        self.say(text, words);
    }

    /// Adds a line that is worth a question if `asks`.
    pub(crate) fn put(&mut self, asks: bool, text: Result<String, AllocError>, words: &str) {
        if asks {
            self.ask(text, words);
        } else {
            self.say(text, words);
        }
    }

    /// Adds a kernel copy that is worth a question: it is short after `done` bytes if these are fewer than `count`.
    pub(crate) fn ask_copy(&mut self, text: Result<String, AllocError>, done: u64, count: u64) {
        if done == count {
            return self.ask(text, "copied");
        }
        self.mark_next();
        self.push(text, Expected::Short(done));
    }

    /// `say`, with a text that is not owned.
    pub(crate) fn say_words(&mut self, text: &str, words: &str) {
        self.say(String::from_str(self.alloc, text), words);
    }

    /// Returns a text with so many random bytes after it, in hexadecimal digits.
    pub(crate) fn with_bytes(
        &mut self,
        start: Result<String, AllocError>,
        count: u64,
    ) -> Result<String, AllocError> {
        let mut text = start?;
        for _ in 0..count {
            let byte = self.random.between(0x10, 0x100);
            write!(&mut text, "{byte:02x}")?;
        }
        Ok(text)
    }

    /// Returns whether the script is long enough: it may be longer if few lines are worth a question.
    pub(crate) fn is_long(&self) -> bool {
        let (lines, worthy) = (self.lines.len(), self.worthy.len());
        lines >= 24 || (lines >= 19 && worthy >= 9)
    }

    /// Returns the process on the hart, if there is one.
    pub(crate) fn me(&self) -> Option<&Process> {
        self.processes.get(self.current)
    }

    /// Returns the process on the hart, to be changed.
    pub(crate) fn me_mut(&mut self) -> Option<&mut Process> {
        self.processes.get_mut(self.current)
    }
}
