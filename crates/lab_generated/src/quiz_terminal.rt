// Quizzes in a terminal (`read`), as a page (`page`) and as text for whoever asks (`script`).

use crate::quiz::Game;
use lab_host::{Fault, Reading, Screen, print, read_line, without_feed};
use pictures::{put_question, put_quiz_end, put_quiz_start};
use quiz_answers::is_right;
use quizzes::Teller;
use std::alloc::{AllocError, Global};
use std::fmt;
use std::io::{BufReader, Read};
use text_builder::Text;

/// How many guesses were right, of those that were made.
#[derive(Clone, Copy)]
struct Score {
    right: usize,
    asked: usize,
}

/// For example `3 right of 5`.
impl fmt::Display for Score {
    fn fmt<W: fmt::Write>(&self, f: &mut fmt::Formatter<W>) -> fmt::Result {
        let (right, asked) = (self.right, self.asked);
        write!(f, "{right} right of {asked}")
    }
}

impl Score {
    /// Returns the score after another guess.
    fn with(self, right: bool) -> Score {
        let more = if right { 1 } else { 0 };
        Score {
            right: self.right.saturating_add(more),
            asked: self.asked.saturating_add(1),
        }
    }
}

impl Game {
    /// Returns a guess; `;` for each comma between outcomes of a reference MMU.
    fn parted(&self, guess: &[u8]) -> Result<Vec<u8>, AllocError> {
        let of_mmu = self.quiz.teller == Teller::Mmu;
        let mut text = Vec::with_capacity(self.alloc, guess.len())?;
        for byte in guess {
            text.push(if of_mmu && *byte == b',' { b';' } else { *byte })?;
        }
        Ok(text)
    }

    /// Returns the guess at a line that was typed.
    fn guess_of(&self, at: usize, typed: &[u8]) -> Result<Vec<u8>, AllocError> {
        let guess = self.parted(without_feed(typed).trim_ascii())?;
        self.completed(at, guess)
    }

    /// Appends a question: the lines since the question before, and its line.
    fn put_question(&self, out: &mut Text, first: usize, at: usize) {
        self.put_between(out, first, at);
        out.push_str(self.line(at));
        out.push_str("\n")
    }

    /// Appends the answer to a line beside a guess that is not right, and why that is none.
    fn put_wrong(&self, out: &mut Text, at: usize, guess: &[u8]) {
        let answer = self.answer(at);
        match self.is_formed(at, guess) {
            Ok(true) => {
                writeln!(out, "wrong: it is {answer}");
                self.put_why(out, at, guess)
            }
            Ok(false) => writeln!(out, "not understood: it is {answer}"),
            Err(error) => out.note(Err(error)),
        }
    }

    /// Appends whether a guess is right, and what happens on the line. Returns whether it is.
    fn put_verdict(&self, out: &mut Text, at: usize, guess: &[u8]) -> bool {
        let answer = self.answer(at);
        let right = match is_right(self.alloc, guess, answer.as_bytes()) {
            Ok(right) => right,
            Err(error) => {
                out.note(Err(error));
                false
            }
        };
        if right {
            writeln!(out, "right: {answer}");
        } else {
            self.put_wrong(out, at, guess);
        }
        out.push_str(self.trace(at));
        out.push_str("\n");
        right
    }

    /// Appends the lines of questions that were missed, each with its number and its right answer; nothing if none were.
    fn put_missed_lines(&self, out: &mut Text, missed: &[usize]) {
        if !missed.is_empty() {
            out.push_str("missed:\n");
        }
        'missed: for at in missed {
            let (number, line, answer) = (at.saturating_add(1), self.line(*at), self.answer(*at));
            writeln!(out, "  line {number}: {line}\n    {answer}");
        }
    }

    /// Appends what was missed, the score, and how many questions are left, if some are.
    fn put_score(&self, out: &mut Text, score: Score, missed: &[usize], left: usize) {
        self.put_missed_lines(out, missed);
        match left {
            0 => writeln!(out, "{score}"),
            left => writeln!(out, "{score}, {left} not answered"),
        }
    }

    /// Returns the quiz as a page.
    pub fn page(&self) -> Result<String, AllocError> {
        let (name, seed) = (self.quiz.subject.name(), self.quiz.seed);
        let title = format!(in self.alloc; "Quiz {name} {seed}")?;
        let mut text = Text::new(self.alloc);
        put_quiz_start(&mut text, title.as_str());
        let mut first = 0;
        for at in self.asked.as_slice() {
            let mut lines = Text::new(self.alloc);
            self.put_between(&mut lines, first, *at);
            put_question(&mut text, &self.question(*at, lines.finish()?.as_str()));
            first = at.saturating_add(1);
        }
        put_quiz_end(&mut text);
        text.finish()
    }

    /// Appends a line that is asked: with its answer if `answers`, else with a blank.
    fn put_asked(&self, out: &mut Text, number: usize, at: usize, answers: bool) {
        writeln!(out, "# question {number}");
        let line = self.line(at);
        match self.quiz.teller {
            _ if answers => self.put_line(out, at),
            Teller::Machine => writeln!(out, "{line:<34} => ?"),
            Teller::Mmu => writeln!(out, "{line}"),
        }
    }

    /// Returns the script, with the answers to its questions if `answers`, else with a blank for each.
    pub fn script(&self, answers: bool) -> Text {
        let mut text = Text::new(self.alloc);
        let (mut first, mut number) = (0usize, 0usize);
        for at in self.asked.as_slice() {
            self.put_between(&mut text, first, *at);
            number = number.saturating_add(1);
            self.put_asked(&mut text, number, *at, answers);
            first = at.saturating_add(1);
        }
        self.put_between(&mut text, first, self.quiz.lines.len());
        text
    }
}

/// A quiz that is asked on a screen.
#[derive(Drop)]
pub struct Asking<'a, S> {
    pub screen: &'a mut S,
    pub game: &'a Game,
}

impl<S: Screen> Asking<'_, S> {
    /// Prints, on standard error, which line is asked and what a guess is to say, and reads a guess; `None` at the end of the input, or if
    /// printing failed.
    fn read_guess<R: Read + Drop>(
        &mut self,
        reader: &mut BufReader<R>,
        at: usize,
    ) -> Result<Option<Vec<u8>>, Fault> {
        let (number, wanted) = (at.saturating_add(1), self.game.wanted(at));
        self.screen.err(format_args!("line {number}: {wanted}? "));
        let mut line = Vec::new(self.game.alloc);
        if !self.screen.is_whole() || read_line(reader, &mut line)? == 0 {
            return Ok(None);
        }
        Ok(Some(self.game.guess_of(at, line.as_slice())?))
    }

    /// Reads a guess, `None` at the end of the input; of one that has not the form of the answers, tells that and reads once more.
    fn read_formed<R: Read + Drop>(
        &mut self,
        reader: &mut BufReader<R>,
        at: usize,
    ) -> Result<Option<Vec<u8>>, Fault> {
        let Some(guess) = self.read_guess(reader, at)? else {
            return Ok(None);
        };
        if self.game.is_formed(at, guess.as_slice())? {
            return Ok(Some(guess));
        }
        let wanted = self.game.wanted(at);
        self.screen.out(format_args!("no answer: once more, in the form {wanted}\n"));
        self.read_guess(reader, at)
    }

    /// Asks a question, reads a guess and prints the verdict; `first` is the first line that was not printed before. Returns whether the guess is
    /// right, `None` at the end of the input.
    fn ask_one<R: Read + Drop>(
        &mut self,
        reader: &mut BufReader<R>,
        first: usize,
        at: usize,
    ) -> Result<Option<bool>, Fault> {
        let mut question = Text::new(self.game.alloc);
        self.game.put_question(&mut question, first, at);
        print(self.screen, question);
        let Some(guess) = self.read_formed(reader, at)? else {
            return Ok(None);
        };
        let mut verdict = Text::new(self.game.alloc);
        let right = self.game.put_verdict(&mut verdict, at, guess.as_slice());
        print(self.screen, verdict);
        Ok(Some(right))
    }

    /// Prints what was missed, the score, and how many questions are left, if the input ended before the last.
    fn print_end(&mut self, score: Score, missed: &[usize]) {
        let left = self.game.asked.len().saturating_sub(score.asked);
        if left > 0 {
            self.screen.err("\n");
        }
        let mut text = Text::new(self.game.alloc);
        self.game.put_score(&mut text, score, missed, left);
        print(self.screen, text)
    }
}

impl<S: Screen> Reading for Asking<'_, S> {
    /// Asks the questions one by one, and prints what was missed and the score; the end of the input ends it, and so does a failure to print.
    ///
    /// # Errors
    /// `Read`: the reader failed. `Memory`: the host is out of memory.
    fn read<R: Read + Drop>(&mut self, alloc: Global, reader: R) -> Result<(), Fault> {
        let mut reader = BufReader::new(alloc, reader)?;
        let (mut score, mut first) = (Score { right: 0, asked: 0 }, 0usize);
        let (game, mut missed) = (self.game, Vec::new(alloc));
        'questions: for at in game.asked.as_slice() {
            let Some(right) = self.ask_one(&mut reader, first, *at)? else {
                break;
            };
            if !right {
                missed.push(*at)?;
            }
            score = score.with(right);
            first = at.saturating_add(1);
        }
        self.print_end(score, missed.as_slice());
        Ok(())
    }
}
