// `ChosenLine`: a struct, the line of a script that `--line` names, with the steps next to it.

use crate::mistakes::Place;
use crate::printout::Printout;
use std::fmt;

/// The line of a script that a command line names. A step is a line that has an answer.
#[derive(Clone, Copy)]
pub struct ChosenLine {
    /// Its number; the first line has 1.
    pub number: u64,
    is_step: bool,
    /// The number of the last step before it.
    before: Option<u64>,
    /// The number of the first step after it.
    after: Option<u64>,
}

impl ChosenLine {
    /// Returns the line of the number that `--line` gives, if it does, before any step.
    pub fn named(number: Option<u64>) -> Option<ChosenLine> {
        Some(ChosenLine {
            number: number?,
            is_step: false,
            before: None,
            after: None,
        })
    }

    /// Takes note of a step. Steps come in the order of their lines.
    pub fn pass(&mut self, number: u64) {
        if number < self.number {
            self.before = Some(number);
        } else if number == self.number {
            self.is_step = true;
        } else if self.after.is_none() {
            self.after = Some(number);
        }
    }

    /// Whether the line is a step, or the first one after it is known.
    pub fn is_settled(&self) -> bool {
        self.is_step || self.after.is_some()
    }

    /// Tells that the line is no step, if that is so, and which steps are next to it; `lines` is how many lines were read.
    pub fn tell_missing(&self, out: &mut Printout, file: &str, lines: u64) {
        if self.is_step {
            return;
        }
        let place = Place {
            file,
            line: self.number,
        };
        let is_line = 0 < self.number && self.number <= lines;
        let what = if is_line {
            "this line is no step"
        } else {
            "there is no such line"
        };
        let near = Near(*self);
        out.tell(format_args!("{place}: {what}; {near}\n"))
    }
}

/// Where the steps next to a line are, in words.
#[derive(Clone, Copy)]
struct Near(ChosenLine);

impl fmt::Display for Near {
    fn fmt<W: fmt::Write>(&self, f: &mut fmt::Formatter<W>) -> fmt::Result {
        match (self.0.before, self.0.after) {
            (Some(before), Some(after)) => {
                write!(f, "the steps next to it are on lines {before} and {after}")
            }
            (Some(before), None) => write!(f, "the last step is on line {before}"),
            (None, Some(after)) => write!(f, "the first step is on line {after}"),
            (None, None) => write!(f, "the script has no step"),
        }
    }
}
