// `QuizWords`: a struct, what a command line of `quiz` says; `QuizForm`, what is done with a quiz; `QUIZ`, the form of the word.

use crate::options::{NUMBER, OUT, text_of};
use crate::words::{Argument, FLAG, OPTION, Word};
use clap::ArgMatches;
use clap::builder::ValueParser;
use quizzes::Subject;
use std::alloc::{AllocError, Global};

/// The names of the subjects.
const SUBJECTS: ValueParser<'static> = ValueParser::Names(&["cow", "lazy", "mmap", "tlb", "walk"]);

/// What is done with a quiz.
#[derive(Clone, Copy)]
pub enum QuizForm {
    /// Its questions are asked in the terminal.
    Ask,
    /// It is written as a page.
    Page,
    /// Its script is printed, with a blank for each question.
    Script,
    /// Its script is printed with all answers.
    Answers,
}

/// A quiz is asked, written or printed.
#[derive(Drop)]
pub struct QuizWords {
    pub subject: Subject,
    pub seed: u64,
    /// How many lines are asked at most.
    pub count: usize,
    pub form: QuizForm,
    /// The path of the page; `-` is standard output.
    pub out: String,
}

/// The word `quiz`.
pub static QUIZ: Word = Word {
    name: "quiz",
    about: "Ask questions about a random script, and explain each answer",
    arguments: &[
        row!(OPTION; name: "about", value_name: Some("SUBJECT"), value_parser: SUBJECTS, required: true,
            help: "What the questions are about: copy-on-write forks, a lazy heap, mapped files, TLB entries, walks of page tables"),
        row!(NUMBER; name: "seed", value_name: Some("N"), required: true, help: "The seed: each has a quiz of its own"),
        row!(OPTION; name: "count", value_name: Some("Q"), value_parser: ValueParser::Unsigned(1, 12), default_value: Some("5"),
            help: "How many questions there are at most"),
        row!(FLAG; name: "page", requires_all: &["out"], help: "Write a page (HTML) that asks, in place of asking here"),
        row!(OUT; value_name: Some("OUT"), requires_all: &["page"], help: "The page to write; - is standard output"),
        row!(FLAG; name: "script", conflicts_with_all: &["page"], help: "Print the script, with a blank for each question"),
        row!(FLAG; name: "answers", conflicts_with_all: &["page"], help: "Print the script with all answers"),
    ],
};

/// Returns what is done with the quiz.
fn form_of(given: &ArgMatches<'_>) -> QuizForm {
    if given.get_flag("page") {
        QuizForm::Page
    } else if given.get_flag("answers") {
        QuizForm::Answers
    } else if given.get_flag("script") {
        QuizForm::Script
    } else {
        QuizForm::Ask
    }
}

impl QuizWords {
    /// Returns what the word is told. The name of the subject and the numbers were checked.
    pub fn of(alloc: Global, given: &ArgMatches<'_>) -> Result<QuizWords, AllocError> {
        let subject = given.get_str("about").unwrap_or("");
        let count = given.get_one::<u64>("count").unwrap_or(5);
        Ok(QuizWords {
            subject: Subject::of_name(subject).unwrap_or(Subject::Cow),
            seed: given.get_one::<u64>("seed").unwrap_or(0),
            count: usize::try_from(count).unwrap_or(12),
            form: form_of(given),
            out: text_of(alloc, given, "out", "-")?,
        })
    }
}
