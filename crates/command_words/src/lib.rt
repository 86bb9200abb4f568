//! The command line of `xv6lab`: `Task::parse` reads one, and returns what is to be done, or why nothing is (`Misuse`). Each word has a struct
//! of what it is told, as `CheckWords` of `check`.
#![tactic(auto)]

/// Writes an argument of a word, as another (`FLAG`, say) but for some fields.
macro_rules! row {
    ($base:expr; $($field:ident: $value:expr),+) => { Argument { $($field: $value,)+ ..$base } };
}

mod check_words;
mod command_line;
mod draw_words;
mod grade_words;
mod inspect_words;
mod lab_words;
mod misuse;
mod mmu_words;
mod options;
mod quiz_words;
mod run_words;
mod trace_words;
mod usertest_words;
mod words;

pub use check_words::CheckWords;
pub use command_line::Task;
pub use draw_words::DrawWords;
pub use grade_words::{GradeForm, GradeWords, Source};
pub use inspect_words::InspectWords;
pub use lab_words::LabWords;
pub use misuse::{Misuse, Usage};
pub use mmu_words::MmuWords;
pub use quiz_words::{QuizForm, QuizWords};
pub use run_words::{RunWords, Telling};
pub use trace_words::TraceWords;
pub use usertest_words::{Tests, UsertestWords};
