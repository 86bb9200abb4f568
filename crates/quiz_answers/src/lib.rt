//! Questions and guesses of quizzes: `choose` takes, of the lines that are worth a question, some whose answers the script does not give
//! away; `is_right` compares a guess with an answer, by the parts of both (`plain_parts`), and `missed_parts` are those that a guess lacks;
//! `form_of` is the form of the answers to a line, `has_form` says whether a guess is of it, and `completed` puts the word before a number alone.
#![tactic(auto)]

mod choosing;
mod forms;
mod guesses;

pub use choosing::{Script, choose};
pub use forms::{OUTCOME_FORM, OUTCOMES, completed, form_of, has_form};
pub use guesses::{is_right, missed_parts, plain_parts};
