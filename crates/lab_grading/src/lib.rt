//! The words `lab` and `grade` of `xv6lab`: scripts of the labs are handed out, one to each student, and what students hand in is graded
//! by the machine's answers.
#![tactic(auto)]

mod class_order;
mod content;
mod grade_files;
mod handed_in;
mod keys;
mod lab_scripts;
mod played_handouts;
mod printed;

pub use grade_files::grade;
pub use lab_scripts::hand_out;
