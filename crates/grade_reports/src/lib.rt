//! What graded files have of a handout, as a table for people (`put_table`), as CSV, as JSON objects, and as the results that
//! Gradescope takes (`ResultsObject`). `FileGrade` is what is known of one file; `reason_of` says why an answer is wrong without
//! the right one; `students_of` reads a list of students, as CSV: each student's id, and the path of what was handed in. `Visible` shows what
//! students wrote without what cannot be seen.
#![tactic(auto)]

mod csv_rows;
mod file_grade;
mod forms;
mod heads;
mod joints;
mod line_notes;
mod members;
mod objects;
mod reasons;
mod students;
mod table;
mod visible;

pub use csv_rows::{csv_head, csv_row, student_row};
pub use file_grade::{BlankText, FileGrade, Standing};
pub use heads::other_lab;
pub use line_notes::LineNotes;
pub use objects::{FileObject, MarkObject, ResultsObject, TestObject};
pub use reasons::{Excess, Reason, put_reason, reason_of, reason_of_text, word_of};
pub use students::{ListFault, Student, first_row, ids_of, is_wide, put_repeat, students_of};
pub use table::{notes_of, put_summary, put_table};
pub use visible::{Visible, put_quoted};
