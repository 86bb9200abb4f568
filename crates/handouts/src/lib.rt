//! Handouts of labs, and what students hand in: a script some of whose answers are blanks, `=> ?`, and a file in which they were filled
//! in. `lines_of` and `student_lines` read their lines, `align` finds the lines of the handout in the file, and `grade_lines` marks each blank
//! by the machine's answers, which the caller has. No file of a student is played. `plain_line`: a line of a script as `xv6vm` takes it.
#![tactic(auto)]

mod alignment;
mod expected;
mod lines;
mod marks;
mod plain;
mod same;

pub use alignment::{Found, align};
pub use expected::{Expected, split};
pub use lines::{Answer, Line, lines_of, student_lines, without_comment, without_mark};
pub use marks::{Asked, BlankMark, Grade, Mark, blank_count, grade_lines};
pub use plain::plain_line;
pub use same::is_kept;
