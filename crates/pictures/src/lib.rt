//! Pictures of a machine: its harts with their TLBs, its processes with their regions, pages and page tables, and its frames; as
//! SVG (`put_picture`); a page of HTML to project, in which a reader steps from line to line of a script (`Page`); and a page of
//! HTML that asks about lines (`put_quiz_start`, `put_question`, `put_quiz_end`).
//!
//! What a page says of memory: the valid entries of page tables (`EntryView`), the names of the pages that are in a
//! frame (`names_in`, `names_of`), and eight bytes of a frame (`bytes_at`). `put_escaped` and `put_script_text` escape what HTML
//! would read otherwise.
#![tactic(auto)]

mod bytes;
mod cells;
mod entries;
mod escape;
mod frames;
mod harts;
mod legend;
mod names;
mod page;
mod page_body;
mod page_script;
mod page_style;
mod picture;
mod processes;
mod quiz_page;
mod uses;
mod views;

pub use bytes::bytes_at;
pub use entries::EntryView;
pub use escape::{put_escaped, put_script_text};
pub use names::{LeafName, PageName, names_in, names_of};
pub use page::{Page, PageHead};
pub use picture::put_picture;
pub use quiz_page::{QuizQuestion, put_question, put_quiz_end, put_quiz_start};
