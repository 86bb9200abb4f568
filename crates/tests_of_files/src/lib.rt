//! What tests of files need: `RefusingFiles`, a struct of files that refuse one promise (a reservation of page I/O), and
//! `copy_page`, a function over any `Files`. It has no tests: those of `file_cabinet` are in `tests_of_processes`.
#![tactic(auto)]

mod page_copies;
mod stubborn;

pub use page_copies::copy_page;
pub use stubborn::RefusingFiles;
