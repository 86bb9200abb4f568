//! Handouts of the labs: scripts in which some answers are blanks. `handout` makes one of a seed, which may be any text, as the name of a
//! student: the same questions for each seed, with addresses, sizes and values of its own. `plain` makes the one that all may have.
//! `seed_of` and `is_of_page` read the head of one again. Each lab has a file.
#![tactic(auto)]

mod accesses;
mod copy_on_write;
mod frames;
mod heads;
mod lazy_growth;
mod making;
mod mmap;
mod names;
mod numbers;
mod page_tables;
mod sheet;
mod stale_entries;
mod traps;

pub use heads::{is_of_page, seed_of};
pub use making::{handout, plain};
pub use names::{LABS, Lab};
