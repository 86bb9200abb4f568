//! Why a line of a script was refused, and what would be right, in words for people: `explain` and `find_mistake`, for a line and its
//! cause; `explain_end` and `explain_length`, for a script as a whole. And which check a program image fails: `explain_image`.
#![tactic(auto)]

mod counted;
mod explaining;
mod field_forms;
mod image_texts;
mod limit_texts;
mod near_words;
mod quotes;
mod segment_forms;

pub use counted::field_names;
pub use explaining::{explain, explain_end, explain_length, find_mistake};
pub use image_texts::explain_image;
