//! Fields of a line that people wrote: each with its column (`Place`, `field_at`), quoted (`quoted`), counted (`field_count`), and what
//! is wrong with one (`Mistake`, `wrong_number`).
#![tactic(auto)]

mod mistake;
mod number_forms;
mod places;
mod quoting;

pub use mistake::Mistake;
pub use number_forms::{is_negative_form, is_number_form, wrong_number};
pub use places::{Place, field_at, field_count};
pub use quoting::quoted;
