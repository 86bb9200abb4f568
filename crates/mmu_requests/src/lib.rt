//! The lines by which a program asks a reference MMU, protocol 2: what a line asks for (`read_line`).
#![tactic(auto)]

mod claims;
mod fields;
mod line_word;
mod profile;
mod profile_word;
mod reading;
mod requests;

pub use fields::Refusal;
pub use profile::Profile;
pub use reading::read_line;
pub use requests::{Claim, End, Request};
