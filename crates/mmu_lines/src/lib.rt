//! A reference MMU that answers lines (`MmuPlayer`), protocol 2, with its answers as text and as JSON (`put_answer`,
//! `AnswerObject`); and the fewest lines by which it still answers `NOT permitted` (`shrink`).
#![tactic(auto)]

mod claims;
mod denials;
mod line;
mod player;
mod playing;
mod search;
mod writes;

pub use line::Line;
pub use mmu_reasons::{Answer, AnswerObject, By, Lock, OutcomeLine, put_answer};
pub use player::MmuPlayer;
pub use search::{Shrunk, shrink};
