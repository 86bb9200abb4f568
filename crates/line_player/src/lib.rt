//! A script that is played line by line: each line is answered as soon as it comes.
#![tactic(auto)]

mod laws;
mod player;

pub use laws::answers_are_the_text;
pub use player::{LinePlayer, LineReply};
