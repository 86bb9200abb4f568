//! `Text`: a text that is put together part by part, and notes that the host was out of memory for a part. So what appends to it has no
//! error of its own; who takes the text has one.
#![tactic(auto)]

mod text;

pub use text::Text;
