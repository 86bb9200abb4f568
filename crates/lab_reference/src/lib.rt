//! The words `mmu` and `inspect` of `xv6lab`: lines that ask a reference MMU are answered, or left out as long as one stays not permitted,
//! and the page tables in a dump of memory are listed, with what is suspicious there.
#![tactic(auto)]

mod inspect;
mod reference;
mod shrink;

pub use inspect::put_dump;
pub use reference::AnswerLines;
pub use shrink::put_fewest;
