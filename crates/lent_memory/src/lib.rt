//! Memory that a caller lends for one call: words of physical memory from any page on (`LentWords`, a `Words` for walks),
//! and the entries of a TLB in an array of plain numbers (`LentEntry`), with the calls of `hart_tlb`'s `Buffer` over it.
#![tactic(auto)]

mod buffer;
mod entry;
mod words;

pub use buffer::{entry_at, evict, fence, fill, next_match, use_entry};
pub use entry::{LEAF, LentEntry, NO_ENTRY, NO_LEAF};
pub use words::LentWords;
