//! What a page table walk reads, entry by entry, the valid entries of all page tables below a root, and the entries of a TLB: as
//! data, and as lines of text.
#![tactic(auto)]

mod buffers;
mod laws;
mod lines;
mod listing;
mod numbers;
mod text;
mod walk;

pub use buffers::{BufferLine, LeafLine};
pub use laws::one_listing;
pub use lines::{TableLine, TableTitle};
pub use listing::{TableEntry, table_entries};
pub use numbers::Hex;
pub use text::Flags;
pub use walk::{WalkEntry, walk_entries};
