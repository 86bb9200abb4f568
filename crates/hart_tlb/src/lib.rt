//! The TLB of a hart, called its buffer: entries that record what walks found, a leaf or none, until a fence, an eviction or
//! a fill of the full buffer removes them (RISC-V Privileged Architecture 20211203, 4.2.1, 4.3.1 and 4.3.2).
#![tactic(auto)]

mod buffer;
mod entry;
mod leaf;
mod walk_entry;

pub use buffer::{Buffer, NoEntry};
pub use entry::TlbEntry;
pub use leaf::TlbLeaf;
