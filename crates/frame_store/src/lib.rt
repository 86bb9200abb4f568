//! Physical memory as frames of 4,096 bytes with reference counts: the traits by which every crate above uses frames
//! (`FrameSeat`, `FrameAccess`, `FrameSupply`), their two errors, the frame store of a single thread (`PlainFrames`), and
//! `opened_seat`, which makes a seat for another owner. In xv6: `kalloc.c`, with the reference counts of the
//! copy-on-write lab (MIT 6.1810).
//!
//! An owner, such as a process, uses its frames through a *seat*. What the seat knows, its *view* (`specs/View.antt`), is
//! ghost state that contracts alone read. Each call says how it changes the view of its own seat, and keeps the store's
//! `invariant`, which ties the views of all seats to the store. So the crates above are proved once, from their own
//! seat's view, for any store.
#![tactic(auto)]

mod access;
mod bytes;
mod frame_words;
mod knowledge;
mod memory;
mod opening;
mod plain;
mod refusal;
mod supply;
mod zeros;

pub use access::{FrameAccess, FrameSeat};
pub use bytes::whole_word;
pub use opening::opened_seat;
pub use plain::{PlainFrames, PlainSeat};
pub use refusal::{NoFrame, SharersFull};
pub use supply::FrameSupply;
