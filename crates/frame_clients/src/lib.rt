//! Example clients of `frame_store`, which show that the laws of its traits are enough to prove a client: the functions
//! `filled_frame` (allocates a frame and fills it) and `read_word`, and the struct `Pool`, which owns a store and several
//! seats.
//!
//! `filled_frame` and `read_word` are written and proved once, over any store: from the view of their own seat, and from the
//! store's invariant, which they keep for any other seats. `Pool` shows that the laws compose: it owns one store and a list
//! of places, each with a seat or empty, and each of its calls keeps the store's invariant for the seats that are there.
#![tactic(auto)]

mod filling;
mod pool;

pub use filling::{filled_frame, read_word};
pub use pool::Pool;
