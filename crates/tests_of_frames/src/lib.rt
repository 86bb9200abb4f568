//! Tests that `sv39_entry` (page table entries, addresses, causes), `frame_bytes` (bytes of frames), `frame_clients` and
//! both frame stores, `PlainFrames` and `SharedFrames`, return the right results through their public APIs. No crate depends
//! on it.
#![tactic(auto)]

#[cfg(test)]
mod clients;
#[cfg(test)]
mod contents;
#[cfg(test)]
mod entries;
#[cfg(test)]
mod plain_frames;
#[cfg(test)]
mod rows;
#[cfg(test)]
mod shared_words;
