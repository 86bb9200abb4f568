//! Tests that `script_reader`, `audit_player` and the texts of numbers and bytes are right where rows (scripts with their answers,
//! `row_player`) cannot show it: long scripts and texts, scripts cut at each byte, readers and writers that fail, limits of files
//! for threads. And for `hart_threads`, `hart_calls` and `file_shelf`: that harts are threads, that a hook (`Gate`) sees each call
//! with no lock held, and eight calls of a process before those of the next, which calls lock the shelf (the files that threads
//! share), when it is full, that journals (a process's calls with their replies) are right, and that no frame is lost. No crate
//! depends on it.
#![tactic(auto)]

#[cfg(test)]
mod bounded_waits;
#[cfg(test)]
mod broken_streams;
#[cfg(test)]
mod command_lines;
#[cfg(test)]
mod gates;
#[cfg(test)]
mod journals;
#[cfg(test)]
mod lengths;
#[cfg(test)]
mod lost_frames;
#[cfg(test)]
mod mapped_file;
#[cfg(test)]
mod players;
#[cfg(test)]
mod script_items;
#[cfg(test)]
mod script_pieces;
#[cfg(test)]
mod shelves;
#[cfg(test)]
mod texts;
#[cfg(test)]
mod threads;
#[cfg(test)]
mod turns;
#[cfg(test)]
mod two_harts;
