//! The players: `play` reads a script, makes its steps on a machine, and writes an answer for each line from `boot` on;
//! `play_threads` reads a file for threads, runs its lists of calls on harts that are threads, and writes a line for each
//! process. `Source`, `Sink`: the reader and the writer; `PlayError`: why a file was not played to its end. `run_pool` runs
//! parsed lists and starts (`lend_lists`, `lend_starts`) without a text; `audit`: counts of frames. `Script` is the reader's.
#![tactic(auto)]

mod answer;
mod commands;
mod fault;
mod kernel;
mod player;
mod run_script;
mod sink;
mod source;
mod text_block;
mod thread_lists;
mod thread_text;
mod threads;
mod transfer;

pub use answer::audit;
pub use commands::{lend, put_answer};
pub use fault::PlayError;
pub use player::play;
pub use run_script::boot;
pub use script_reader::Script;
pub use sink::{Sink, Writer};
pub use source::{Reader, Source};
pub use thread_lists::{lend_lists, lend_starts};
pub use threads::{play_threads, play_threads_with, run_pool};
