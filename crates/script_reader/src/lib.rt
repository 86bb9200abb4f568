//! Parses the two inputs of `xv6vm`: scripts, for `xv6vm play` (`Script`, and `PieceReader` for a script read in pieces),
//! and files for threads, for `xv6vm threads` (`ThreadScript`). The result is a value that can be played, or `ScriptError`:
//! the text's first fault, by line and cause, or host memory refused. `Commands`: the list of a script's lines after `boot`.
#![tactic(auto)]

mod accesses;
mod calls;
mod commands;
mod declarations;
mod draft;
mod fast_lines;
mod fast_path;
mod fault;
mod field_access;
mod hex;
mod in_limits;
mod items;
mod laws;
mod line_reader;
mod lines;
mod named;
mod number_prefixes;
mod numbers;
mod piece_reader;
mod push;
mod read_line;
mod script;
mod segments;
mod table;
mod thread_calls;
mod thread_draft;
mod thread_fast_lines;
mod thread_items;
mod thread_lines;
mod thread_named;
mod thread_script;
mod values;

pub use commands::{CommandView, Commands};
pub use draft::Draft;
pub use fault::{LineFault, ScriptError};
pub use field_access::{index_at, number_at, policy_at, scheme_at, signed_at};
pub use laws::lines_fit;
pub use lines::{first_field, first_piece, trim_return};
pub use numbers::{decimal_value, hexadecimal_value, number};
pub use piece_reader::PieceReader;
pub use read_line::line_item;
pub use script::Script;
pub use table::Row;
pub use thread_script::ThreadScript;
pub use values::{read_value, read_values};
