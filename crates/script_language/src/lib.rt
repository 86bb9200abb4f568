//! The language of scripts and of files for threads (the input for processes on threads): words, fields and lines as data
//! types, and the printed text of replies, reports and ends; in `specs/` which bytes are a script and what they mean, as
//! definitions over the model of processes (`process_model`). No crate of the kernel depends on it.
#![tactic(auto)]

mod declarations;
mod digits;
mod hexes;
mod limits;
mod script;
mod text;
mod thread_text;

pub use declarations::{CallList, ListedCall, ListedStart, OwnedImage, Pool};
pub use digits::{put, put_decimal};
pub use hexes::put_bytes;
pub use limits::{
    LONGEST_LINE, LONGEST_SCRIPT, MOST_CALLS, MOST_COMMANDS, MOST_IMAGES, MOST_LISTS,
};
pub use script::{Cause, Command, FieldKind, FieldValue, Item, Keyword, Tail, ThreadItem};
pub use text::{LONGEST_TEXT, phase_name, put_reply, put_report, put_scalar_reply};
pub use thread_text::{LONGEST_END, put_end, put_free};
