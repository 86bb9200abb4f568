//! What happens on a line of a script, as data, as text for people and as JSON: where the hart is (`HartPlace`), the region that
//! grants an access (`RegionLine`) or the rule that denies it, what the page table walk reads, which entry of the TLB was used,
//! which frames were taken and given back, which leaves changed, and what the buffer holds after it; and of an audit, what was
//! taken and given back since the one before (`Ledger`).
//!
//! `explain_answer` says in words for people why a line was answered otherwise than by plain success, and which line would be
//! right: from the machine's state, the line and what was seen before it (`Before`).
#![tactic(auto)]

mod access_names;
mod accesses;
mod answer;
mod arguments;
mod before;
mod buffers;
mod calls;
mod changes;
mod command_words;
mod denials;
mod entries;
mod explaining;
mod frame_needs;
mod frames;
mod leaves;
mod phases;
mod places;
mod regions;
mod request_traces;
mod requests;
mod sums;
mod text;
mod traces;
mod walks;

pub use access_names::access_name;
pub use accesses::{AccessLine, RuleLine};
pub use before::Before;
pub use buffers::buffer_of;
pub use changes::Changes;
pub use explaining::explain_answer;
pub use frames::{FrameChanges, Recount, frame_page};
pub use leaves::{LeafChange, entries_of};
pub use places::HartPlace;
pub use regions::RegionLine;
pub use request_traces::RequestTrace;
pub use requests::Touched;
pub use sums::{AuditSums, Ledger};
pub use text::put_trace;
pub use traces::{LineTrace, Seen, trace_line};
pub use walks::{WalkLine, reference_count};
