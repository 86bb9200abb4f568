//! The model of xv6's processes: steps of a machine and calls of processes on threads, replies, refusals, images and
//! configurations as data types; in `specs/` what they mean, as definitions.
//! There is no machinery: no code of this crate walks a page table, counts a frame or keeps a translation. Each crate above
//! is proved against the definitions.
#![tactic(auto)]

mod call;
mod config;
mod file;
mod image;
mod limits;
mod phase;
mod reply;
mod sequence;
mod step;

pub use call::{Call, ProcessEnd, Start};
pub use config::{Config, Policy, kernel_frames};
pub use file::FileText;
pub use image::{BadImage, Image, Segment};
pub use limits::{
    BUFFER_SIZE, FEWEST_FRAMES, GUARD_PAGES, LONGEST_COPY, LONGEST_FILE, LONGEST_IMAGE,
    LONGEST_MAPPING, MOST_ENTRIES, MOST_FILES, MOST_FRAMES, MOST_HARTS, MOST_MAPPINGS, MOST_PARTS,
    MOST_REFERENCES, MOST_REGIONS, MOST_SEGMENTS, MOST_SHARED_FRAMES, MOST_SLOTS, STACK_PAGES,
};
pub use phase::Phase;
pub use reply::{Refusal, Reply, ScalarReply};
pub use sequence::{Bytes, Sequence};
pub use step::{Report, Step, is_width};
