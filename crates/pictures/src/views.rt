// What a page for a lecture shows of a machine, as data that becomes JSON: harts with their TLBs, processes with their regions and page
// tables, frames with the names of their pages, files, and the bytes that a line touches; `ShownParts` puts each of these parts when it
// changed.

mod cells;
mod files;
mod frames;
mod harts;
mod parts;
mod slots;

pub use parts::{ShownParts, put_json};
