//! A dump of physical memory (`Dump`), and what page tables in it say: every valid page table entry and every mapping of an
//! address space, in order of addresses (`Space`), for Sv39, Sv48 and Sv57 (RISC-V Privileged Architecture 20211203, "the
//! standard", 4.3 to 4.6). For people and programs: the page tables as `vmprint` of xv6 prints them (`EntryLine`), runs of
//! mappings (`Run`), what is suspicious about them (`Finding`), and all of it as JSON.
#![tactic(auto)]

mod dump;
mod findings;
mod frames;
mod laws;
mod leaves;
mod lines;
mod listing;
mod objects;
mod reserved;
mod runs;
mod sharing;
mod space;
mod tables;

pub use dump::Dump;
pub use findings::{Finding, FindingLine, Findings, Reason, Subject};
pub use laws::one_listing;
pub use leaves::{Leaves, leaf_findings};
pub use lines::{EntryLine, SpaceLine, TablesLine};
pub use listing::{MOST_PTES, SpaceError, ValidEntry};
pub use objects::{FindingObject, SpaceObject};
pub use reserved::{Reserved, reserved_findings};
pub use runs::{Run, RunLine, runs_of};
pub use sharing::shared_findings;
pub use space::Space;
pub use tables::{outside_findings, table_findings};
