//! Crate root, exports only. Struct `Space` is the address space of a process in memory: page table, frames and regions. Its
//! calls build, rebuild (exec) and destroy it; bring pages into memory, read, write, mark, find and drop them; make user
//! accesses; change regions. By `IsSpace` contracts say which process of the model (crate `process_model`) a space is.
//! Struct `KernelTable` is the kernel's page table.
#![tactic(auto)]

mod build;
mod byte_runs;
mod frame_need;
mod kernel;
mod laws;
mod layout;
mod own_page;
mod page_marks;
mod pages;
mod part;
mod region;
mod settled_pages;
mod space;
mod teardown;
mod user_access;

pub use build::TRAMPOLINE_FRAME;
pub use frame_need::frames_needed;
pub use kernel::{KernelTable, leaf_for_kernel};
pub use laws::walks_grant_what_is_resident;
pub use layout::Layout;
pub use part::Part;
pub use region::{Region, RegionKind, Source};
pub use settled_pages::SettledPage;
pub use space::Space;
pub use user_access::{AccessRequest, misalignment};
