//! Rules of a page table walk with the ratified extensions Svnapot, Svpbmt, Svade and Svadu, for Sv39, Sv48 and Sv57, and of
//! physical memory protection (RISC-V Privileged Architecture 20211203, "the standard", 3.1.6.3, 3.7.1, 4.3 to 4.6, chapters 5
//! and 6): what a page table entry is, which accesses a leaf allows, and where it leads. The walk itself is not here.
#![tactic(auto)]

mod addresses;
mod extensions;
mod memory_type;
mod pmp;
mod status;

pub use addresses::{is_canonical, leads_to, reach, top_level};
pub use extensions::{AdScheme, Extensions};
pub use memory_type::MemoryType;
pub use pmp::{Matching, PmpEntry, Region, pmp_permits, pmp_permits_read, pmp_permits_update};
pub use status::{Privilege, Status, has_ad, with_ad};
