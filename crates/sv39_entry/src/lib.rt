//! Bit formats of Sv39 and Sv48 (RISC-V Privileged Architecture 20211203, chapter 4, "the standard"): virtual addresses,
//! page table entries, rights, exception codes and satp; frame numbers and the addresses of xv6's memory layout; and the
//! nine rules by which a user access or a kernel copy is denied (`Rule`).
#![tactic(auto)]

mod access;
mod address;
mod entry;
mod flags;
mod frame;
mod rights;
mod rule;
mod satp;
mod scheme;

pub use access::{Access, Mode};
pub use address::{PAGE_SIZE, Va, Vpn};
pub use entry::{Entry, Kind};
pub use flags::EntryFlags;
pub use frame::{FrameNo, KERNBASE};
pub use rights::Rights;
pub use rule::Rule;
pub use satp::Satp;
pub use scheme::Scheme;
