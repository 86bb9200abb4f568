//! Fork by copy-on-write (MIT 6.1810, copy-on-write lab): the child takes frames for its trapframe and its page tables, and
//! none for data. The calls `fork`, which returns the child's space; `fork_with`, for a caller that has room for a list of the
//! settled pages (those in memory), and `fork_listed`, for one that has the list, which return a `Child`. The enum
//! `ForkError`, why a fork is refused; and the struct `PageList`, which collects these pages.
#![tactic(auto)]

mod fork_process;
mod need;
mod pages;
mod share;
mod tables;
mod tree;

pub use fork_process::{Child, ForkError, fork, fork_listed, fork_with};
pub use pages::PageList;
