//! `Machine`, a struct: frames, the kernel's page table, processes in slots, harts with TLBs, and files. Its steps reply what
//! the model replies, and leave the machine in the state that the model has. Also `BootError`, why a machine was not booted,
//! and `Pending`, an access that faulted.
#![tactic(auto)]

mod access;
mod boot;
mod buffer_steps;
mod calls;
mod copies;
mod exec;
mod exit;
mod fill_from_tables;
mod fork;
mod hart;
mod in_kernel;
mod leaf_changes;
mod machine;
mod serve;
mod slot_process;
mod slots;
mod stale_marks;
mod start;
mod step;
mod switch;
mod trampoline;
mod translation;
mod views;

pub use boot::BootError;
pub use machine::Machine;
pub use slot_process::Pending;
