//! A reference memory management unit: a sparse physical memory, satp and PMP, with what happened to them since the last fence of everything, by
//! which each access is judged (RISC-V Privileged Architecture 20211203, 3.7, 4.1.11, 4.2.1, 4.3 to 4.6).
#![tactic(auto)]

mod asked;
mod changes;
mod fences;
mod history;
mod memory;
mod protection;
mod run;
mod runs;
mod unit;
mod uses;

pub use memory::SparseMemory;
pub use unit::Mmu;
