//! Tests that `table_walk` (walks of Sv39 and Sv48, changes of page tables), `walk_rules` (rules of walks with extensions, and
//! of physical memory protection) and `hart_tlb` (a hart's TLB) return the right results through their public APIs. No crate
//! depends on it.
#![tactic(auto)]

#[cfg(test)]
mod buffers;
#[cfg(test)]
mod memory;
#[cfg(test)]
mod rows;
#[cfg(test)]
mod rules;
#[cfg(test)]
mod walks;
