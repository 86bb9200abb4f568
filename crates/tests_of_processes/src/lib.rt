//! Tests, through public APIs, of what no script shows: that `address_space` counts a process's frames and finds the guard
//! page (`layouts`), and builds the kernel's page table; that `exec_segments` takes files of a mebibyte, and no image without
//! segments; that `hart_machine` and `machine_laws` boot within limits, run lists of steps and keep entries in TLBs; that
//! `file_cabinet` reads and writes pages of files, keeps their lengths and makes promises (reservations of page I/O); and that
//! over both frame stores a process keeps what is stored to it, writes mappings back and gives its frames back, also if a
//! promise or a frame is refused (`stories`: rows, each an operation with the reply that it must get). `SCHEMES`: Sv39 and Sv48.
//! No crate depends on it.
#![tactic(auto)]

#[cfg(test)]
mod cabinets;
#[cfg(test)]
mod file_pages;
#[cfg(test)]
mod file_promises;
#[cfg(test)]
mod images;
#[cfg(test)]
mod initial_parts;
#[cfg(test)]
mod kernel_table;
#[cfg(test)]
mod layouts;
#[cfg(test)]
mod machines;
#[cfg(test)]
mod operation;
#[cfg(test)]
mod perform;
#[cfg(test)]
mod rows;
#[cfg(test)]
mod stores;
#[cfg(test)]
mod stories;

#[cfg(test)]
use sv39_entry::Scheme;

/// Both translation schemes.
#[cfg(test)]
pub(crate) const SCHEMES: [Scheme; 2] = [Scheme::Sv39, Scheme::Sv48];
