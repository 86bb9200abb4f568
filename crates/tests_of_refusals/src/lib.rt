//! Tests that fork, exec, sbrk, mmap, munmap, served faults and kernel copies are refused with too few frames, a refused
//! promise (a reservation of page I/O) or wrong arguments: stories (test cases) over both frame stores, with the process
//! observed before and after each operation. And that copy-on-write works on threads: eight children and their parent store
//! at once to pages that they share. No crate depends on it.
#![tactic(auto)]

#[cfg(test)]
mod accounts;
#[cfg(test)]
mod calls;
#[cfg(test)]
mod family;
#[cfg(test)]
mod frames;
#[cfg(test)]
mod images_and_file;
#[cfg(test)]
mod initial_process;
#[cfg(test)]
mod observation;
#[cfg(test)]
mod operation;
#[cfg(test)]
mod promises;
#[cfg(test)]
mod requests;
#[cfg(test)]
mod stores;
#[cfg(test)]
mod stories;
#[cfg(test)]
mod threads;
