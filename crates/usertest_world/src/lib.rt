//! What a generator of programs that test kernels knows of a script while it makes it: the processes, their heaps and mappings, and
//! which pages of files labs leave open. It suffices to tell whether an access is granted, and whether labs determine the value it
//! reads; the value itself is the machine's.
#![tactic(auto)]

mod files;
mod mappings;
mod places;
mod processes;
mod random;
mod world;

pub use files::File;
pub use mappings::{Mapping, View};
pub use places::{Base, GUARD, HEAP, NOBODYS, PAGE, Place, TRAPFRAME, pages_of, rounded_up};
pub use processes::{MOST_SPOTS, Process, Unmapped};
pub use random::Random;
pub use world::World;
