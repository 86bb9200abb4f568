//! The words of the program `xv6lab`. It plays scripts of `xv6vm` for people: `run`, `check`, `trace`, `show` and `repl` are in
//! `lab_listeners`; `draw` draws the machine, and `elf` makes a line of an ELF file. `grade` and `lab` are in `lab_grading`, `quiz` and
//! `usertest` in `lab_generated`, `mmu` and `inspect` in `lab_reference`. `do_words` does what a command line says; text goes to a
//! `Screen`.
#![tactic(auto)]

mod draw;
mod elf;
mod lab;

pub use lab::do_words;
