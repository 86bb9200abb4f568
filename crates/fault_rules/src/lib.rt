//! The service of page faults (the xv6 book, "Page-fault exceptions"). `serve` returns the rule (reason for denial) by which
//! the process is to end (enum `Served`), or has `make_resident` make the page resident, lazily or by copy-on-write, so that
//! the access is answered when it is made again. Enum `ResidenceError` has the errors of `make_resident`.
#![tactic(auto)]

mod residence;
mod service;
mod settle;
mod take_over;

pub use residence::{ResidenceError, make_resident};
pub use service::{Served, serve};
