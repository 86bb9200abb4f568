//! The version of the programs and of the C library.
#![tactic(auto)]

/// The version, `MAJOR.MINOR.PATCH`. The macros of `xv6vm.h` have the same numbers.
pub const VERSION: &str = "0.9.0";
