// `Misuse` (enum): why a command line says nothing to do; `Usage`, what it is told then.

use clap::error::ErrorKind;
use std::alloc::{AllocError, AllocFailed};
use std::fmt;

/// What a command line is told that is wrong, or asks for help or the version.
#[derive(Drop)]
pub struct Usage {
    error: clap::Error,
}

impl Usage {
    /// Returns whether help or the version is asked for, so that the command line is not wrong.
    pub fn is_asked(&self) -> bool {
        self.error.exit_code() == 0
    }
}

impl fmt::Display for Usage {
    fn fmt<W: fmt::Write>(&self, f: &mut fmt::Formatter<W>) -> fmt::Result {
        let error = &self.error;
        write!(f, "{error}")
    }
}

/// Why a command line says nothing to do.
#[derive(Drop)]
pub enum Misuse {
    /// It is wrong, or asks for help or the version.
    Usage(Usage),
    /// A word of it is wrong, and how.
    Word(String),
    /// The host is out of memory.
    Memory,
}

impl From<AllocError> for Misuse {
    fn from(_e: AllocError) -> Misuse {
        Misuse::Memory
    }
}

/// A value that found no place in a list.
impl<T: Drop> From<AllocFailed<T>> for Misuse {
    fn from(_e: AllocFailed<T>) -> Misuse {
        Misuse::Memory
    }
}

impl From<clap::Error> for Misuse {
    fn from(error: clap::Error) -> Misuse {
        match error.kind() {
            ErrorKind::OutOfMemory => Misuse::Memory,
            _ => Misuse::Usage(Usage { error }),
        }
    }
}
