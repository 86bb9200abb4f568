// `Fault` (enum): why the program ends early, with the text that it prints on standard error and its exit status.

ghost use Rattle.std.specs.Prelude.{◌≤◌};

use crate::screen::Screen;
use command_words::{Misuse, Usage};
use grade_reports::Visible;
use std::alloc::{AllocError, AllocFailed, Global};
use std::{fmt, io};

/// Why the program ends before its end.
#[derive(Drop)]
pub enum Fault {
    /// The command line is wrong, or asks for help or the version.
    CommandLine(Usage),
    /// A word of the command line is wrong, and how.
    Word(String),
    /// The host is out of memory.
    Memory,
    /// A script cannot be opened or read.
    File(String, io::Error),
    /// A script cannot be read, of which only the reader is known.
    Read(io::Error),
    /// Printing fails.
    Io(io::Error),
    /// The machine answers a line otherwise than a generator predicts: where, and how.
    Differs(String),
    /// A script is refused, or answers differ; it was told.
    Told,
}

impl Fault {
    /// Returns why the program ends if its reader failed with this error.
    pub fn of_reading(error: io::Error) -> Fault {
        match error.kind() {
            io::ErrorKind::OutOfMemory => Fault::Memory,
            _ => Fault::Read(error),
        }
    }

    /// Returns the exit status: 2 for a wrong command line, 0 if it asks for help or the version, else 1.
    pub fn status(&self) -> u8
        ensures { result ≤ 2 }
    {
        match self {
            Fault::CommandLine(usage) if usage.is_asked() => 0,
            Fault::CommandLine(_) | Fault::Word(_) => 2,
            Fault::Memory
            | Fault::File(_, _)
            | Fault::Read(_)
            | Fault::Io(_)
            | Fault::Differs(_)
            | Fault::Told => 1,
        }
    }

    /// Returns why a file cannot be opened or read; empty of other faults.
    pub fn because(&self, alloc: Global) -> Result<String, AllocError> {
        match self {
            Fault::File(_, error) | Fault::Read(error) => {
                let because = Because(error);
                format!(in alloc; "{because}")
            }
            _ => Ok(String::new(alloc)),
        }
    }

    /// Returns that a word of the command line is wrong, and how.
    pub fn of_word(alloc: Global, text: &str) -> Fault {
        match String::from_str(alloc, text) {
            Ok(text) => Fault::Word(text),
            Err(_) => Fault::Memory,
        }
    }

    /// Returns that a file cannot be opened, read or written.
    pub fn of_file(alloc: Global, name: &str, error: io::Error) -> Fault {
        match String::from_str(alloc, name) {
            Ok(name) => Fault::File(name, error),
            Err(_) => Fault::Memory,
        }
    }

    /// Tells why the program ends, unless it was told.
    pub fn tell<S: Screen>(&self, screen: &mut S) {
        match self {
            Fault::Told => {}
            Fault::CommandLine(usage) if usage.is_asked() => { screen.out(format_args!("{usage}")) }
            Fault::CommandLine(usage) => screen.err(format_args!("{usage}")),
            fault => screen.err(format_args!("{fault}\n")),
        }
    }
}

/// What failed, in words.
#[derive(Clone, Copy)]
struct Because<'a>(&'a io::Error);

impl fmt::Display for Because<'_> {
    fn fmt<W: fmt::Write>(&self, f: &mut fmt::Formatter<W>) -> fmt::Result {
        match self.0.kind() {
            io::ErrorKind::NotFound => write!(f, "No such file or directory"),
            io::ErrorKind::PermissionDenied => write!(f, "Permission denied"),
            io::ErrorKind::IsADirectory => write!(f, "Is a directory"),
            io::ErrorKind::NotADirectory => write!(f, "Not a directory"),
            _ => {
                let error = self.0;
                write!(f, "{error}")
            }
        }
    }
}

impl fmt::Display for Fault {
    fn fmt<W: fmt::Write>(&self, f: &mut fmt::Formatter<W>) -> fmt::Result {
        match self {
            Fault::CommandLine(usage) => write!(f, "{usage}"),
            Fault::Word(text) => {
                let text = text.as_str();
                write!(f, "xv6lab: {text}")
            }
            Fault::Memory => write!(f, "xv6lab: out of memory"),
            Fault::File(name, error) => {
                let (name, because) = (Visible(name.as_str()), Because(error));
                write!(f, "{name}: {because}")
            }
            Fault::Read(error) | Fault::Io(error) => {
                let because = Because(error);
                write!(f, "xv6lab: {because}")
            }
            Fault::Differs(text) => write!(f, "{text}"),
            Fault::Told => Ok(()),
        }
    }
}

impl From<AllocError> for Fault {
    fn from(_e: AllocError) -> Fault {
        Fault::Memory
    }
}

/// A value that found no place in a list.
impl<T: Drop> From<AllocFailed<T>> for Fault {
    fn from(_e: AllocFailed<T>) -> Fault {
        Fault::Memory
    }
}

impl From<io::Error> for Fault {
    fn from(error: io::Error) -> Fault {
        match error.kind() {
            io::ErrorKind::OutOfMemory => Fault::Memory,
            _ => Fault::Io(error),
        }
    }
}

impl From<Misuse> for Fault {
    fn from(misuse: Misuse) -> Fault {
        match misuse {
            Misuse::Usage(usage) => Fault::CommandLine(usage),
            Misuse::Word(text) => Fault::Word(text),
            Misuse::Memory => Fault::Memory,
        }
    }
}
