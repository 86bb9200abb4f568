// `Screen`: where text goes, standard output and standard error; `Failures`, what a screen notes of what it could not print; `print`
// and `print_error` print texts that were put together, and `put_object` and `put_lossy` append to them.

ghost use Rattle.std.specs.Prelude.{◌≡◌, false, true, IsOk};

use crate::fault::Fault;
use serde::Serialize;
use std::alloc::AllocError;
use std::fmt::Display;
use std::io;
use text_builder::Text;

/// Where text goes. A screen notes the first failure itself, and prints nothing more until that is taken.
pub trait Screen {
    /// That all that was to be printed was printed.
    ghost whole: { Self → Type 0 };

    /// Prints on standard output.
    fn out<D: Display + Drop>(&mut self, text: D)
        ensures { whole self.new → whole self.old };

    /// Prints bytes on standard output, whether or not they are text.
    fn out_bytes(&mut self, bytes: &[u8])
        ensures { whole self.new → whole self.old };

    /// Prints on standard error.
    fn err<D: Display + Drop>(&mut self, text: D)
        ensures { whole self.new → whole self.old };

    /// Notes why something that was to be printed is not.
    fn fail(&mut self, fault: Fault)
        ensures { whole self.new → whole self.old };

    /// Returns the first failure, if there was one, and prints again, so that it can be told.
    fn take_failure(&mut self) -> Option<Fault>
        ensures { whole self.new → whole self.old };

    /// Returns whether all that was to be printed was.
    fn is_whole(&self) -> bool
        ensures { result ≡ true → whole self.now };
}

/// The failures of a screen.
#[derive(Drop)]
pub struct Failures {
    /// The first, until it is taken.
    first: Option<Fault>,
    /// Whether there was none.
    pub is_none: bool,
}

impl Failures {
    /// Returns that nothing failed yet.
    pub fn none() -> Failures {
        Failures {
            first: None,
            is_none: true,
        }
    }

    /// Whether nothing failed that was not taken: only then more is printed.
    pub fn is_open(&self) -> bool {
        self.first.is_none()
    }

    /// Notes a failure; the first is kept.
    pub fn note(&mut self, fault: Fault)
        ensures { self.new.is_none ≡ false }
    {
        if self.is_none {
            self.first = Some(fault);
            self.is_none = false;
        }
    }

    /// Notes that printing failed, if it did.
    pub fn note_printing(&mut self, done: io::Result<()>)
        ensures kept { self.new.is_none ≡ true → self.old.is_none ≡ true }
        ensures noted { self.new.is_none ≡ true → IsOk done }
    {
        match done {
            Ok(()) => {}
            Err(error) => self.note(Fault::Io(error)),
        }
    }

    /// Returns the first failure, the first time that it is asked for.
    pub fn take(&mut self) -> Option<Fault>
        ensures { self.new.is_none ≡ self.old.is_none }
    {
        self.first.take()
    }
}

/// Prints a text on standard output; nothing if it is empty.
pub fn print<S: Screen>(screen: &mut S, text: Text) {
    match text.finish() {
        Ok(text) if text.is_empty() => {}
        Ok(text) => screen.out(text.as_str()),
        Err(_) => screen.fail(Fault::Memory),
    }
}

/// Prints a text on standard error; nothing if it is empty.
pub fn print_error<S: Screen>(screen: &mut S, text: Text) {
    match text.finish() {
        Ok(text) if text.is_empty() => {}
        Ok(text) => screen.err(text.as_str()),
        Err(_) => screen.fail(Fault::Memory),
    }
}

/// Appends a value as a JSON object, with a line feed.
pub fn put_object<T: Serialize>(out: &mut Text, value: &T) {
    match serde_json::to_string(out.allocator(), value) {
        Ok(text) => {
            let text = text.as_str();
            writeln!(out, "{text}");
        }
        // a text in memory is written: no other error than of memory can come
        Err(_) => out.note(Err(AllocError)),
    }
}

/// Appends bytes, what is no text as U+FFFD.
pub fn put_lossy(out: &mut Text, bytes: &[u8]) {
    match String::from_utf8_lossy(out.allocator(), bytes) {
        Ok(text) => out.push_str(text.as_str()),
        Err(error) => out.note(Err(error)),
    }
}
