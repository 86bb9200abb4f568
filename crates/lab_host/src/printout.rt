// `Printout`: what is to be printed, until a screen prints it, and why the program ends early, if it does. What puts a text there has no
// error of its own, and knows no screen.

use crate::fault::Fault;
use crate::screen::{Screen, print, print_error};
use std::alloc::Global;
use std::fmt::Display;
use text_builder::Text;

/// What is to be printed, in this order, and why the program ends early, if it does.
#[derive(Drop)]
pub struct Printout {
    /// What goes to standard output, whether or not it is text.
    pub bytes: Vec<u8>,
    /// What goes to standard output after that.
    pub out: Text,
    /// What goes to standard error.
    pub err: Text,
    /// The first fault that was noted.
    fault: Option<Fault>,
}

impl Printout {
    /// Returns that nothing is to be printed.
    pub fn new(alloc: Global) -> Printout {
        Printout {
            bytes: Vec::new(alloc),
            out: Text::new(alloc),
            err: Text::new(alloc),
            fault: None,
        }
    }

    /// Returns from where its memory is.
    pub fn allocator(&self) -> Global {
        self.out.allocator()
    }

    /// Whether no fault was noted.
    pub fn is_open(&self) -> bool {
        self.fault.is_none()
    }

    /// Notes why the program ends; the first fault is kept.
    pub fn fail(&mut self, fault: Fault) {
        if self.is_open() {
            self.fault = Some(fault);
        }
    }

    /// Puts a text on standard error.
    pub fn warn(&mut self, text: Text) {
        match text.finish() {
            Ok(text) => self.err.push_str(text.as_str()),
            Err(error) => self.err.note(Err(error)),
        }
    }

    /// Puts on standard error why the program ends, and notes that this was told; nothing after another fault.
    pub fn tell<D: Display + Drop>(&mut self, text: D) {
        if self.is_open() {
            self.err.write_fmt(text);
            self.fault = Some(Fault::Told);
        }
    }

    /// Prints all on a screen, after what puts it there is done.
    ///
    /// # Errors
    /// The fault that was noted first; else that of what is done.
    pub fn end<S: Screen>(mut self, screen: &mut S, done: Result<(), Fault>) -> Result<(), Fault> {
        if let Err(fault) = done {
            self.fail(fault);
        }
        self.print(screen)
    }

    /// Prints all on a screen.
    ///
    /// # Errors
    /// The fault that was noted first.
    pub fn print<S: Screen>(self, screen: &mut S) -> Result<(), Fault> {
        let Printout {
            bytes,
            out,
            err,
            fault,
        } = self;
        if !bytes.is_empty() {
            screen.out_bytes(bytes.as_slice());
        }
        print(screen, out);
        print_error(screen, err);
        match fault {
            Some(fault) => Err(fault),
            None => Ok(()),
        }
    }
}
