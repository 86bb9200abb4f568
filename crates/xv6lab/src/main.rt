//! The program `xv6lab`: plays scripts of `xv6vm` for people. The crate `lab` has its words; here are its standard streams, and the
//! word `selftest`, which does what stored runs say (`stored_runs`) and then what the words after it say.
#![tactic(auto)]

mod stored_runs;

use crate::stored_runs::try_runs;
use lab::do_words;
use lab_host::{Failures, Fault, Host, Screen};
use std::fmt::Display;
use std::io::Write;
use std::process::ExitCode;
use std::{env, io};

/// The standard output and the standard error of the program.
#[derive(Drop)]
struct Console<'a> {
    rt: &'a HostRuntime,
    failures: Failures,
}

impl Screen for Console<'_> {
    ghost use Rattle.std.specs.Prelude.{◌≡◌, true};

    // what the system prints is its own; that it said so is noted
    ghost whole = { λ console. console.failures.is_none ≡ true };

    fn out<D: Display + Drop>(&mut self, text: D) {
        if self.failures.is_open() {
            self.failures.note_printing(print!(self.rt; "{text}"));
        }
    }

    fn out_bytes(&mut self, bytes: &[u8]) {
        if self.failures.is_open() {
            self.failures
                .note_printing(io::writer(self.rt).write_all(bytes));
        }
    }

    fn err<D: Display + Drop>(&mut self, text: D) {
        if self.failures.is_open() {
            self.failures.note_printing(eprint!(self.rt; "{text}"));
        }
    }

    fn fail(&mut self, fault: Fault) {
        self.failures.note(fault);
    }

    fn take_failure(&mut self) -> Option<Fault> {
        self.failures.take()
    }

    fn is_whole(&self) -> bool {
        self.failures.is_none
    }
}

/// Returns the words of the command line.
fn words(rt: &HostRuntime) -> io::Result<Vec<String>> {
    Ok(env::args(rt)?.collect(rt.alloc())?)
}

/// Whether the first word after the program's name is `selftest`.
fn is_selftest(words: &[String]) -> bool {
    match words.get(1) {
        Some(word) => word.as_str() == "selftest",
        None => false,
    }
}

/// Does what the words say, and returns the exit status.
fn done(rt: &HostRuntime, words: &[String]) -> ExitCode {
    let host = Host {
        files: rt,
        alloc: rt.alloc(),
        input: Some(rt.reader()),
    };
    let mut console = Console {
        rt,
        failures: Failures::none(),
    };
    ExitCode::from(do_words(host, &mut console, words))
}

/// Does what the stored runs in the folder say; and then, if all printed what they should, what the words after `selftest` say. Returns the
/// exit status.
fn tested(rt: &HostRuntime, words: &[String]) -> ExitCode {
    match try_runs(rt) {
        Ok(true) if words.len() > 2 => done(rt, words.get(1..).unwrap_or(&[])),
        Ok(true) => ExitCode::SUCCESS,
        Ok(false) => ExitCode::FAILURE,
        Err(error) => {
            // If standard error fails too, only the exit status tells.
            let _ = eprintln!(rt; "xv6lab: {error}");
            ExitCode::FAILURE
        }
    }
}

fn main(rt: HostRuntime) -> ExitCode {
    let Ok(words) = words(&rt) else {
        // If standard error fails too, only the exit status tells.
        let _ = eprintln!(rt; "xv6lab: a word of the command line is no text, or memory is out");
        return ExitCode::from(2);
    };
    if is_selftest(words.as_slice()) {
        tested(&rt, words.as_slice())
    } else {
        done(&rt, words.as_slice())
    }
}
