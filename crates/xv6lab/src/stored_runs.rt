// `try_runs`: does what each stored run in the folder says with the words of `xv6lab`, and prints for each whether it printed what it
// should.
//
// A run is a file `NAME.run`: its first line has the words of the command line after `xv6lab`, and the others are standard input; if
// these are the one line `repeat N TEXT`, that is N times the text, without a line feed. What it must print on standard output and on
// standard error, one after the other, and its exit status, as a last line `status N`, is in `NAME.expect`.

use lab::do_words;
use lab_host::{Failures, Fault, Host, Screen};
use std::alloc::{AllocError, Global};
use std::fmt::Display;
use std::{fs, io};
use text_builder::Text;

/// What a run printed.
#[derive(Drop)]
struct Record {
    out: Text,
    err: Text,
    failures: Failures,
}

impl Screen for Record {
    ghost use Rattle.std.specs.Prelude.{◌≡◌, true};

    ghost whole = { λ screen. screen.failures.is_none ≡ true };

    fn out<D: Display + Drop>(&mut self, text: D) {
        if self.failures.is_open() {
            self.out.write_fmt(text);
        }
    }

    /// Records what is no text as U+FFFD.
    fn out_bytes(&mut self, bytes: &[u8]) {
        match String::from_utf8_lossy(self.out.allocator(), bytes) {
            Ok(text) => self.out(text.as_str()),
            Err(_) => self.fail(Fault::Memory),
        }
    }

    fn err<D: Display + Drop>(&mut self, text: D) {
        if self.failures.is_open() {
            self.err.write_fmt(text);
        }
    }

    fn fail(&mut self, fault: Fault) {
        self.failures.note(fault);
    }

    fn take_failure(&mut self) -> Option<Fault> {
        self.failures.take()
    }

    fn is_whole(&self) -> bool {
        self.failures.is_none
    }
}

/// Returns the names of the runs, sorted.
fn names(rt: &HostRuntime) -> io::Result<Vec<String>> {
    let mut names = Vec::new(rt.alloc());
    for entry in fs::read_dir(rt, ".")? {
        let entry = entry?;
        if let Some(name) = entry.file_name().strip_suffix(".run") {
            names.push(name.to_string(rt.alloc())?)?;
        }
    }
    names.sort()?;
    Ok(names)
}

/// Returns the words of a command line, the program's name first.
fn words_of(alloc: Global, line: &str) -> Result<Vec<String>, AllocError> {
    let mut words = Vec::new(alloc);
    words.push(String::from_str(alloc, "xv6lab")?)?;
    for word in line.split(' ') {
        if !word.is_empty() {
            words.push(String::from_str(alloc, word)?)?;
        }
    }
    Ok(words)
}

/// Returns how often a text is to be repeated, and the text, if a run says `repeat N TEXT`.
fn repeated(input: &[u8]) -> Option<(usize, &str)> {
    let line = std::str::from_utf8(input).ok()?.trim_end();
    let (count, text) = line.strip_prefix("repeat ")?.split_once(' ')?;
    Some((count.parse::<usize>().ok()?, text))
}

/// Returns the standard input of a run.
fn input_of(alloc: Global, input: &[u8]) -> Result<Vec<u8>, AllocError> {
    let Some((count, text)) = repeated(input) else {
        return Vec::from_slice(alloc, input);
    };
    let mut whole = Vec::new(alloc);
    for _ in 0..count {
        whole.extend_from_slice(text.as_bytes())?;
    }
    Ok(whole)
}

/// Returns how many bytes there are before the first line feed.
fn line_length(bytes: &[u8]) -> usize {
    let mut length = 0usize;
    'bytes: for byte in bytes {
        if *byte == b'\n' {
            break;
        }
        length = length.saturating_add(1);
    }
    length
}

/// Does what a run says, and returns what it printed and its exit status.
fn printed(rt: &HostRuntime, run: &[u8]) -> Result<String, AllocError> {
    let alloc = rt.alloc();
    let length = line_length(run);
    let (line, input) = (
        run.get(..length).unwrap_or(&[]),
        run.get(length.saturating_add(1)..).unwrap_or(&[]),
    );
    let words = words_of(alloc, std::str::from_utf8(line).unwrap_or("?"))?;
    let input = input_of(alloc, input)?;
    let host = Host {
        files: rt,
        alloc,
        input: Some(input.as_slice()),
    };
    let mut record = Record {
        out: Text::new(alloc),
        err: Text::new(alloc),
        failures: Failures::none(),
    };
    let status = do_words(host, &mut record, words.as_slice());
    let (mut text, err) = (record.out, record.err.finish()?);
    write!(&mut text, "{err}status {status}\n");
    text.finish()
}

/// Returns the number of the first line in which two texts differ, counted from 1.
fn first_difference(got: &[u8], wanted: &[u8]) -> usize {
    let mut line = 1usize;
    'bytes: for (byte, other) in got.iter().zip(wanted) {
        if *byte != *other {
            break;
        }
        if *byte == b'\n' {
            line = line.saturating_add(1);
        }
    }
    line
}

/// Does what the run of this name says, and prints whether it printed what it should. Returns whether it did.
fn try_run(rt: &HostRuntime, name: &str) -> io::Result<bool> {
    let alloc = rt.alloc();
    let run = fs::read(rt, format!(in alloc; "{name}.run")?.as_str())?;
    let got = printed(rt, run.as_slice())?;
    let Ok(wanted) = fs::read(rt, format!(in alloc; "{name}.expect")?.as_str()) else {
        println!(rt; "{name}: there is no file {name}.expect; it printed:\n{got}")?;
        return Ok(false);
    };
    if got.as_bytes() == wanted.as_slice() {
        println!(rt; "{name}: ok")?;
        return Ok(true);
    }
    let line = first_difference(got.as_bytes(), wanted.as_slice());
    println!(rt; "{name}: DIFFERS from line {line} on; it printed:\n{got}")?;
    Ok(false)
}

/// Does what all runs in the folder say, in the order of their names. Returns whether all printed what they should.
pub(crate) fn try_runs(rt: &HostRuntime) -> io::Result<bool> {
    let mut right = true;
    for name in names(rt)?.as_slice() {
        right = try_run(rt, name.as_str())? && right;
    }
    Ok(right)
}
