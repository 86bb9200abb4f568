// `LineReader`, a struct: reads lines of a script one after another into a draft (what they declare and command), first by
// the fast path, counts them, and keeps the first fault.

ghost use Rattle.std.specs.Prelude.{◌≡◌, ◌+◌, ◌<◌, ◌≤◌, ◌^◌, length, OnOk, None, true};
ghost use Rattle.script_language.specs.Lines.{raw_lines};
ghost use Rattle.script_language.specs.Script as words;
ghost use Rattle.script_reader.specs.Reading.{KeepsFault, lines_read};

use crate::draft::Draft;
use crate::fast_lines::add_fast;
use crate::fault::ScriptError;
use crate::lines::{first_line, trim_return};
use crate::read_line::{add_line, is_ascii};
use script_language::Cause;
use std::alloc::{AllocError, Global};

/// The draft of the lines read so far, their number, skipped lines among them, and the first fault: its
/// line, from 1, and its cause.
#[derive(Drop)]
pub struct LineReader {
    alloc: Global,
    pub draft: Draft,
    pub count: u64,
    pub fault: Option<(u64, Cause)>,
}

impl LineReader {
    /// Returns a reader that has read no line.
    pub fn new(alloc: Global) -> LineReader
        ensures draft { result.draft ≡ words.no_lines }
        ensures count { result.count ≡ 0 }
        ensures fault { result.fault ≡ None }
    {
        LineReader {
            alloc,
            draft: Draft::new(alloc),
            count: 0,
            fault: None,
        }
    }

    /// Reads one line. If it is known to be ASCII (`ascii`), the fast path is tried first.
    fn add_one(&mut self, line: &[u8], ascii: bool) -> Result<(), AllocError>
        requires none { self.old.fault ≡ None }
        requires few { self.old.count + 1 < 2 ^ 64 }
        requires ascii { ascii ≡ true → words.is_ascii line.now ≡ true }
        ensures read { OnOk result (lines_read self.new ≡ words.with_line self.old.draft (self.old.count + 1) (words.line_of self.old.draft line.now)) }
        ensures count { self.new.count ≡ self.old.count + 1 }
    {
        self.count += 1;
        if ascii && let Some(done) = add_fast(&mut self.draft, line) {
            return done;
        }
        match add_line(self.alloc, &mut self.draft, self.count, line) {
            Ok(()) => Ok(()),
            Err(error) => self.stop(error),
        }
    }

    /// Keeps a fault of a line; returns the other error, `Memory`, as `AllocError`.
    fn stop(&mut self, error: ScriptError) -> Result<(), AllocError>
        ensures draft { self.new.draft ≡ self.old.draft }
        ensures count { self.new.count ≡ self.old.count }
        ensures fault { KeepsFault error result self.new.fault }
    {
        match error {
            ScriptError::Memory => Err(AllocError),
            ScriptError::Line(number, cause) => {
                self.fault = Some((number, cause));
                Ok(())
            }
        }
    }

    /// Reads the lines of a text, up to the first fault, which is kept; none if an earlier text had a fault. Whether all
    /// bytes are ASCII is tested once for all lines. The number of lines so far plus the text's length in bytes must be
    /// below 2^64.
    ///
    /// # Errors
    /// `AllocError`: host memory was refused.
    pub fn add(&mut self, text: &[u8]) -> Result<(), AllocError>
        requires few { self.old.count + length text.now < 2 ^ 64 }
        ensures read { OnOk result (lines_read self.new ≡ words.read_lines (lines_read self.old) (raw_lines text.now)) }
        ensures few { self.new.count ≤ self.old.count + length text.now }
    {
        let ascii = is_ascii(text);
        let mut left = text;
        'lines: while !left.is_empty() && self.fault.is_none() {
            let (line, after) = first_line(left);
            self.add_one(trim_return(line), ascii)?;
            left = after;
        }
        Ok(())
    }
}
