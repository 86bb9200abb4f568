// `PieceReader`, a struct: parses a script that is read in pieces of any size (`add`, then `finish`); each line is parsed
// once its end has been read.

ghost use Rattle.std.specs.Prelude.{◌≡◌, ◌<◌, ◌≤◌, ◌++◌, ◌^◌, [], length, IfOk, IfSome, List, ℕ, nat_lt, OnOk};
ghost use Rattle.script_language.specs.Script as words;
ghost use Rattle.script_reader.specs.ReadResults.{GivesScript};
ghost use Rattle.script_reader.specs.Playable.{IsPlayable};
ghost use Rattle.script_reader.specs.Reading as model;

use crate::fault::ScriptError;
use crate::line_reader::LineReader;
use crate::script::Script;
use memchr::{memchr, memrchr};
use script_language::{Cause, LONGEST_SCRIPT};
use std::alloc::{AllocError, Global};
use std::marker::Model;
use std::mem;

/// Parses a script that is read in pieces: what the lines that have ended declare and command, and the
/// beginning of the next line.
#[derive(Drop)]
pub struct PieceReader {
    alloc: Global,
    said: LineReader,
    rest: Vec<u8>,
    length: usize,
}

impl Model for PieceReader {
    ghost use Rattle.script_reader.specs.Reading as model;

    ghost Value = { model.PieceReader };

    ghost view = { λ r. record { read = model.lines_read r.said; count = r.said.count; rest = r.rest.items; length = r.length } };
}

/// Cuts a piece in three: up to its first line feed, from there up to its last one, and the rest.
/// `None`: it has no line feed.
fn cut(piece: &[u8]) -> Option<(&[u8], &[u8], &[u8])>
    ensures { IfSome result (λ p. model.CutsLines piece.now p.0.now p.1.now p.2.now) }
{
    let (ended, rest) = piece.split_at(memrchr(b'\n', piece)? + 1);
    let (first, ended) = ended.split_at(memchr(b'\n', ended)? + 1);
    Some((first, ended, rest))
}

impl PieceReader {
    /// Returns a reader that has read nothing.
    pub fn new(alloc: Global) -> PieceReader
        ensures { model.HasRead [] result }
    {
        PieceReader {
            alloc,
            said: LineReader::new(alloc),
            rest: Vec::new(alloc),
            length: 0,
        }
    }

    /// Whether more than 16,777,216 bytes were read, the most that a script may have.
    pub fn is_too_long(&self) -> bool
        ensures { result ≡ nat_lt LONGEST_SCRIPT (self.now).length }
    {
        self.length > LONGEST_SCRIPT
    }

    /// Reads the next piece of the script, of less than 2^63 bytes and cut anywhere. The first fault of a line is kept for
    /// `finish`. To be called only while `is_too_long` is false, and not after an error.
    ///
    /// # Errors
    /// `AllocError`: host memory was refused; what was read so far is lost.
    pub fn add(&mut self, piece: &[u8]) -> Result<(), AllocError>
        requires read { (bytes : List ℕ) × model.HasRead bytes self.old }
        requires short { (self.old).length ≤ LONGEST_SCRIPT }
        requires small { length piece.now < 2 ^ 63 }
        ensures read { OnOk result ((bytes : List ℕ) → model.HasRead bytes self.old → model.HasRead (bytes ++ piece.now) self.new) }
    {
        self.length += piece.len();
        let Some((first, ended, rest)) = cut(piece) else {
            self.rest.extend_from_slice(piece)?;
            return Ok(());
        };
        let mut line = mem::replace(&mut self.rest, Vec::new(self.alloc));
        line.extend_from_slice(first)?;
        self.said.add(&line)?;
        self.said.add(ended)?;
        line.clear();
        line.extend_from_slice(rest)?;
        self.rest = line;
        Ok(())
    }

    /// Ends the script and returns it, parsed. To be called only if each `add` succeeded. A script that is returned can be
    /// played (`IsPlayable`): only a step can still be refused.
    ///
    /// # Errors
    /// `Line(n, cause)`: the script's first fault, in line `n`, counted from 1. Line 0: the script has more than
    /// 16,777,216 bytes. The line after the last, with `Order`: no line has a fault, and none is a `boot`.
    /// `Memory`: host memory was refused.
    pub fn finish(self) -> Result<Script, ScriptError>
        requires read { (bytes : List ℕ) × model.HasRead bytes self }
        ensures read { (bytes : List ℕ) → model.HasRead bytes self → GivesScript (λ s. s) result (words.script_of bytes) }
        ensures playable { IfOk result IsPlayable }
    {
        let too_long = self.is_too_long();
        let PieceReader {
            alloc: _,
            mut said,
            rest,
            length: _,
        } = self;
        if too_long {
            return Err(ScriptError::Line(0, Cause::TooLong));
        }
        let Ok(()) = said.add(&rest) else {
            return Err(ScriptError::Memory);
        };
        if let Some((number, cause)) = said.fault {
            return Err(ScriptError::Line(number, cause));
        }
        Script::of(said.draft, said.count)
    }
}
