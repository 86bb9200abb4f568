// `TextBlock` (struct): a block on which the text of a run on threads is collected; it is written to a sink (writer) when it
// has 64 KiB (`BLOCK`). Its calls append bytes, numbers, a process's end or the free frames, and write what is left
// (`finish`).

ghost use Rattle.std.specs.Prelude.{◌≡◌, ◌<◌, ◌≤◌, ◌++◌, [], codes, false, not, length, IfOk, vec_len, vec_capacity};
ghost use Rattle.std.specs.Fmt.{decimal};
ghost use Rattle.script_language.specs.Text.{line_text};
ghost use Rattle.script_language.specs.Threads.{end_text, free_text};
ghost use Rattle.audit_player.specs.Blocks.{AppendsPiece, WritesFull};

use crate::sink::Sink;
use crate::transfer::write_all;
use process_model::ProcessEnd;
use script_language::{LONGEST_END, put, put_decimal, put_end, put_free};
use std::alloc::{AllocError, Global};
use std::marker::Model;

/// A block is written once it has this many bytes: 64 KiB.
pub const BLOCK: usize = 65536;

/// A block of text. Each call appends to it and writes it if it is full; after a write that failed, a
/// prefix of the text is written.
#[derive(Drop)]
pub struct TextBlock {
    bytes: Vec<u8>,
}

impl Model for TextBlock {
    ghost use Rattle.std.specs.Prelude.{ℕ, List, ◌+◌, ◌<◌, vec_len, vec_capacity};
    ghost use Rattle.audit_player.specs.declared.text_block.TheConstants.{BLOCK};
    ghost use Rattle.script_language.specs.declared.thread_text.TheConstants.{LONGEST_END};

    ghost Value = { List ℕ };

    ghost view = { λ p. p.bytes.items };

    ghost invariant = { λ p. (vec_len p.bytes < BLOCK) × (BLOCK + LONGEST_END < vec_capacity p.bytes) };
}

impl TextBlock {
    /// Returns an empty block, which never needs more memory.
    ///
    /// # Errors
    /// `AllocError`: host memory was refused.
    pub fn new(alloc: Global) -> Result<TextBlock, AllocError>
        ensures { IfOk result (λ block. block ≡ []) }
    {
        let bytes = Vec::with_capacity(alloc, BLOCK + LONGEST_END + 1)?;
        Ok(TextBlock { bytes })
    }

    /// Appends `words`, at most `LONGEST_END` bytes. Returns false if a write failed.
    pub fn put<W: Sink>(&mut self, writer: &mut W, words: &[u8]) -> bool
        requires short { length words.now ≤ LONGEST_END }
        ensures puts { AppendsPiece result (W.contents writer.old) (W.contents writer.new) self.old self.new words.now }
        ensures io { W.broken writer.old ≡ false → result ≡ not (W.broken writer.new) }
    {
        put(&mut self.bytes, words);
        write_full(writer, &mut self.bytes)
    }

    /// Appends a number in decimal digits. Returns false if a write failed.
    pub fn put_number<W: Sink>(&mut self, writer: &mut W, number: u64) -> bool
        ensures puts { AppendsPiece result (W.contents writer.old) (W.contents writer.new) self.old self.new (decimal number) }
        ensures io { W.broken writer.old ≡ false → result ≡ not (W.broken writer.new) }
    {
        put_decimal(&mut self.bytes, number);
        write_full(writer, &mut self.bytes)
    }

    /// Appends a dot and a number in decimal digits. Returns false if a write failed.
    pub fn put_dotted<W: Sink>(&mut self, writer: &mut W, number: u64) -> bool
        ensures puts { AppendsPiece result (W.contents writer.old) (W.contents writer.new) self.old self.new (codes "." ++ decimal number) }
        ensures io { W.broken writer.old ≡ false → result ≡ not (W.broken writer.new) }
    {
        put(&mut self.bytes, b".");
        put_decimal(&mut self.bytes, number);
        write_full(writer, &mut self.bytes)
    }

    /// Appends how a process ended, with the number of its calls, and a line end. Returns false if a write failed.
    pub fn put_end<W: Sink>(&mut self, writer: &mut W, calls: u64, outcome: ProcessEnd) -> bool
        ensures puts { AppendsPiece result (W.contents writer.old) (W.contents writer.new) self.old self.new (line_text (end_text calls outcome)) }
        ensures io { W.broken writer.old ≡ false → result ≡ not (W.broken writer.new) }
    {
        put_end(&mut self.bytes, calls, outcome);
        self.bytes.push_reserved(b'\n');
        write_full(writer, &mut self.bytes)
    }

    /// Appends that `free` of `frames` user frames are free, and a line end. Returns false if a write failed.
    pub fn put_free<W: Sink>(&mut self, writer: &mut W, free: u64, frames: u64) -> bool
        ensures puts { AppendsPiece result (W.contents writer.old) (W.contents writer.new) self.old self.new (line_text (free_text free frames)) }
        ensures io { W.broken writer.old ≡ false → result ≡ not (W.broken writer.new) }
    {
        put_free(&mut self.bytes, free, frames);
        self.bytes.push_reserved(b'\n');
        write_full(writer, &mut self.bytes)
    }

    /// Writes what is left on the block. Returns false if a write failed.
    pub fn finish<W: Sink>(self, writer: &mut W) -> bool
        ensures turns { WritesFull result (W.contents writer.old) (W.contents writer.new) self [] }
        ensures io { W.broken writer.old ≡ false → result ≡ not (W.broken writer.new) }
    {
        let TextBlock { bytes } = self;
        write_all(writer, bytes.as_slice())
    }
}

/// Writes and empties a block that is full. Returns false if a write failed.
fn write_full<W: Sink>(writer: &mut W, block: &mut Vec<u8>) -> bool
    ensures turns { WritesFull result (W.contents writer.old) (W.contents writer.new) block.old.items block.new.items }
    ensures io { W.broken writer.old ≡ false → result ≡ not (W.broken writer.new) }
    ensures low { vec_len block.new < BLOCK }
    ensures capacity { vec_capacity block.old ≤ vec_capacity block.new }
{
    if block.len() < BLOCK {
        return true;
    }
    let written = write_all(writer, block.as_slice());
    block.clear();
    written
}
