// `FailingReader` and `FailingWriter`, structs that fail after a number of bytes; and tests that `play` and `play_threads` return
// `Io` when a read or a write fails after each such number, and have then written nothing, or the beginning of the text.

ghost use Rattle.std.specs.Prelude.{◌≤◌, length};

use crate::mapped_file::script_and_text;
use audit_player::{PlayError, Reader, Sink, Source, Writer, play, play_threads};
use std::alloc::Global;
use std::io;
use std::io::{Read, Write};
use std::sync::Wait;
use std::test::Fail;
use std::thread::Threads;

/// A reader that gives one byte in each call, and an error after the last byte.
#[derive(Drop)]
pub struct FailingReader<'a> {
    pub bytes: &'a [u8],
}

impl Read for FailingReader<'_> {
    fn read(&mut self, buf: &mut [u8]) -> io::Result<usize> {
        let (Some((first, rest)), Some(place)) = (self.bytes.split_first(), buf.first_mut()) else {
            return Err(io::Error::from(io::ErrorKind::BrokenPipe));
        };
        *place = *first;
        self.bytes = rest;
        Ok(1)
    }
}

/// A writer that takes one byte in each call, and fails when it has `room` bytes: by an error if `tells`, else by taking no
/// byte.
#[derive(Drop)]
pub struct FailingWriter {
    pub written: Vec<u8>,
    pub room: usize,
    pub tells: bool,
}

impl Write for FailingWriter {
    fn write(&mut self, buf: &[u8]) -> io::Result<usize> {
        let Some(first) = buf.first() else {
            return Ok(0);
        };
        if self.written.len() < self.room && self.written.push(*first).is_ok() {
            return Ok(1);
        }
        if self.tells {
            Err(io::Error::from(io::ErrorKind::BrokenPipe))
        } else {
            Ok(0)
        }
    }

    fn flush(&mut self) -> io::Result<()> {
        Ok(())
    }
}

/// A file for threads with a parent and its child, and (`FAMILY_TEXT`) the text that is written for it.
const FAMILY: &str =
    "image 0x1000:0x1000:rw:-\npool 64 4\nlist 0\nfork 1\nstore 0x1000 8 1\nlist 1\nload 0x1000 8\nstart 0 0\n";

const FAMILY_TEXT: &str = "process 0 calls 3 exit 0\nprocess 0.0 calls 2 exit 0\nfree 54 of 54\n";

/// Plays a script, or, with `on_threads`, a file for threads on two harts.
fn play_one<T: Threads + Wait + Sync, R: Source, W: Sink>(
    rt: &T,
    alloc: Global,
    on_threads: bool,
    reader: &mut R,
    writer: &mut W,
) -> Result<(), PlayError> {
    if on_threads {
        play_threads(rt, alloc, reader, writer, 2)
    } else {
        play(alloc, reader, writer)
    }
}

/// Lets each read fail in turn, also the one that would find the end of the file. Returns after how many bytes the first failure
/// came that was not told: the result is not `Io`, or some text was written. `None`: each was told.
fn first_untold_read<T: Threads + Wait + Sync>(
    rt: &T,
    alloc: Global,
    on_threads: bool,
    file: &[u8],
) -> Option<usize> {
    for count in 0..=file.len() {
        let mut text = Vec::new(alloc);
        let bytes = &file[..count];
        let mut reader = Reader::new(FailingReader { bytes });
        let mut writer = Writer::new(&mut text);
        let result = play_one(rt, alloc, on_threads, &mut reader, &mut writer);
        if result != Err(PlayError::Io) || !text.is_empty() {
            return Some(count);
        }
    }
    None
}

/// Lets each write fail in turn; with room for the whole text none does. Returns the least room, in bytes, for which the result is
/// wrong, or other bytes were written than the first ones of `text`, as many as there is room for. `None`: there is none.
fn first_untold_write<T: Threads + Wait + Sync>(
    rt: &T,
    alloc: Global,
    on_threads: bool,
    file: &[u8],
    text: &[u8],
    tells: bool,
) -> Option<usize> {
    for room in 0..=text.len() {
        let mut reader = Reader::new(file);
        let mut writer = Writer::new(FailingWriter {
            written: Vec::new(alloc),
            room,
            tells,
        });
        let result = play_one(rt, alloc, on_threads, &mut reader, &mut writer);
        let fits = room == text.len();
        let want = if fits { Ok(()) } else { Err(PlayError::Io) };
        if result != want || writer.into_inner().written.as_slice() != &text[..room] {
            return Some(room);
        }
    }
    None
}

/// Many of the prefixes before a failed read are whole scripts.
#[test]
fn tells_each_failed_read(rt: HostRuntime) -> Result<(), Fail> {
    let (script, _) = script_and_text(rt.alloc())?;
    let untold = [
        first_untold_read(&rt, rt.alloc(), false, script.as_bytes()),
        first_untold_read(&rt, rt.alloc(), true, FAMILY.as_bytes()),
    ];
    assert_eq!(rt; untold, [None, None]);
    Ok(())
}

#[test]
fn tells_each_failed_write(rt: HostRuntime) -> Result<(), Fail> {
    let (script, text) = script_and_text(rt.alloc())?;
    let (script, text) = (script.as_bytes(), text.as_bytes());
    let (family, end) = (FAMILY.as_bytes(), FAMILY_TEXT.as_bytes());
    let untold = [
        first_untold_write(&rt, rt.alloc(), false, script, text, true),
        first_untold_write(&rt, rt.alloc(), false, script, text, false),
        first_untold_write(&rt, rt.alloc(), true, family, end, true),
        first_untold_write(&rt, rt.alloc(), true, family, end, false),
    ];
    assert_eq!(rt; untold, [None, None, None, None]);
    Ok(())
}
