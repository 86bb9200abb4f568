// Tests that `play` takes 100,000 lines after `boot` and refuses one more; refuses lines and scripts above the greatest
// length; takes an image of 17 pages; and writes a long text in few calls. `CountingWriter`, a struct: counts calls and
// bytes.

use crate::players::played;
use audit_player::{PlayError, Reader, Writer, play};
use script_language::Cause;
use std::alloc::{AllocError, Global};
use std::io;
use std::io::Write;
use std::test::Fail;
use text_builder::Text;

/// A writer that takes all bytes that it is given, and counts calls and bytes.
#[derive(Drop)]
struct CountingWriter {
    calls: usize,
    bytes: usize,
}

impl Write for CountingWriter {
    fn write(&mut self, buf: &[u8]) -> io::Result<usize> {
        self.calls = self.calls.saturating_add(1);
        self.bytes = self.bytes.saturating_add(buf.len());
        Ok(buf.len())
    }

    fn flush(&mut self) -> io::Result<()> {
        Ok(())
    }
}

/// Plays a script. Returns the result, and how many calls wrote how many bytes.
fn counted(alloc: Global, script: &[u8]) -> (Result<(), PlayError>, (usize, usize)) {
    let mut reader = Reader::new(script);
    let mut writer = Writer::new(CountingWriter { calls: 0, bytes: 0 });
    let result = play(alloc, &mut reader, &mut writer);
    let CountingWriter { calls, bytes } = writer.into_inner();
    (result, (calls, bytes))
}

/// A text that has `piece` in it, `count` times.
fn repeated(
    alloc: Global,
    before: &str,
    piece: &str,
    count: usize,
    after: &str,
) -> Result<String, AllocError> {
    let mut text = Text::new(alloc);
    text.push_str(before);
    for _ in 0..count {
        text.push_str(piece);
    }
    text.push_str(after);
    text.finish()
}

/// What comes after 100,000 lines, the result, and how many calls write how many bytes.
static LAST: [(&str, Result<(), PlayError>, (usize, usize)); 2] = [
    // more than 2 MiB of text, written in pieces of at least 64 KiB and a last one: `ok`, and 27 bytes for each line,
    // `refused 19 Impossible idle`
    ("", Ok(()), (42, 3 + 100_000 * 27)),
    (
        "on 0 0",
        Err(PlayError::Script(300_002, Cause::TooMany)),
        (0, 0),
    ),
];

#[test]
fn takes_a_hundred_thousand_lines(rt: HostRuntime) -> Result<(), Fail> {
    for (last, want, counts) in &LAST {
        let script = repeated(
            rt.alloc(),
            "boot 1 16 1 full\n",
            "on 0 0\n\n#\n",
            100_000,
            last,
        )?;
        assert_eq!(rt; counted(rt.alloc(), script.as_bytes()), (*want, *counts));
    }
    Ok(())
}

/// A line feed, and then `count` spaces.
fn blanks(alloc: Global, count: usize) -> Result<Vec<u8>, AllocError> {
    let mut bytes = vec![in alloc; b' '; count]?;
    bytes.insert(0, b'\n')?;
    Ok(bytes)
}

/// So many spaces after a line feed, and the line and the cause of the refusal.
static BLANKS: [(usize, u64, Cause); 4] = [
    (2_097_664, 3, Cause::Order),
    (2_097_665, 2, Cause::TooLong),
    (16_777_215, 2, Cause::TooLong),
    (16_777_216, 0, Cause::TooLong),
];

#[test]
fn refuses_what_is_too_long(rt: HostRuntime) -> Result<(), Fail> {
    for (count, line, cause) in &BLANKS {
        let script = blanks(rt.alloc(), *count)?;
        let refused = Err(PlayError::Script(*line, *cause));
        let (result, counts) = counted(rt.alloc(), script.as_slice());
        assert_eq!(rt; (*count, result, counts), (*count, refused, (0, 0)));
    }
    Ok(())
}

/// An image of 17 pages, whose bytes are all in the script. The first and the last of them are loaded.
#[test]
fn takes_a_long_image(rt: HostRuntime) -> Result<(), Fail> {
    let end = "5a\nboot 1 64 1 full\nstart 0\non 0 0\nload 0 0x1000 1\nload 0 0x11ffe 2\n";
    let script = repeated(
        rt.alloc(),
        "image 0x1000:0x11000:r:a5",
        "00",
        0x11000 - 2,
        end,
    )?;
    let (result, text) = played(rt.alloc(), script.as_bytes());
    let want = "ok\nslot 0\nok\nvalue 0xa5\nvalue 0x5a00\n";
    assert_eq!(rt; (result, text.as_slice()), (Ok(()), want.as_bytes()));
    Ok(())
}
