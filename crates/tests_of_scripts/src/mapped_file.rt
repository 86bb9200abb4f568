// A script for other tests, which maps a file, stores to it and shows what was written back: `LINES`, its lines with their
// answers and the result of cutting each line at each byte; `script_and_text`, the whole script and its text.

use std::alloc::{AllocError, Global};
use text_builder::Text;

/// The lines of the script. Each has a letter for each of its bytes, and its answer, which is empty for a declaration.
///
/// The letter says what the line is if it is cut after that byte: refused with cause `W` Word, `C` Count, `N` Number or `F`
/// Field, or a dot: valid. After `boot`, a line that is valid when cut has the answer of the whole line.
pub static LINES: [(&str, &str, &str); 19] = [
    ("file 5000 rw 6162", "WWWCCCCCCCCCCF.F.", ""),
    (
        "image 0x0:0x1000:rx:13050000 0x1000:0x1800:rw:-",
        "WWWWCCFFFFFFFFFFFFFFF.F.F.F..FFFFFFFFFFFFFFFFF.",
        "",
    ),
    ("boot 1 64 4 full", "WWWCCCCCCCCCFFF.", "ok\n"),
    ("start 0", "WWWWCC.", "slot 0\n"),
    ("on 0 0", "WCCCC.", "ok\n"),
    ("enter 0", "WWWWCC.", "ok\n"),
    (
        "mmap 0 6000 3 1 0",
        "WWWCCCCCCCCCCCCC.",
        "at 0x3fffffc000\n",
    ),
    ("leave 0", "WWWWCC.", "ok\n"),
    (
        "load 0 0x3fffffd388 1",
        "WWWCCCCCCCCCCCCCCCCC.",
        "fault 13\n",
    ),
    ("fix 0", "WWCC.", "ready\n"),
    (
        "load 0 0x3fffffd388 1",
        "WWWCCCCCCCCCCCCCCCCC.",
        "value 0x0\n",
    ),
    (
        "store 0 0x3fffffd387 1 0x7a",
        "WWWWCCCCCCCCCCCCCCCCCCC.N..",
        "fault 15\n",
    ),
    ("fix 0", "WWCC.", "ready\n"),
    (
        "store 0 0x3fffffd387 1 0x7a",
        "WWWWCCCCCCCCCCCCCCCCCCC.N..",
        "stored\n",
    ),
    (
        "store 0 0x3fffffd388 1 0x7b",
        "WWWWCCCCCCCCCCCCCCCCCCC.N..",
        "stored\n",
    ),
    ("enter 0", "WWWWCC.", "ok\n"),
    (
        "munmap 0 0x3fffffc000 6000",
        "WWWWWCCCCCCCCCCCCCCCCC....",
        "ok\n",
    ),
    ("show 0 4998 4", "WWWCCCCCCCCC.", "file 5000 007a\n"),
    ("show 0 0 2", "WWWCCCCCC.", "file 5000 6162\n"),
];

/// The whole script, and the text that `play` writes for it.
///
/// # Errors
/// `AllocError`: the host is out of memory.
pub fn script_and_text(alloc: Global) -> Result<(String, String), AllocError> {
    let mut script = Text::new(alloc);
    let mut text = Text::new(alloc);
    for (line, _, reply) in &LINES {
        script.push_str(line);
        script.push_str("\n");
        text.push_str(reply);
    }
    Ok((script.finish()?, text.finish()?))
}
