// Tests that `play_threads_with` ends a process whose journal (its calls with their replies) is full, and refuses a list and a file
// for threads that are too long.

use crate::players::played_with;
use audit_player::PlayError;
use hart_threads::OpenGate;
use script_language::Cause;
use std::alloc::{AllocError, Global};
use std::test::Fail;
use text_builder::Text;

/// A file for threads with `lines` calls, in lists of `each` calls, and one start, of list 0.
fn file_of_calls(alloc: Global, lines: usize, each: usize) -> Result<String, AllocError> {
    let mut file = Text::new(alloc);
    file.push_str("image 0x1000:0x1000:rw:-\npool 64 4\n");
    let mut list: u64 = 0;
    for line in 0..lines {
        if each > 0 && line % each == 0 {
            writeln!(&mut file, "list {list}");
            list = list.saturating_add(1);
        }
        file.push_str("load 0x1000 1\n");
    }
    file.push_str("start 0 0\n");
    file.finish()
}

/// The calls of a file for threads, how many a list has of them, the result, and the text.
type Row = (usize, usize, Result<(), PlayError>, &'static str);

static ROWS: [Row; 4] = [
    // A journal of 10,000 entries is full. So after 10,000 calls there is no room for the exit at the end of the list.
    (
        10_000,
        10_000,
        Ok(()),
        "process 0 calls 10000 ended 22 JournalFull\nfree 54 of 54\n",
    ),
    // After 9,999 there is.
    (
        9_999,
        10_000,
        Ok(()),
        "process 0 calls 10000 exit 0\nfree 54 of 54\n",
    ),
    // The 10,001st call of a list.
    (
        10_001,
        20_000,
        Err(PlayError::Script(10_004, Cause::TooMany)),
        "",
    ),
    // The 100,001st line after `pool`.
    (
        99_991,
        10_000,
        Err(PlayError::Script(100_003, Cause::TooMany)),
        "",
    ),
];

#[test]
fn journals_lists_and_files_may_be_full(rt: HostRuntime) -> Result<(), Fail> {
    for number in 0..ROWS.len() {
        let (lines, each, want, wanted) = &ROWS[number];
        let file = file_of_calls(rt.alloc(), *lines, *each)?;
        let (result, text) = played_with(&rt, rt.alloc(), file.as_str(), 2, &OpenGate);
        let is_text = text.as_slice() == wanted.as_bytes();
        assert_eq!(rt; (number, result, is_text), (number, *want, true));
    }
    Ok(())
}
