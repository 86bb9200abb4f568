// The printed text of a run on threads: `put_end` (how a process ended) and `put_free` (how many frames are free) append it
// to a byte vector with room for `LONGEST_END` bytes.

ghost use Rattle.std.specs.Prelude.{◌≡◌, ◌+◌, ◌≤◌, ◌++◌, codes, length, vec_len, vec_capacity};
ghost use Rattle.std.specs.Fmt.{decimal};
ghost use Rattle.script_language.specs.Threads as words;

use crate::digits::{put, put_decimal, put_signed};
use crate::text::{put_count, put_rule, refusal_words};
use process_model::ProcessEnd;

/// The room, in bytes, that each of `put_end` and `put_free` needs: neither appends more.
pub const LONGEST_END: usize = 160;

/// Appends ` calls `, the number `calls`, and `end`.
fn put_calls(text: &mut Vec<u8>, calls: u64, end: &[u8])
    requires short { length end.now ≤ 40 }
    requires room { vec_len text.old + 80 ≤ vec_capacity text.old }
    ensures text { text.new.items ≡ text.old.items ++ (codes " calls " ++ (decimal calls ++ end.now)) }
    ensures len { vec_len text.new ≤ vec_len text.old + 80 }
    ensures capacity { vec_capacity text.old ≤ vec_capacity text.new }
{
    put(text, b" calls ");
    put_decimal(text, calls);
    put(text, end);
}

/// Appends to `text` how a process ended, the text after its name, without a line feed: the number of calls in its journal
/// (`calls`) and the outcome; for a refused start the refusal alone. Requires room (unused capacity) for `LONGEST_END`
/// bytes.
pub fn put_end(text: &mut Vec<u8>, calls: u64, outcome: ProcessEnd)
    requires room { vec_len text.old + LONGEST_END ≤ vec_capacity text.old }
    ensures text { text.new.items ≡ text.old.items ++ words.end_text calls outcome }
    ensures len { vec_len text.new ≤ vec_len text.old + LONGEST_END }
    ensures capacity { vec_capacity text.old ≤ vec_capacity text.new }
{
    match outcome {
        ProcessEnd::Exited(status) => {
            put_calls(text, calls, b" exit ");
            put_signed(text, status);
        }
        ProcessEnd::Ended(rule) => {
            put_calls(text, calls, b"");
            put_rule(text, b" ended ", rule);
        }
        ProcessEnd::Refused(refusal) => {
            let (name, detail) = refusal_words(refusal);
            put(text, b" refused ");
            put(text, name.as_bytes());
            put(text, detail.as_bytes());
        }
        ProcessEnd::Memory => put_calls(text, calls, b" ended 21 Memory"),
        ProcessEnd::JournalFull => put_calls(text, calls, b" ended 22 JournalFull"),
    }
}

/// Appends to `text` how many user frames are free, of `frames`, without a line feed. Requires room (unused capacity) for
/// `LONGEST_END` bytes.
pub fn put_free(text: &mut Vec<u8>, free: u64, frames: u64)
    requires room { vec_len text.old + LONGEST_END ≤ vec_capacity text.old }
    ensures text { text.new.items ≡ text.old.items ++ words.free_text free frames }
    ensures len { vec_len text.new ≤ vec_len text.old + LONGEST_END }
    ensures capacity { vec_capacity text.old ≤ vec_capacity text.new }
{
    put_count(text, b"free ", free);
    put_count(text, b" of ", frames);
}
