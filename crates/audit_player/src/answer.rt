// Answers of the two lines after `boot` that make no step: `put_shown` appends that of `show` (length and bytes of a file);
// `audit` returns the counts of frames that the line `audit` answers.

ghost use Rattle.std.specs.Prelude.{◌≡◌, ◌≤◌, ◌+◌, ◌++◌, codes, slice_get, vec_len, vec_capacity};
ghost use Rattle.std.specs.Prelude.{length as list_length};
ghost use Rattle.std.specs.Fmt.{decimal};
ghost use Rattle.hart_machine.specs.BufferEntries.{IsInWorld};
ghost use Rattle.process_model.specs.Files.{bytes_of};
ghost use Rattle.script_language.specs.Text.{show_text};
ghost use Rattle.script_language.specs.Words.{bytes_text};
ghost use Rattle.process_model.specs.World.{World, report};

use file_cabinet::Cabinet;
use hart_machine::Machine;
use process_model::{LONGEST_COPY, Report};
use script_language::{LONGEST_TEXT, put, put_bytes, put_decimal};

/// Appends the length of a file, and the bytes of it that are shown.
fn put_file(text: &mut Vec<u8>, length: usize, shown: &[u8])
    requires few { list_length shown.now ≤ LONGEST_COPY }
    requires room { vec_len text.old + LONGEST_TEXT ≤ vec_capacity text.old }
    ensures text { text.new.items ≡ text.old.items ++ (codes "file " ++ decimal length ++ codes " " ++ bytes_text shown.now) }
    ensures len { vec_len text.new ≤ vec_len text.old + LONGEST_TEXT }
    ensures capacity { vec_capacity text.old ≤ vec_capacity text.new }
{
    put(text, b"file ");
    put_decimal(text, length as u64);
    put(text, b" ");
    put_bytes(text, shown);
}

/// Appends the answer of `show`: the length of the file with index `file`, in bytes, and its bytes from `offset` on, at most
/// `count`. A file that does not exist has no bytes. `count` must be at most `LONGEST_COPY`, and `text` must have room for
/// `LONGEST_TEXT` bytes more.
pub fn put_shown(text: &mut Vec<u8>, files: &Cabinet, file: usize, offset: u64, count: usize)
    requires short { count ≤ LONGEST_COPY }
    requires room { vec_len text.old + LONGEST_TEXT ≤ vec_capacity text.old }
    ensures text { text.new.items ≡ text.old.items ++ show_text (bytes_of (slice_get files.now file)) offset count }
    ensures len { vec_len text.new ≤ vec_len text.old + LONGEST_TEXT }
    ensures capacity { vec_capacity text.old ≤ vec_capacity text.new }
{
    let bytes = files.bytes(file).unwrap_or(&[]);
    let rest = &bytes[bytes.len().min(offset as usize)..];
    put_file(text, bytes.len(), &rest[..rest.len().min(count)]);
}

/// Returns the counts of a machine's frames that the line `audit` answers: free, held and shared frames, and references.
pub fn audit(machine: &Machine) -> Report
    ensures { (w : World) → IsInWorld machine.now w → result ≡ report w }
{
    machine.report()
}
