// `sort_by_name` sorts ended processes by name; `write_text` writes the text of a run on threads: a line for each process
// with its name, number of calls and outcome, and last the number of free user frames.

ghost use Rattle.std.specs.Prelude.{◌≡◌, [], false, true, not};
ghost use Rattle.std.specs.Io.KnownBytes.{Appends};
ghost use Rattle.script_language.specs.Threads.{dotted_text, name_text};
ghost use Rattle.audit_player.specs.Blocks.{AppendsPiece};
ghost use Rattle.audit_player.specs.InputOutput.{WroteSome};
ghost use Rattle.std.specs.List.Sorted.{IsPermutation};
ghost use Rattle.audit_player.specs.ThreadText.{AreInOrder, ended_line, ended_lines, threads_text};

use crate::sink::Sink;
use crate::text_block::TextBlock;
use hart_calls::Finished;

/// Appends the numbers of a name after the first, a dot before each. Returns false if a write failed.
fn put_dotted<W: Sink>(writer: &mut W, block: &mut TextBlock, numbers: &[u64]) -> bool
    ensures puts { AppendsPiece result (W.contents writer.old) (W.contents writer.new) block.old block.new (dotted_text numbers.now) }
    ensures io { W.broken writer.old ≡ false → result ≡ not (W.broken writer.new) }
{
    'numbers: for number in numbers {
        if !block.put_dotted(writer, *number) {
            return false;
        }
    }
    true
}

/// Appends the name of a process. Returns false if a write failed.
fn put_name<W: Sink>(writer: &mut W, block: &mut TextBlock, name: &[u64]) -> bool
    ensures puts { AppendsPiece result (W.contents writer.old) (W.contents writer.new) block.old block.new (name_text name.now) }
    ensures io { W.broken writer.old ≡ false → result ≡ not (W.broken writer.new) }
{
    let [first, others @ ..] = name else {
        return block.put(writer, b"");
    };
    if !block.put_number(writer, *first) {
        return false;
    }
    put_dotted(writer, block, others)
}

/// Appends the line of a process. Returns false if a write failed.
fn put_process<W: Sink>(writer: &mut W, block: &mut TextBlock, finished: &Finished<'_>) -> bool
    ensures puts { AppendsPiece result (W.contents writer.old) (W.contents writer.new) block.old block.new (ended_line finished.now) }
    ensures io { W.broken writer.old ≡ false → result ≡ not (W.broken writer.new) }
{
    if !block.put(writer, b"process ") {
        return false;
    }
    if !put_name(writer, block, finished.name.as_slice()) {
        return false;
    }
    block.put_end(writer, finished.journal.len() as u64, finished.outcome)
}

/// Appends the lines of all processes. Returns false if a write failed.
fn put_processes<W: Sink>(writer: &mut W, block: &mut TextBlock, all: &[Finished<'_>]) -> bool
    ensures puts { AppendsPiece result (W.contents writer.old) (W.contents writer.new) block.old block.new (ended_lines all.now) }
    ensures io { W.broken writer.old ≡ false → result ≡ not (W.broken writer.new) }
{
    'processes: for finished in all {
        if !put_process(writer, block, finished) {
            return false;
        }
    }
    true
}

/// Appends the lines of all processes, and last that `free` of `frames` user frames are free. Returns
/// false if a write failed.
fn put_all<W: Sink>(
    writer: &mut W,
    block: &mut TextBlock,
    all: &[Finished<'_>],
    free: u64,
    frames: u64,
) -> bool
    ensures puts { AppendsPiece result (W.contents writer.old) (W.contents writer.new) block.old block.new (threads_text all.now free frames) }
    ensures io { W.broken writer.old ≡ false → result ≡ not (W.broken writer.new) }
{
    if !put_processes(writer, block, all) {
        return false;
    }
    block.put_free(writer, free, frames)
}

/// Writes the lines of all finished processes, in this order, and last that `free` of `frames` user frames are free. `block`
/// must be empty. Returns false if a write failed; a prefix of the text is then written.
pub fn write_text<W: Sink>(
    writer: &mut W,
    mut block: TextBlock,
    all: &[Finished<'_>],
    free: u64,
    frames: u64,
) -> bool
    requires empty { block ≡ [] }
    ensures whole { result ≡ true → Appends (W.contents writer.old) (W.contents writer.new) (threads_text all.now free frames) }
    ensures part { WroteSome (W.contents writer.old) (W.contents writer.new) (threads_text all.now free frames) }
    ensures io { W.broken writer.old ≡ false → result ≡ not (W.broken writer.new) }
{
    if !put_all(writer, &mut block, all, free, frames) {
        return false;
    }
    block.finish(writer)
}

/// Sorts finished processes by their names, which are compared number by number.
pub fn sort_by_name(all: &mut Vec<Finished<'_>>)
    ensures same { IsPermutation all.old.items all.new.items }
    ensures order { AreInOrder all.new.items }
{
    all.sort_unstable_by(|one, other| one.name.cmp(&other.name));
}
