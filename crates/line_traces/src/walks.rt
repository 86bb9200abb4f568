// `WalkLine`: a word that a page table walk read, with the number of references to the frame of a leaf; and `walk_of`, those of the
// walk of an address.

ghost use Rattle.std.specs.Prelude.{◌≡◌, ◌≢◌, ℕ, None, Some, option_and_then, slice_get};
ghost use Rattle.sv39_entry.specs.Frame.{frame_at};
ghost use Rattle.sv39_entry.specs.Word.{kind_of, ppn};
ghost use Rattle.sv39_entry.specs.declared.entry.Kind.TheVariants as kind;

use hart_machine::Machine;
use json_objects::ObjectWriter;
use serde::{Described, Serialize, Serializer};
use std::alloc::{AllocError, Global};
use sv39_entry::{Entry, FrameNo, Kind, Va};
use walk_lines::{Flags, Hex, WalkEntry, walk_entries};

/// A word that a page table walk read. Its JSON has the page number of the table, and that to which the word leads.
#[derive(Clone, Copy)]
pub struct WalkLine {
    pub entry: WalkEntry,
    /// How many references the frame of a leaf has; `None` if the word is no leaf.
    pub references: Option<u16>,
}

/// Returns what a word is to a walk, and the page number to which it leads.
fn meaning(word: Option<u64>) -> (&'static str, Option<Hex>) {
    let Some(word) = word else {
        return ("outside the memory", None);
    };
    let entry = Entry::from_word(word);
    match entry.kind() {
        Kind::Invalid => ("no leaf", None),
        Kind::Pointer => ("table", Some(Hex(entry.ppn()))),
        Kind::Leaf => ("leaf", Some(Hex(entry.ppn()))),
    }
}

impl Described for WalkLine {}

impl Serialize for WalkLine {
    fn serialize<S: Serializer>(&self, out: &mut S) -> Result<(), S::Error> {
        let entry = self.entry;
        let (kind, ppn) = meaning(entry.word);
        let mut object = ObjectWriter::begin(out);
        object.member("level", &entry.level);
        object.member("table", &Hex(entry.table));
        object.member("index", &entry.index);
        if let Some(word) = entry.word {
            object.member("word", &Hex(word));
            object.member("flags", &Flags(word));
        }
        object.member("kind", &kind);
        object.maybe("ppn", &ppn);
        object.maybe("references", &self.references);
        object.finish()
    }
}

/// Returns how many references the frame of a leaf has; `None` if the word is no leaf, or its page is outside the memory.
pub fn reference_count(counts: &[u16], word: Option<u64>) -> Option<u16>
    ensures leaf { (w : ℕ) → word ≡ Some w → kind_of w ≡ kind.Leaf → result ≡ option_and_then (λ frame. slice_get counts.now frame.0) (frame_at (ppn w)) }
    ensures other { (w : ℕ) → word ≡ Some w → kind_of w ≢ kind.Leaf → result ≡ None }
{
    let entry = Entry::from_word(word?);
    match entry.kind() {
        Kind::Leaf => {
            let frame = FrameNo::from_ppn(entry.ppn())?;
            counts.get(frame.0 as usize).copied()
        }
        Kind::Invalid | Kind::Pointer => None,
    }
}

/// Returns the words that the walk of an address reads in a machine's memory from a root on, the root's first.
///
/// # Errors
/// `AllocError`: the host is out of memory.
pub fn walk_of(
    alloc: Global,
    machine: &Machine,
    root: u64,
    va: Va,
) -> Result<Vec<WalkLine>, AllocError> {
    let mut words = machine.words();
    let entries = walk_entries(&mut words, machine.scheme(), root, va);
    let mut lines = Vec::new(alloc);
    for entry in entries.as_slice() {
        lines.push(WalkLine {
            entry: *entry,
            references: reference_count(machine.counts(), entry.word),
        })?;
    }
    Ok(lines)
}
