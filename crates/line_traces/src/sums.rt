// `AuditSums`: what was taken and given back since the audit before; and `Ledger`, which adds that up line by line.

ghost use Rattle.std.specs.Prelude.{IfSome};
ghost use Rattle.hart_machine.specs.BufferEntries.{IsInWorld};
ghost use Rattle.process_model.specs.World.{World};

use crate::changes::Changes;
use crate::frames::FrameChanges;
use crate::leaves::{LeafChange, entries_of};
use crate::traces::LineTrace;
use hart_machine::Machine;
use json_objects::ObjectWriter;
use script_reader::first_field;
use serde::{Described, Serialize, Serializer};
use std::alloc::{AllocError, Global};
use sv39_entry::{Entry, Kind};
use walk_lines::Hex;

/// The flag in a leaf by which the kernel marks copy-on-write: bit 8.
const COPY_ON_WRITE: u64 = 1 << 8;

/// For what frames were taken.
#[derive(Clone, Copy)]
pub struct TakenFrames {
    /// For page tables, the roots among them.
    pub tables: usize,
    /// For pages, but copies: guard page, stack and trapframe among them.
    pub pages: usize,
    /// For copies of pages that a fork shared.
    pub copies: usize,
}

impl Described for TakenFrames {}

impl Serialize for TakenFrames {
    fn serialize<S: Serializer>(&self, out: &mut S) -> Result<(), S::Error> {
        let mut object = ObjectWriter::begin(out);
        object.member("tables", &self.tables);
        object.member("pages", &self.pages);
        object.member("copies", &self.copies);
        object.finish()
    }
}

/// Of what frames were given back.
#[derive(Clone, Copy)]
pub struct GivenFrames {
    pub tables: usize,
    /// Of pages, copies among them.
    pub pages: usize,
}

impl Described for GivenFrames {}

impl Serialize for GivenFrames {
    fn serialize<S: Serializer>(&self, out: &mut S) -> Result<(), S::Error> {
        let mut object = ObjectWriter::begin(out);
        object.member("tables", &self.tables);
        object.member("pages", &self.pages);
        object.finish()
    }
}

/// How many came, and how many went.
#[derive(Clone, Copy)]
pub struct ComeAndGone {
    pub come: usize,
    pub gone: usize,
}

impl Described for ComeAndGone {}

impl Serialize for ComeAndGone {
    fn serialize<S: Serializer>(&self, out: &mut S) -> Result<(), S::Error> {
        let mut object = ObjectWriter::begin(out);
        object.member("come", &self.come);
        object.member("gone", &self.gone);
        object.finish()
    }
}

/// What the lines since the audit before took and gave back. A frame that one line takes and a later one gives back counts in both; one that
/// a line gives back and takes again, as `exec` may, in neither.
#[derive(Clone, Copy)]
pub struct AuditSums {
    /// The number of the line of the audit before; `None`: since the boot.
    pub since: Option<u64>,
    pub taken: TakenFrames,
    pub given_back: GivenFrames,
    /// Frames that came to two references or more, and those that came down to fewer.
    pub shared: ComeAndGone,
    /// References that came to be, and those that were dropped.
    pub references: ComeAndGone,
}

impl Described for AuditSums {}

impl Serialize for AuditSums {
    fn serialize<S: Serializer>(&self, out: &mut S) -> Result<(), S::Error> {
        let mut object = ObjectWriter::begin(out);
        object.maybe("since", &self.since);
        object.member("taken", &self.taken);
        object.member("given_back", &self.given_back);
        object.member("shared", &self.shared);
        object.member("references", &self.references);
        object.finish()
    }
}

impl AuditSums {
    /// Returns the sums of no lines.
    fn since(since: Option<u64>) -> AuditSums {
        AuditSums {
            since,
            taken: TakenFrames {
                tables: 0,
                pages: 0,
                copies: 0,
            },
            given_back: GivenFrames {
                tables: 0,
                pages: 0,
            },
            shared: ComeAndGone { come: 0, gone: 0 },
            references: ComeAndGone { come: 0, gone: 0 },
        }
    }

    /// Adds what a line changed of the references of a frame.
    fn add_count(&mut self, before: u16, after: u16) {
        let come = after.saturating_sub(before) as usize;
        let gone = before.saturating_sub(after) as usize;
        self.references.come = self.references.come.saturating_add(come);
        self.references.gone = self.references.gone.saturating_add(gone);
        if before < 2 && after >= 2 {
            self.shared.come = self.shared.come.saturating_add(1);
        }
        if before >= 2 && after < 2 {
            self.shared.gone = self.shared.gone.saturating_add(1);
        }
    }

    /// Adds frames that a line took; `tables` has the page tables after it.
    fn add_taken(&mut self, taken: &[Hex], tables: &[u64], copies: usize) {
        let of_tables = count_among(taken, tables);
        let others = taken.len().saturating_sub(of_tables);
        let copies = copies.min(others);
        let sums = &mut self.taken;
        sums.tables = sums.tables.saturating_add(of_tables);
        sums.copies = sums.copies.saturating_add(copies);
        sums.pages = sums.pages.saturating_add(others.saturating_sub(copies));
    }

    /// Adds frames that a line gave back; `tables` has the page tables before it.
    fn add_given(&mut self, given: &[Hex], tables: &[u64]) {
        let of_tables = count_among(given, tables);
        let others = given.len().saturating_sub(of_tables);
        let sums = &mut self.given_back;
        sums.tables = sums.tables.saturating_add(of_tables);
        sums.pages = sums.pages.saturating_add(others);
    }
}

/// Returns how many frames are among some, by physical page numbers.
fn count_among(frames: &[Hex], among: &[u64]) -> usize {
    let mut count = 0usize;
    for frame in frames {
        if among.contains(&frame.0) {
            count = count.saturating_add(1);
        }
    }
    count
}

/// Returns of how many leaves a line copied the page: those that had the mark of copy-on-write and lead to another frame now.
fn count_copies(leaves: &[LeafChange]) -> usize {
    let mut count = 0usize;
    for leaf in leaves {
        if let (Some(before), Some(after)) = (leaf.before, leaf.after) {
            if before.word.0 & COPY_ON_WRITE != 0 && before.ppn.0 != after.ppn.0 {
                count = count.saturating_add(1);
            }
        }
    }
    count
}

/// Returns the first word of a line.
fn word_of(line: &str) -> &[u8] {
    match first_field(line.as_bytes()) {
        Some((word, _)) => word,
        None => b"".as_slice(),
    }
}

/// Appends the physical page numbers of the page tables of the process in a slot, its root first; nothing if there is none.
fn put_tables(
    alloc: Global,
    tables: &mut Vec<u64>,
    machine: &Machine,
    slot: usize,
) -> Result<(), AllocError>
    requires world { (w : World) × IsInWorld machine.now w }
{
    let Some(root) = machine.root(slot) else {
        return Ok(());
    };
    tables.push(root.ppn())?;
    let entries = entries_of(alloc, machine, slot)?;
    for entry in entries.as_slice() {
        let word = Entry::from_word(entry.word);
        if word.kind() == Kind::Pointer {
            tables.push(word.ppn())?;
        }
    }
    Ok(())
}

/// Returns the physical page numbers of the page tables of all processes.
fn tables_of(alloc: Global, machine: &Machine) -> Result<Vec<u64>, AllocError>
    requires world { (w : World) × IsInWorld machine.now w }
{
    let mut tables = Vec::new(alloc);
    for slot in 0..machine.slot_count() {
        put_tables(alloc, &mut tables, machine, slot)?;
    }
    Ok(tables)
}

/// Adds up, line by line, what is taken and given back between audits.
#[derive(Drop)]
pub struct Ledger {
    alloc: Global,
    /// The reference counts of all frames after the last line; none before there is a machine.
    counts: Vec<u16>,
    /// The page tables of processes after the last line that took frames or gave some back, or replaced a process.
    tables: Vec<u64>,
    sums: AuditSums,
}

impl Ledger {
    /// Returns a ledger of no lines.
    pub fn new(alloc: Global) -> Ledger {
        Ledger {
            alloc,
            counts: Vec::new(alloc),
            tables: Vec::new(alloc),
            sums: AuditSums::since(None),
        }
    }

    /// Adds what a line changed of the references of all frames.
    fn add_counts(&mut self, machine: &Machine) -> Result<(), AllocError> {
        let (before, after) = (self.counts.as_slice(), machine.counts());
        for number in 0..before.len().min(after.len()) {
            self.sums.add_count(before[number], after[number]);
        }
        self.counts = Vec::from_slice(self.alloc, machine.counts())?;
        Ok(())
    }

    /// Adds the frames that a line took and gave back; `copies` of them for copies of pages.
    fn add_frames(&mut self, frames: &FrameChanges, copies: usize, after: &[u64]) {
        self.sums
            .add_given(frames.given_back.as_slice(), self.tables.as_slice());
        self.sums.add_taken(frames.taken.as_slice(), after, copies);
    }

    /// Adds what a line changed of the frames.
    fn add_changes(
        &mut self,
        changes: &Changes,
        machine: &Machine,
        copies: usize,
    ) -> Result<(), AllocError>
        requires world { (w : World) × IsInWorld machine.now w }
    {
        let Some(frames) = &changes.frames else {
            return Ok(());
        };
        let after = tables_of(self.alloc, machine)?;
        self.add_frames(frames, copies, after.as_slice());
        self.tables = after;
        self.add_counts(machine)
    }

    /// Adds a line that was played, and puts the sums into the trace of an audit. Each line of a script is to be added, in order.
    ///
    /// # Errors
    /// `AllocError`: the host is out of memory.
    pub fn add(
        &mut self,
        trace: &mut LineTrace,
        machine: Option<&Machine>,
    ) -> Result<(), AllocError>
        requires world { IfSome machine (λ m. (w : World) × IsInWorld m.now w) }
    {
        let (Some(machine), Some(changes)) = (machine, &trace.seen.changes) else {
            return Ok(());
        };
        let (is_exec, is_audit) = match word_of(trace.text.as_str()) {
            b"exec" => (true, false),
            b"audit" => (false, true),
            _ => (false, false),
        };
        // an image that replaces the process has pages of its own, in frames of the old one too
        let copies = if is_exec {
            0
        } else {
            count_copies(changes.leaves.as_slice())
        };
        self.add_changes(changes, machine, copies)?;
        if is_exec {
            self.tables = tables_of(self.alloc, machine)?;
        }
        if is_audit {
            trace.sums = Some(self.sums);
            self.sums = AuditSums::since(Some(trace.line));
        }
        Ok(())
    }
}
