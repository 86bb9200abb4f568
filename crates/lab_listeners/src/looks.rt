// `Look`: a question about the machine that a line of `show` and `repl` asks; `look_of` reads one, and `put_look` answers it.

ghost use Rattle.hart_machine.specs.BufferEntries.{IsInWorld};
ghost use Rattle.process_model.specs.World.{World};

use hart_machine::Machine;
use line_traces::{RegionLine, buffer_of, frame_page};
use script_reader::{first_field, number};
use std::alloc::AllocError;
use text_builder::Text;
use walk_lines::{TableLine, TableTitle, table_entries};

/// What is told of a question before a machine was booted.
pub const NO_MACHINE: &str =
    "this needs a machine: a line such as \"boot 1 64 4 full\" must stand before it";

/// A question about the machine.
#[derive(Clone, Copy)]
pub enum Look {
    /// The regions of the process in a slot.
    Regions(usize),
    /// The page tables of the process in a slot.
    Tables(usize),
    /// The entries of a hart's buffer.
    Buffer(usize),
    /// The frames that are held.
    Frames,
}

/// What a line that may ask a question is.
#[derive(Clone, Copy)]
pub enum Asked {
    /// No question: a line of a script.
    No,
    Yes(Look),
    /// A question in a wrong form: what would be right.
    Wrong(&'static str),
}

/// Returns the only field of a rest of a line, as a number.
fn only_number(rest: &[u8]) -> Option<usize> {
    let (field, after) = first_field(rest)?;
    if first_field(after).is_some() {
        return None;
    }
    usize::try_from(number(field)?).ok()
}

/// Returns the question of a line, if its first field is that of one.
pub fn look_of(line: &[u8]) -> Asked {
    let Some((word, rest)) = first_field(line) else {
        return Asked::No;
    };
    let only = only_number(rest);
    match std::str::from_utf8(word).unwrap_or("") {
        "frames" => match first_field(rest) {
            None => Asked::Yes(Look::Frames),
            Some(_) => Asked::Wrong("\"frames\" takes no field"),
        },
        "regions" => match only {
            Some(slot) => Asked::Yes(Look::Regions(slot)),
            None => Asked::Wrong("\"regions\" takes SLOT, a number"),
        },
        "vmprint" => match only {
            Some(slot) => Asked::Yes(Look::Tables(slot)),
            None => Asked::Wrong("\"vmprint\" takes SLOT, a number"),
        },
        "tlb" => match only {
            Some(hart) => Asked::Yes(Look::Buffer(hart)),
            None => Asked::Wrong("\"tlb\" takes HART, a number"),
        },
        _ => Asked::No,
    }
}

/// Puts the regions of the process in a slot, one a line.
fn put_regions(out: &mut Text, machine: &Machine, slot: usize) {
    let Some(regions) = machine.regions(slot) else {
        return writeln!(out, "  slot {slot} has no process");
    };
    for region in regions.as_slice() {
        let line = RegionLine::of(*region);
        writeln!(out, "  {line}");
    }
}

/// Puts the page tables of the process in a slot, as xv6's `vmprint` does.
fn put_tables(out: &mut Text, machine: &Machine, slot: usize)
    requires world { (w : World) × IsInWorld machine.now w }
{
    let Some(root) = machine.root(slot) else {
        return writeln!(out, "  slot {slot} has no process");
    };
    let (root, scheme) = (root.ppn(), machine.scheme());
    let title = TableTitle { root };
    writeln!(out, "{title}");
    let mut words = machine.words();
    let Ok(entries) = table_entries(out.allocator(), &mut words, scheme, root) else {
        return out.note(Err(AllocError));
    };
    for entry in entries.as_slice() {
        let line = TableLine {
            scheme,
            entry: *entry,
        };
        writeln!(out, "{line}");
    }
}

/// Puts the entries of a hart's buffer, one a line, the oldest first.
fn put_buffer(out: &mut Text, machine: &Machine, hart: usize) {
    if machine.phase(hart).is_none() {
        return writeln!(out, "  there is no hart {hart}");
    }
    let Ok(entries) = buffer_of(out.allocator(), machine, hart) else {
        return out.note(Err(AllocError));
    };
    if entries.is_empty() {
        return out.push_str("  empty\n");
    }
    for entry in entries.as_slice() {
        writeln!(out, "  {entry}");
    }
}

/// Puts the accounts of the frames, and below them the frames that are held, one a line, with their references.
fn put_frames(out: &mut Text, machine: &Machine) {
    let report = machine.report();
    let (free, held, shared, references) = (
        report.free,
        report.held,
        report.shared,
        report.references,
    );
    writeln!(
        out,
        "  free {free} held {held} shared {shared} references {references}"
    );
    for (frame, count) in machine.counts().iter().enumerate() {
        let (Some(frame), true) = (frame_page(frame), *count > 0) else {
            continue;
        };
        let word = if *count == 1 {
            "reference"
        } else {
            "references"
        };
        writeln!(out, "  {frame} {count} {word}");
    }
}

/// Puts the answer to a question about the machine, in lines that begin with blanks.
pub fn put_look(out: &mut Text, machine: &Machine, look: Look)
    requires world { (w : World) × IsInWorld machine.now w }
{
    match look {
        Look::Regions(slot) => put_regions(out, machine, slot),
        Look::Tables(slot) => put_tables(out, machine, slot),
        Look::Buffer(hart) => put_buffer(out, machine, hart),
        Look::Frames => put_frames(out, machine),
    }
}
