// Harts in a picture: where each is, and the entries of its TLB.

ghost use Rattle.hart_machine.specs.BufferEntries.{IsInWorld};
ghost use Rattle.process_model.specs.World.{World};

use crate::cells::{SPACE, begin_key, begin_row, end_row};
use hart_machine::Machine;
use line_traces::{HartPlace, buffer_of};
use std::alloc::AllocError;
use text_builder::Text;
use walk_lines::BufferLine;

/// Puts the entries of a hart's buffer, and returns the height below them.
fn put_buffer(out: &mut Text, hart: usize, entries: &[BufferLine], y: u64) -> u64 {
    let mut y = y;
    if entries.is_empty() {
        begin_key(out, "folded");
        begin_row(out, y);
        out.push_str("TLB: empty");
        y = end_row(out, y);
    }
    for entry in entries {
        let number = entry.number;
        begin_key(out, "page");
        write!(out, "b{hart}-{number}");
        begin_row(out, y);
        write!(out, "{entry}");
        y = end_row(out, y);
    }
    y
}

/// Puts where a hart is, and its buffer, and returns the height below them.
pub fn put_hart(out: &mut Text, machine: &Machine, hart: usize, y: u64) -> u64
    requires world { (w : World) × IsInWorld machine.now w }
{
    let Some(place) = HartPlace::of(machine, hart) else {
        return y;
    };
    begin_key(out, "head");
    write!(out, "h{hart}");
    begin_row(out, y);
    write!(out, "{place}");
    let y = end_row(out, y);
    match buffer_of(out.allocator(), machine, hart) {
        Ok(entries) => put_buffer(out, hart, entries.as_slice(), y).saturating_add(SPACE),
        Err(_) => {
            out.note(Err(AllocError));
            y
        }
    }
}
