// `ShownParts`: puts the parts of a machine as JSON, each when it is other than before; and `put_json`, which puts a value.

ghost use Rattle.hart_machine.specs.BufferEntries.{IsInWorld};
ghost use Rattle.process_model.specs.World.{World};

use crate::escape::put_script_text;
use crate::views::cells::{CellRow, CellView};
use crate::views::files::{FilePlace, file_place, files_of};
use crate::views::frames::{FramesView, KeptFrames};
use crate::views::harts::harts_of;
use crate::views::slots::SlotView;
use hart_machine::Machine;
use line_traces::Touched;
use serde::Serialize;
use std::alloc::{AllocError, Global};
use std::fmt;
use text_builder::Text;

/// The parts of a machine, as JSON as they were put last; empty before they are put.
#[derive(Drop)]
pub struct ShownParts {
    alloc: Global,
    harts: String,
    slots: Vec<String>,
    frames: String,
    files: String,
    cell: String,
    /// The bytes that a line touched last, and where they are in a file. Of a mapping that is gone this stays, so that one sees
    /// what was written back.
    touched: Option<Touched>,
    place: Option<FilePlace>,
}

/// Returns a value as JSON.
fn json_of<T: Serialize>(alloc: Global, value: &T) -> Result<String, AllocError> {
    match serde_json::to_string(alloc, value) {
        Ok(text) => Ok(text),
        // No value of a page is one that JSON cannot have.
        Err(_) => Err(AllocError),
    }
}

/// Puts a value as JSON within an element `script`.
pub fn put_json<T: Serialize>(out: &mut Text, value: &T) {
    match json_of(out.allocator(), value) {
        Ok(json) => put_script_text(out, json.as_str()),
        Err(_) => out.note(Err(AllocError)),
    }
}

/// The name of the part that a slot is.
#[derive(Clone, Copy)]
struct SlotName(usize);

impl fmt::Display for SlotName {
    fn fmt<W: fmt::Write>(&self, f: &mut fmt::Formatter<W>) -> fmt::Result {
        let slot = self.0;
        write!(f, "slot{slot}")
    }
}

/// Puts a part as a further member of a JSON object, unless it was put last as it is; `shown` is its JSON as it was put last.
fn put_part<N: fmt::Display + Drop, T: Serialize + Drop>(
    out: &mut Text,
    name: N,
    shown: &mut String,
    part: Result<T, AllocError>,
) {
    let Ok(part) = part else {
        return out.note(Err(AllocError));
    };
    let Ok(json) = json_of(out.allocator(), &part) else {
        return out.note(Err(AllocError));
    };
    if json.as_str() != shown.as_str() {
        write!(out, ",\"{name}\":");
        put_script_text(out, json.as_str());
        *shown = json;
    }
}

impl ShownParts {
    /// Returns the parts of a machine of which nothing was put.
    pub fn new(alloc: Global) -> ShownParts {
        ShownParts {
            alloc,
            harts: String::new(alloc),
            slots: Vec::new(alloc),
            frames: String::new(alloc),
            files: String::new(alloc),
            cell: String::new(alloc),
            touched: None,
            place: None,
        }
    }

    /// Takes note of the bytes that a line touches, if it touches any.
    pub fn touch(&mut self, touched: Option<Touched>) {
        if touched.is_some() && touched != self.touched {
            self.touched = touched;
            self.place = None;
        }
    }

    /// Takes note of where the bytes that a line touched last are in a file.
    fn note_place(&mut self, machine: &Machine) {
        let place = match self.touched {
            Some(touched) => file_place(machine, touched),
            None => None,
        };
        if place.is_some() {
            self.place = place;
        }
    }

    /// Returns the bytes that a line touched last, as they are now; `None` if none did.
    fn cell(&self, machine: &Machine) -> Result<Option<CellView>, AllocError>
        requires world { (w : World) × IsInWorld machine.now w }
    {
        match self.touched {
            Some(touched) => {
                let cell = CellView::of(self.alloc, machine, touched, self.place)?;
                Ok(Some(cell))
            }
            None => Ok(None),
        }
    }

    /// Puts a slot if it is other than it was put last, and appends the physical page numbers of its pages that are listed to `pages`.
    fn put_slot(
        &mut self,
        out: &mut Text,
        machine: &Machine,
        slot: usize,
        rows: &[CellRow],
        pages: &mut Vec<u64>,
    )
        requires world { (w : World) × IsInWorld machine.now w }
    {
        let view = SlotView::of(self.alloc, machine, slot, rows);
        if let Ok(Some(view)) = &view {
            out.note(view.put_pages(pages));
        }
        if slot >= self.slots.len() && self.slots.push(String::new(self.alloc)).is_err() {
            out.note(Err(AllocError));
        }
        if let Some(shown) = self.slots.get_mut(slot) {
            put_part(out, SlotName(slot), shown, view);
        }
    }

    /// Puts the slots and the frames that are other than they were put last; the pages and frames with bytes in `rows` are listed, and
    /// the frames of pages that are listed.
    fn put_memory(&mut self, out: &mut Text, machine: &Machine, rows: &[CellRow])
        requires world { (w : World) × IsInWorld machine.now w }
    {
        let mut pages = Vec::new(self.alloc);
        for slot in 0..machine.slot_count() {
            self.put_slot(out, machine, slot, rows, &mut pages);
        }
        let kept = KeptFrames {
            rows,
            pages: pages.as_slice(),
        };
        let frames = FramesView::of(self.alloc, machine, kept);
        put_part(out, "frames", &mut self.frames, frames);
    }

    /// Puts the parts of a machine that are other than they were put last, as a JSON object: `slots`, how many there are, and if they are
    /// others `harts`, `frames`, `files`, `cell` (the bytes that a line touched last) and, for each slot, `slot0` and so on.
    pub fn put_changes(&mut self, out: &mut Text, machine: &Machine)
        requires world { (w : World) × IsInWorld machine.now w }
    {
        let (alloc, slots) = (self.alloc, machine.slot_count());
        self.note_place(machine);
        let cell = self.cell(machine);
        out.push_str("{\"slots\":");
        write!(out, "{slots}");
        put_part(out, "harts", &mut self.harts, harts_of(alloc, machine));
        match &cell {
            Ok(Some(cell)) => self.put_memory(out, machine, cell.rows.as_slice()),
            _ => self.put_memory(out, machine, &[]),
        }
        let files = files_of(alloc, machine, self.place);
        put_part(out, "files", &mut self.files, files);
        put_part(out, "cell", &mut self.cell, cell);
        out.push_str("}");
    }
}
