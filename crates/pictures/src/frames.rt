// Frames in a picture, with their reference counts and what they hold.

ghost use Rattle.hart_machine.specs.BufferEntries.{IsInWorld};
ghost use Rattle.process_model.specs.World.{World};

use crate::cells::{
    Grid, SPACE, begin_cell, begin_key, begin_row, end_cell, end_row, next_in_cell,
};
use crate::uses::{FrameUse, Holds, frame_uses};
use hart_machine::Machine;
use line_traces::frame_page;
use process_model::Report;
use std::alloc::AllocError;
use text_builder::Text;
use walk_lines::Hex;

/// Up to this many frames, each has a cell; above it, frames in a row have one together if they are free, or pages of one process.
const MOST_UNFOLDED: usize = 64;

/// The most cells of frames.
const MOST_CELLS: usize = 512;

/// How a frame looks.
#[derive(Clone, Copy, PartialEq, Eq)]
enum Class {
    Free,
    /// It has two or more references.
    Shared,
    Kernel,
    Table,
    /// A page of the process in this slot.
    Page(usize),
}

impl Class {
    fn name(self) -> &'static str {
        match self {
            Class::Free => "free",
            Class::Shared => "shared",
            Class::Kernel => "kernel",
            Class::Table => "table",
            Class::Page(_) => "page",
        }
    }
}

/// A frame, by what is known of it.
#[derive(Clone, Copy)]
struct Frame {
    number: usize,
    /// Its physical page number.
    page: Hex,
    count: u16,
    of_process: Option<FrameUse>,
}

impl Frame {
    /// Returns the frame of this number; `None` if there is none.
    fn at(machine: &Machine, uses: &[Option<FrameUse>], number: usize) -> Option<Frame> {
        let count = *machine.counts().get(number)?;
        let of_process = match uses.get(number) {
            Some(it) => *it,
            None => None,
        };
        Some(Frame {
            number,
            page: frame_page(number)?,
            count,
            of_process,
        })
    }

    fn class(self) -> Class {
        match self.of_process {
            _ if self.count == 0 => Class::Free,
            _ if self.count > 1 => Class::Shared,
            None => Class::Kernel,
            Some(it) => match it.holds {
                Holds::Root | Holds::Table(_) => Class::Table,
                Holds::Page(_) => Class::Page(it.slot),
            },
        }
    }
}

/// Returns how many frames from this one on have one cell together.
fn run_of(machine: &Machine, uses: &[Option<FrameUse>], frame: Frame) -> usize {
    let (class, frames) = (frame.class(), machine.counts().len());
    if frames <= MOST_UNFOLDED || !matches!(class, Class::Free | Class::Page(_)) {
        return 1;
    }
    let mut run = 1usize;
    for number in frame.number.saturating_add(1)..frames {
        match Frame::at(machine, uses, number) {
            Some(other) if other.class() == class => run = run.saturating_add(1),
            _ => return run,
        }
    }
    run
}

/// Puts what the process that has a frame has in it.
fn put_use(out: &mut Text, it: FrameUse) {
    let slot = it.slot;
    write!(out, "{slot}: ");
    match it.holds {
        Holds::Root => out.push_str("root"),
        Holds::Table(level) => write!(out, "table {level}"),
        Holds::Page(address) => {
            let address = Hex(address);
            write!(out, "{address}")
        }
    }
}

/// Puts what a frame holds.
fn put_contents(out: &mut Text, frame: Frame) {
    match frame.of_process {
        _ if frame.count == 0 => out.push_str("free"),
        _ if frame.number == 0 => out.push_str("trampoline"),
        None => out.push_str("kernel"),
        Some(it) => put_use(out, it),
    }
}

/// Puts what two or more frames in a row hold, which look alike.
fn put_run(out: &mut Text, class: Class, run: usize) {
    match class {
        Class::Page(slot) => write!(out, "{slot}: {run} pages"),
        _ => write!(out, "{run} free frames"),
    }
}

/// Puts the cell of a frame, or that of frames in a row that look alike, and returns where the next goes.
fn put_frame(out: &mut Text, grid: Grid, frame: Frame, run: usize) -> Grid {
    let (class, page, count) = (frame.class(), frame.page, frame.count);
    begin_key(out, class.name());
    write!(out, "f{page}");
    begin_cell(out, grid);
    write!(out, "{page}");
    if run > 1 {
        out.push_str(" ..");
        next_in_cell(out, grid);
        put_run(out, class, run);
    } else {
        if count > 1 {
            write!(out, " ×{count}");
        }
        next_in_cell(out, grid);
        put_contents(out, frame);
    }
    end_cell(out, grid)
}

/// Puts how many frames there are that have no cell, if any, and returns the height below all cells.
fn put_more(out: &mut Text, grid: Grid, more: usize) -> u64 {
    if more == 0 {
        return grid.end();
    }
    begin_key(out, "folded");
    begin_cell(out, grid);
    write!(out, "{more} more");
    next_in_cell(out, grid);
    out.push_str("frames");
    end_cell(out, grid).end()
}

/// Puts cells of frames, at most `MOST_CELLS`, and how many frames more there are. Returns the height below them.
fn put_cells(out: &mut Text, machine: &Machine, uses: &[Option<FrameUse>], y: u64) -> u64 {
    let mut grid = Grid::at(8, y);
    let mut number = 0usize;
    for _ in 0..MOST_CELLS {
        let Some(frame) = Frame::at(machine, uses, number) else {
            return grid.end();
        };
        let run = run_of(machine, uses, frame);
        grid = put_frame(out, grid, frame, run);
        number = number.saturating_add(run);
    }
    put_more(out, grid, machine.counts().len().saturating_sub(number))
}

/// Puts the accounts of the frames, and returns the height below them.
fn put_accounts(out: &mut Text, report: Report, y: u64) -> u64 {
    let (free, held, shared, references) = (
        report.free,
        report.held,
        report.shared,
        report.references,
    );
    begin_key(out, "head");
    out.push_str("frames");
    begin_row(out, y);
    write!(
        out,
        "Frames: {free} free, {held} held, {shared} of them shared; {references} references"
    );
    end_row(out, y)
}

/// Puts the accounts and all frames, and returns the height below them.
pub fn put_frames(out: &mut Text, machine: &Machine, y: u64) -> u64
    requires world { (w : World) × IsInWorld machine.now w }
{
    let y = put_accounts(out, machine.report(), y);
    match frame_uses(out.allocator(), machine) {
        Ok(uses) => put_cells(out, machine, uses.as_slice(), y).saturating_add(SPACE),
        Err(_) => {
            out.note(Err(AllocError));
            y
        }
    }
}
