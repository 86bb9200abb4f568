// Processes in a picture: regions with their settled pages, the kernel's pages in the address space, and page tables.

ghost use Rattle.hart_machine.specs.BufferEntries.{IsInWorld};
ghost use Rattle.process_model.specs.World.{World};

use crate::cells::{
    Grid, SPACE, begin_cell, begin_key, begin_label, begin_row, end_cell, end_label, end_row,
    next_in_cell, next_in_label,
};
use address_space::{Region, RegionKind};
use hart_machine::Machine;
use line_traces::{RegionLine, entries_of, reference_count};
use std::alloc::AllocError;
use sv39_entry::{Entry, EntryFlags, Kind};
use text_builder::Text;
use walk_lines::{Hex, TableEntry};

/// The most pages of a region that are put.
const MOST_PAGES: usize = 20;

/// Where the cells of a region begin.
const CELLS: u64 = 226;

/// Puts what marks a page: C for copy-on-write, D for a stored page of a shared mapping, and how many references its frame has.
fn put_marks(out: &mut Text, entry: Entry, kind: Option<RegionKind>, references: u16) {
    if entry.has(EntryFlags::COW) {
        out.push_str(" C");
    }
    if kind == Some(RegionKind::SharedMapping) && entry.has(EntryFlags::DIRTY) {
        out.push_str(" D");
    }
    if references > 1 {
        write!(out, " ×{references}");
    }
}

/// Puts the cell of a page of a region, or of none, and returns where the next goes.
fn put_page(
    out: &mut Text,
    machine: &Machine,
    grid: Grid,
    slot: usize,
    leaf: TableEntry,
    kind: Option<RegionKind>,
) -> Grid {
    let entry = Entry::from_word(leaf.word);
    let (address, ppn) = (
        Hex(leaf.first_address(machine.scheme()).0),
        Hex(entry.ppn()),
    );
    let references = reference_count(machine.counts(), Some(leaf.word)).unwrap_or(0);
    let class = match kind {
        Some(RegionKind::Guard) => "guard",
        _ if references > 1 => "shared",
        _ => "page",
    };
    begin_key(out, class);
    write!(out, "p{slot}-{address}");
    begin_cell(out, grid);
    write!(out, "{address}");
    next_in_cell(out, grid);
    write!(out, "{ppn}");
    put_marks(out, entry, kind, references);
    end_cell(out, grid)
}

/// Puts how many settled pages of a region have no cell, if any, and returns where the next cell goes.
fn put_more(out: &mut Text, grid: Grid, more: usize) -> Grid {
    if more == 0 {
        return grid;
    }
    begin_key(out, "folded");
    begin_cell(out, grid);
    write!(out, "{more} more pages");
    next_in_cell(out, grid);
    end_cell(out, grid)
}

/// Whether an entry is a leaf.
fn is_leaf(entry: TableEntry) -> bool {
    Entry::from_word(entry.word).kind() == Kind::Leaf
}

/// Puts the cells of the pages of a region that are settled, at most `MOST_PAGES`, and how many more there are.
fn put_pages(
    out: &mut Text,
    machine: &Machine,
    slot: usize,
    region: Region,
    entries: &[TableEntry],
    grid: Grid,
) -> Grid {
    let mut grid = grid;
    let mut settled = 0usize;
    for entry in entries {
        if is_leaf(*entry) && region.holds_page(entry.page) {
            settled = settled.saturating_add(1);
            if settled <= MOST_PAGES {
                grid = put_page(out, machine, grid, slot, *entry, Some(region.kind));
            }
        }
    }
    put_more(out, grid, settled.saturating_sub(MOST_PAGES))
}

/// Puts a region with its settled pages, and returns the height below it.
fn put_region(
    out: &mut Text,
    machine: &Machine,
    slot: usize,
    region: Region,
    entries: &[TableEntry],
    y: u64,
) -> u64 {
    let line = RegionLine::of(region);
    let (kind, rights, start, end) = (line.kind, line.rights, line.start, line.end);
    begin_label(out, y);
    write!(out, "{kind} {rights}");
    next_in_label(out, y);
    write!(out, "{start}..{end}");
    end_label(out);
    let grid = Grid::at(CELLS, y);
    let cells = put_pages(out, machine, slot, region, entries, grid);
    cells.end().max(grid.below())
}

/// Puts two lines of text beside a row of cells.
fn put_label(out: &mut Text, y: u64, first: &str, second: &str) {
    begin_label(out, y);
    out.push_str(first);
    next_in_label(out, y);
    out.push_str(second);
    end_label(out);
}

/// Puts the pages of an address space that no region has: the trapframe and the trampoline. Returns the height below them.
fn put_kernel_pages(
    out: &mut Text,
    machine: &Machine,
    slot: usize,
    entries: &[TableEntry],
    y: u64,
) -> u64 {
    put_label(out, y, "trapframe, trampoline", "for the supervisor");
    let scheme = machine.scheme();
    let mut grid = Grid::at(CELLS, y);
    for entry in entries {
        let address = entry.first_address(scheme);
        let is_kernels = address == scheme.trapframe() || address == scheme.trampoline();
        if is_kernels && is_leaf(*entry) {
            grid = put_page(out, machine, grid, slot, *entry, None);
        }
    }
    grid.end()
}

/// Puts the cell of a page table of a process, up to what is said of the table.
fn put_table(out: &mut Text, grid: Grid, slot: usize, table: u64) {
    let table = Hex(table);
    begin_key(out, "table");
    write!(out, "t{slot}-{table}");
    begin_cell(out, grid);
    write!(out, "{table}");
    next_in_cell(out, grid);
}

/// Puts the page tables of a process, the root first. Returns the height below them.
fn put_tables(
    out: &mut Text,
    machine: &Machine,
    slot: usize,
    root: u64,
    entries: &[TableEntry],
    y: u64,
) -> u64 {
    put_label(out, y, "page tables", "by level, and the index above");
    let level = machine.scheme().top_level();
    let grid = Grid::at(CELLS, y);
    put_table(out, grid, slot, root);
    write!(out, "{level} root");
    let mut grid = end_cell(out, grid);
    for entry in entries {
        let word = Entry::from_word(entry.word);
        if word.kind() == Kind::Pointer {
            let (level, index) = (entry.level.saturating_sub(1), entry.index);
            put_table(out, grid, slot, word.ppn());
            write!(out, "{level} [{index}]");
            grid = end_cell(out, grid);
        }
    }
    grid.end()
}

/// Puts a process with these entries in its page tables, and returns the height below it.
fn put_entries(
    out: &mut Text,
    machine: &Machine,
    slot: usize,
    entries: &[TableEntry],
    y: u64,
) -> u64
    requires world { (w : World) × IsInWorld machine.now w }
{
    let (Some(regions), Some(root)) = (machine.regions(slot), machine.root(slot)) else {
        return y;
    };
    begin_key(out, "head");
    write!(out, "s{slot}");
    begin_row(out, y);
    write!(out, "Process in slot {slot}");
    let mut y = end_row(out, y);
    for region in regions.as_slice() {
        y = put_region(out, machine, slot, *region, entries, y);
    }
    y = put_kernel_pages(out, machine, slot, entries, y);
    put_tables(out, machine, slot, root.ppn(), entries, y).saturating_add(SPACE)
}

/// Puts the process in a slot, if there is one, and returns the height below it.
pub fn put_process(out: &mut Text, machine: &Machine, slot: usize, y: u64) -> u64
    requires world { (w : World) × IsInWorld machine.now w }
{
    match entries_of(out.allocator(), machine, slot) {
        Ok(entries) => put_entries(out, machine, slot, entries.as_slice(), y),
        Err(_) => {
            out.note(Err(AllocError));
            y
        }
    }
}
