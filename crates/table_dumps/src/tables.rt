// What is suspicious about page tables: `outside_findings`, tables outside the memory; `table_findings`, pages that are tables of two places, or that
// user mode may write.

use crate::dump::Dump;
use crate::findings::{Finding, Findings, Reason, Subject};
use crate::listing::ValidEntry;
use crate::sharing::{Holding, held_frames};
use crate::space::Space;
use std::alloc::{AllocError, Global};
use sv39_entry::{Entry, EntryFlags, Kind};
use walk_rules::Extensions;

/// A table, with the pointer that leads to it, or as a root.
#[derive(Clone, Copy)]
pub(crate) struct Table {
    /// Its physical page number.
    pub number: u64,
    /// The level of its PTEs.
    pub level: u32,
    /// The number of its first page.
    pub page: u64,
    pub subject: Subject,
}

impl Table {
    /// Returns the root of a space.
    pub fn root(number: usize, space: &Space) -> Table {
        Table {
            number: space.satp.ppn(),
            level: space.top,
            page: 0,
            subject: Subject::root(number, space),
        }
    }

    /// Returns the table to which a PTE of the space of this table leads, if it is a pointer.
    pub fn below(&self, extensions: Extensions, entry: ValidEntry) -> Option<Table> {
        let pte = Entry::from_word(entry.word);
        if extensions.kind(pte, entry.level) != Kind::Pointer {
            return None;
        }
        Some(Table {
            number: pte.ppn(),
            level: entry.level.saturating_sub(1),
            page: entry.page,
            subject: self.subject.at(entry),
        })
    }
}

/// Appends the tables of a space: the root, then those of its pointers.
fn hold_tables(
    tables: &mut Vec<Table>,
    extensions: Extensions,
    number: usize,
    space: &Space,
) -> Result<(), AllocError> {
    let root = Table::root(number, space);
    tables.push(root)?;
    for entry in &space.entries {
        if let Some(table) = root.below(extensions, *entry) {
            tables.push(table)?;
        }
    }
    Ok(())
}

/// Returns the tables of all spaces, in ascending order of their physical page numbers; those of one number in the order of the spaces.
fn all_tables(
    alloc: Global,
    extensions: Extensions,
    spaces: &[Space],
) -> Result<Vec<Table>, AllocError> {
    let mut tables = Vec::new(alloc);
    'spaces: for number in 0..spaces.len() {
        hold_tables(&mut tables, extensions, number, &spaces[number])?;
    }
    tables.sort_by_key(|table| table.number)?;
    Ok(tables)
}

/// Appends a finding for a table that is outside the memory.
fn add_outside(dump: &Dump<'_>, table: &Table, found: &mut Findings) {
    if !dump.has_pages(table.number, 1) {
        found.add(Finding::of(Reason::TableOutside, table.subject));
    }
}

/// Appends a finding for the root and each pointer of a space whose table is outside the memory.
pub fn outside_findings(
    dump: &Dump<'_>,
    extensions: Extensions,
    number: usize,
    space: &Space,
    found: &mut Findings,
) {
    let root = Table::root(number, space);
    add_outside(dump, &root, found);
    for entry in &space.entries {
        if let Some(table) = root.below(extensions, *entry) {
            add_outside(dump, &table, found);
        }
    }
}

/// Whether a table has a leaf for user mode itself.
fn has_user_leaf(dump: &Dump<'_>, extensions: Extensions, table: &Table) -> bool {
    for index in 0..512 {
        if let Some(word) = dump.word(table.number, index) {
            let entry = Entry::from_word(word);
            let is_leaf = extensions.kind(entry, table.level) == Kind::Leaf;
            if is_leaf && entry.has(EntryFlags::USER) {
                return true;
            }
        }
    }
    false
}

/// Whether it is suspicious that a page is a table of two places. Not if two spaces have it at the same place and it has no leaf for user
/// mode: so kernels share their part.
fn is_overlap(dump: &Dump<'_>, extensions: Extensions, one: &Table, other: &Table) -> bool {
    let is_same_place = one.level == other.level && one.page == other.page;
    one.subject.space == other.subject.space
        || !is_same_place
        || has_user_leaf(dump, extensions, one)
}

/// Appends a finding for each table whose page is that of an earlier one, too.
fn overlap_findings(
    dump: &Dump<'_>,
    extensions: Extensions,
    tables: &[Table],
    found: &mut Findings,
) {
    let mut first: Option<Table> = None;
    for table in tables {
        match first {
            Some(one) if one.number == table.number => {
                if is_overlap(dump, extensions, table, &one) {
                    found.add(Finding::with(Reason::TwoPlaces, table.subject, one.subject));
                }
            }
            _ => first = Some(*table),
        }
    }
}

/// Returns the wider of the holding so far and of those from a place on that begin at a page or before it, and the place after these.
fn widest_up_to(
    held: &[Holding],
    from: usize,
    page: u64,
    so_far: Option<Holding>,
) -> (usize, Option<Holding>) {
    let mut widest = so_far;
    for place in from..held.len() {
        let next = held[place];
        if next.start > page {
            return (place, widest);
        }
        match widest {
            Some(holding) if holding.end >= next.end => {}
            _ => widest = Some(next),
        }
    }
    (held.len(), widest)
}

/// Appends a finding for each table that a mapping of user mode may write: of the mapping whose frames end last among those that begin at
/// the table or before it.
fn writable_findings(tables: &[Table], held: &[Holding], found: &mut Findings) {
    let (mut place, mut widest) = (0, None);
    for table in tables {
        (place, widest) = widest_up_to(held, place, table.number, widest);
        match widest {
            Some(holding) if holding.end > table.number => {
                found.add(Finding::with(Reason::TableWritable, holding.subject, table.subject));
            }
            _ => {}
        }
    }
}

/// Appends findings for pages that are tables of two places, and for those that user mode may write.
pub fn table_findings(
    alloc: Global,
    dump: &Dump<'_>,
    extensions: Extensions,
    spaces: &[Space],
    found: &mut Findings,
) {
    let (Ok(tables), Ok(held)) = (
        all_tables(alloc, extensions, spaces),
        held_frames(alloc, spaces, true),
    ) else {
        return found.lose();
    };
    overlap_findings(dump, extensions, tables.as_slice(), found);
    writable_findings(tables.as_slice(), held.as_slice(), found);
}
