// `PageName`: a page of a process, by slot and address; the pages to which the leaves of all processes give frames (`names_in`), and
// those that are in one frame (`names_of`).

ghost use Rattle.std.specs.Prelude.{◌≡◌, ◌++◌, IfOk, OnOk};
ghost use Rattle.std.specs.List.{filter_map};
ghost use Rattle.hart_machine.specs.BufferEntries.{IsInWorld};
ghost use Rattle.process_model.specs.World.{World};
ghost use Rattle.pictures.specs.Names.{leaf_name, name_in};

use hart_machine::Machine;
use line_traces::entries_of;
use serde::Serialize;
use std::alloc::{AllocError, Global};
use sv39_entry::{Entry, Kind, Scheme};
use walk_lines::{Hex, TableEntry};

/// A page of a process.
#[derive(Clone, Copy, Serialize)]
pub struct PageName {
    pub slot: usize,
    /// Its first address.
    pub page: Hex,
}

/// A page of a process, and the frame that its leaf gives it.
#[derive(Clone, Copy)]
pub struct LeafName {
    /// The physical page number of the frame.
    pub ppn: u64,
    pub name: PageName,
}

/// Returns the page that an entry maps for the process in a slot, and its frame; `None` if the entry is no leaf.
#[tactic(auto, unfolding(crate::specs::Names::leaf_name))]
fn leaf_name(slot: usize, scheme: Scheme, entry: TableEntry) -> Option<LeafName>
    ensures { result ≡ leaf_name slot scheme entry }
{
    let word = Entry::from_word(entry.word);
    match word.kind() {
        Kind::Leaf => Some(LeafName {
            ppn: word.ppn(),
            name: PageName {
                slot,
                page: Hex(entry.first_address(scheme).0),
            },
        }),
        Kind::Pointer => None,
        Kind::Invalid => None,
    }
}

/// Appends the pages that the leaves among some entries map for the process in a slot: each once, in the order of the entries.
fn put_names(
    names: &mut Vec<LeafName>,
    slot: usize,
    scheme: Scheme,
    entries: &[TableEntry],
) -> Result<(), AllocError>
    ensures { OnOk result (names.new.items ≡ names.old.items ++ filter_map (leaf_name slot scheme) entries.now) }
{
    'entries: for entry in entries {
        if let Some(name) = leaf_name(slot, scheme, *entry) {
            names.push(name)?;
        }
    }
    Ok(())
}

/// Returns the pages that the leaves of all processes map, by slots and then by addresses.
///
/// # Errors
/// `AllocError`: the host is out of memory.
pub fn names_in(alloc: Global, machine: &Machine) -> Result<Vec<LeafName>, AllocError>
    requires world { (w : World) × IsInWorld machine.now w }
{
    let mut names = Vec::new(alloc);
    for slot in 0..machine.slot_count() {
        let entries = entries_of(alloc, machine, slot)?;
        put_names(&mut names, slot, machine.scheme(), entries.as_slice())?;
    }
    Ok(names)
}

/// Returns the page of a leaf, if the leaf gives it this frame.
#[tactic(auto, unfolding(crate::specs::Names::name_in))]
fn name_in(ppn: u64, leaf: LeafName) -> Option<PageName>
    ensures { result ≡ name_in ppn leaf }
{
    if leaf.ppn == ppn {
        Some(leaf.name)
    } else {
        None
    }
}

/// Returns the pages that are in a frame, by the leaves of all processes: each once, in the order of the leaves.
///
/// # Errors
/// `AllocError`: the host is out of memory.
pub fn names_of(alloc: Global, leaves: &[LeafName], ppn: u64) -> Result<Vec<PageName>, AllocError>
    ensures { IfOk result (λ names. names.items ≡ filter_map (name_in ppn) leaves.now) }
{
    let mut names = Vec::new(alloc);
    'leaves: for leaf in leaves {
        if let Some(name) = name_in(ppn, *leaf) {
            names.push(name)?;
        }
    }
    Ok(names)
}
