// `LeafChange`: a leaf that a line changed; `entries_of`, the entries of the page tables of a process; `leaves_of`, the leaves among
// them; and `changed_leaves`, those that differ.

ghost use Rattle.std.specs.Prelude.{◌≡◌, IfOk};
ghost use Rattle.hart_machine.specs.BufferEntries.{IsInWorld};
ghost use Rattle.process_model.specs.World.{World};
ghost use Rattle.line_traces.specs.Leaves.{come, gone, is_same, leaf_at, leaf_changes};

use hart_machine::Machine;
use json_objects::ObjectWriter;
use serde::{Described, Serialize, Serializer};
use std::alloc::{AllocError, Global};
use std::fmt;
use sv39_entry::{Entry, Kind, Scheme};
use walk_lines::{Hex, LeafLine, TableEntry, table_entries};

/// A leaf that a line changed: what it was and what it is; none if there was none, or is none.
#[derive(Clone, Copy)]
pub struct LeafChange {
    /// The first address that it maps.
    pub address: Hex,
    pub before: Option<LeafLine>,
    pub after: Option<LeafLine>,
}

impl Described for LeafChange {}

impl Serialize for LeafChange {
    fn serialize<S: Serializer>(&self, out: &mut S) -> Result<(), S::Error> {
        let mut object = ObjectWriter::begin(out);
        object.member("address", &self.address);
        object.member("before", &self.before);
        object.member("after", &self.after);
        object.finish()
    }
}

/// Returns the valid entries of the page tables of the process in a slot, in the order of their addresses; none if the slot has no
/// process.
///
/// # Errors
/// `AllocError`: the host is out of memory.
pub fn entries_of(
    alloc: Global,
    machine: &Machine,
    slot: usize,
) -> Result<Vec<TableEntry>, AllocError>
    requires world { (w : World) × IsInWorld machine.now w }
{
    match machine.root(slot) {
        Some(root) => {
            let mut words = machine.words();
            table_entries(alloc, &mut words, machine.scheme(), root.ppn())
        }
        None => Ok(Vec::new(alloc)),
    }
}

/// Returns the leaves of the page tables of the process in a slot, in the order of their addresses; none if the slot has no process.
///
/// # Errors
/// `AllocError`: the host is out of memory.
pub fn leaves_of(
    alloc: Global,
    machine: &Machine,
    slot: usize,
) -> Result<Vec<TableEntry>, AllocError>
    requires world { (w : World) × IsInWorld machine.now w }
{
    let mut leaves = Vec::new(alloc);
    let entries = entries_of(alloc, machine, slot)?;
    for entry in entries.as_slice() {
        if Entry::from_word(entry.word).kind() == Kind::Leaf {
            leaves.push(*entry)?;
        }
    }
    Ok(leaves)
}

/// Returns the leaf of a page in a list of leaves; `None` if it has none.
fn leaf_at(leaves: &[TableEntry], page: u64) -> Option<TableEntry>
    ensures { result ≡ leaf_at leaves.now page }
{
    leaves.iter().copied().find(|leaf| leaf.page == page)
}

/// Whether there is a leaf, of the same level and with the same word as another.
fn is_same(other: Option<TableEntry>, leaf: TableEntry) -> bool
    ensures { result ≡ is_same other leaf }
{
    match other {
        Some(other) => other.level == leaf.level && other.word == leaf.word,
        None => false,
    }
}

/// Returns the change of the page of a leaf from before a line; `None` if the page has a leaf after it.
#[tactic(auto, unfolding(crate::specs::Leaves::gone))]
fn gone(scheme: Scheme, after: &[TableEntry], leaf: TableEntry) -> Option<LeafChange>
    ensures { result ≡ gone scheme after.now leaf }
{
    match leaf_at(after, leaf.page) {
        Some(_) => None,
        None => Some(LeafChange {
            address: Hex(leaf.first_address(scheme).0),
            before: Some(LeafLine::of(leaf.level, leaf.word)),
            after: None,
        }),
    }
}

/// Returns the change of the page of a leaf from after a line; `None` if the page had the same leaf before it.
#[tactic(auto, unfolding(crate::specs::Leaves::come))]
fn come(scheme: Scheme, before: &[TableEntry], leaf: TableEntry) -> Option<LeafChange>
    ensures { result ≡ come scheme before.now leaf }
{
    let old = leaf_at(before, leaf.page);
    if is_same(old, leaf) {
        return None;
    }
    let before = match old {
        Some(old) => Some(LeafLine::of(old.level, old.word)),
        None => None,
    };
    Some(LeafChange {
        address: Hex(leaf.first_address(scheme).0),
        before,
        after: Some(LeafLine::of(leaf.level, leaf.word)),
    })
}

/// Returns the leaves that differ between two lists of leaves, those before a line and those after it: first the leaves that are
/// gone, then those that came or are others.
///
/// # Errors
/// `AllocError`: the host is out of memory.
pub fn changed_leaves(
    alloc: Global,
    scheme: Scheme,
    before: &[TableEntry],
    after: &[TableEntry],
) -> Result<Vec<LeafChange>, AllocError>
    ensures { IfOk result (λ changes. changes.items ≡ leaf_changes scheme before.now after.now) }
{
    let mut changes = Vec::new(alloc);
    'lost: for leaf in before {
        if let Some(change) = gone(scheme, after, *leaf) {
            changes.push(change)?;
        }
    }
    'found: for leaf in after {
        if let Some(change) = come(scheme, before, *leaf) {
            changes.push(change)?;
        }
    }
    Ok(changes)
}

/// A leaf as text, or that there is none.
#[derive(Clone, Copy)]
struct LeafText(Option<LeafLine>);

impl fmt::Display for LeafText {
    fn fmt<W: fmt::Write>(&self, f: &mut fmt::Formatter<W>) -> fmt::Result {
        match self.0 {
            Some(leaf) => {
                let (flags, ppn) = (leaf.flags, leaf.ppn);
                write!(f, "{flags} {ppn}")
            }
            None => write!(f, "none"),
        }
    }
}

/// For example `leaf of 0x1000: VRW-U-AD- 0x80014 becomes VR--U-ADC 0x80014`.
impl fmt::Display for LeafChange {
    fn fmt<W: fmt::Write>(&self, f: &mut fmt::Formatter<W>) -> fmt::Result {
        let (address, before, after) = (self.address, LeafText(self.before), LeafText(self.after));
        write!(f, "leaf of {address}: {before} becomes {after}")
    }
}
