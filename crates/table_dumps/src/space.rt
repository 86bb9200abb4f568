// `Space`: an address space in a dump, by a value of satp: its valid page table entries (PTEs), and its mappings among them.

ghost use Rattle.std.specs.Prelude.{◌≡◌, ◌↔◌, ◌<◌, ◌++◌, ◌∷◌, [], ℕ, List, length, Err, None, Some, IfOk, OnOk, filter};
ghost use Rattle.sv39_entry.specs.Satp.{root_ppn};
ghost use Rattle.table_dumps.specs.Dumps.{dump_memory};
ghost use Rattle.table_dumps.specs.Leaves.{is_leaf};
ghost use Rattle.table_dumps.specs.Listings.{AreMappings, IsListing};
ghost use Rattle.table_dumps.specs.declared.listing.ValidEntry.{ValidEntry};
ghost use Rattle.table_dumps.specs.declared.listing.TheConstants.{MOST_PTES};
ghost use Rattle.table_dumps.specs.declared.listing.SpaceError.TheVariants.{NoTables, TooMany};
ghost use Rattle.walk_rules.specs.Addresses.{top_of};

use crate::dump::Dump;
use crate::listing::{SpaceError, ValidEntry, list_table};
use std::alloc::{AllocError, Global};
use sv39_entry::{Entry, Kind, Satp};
use walk_rules::{Extensions, top_level};

/// An address space.
#[derive(Drop)]
pub struct Space {
    /// Its satp.
    pub satp: Satp,
    /// The level of the root's PTEs: 2 for Sv39, 3 for Sv48, 4 for Sv57.
    pub top: u32,
    /// Every valid PTE, leaf or pointer, that the walk of any page reads, in ascending order of first page, a pointer before the PTEs of its table.
    pub entries: Vec<ValidEntry>,
    /// Every leaf to which the walk of any page comes, in ascending order of first page.
    pub mappings: Vec<ValidEntry>,
}

impl Space {
    /// Returns the address space of a value of satp: all that walks by the tables in the dump read and come to (the standard, 4.3.2), for
    /// a hart with these extensions. Words outside the dump, and what a walk takes for invalid, are left out.
    ///
    /// # Errors
    /// `NoTables`: exactly if MODE is Bare or reserved. `TooMany`: there are more than `MOST_PTES` valid PTEs. `Memory`: the host is out of memory.
    pub fn read(
        alloc: Global,
        dump: &Dump<'_>,
        extensions: Extensions,
        satp: Satp,
    ) -> Result<Space, SpaceError>
        ensures satp { IfOk result (λ space. space.satp ≡ satp) }
        ensures top { IfOk result (λ space. top_of satp ≡ Some space.top) }
        ensures entries { IfOk result (λ space. IsListing extensions (dump_memory dump.now) (root_ppn satp) space.top space.entries.items) }
        ensures mappings { IfOk result (λ space. AreMappings extensions (dump_memory dump.now) (root_ppn satp) space.top space.mappings.items) }
        ensures too_many { result ≡ Err TooMany → (top : ℕ) × (es : List ValidEntry) × (top_of satp ≡ Some top)
            × IsListing extensions (dump_memory dump.now) (root_ppn satp) top es × (MOST_PTES < length es) }
        ensures no_tables { (result ≡ Err NoTables) ↔ (top_of satp ≡ None) }
    {
        let Some(top) = top_level(satp) else {
            return Err(SpaceError::NoTables);
        };
        let mut entries = Vec::new(alloc);
        list_table(dump, extensions, &mut entries, satp.ppn(), top, 0)?;
        let mappings = leaves(alloc, extensions, entries.as_slice())?;
        Ok(Space {
            satp,
            top,
            entries,
            mappings,
        })
    }
}

/// Appends a PTE, if it is a leaf.
fn push_leaf(
    extensions: Extensions,
    entry: ValidEntry,
    leaves: &mut Vec<ValidEntry>,
) -> Result<(), AllocError>
    ensures { OnOk result (leaves.new.items ≡ leaves.old.items ++ filter (is_leaf extensions) (entry ∷ [])) }
{
    match extensions.kind(Entry::from_word(entry.word), entry.level) {
        Kind::Leaf => Ok(leaves.push(entry)?),
        Kind::Invalid | Kind::Pointer => Ok(()),
    }
}

/// Returns the leaves among valid PTEs, in their order.
fn leaves(
    alloc: Global,
    extensions: Extensions,
    entries: &[ValidEntry],
) -> Result<Vec<ValidEntry>, AllocError>
    ensures { IfOk result (λ leaves. leaves.items ≡ filter (is_leaf extensions) entries.now) }
{
    let mut leaves = Vec::new(alloc);
    'entries: for place in 0..entries.len() {
        push_leaf(extensions, entries[place], &mut leaves)?;
    }
    Ok(leaves)
}
