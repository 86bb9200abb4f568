//! Page tables in memory under Sv39 (three levels) and Sv48 (four levels): the walk to a leaf, translation of accesses, and
//! for tables in frames of a seat map, protect, unmap, enumeration of leaves, growth and release (RISC-V Privileged
//! Architecture 20211203, 4.3.2, 4.4 and 4.5, "the standard").
#![tactic(auto)]

mod change;
mod counting;
mod find;
mod growth;
mod held;
mod last_table;
mod laws;
mod leaf;
mod leaves;
mod plain;
mod release;
mod stored;
mod tables;
mod translation;
mod walk;
mod words;

pub use change::{leaf_of, leaf_with_last, map, map_with_last, protect, unmap, unmap_with_last};
pub use counting::missing_is_growth;
pub use find::lookup;
pub use growth::new_table;
pub use held::HeldWords;
pub use last_table::LastTable;
pub use laws::{one_found, one_outcome, walks_of_tables};
pub use leaf::physical_address;
pub use leaves::next_leaf_before;
pub use plain::PlainWords;
pub use release::release_tables;
pub use stored::StoredWords;
pub use tables::{missing_tables, table_at};
pub use translation::{has_byte, translate, translate_held};
pub use walk::{Found, Walk};
pub use words::Words;
