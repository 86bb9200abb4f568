// Where a mapping leads: its first frame, and the flags in its word.

use crate::listing::ValidEntry;
use sv39_entry::Entry;
use walk_rules::{leads_to, reach};

/// The bits of a word that are not its physical page number.
const NOT_THE_PPN: u64 = !(((1 << 44) - 1) << 10);

/// Returns the physical page number of the first page that a leaf maps: its PPN, or that of the page in a NAPOT leaf's 64 KiB.
pub fn frame_of(mapping: ValidEntry, top: u32) -> u64 {
    let (entry, level) = (Entry::from_word(mapping.word), mapping.level.min(4));
    if reach(entry, level) == 16 {
        leads_to(entry, level, mapping.first_address(top)) >> 12
    } else {
        entry.ppn()
    }
}

/// Returns the bits of a word that are not its physical page number.
pub fn flags_of(word: u64) -> u64 {
    word & NOT_THE_PPN
}
