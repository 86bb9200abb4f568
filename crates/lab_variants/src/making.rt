// `handout` and `plain`: the handouts of a lab.

use crate::heads::put_head;
use crate::names::Lab;
use crate::numbers::Numbers;
use crate::{copy_on_write, lazy_growth, mmap, page_tables, stale_entries, traps};
use std::alloc::{AllocError, Global};
use text_builder::Text;

/// Appends the lines of a lab, with numbers that are drawn.
fn put_drawn(text: &mut Text, lab: Lab, numbers: &mut Numbers) {
    match lab {
        Lab::PageTables => page_tables::Script::drawn(numbers).put(text),
        Lab::Traps => traps::Script::drawn(numbers).put(text),
        Lab::LazyGrowth => lazy_growth::Script::drawn(numbers).put(text),
        Lab::CopyOnWrite => copy_on_write::Script::drawn(numbers).put(text),
        Lab::Mmap => mmap::Script::drawn(numbers).put(text),
        Lab::StaleEntries => stale_entries::Script::drawn(numbers).put(text),
    }
}

/// Appends the lines of a lab, with the numbers of its page.
fn put_of_page(text: &mut Text, lab: Lab) {
    match lab {
        Lab::PageTables => page_tables::OF_PAGE.put(text),
        Lab::Traps => traps::OF_PAGE.put(text),
        Lab::LazyGrowth => lazy_growth::OF_PAGE.put(text),
        Lab::CopyOnWrite => copy_on_write::OF_PAGE.put(text),
        Lab::Mmap => mmap::OF_PAGE.put(text),
        Lab::StaleEntries => stale_entries::OF_PAGE.put(text),
    }
}

/// Returns the handout of a lab for a seed, which may be any text: equal seeds give equal handouts.
pub fn handout(alloc: Global, lab: Lab, seed: &str) -> Result<String, AllocError> {
    let mut text = Text::new(alloc);
    put_head(&mut text, lab, Some(seed));
    put_drawn(&mut text, lab, &mut Numbers::of_seed(lab, seed));
    text.finish()
}

/// Returns the handout of a lab with the numbers of its page: `labs/NAME.script`.
pub fn plain(alloc: Global, lab: Lab) -> Result<String, AllocError> {
    let mut text = Text::new(alloc);
    put_head(&mut text, lab, None);
    put_of_page(&mut text, lab);
    text.finish()
}
