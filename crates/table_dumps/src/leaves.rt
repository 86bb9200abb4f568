// `leaf_findings`: what is suspicious about each leaf of an address space by itself.

use crate::dump::Dump;
use crate::findings::{Finding, Findings, Reason, Subject};
use crate::frames::frame_of;
use crate::listing::ValidEntry;
use crate::space::Space;
use sv39_entry::{Entry, EntryFlags};

/// Which leaves are looked for.
#[derive(Clone, Copy)]
pub struct Leaves {
    /// Those with A clear, or with W and D clear, too.
    pub needing_update: bool,
}

/// Whether user mode may write and execute what a leaf maps.
fn is_writable_executable(entry: Entry) -> bool {
    entry.has(EntryFlags::USER) && entry.has(EntryFlags::WRITE) && entry.has(EntryFlags::EXECUTE)
}

/// Whether A is clear, or D is with W.
fn needs_update(entry: Entry) -> bool {
    !entry.has(EntryFlags::ACCESSED)
        || (entry.has(EntryFlags::WRITE) && !entry.has(EntryFlags::DIRTY))
}

/// Returns the number of the page of TRAPFRAME, the second below MAXVA, where the root's PTEs have level `top` (the xv6 book, "Process address
/// space"): half of the pages are below MAXVA.
fn trapframe_page(top: u32) -> u64 {
    match top {
        2 => (1 << 26) - 2,
        3 => (1 << 35) - 2,
        _ => (1 << 44) - 2,
    }
}

/// Whether user mode may use what a mapping maps, some of it TRAPFRAME or above.
fn is_above_trapframe(mapping: ValidEntry, top: u32) -> bool {
    Entry::from_word(mapping.word).has(EntryFlags::USER)
        && mapping.page.saturating_add(mapping.pages()) > trapframe_page(top)
}

/// Whether a leaf's frame is no multiple of what it maps.
fn is_misaligned(mapping: ValidEntry) -> bool {
    Entry::from_word(mapping.word).ppn() & (mapping.pages().saturating_sub(1)) != 0
}

/// Whether a reason holds of a mapping.
fn holds(reason: Reason, dump: &Dump<'_>, mapping: ValidEntry, top: u32) -> bool {
    let entry = Entry::from_word(mapping.word);
    match reason {
        Reason::WritableExecutable => is_writable_executable(entry),
        Reason::AboveTrapframe => is_above_trapframe(mapping, top),
        Reason::Misaligned => is_misaligned(mapping),
        Reason::NeedsUpdate => needs_update(entry),
        Reason::LeafOutside => !dump.has_pages(frame_of(mapping, top), mapping.pages()),
        _ => false,
    }
}

/// Appends the findings of one reason.
fn of_reason(
    dump: &Dump<'_>,
    subject: Subject,
    space: &Space,
    reason: Reason,
    found: &mut Findings,
) {
    for mapping in &space.mappings {
        if holds(reason, dump, *mapping, space.top) {
            found.add(Finding::of(reason, subject.at(*mapping)));
        }
    }
}

/// The reasons for which leaves are looked for; the last only if asked for.
static REASONS: [Reason; 5] = [
    Reason::WritableExecutable,
    Reason::AboveTrapframe,
    Reason::Misaligned,
    Reason::LeafOutside,
    Reason::NeedsUpdate,
];

/// Appends what is suspicious about each leaf by itself: user pages that can be written and executed, user pages at or above TRAPFRAME, misaligned
/// superpages, leaves that lead outside the memory; and, if asked for, those with A or D clear.
pub fn leaf_findings(
    dump: &Dump<'_>,
    number: usize,
    space: &Space,
    leaves: Leaves,
    found: &mut Findings,
) {
    let subject = Subject::root(number, space);
    for reason in REASONS.as_slice() {
        if leaves.needing_update || !matches!(reason, Reason::NeedsUpdate) {
            of_reason(dump, subject, space, *reason, found);
        }
    }
}
