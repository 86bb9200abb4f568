// `shared_findings`: frames that two address spaces map for user mode, one of which may write them without copy-on-write.

use crate::findings::{Finding, Findings, Reason, Subject};
use crate::frames::frame_of;
use crate::listing::ValidEntry;
use crate::space::Space;
use std::alloc::{AllocError, Global};
use sv39_entry::{Entry, EntryFlags};

/// The frames of a mapping for user mode: those from one physical page number on that are below another.
#[derive(Clone, Copy)]
pub struct Holding {
    pub start: u64,
    pub end: u64,
    pub subject: Subject,
    pub mapping: ValidEntry,
}

impl Holding {
    /// Returns the frames of a mapping.
    fn of(subject: Subject, mapping: ValidEntry) -> Holding {
        let start = frame_of(mapping, subject.top);
        Holding {
            start,
            end: start.saturating_add(mapping.pages()),
            subject: subject.at(mapping),
            mapping,
        }
    }

    /// Whether another holding has a frame of it.
    fn meets(&self, other: &Holding) -> bool {
        other.end > self.start && other.start < self.end
    }

    /// Whether user mode may write by it, and RSW bit 8, by which the kernel marks copy-on-write, is clear.
    fn is_open(&self) -> bool {
        is_writable(self.mapping) && !Entry::from_word(self.mapping.word).has(EntryFlags::COW)
    }
}

/// Whether user mode may write what a leaf maps.
fn is_writable(mapping: ValidEntry) -> bool {
    let entry = Entry::from_word(mapping.word);
    entry.has(EntryFlags::USER) && entry.has(EntryFlags::WRITE)
}

/// Appends the frames of the mappings of a space for user mode; of those that it may write, if so.
fn hold(
    held: &mut Vec<Holding>,
    number: usize,
    space: &Space,
    writable: bool,
) -> Result<(), AllocError> {
    let subject = Subject::root(number, space);
    for mapping in &space.mappings {
        let is_user = Entry::from_word(mapping.word).has(EntryFlags::USER);
        if is_user && (!writable || is_writable(*mapping)) {
            held.push(Holding::of(subject, *mapping))?;
        }
    }
    Ok(())
}

/// Returns the frames of all mappings for user mode, in ascending order of first frame; of those that it may write, if so.
pub fn held_frames(
    alloc: Global,
    spaces: &[Space],
    writable: bool,
) -> Result<Vec<Holding>, AllocError> {
    let mut held = Vec::new(alloc);
    'spaces: for number in 0..spaces.len() {
        hold(&mut held, number, &spaces[number], writable)?;
    }
    held.sort_by_key(|holding| holding.start)?;
    Ok(held)
}

/// Of the holdings that were passed, the best one, and the best of those of other spaces than that one.
#[derive(Clone, Copy)]
struct Passed {
    best: Option<Holding>,
    second: Option<Holding>,
}

impl Passed {
    const NONE: Passed = Passed {
        best: None,
        second: None,
    };

    /// Returns the best one of another space.
    fn of_another(&self, space: usize) -> Option<Holding> {
        match self.best {
            Some(best) if best.subject.space != space => Some(best),
            _ => self.second,
        }
    }

    /// Takes note of a holding that is better than all before it.
    fn take_better(&mut self, next: Holding) {
        match self.best {
            Some(best) if best.subject.space != next.subject.space => self.second = self.best,
            _ => {}
        }
        self.best = Some(next);
    }

    /// Takes note of a holding; the one that ends last is best.
    fn take_by_end(&mut self, next: Holding) {
        let Some(best) = self.best else {
            self.best = Some(next);
            return;
        };
        if next.end > best.end {
            self.take_better(next);
            return;
        }
        let later = match self.second {
            Some(second) => next.end > second.end,
            None => true,
        };
        if later && next.subject.space != best.subject.space {
            self.second = Some(next);
        }
    }
}

/// A mapping that user mode may write, and one of another space that has a frame of it.
#[derive(Clone, Copy)]
struct Pair {
    one: Holding,
    other: Holding,
}

/// Appends pairs of a mapping and one of another space that has a frame of it: one whose first frame is as low or lower or, for `upper`, as high
/// or higher.
fn add_pairs(held: &[Holding], upper: bool, pairs: &mut Vec<Pair>) -> Result<(), AllocError> {
    let mut passed = Passed::NONE;
    'held: for number in 0..held.len() {
        let one = held[if upper {
            held.len() - 1 - number
        } else {
            number
        }];
        match passed.of_another(one.subject.space) {
            Some(other) if one.is_open() && one.meets(&other) => pairs.push(Pair { one, other })?,
            _ => {}
        }
        if upper {
            passed.take_better(one);
        } else {
            passed.take_by_end(one);
        }
    }
    Ok(())
}

/// Returns the pairs of mappings of which one is to be named, in ascending order of spaces and pages.
fn all_pairs(alloc: Global, spaces: &[Space]) -> Result<Vec<Pair>, AllocError> {
    let held = held_frames(alloc, spaces, false)?;
    let mut pairs = Vec::new(alloc);
    add_pairs(held.as_slice(), false, &mut pairs)?;
    add_pairs(held.as_slice(), true, &mut pairs)?;
    pairs.sort_by_key(|pair| (pair.one.subject.space, pair.one.mapping.page))?;
    Ok(pairs)
}

/// Appends a finding for each mapping that user mode may write, with RSW bit 8 clear, if a mapping for user mode of another space has a frame
/// of it; it names one such mapping.
pub fn shared_findings(alloc: Global, spaces: &[Space], found: &mut Findings) {
    let Ok(pairs) = all_pairs(alloc, spaces) else {
        return found.lose();
    };
    let mut last: Option<(usize, u64)> = None;
    for pair in &pairs {
        let key = (pair.one.subject.space, pair.one.mapping.page);
        if last != Some(key) {
            found.add(Finding::with(Reason::SharedWritable, pair.one.subject, pair.other.subject));
        }
        last = Some(key);
    }
}
