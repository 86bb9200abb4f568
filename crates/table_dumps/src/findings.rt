// `Finding`: something suspicious about the page tables of an address space, with the page table entry (PTE) that it is about; and its line.

use crate::frames::frame_of;
use crate::listing::ValidEntry;
use crate::reserved::Reserved;
use crate::runs::{adjoins, last_address, size_name};
use crate::space::Space;
use serde::{Described, Serialize, Serializer};
use std::alloc::{AllocError, Global};
use std::fmt;
use sv39_entry::{Entry, EntryFlags};
use walk_lines::Hex;

/// What is suspicious (own choice: most of it the standard permits).
#[derive(Clone, Copy, PartialEq, Eq)]
pub enum Reason {
    /// A table, whole or in part, is outside the memory: that of a pointer, or the root.
    TableOutside,
    /// One page is a table of two places: of two places of one space; or of two spaces, at different places, or with a mapping for user mode in it.
    TwoPlaces,
    /// User mode may write a page that is a table.
    TableWritable,
    /// V is set, and the PTE is invalid to a walk.
    Reserved(Reserved),
    /// User mode may write and execute the page.
    WritableExecutable,
    /// User mode may use the page, which is TRAPFRAME or above it.
    AboveTrapframe,
    /// User mode may write the page, it is not marked as copy-on-write, and another space maps its frame for user mode too.
    SharedWritable,
    /// The leaf leads outside the memory, whole or in part.
    LeafOutside,
    /// The frame of a superpage is no multiple of its size: each access is a page fault (the standard, 4.3.2, step 6).
    Misaligned,
    /// A is clear, or D is with W: the first access or store is a page fault, on a hart with Svade.
    NeedsUpdate,
}

/// A PTE, or the root, of an address space.
#[derive(Clone, Copy)]
pub struct Subject {
    /// The number of the space.
    pub space: usize,
    /// The level of its root's PTEs.
    pub top: u32,
    /// The physical page number of its root.
    pub root: u64,
    /// The PTE; `None` for the root.
    pub entry: Option<ValidEntry>,
}

impl Subject {
    /// Returns the root of a space.
    pub fn root(number: usize, space: &Space) -> Subject {
        Subject {
            space: number,
            top: space.top,
            root: space.satp.ppn(),
            entry: None,
        }
    }

    /// Returns a PTE of the same space.
    pub fn at(self, entry: ValidEntry) -> Subject {
        Subject {
            entry: Some(entry),
            ..self
        }
    }

    /// Returns the physical page number that the PTE names, or that of the root.
    pub fn names(self) -> u64 {
        match self.entry {
            Some(entry) => Entry::from_word(entry.word).ppn(),
            None => self.root,
        }
    }
}

/// Something suspicious: of a PTE, or of several that follow one another.
#[derive(Clone, Copy)]
pub struct Finding {
    pub reason: Reason,
    /// The first PTE.
    pub subject: Subject,
    /// How many there are.
    pub count: u64,
    /// How many pages of 4,096 bytes they map or lead to; 0 for the root.
    pub pages: u64,
    /// The first of the other PTEs that have a part in it.
    pub other: Option<Subject>,
}

impl Finding {
    /// Returns the finding about one PTE.
    pub fn of(reason: Reason, subject: Subject) -> Finding {
        let pages = match subject.entry {
            Some(entry) => entry.pages(),
            None => 0,
        };
        Finding {
            reason,
            subject,
            count: 1,
            pages,
            other: None,
        }
    }

    /// Returns the finding about one PTE in which another has a part.
    pub fn with(reason: Reason, subject: Subject, other: Subject) -> Finding {
        Finding {
            other: Some(other),
            ..Finding::of(reason, subject)
        }
    }

    /// Whether the next finding says the same of the PTE after the last of this one.
    fn goes_on(&self, next: &Finding) -> bool {
        self.reason == next.reason
            && follows(self.subject, next.subject, self.pages)
            && match (self.other, next.other) {
                (None, None) => true,
                (Some(other), Some(next)) => follows(other, next, self.pages),
                _ => false,
            }
    }
}

/// Whether a PTE is in the same space as another, of the same level, and so many pages later.
fn follows(first: Subject, next: Subject, pages: u64) -> bool {
    match (first.entry, next.entry) {
        (Some(one), Some(other)) => {
            first.space == next.space
                && one.level == other.level
                && adjoins(one, pages, other, first.top)
        }
        _ => false,
    }
}

/// What was found so far.
#[derive(Drop)]
pub struct Findings {
    list: Vec<Finding>,
    /// Whether the host had memory for all of it.
    is_whole: bool,
}

impl Findings {
    /// Returns a list of nothing.
    pub fn new(alloc: Global) -> Findings {
        Findings {
            list: Vec::new(alloc),
            is_whole: true,
        }
    }

    /// Adds a finding; if it goes on where the last one ends, it is counted there.
    pub(crate) fn add(&mut self, next: Finding) {
        match self.list.last_mut() {
            Some(last) if last.goes_on(&next) => {
                last.count = last.count.saturating_add(next.count);
                last.pages = last.pages.saturating_add(next.pages);
            }
            _ => {
                if self.list.push(next).is_err() {
                    self.is_whole = false;
                }
            }
        }
    }

    /// Notes that the host was out of memory for a part.
    pub(crate) fn lose(&mut self) {
        self.is_whole = false;
    }

    /// Returns the findings.
    ///
    /// # Errors
    /// `AllocError`: the host was out of memory for a part of them.
    pub fn finish(self) -> Result<Vec<Finding>, AllocError> {
        if self.is_whole {
            Ok(self.list)
        } else {
            Err(AllocError)
        }
    }
}

/// A PTE or a root, as text.
#[derive(Clone, Copy)]
struct Short(Subject);

impl fmt::Display for Short {
    fn fmt<W: fmt::Write>(&self, f: &mut fmt::Formatter<W>) -> fmt::Result {
        let Subject {
            space,
            top,
            entry,
            ..
        } = self.0;
        match entry {
            Some(entry) => {
                let (va, level) = (entry.first_address(top).0, entry.level);
                write!(f, "space {space} at 0x{va:x}, level {level}")
            }
            None => write!(f, "space {space}, its root"),
        }
    }
}

/// The PTEs of a finding from the first one on, as text.
#[derive(Clone, Copy)]
struct Where<'a>(&'a Finding, ValidEntry);

impl fmt::Display for Where<'_> {
    fn fmt<W: fmt::Write>(&self, f: &mut fmt::Formatter<W>) -> fmt::Result {
        let Where(finding, entry) = *self;
        let (space, count) = (finding.subject.space, finding.count);
        let va = entry.first_address(finding.subject.top).0;
        let (last, size) = (last_address(va, finding.pages), size_name(entry.level));
        let (word, place) = (entry.word, entry.place());
        write!(
            f,
            "space {space} 0x{va:x}-0x{last:x} ({count} x {size}, pte 0x{word:x} at 0x{place:x})"
        )
    }
}

/// Which of A and D are clear.
fn clear_bits(word: u64) -> &'static str {
    if Entry::from_word(word).has(EntryFlags::ACCESSED) {
        "D is clear, so the first store"
    } else {
        "A is clear, so the first access"
    }
}

/// Why a finding about a PTE is suspicious, as text.
#[derive(Clone, Copy)]
struct Because {
    reason: Reason,
    entry: ValidEntry,
    top: u32,
}

impl Because {
    /// Returns the text before the address in it, and the text after it.
    fn texts(&self) -> (&'static str, &'static str) {
        match self.reason {
            Reason::TableOutside => ("its table ", " is outside the memory"),
            Reason::TwoPlaces => ("its table ", " is also that of "),
            Reason::TableWritable => ("user mode may write it, and it is the table of ", ""),
            Reason::Reserved(reserved) => (
                "V is set, but a walk takes it for invalid: ",
                reserved.text(),
            ),
            Reason::WritableExecutable => ("user mode may write and execute it", ""),
            Reason::AboveTrapframe => ("user mode may use it, at or above TRAPFRAME", ""),
            Reason::SharedWritable => (
                "user mode may write it, C is clear, and its frame is also mapped by ",
                "",
            ),
            Reason::LeafOutside => ("it leads to ", ", outside the memory"),
            Reason::Misaligned => ("a superpage at ", ", no multiple of its size"),
            Reason::NeedsUpdate => (clear_bits(self.entry.word), " is a page fault"),
        }
    }

    /// Returns the address in the text, or the physical page number of a table; `None` if the text has none.
    fn address(&self) -> Option<Hex> {
        let ppn = Entry::from_word(self.entry.word).ppn();
        match self.reason {
            Reason::TableOutside | Reason::TwoPlaces => Some(Hex(ppn)),
            Reason::LeafOutside => Some(Hex(frame_of(self.entry, self.top) << 12)),
            Reason::Misaligned => Some(Hex(ppn << 12)),
            _ => None,
        }
    }
}

impl fmt::Display for Because {
    fn fmt<W: fmt::Write>(&self, f: &mut fmt::Formatter<W>) -> fmt::Result {
        let (before, after) = self.texts();
        match self.address() {
            Some(address) => write!(f, "{before}{address}{after}"),
            None => write!(f, "{before}{after}"),
        }
    }
}

/// A finding, as it is printed.
#[derive(Clone, Copy)]
pub struct FindingLine<'a>(pub &'a Finding);

impl Described for FindingLine<'_> {}

impl Serialize for FindingLine<'_> {
    fn serialize<S: Serializer>(&self, out: &mut S) -> Result<(), S::Error> {
        out.collect_str(self)
    }
}

/// For example `space 0 0x1000-0x1fff (1 x 4 KiB, pte 0x200051df at 0x80012008): user mode may write and execute it`.
impl fmt::Display for FindingLine<'_> {
    fn fmt<W: fmt::Write>(&self, f: &mut fmt::Formatter<W>) -> fmt::Result {
        let Finding {
            reason,
            subject,
            other,
            ..
        } = *self.0;
        let Some(entry) = subject.entry else {
            let (root, table) = (Short(subject), Hex(subject.root));
            return write!(f, "{root}: table {table} is outside the memory");
        };
        let place = Where(self.0, entry);
        let because = Because {
            reason,
            entry,
            top: subject.top,
        };
        match other {
            Some(other) => {
                let other = Short(other);
                write!(f, "{place}: {because}{other}")
            }
            None => write!(f, "{place}: {because}"),
        }
    }
}
