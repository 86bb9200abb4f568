// `SpaceObject`, an address space, and `FindingObject`, something suspicious, which are written as JSON objects. Numbers in hexadecimal digits are
// texts, `"0x.."`.

use crate::findings::{Finding, FindingLine, Reason, Subject};
use crate::frames::frame_of;
use crate::lines::scheme_name;
use crate::listing::ValidEntry;
use crate::space::Space;
use json_objects::ObjectWriter;
use serde::{Described, Serialize, Serializer};
use sv39_entry::{Entry, Kind};
use walk_lines::{Flags, Hex};
use walk_rules::Extensions;

/// A PTE of a space whose root's PTEs have level `top`: a mapping, or the pointer to a table.
#[derive(Clone, Copy)]
struct EntryObject {
    entry: ValidEntry,
    top: u32,
    is_mapping: bool,
}

/// The PTEs of one kind of a space: its mappings in ascending order of addresses, or the pointers to the tables below its root, in the order
/// of their pages.
#[derive(Clone, Copy)]
struct EntryObjects<'a> {
    space: &'a Space,
    extensions: Extensions,
    kind: Kind,
}

/// An address space: one object, on a line of its own.
#[derive(Clone, Copy)]
pub struct SpaceObject<'a> {
    /// Its number, in the order of the command line, from 0.
    pub number: usize,
    pub space: &'a Space,
    pub extensions: Extensions,
}

/// A PTE or a root that a finding names.
#[derive(Clone, Copy)]
struct SubjectObject(Subject);

/// Something suspicious: one object, on a line of its own.
#[derive(Clone, Copy)]
pub struct FindingObject<'a>(pub &'a Finding);

impl Described for EntryObject {}

/// `va`: the first virtual address. `pa`: the physical address to which a mapping leads, or that of the table. `level`: of a mapping, which
/// maps 4,096 * 512^level bytes, that of the leaf; of a table, that of its PTEs. `pte`: the PTE's word, and `place` its physical address.
/// `flags`: of a mapping, as `VRWXUGADC`, with a dash for each that is clear.
impl Serialize for EntryObject {
    fn serialize<S: Serializer>(&self, out: &mut S) -> Result<(), S::Error> {
        let EntryObject {
            entry,
            top,
            is_mapping,
        } = *self;
        let (page, level, flags) = if is_mapping {
            (frame_of(entry, top), entry.level, Some(Flags(entry.word)))
        } else {
            let table = Entry::from_word(entry.word).ppn();
            (table, entry.level.saturating_sub(1), None)
        };
        let mut object = ObjectWriter::begin(out);
        object.member("va", &Hex(entry.first_address(top).0));
        object.member("pa", &Hex(page << 12));
        object.member("level", &level);
        object.member("pte", &Hex(entry.word));
        object.maybe("flags", &flags);
        object.member("place", &Hex(entry.place()));
        object.finish()
    }
}

impl Described for EntryObjects<'_> {}

impl Serialize for EntryObjects<'_> {
    fn serialize<S: Serializer>(&self, out: &mut S) -> Result<(), S::Error> {
        let EntryObjects {
            space,
            extensions,
            kind,
        } = *self;
        out.begin_seq(None)?;
        'entries: for entry in &space.entries {
            if extensions.kind(Entry::from_word(entry.word), entry.level) == kind {
                let object = EntryObject {
                    entry: *entry,
                    top: space.top,
                    is_mapping: kind == Kind::Leaf,
                };
                object.serialize(out)?;
            }
        }
        out.end_seq()
    }
}

impl SpaceObject<'_> {
    /// Returns the PTEs of one kind.
    fn entries(&self, kind: Kind) -> EntryObjects<'_> {
        EntryObjects {
            space: self.space,
            extensions: self.extensions,
            kind,
        }
    }
}

impl Described for SpaceObject<'_> {}

/// `scheme`: `"sv39"`, `"sv48"` or `"sv57"`. `root`: the physical address of the root table. `tables`: those below the root.
impl Serialize for SpaceObject<'_> {
    fn serialize<S: Serializer>(&self, out: &mut S) -> Result<(), S::Error> {
        let satp = self.space.satp;
        let mut object = ObjectWriter::begin(out);
        object.member("space", &self.number);
        object.member("satp", &Hex(satp.to_word()));
        object.member("scheme", &scheme_name(self.space.top));
        object.member("asid", &satp.asid());
        object.member("root", &Hex(satp.ppn() << 12));
        object.member("tables", &self.entries(Kind::Pointer));
        object.member("mappings", &self.entries(Kind::Leaf));
        object.finish()
    }
}

impl Described for SubjectObject {}

/// `space`: the number of the space. Of a PTE, and not of a root, `va`: the first virtual address; `level`; `pte`: its word; `place`: the
/// physical address of the word. `pa`: the physical address that the PTE names, or that of the root table.
impl Serialize for SubjectObject {
    fn serialize<S: Serializer>(&self, out: &mut S) -> Result<(), S::Error> {
        let subject = self.0;
        let mut object = ObjectWriter::begin(out);
        object.member("space", &subject.space);
        if let Some(entry) = subject.entry {
            object.member("va", &Hex(entry.first_address(subject.top).0));
            object.member("level", &entry.level);
            object.member("pte", &Hex(entry.word));
            object.member("place", &Hex(entry.place()));
        }
        object.member("pa", &Hex(subject.names() << 12));
        object.finish()
    }
}

/// Returns the name of a reason.
fn reason_name(reason: Reason) -> &'static str {
    match reason {
        Reason::TableOutside => "table outside the memory",
        Reason::TwoPlaces => "table of two places",
        Reason::TableWritable => "table writable",
        Reason::Reserved(_) => "reserved",
        Reason::WritableExecutable => "writable and executable",
        Reason::AboveTrapframe => "at or above TRAPFRAME",
        Reason::SharedWritable => "shared and writable",
        Reason::LeafOutside => "outside the memory",
        Reason::Misaligned => "misaligned superpage",
        Reason::NeedsUpdate => "A or D clear",
    }
}

impl Described for FindingObject<'_> {}

/// `suspicious`: what it is, as `"writable and executable"`. `at`: the first PTE, or the root. `count`: how many PTEs that follow one another it
/// is about. `with`: the first of the other PTEs that have a part in it, if some have. `text`: the whole as text.
impl Serialize for FindingObject<'_> {
    fn serialize<S: Serializer>(&self, out: &mut S) -> Result<(), S::Error> {
        let finding = self.0;
        let mut object = ObjectWriter::begin(out);
        object.member("suspicious", &reason_name(finding.reason));
        object.member("at", &SubjectObject(finding.subject));
        object.member("count", &finding.count);
        if let Some(other) = finding.other {
            object.member("with", &SubjectObject(other));
        }
        object.member("text", &FindingLine(finding));
        object.finish()
    }
}
