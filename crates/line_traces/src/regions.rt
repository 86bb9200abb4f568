// `RegionLine`: a region of a process, as text and as JSON.

use address_space::{Region, RegionKind, Source};
use bitflags::Flags;
use json_objects::ObjectWriter;
use serde::{Described, Serialize, Serializer};
use std::fmt;
use sv39_entry::PAGE_SIZE;
use walk_lines::Hex;

/// A region of a process.
#[derive(Clone, Copy)]
pub struct RegionLine {
    /// `segment`, `guard`, `stack`, `heap`, `shared mapping` or `private mapping`.
    pub kind: &'static str,
    /// The address of its first byte, and that of the first byte past it.
    pub start: Hex,
    pub end: Hex,
    /// What it grants to the user, as `rw-`.
    pub rights: &'static str,
    /// Of a mapping, the number of its file, and the offset in the file, in bytes, of the region's first byte.
    pub file: Option<u64>,
    pub offset: Option<u64>,
}

impl Described for RegionLine {}

impl Serialize for RegionLine {
    fn serialize<S: Serializer>(&self, out: &mut S) -> Result<(), S::Error> {
        let mut object = ObjectWriter::begin(out);
        object.member("kind", &self.kind);
        object.member("start", &self.start);
        object.member("end", &self.end);
        object.member("rights", &self.rights);
        object.maybe("file", &self.file);
        object.maybe("offset", &self.offset);
        object.finish()
    }
}

fn kind_name(kind: RegionKind) -> &'static str {
    match kind {
        RegionKind::Segment => "segment",
        RegionKind::Guard => "guard",
        RegionKind::Stack => "stack",
        RegionKind::Heap => "heap",
        RegionKind::SharedMapping => "shared mapping",
        RegionKind::PrivateMapping => "private mapping",
    }
}

/// Rights by letters, in the order of their bits: READ is 1, WRITE 2 and EXECUTE 4.
static RIGHTS_TEXTS: [&str; 8] = ["---", "r--", "-w-", "rw-", "--x", "r-x", "-wx", "rwx"];

impl RegionLine {
    /// Returns a region as it is shown.
    pub fn of(region: Region) -> RegionLine {
        let start = region.first.wrapping_mul(PAGE_SIZE);
        let end = start.wrapping_add(region.pages.wrapping_mul(PAGE_SIZE));
        let (file, offset) = match region.source {
            Source::Zeros | Source::Image => (None, None),
            Source::File { file, offset } => (Some(file), Some(offset)),
        };
        RegionLine {
            kind: kind_name(region.kind),
            start: Hex(start),
            end: Hex(end),
            rights: RIGHTS_TEXTS[region.rights.bits() as usize % 8],
            file,
            offset,
        }
    }
}

/// A file and an offset as text; nothing for no file.
#[derive(Clone, Copy)]
struct OfFile(Option<u64>, Option<u64>);

impl fmt::Display for OfFile {
    fn fmt<W: fmt::Write>(&self, f: &mut fmt::Formatter<W>) -> fmt::Result {
        match (self.0, self.1) {
            (Some(file), Some(offset)) => write!(f, " of file {file} from byte {offset} on"),
            _ => Ok(()),
        }
    }
}

/// For example `segment 0x1000..0x2000 rw-`.
impl fmt::Display for RegionLine {
    fn fmt<W: fmt::Write>(&self, f: &mut fmt::Formatter<W>) -> fmt::Result {
        let RegionLine {
            kind,
            start,
            end,
            rights,
            ..
        } = *self;
        let file = OfFile(self.file, self.offset);
        write!(f, "{kind} {start}..{end} {rights}{file}")
    }
}
