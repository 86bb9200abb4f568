// `one_page`: the parts (regions with their first bytes) from which each story (test case) builds its process: one page of
// data.

ghost use Rattle.address_space.specs.Parts.{AreParts};

use address_space::{Part, Region, RegionKind, Source};
use bitflags::Flags;
use sv39_entry::{Rights, Scheme};

/// The only part of the process: page 0, readable and writable. The heap begins after it, empty.
pub(crate) fn one_page<'a>(scheme: Scheme) -> [Part<'a>; 1]
    ensures parts { AreParts scheme result }
{
    let mut rights = Rights::READ;
    rights.insert(Rights::WRITE);
    let region = Region {
        first: 0,
        pages: 1,
        rights,
        kind: RegionKind::Segment,
        source: Source::Image,
    };
    [Part { region, bytes: &[] }]
}
