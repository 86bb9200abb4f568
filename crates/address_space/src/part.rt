// Struct `Part`: a region with which a process starts (segment, guard or stack), and the bytes with which its pages begin.

use crate::region::Region;

/// A region that a process starts with, and the bytes of its pages, from the first page on. The rest of its pages is zeros;
/// bytes past the last page are not used.
#[derive(Clone, Copy)]
pub struct Part<'a> {
    pub region: Region,
    pub bytes: &'a [u8],
}

/// Filler for an unused place of a fixed-size list.
impl Default for Part<'_> {
    ghost use Rattle.std.specs.Prelude.{◌≡◌, []};
    ghost use Rattle.address_space.specs.Layouts.{no_region};

    ghost is_default = { λ p. (p.region ≡ no_region) × (p.bytes.now ≡ []) };

    fn default() -> Self {
        Part {
            region: Region::default(),
            bytes: &[],
        }
    }
}
