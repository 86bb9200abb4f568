// Enum `RegionKind`, enum `Source` (where the first bytes of a page come from: zeros, image or file), and struct `Region`: a
// run of pages with the rights that it grants, its kind and its source. Calls: whether it holds a page, the leaf of its page
// for a given frame, whether its leaves have D from the start, whether it lacks a right.

ghost use Rattle.std.specs.Prelude.{◌≡◌, ◌&&◌, not, Some, true};
ghost use Rattle.address_space.specs.Agreement.{IsPageLeaf};
ghost use Rattle.address_space.specs.Layouts.{region_of};
ghost use Rattle.process_model.specs.Regions as model;
ghost use Rattle.process_model.specs.Regions.{makes_leaf};
ghost use Rattle.sv39_entry.specs.Word.{kind_of};
ghost use Rattle.sv39_entry.specs.declared.entry.Kind.TheVariants.{Leaf};

use bitflags::Flags;
use sv39_entry::{Access, Entry, FrameNo, Rights};

/// The kind of a region: a segment of the image, the guard page below the stack, the stack or the heap (the xv6 book,
/// "Process address space"), or a mapping of a file, shared or private (MIT 6.1810, mmap lab).
#[derive(Clone, Copy, PartialEq, Eq)]
pub enum RegionKind {
    Segment,
    Guard,
    Stack,
    Heap,
    SharedMapping,
    PrivateMapping,
}

/// The source of the bytes that a page of a region has when it is settled.
#[derive(Clone, Copy, PartialEq, Eq)]
pub enum Source {
    Zeros,
    /// The image of the process's start or exec.
    Image,
    /// The file with this number; `offset`, in bytes, is that of the region's first byte.
    File { file: u64, offset: u64 },
}

/// A run of `pages` pages, the first with the number `first` (its address divided by 4,096), with the rights that it grants
/// to the user, its kind, and the source of its pages' first bytes.
#[derive(Clone, Copy, PartialEq, Eq)]
pub struct Region {
    pub first: u64,
    pub pages: u64,
    pub rights: Rights,
    pub kind: RegionKind,
    pub source: Source,
}

/// Filler for an unused place of a fixed-size list.
impl Default for Region {
    ghost use Rattle.address_space.specs.Layouts.{no_region};

    ghost is_default = { λ r. r ≡ no_region };

    fn default() -> Region {
        Region {
            first: 0,
            pages: 0,
            rights: Rights::READ,
            kind: RegionKind::Segment,
            source: Source::Zeros,
        }
    }
}

impl Region {
    /// Returns whether the page with this number is in the region.
    pub fn holds_page(&self, page: u64) -> bool
        ensures { result ≡ model.holds_page (region_of self.now) page }
    {
        self.first <= page && page - self.first < self.pages
    }

    /// Returns the leaf that maps a page of the region to `frame`, with A set and G clear. With `cow` it has the copy-on-write
    /// mark (RSW bit 8) and lacks W; it has D if `dirty` and the region grants writing. The guard's leaf has R and lacks U: it
    /// is the kernel's alone. The region's rights must fit a leaf: a guard grants nothing, any other region grants reading, or
    /// execution without writing.
    pub fn leaf(&self, frame: FrameNo, cow: bool, dirty: bool) -> Entry
        requires leafy { makes_leaf (region_of self.now) ≡ true }
        ensures leaf { IsPageLeaf result frame.0 (region_of self.now) cow (dirty && (region_of self.now).writes) }
        ensures kind { kind_of result ≡ Leaf }
    {
        if self.kind == RegionKind::Guard {
            let user = false;
            return Entry::leaf(frame, Rights::READ, user, cow, dirty);
        }
        let user = true;
        Entry::leaf(frame, self.rights, user, cow, dirty)
    }

    /// Returns whether a page's leaf gets D when the page is settled, if the region grants writing: true exactly when the
    /// region is no shared mapping. In a shared mapping D is the dirty mark.
    pub fn is_dirty_from_start(&self) -> bool
        ensures { result ≡ not (model.is_shared_kind (region_of self.now).kind) }
    {
        self.kind != RegionKind::SharedMapping
    }

    /// Returns whether the region lacks the right that the access needs: execution for a fetch, reading for a load, writing
    /// for a store.
    pub fn lacks_right(&self, access: Access) -> bool
        ensures { result ≡ model.lacks_right access (Some (region_of self.now)) }
    {
        !self.rights.grants(access)
    }
}
