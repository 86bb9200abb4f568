// The call `start`: builds the address space of a new process of a program image; `start_frames`, how many frames it takes.
// `parts_of`, for `exec` too: the parts of that process, each a region with its first bytes: the segments, then a guard page
// and a stack page of zeros.

ghost use Rattle.std.specs.Prelude.{[], ◌≡◌, ◌-◌, ◌≤◌, ◌↔◌, if◌then◌else◌, IfErr, IfOk, is_ok, IsOk, ℕ};
ghost use Rattle.address_space.specs.Agreement.{body_of, IsSpace, HoldsTrampoline};
ghost use Rattle.address_space.specs.Layouts.{region_of};
ghost use Rattle.address_space.specs.Parts.{AreParts, build_need, OwnsAlone, process_of_parts};
ghost use Rattle.address_space.specs.Steps.{TakesFrames};
ghost use Rattle.exec_segments.specs.Loads.{load_of, zeros_region};
ghost use Rattle.frame_store.specs.Laws.{IsSeatOf, IsDry, KeepsSeats};
ghost use Rattle.process_model.specs.Frames.{start_need};
ghost use Rattle.process_model.specs.ImageProcess as model;
ghost use Rattle.table_walk.specs.Tables as tables;

use crate::image::Image;
use crate::load::Load;
use address_space::{Part, Region, RegionKind, Source, Space, frames_needed};
use arrayvec::ArrayVec;
use bitflags::Flags;
use frame_store::{FrameSeat, FrameSupply, NoFrame};
use process_model::{GUARD_PAGES, MOST_PARTS, STACK_PAGES};
use sv39_entry::{PAGE_SIZE, Rights};

/// Builds the address space of a new process of `image`, with the scheme of the image, and returns it. `seat`, which becomes
/// the space's, must hold one reference of frame 0, the trampoline's, and nothing else, and have no credits. All pages are
/// settled, on frames of which the seat is the sole holder. Takes `start_need` frames, reserved together before anything is
/// built: the trapframe, the pages, guard and stack too, and their tables.
///
/// # Errors
/// `NoFrame`, with the seat, whose references and credits are what they were. If nobody else changes the store (`alone`):
/// exactly when fewer than `start_need` frames are free. Over shared frames: only after the free count was read as 0
/// while fewer than `start_need` credits were reserved.
pub fn start<F: FrameSupply<Seat = S>, S: FrameSeat>(
    store: &mut F,
    seat: S,
    image: &Image,
) -> Result<Space<S>, (NoFrame, S)>
    requires fits { IsSeatOf F.invariant store.old seat }
    requires seat { HoldsTrampoline (S.view seat) }
    ensures started { IfOk result (λ s. (t : tables.Tables)
        × ((fresh : ℕ) → IsSpace (body_of S.view s) t (model.process_of image.now.scheme fresh image.now.loads)) × OwnsAlone (S.view s.seat) t) }
    ensures takes { IfOk result (λ s. TakesFrames (S.view seat) (S.view s.seat) (start_need image.now.scheme image.now.loads) []) }
    ensures refused { IfErr result (λ e. IsDry (start_need image.now.scheme image.now.loads) (S.view seat) (S.view e.1)) }
    ensures exact { F.alone → IsOk result ↔ (start_need image.now.scheme image.now.loads ≤ F.free store.old) }
    ensures free { F.alone → F.free store.new ≡ F.free store.old - (if is_ok result then start_need image.now.scheme image.now.loads else 0) }
    ensures keeps { IfOk result (λ s. KeepsSeats F.invariant store.old seat store.new s.seat) }
    ensures keeps_refused { IfErr result (λ e. KeepsSeats F.invariant store.old seat store.new e.1) }
{
    let parts = parts_of(image);
    Space::build(store, seat, image.scheme, parts.as_slice())
}

/// Returns how many frames `start` takes for `image`: `start_need`.
pub fn start_frames(image: &Image) -> usize
    ensures { result ≡ start_need image.now.scheme image.now.loads }
{
    let parts = parts_of(image);
    frames_needed(image.scheme, parts.as_slice())
}

/// The parts of the process of an image: its segments, and after the last one a guard page and a stack page (the xv6 book,
/// "Code: exec").
pub(crate) fn parts_of<'a>(image: &Image<'a>) -> ArrayVec<Part<'a>, MOST_PARTS>
    ensures parts { AreParts image.now.scheme result.items }
    ensures process { (fresh : ℕ) → process_of_parts image.now.scheme fresh result.items ≡ model.process_of image.now.scheme fresh image.now.loads }
    ensures need { build_need image.now.scheme result.items ≡ start_need image.now.scheme image.now.loads }
{
    let loads = image.loads.as_slice();
    let mut parts = ArrayVec::new();
    let mut end = 0;
    'loads: for load in loads {
        parts.push(load.part());
        end = load.end_page();
    }
    parts.push(zeros_part(end, GUARD_PAGES, RegionKind::Guard, Rights::empty()));
    let mut rights = Rights::READ;
    rights.insert(Rights::WRITE);
    parts.push(zeros_part(end + GUARD_PAGES, STACK_PAGES, RegionKind::Stack, rights));
    parts
}

impl<'a> Load<'a> {
    /// The segment as a part of a process: a region that may be read, and written or executed by its flags, and its bytes.
    fn part(&self) -> Part<'a>
        ensures region { region_of result.region ≡ model.segment_region (load_of self.now) }
        ensures bytes { result.bytes.now ≡ self.now.bytes.now }
    {
        let mut rights = Rights::READ;
        if self.writes {
            rights.insert(Rights::WRITE);
        }
        if self.executes {
            rights.insert(Rights::EXECUTE);
        }
        let region = Region {
            first: self.address / PAGE_SIZE,
            pages: self.memory_size.div_ceil(PAGE_SIZE),
            rights,
            kind: RegionKind::Segment,
            source: Source::Image,
        };
        Part {
            region,
            bytes: self.bytes,
        }
    }
}

/// A part of `pages` pages of zeros, from page number `first` on.
fn zeros_part(first: u64, pages: u64, kind: RegionKind, rights: Rights) -> Part<'static>
    ensures region { region_of result.region ≡ zeros_region first pages kind rights.0 }
    ensures bytes { result.bytes.now ≡ [] }
{
    let region = Region {
        first,
        pages,
        rights,
        kind,
        source: Source::Zeros,
    };
    Part { region, bytes: &[] }
}
