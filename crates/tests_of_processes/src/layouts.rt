// Tests that `frames_needed` returns how many frames a process with two runs of pages takes; and that `Layout::grant` denies
// an access to the guard page by that rule, whatever rights its region has.

ghost use Rattle.std.specs.Prelude.{◌≡◌, ◌+◌, ◌≤◌, false, IsTrue, true};
ghost use Rattle.address_space.specs.Layouts.{region_of};
ghost use Rattle.process_model.specs.Order.{is_file};
ghost use Rattle.process_model.specs.Regions.{makes_leaf};

use crate::SCHEMES;
use crate::rows::expect;
use address_space::{Layout, Part, Region, RegionKind, Source, frames_needed};
use sv39_entry::{Access, Rights, Rule, Scheme, Va};

/// A readable segment of `pages` pages from page `first` on.
fn readable<'a>(first: u64, pages: u64) -> Part<'a>
    ensures first { result.region.first ≡ first }
    ensures pages { result.region.pages ≡ pages }
    ensures leafy { makes_leaf (region_of result.region) ≡ true }
    ensures without_file { is_file (region_of result.region).source ≡ false }
{
    let region = Region {
        first,
        pages,
        rights: Rights::READ,
        kind: RegionKind::Segment,
        source: Source::Image,
    };
    Part { region, bytes: &[] }
}

/// A run of pages: its first page, and the number of pages.
type Run = (u64, u32);

/// Whether a run of pages ends at or before page `end`.
fn is_before(run: Run, end: u64) -> bool
    ensures { IsTrue result → run.0 + run.1 ≤ end }
{
    let (first, pages) = (run.0, u64::from(run.1));
    first <= end && pages <= end - first
}

/// The number of frames that a process with two runs of pages takes; `None` unless `lower` ends at or before `upper` begins,
/// and `upper` ends at or before TRAPFRAME.
fn needed(scheme: Scheme, lower: Run, upper: Run) -> Option<usize> {
    if !is_before(lower, upper.0) || !is_before(upper, scheme.trapframe().page().number()) {
        return None;
    }
    let parts = [
        readable(lower.0, u64::from(lower.1)),
        readable(upper.0, u64::from(upper.1)),
    ];
    Some(frames_needed(scheme, &parts))
}

const SV39: Scheme = Scheme::Sv39;

const SV48: Scheme = Scheme::Sv48;

/// Two runs of pages, and the number of frames. Beside its pages a process takes a trapframe, a root table, and the tables
/// between the root and TRAPFRAME: two, or three under Sv48. A run takes one table for each aligned group of 512 pages that
/// it touches, one for each of 2^18, and under Sv48 one for each of 2^27. Each table counts once.
static COUNTS: [(Scheme, Run, Run, Option<usize>); 17] = [
    (SV39, (0, 1), (1, 1), Some(8)),
    (SV39, (0, 1), (2, 3), Some(10)),
    (SV39, (0, 512), (512, 1), Some(520)),
    (SV39, (0, 0), (511, 2), Some(9)),
    (SV39, (5, 0), (7, 0), Some(4)),
    (SV39, (0, 262_145), (262_145, 1), Some(262_665)),
    (SV39, (0, 1), (262_144, 600), Some(610)),
    (SV39, (510, 1), (67_108_350, 512), Some(520)),
    (SV39, (0, 1), (67_108_860, 2), Some(9)),
    (SV39, (3, 1), (262_143, 2), Some(12)),
    (SV39, (0, 1), (134_217_728, 1), None),
    (SV48, (0, 1), (1, 1), Some(10)),
    (SV48, (5, 0), (7, 0), Some(5)),
    (SV48, (3, 1), (262_143, 2), Some(14)),
    (SV48, (0, 1), (134_217_728, 1), Some(13)),
    (SV48, (134_217_727, 2), (34_359_737_854, 512), Some(526)),
    (SV48, (0, 1), (34_359_738_366, 1), None),
];

#[test]
fn counts_frames(rt: HostRuntime) {
    for number in 0..COUNTS.len() {
        let (scheme, lower, upper, count) = COUNTS[number];
        expect(&rt, number, needed(scheme, lower, upper), count);
    }
}

/// The guard is page 5, and its region grants loads.
#[test]
fn guards_a_readable_page(rt: HostRuntime) {
    for scheme in SCHEMES {
        let region = Region {
            first: 5,
            pages: 1,
            rights: Rights::READ,
            kind: RegionKind::Guard,
            source: Source::Image,
        };
        let layout = Layout::new(scheme, &[Part { region, bytes: &[] }]);
        let told = layout.grant(Access::Load, Va(0x5000), 1);
        expect(&rt, 0, told, Err(Rule::GuardPage));
    }
}
