// The page table entries of a way (`Way`): that of a level (`step_at`), the last one (`last_step`), where its walk stops (`stop_of`), and one in
// words (`put_pte`).

ghost use Rattle.std.specs.Prelude.{◌≤◌};

use crate::numbers::{put_hex, put_number};
use access_judge::{Step, Way};
use sv39_entry::Kind;
use text_builder::Text;
use walk_rules::{Extensions, top_level};

/// The number of levels of Sv57, at most.
pub(crate) const LEVELS: u32 = 5;

/// The level of the root's table; `None`: there is no way.
fn top_of(way: &Way) -> Option<u32> {
    match &way.root {
        Some(root) => top_level(root.satp),
        None => None,
    }
}

/// Whether a way has a PTE at each level from the root's down to one.
fn has_steps(way: &Way, top: u32, level: u32) -> bool
    requires { top ≤ 4 }
{
    'levels: for above in level..top + 1 {
        match way.steps.get(above as usize) {
            Some(Some(_)) => {}
            _ => return false,
        }
    }
    level <= top
}

/// Returns the PTE of a way at a level.
pub(crate) fn step_at(way: &Way, level: u32) -> Option<Step> {
    let top = top_of(way)?;
    if top >= LEVELS || !has_steps(way, top, level) {
        return None;
    }
    match way.steps.get(level as usize) {
        Some(step) => *step,
        None => None,
    }
}

/// Returns the last PTE of a way.
pub(crate) fn last_step(way: &Way) -> Option<Step> {
    'levels: for level in 0..LEVELS {
        let step = step_at(way, level);
        if step.is_some() {
            return step;
        }
    }
    None
}

/// Returns the PTE at which a walk ended, which is no pointer.
pub(crate) fn end_of(extensions: Extensions, way: &Way) -> Option<Step> {
    let step = last_step(way)?;
    if step.level < LEVELS && extensions.kind(step.entry, step.level) != Kind::Pointer {
        Some(step)
    } else {
        None
    }
}

/// Whether a walk ended at a leaf.
pub(crate) fn ends_at_leaf(extensions: Extensions, way: &Way) -> bool {
    match end_of(extensions, way) {
        Some(step) => {
            step.level < LEVELS && extensions.kind(step.entry, step.level) == Kind::Leaf
        }
        None => false,
    }
}

/// Where a walk stops.
#[derive(Clone, Copy)]
pub(crate) enum Stop {
    /// At a PTE that is no pointer.
    At(Step),
    /// Before it reads the PTE of a table, by its level and its physical page number.
    Unread { level: u32, table: u64 },
}

/// Returns where the walk of a way stops; `None`: there is no walk.
pub(crate) fn stop_of(extensions: Extensions, way: &Way) -> Option<Stop> {
    if let Some(step) = end_of(extensions, way) {
        return Some(Stop::At(step));
    }
    match table_below(way) {
        Some((level, table)) => Some(Stop::Unread { level, table }),
        None => None,
    }
}

/// Returns how many bits are an offset in what a PTE maps.
pub(crate) fn offset_bits(step: &Step) -> u32
    ensures { result ≤ 48 }
{
    12 + 9 * step.level.min(4)
}

/// Returns what a PTE is, in words.
pub(crate) fn kind_text(extensions: Extensions, step: &Step) -> &'static str {
    if step.level >= LEVELS {
        return "PTE";
    }
    match (extensions.kind(step.entry, step.level), step.global) {
        (Kind::Leaf, false) => "leaf PTE",
        (Kind::Leaf, true) => "global leaf PTE",
        (Kind::Pointer, false) => "pointer PTE",
        (Kind::Pointer, true) => "global pointer PTE",
        (Kind::Invalid, false) => "invalid PTE",
        (Kind::Invalid, true) => "global invalid PTE",
    }
}

/// Appends a PTE in words, as `leaf PTE 0x202000c9 at level 1`.
pub(crate) fn put_pte(out: &mut Text, extensions: Extensions, step: &Step) {
    out.push_str(kind_text(extensions, step));
    put_hex(out, " ", step.entry.to_word());
    put_number(out, " at level ", step.level.into())
}

/// Returns the physical address of a PTE.
pub(crate) fn place_at(table: u64, index: usize) -> u64 {
    table
        .saturating_mul(4096)
        .saturating_add((index as u64).saturating_mul(8))
}

/// Returns the level and the physical page number of the table to which the last PTE of a way points, or of the root's if there is none.
fn table_below(way: &Way) -> Option<(u32, u64)> {
    if let Some(step) = last_step(way) {
        return match step.level.checked_sub(1) {
            Some(level) => Some((level, step.entry.ppn())),
            None => None,
        };
    }
    match &way.root {
        Some(root) => match top_level(root.satp) {
            Some(top) => Some((top, root.satp.ppn())),
            None => None,
        },
        None => None,
    }
}
