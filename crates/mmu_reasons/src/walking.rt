// The walk over memory, satp and PMP as they are (`walk_now`; `put_walk_steps`: in words), which may be the way to an outcome that was found
// (`walk_among`).

ghost use Rattle.std.specs.Prelude.{◌≤◌};

use crate::numbers::{put_hex, put_number};
use crate::recorded::Recorded;
use crate::ways::{LEVELS, end_of, kind_text, place_at, step_at};
use access_history::has_global;
use access_judge::{Log, PastSatp, Step, Told, Way};
use sv39_entry::{Entry, Kind, Satp, Va};
use text_builder::Text;
use walk_rules::{Extensions, leads_to, pmp_permits_read, reach, top_level};

/// A check that a hart may leave out.
#[derive(Clone, Copy)]
pub(crate) enum Slip {
    /// None is left out.
    None,
    /// PMP, at the read of a PTE.
    Pmp,
    /// Which bits a pointer must not have.
    Pointer,
}

/// Whether PMP as it is lets a walk read a PTE, or the check is left out.
fn is_readable(recorded: &Recorded, table: u64, index: usize, slip: Slip) -> bool {
    match slip {
        Slip::Pmp => true,
        Slip::None | Slip::Pointer => {
            pmp_permits_read(recorded.unit.pmp(), place_at(table, index))
        }
    }
}

/// Reads the PTE for an address in a table, to which a global pointer led or not; `None`: it is outside the memory, or PMP refuses.
fn read(
    recorded: &Recorded,
    va: Va,
    table: u64,
    level: u32,
    global: bool,
    slip: Slip,
) -> Option<Step> {
    let (unit, index) = (&recorded.unit, va.page().index(level));
    let entry = Entry::from_word(unit.word(table, index)?);
    if !is_readable(recorded, table, index, slip) {
        return None;
    }
    Some(Step {
        level,
        ppn: table,
        index,
        entry,
        last: unit.now(),
        asid: unit.satp().asid(),
        global: global || has_global(entry),
    })
}

/// Whether a walk goes on below a PTE: a pointer, or what has none of R, W and X, if the check of a pointer is left out.
fn is_passed(extensions: Extensions, entry: Entry, level: u32, slip: Slip) -> bool
    requires { level ≤ 4 }
{
    match slip {
        Slip::Pointer if entry.to_word() % 16 < 2 => true,
        _ => extensions.kind(entry, level) == Kind::Pointer,
    }
}

/// The PTEs, by level, that a walk reads from the root's table on, whose PTEs have level `top`.
fn steps_now(
    recorded: &Recorded,
    extensions: Extensions,
    va: Va,
    top: u32,
    slip: Slip,
) -> [Option<Step>; 5]
    requires { top ≤ 4 }
{
    let mut steps = [None; 5];
    let (mut table, mut global) = (recorded.unit.satp().ppn(), false);
    'levels: for above in 0..top + 1 {
        let level = top - above;
        let Some(step) = read(recorded, va, table, level, global, slip) else {
            return steps;
        };
        let goes_on = is_passed(extensions, step.entry, level, slip);
        (table, global) = (step.entry.ppn(), step.global);
        steps[level as usize] = Some(step);
        if !goes_on {
            return steps;
        }
    }
    steps
}

/// Returns the walk for an address over memory, satp and PMP as they are; `None` under Bare.
fn walk_now(recorded: &Recorded, extensions: Extensions, va: Va) -> Option<Way> {
    walk_without(recorded, extensions, va, recorded.unit.satp(), Slip::None)
}

/// Returns the walk by a satp in place of the present one, and without a check.
pub(crate) fn walk_without(
    recorded: &Recorded,
    extensions: Extensions,
    va: Va,
    satp: Satp,
    slip: Slip,
) -> Option<Way> {
    let root = PastSatp {
        satp,
        epoch: 0,
        last: recorded.unit.now(),
    };
    Some(Way {
        root: Some(root),
        steps: steps_now(recorded, extensions, va, top_level(satp)?, slip),
    })
}

/// Appends a PTE of a walk with where it is read, and to what it leads.
fn put_read(out: &mut Text, extensions: Extensions, va: Va, step: &Step) {
    let level = step.level.min(4);
    put_number(out, "level ", level.into());
    put_hex(out, ": at ", place_at(step.ppn, 0));
    put_number(out, " + 8 x ", step.index as u64);
    out.push_str(", ");
    out.push_str(kind_text(extensions, step));
    put_hex(out, " ", step.entry.to_word());
    let number = step.entry.ppn();
    match extensions.kind(step.entry, level) {
        Kind::Pointer => {
            put_hex(out, ": PPN ", number);
            put_hex(out, ", so the table at ", place_at(number, 0))
        }
        Kind::Leaf => {
            let last = reach(step.entry, level).saturating_sub(1);
            put_hex(out, ": PPN ", number);
            put_number(out, ", and with bits ", last.into());
            put_hex(
                out,
                " to 0 of the address ",
                leads_to(step.entry, level, va),
            )
        }
        Kind::Invalid => {}
    }
}

/// Appends the walk for an address over memory, satp and PMP as they are, a line for each PTE that it reads, after eight blanks.
pub fn put_walk_steps(out: &mut Text, recorded: &Recorded, extensions: Extensions, va: Va) {
    let Some(way) = walk_now(recorded, extensions, va) else {
        return;
    };
    'levels: for n in 0..LEVELS {
        if let Some(step) = step_at(&way, LEVELS - 1 - n) {
            out.push_str("        ");
            put_read(out, extensions, va, &step);
            out.push_str("\n");
        }
    }
}

/// Whether the PTE of a way at a level, if there is one, is the one that the walk for an address reads in its table.
fn is_read(recorded: &Recorded, va: Va, way: &Way, level: u32) -> bool {
    let Some(step) = step_at(way, level) else {
        return true;
    };
    if step.last != recorded.unit.now() || step.index != va.page().index(step.level) {
        return false;
    }
    is_readable(recorded, step.ppn, step.index, Slip::None)
}

/// Whether a way to a PTE at which a walk stops is the walk for an address over memory, satp and PMP as they are.
fn is_walk(recorded: &Recorded, extensions: Extensions, va: Va, way: &Way) -> bool {
    let is_present = match &way.root {
        Some(root) => root.satp == recorded.unit.satp(),
        None => false,
    };
    if !is_present || end_of(extensions, way).is_none() {
        return false;
    }
    'levels: for level in 0..LEVELS {
        if !is_read(recorded, va, way, level) {
            return false;
        }
    }
    true
}

/// Returns what `walk_now` returns, for an access whose outcomes were found.
pub(crate) fn walk_among(
    recorded: &Recorded,
    extensions: Extensions,
    va: Va,
    found: &[Told],
) -> Option<Way> {
    'found: for told in found {
        if is_walk(recorded, extensions, va, &told.way) {
            return Some(told.way);
        }
    }
    walk_now(recorded, extensions, va)
}
