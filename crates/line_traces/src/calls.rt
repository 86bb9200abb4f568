// `put_call`: why a kernel call, a start or a fork was refused: frames, slots, the heap, mappings.

ghost use Rattle.hart_machine.specs.BufferEntries.{IsInWorld};
ghost use Rattle.process_model.specs.World.{World};

use crate::frame_needs::{fork_need, start_need};
use crate::regions::RegionLine;
use address_space::{Region, RegionKind};
use hart_machine::Machine;
use process_model::{MOST_MAPPINGS, Step};
use script_language::Command;
use script_reader::Draft;
use std::alloc::AllocError;
use sv39_entry::{PAGE_SIZE, Va};
use text_builder::Text;
use walk_lines::Hex;

/// Tells how many frames something takes and how many are free.
fn put_frames(text: &mut Text, machine: &Machine, needed: usize, what: &str) {
    let free = machine.report().free;
    write!(text, "{what} takes {needed} frames; free: {free}");
}

/// Tells why a start of an image got no frames, or an exec.
fn put_image(text: &mut Text, machine: &Machine, draft: &Draft, image: usize, is_exec: bool) {
    let Some(image) = draft.images().get(image) else {
        return;
    };
    let needed = start_need(machine.scheme(), image);
    if is_exec {
        let what = "the exec, before it gives the old pages back,";
        put_frames(text, machine, needed.saturating_sub(1), what);
    } else {
        put_frames(text, machine, needed, "the start");
    }
}

/// Tells why a fork of the process on a hart got no frames.
fn put_fork(text: &mut Text, machine: &Machine, hart: usize)
    requires world { (w : World) × IsInWorld machine.now w }
{
    let Some(slot) = machine.slot(hart) else {
        return;
    };
    match fork_need(text.allocator(), machine, slot) {
        Ok(needed) => put_frames(text, machine, needed, "the fork"),
        Err(_) => text.note(Err(AllocError)),
    }
}

/// Tells why a start, an exec or a fork got no frames.
fn put_no_frame(text: &mut Text, machine: &Machine, draft: &Draft, command: &Command)
    requires world { (w : World) × IsInWorld machine.now w }
{
    match command {
        Command::Start { image } => put_image(text, machine, draft, *image, false),
        Command::Exec { image, .. } => put_image(text, machine, draft, *image, true),
        Command::One(Step::Fork { hart }) => put_fork(text, machine, *hart),
        _ => {}
    }
}

/// The process's region of these kinds that is lowest in memory.
fn lowest(machine: &Machine, slot: usize, kinds: &[RegionKind]) -> Option<Region> {
    let regions = machine.regions(slot)?;
    'regions: for region in regions.as_slice() {
        if kinds.contains(&region.kind) {
            return Some(*region);
        }
    }
    None
}

/// What ends the room of the heap: the lowest mapping, or the trapframe.
fn put_heap_limit(text: &mut Text, machine: &Machine, slot: usize) {
    let mappings = [RegionKind::SharedMapping, RegionKind::PrivateMapping];
    match lowest(machine, slot, &mappings) {
        Some(region) => {
            let region = RegionLine::of(region);
            write!(text, "the lowest mapping, {region}")
        }
        None => {
            let at = Hex(machine.scheme().trapframe().0);
            write!(text, "the trapframe's page at {at}")
        }
    }
}

/// Tells why the heap of the process on a hart cannot have the size that was asked for; `below`: it would end below where it begins.
fn put_heap(text: &mut Text, machine: &Machine, hart: usize, delta: i64, below: bool) {
    let Some(slot) = machine.slot(hart) else {
        return;
    };
    write!(text, "changed by {delta} bytes, the heap would ");
    match lowest(machine, slot, &[RegionKind::Heap]) {
        Some(heap) if below => {
            let base = Hex(heap.first.wrapping_mul(PAGE_SIZE));
            write!(text, "end below {base}, where it begins")
        }
        _ => {
            text.push_str("reach ");
            put_heap_limit(text, machine, slot)
        }
    }
}

/// Tells why a mapping cannot be made, by the number of the refusal.
fn put_mmap(text: &mut Text, length: u64, file: usize, number: u64) {
    let pages = length.div_ceil(PAGE_SIZE);
    match number {
        14 => write!(
            text,
            "{pages} pages fit nowhere above the heap, below the trapframe and between the mappings"
        ),
        16 => write!(
            text,
            "file {file} is read-only (`ro`), so a shared mapping of it may not ask for PROT_WRITE (2)"
        ),
        _ => write!(
            text,
            "the process has {MOST_MAPPINGS} mappings, the most that it may have: `munmap` takes one away"
        ),
    }
}

/// Tells why a mapping of the process on a hart cannot be cut.
fn put_munmap(text: &mut Text, machine: &Machine, hart: usize, address: u64, length: u64) {
    let Some(slot) = machine.slot(hart) else {
        return;
    };
    if let Some(region) = machine.region(slot, Va(address)) {
        let (at, end) = (Hex(address), Hex(address.saturating_add(length)));
        let mapping = RegionLine::of(region);
        write!(
            text,
            "without {at}..{end}, {mapping} would be in two parts: the bytes must reach its first or its last page"
        );
    }
}

/// Tells why a call was refused, by the number of the refusal: 9, 10, 13, 14, 16, 17 or 18.
pub fn put_call(text: &mut Text, machine: &Machine, draft: &Draft, command: &Command, number: u64)
    requires world { (w : World) × IsInWorld machine.now w }
{
    match (number, command) {
        (9, _) => put_no_frame(text, machine, draft, command),
        (10, _) => {
            let slots = machine.slot_count();
            write!(
                text,
                "no slot is free: there are {slots}, and a slot is free again when its process has ended"
            )
        }
        (13 | 14, Command::One(Step::Sbrk { hart, delta })) => {
            put_heap(text, machine, *hart, *delta, number == 13)
        }
        (14 | 16 | 17 | 18, Command::One(Step::Mmap { length, file, .. })) => {
            put_mmap(text, *length, *file, number)
        }
        (
            14 | 16 | 17 | 18,
            Command::One(
                Step::Munmap {
                    hart,
                    address,
                    length,
                },
            ),
        ) => put_munmap(text, machine, *hart, *address, *length),
        _ => {}
    }
}
