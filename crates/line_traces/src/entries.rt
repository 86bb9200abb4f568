// `put_entry`: why a buffer entry does not serve: it is not there, or it is for another page or another ASID.

ghost use Rattle.hart_machine.specs.BufferEntries.{IsInWorld};
ghost use Rattle.process_model.specs.World.{World};

use crate::requests::made_by;
use hart_machine::Machine;
use process_model::Step;
use script_language::Command;
use sv39_entry::{PAGE_SIZE, Va};
use text_builder::Text;
use walk_lines::Hex;

/// The entry that a command names, by hart and number, and the address that it is to serve; `None` for no address: an eviction.
fn entry_named(machine: &Machine, command: &Command) -> Option<(usize, usize, Option<Va>)> {
    if let Command::One(Step::Evict { hart, entry }) = command {
        return Some((*hart, *entry, None));
    }
    let request = made_by(machine.scheme(), command)?;
    Some((request.hart, request.via?, Some(request.va)))
}

/// Tells why the entry that a command names does not serve it; nothing if it names none.
pub fn put_entry(text: &mut Text, machine: &Machine, command: &Command)
    requires world { (w : World) × IsInWorld machine.now w }
{
    let Some((hart, number, va)) = entry_named(machine, command) else {
        return;
    };
    let Some(buffer) = machine.buffer(hart) else {
        return;
    };
    let count = buffer.len();
    match (buffer.entry(number), va, machine.satp(hart)) {
        (Some(entry), Some(va), Some(satp)) => {
            let (page, asked) = (Hex(entry.page.number().wrapping_mul(PAGE_SIZE)), Hex(va.0));
            let (asid, now) = (entry.asid, satp.asid());
            write!(
                text,
                "TLB entry {number} of hart {hart} is for the page at {page} under ASID {asid}; the access is at {asked} under ASID {now}"
            )
        }
        _ if count == 0 => write!(
            text,
            "the TLB of hart {hart} is empty: `fill {hart} ADDRESS` adds an entry, a fence of entry or return removes entries"
        ),
        _ => write!(
            text,
            "the TLB of hart {hart} has no entry {number}: it has {count}, the oldest is entry 0"
        ),
    }
}
