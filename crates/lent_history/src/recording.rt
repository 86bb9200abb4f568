// Calls that add an event to a hart's history in a caller's memory.

ghost use Rattle.std.specs.Prelude.{◌≡◌, ◌↔◌, ◌/◌, ◌%◌, ℕ, true, false, IsErr, OnOk, OnErr, Some, None};
ghost use Rattle.access_history.specs.declared.event.Event.TheVariants.{Fence, Store, WritePmp, WriteSatp};
ghost use Rattle.lent_history.specs.Events.{event_in, space_if, word_before};
ghost use Rattle.lent_history.specs.Recording.{Adds, Restarts, is_everything, is_full, no_word, one_word};

use crate::event::{FENCE_ADDRESS, FENCE_SPACE, LentEvent, PMP, SATP, STORE};
use crate::hart::{LentHart, put_entries};
use crate::pmp::entries_after;
use crate::scan::satp_at;
use sv39_entry::{Satp, Va};
use walk_rules::PmpEntry;

/// Why an event was not added: each place of the array has one. A fence of everything empties them all.
#[derive(Clone, Copy)]
pub struct Full;

fn add(hart: &mut LentHart, events: &mut [LentEvent], event: LentEvent) -> Result<(), Full>
    ensures full { IsErr result ↔ is_full hart.old events.old }
    ensures added { OnOk result (Adds (event_in event) (word_before event) hart.old events.old hart.new events.new) }
    ensures stays { OnErr result ((hart.new ≡ hart.old) × (events.new ≡ events.old)) }
{
    let used = hart.used(events.len());
    if used == events.len() {
        return Err(Full);
    }
    events[used] = event;
    hart.count = used as u64 + 1;
    Ok(())
}

/// A word of memory changes: at a physical address, of which the low 3 bits do not count.
///
/// # Errors
/// `Full`; nothing changes.
pub fn store(
    hart: &mut LentHart,
    events: &mut [LentEvent],
    pa: u64,
    before: u64,
    word: u64,
) -> Result<(), Full>
    ensures full { IsErr result ↔ is_full hart.old events.old }
    ensures added { OnOk result (Adds (Store (pa / 4096) (pa % 4096 / 8) word) (one_word pa before) hart.old events.old hart.new events.new) }
    ensures stays { OnErr result ((hart.new ≡ hart.old) × (events.new ≡ events.old)) }
{
    add(
        hart,
        events,
        LentEvent {
            kind: STORE,
            key: pa,
            value: word,
            other: before,
        },
    )
}

/// satp is written. Which words a hart may write is the caller's matter.
///
/// # Errors
/// `Full`; nothing changes.
pub fn write_satp(hart: &mut LentHart, events: &mut [LentEvent], satp: Satp) -> Result<(), Full>
    ensures full { IsErr result ↔ is_full hart.old events.old }
    ensures added { OnOk result (Adds (WriteSatp satp) no_word hart.old events.old hart.new events.new) }
    ensures stays { OnErr result ((hart.new ≡ hart.old) × (events.new ≡ events.old)) }
{
    add(
        hart,
        events,
        LentEvent {
            kind: SATP,
            key: 0,
            value: satp.to_word(),
            other: 0,
        },
    )
}

/// The registers of a PMP entry become these; nothing changes for a number that the hart does not have. Locks are the caller's matter.
///
/// # Errors
/// `Full`; nothing changes.
pub fn write_pmp(
    hart: &mut LentHart,
    events: &mut [LentEvent],
    number: usize,
    entry: PmpEntry,
) -> Result<(), Full>
    ensures full { IsErr result ↔ is_full hart.old events.old }
    ensures added { OnOk result (Adds (WritePmp number entry) no_word hart.old events.old hart.new events.new) }
    ensures stays { OnErr result ((hart.new ≡ hart.old) × (events.new ≡ events.old)) }
{
    add(
        hart,
        events,
        LentEvent {
            kind: PMP,
            key: number as u64,
            value: entry.address,
            other: u64::from(entry.config),
        },
    )
}

/// SFENCE.VMA. One of everything, with rs1 and rs2 = x0, is no event: the history before it is dropped (`restart`).
///
/// # Errors
/// `Full`; nothing changes. Never of a fence of everything.
pub fn fence(
    hart: &mut LentHart,
    events: &mut [LentEvent],
    va: Option<Va>,
    asid: Option<u16>,
) -> Result<(), Full>
    ensures full { IsErr result ↔ is_full hart.old events.old × (is_everything va asid ≡ false) }
    ensures added { OnOk result (is_everything va asid ≡ false → Adds (Fence va asid) no_word hart.old events.old hart.new events.new) }
    ensures restarts { is_everything va asid ≡ true → Restarts hart.old events.old hart.new }
    ensures stays { OnErr result ((hart.new ≡ hart.old) × (events.new ≡ events.old)) }
{
    match (va, asid) {
        (Some(va), None) => add(hart, events, fence_of_address(va, 0, 0)),
        (Some(va), Some(asid)) => add(hart, events, fence_of_address(va, asid, 1)),
        (None, Some(asid)) => add(
            hart,
            events,
            LentEvent {
                kind: FENCE_SPACE,
                key: 0,
                value: u64::from(asid),
                other: 0,
            },
        ),
        (None, None) => {
            restart(hart, events);
            Ok(())
        }
    }
}

fn fence_of_address(va: Va, asid: u16, has_asid: u64) -> LentEvent
    ensures event { event_in result ≡ Fence (Some va) (space_if has_asid asid) }
    ensures before { (ppn index : ℕ) → word_before result ppn index ≡ None }
{
    LentEvent {
        kind: FENCE_ADDRESS,
        key: va.0,
        value: u64::from(asid),
        other: has_asid,
    }
}

/// Drops all events: satp and the PMP entries before them become those of now.
fn restart(hart: &mut LentHart, events: &[LentEvent])
    ensures { Restarts hart.old events.now hart.new }
{
    let used = hart.used(events.len());
    let satp = satp_at(events, used, Satp::from_word(hart.satp));
    let entries = entries_after(hart, events, used);
    put_entries(&mut hart.pmp, &entries.entries);
    hart.satp = satp.to_word();
    hart.count = 0;
}
