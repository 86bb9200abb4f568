// `LentEvent`: a struct, one event of a hart's history in a caller's array, as plain numbers.

ghost use Rattle.std.specs.Prelude.{◌≡◌};
ghost use Rattle.lent_history.specs.Events.{event_at, event_in, word_before};

use access_history::Event;
use sv39_entry::{Satp, Va};
use walk_rules::PmpEntry;

/// The kind of a store: `key` is a physical address, `value` the new word and `other` the word before.
pub const STORE: u64 = 0;

/// The kind of a write of satp: `value` is the new word.
pub const SATP: u64 = 1;

/// The kind of a write of a PMP entry: `key` is its number, `value` its pmpaddr, `other` its byte of pmpcfg.
pub const PMP: u64 = 2;

/// The kind of a fence with an address, `key`: `value` is the ASID in rs2, if `other` is not 0.
pub const FENCE_ADDRESS: u64 = 3;

/// The kind of a fence with rs1 = x0 and an ASID, `value`.
pub const FENCE_SPACE: u64 = 4;

/// An event in a caller's memory.
#[repr(C)]
#[derive(Clone, Copy)]
pub struct LentEvent {
    /// One of the constants; any other number is `FENCE_SPACE`.
    pub kind: u64,
    pub key: u64,
    pub value: u64,
    pub other: u64,
}

impl LentEvent {
    /// Returns the event.
    pub fn event(&self) -> Event
        ensures { result ≡ event_in self.now }
    {
        match self.kind {
            STORE => Event::Store {
                ppn: self.key / 4096,
                index: (self.key % 4096 / 8) as usize,
                word: self.value,
            },
            SATP => Event::WriteSatp(Satp::from_word(self.value)),
            PMP => Event::WritePmp {
                number: self.key as usize,
                entry: PmpEntry {
                    config: (self.other % 256) as u8,
                    address: self.value,
                },
            },
            FENCE_ADDRESS => Event::Fence {
                va: Some(Va(self.key)),
                asid: if self.other == 0 {
                    None
                } else {
                    Some((self.value % 65536) as u16)
                },
            },
            _ => Event::Fence {
                va: None,
                asid: Some((self.value % 65536) as u16),
            },
        }
    }

    /// Returns the word before this event, if it is a store to an index of a frame.
    pub(crate) fn word_before(&self, ppn: u64, index: usize) -> Option<u64>
        ensures { result ≡ word_before self.now ppn index }
    {
        if self.kind == STORE && self.key / 4096 == ppn && self.key % 4096 / 8 == index as u64 {
            Some(self.other)
        } else {
            None
        }
    }
}

/// Returns the event in a place; one that changes nothing, if there is no such place.
pub(crate) fn event_at(events: &[LentEvent], n: usize) -> Event
    ensures { result ≡ event_at events.now n }
{
    match events.get(n) {
        Some(event) => event.event(),
        None => Event::WritePmp {
            number: 64,
            entry: PmpEntry {
                config: 0,
                address: 0,
            },
        },
    }
}
