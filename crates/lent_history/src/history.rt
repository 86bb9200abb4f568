// `LentHistory`: a struct, a hart's history in a caller's memory, as the search for outcomes asks it (`Log`).

ghost use Rattle.std.specs.Prelude.{◌≡◌, ◌<◌};
ghost use Rattle.lent_history.specs.Lent.{first_memory, lent_words, used};
ghost use Rattle.lent_history.specs.Scans.{word_in};

use crate::event::LentEvent;
use crate::hart::LentHart;
use crate::pmp::{Checked, verdict_at};
use crate::scan::{
    Reach, address_fence, end_at, end_count, first_before, satp_at, space_fence, use_at, word_at,
};
use access_judge::{Log, PastSatp, PastWord};
use std::marker::Model;
use sv39_entry::{Access, Satp, Va};
use walk_rules::Privilege;

/// A hart's history: the hart, its events, and its memory as it is now, the words of the frames from physical page number `base` on. A place that
/// an event stores to has the words that the events say.
#[derive(Drop)]
pub struct LentHistory<'a> {
    hart: &'a LentHart,
    events: &'a [LentEvent],
    base: u64,
    words: &'a [u64],
}

/// Contracts see the hart, its array of events, and the memory.
impl<'a> Model for LentHistory<'a> {
    ghost use Rattle.lent_history.specs.Lent.{Lent};

    ghost Value = { Lent };

    ghost view = { λ l. record { hart = l.hart.now; events = l.events.now; base = l.base; words = l.words.now } };
}

impl<'a> LentHistory<'a> {
    /// Returns the history of a hart whose events are in the first places of an array, as many as it says.
    pub fn new(
        hart: &'a LentHart,
        events: &'a [LentEvent],
        base: u64,
        words: &'a [u64],
    ) -> LentHistory<'a>
        ensures { result ≡ record { hart = hart.now; events = events.now; base = base; words = words.now } }
    {
        LentHistory {
            hart,
            events,
            base,
            words,
        }
    }

    /// Returns how many places have events.
    fn used(&self) -> usize
        ensures { result ≡ used self.now }
    {
        self.hart.used(self.events.len())
    }

    /// Returns the word before all events at an index of a frame.
    fn first_word(&self, ppn: u64, index: usize) -> Option<u64>
        requires in_frame { index < 512 }
        ensures { result ≡ first_memory self.now ppn index }
    {
        match first_before(self.events, self.used(), ppn, index) {
            Some(word) => Some(word),
            None => lent_word(self.base, self.words, ppn, index),
        }
    }
}

/// Returns the word at an index of a frame among those of the frames from a physical page number on; `None` below the first frame, and past the
/// last word.
fn lent_word(base: u64, words: &[u64], ppn: u64, index: usize) -> Option<u64>
    requires in_frame { index < 512 }
    ensures { result ≡ lent_words base words.now ppn index }
{
    let frame = ppn.checked_sub(base)?;
    if frame > words.len() as u64 / 512 {
        return None;
    }
    words.get(frame as usize * 512 + index).copied()
}

fn word_of(past: Option<PastWord>) -> Option<u64>
    ensures { result ≡ word_in past }
{
    Some(past?.word)
}

impl Log for LentHistory<'_> {
    ghost use Rattle.lent_history.specs.Lent.{past_of, used, uses_of};
    ghost use Rattle.lent_history.specs.Laws.{uses_are_uses, history_unfenced};

    ghost past = { past_of };

    ghost uses_of = { uses_of };

    fn now(&self) -> usize {
        self.used()
    }

    fn satp(&self) -> Satp {
        satp_at(self.events, self.used(), Satp::from_word(self.hart.satp))
    }

    fn word(&self, ppn: u64, index: usize) -> Option<u64> {
        let first = self.first_word(ppn, index);
        word_of(word_at(self.events, self.used(), ppn, index, first))
    }

    fn word_at(&self, ppn: u64, index: usize, moment: usize) -> Option<PastWord> {
        let first = self.first_word(ppn, index);
        word_at(self.events, moment, ppn, index, first)
    }

    fn use_count(&self) -> usize {
        end_count(self.events, self.used()) + 1
    }

    fn use_at(&self, number: usize) -> PastSatp {
        let satp = Satp::from_word(self.hart.satp);
        let used = self.used();
        if number == 0 {
            return use_at(self.events, used, used, satp);
        }
        let moment = end_at(self.events, used, number - 1);
        use_at(self.events, used, moment, satp)
    }

    // the memory is the caller's, and may have any words
    fn may_be_global(&self) -> bool {
        true
    }

    fn space_fence(&self, asid: u16) -> usize {
        space_fence(self.events, self.used(), asid)
    }

    fn address_fence(&self, bits: u32, va: Va, asid: Option<u16>) -> usize {
        let reach = Reach { bits, va, asid };
        address_fence(
            self.events,
            self.used(),
            Satp::from_word(self.hart.satp),
            &reach,
        )
    }

    fn may_pass(
        &self,
        moment: usize,
        privilege: Privilege,
        access: Access,
        pa: u64,
        width: u64,
    ) -> bool {
        let checked = Checked {
            privilege,
            access,
            pa,
            width,
        };
        verdict_at(self.hart, self.events, moment, &checked).passes
    }

    fn may_fail(
        &self,
        moment: usize,
        privilege: Privilege,
        access: Access,
        pa: u64,
        width: u64,
    ) -> bool {
        let checked = Checked {
            privilege,
            access,
            pa,
            width,
        };
        verdict_at(self.hart, self.events, moment, &checked).fails
    }

    ghost unfenced = { λ l. history_unfenced l.events (used l) };

    ghost are_uses = { λ l. uses_are_uses l.hart.satp l.events (used l) };
}
