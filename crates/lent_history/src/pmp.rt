// `PmpEntries`: a struct, the PMP entries of a hart. Whether an access may pass or fail by them at a moment (`Verdict`).

ghost use Rattle.std.specs.Prelude.{◌≡◌, min, not, slice_set};
ghost use Rattle.std.specs.List.{list_any};
ghost use Rattle.access_history.specs.History.{pmp_at, pmps_at};
ghost use Rattle.lent_history.specs.Events.{history};
ghost use Rattle.lent_history.specs.Lent.{pmp_of};
ghost use Rattle.lent_history.specs.Protecting.{entries_follow, entries_of, permits_checked, verdict_after, verdict_of};

use crate::event::{LentEvent, event_at};
use crate::hart::{LentHart, MOST, entries_in};
use access_history::Event;
use sv39_entry::Access;
use walk_rules::{PmpEntry, Privilege, pmp_permits};

/// The PMP entries of a hart.
#[derive(Clone, Copy)]
pub(crate) struct PmpEntries {
    pub count: usize,
    pub entries: [PmpEntry; MOST],
}

/// An access to memory, as PMP judges it.
#[derive(Clone, Copy)]
pub(crate) struct Checked {
    pub privilege: Privilege,
    pub access: Access,
    pub pa: u64,
    pub width: u64,
}

/// Whether PMP may permit an access, and whether it may refuse it.
#[derive(Clone, Copy)]
pub(crate) struct Verdict {
    pub passes: bool,
    pub fails: bool,
}

impl PmpEntries {
    /// Returns the entries of a hart as they were before the events.
    pub fn first(hart: &LentHart) -> PmpEntries
        ensures entries { entries_of result ≡ pmp_of hart.now }
        ensures count { result.count ≡ min hart.now.pmp_count 64 }
    {
        PmpEntries {
            count: if hart.pmp_count < MOST as u64 {
                hart.pmp_count as usize
            } else {
                MOST
            },
            entries: entries_in(&hart.pmp),
        }
    }

    /// Returns the entries.
    pub fn list(&self) -> &[PmpEntry]
        ensures { result.now ≡ entries_of self.now }
    {
        &self.entries[..self.count.min(MOST)]
    }

    /// Writes one of the entries; nothing, if there is none of that number.
    pub fn set(&mut self, number: usize, entry: PmpEntry)
        ensures entries { entries_of self.new ≡ slice_set (entries_of self.old) number entry }
        ensures count { self.new.count ≡ self.old.count }
    {
        if number < self.count.min(MOST) {
            self.entries[number] = entry;
        }
    }

    /// Makes the entries what they are after an event.
    pub fn follow(&mut self, event: Event)
        ensures entries { entries_of self.new ≡ entries_follow event (entries_of self.old) }
        ensures count { self.new.count ≡ self.old.count }
    {
        if let Event::WritePmp { number, entry } = event {
            self.set(number, entry);
        }
    }

    /// Whether they permit an access.
    pub fn permit(&self, checked: &Checked) -> bool
        ensures { result ≡ permits_checked checked.now (entries_of self.now) }
    {
        pmp_permits(
            self.list(),
            checked.privilege,
            checked.access,
            checked.pa,
            checked.width,
        )
    }
}

/// Returns the PMP entries of a hart after the events in the first places.
pub(crate) fn entries_after(hart: &LentHart, events: &[LentEvent], n: usize) -> PmpEntries
    ensures entries { entries_of result ≡ pmp_at (pmp_of hart.now) (history events.now n) }
    ensures count { result.count ≡ min hart.now.pmp_count 64 }
{
    let mut entries = PmpEntries::first(hart);
    'events: for k in 0..n {
        entries.follow(event_at(events, k));
    }
    entries
}

/// Returns what PMP may say of an access after the events in the first places, by the entries as they were then or before.
pub(crate) fn verdict_at(
    hart: &LentHart,
    events: &[LentEvent],
    n: usize,
    checked: &Checked,
) -> Verdict
    ensures passes { result.passes ≡ list_any (permits_checked checked.now) (pmps_at (pmp_of hart.now) (history events.now n)) }
    ensures fails { result.fails ≡ list_any (λ es. not (permits_checked checked.now es)) (pmps_at (pmp_of hart.now) (history events.now n)) }
{
    let mut entries = PmpEntries::first(hart);
    let mut verdict = Verdict::of(entries.permit(checked));
    'events: for k in 0..n {
        entries.follow(event_at(events, k));
        let permits = entries.permit(checked);
        verdict.follow(event_at(events, k), permits);
    }
    verdict
}

impl Verdict {
    fn of(permits: bool) -> Verdict
        ensures { result ≡ verdict_of permits }
    {
        Verdict {
            passes: permits,
            fails: !permits,
        }
    }

    fn follow(&mut self, event: Event, permits: bool)
        ensures { self.new ≡ verdict_after event permits self.old }
    {
        if let Event::WritePmp { .. } = event {
            self.passes = permits || self.passes;
            self.fails = !permits || self.fails;
        }
    }
}
