// What the search asks a history, by one pass over its events, the oldest first.

ghost use Rattle.std.specs.Prelude.{◌≡◌, ◌∷◌, [], ◌<◌, ◌≤◌, length, slice_get, Some};
ghost use Rattle.access_history.specs.History.{satp_at};
ghost use Rattle.access_judge.specs.Log.{IsReach, use_of};
ghost use Rattle.access_judge.specs.Search as search;
ghost use Rattle.lent_history.specs.Events.{event_at, first_before, history, word_before_or};
ghost use Rattle.lent_history.specs.Scans as scans;

use crate::event::{LentEvent, event_at};
use access_history::Event;
use access_judge::{PastSatp, PastWord};
use sv39_entry::{Satp, Va};
use walk_rules::{is_canonical, top_level};

/// Returns satp after the events in the first places.
pub(crate) fn satp_at(events: &[LentEvent], n: usize, first: Satp) -> Satp
    ensures { result ≡ satp_at first (history events.now n) }
{
    let mut satp = first;
    'events: for k in 0..n {
        satp = satp_after(event_at(events, k), satp);
    }
    satp
}

fn satp_after(event: Event, satp: Satp) -> Satp
    ensures { result ≡ scans.satp_after event satp }
{
    match event {
        Event::WriteSatp(word) => word,
        Event::Store { .. } | Event::WritePmp { .. } | Event::Fence { .. } => satp,
    }
}

/// Returns the number of the last fence of an ASID, with rs1 = x0, among the events in the first places; 0 if there is none.
pub(crate) fn space_fence(events: &[LentEvent], n: usize, asid: u16) -> usize
    ensures { result ≡ search.space_fence (history events.now n) asid }
{
    let mut last = 0;
    'events: for k in 0..n {
        last = space_fence_after(event_at(events, k), k + 1, asid, last);
    }
    last
}

fn space_fence_after(event: Event, number: usize, asid: u16, last: usize) -> usize
    ensures { result ≡ scans.space_fence_after event number asid last }
{
    match event {
        Event::Fence {
            va: None,
            asid: None,
        } => number,
        Event::Fence {
            va: None,
            asid: Some(space),
        } => { if space == asid { number } else { last } }
        _ => last,
    }
}

/// A fence with an address, as the search asks for it: its address equals `va` above the low `bits` bits, and rs2 is x0 or the ASID (`None`: x0).
#[derive(Clone, Copy)]
pub(crate) struct Reach {
    pub bits: u32,
    pub va: Va,
    pub asid: Option<u16>,
}

/// Returns the number of the last such fence among the events in the first places; 0 if there is none. `first` is satp before the events.
pub(crate) fn address_fence(events: &[LentEvent], n: usize, first: Satp, reach: &Reach) -> usize
    requires { IsReach reach.now.bits }
    ensures { result ≡ search.address_fence first (history events.now n) reach.now.bits reach.now.va.0 reach.now.asid }
{
    let mut satp = first;
    let mut last = 0;
    'events: for k in 0..n {
        last = address_fence_after(event_at(events, k), satp, k + 1, reach, last);
        satp = satp_after(event_at(events, k), satp);
    }
    last
}

fn address_fence_after(event: Event, satp: Satp, number: usize, reach: &Reach, last: usize) -> usize
    requires { IsReach reach.now.bits }
    ensures { result ≡ scans.address_fence_after event satp number reach.now.bits reach.now.va.0 reach.now.asid last }
{
    match event {
        Event::Fence { va: Some(va), asid } => {
            if is_address(satp, va)
                && va.0 >> reach.bits == reach.va.0 >> reach.bits
                && is_for(asid, reach.asid)
            {
                number
            } else {
                last
            }
        }
        _ => last,
    }
}

/// Whether an address is valid under a word of satp.
fn is_address(satp: Satp, va: Va) -> bool
    ensures { result ≡ scans.is_address satp va.0 }
{
    match top_level(satp) {
        Some(top) => is_canonical(top, va),
        None => true,
    }
}

/// Whether a fence with this rs2 covers an address space; `None`: global entries.
fn is_for(asid: Option<u16>, space: Option<u16>) -> bool
    ensures { result ≡ search.is_for asid space }
{
    match (asid, space) {
        (None, _) => true,
        (Some(_), None) => false,
        (Some(asid), Some(space)) => asid == space,
    }
}

/// Returns the word that a place in memory has after the events in the first places, if it had `first` before.
pub(crate) fn word_at(
    events: &[LentEvent],
    n: usize,
    ppn: u64,
    index: usize,
    first: Option<u64>,
) -> Option<PastWord>
    ensures { result ≡ scans.word_at events.now ppn index first n }
{
    let mut word = first.map(|word| PastWord { word, since: 0 });
    'events: for k in 0..n {
        word = word_after(event_at(events, k), k + 1, ppn, index, word);
    }
    word
}

fn word_after(
    event: Event,
    number: usize,
    ppn: u64,
    index: usize,
    last: Option<PastWord>,
) -> Option<PastWord>
    ensures { result ≡ scans.word_after event number ppn index last }
{
    match event {
        Event::Store {
            ppn: table,
            index: place,
            word,
        } => {
            if table == ppn && place == index {
                Some(PastWord {
                    word,
                    since: number,
                })
            } else {
                last
            }
        }
        _ => last,
    }
}

/// Returns the word that a place in memory had before the first store to it; `None` if no event in the first places is one.
pub(crate) fn first_before(events: &[LentEvent], n: usize, ppn: u64, index: usize) -> Option<u64>
    ensures { result ≡ first_before events.now n ppn index }
{
    let mut word = None;
    'events: for k in 0..n {
        word = word.or(word_before_at(events, k, ppn, index));
    }
    word
}

fn word_before_at(events: &[LentEvent], n: usize, ppn: u64, index: usize) -> Option<u64>
    ensures { result ≡ word_before_or (slice_get events.now n) ppn index }
{
    events.get(n)?.word_before(ppn, index)
}

/// Whether satp, or the epoch of its ASID, may differ before an event and after it.
fn ends_use(event: Event) -> bool
    ensures { result ≡ scans.ends_use event }
{
    match event {
        Event::WriteSatp(_) | Event::Fence { va: None, .. } => true,
        Event::Store { .. } | Event::WritePmp { .. } | Event::Fence { va: Some(_), .. } => false,
    }
}

/// Returns how many events in the first places may end a use of satp.
pub(crate) fn end_count(events: &[LentEvent], n: usize) -> usize
    ensures within { result ≤ n }
    ensures count { result ≡ length (scans.ends events.now n) }
{
    let mut count = 0;
    'events: for k in 0..n {
        if ends_use(event_at(events, k)) {
            count += 1;
        }
    }
    count
}

/// Returns the moment before one of those events, the last of which is number 0.
pub(crate) fn end_at(events: &[LentEvent], n: usize, number: usize) -> usize
    requires { number < length (scans.ends events.now n) }
    ensures within { result ≤ n }
    ensures place { slice_get (scans.ends events.now n) number ≡ Some result }
{
    let mut left = number;
    'events: for k in (0..n).rev() {
        if ends_use(event_at(events, k)) {
            if left == 0 {
                return k;
            }
            left -= 1;
        }
    }
    0
}

/// Whether an event is a fence of an ASID, with rs1 = x0.
fn is_space_fence(event: Event, asid: u16) -> bool
    ensures { result ≡ scans.is_space_fence event asid }
{
    match event {
        Event::Fence {
            va: None,
            asid: None,
        } => true,
        Event::Fence {
            va: None,
            asid: Some(space),
        } => space == asid,
        _ => false,
    }
}

/// Returns the last moment until which the last fence of an ASID is the one that it is at a moment.
pub(crate) fn epoch_end(events: &[LentEvent], n: usize, moment: usize, asid: u16) -> usize
    requires { moment ≤ n }
    ensures { result ≡ search.epoch_end (history events.now n) asid (search.space_fence (history events.now moment) asid) }
{
    'events: for k in moment..n {
        if is_space_fence(event_at(events, k), asid) {
            return k;
        }
    }
    n
}

/// Returns satp as it is at a moment, with the last moment at which walks that begin then may go on.
pub(crate) fn use_at(events: &[LentEvent], n: usize, moment: usize, first: Satp) -> PastSatp
    requires { moment ≤ n }
    ensures { use_of result ≡ scans.use_at first events.now n moment }
{
    let satp = satp_at(events, moment, first);
    PastSatp {
        satp,
        epoch: space_fence(events, moment, satp.asid()),
        last: epoch_end(events, n, moment, satp.asid()),
    }
}
