// Whether a page table entry serves the access (`judge`): by satp as it is, and by the fences since it was read.

ghost use Rattle.std.specs.Prelude.{◌≡◌, ◌<◌, ◌≤◌, ◌&&◌, length, nat_lt, not};
ghost use Rattle.sv39_entry.specs.declared.entry.Kind.TheVariants.{Leaf};
ghost use Rattle.access_history.specs.Held.{page_bits};
ghost use Rattle.walk_rules.specs.Addresses.{top_of};
ghost use Rattle.walk_rules.specs.Kinds.{is_napot, kind_in};
ghost use Rattle.access_judge.specs.Judging.{IsStep, found_of, item_says};
ghost use Rattle.access_judge.specs.Search.{address_fence, became_leaf, ended, is_fenced, is_fenced_by, is_kind, is_of_now, is_translated_in, space_fence, space_of};

use crate::log::Log;
use crate::question::Question;
use crate::saying::say;
use crate::sink::{Sink, Step};
use crate::updated::say_updated;
use sv39_entry::{Entry, Kind, Satp, Va};
use walk_rules::{is_canonical, reach, top_level};

/// Tells what an entry that is no pointer says, if it may serve the access.
#[tactic(auto, unfolding(crate::specs::Judging::item_says))]
pub(crate) fn judge<L: Log, S: Sink>(log: &L, question: &Question, step: &Step, sink: &mut S)
    requires { IsStep (L.past log.now) step.now }
    ensures { S.gains sink.old (item_says question.now (L.past log.now) (ended (found_of step.now))) sink.new }
{
    if is_of_now(log.satp(), question.request.va, step) && !is_fenced(log, question, step) {
        say(log, question, step, sink);
        say_updated(log, question, step, sink);
    }
}

/// Whether a word of satp translates an address: it is canonical.
fn is_translated(satp: Satp, va: Va) -> bool
    ensures { result ≡ is_translated_in (top_of satp) va.0 }
{
    match top_level(satp) {
        None => false,
        Some(top) => is_canonical(top, va),
    }
}

/// Whether an entry serves under satp as it is.
fn is_of_now(satp: Satp, va: Va, step: &Step) -> bool
    ensures { result ≡ is_of_now satp va.0 (found_of step.now).read }
{
    is_translated(satp, va) && (step.asid == satp.asid() || step.global)
}

/// Whether a fence covers an entry since it was read. None covers what memory has now.
fn is_fenced<L: Log>(log: &L, question: &Question, step: &Step) -> bool
    requires { IsStep (L.past log.now) step.now }
    ensures { result ≡ is_fenced question.now.extensions (L.past log.now).first (L.past log.now).events question.now.request.va.0 (found_of step.now) }
{
    step.last < log.now() && is_fenced_since(log, question, step)
}

/// Whether a fence covers an entry since it was read, by the last fences that may.
fn is_fenced_since<L: Log>(log: &L, question: &Question, step: &Step) -> bool
    requires { IsStep (L.past log.now) step.now }
    ensures { result ≡ is_fenced question.now.extensions (L.past log.now).first (L.past log.now).events question.now.request.va.0 (found_of step.now) }
{
    let number = last_fence(log, question, step);
    is_fenced_by(log, question, step, number) || is_fenced_in_space(log, step)
}

/// Returns the ASID of an entry, `None` if it is global.
fn space_of(step: &Step) -> Option<u16>
    ensures { result ≡ space_of (found_of step.now).read }
{
    if step.global { None } else { Some(step.asid) }
}

/// Returns the number of the last fence with an address in the page or the superpage of an entry's level. 0: there was none.
#[tactic(auto, using(crate::proofs::FenceNumber::reaches, crate::proofs::FenceNumber::fence_in_past))]
fn last_fence<L: Log>(log: &L, question: &Question, step: &Step) -> usize
    requires { step.now.level ≤ 4 }
    ensures value { result ≡ address_fence (L.past log.now).first.satp (L.past log.now).events
        (page_bits step.now.level) question.now.request.va.0 (space_of (found_of step.now).read) }
    ensures in_past { result ≤ length (L.past log.now).events }
{
    log.address_fence(12 + 9 * step.level, question.request.va, space_of(step))
}

/// Whether a fence of its ASID covers an entry since it was read.
fn is_fenced_in_space<L: Log>(log: &L, step: &Step) -> bool
    ensures { result ≡ (not step.now.global && nat_lt step.now.last (space_fence (L.past log.now).events step.now.asid)) }
{
    !step.global && step.last < log.space_fence(step.asid)
}

/// Whether the fence of a number, with an address, covers an entry.
fn is_fenced_by<L: Log>(log: &L, question: &Question, step: &Step, number: usize) -> bool
    requires step { IsStep (L.past log.now) step.now }
    requires number { number ≤ length (L.past log.now).events }
    ensures { result ≡ is_fenced_by question.now.extensions (L.past log.now).first (L.past log.now).events question.now.request.va.0 (found_of step.now) number }
{
    step.last < number
        && (is_leaf(question, step.entry, step.level) || became_leaf(log, question, step, number))
}

/// Whether the word in the place of an entry was a leaf at a moment after it and before a fence.
fn became_leaf<L: Log>(log: &L, question: &Question, step: &Step, number: usize) -> bool
    requires step { IsStep (L.past log.now) step.now }
    requires some { 0 < number }
    requires number { number ≤ length (L.past log.now).events }
    ensures { result ≡ became_leaf question.now.extensions (L.past log.now).first (L.past log.now).events question.now.request.va.0 (found_of step.now) number }
{
    let index = question.request.va.page().index(step.level);
    let mut moment = number - 1;
    'words: while let Some(version) = log.word_at(step.ppn, index, moment) {
        if moment <= step.last {
            return false;
        }
        if is_leaf(question, Entry::from_word(version.word), step.level) {
            return true;
        }
        if version.since == 0 {
            return false;
        }
        moment = version.since - 1;
    }
    false
}

/// Whether a leaf in a last table is a NAPOT one.
pub(crate) fn is_napot(entry: Entry) -> bool
    ensures { result ≡ is_napot 0 entry }
{
    reach(entry, 0) == NAPOT_REACH
}

/// How many low bits a NAPOT leaf leaves alone: it maps 64 KiB.
const NAPOT_REACH: u32 = 16;

pub(crate) fn is_leaf(question: &Question, entry: Entry, level: u32) -> bool
    ensures { result ≡ is_kind (kind_in question.now.extensions level entry) Leaf }
{
    match question.extensions.kind(entry, level) {
        Kind::Leaf => true,
        Kind::Invalid | Kind::Pointer => false,
    }
}
