// What a leaf says as the hart may have it since it read it: with A or D set by an update of its own (`say_updated`).

ghost use Rattle.std.specs.Prelude.{◌≡◌, ◌≤◌, ◌<◌, ◌+◌, ◌*◌, ◌/◌, ◌==◌, ◌&&◌, ◌∷◌, [], length, if◌then◌else◌};
ghost use Rattle.sv39_entry.specs.Address.{page_of, vpn};
ghost use Rattle.walk_rules.specs.Kinds.{is_napot};
ghost use Rattle.access_history.specs.Held.{is_with_ad, sets_ad};
ghost use Rattle.access_judge.specs.Judging.{IsStep, behind_say, found_of, group_says_since, place_says_of, update_says_of};
ghost use Rattle.access_judge.specs.Log.{versions_before};
ghost use Rattle.access_judge.specs.Search.{is_of_group, places_say, updated_says, versions};

use crate::judge::{is_leaf, is_napot};
use crate::log::{Log, PastWord};
use crate::question::Question;
use crate::saying::say;
use crate::sink::{Sink, Step};
use sv39_entry::{Access, Entry};
use walk_rules::with_ad;

/// Tells what a leaf that serves says with A or D set in it since it was read.
pub(crate) fn say_updated<L: Log, S: Sink>(log: &L, question: &Question, step: &Step, sink: &mut S)
    requires { IsStep (L.past log.now) step.now }
    ensures { S.gains sink.old (updated_says question.now.extensions (L.past log.now) question.now.request question.now.mode (found_of step.now)) sink.new }
{
    if question.extensions.ad.may_update() && is_leaf(question, step.entry, step.level) {
        say_places(log, question, step, sink);
    }
}

/// Tells it by each place where a hart may update the leaf.
#[tactic(auto, unfolding(crate::specs::Judging::group_says_since, crate::specs::Judging::place_says_of))]
fn say_places<L: Log, S: Sink>(log: &L, question: &Question, step: &Step, sink: &mut S)
    requires { IsStep (L.past log.now) step.now }
    ensures { S.gains sink.old (places_say question.now.extensions (L.past log.now) question.now.request question.now.mode (found_of step.now)) sink.new }
{
    let page = question.request.va.page();
    if is_of_group(question, step) {
        say_group(log, question, step, page.index(0) / 16 * 16, sink);
    } else {
        say_place(log, question, step, page.index(step.level), sink);
    }
}

/// Whether it is a NAPOT leaf, which stands for a group of 16.
fn is_of_group(question: &Question, step: &Step) -> bool
    ensures { result ≡ is_of_group question.now.extensions (found_of step.now).read }
{
    question.extensions.svnapot && step.level == 0 && is_napot(step.entry)
}

/// Tells it by the places of 16 PTEs from an index on.
fn say_group<L: Log, S: Sink>(log: &L, question: &Question, step: &Step, first: usize, sink: &mut S)
    requires step { IsStep (L.past log.now) step.now }
    requires in_frame { first ≤ 496 }
    ensures { S.gains sink.old (group_says_since question.now (L.past log.now) (found_of step.now) first) sink.new }
{
    'group: for number in 0..16 {
        say_place(log, question, step, first + number, sink);
    }
}

/// Tells it by the updates in one place.
fn say_place<L: Log, S: Sink>(log: &L, question: &Question, step: &Step, index: usize, sink: &mut S)
    requires step { IsStep (L.past log.now) step.now }
    requires in_frame { index < 512 }
    ensures { S.gains sink.old (place_says_of question.now (L.past log.now) (found_of step.now) index) sink.new }
{
    if let Some(newest) = log.word_at(step.ppn, index, log.now()) {
        say_behind(log, question, step, index, newest, sink);
    }
}

/// Tells it by the updates in one place, from its newest word on.
fn say_behind<L: Log, S: Sink>(
    log: &L,
    question: &Question,
    step: &Step,
    index: usize,
    newest: PastWord,
    sink: &mut S,
)
    requires step { IsStep (L.past log.now) step.now }
    requires in_frame { index < 512 }
    requires newest { newest.since ≤ length (L.past log.now).events }
    ensures { S.gains sink.old (behind_say question.now (L.past log.now) (found_of step.now) newest.word
        (versions_before (L.past log.now).first.memory (L.past log.now).events step.now.ppn index newest.since)) sink.new }
{
    let mut newer = newest;
    let mut moment = log.now();
    'words: while newer.since > step.last {
        match log.word_at(step.ppn, index, newer.since - 1) {
            None => return,
            Some(older) => {
                say_update(log, question, step, older.word, newer.word, moment, sink);
                moment = newer.since - 1;
                newer = older;
            }
        }
    }
}

/// Tells it by a store of one word over another, if that sets A or D in the leaf. Memory had the word until a moment.
#[tactic(auto, unfolding(crate::specs::Judging::update_says_of))]
fn say_update<L: Log, S: Sink>(
    log: &L,
    question: &Question,
    step: &Step,
    was: u64,
    word: u64,
    last: usize,
    sink: &mut S,
)
    requires step { IsStep (L.past log.now) step.now }
    requires last { last ≤ length (L.past log.now).events }
    ensures { S.gains sink.old (if sets_ad step.now.entry was word then update_says_of question.now (L.past log.now) (found_of step.now) word else []) sink.new }
{
    if sets_ad(step.entry, Entry::from_word(was), Entry::from_word(word)) {
        let updated = Step {
            entry: Entry::from_word(word),
            last,
            ..*step
        };
        sink.note(updated);
        say(log, question, &updated, sink);
    }
}

/// Whether a store of one word over another sets A or D in a leaf.
fn sets_ad(leaf: Entry, was: Entry, word: Entry) -> bool
    ensures { result ≡ sets_ad leaf was word }
{
    is_with_ad(leaf, was) && is_with_ad(was, word) && was != word
}

/// Whether a word is another one, or that with A, or with A and D set.
fn is_with_ad(entry: Entry, word: Entry) -> bool
    ensures { result ≡ is_with_ad entry word }
{
    word == entry || word == with_ad(Access::Load, entry) || word == with_ad(Access::Store, entry)
}
