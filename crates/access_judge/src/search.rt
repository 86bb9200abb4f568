// The search: from a table on, through the words that the place of the address's PTE had, to the tables below (`search_table`). It goes through each
// table once, and through no words that are older than a leaf that a fence covers (`hides_older`).

ghost use Rattle.std.specs.Prelude.{◌≡◌, ◌<◌, ◌≤◌, ◌^◌, ◌==◌, ◌&&◌, IsTrue, length, true};
ghost use Rattle.sv39_entry.specs.declared.access.Access.TheVariants as access;
ghost use Rattle.walk_rules.specs.declared.status.Privilege.TheVariants as privilege;
ghost use Rattle.sv39_entry.specs.declared.entry.Kind.TheVariants.{Leaf};
ghost use Rattle.walk_rules.specs.Kinds.{is_napot, kind_in};
ghost use Rattle.access_judge.specs.Judging.{counts, IsStep, IsTable, entries_say, found_of, group_says, index_at, item_says, pointer_says};
ghost use Rattle.access_judge.specs.Judging.{stand_of, step_says, IsBelowTable, table_says, versions_of, word_says, words_say};
ghost use Rattle.access_judge.specs.Older.{HidesOlder};
ghost use Rattle.access_judge.specs.Sifting.{Sifts};
ghost use Rattle.access_judge.specs.Search.{below_of, found_by, is_kind, is_pointer, is_unread, may_pass, place_at, stands_now, stood, until};

use crate::judge::{is_leaf, is_napot, judge};
use crate::log::Log;
use crate::present::fails_now;
use crate::question::{Question, Table, access_fault};
use crate::seen::Seen;
use crate::sink::{Sink, Step};
use access_history::has_global;
use sv39_entry::{Access, Entry, Kind, PAGE_SIZE};
use walk_rules::Privilege;

/// Tells what walks come to from a table on.
#[cycle(walks)]
pub(crate) fn search_table<L: Log, S: Sink>(
    log: &L,
    question: &Question,
    table: &Table,
    seen: &mut Seen,
    sink: &mut S,
)
    requires { IsTable (L.past log.now) table.now }
    ensures { Sifts S.gains S.has (table_says question.now (L.past log.now)) sink.old seen.old (table_says question.now (L.past log.now) (stand_of table.now)) sink.new seen.new }
{
    tell_unread(log, question, table, sink);
    if is_readable(log, question, table) {
        search_entries(log, question, table, seen, sink);
    }
}

/// Returns the index of the address's PTE in a table.
fn index_in(question: &Question, table: &Table) -> usize
    ensures value { result ≡ index_at question.now (stand_of table.now) }
    ensures small { result < 512 }
{
    question.request.va.page().index(table.level)
}

/// Returns the physical address of the address's PTE in a table.
fn place_in(question: &Question, table: &Table) -> u64
    requires { table.now.ppn < 2 ^ 44 }
    ensures { result ≡ place_at question.now.request.va.0 (stand_of table.now) }
{
    table.ppn * PAGE_SIZE + index_in(question, table) as u64 * 8
}

/// Whether PMP may permit to read the PTE, at the table's moment.
fn is_readable<L: Log>(log: &L, question: &Question, table: &Table) -> bool
    requires { IsTable (L.past log.now) table.now }
    ensures { result ≡ may_pass (L.past log.now).first (until (L.past log.now).events table.now.last) privilege.Supervisor access.Load
        (place_at question.now.request.va.0 (stand_of table.now)) 8 }
{
    let place = place_in(question, table);
    log.may_pass(table.last, Privilege::Supervisor, Access::Load, place, 8)
}

/// Whether the PTE is outside memory, or PMP may refuse to read it, now.
fn is_unread<L: Log>(log: &L, question: &Question, table: &Table) -> bool
    requires { table.now.ppn < 2 ^ 44 }
    ensures { result ≡ is_unread (L.past log.now) question.now.request.va.0 (stand_of table.now) }
{
    log.word(table.ppn, index_in(question, table)).is_none()
        || fails_now(
            log,
            Privilege::Supervisor,
            Access::Load,
            place_in(question, table),
            8,
        )
}

/// Whether a walk of the present satp may be at a table now.
fn stands_now<L: Log>(log: &L, table: &Table) -> bool
    ensures { result ≡ stands_now (L.past log.now) (stand_of table.now) }
{
    table.last == log.now() && (table.asid == log.satp().asid() || table.global)
}

/// Tells of the access fault if the PTE may be unreadable now.
#[tactic(auto, unfolding(crate::specs::Judging::item_says))]
fn tell_unread<L: Log, S: Sink>(log: &L, question: &Question, table: &Table, sink: &mut S)
    requires { IsTable (L.past log.now) table.now }
    ensures { S.gains sink.old (item_says question.now (L.past log.now) (stood (stand_of table.now))) sink.new }
{
    if stands_now(log, table) && is_unread(log, question, table) {
        sink.tell(access_fault(&question.request));
    }
}

/// Tells what comes of the PTEs that a walk at a table may read.
#[cycle(walks)]
fn search_entries<L: Log, S: Sink>(
    log: &L,
    question: &Question,
    table: &Table,
    seen: &mut Seen,
    sink: &mut S,
)
    requires { IsTable (L.past log.now) table.now }
    ensures { Sifts S.gains S.has (table_says question.now (L.past log.now)) sink.old seen.old (entries_say question.now (L.past log.now) (stand_of table.now)) sink.new seen.new }
{
    let index = index_in(question, table);
    search_words(log, question, table, index, false, seen, sink);
    if has_groups(question, table) {
        search_group(log, question, table, index / 16 * 16, seen, sink);
    }
}

/// Whether one of 16 PTEs may be read for all of them.
fn has_groups(question: &Question, table: &Table) -> bool
    ensures { result ≡ (question.now.extensions.svnapot && table.now.level == 0) }
{
    question.extensions.svnapot && table.level == 0
}

/// Tells what comes of the NAPOT leaves in the group of 16 PTEs from an index on.
#[cycle(walks)]
fn search_group<L: Log, S: Sink>(
    log: &L,
    question: &Question,
    table: &Table,
    first: usize,
    seen: &mut Seen,
    sink: &mut S,
)
    requires table { IsTable (L.past log.now) table.now }
    requires in_frame { first ≤ 496 }
    ensures { Sifts S.gains S.has (table_says question.now (L.past log.now)) sink.old seen.old (group_says question.now (L.past log.now) (stand_of table.now) first) sink.new seen.new }
{
    'group: for number in 0..16 {
        search_words(log, question, table, first + number, true, seen, sink);
    }
}

/// Tells what comes of the words that a place had; with `napot`, of those that are NAPOT leaves.
#[cycle(walks)]
fn search_words<L: Log, S: Sink>(
    log: &L,
    question: &Question,
    table: &Table,
    index: usize,
    napot: bool,
    seen: &mut Seen,
    sink: &mut S,
)
    requires table { IsTable (L.past log.now) table.now }
    requires in_frame { index < 512 }
    ensures { Sifts S.gains S.has (table_says question.now (L.past log.now)) sink.old seen.old (words_say question.now (L.past log.now) (stand_of table.now) napot (versions_of (L.past log.now) (stand_of table.now) index)) sink.new seen.new }
{
    let mut moment = table.last;
    'words: while let Some(version) = log.word_at(table.ppn, index, moment) {
        search_word(
            log,
            question,
            table,
            index,
            version.word,
            moment,
            napot,
            seen,
            sink,
        );
        if version.since == 0 {
            return;
        }
        if hides_older(log, question, table, index, version.word, moment) {
            return;
        }
        moment = version.since - 1;
    }
}

/// Whether a fence covers a word that a place had until a moment, and so each older one.
fn hides_older<L: Log>(
    log: &L,
    question: &Question,
    table: &Table,
    index: usize,
    word: u64,
    last: usize,
) -> bool
    ensures { IsTrue result → HidesOlder question.now (L.past log.now) (stand_of table.now) index word last }
{
    table.level == 0
        && last < log.now()
        && index == index_in(question, table)
        && is_leaf(question, Entry::from_word(word), 0)
        && last < log.address_fence(PAGE_BITS, question.request.va, None)
}

/// Tells what comes of a word that the place of a PTE had until a moment.
#[cycle(walks)]
fn search_word<L: Log, S: Sink>(
    log: &L,
    question: &Question,
    table: &Table,
    index: usize,
    word: u64,
    last: usize,
    napot: bool,
    seen: &mut Seen,
    sink: &mut S,
)
    requires table { IsTable (L.past log.now) table.now }
    requires last { last ≤ length (L.past log.now).events }
    ensures { Sifts S.gains S.has (table_says question.now (L.past log.now)) sink.old seen.old (word_says question.now (L.past log.now) (stand_of table.now) napot (record { word = word; last = last })) sink.new seen.new }
{
    let step = step_of(table, index, Entry::from_word(word), last);
    if counts(question, table, &step, napot) {
        sink.note(step);
        search_step(log, question, table, &step, seen, sink);
    }
}

/// Tells what comes of a PTE that a walk at a table may read.
#[cycle(walks)]
fn search_step<L: Log, S: Sink>(
    log: &L,
    question: &Question,
    table: &Table,
    step: &Step,
    seen: &mut Seen,
    sink: &mut S,
)
    requires table { IsTable (L.past log.now) table.now }
    requires step { IsStep (L.past log.now) step.now }
    requires same { step.now.level ≡ table.now.level }
    ensures { Sifts S.gains S.has (table_says question.now (L.past log.now)) sink.old seen.old (step_says question.now (L.past log.now) (stand_of table.now) (found_of step.now)) sink.new seen.new }
{
    if is_pointer(question, step) {
        search_below(log, question, table, step, seen, sink);
    } else {
        judge(log, question, step, sink);
    }
}

/// Tells what walks come to from the table on to which a pointer leads.
#[cycle(walks)]
fn search_below<L: Log, S: Sink>(
    log: &L,
    question: &Question,
    table: &Table,
    step: &Step,
    seen: &mut Seen,
    sink: &mut S,
)
    requires table { IsTable (L.past log.now) table.now }
    requires step { IsStep (L.past log.now) step.now }
    requires same { step.now.level ≡ table.now.level }
    requires pointer { is_pointer question.now.extensions (found_of step.now) ≡ true }
    ensures { Sifts S.gains S.has (table_says question.now (L.past log.now)) sink.old seen.old (pointer_says question.now (L.past log.now) (stand_of table.now) (found_of step.now)) sink.new seen.new }
{
    let below = table_below(log, question, table, step);
    search_once(log, question, &below, seen, sink);
}

/// Tells what walks come to from a table on, if it was not searched before.
#[cycle(walks)]
fn search_once<L: Log, S: Sink>(
    log: &L,
    question: &Question,
    table: &Table,
    seen: &mut Seen,
    sink: &mut S,
)
    requires { IsTable (L.past log.now) table.now }
    ensures { Sifts S.gains S.has (table_says question.now (L.past log.now)) sink.old seen.old (table_says question.now (L.past log.now) (stand_of table.now)) sink.new seen.new }
{
    if seen.has(table) {
        return;
    }
    search_table(log, question, table, seen, sink);
    seen.add(table);
}

/// Whether a PTE is a pointer.
fn is_pointer(question: &Question, step: &Step) -> bool
    requires { step.now.level ≤ 4 }
    ensures { result ≡ is_pointer question.now.extensions (found_of step.now) }
{
    match question.extensions.kind(step.entry, step.level) {
        Kind::Pointer => true,
        Kind::Invalid | Kind::Leaf => false,
    }
}

/// Whether a walk at a table may read a PTE, by the fences of its ASID. With `napot` it must be a NAPOT leaf.
fn counts(question: &Question, table: &Table, step: &Step, napot: bool) -> bool
    ensures { result ≡ counts question.now (stand_of table.now) napot (found_of step.now) }
{
    (!napot || is_napot_leaf(question, step.entry)) && (step.global || table.epoch <= step.last)
}

/// Returns the table to which a pointer leads, until the last moment at which a walk may go on by it.
fn table_below<L: Log>(log: &L, question: &Question, table: &Table, step: &Step) -> Table
    requires table { IsTable (L.past log.now) table.now }
    requires step { IsStep (L.past log.now) step.now }
    requires same { step.now.level ≡ table.now.level }
    requires pointer { is_pointer question.now.extensions (found_of step.now) ≡ true }
    ensures { IsBelowTable (L.past log.now) (below_of (L.past log.now).events (stand_of table.now) (found_of step.now).read) table.now.level result }
{
    Table {
        level: step.level - 1,
        ppn: step.entry.ppn(),
        asid: step.asid,
        global: step.global,
        epoch: table.epoch,
        last: if step.global { log.now() } else { table.last },
    }
}

/// How many low bits a leaf in a last table leaves alone: it maps 4 KiB.
const PAGE_BITS: u32 = 12;

/// Whether a PTE in a last table is a NAPOT leaf.
fn is_napot_leaf(question: &Question, entry: Entry) -> bool
    ensures { result ≡ (is_napot 0 entry && is_kind (kind_in question.now.extensions 0 entry) Leaf) }
{
    is_napot(entry) && is_leaf(question, entry, 0)
}

/// Returns the PTE of a table with a word that memory had until a moment.
fn step_of(table: &Table, index: usize, entry: Entry, last: usize) -> Step
    ensures found { found_of result ≡ found_by (stand_of table.now) (record { word = entry; last = last }) }
    ensures level { result.level ≡ table.now.level }
    ensures ppn { result.ppn ≡ table.now.ppn }
    ensures last { result.last ≡ last }
{
    Step {
        level: table.level,
        ppn: table.ppn,
        index,
        entry,
        last,
        asid: table.asid,
        global: table.global || has_global(entry),
    }
}
