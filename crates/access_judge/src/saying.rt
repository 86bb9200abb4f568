// What a page table entry that serves an access says (`say`), and what an access to its physical address comes to (`end`).

ghost use Rattle.std.specs.Prelude.{◌≡◌, ◌<◌, ◌≤◌, ◌^◌, ◌&&◌, ◌||◌, not, None, Some, [], ◌∷◌, if◌then◌else◌};
ghost use Rattle.sv39_entry.specs.declared.access.Access.TheVariants as access;
ghost use Rattle.walk_rules.specs.Kinds.{may_update};
ghost use Rattle.walk_rules.specs.declared.status.Privilege.TheVariants as privilege;
ghost use Rattle.access_history.specs.Permits.{index_of, is_there, memory_of, place, privilege_of, update};
ghost use Rattle.access_judge.specs.Judging.{IsStep, found_of};
ghost use Rattle.access_judge.specs.Search.{access_fault, ends, ends_by, faults_by, granted_if, is_word, may_fail, may_pass, refused_if, says, updates_by};

use crate::judge::is_leaf;
use crate::log::Log;
use crate::present::{fails_now, passes_now};
use crate::question::{Question, access_fault, page_fault};
use crate::sink::{Sink, Step};
use access_history::{Outcome, Request, Update};
use sv39_entry::{Access, PAGE_SIZE};
use walk_rules::{MemoryType, Privilege, has_ad, leads_to, with_ad};

/// Tells what an entry that serves says.
pub(crate) fn say<L: Log, S: Sink>(log: &L, question: &Question, step: &Step, sink: &mut S)
    requires { IsStep (L.past log.now) step.now }
    ensures { S.gains sink.old (says question.now.extensions (L.past log.now) question.now.request question.now.mode (found_of step.now).read) sink.new }
{
    let request = &question.request;
    if !is_leaf(question, step.entry, step.level)
        || !request
            .status
            .allows(question.mode, request.kind, step.entry, step.level)
    {
        sink.tell(page_fault(request));
    } else if has_ad(request.kind, step.entry) {
        end_by(log, request, step, None, sink);
    } else {
        say_fault(question, sink);
        say_update(log, question, step, sink);
    }
}

/// Tells of the page fault if A and D are left to software.
fn say_fault<S: Sink>(question: &Question, sink: &mut S)
    ensures { S.gains sink.old (faults_by question.now.extensions question.now.request) sink.new }
{
    if question.extensions.ad.may_fault() {
        sink.tell(page_fault(&question.request));
    }
}

/// Tells what comes of an update of A and D.
fn say_update<L: Log, S: Sink>(log: &L, question: &Question, step: &Step, sink: &mut S)
    requires { IsStep (L.past log.now) step.now }
    ensures { S.gains sink.old (updates_by question.now.extensions (L.past log.now) question.now.request (found_of step.now).read) sink.new }
{
    if can_update(log, question, step) {
        pass_update(log, &question.request, step, sink);
        fail_update(log, &question.request, step, sink);
    }
}

/// Whether the hart may update A and D: memory must have the leaf as it was read.
fn can_update<L: Log>(log: &L, question: &Question, step: &Step) -> bool
    ensures { result ≡ (may_update question.now.extensions.ad
        && is_word (memory_of (L.past log.now) step.now.ppn (index_of question.now.request (found_of step.now).read)) step.now.entry) }
{
    let index = question.request.va.page().index(step.level);
    question.extensions.ad.may_update()
        && match log.word(step.ppn, index) {
            None => false,
            Some(word) => word == step.entry.to_word(),
        }
}

/// Returns the physical address of the entry for the access's address.
fn place_of(request: &Request, step: &Step) -> u64
    requires { step.now.ppn < 2 ^ 44 }
    ensures { result ≡ place request.now (found_of step.now).read }
{
    step.ppn * PAGE_SIZE + request.va.page().index(step.level) as u64 * 8
}

/// Tells what the access comes to if PMP permits the update.
fn pass_update<L: Log, S: Sink>(log: &L, request: &Request, step: &Step, sink: &mut S)
    requires { IsStep (L.past log.now) step.now }
    ensures { S.gains sink.old (if may_pass (L.past log.now).first (L.past log.now).events privilege.Supervisor access.Store (place request.now (found_of step.now).read) 8
        then ends_by (L.past log.now) request.now (found_of step.now).read (Some (update request.now (found_of step.now).read)) else []) sink.new }
{
    let place = place_of(request, step);
    if passes_now(log, Privilege::Supervisor, Access::Store, place, 8) {
        end_by(log, request, step, Some(update_of(request, step)), sink);
    }
}

/// Tells of the access fault if PMP refuses the update.
fn fail_update<L: Log, S: Sink>(log: &L, request: &Request, step: &Step, sink: &mut S)
    requires { IsStep (L.past log.now) step.now }
    ensures { S.gains sink.old (if may_fail (L.past log.now).first (L.past log.now).events privilege.Supervisor access.Store (place request.now (found_of step.now).read) 8
        then access_fault request.now ∷ [] else []) sink.new }
{
    let place = place_of(request, step);
    if fails_now(log, Privilege::Supervisor, Access::Store, place, 8) {
        sink.tell(access_fault(request));
    }
}

fn update_of(request: &Request, step: &Step) -> Update
    ensures { result ≡ update request.now (found_of step.now).read }
{
    Update {
        table: step.ppn,
        index: request.va.page().index(step.level),
        word: with_ad(request.kind, step.entry).to_word(),
    }
}

/// Tells what the access comes to at the physical address to which a leaf leads.
fn end_by<L: Log, S: Sink>(
    log: &L,
    request: &Request,
    step: &Step,
    update: Option<Update>,
    sink: &mut S,
)
    requires { IsStep (L.past log.now) step.now }
    ensures { S.gains sink.old (ends_by (L.past log.now) request.now (found_of step.now).read update) sink.new }
{
    if let Some(memory_type) = MemoryType::of_entry(step.entry) {
        let pa = leads_to(step.entry, step.level, request.va);
        end(log, request, pa, memory_type, update, sink);
    }
}

/// Tells what the access comes to at a physical address.
pub(crate) fn end<L: Log, S: Sink>(
    log: &L,
    request: &Request,
    pa: u64,
    memory_type: MemoryType,
    update: Option<Update>,
    sink: &mut S,
)
    ensures { S.gains sink.old (ends (L.past log.now) request.now pa memory_type update) sink.new }
{
    let there = has_byte(log, pa);
    let passes = may_grant(log, request, pa, there);
    let fails = may_refuse(log, request, pa, there);
    grant(passes, pa, memory_type, update, sink);
    refuse(fails, request, update, sink);
}

/// Whether the byte at a physical address is in memory.
fn has_byte<L: Log>(log: &L, pa: u64) -> bool
    ensures { result ≡ is_there (L.past log.now) pa }
{
    log.word(pa / PAGE_SIZE, (pa % PAGE_SIZE / 8) as usize)
        .is_some()
}

fn may_grant<L: Log>(log: &L, request: &Request, pa: u64, there: bool) -> bool
    ensures { result ≡ (there && may_pass (L.past log.now).first (L.past log.now).events (privilege_of request.now) request.now.kind pa request.now.width) }
{
    let privilege = request.status.effective(request.privilege, request.kind);
    there && passes_now(log, privilege, request.kind, pa, request.width)
}

fn may_refuse<L: Log>(log: &L, request: &Request, pa: u64, there: bool) -> bool
    ensures { result ≡ (not there || may_fail (L.past log.now).first (L.past log.now).events (privilege_of request.now) request.now.kind pa request.now.width) }
{
    let privilege = request.status.effective(request.privilege, request.kind);
    !there || fails_now(log, privilege, request.kind, pa, request.width)
}

fn grant<S: Sink>(
    passes: bool,
    pa: u64,
    memory_type: MemoryType,
    update: Option<Update>,
    sink: &mut S,
)
    ensures { S.gains sink.old (granted_if passes pa memory_type update) sink.new }
{
    if passes {
        sink.tell(Outcome::Granted {
            pa,
            memory_type,
            update,
        });
    }
}

/// Tells of the access fault, with the update of A and D and without.
fn refuse<S: Sink>(fails: bool, request: &Request, update: Option<Update>, sink: &mut S)
    ensures { S.gains sink.old (refused_if fails request.now.kind update) sink.new }
{
    if !fails {
        return;
    }
    match update {
        None => sink.tell(access_fault(request)),
        Some(_) => {
            sink.tell(Outcome::Refused {
                cause: request.kind.access_fault_cause(),
                update,
            });
            sink.tell(access_fault(request));
        }
    }
}
