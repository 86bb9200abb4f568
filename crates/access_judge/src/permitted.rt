// Which outcomes an access may have, by the history of its hart: all of them (`outcomes`), or whether one is among them (`permits`).

ghost use Rattle.std.specs.Prelude.{◌≡◌, ◌↔◌, ◌≤◌, [], ◌∷◌, IsTrue, OnOk, length, if◌then◌else◌};
ghost use Rattle.std.specs.List.{Contains};
ghost use Rattle.walk_rules.specs.Addresses.{is_canonical, top_of};
ghost use Rattle.access_history.specs.Permits.{Permits, satp_of};
ghost use Rattle.access_judge.specs.Findings.{listed};
ghost use Rattle.access_judge.specs.Judging.{IsRootTable, root_says, table_says};
ghost use Rattle.access_judge.specs.Sifting.{Sifts};
ghost use Rattle.access_judge.specs.Listing.{EachOnce};
ghost use Rattle.access_judge.specs.Log.{use_of};
ghost use Rattle.access_judge.specs.Quiet.{IsOver};
ghost use Rattle.access_judge.specs.Search.{ArePermitted, IsUse, outcomes_by, page_fault, root_at, translated};

use crate::findings::{Findings, Seeker};
use crate::log::{Log, PastSatp};
use crate::question::{Question, Table, page_fault};
use crate::saying::end;
use crate::search::search_table;
use crate::seen::Seen;
use crate::sink::Sink;
use access_history::{Outcome, Request};
use std::alloc::AllocError;
use sv39_entry::Mode;
use walk_rules::{Extensions, MemoryType, is_canonical, top_level};

/// Lists the outcomes that the standard permits for an access, each once, with a way by which it comes about. What was listed before is
/// dropped.
pub fn outcomes<L: Log>(
    log: &L,
    extensions: Extensions,
    request: Request,
    findings: &mut Findings,
) -> Result<(), AllocError>
    requires { 1 ≤ request.width }
    ensures permitted { OnOk result (ArePermitted extensions (L.past log.now) request (listed findings.new)) }
    ensures once { OnOk result (EachOnce (listed findings.new)) }
{
    findings.clear();
    tell_outcomes(log, extensions, &request, findings);
    findings.finish()
}

/// Whether the standard permits an outcome of an access.
pub fn permits<L: Log>(log: &L, extensions: Extensions, request: Request, outcome: Outcome) -> bool
    requires { 1 ≤ request.width }
    ensures { IsTrue result ↔ Permits extensions (L.past log.now) request outcome }
{
    let mut seeker = Seeker {
        wanted: outcome,
        is_found: false,
    };
    tell_outcomes(log, extensions, &request, &mut seeker);
    seeker.is_found
}

/// Tells the outcomes of an access, some of them more than once.
pub fn tell_outcomes<L: Log, S: Sink>(
    log: &L,
    extensions: Extensions,
    request: &Request,
    sink: &mut S,
)
    requires { 1 ≤ request.now.width }
    ensures { S.gains sink.old (outcomes_by extensions (L.past log.now) (L.uses_of log.now) request.now) sink.new }
{
    if request.va.0 % request.width != 0 {
        sink.tell(Outcome::Refused {
            cause: request.kind.misaligned_cause(),
            update: None,
        });
        return;
    }
    let privilege = request.status.effective(request.privilege, request.kind);
    match (privilege.translation_mode(), top_level(log.satp())) {
        (Some(mode), Some(top)) => {
            tell_translated(log, extensions, request, mode, top, sink);
        }
        _ => end(log, request, request.va.0, MemoryType::Pma, None, sink),
    }
}

/// Tells the outcomes of an access whose address is translated, by tables from a level on.
fn tell_translated<L: Log, S: Sink>(
    log: &L,
    extensions: Extensions,
    request: &Request,
    mode: Mode,
    top: u32,
    sink: &mut S,
)
    requires { top ≤ 4 }
    ensures { S.gains sink.old (if is_canonical top request.now.va.0 then translated extensions (L.past log.now) (L.uses_of log.now) request.now mode
        else page_fault request.now ∷ []) sink.new }
{
    if is_canonical(top, request.va) {
        let question = Question {
            extensions,
            request: *request,
            mode,
        };
        tell_walks(log, &question, sink);
    } else {
        sink.tell(page_fault(request));
    }
}

/// Tells what walks come to.
fn tell_walks<L: Log, S: Sink>(log: &L, question: &Question, sink: &mut S)
    ensures { S.gains sink.old (translated question.now.extensions (L.past log.now) (L.uses_of log.now) question.now.request question.now.mode) sink.new }
{
    let mut seen = Seen::new();
    'uses: for number in 0..log.use_count() {
        let root = log.use_at(number);
        search_from(log, question, root, &mut seen, sink);
    }
}

/// Whether walks under a word that satp had serve no more.
fn is_over<L: Log>(log: &L, root: &PastSatp) -> bool
    ensures { IsTrue result → IsOver (L.past log.now) (use_of root.now) }
{
    (root.last < log.now() || root.satp.asid() != log.satp().asid()) && !log.may_be_global()
}

/// Tells what walks come to from the root of a word that satp had.
fn search_from<L: Log, S: Sink>(
    log: &L,
    question: &Question,
    root: PastSatp,
    seen: &mut Seen,
    sink: &mut S,
)
    requires { IsUse (L.past log.now).first.satp (L.past log.now).events (use_of root) }
    ensures { Sifts S.gains S.has (table_says question.now (L.past log.now)) sink.old seen.old (root_says question.now (L.past log.now) (use_of root)) sink.new seen.new }
{
    if is_over(log, &root) {
        return;
    }
    if let Some(table) = root_table(question, &root) {
        sink.begin(root);
        if sink.wants_each_root() {
            let mut own = Seen::new();
            search_table(log, question, &table, &mut own, sink);
        } else {
            search_table(log, question, &table, seen, sink);
        }
    }
}

/// Returns the table at which walks begin by a word that satp had, if the address is canonical under it.
fn root_table(question: &Question, root: &PastSatp) -> Option<Table>
    ensures { IsRootTable (root_at question.now.request.va.0 (use_of root.now) (top_of root.now.satp)) root.now.last result }
{
    match top_level(root.satp) {
        Some(level) if is_canonical(level, question.request.va) => Some(Table {
            level,
            ppn: root.satp.ppn(),
            asid: root.satp.asid(),
            global: false,
            epoch: root.epoch,
            last: root.last,
        }),
        _ => None,
    }
}
