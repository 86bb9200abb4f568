// Looks for a way to the outcome that a client tells (`seek`; all: `ways_to`), by which it is refused (`seek_refusal`), or by a PTE (`seek_by`).

ghost use Rattle.std.specs.Prelude.{◌≤◌};

use crate::ways::{LEVELS, end_of, step_at};
use access_history::{Outcome, Request};
use access_judge::{Log, PastSatp, Sink, Step, Told, Way, tell_outcomes};
use mmu_requests::Claim;
use sv39_entry::{Kind, Va};
use walk_rules::{AdScheme, Extensions, leads_to};

/// What is looked for.
#[derive(Clone, Copy)]
enum Aim {
    /// The outcome that a client tells, by the PTE that it tells.
    Claimed(Claim),
    /// A refusal by a leaf that gives a physical address to a virtual one.
    RefusedAt { va: Va, pa: u64 },
    /// Any outcome by a PTE, by its word.
    By(u64),
}

/// The most ways that are gathered.
pub(crate) const MOST_WAYS: usize = 32;

/// Looks for the way, to what is looked for, on which the oldest is newest.
#[derive(Drop)]
struct Seeking {
    extensions: Extensions,
    aim: Aim,
    /// Whether the ways from each root are wanted.
    each_root: bool,
    way: Way,
    found: Option<Told>,
    /// The moment of what is oldest on the way to it.
    moment: usize,
    /// The first ways, from the front on.
    ways: [Option<Told>; MOST_WAYS],
    /// How many these are.
    count: usize,
}

impl Seeking {
    /// Keeps the present way to an outcome, if it is one of the first.
    fn keep(&mut self, outcome: Outcome) {
        let (way, count) = (self.way, self.count);
        if count < MOST_WAYS {
            self.ways[count] = Some(Told { outcome, way });
            self.count = count + 1;
        }
    }
}

impl Sink for Seeking {
    ghost use Rattle.mmu_reasons.specs.Seeking.{Has, Sought, has_still, has_told, sought_again, sought_nothing, sought_on};

    ghost gains = { Sought };

    ghost has = { Has };

    ghost gains_nothing = { sought_nothing };

    ghost gains_on = { sought_on };

    ghost has_told = { has_told };

    ghost has_still = { has_still };

    ghost gains_again = { sought_again };

    fn wants_each_root(&self) -> bool {
        self.each_root
    }

    fn begin(&mut self, root: PastSatp) {
        self.way = Way {
            root: Some(root),
            steps: [None; 5],
        };
    }

    fn note(&mut self, step: Step) {
        let level = step.level as usize;
        if level < 5 {
            self.way.steps[level] = Some(step);
            if level > 0 {
                self.way.steps[level - 1] = None;
            }
        }
    }

    fn tell(&mut self, outcome: Outcome) {
        let end = end_of(self.extensions, &self.way);
        if !is_sought(self.extensions, &self.aim, outcome, &end) {
            return;
        }
        self.keep(outcome);
        let way = self.way;
        let moment = oldest(&way);
        if self.found.is_none() || moment > self.moment {
            self.found = Some(Told { outcome, way });
            self.moment = moment;
        }
    }
}

/// Whether a leaf gives a physical address to a virtual one.
fn is_leaf_to(extensions: Extensions, step: &Step, va: Va, pa: u64) -> bool {
    step.level <= 4
        && extensions.kind(step.entry, step.level) == Kind::Leaf
        && leads_to(step.entry, step.level, va) == pa
}

/// Whether an outcome is looked for, of a walk that ends at a PTE.
fn is_sought(extensions: Extensions, aim: &Aim, outcome: Outcome, end: &Option<Step>) -> bool {
    match (aim, end) {
        (Aim::Claimed(claim), Some(step)) => {
            claim.is_outcome(outcome) && claim.is_by(Some(step.entry.to_word()))
        }
        (Aim::Claimed(claim), None) => claim.is_outcome(outcome) && claim.is_by(None),
        (Aim::RefusedAt { va, pa }, Some(step)) => {
            matches!(outcome, Outcome::Refused { .. }) && is_leaf_to(extensions, step, *va, *pa)
        }
        (Aim::By(word), Some(step)) => step.entry.to_word() == *word,
        (Aim::RefusedAt { .. } | Aim::By(_), None) => false,
    }
}

/// Returns the moment of what is oldest on a way.
pub(crate) fn oldest(way: &Way) -> usize {
    let mut moment = match &way.root {
        Some(root) => root.last,
        None => usize::MAX,
    };
    'levels: for level in 0..LEVELS {
        if let Some(step) = step_at(way, level) {
            moment = moment.min(step.last);
        }
    }
    moment
}

/// Looks through the outcomes of an access.
fn seek_aim<L: Log>(
    log: &L,
    extensions: Extensions,
    request: Request,
    aim: Aim,
    each_root: bool,
) -> Seeking
    requires { 1 ≤ request.width }
{
    let mut seeking = Seeking {
        extensions,
        aim,
        each_root,
        way: Way {
            root: None,
            steps: [None; 5],
        },
        found: None,
        moment: 0,
        ways: [None; MOST_WAYS],
        count: 0,
    };
    tell_outcomes(log, extensions, &request, &mut seeking);
    seeking
}

/// Returns the ways to the outcome that a client tells, from each root; of very many the first that the search comes by.
pub(crate) fn ways_to<L: Log>(
    log: &L,
    extensions: Extensions,
    request: Request,
    claim: Claim,
) -> [Option<Told>; MOST_WAYS]
    requires { 1 ≤ request.width }
{
    seek_aim(log, extensions, request, Aim::Claimed(claim), true).ways
}

/// Returns the outcome that a client tells with the way on which the oldest is newest; `None` if the search comes by none.
pub fn seek<L: Log>(log: &L, extensions: Extensions, request: Request, claim: Claim) -> Option<Told>
    requires { 1 ≤ request.width }
{
    seek_aim(log, extensions, request, Aim::Claimed(claim), false).found
}

/// Returns a refusal by a leaf that leads to a physical address, also one by A or D alone; `None` if there is none.
pub fn seek_refusal<L: Log>(
    log: &L,
    extensions: Extensions,
    request: Request,
    pa: u64,
) -> Option<Told>
    requires { 1 ≤ request.width }
{
    let (ad, va) = (AdScheme::Either, request.va);
    let aim = Aim::RefusedAt { va, pa };
    seek_aim(log, Extensions { ad, ..extensions }, request, aim, false).found
}

/// Returns an outcome by a PTE, by its word, also one by A or D alone; `None` if there is none.
pub fn seek_by<L: Log>(log: &L, extensions: Extensions, request: Request, word: u64) -> Option<Told>
    requires { 1 ≤ request.width }
{
    let ad = AdScheme::Either;
    let aim = Aim::By(word);
    seek_aim(log, Extensions { ad, ..extensions }, request, aim, false).found
}
