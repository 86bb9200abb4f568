// The outcomes that a history permits for an access, in a caller's array (`outcomes`).

ghost use Rattle.std.specs.Prelude.{◌≡◌, ◌<◌, ◌≤◌, ◌↔◌, ℕ, IsTrue, None, Some, length, slice_get};
ghost use Rattle.std.specs.List.{Contains};
ghost use Rattle.access_history.specs.Permits.{Permits};
ghost use Rattle.access_history.specs.declared.outcome.Outcome.{Outcome};
ghost use Rattle.lent_history.specs.Judging.{AreNew};
ghost use Rattle.lent_history.specs.Lent.{past_of};
ghost use Rattle.lent_history.specs.Numbers.{numbers_of};

use crate::history::LentHistory;
use crate::numbers::LentOutcome;
use access_history::{Outcome, Request};
use access_judge::{PastSatp, Sink, Step, search_is_exact, tell_outcomes};
use std::marker::Model;
use walk_rules::Extensions;

/// Looks for an outcome whose numbers are not among known ones.
#[derive(Drop)]
struct Finder<'a> {
    known: &'a [LentOutcome],
    found: Option<Outcome>,
}

impl<'a> Model for Finder<'a> {
    ghost use Rattle.lent_history.specs.Judging.{Finding};

    ghost Value = { Finding };

    ghost view = { λ f. record { known = f.known.now; found = f.found } };
}

impl Sink for Finder<'_> {
    ghost use Rattle.lent_history.specs.Judging.{Finds, Has, finds_again, finds_nothing, finds_on, has_still, has_told};

    ghost gains = { Finds };

    ghost has = { Has };

    ghost gains_nothing = { finds_nothing };

    ghost gains_on = { finds_on };

    ghost has_told = { has_told };

    ghost has_still = { has_still };

    ghost gains_again = { finds_again };

    fn begin(&mut self, _root: PastSatp) {}

    fn note(&mut self, _step: Step) {}

    fn tell(&mut self, outcome: Outcome) {
        self.found = found_after(self.known, self.found, outcome);
    }
}

fn found_after(known: &[LentOutcome], found: Option<Outcome>, outcome: Outcome) -> Option<Outcome>
    ensures { AreNew known.now found outcome result }
{
    if found.is_some() || is_known(known, outcome) {
        found
    } else {
        Some(outcome)
    }
}

fn is_known(known: &[LentOutcome], outcome: Outcome) -> bool
    ensures { IsTrue result ↔ Contains known.now (numbers_of outcome) }
{
    known.contains(&LentOutcome::of(outcome))
}

/// Returns an outcome that the history permits for an access, and whose numbers are not among known ones; `None` if there is no other.
fn next_outcome(
    history: &LentHistory,
    extensions: Extensions,
    request: &Request,
    known: &[LentOutcome],
) -> Option<Outcome>
    requires { 1 ≤ request.now.width }
    ensures some { (o : Outcome) → result ≡ Some o
        → Permits extensions (past_of history.now) request.now o × (Contains known.now (numbers_of o) → ⊥) }
    ensures none { result ≡ None → (o : Outcome) → Permits extensions (past_of history.now) request.now o → Contains known.now (numbers_of o) }
{
    search_is_exact();
    let mut finder = Finder { known, found: None };
    tell_outcomes(history, extensions, request, &mut finder);
    finder.found
}

/// Lists the outcomes that a history permits for an access in the first places. Returns how many there are; one more than there are places, if there
/// are more than that.
pub fn outcomes(
    history: &LentHistory,
    extensions: Extensions,
    request: &Request,
    places: &mut [LentOutcome],
) -> usize
    requires { 1 ≤ request.now.width }
    ensures only { (n : ℕ) → n < result → n < length places.new
        → (o : Outcome) × Permits extensions (past_of history.now) request.now o × (slice_get places.new n ≡ Some (numbers_of o)) }
    ensures each { result ≤ length places.new → (o : Outcome) → Permits extensions (past_of history.now) request.now o
        → (n : ℕ) × (n < result) × (slice_get places.new n ≡ Some (numbers_of o)) }
    ensures more { length places.new < result
        → (o : Outcome) × Permits extensions (past_of history.now) request.now o × (Contains places.new (numbers_of o) → ⊥) }
    ensures rest { (n : ℕ) → result ≤ n → slice_get places.new n ≡ slice_get places.old n }
{
    'places: for count in 0..places.len() {
        let Some(outcome) = next_outcome(history, extensions, request, &places[..count]) else {
            return count;
        };
        places[count] = LentOutcome::of(outcome);
    }
    match next_outcome(history, extensions, request, places) {
        Some(_) => places.len() + 1,
        None => places.len(),
    }
}
