// The outcomes that the standard permits are those of all harts with a cache, of any size (`outcomes_are_of_harts`).

ghost use Rattle.std.specs.Prelude.{◌↔◌, List};
ghost use Rattle.access_history.specs.Harts.{Kept, Runs};
ghost use Rattle.access_history.specs.Permits.{Past, Permits};
ghost use Rattle.access_history.specs.declared.outcome.Outcome.{Outcome};
ghost use Rattle.access_history.specs.declared.outcome.Request.{Request};
ghost use Rattle.history_laws.specs.HartAnswers.{IsWithin, MayAnswer};
ghost use Rattle.walk_rules.specs.declared.extensions.Extensions.{Extensions};

/// An outcome is permitted exactly if some hart may answer it: one that at any moment reads one page table entry more by a walk and keeps it, at
/// any event loses what the event covers, and whatever else it likes, and has A or D set in a leaf that it kept, if the event sets them (`Runs`), and
/// goes by what it keeps. So what is permitted is the union over all harts with caches of any size (`same`). Five places for an address, one for each
/// level, are enough (`few`).
pub fn outcomes_are_of_harts()
    ensures same { (x : Extensions) (p : Past) (q : Request) (o : Outcome)
        → Permits x p q o ↔ ((cs : List Kept) × Runs x p.first q.va.0 p.events cs × MayAnswer x p q cs o) }
    ensures few { (x : Extensions) (p : Past) (q : Request) (o : Outcome) → Permits x p q o
        → (cs : List Kept) × (run : Runs x p.first q.va.0 p.events cs) × IsWithin 5 run × MayAnswer x p q cs o }
{}
