// Laws of the search (specs/Search.antt): it is exact (`search_is_exact`), the history before a fence of everything may be dropped
// (`restart_is_exact`), and a worked example (`stale_leaf_is_found`).

ghost use Rattle.std.specs.Prelude.{◌≡◌, None, [], ◌∷◌};
ghost use Rattle.access_history.specs.Examples.{example_fence, example_first, example_hart, example_load, example_past, example_store};
ghost use Rattle.access_history.specs.declared.outcome.Outcome.TheVariants.{Granted};
ghost use Rattle.access_judge.specs.Search.{RestartIsExact, SearchIsExact, outcomes_by};
ghost use Rattle.walk_rules.specs.declared.memory_type.MemoryType.TheVariants.{Pma};

/// Over a history without a fence of everything, and by a list of all uses of satp, the search gives the outcomes that are permitted and no others.
pub fn search_is_exact()
    ensures { SearchIsExact }
{}

/// After a fence of everything the history before it may be dropped: what is permitted goes by memory, satp and the PMP entries as they were at
/// the fence, and by what happened since.
pub fn restart_is_exact()
    ensures { RestartIsExact }
{}

/// The worked example of `access_history`: a leaf was changed and no fence followed, so the search finds the new leaf and the old one (`stale`),
/// and after a fence of the page the new one alone (`fenced`).
pub fn stale_leaf_is_found()
    ensures stale { outcomes_by example_hart (example_past (example_store ∷ [])) (record { satp = example_first.satp; epoch = 0; last = 1 } ∷ [])
        example_load ≡ Granted 0x5000 Pma None ∷ Granted 0x4000 Pma None ∷ [] }
    ensures fenced { outcomes_by example_hart (example_past (example_fence ∷ example_store ∷ []))
        (record { satp = example_first.satp; epoch = 0; last = 2 } ∷ []) example_load ≡ Granted 0x5000 Pma None ∷ [] }
{}
