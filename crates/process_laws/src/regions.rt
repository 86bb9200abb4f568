// Laws of regions (runs of pages with their rights). For one access: `first_rule` gives a rule if and only if it is the
// first of the nine rules to deny the access. For every run since boot: the regions of each process are in ascending order,
// and no page is in two of them.
ghost use Rattle.std.specs.Prelude.{◌≡◌, ℕ, List, None, Some};
ghost use Rattle.process_laws.specs.DisjointRegions.{AreApart, EachProcess};
ghost use Rattle.process_laws.specs.RuleDenials.{Denies, IsFirst};
ghost use Rattle.sv39_entry.specs.declared.scheme.Scheme.{Scheme};
ghost use Rattle.process_model.specs.Files.{File};
ghost use Rattle.process_model.specs.Order.{IsInOrder};
ghost use Rattle.process_model.specs.Process.{regions};
ghost use Rattle.process_model.specs.Regions.{first_rule, Region};
ghost use Rattle.process_model.specs.Steps.{run};
ghost use Rattle.process_model.specs.World.{booted};
ghost use Rattle.process_model.specs.declared.config.Config.{Config};
ghost use Rattle.process_model.specs.declared.step.Step.{Step};
ghost use Rattle.sv39_entry.specs.declared.access.Access.{Access};
ghost use Rattle.sv39_entry.specs.declared.rule.Rule.{Rule};

/// `first_rule` gives a rule exactly when that rule denies the access and no rule before it does (`denied`, `first`). If it
/// gives none, no rule denies the access (`granted`).
pub fn first_rule_is_first()
    ensures denied { (s : Scheme) (rs : List Region) (access : Access) (address width : ℕ) (rule : Rule)
        → first_rule s rs access address width ≡ Some rule → IsFirst s rs access address width rule }
    ensures first { (s : Scheme) (rs : List Region) (access : Access) (address width : ℕ) (rule : Rule)
        → IsFirst s rs access address width rule → first_rule s rs access address width ≡ Some rule }
    ensures granted { (s : Scheme) (rs : List Region) (access : Access) (address width : ℕ) (rule : Rule)
        → first_rule s rs access address width ≡ None → Denies s rs access address width rule → ⊥ }
{}

/// After any list of steps since boot, the regions of each process are in order (`IsInOrder`): the parts of its image
/// (segments, guard, stack), the heap and the mappings, each above the one before it, and all below the trapframe. Each part
/// and each mapping has at least one page, and rights that a leaf can have or, as a guard, none. Only mappings have pages of
/// a file, below offset `LONGEST_MAPPING`.
pub fn regions_stay_in_order()
    ensures { (c : Config) (files : List File) (steps : List Step) → EachProcess IsInOrder (run (booted c files) steps).world }
{}

/// After any list of steps since boot, no page is in two regions of a process.
pub fn regions_never_meet()
    ensures { (c : Config) (files : List File) (steps : List Step) → EachProcess (λ p. AreApart (regions p)) (run (booted c files) steps).world }
{}
