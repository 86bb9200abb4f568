// Laws of the world (the model's whole state) in every run since boot: no process has one copy number (names one copy of a
// page in memory) at two pages, and the counter is above all of them; the translation scheme (Sv39 or Sv48) of the world and
// of its processes stays.
ghost use Rattle.std.specs.Prelude.{◌≡◌, List};
ghost use Rattle.process_laws.specs.DisjointRegions.{EachProcess};
ghost use Rattle.process_laws.specs.CopyNumbers.{HasNewCopies};
ghost use Rattle.process_model.specs.Files.{File};
ghost use Rattle.process_model.specs.Steps.{run};
ghost use Rattle.process_model.specs.World.{booted};
ghost use Rattle.process_model.specs.declared.config.Config.{Config};
ghost use Rattle.process_model.specs.declared.step.Step.{Step};

/// After any list of steps since boot, the counter is above all copy numbers, and no process has one copy number at two
/// pages.
pub fn copy_numbers_are_new()
    ensures { (c : Config) (files : List File) (steps : List Step) → HasNewCopies (run (booted c files) steps).world }
{}

/// After any list of steps since boot, the world and each process have the scheme of translation of the boot configuration.
pub fn schemes_stay()
    ensures world { (c : Config) (files : List File) (steps : List Step) → (run (booted c files) steps).world.scheme ≡ c.scheme }
    ensures processes { (c : Config) (files : List File) (steps : List Step) → EachProcess (λ p. p.scheme ≡ c.scheme) (run (booted c files) steps).world }
{}
