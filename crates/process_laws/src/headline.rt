// The headline theorem (what a process may rely on, `specs/Headline.antt`), as a law: in every run since boot the model's
// replies meet it.
ghost use Rattle.std.specs.Prelude.{List};
ghost use Rattle.process_laws.specs.Headline.{Headline};
ghost use Rattle.process_model.specs.Files.{File};
ghost use Rattle.process_model.specs.Steps.{run};
ghost use Rattle.process_model.specs.World.{booted};
ghost use Rattle.process_model.specs.declared.config.Config.{Config};
ghost use Rattle.process_model.specs.declared.step.Step.{Step};

/// For all lists of steps `earlier` since boot and `steps` after them, under any configuration and files, the replies of the
/// model to `steps` meet the headline (`specs/Headline.antt`).
pub fn headline_holds()
    ensures { (c : Config) (files : List File) (earlier steps : List Step)
        → Headline c files earlier steps (run (run (booted c files) earlier).world steps).replies }
{}
