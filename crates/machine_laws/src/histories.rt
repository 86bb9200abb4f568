// The steps of a machine make a history at each of its harts (`harts_have_histories`).

ghost use Rattle.std.specs.Prelude.{ℕ, List, []};
ghost use Rattle.access_history.specs.History.{First};
ghost use Rattle.access_history.specs.declared.event.Event.{Event};
ghost use Rattle.hart_machine.specs.BufferEntries.{IsInWorld};
ghost use Rattle.hart_machine.specs.Buffers.{BuffersAre};
ghost use Rattle.hart_machine.specs.Runs.{BuffersFollow};
ghost use Rattle.hart_machine.specs.declared.machine.Machine.{Machine};
ghost use Rattle.machine_laws.specs.HartHistories.{HasHistory};
ghost use Rattle.machine_laws.specs.MachineEvents.{after_step};
ghost use Rattle.machine_laws.specs.MachineStates.{first_on};
ghost use Rattle.machine_laws.specs.RunHistories.{after_run};
ghost use Rattle.process_model.specs.Files.{File};
ghost use Rattle.process_model.specs.Steps.{step};
ghost use Rattle.process_model.specs.World.{World, booted};
ghost use Rattle.process_model.specs.declared.config.Config.{Config};
ghost use Rattle.process_model.specs.declared.reply.Reply.{Reply};
ghost use Rattle.process_model.specs.declared.step.Step.{Step};

/// At boot nothing has happened at a hart (`boots`). A step adds its events (`after_step`) to the history of each hart (`steps`): the premises are what
/// `Machine::step` ensures by its clauses `made` and `each_buffer`. So do the steps of a run (`runs`), by the clause `each_buffer` of `Machine::run`.
pub fn harts_have_histories()
    ensures boots { (m : Machine) (c : Config) (files : List File) (k : ℕ) → IsInWorld m (booted c files) → HasHistory m k (first_on m k) [] }
    ensures steps { (old new : Machine) (w : World) (s : Step) (reply : Reply) (k : ℕ) (f : First) (h : List Event) (is : IsInWorld old w)
        → IsInWorld new (step w s).world → BuffersAre old new (is.world).tables (is.world).kernel s reply → HasHistory old k f h
        → HasHistory new k f (after_step old new s reply k h) }
    ensures runs { (old new : Machine) (w : World) (steps : List Step) (k : ℕ) (f : First) (h : List Event) → IsInWorld old w
        → (follow : BuffersFollow old w steps new) → HasHistory old k f h → HasHistory new k f (after_run k old w steps new follow h) }
{}
