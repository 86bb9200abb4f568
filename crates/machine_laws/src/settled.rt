// While no step changes the page tables that a hart walks, the standard permits any hart in its place the machine's walk alone (`settled_machine_walks`).

ghost use Rattle.std.specs.Prelude.{◌≡◌, ◌↔◌, ℕ, false, true, List, Some, slice_get};
ghost use Rattle.access_history.specs.History.{First};
ghost use Rattle.access_history.specs.Permits.{Permits};
ghost use Rattle.access_history.specs.declared.event.Event.{Event};
ghost use Rattle.access_history.specs.declared.outcome.Outcome.{Outcome};
ghost use Rattle.access_history.specs.declared.outcome.Request.{Request};
ghost use Rattle.hart_machine.specs.BufferEntries.{IsInWorld};
ghost use Rattle.hart_machine.specs.Tables.{present_table, tables_of};
ghost use Rattle.hart_machine.specs.declared.hart.Hart.{Hart};
ghost use Rattle.hart_machine.specs.declared.machine.Machine.{Machine};
ghost use Rattle.history_laws.specs.PlainWalks.{IsPlainAccess, IsPlainHart, IsSettled, outcome_of};
ghost use Rattle.machine_laws.specs.HartHistories.{HasHistory};
ghost use Rattle.machine_laws.specs.MachineEvents.{after_step};
ghost use Rattle.machine_laws.specs.MachineStates.{satp_on};
ghost use Rattle.machine_laws.specs.SettledTables.{HaveSameTables};
ghost use Rattle.process_model.specs.Harts.{is_before_fence};
ghost use Rattle.process_model.specs.Steps.{is_refused, step};
ghost use Rattle.process_model.specs.World.{World};
ghost use Rattle.process_model.specs.declared.config.Policy.TheVariants.{Full};
ghost use Rattle.process_model.specs.declared.reply.Reply.{Reply};
ghost use Rattle.process_model.specs.declared.step.Step.{Step};
ghost use Rattle.process_model.specs.declared.step.Step.TheVariants.{Next};
ghost use Rattle.sv39_entry.specs.Address.{page_of};
ghost use Rattle.sv39_entry.specs.declared.access.Mode.{Mode};
ghost use Rattle.table_walk.specs.Leaves.{walk_answer};
ghost use Rattle.walk_rules.specs.declared.extensions.AdScheme.TheVariants.{Svade};
ghost use Rattle.walk_rules.specs.declared.extensions.Extensions.{Extensions};

/// Policy `full`: each fence of kernel entry and return settles all pages of the hart that makes it (`fences`). A page stays settled by a step that leaves
/// the hart's satp, and each word of the page tables that it names (`stays`). While a page is settled, an outcome is permitted exactly if it is that of
/// the machine's walk (`walks`), whatever a hart in place of the machine's caches: pointers too. With Svade, so that A and D are never set.
///
/// That a step of another hart leaves these words is no clause of `Machine::step`: `KeepsTables` says which leaves stay, not in which frames the tables are.
pub fn settled_machine_walks()
    ensures fences { (old new : Machine) (x : Hart) (reply : Reply) (k page : ℕ) (f : First) (h : List Event) → old.policy ≡ Full
        → slice_get old.harts.items k ≡ Some x → is_before_fence x.phase ≡ true → is_refused reply ≡ false
        → IsSettled f old.kernel.scheme page (after_step old new (Next k) reply k h) }
    ensures stays { (old new : Machine) (w : World) (s : Step) (reply : Reply) (k page : ℕ) (x : Hart) (f : First) (h : List Event) (is : IsInWorld old w)
        → IsInWorld new (step w s).world → slice_get old.harts.items k ≡ Some x → HasHistory old k f h → satp_on new k ≡ satp_on old k
        → HaveSameTables (tables_of (is.world).tables (is.world).kernel (present_table x)) old new → IsSettled f old.kernel.scheme page h
        → IsSettled f old.kernel.scheme page (after_step old new s reply k h) }
    ensures walks { (m : Machine) (w : World) (k : ℕ) (x : Hart) (f : First) (h : List Event) (is : IsInWorld m w) → slice_get m.harts.items k ≡ Some x
        → HasHistory m k f h → (have : Extensions) (q : Request) (mode : Mode) (o : Outcome) → IsPlainHart have → have.ad ≡ Svade → IsPlainAccess q mode
        → IsSettled f m.kernel.scheme (page_of q.va.0) h → Permits have (record { first = f; events = h }) q o
        ↔ (o ≡ outcome_of (walk_answer m.kernel.scheme (tables_of (is.world).tables (is.world).kernel (present_table x)) q.va.0 q.kind mode)) }
{}
