// The replies of a machine to user accesses are among those that the standard permits (`replies_are_permitted`).

ghost use Rattle.std.specs.Prelude.{◌≡◌, ◌*◌, ◌%◌, ◌^◌, ℕ, false, List, None, Option, Some, slice_get};
ghost use Rattle.access_history.specs.History.{First};
ghost use Rattle.access_history.specs.Permits.{Permits};
ghost use Rattle.access_history.specs.declared.event.Event.{Event};
ghost use Rattle.access_history.specs.declared.outcome.Outcome.{Outcome};
ghost use Rattle.access_history.specs.declared.outcome.Outcome.TheVariants.{Granted};
ghost use Rattle.access_history.specs.declared.outcome.Request.{Request};
ghost use Rattle.hart_machine.specs.BufferEntries.{IsInWorld};
ghost use Rattle.hart_machine.specs.Worlds.{KeepsTables};
ghost use Rattle.hart_machine.specs.declared.hart.Hart.{Hart};
ghost use Rattle.hart_machine.specs.declared.machine.Machine.{Machine};
ghost use Rattle.history_laws.specs.PlainWalks.{IsPlainHart};
ghost use Rattle.machine_laws.specs.HartHistories.{HasHistory};
ghost use Rattle.machine_laws.specs.MachineStates.{memory_in};
ghost use Rattle.machine_laws.specs.UserAccesses.{IsAccessOf, Tells, user_request, value_at};
ghost use Rattle.process_model.specs.Steps.{is_refused, step};
ghost use Rattle.process_model.specs.World.{World};
ghost use Rattle.process_model.specs.declared.reply.Reply.TheVariants.{Scalar};
ghost use Rattle.process_model.specs.declared.reply.ScalarReply.TheVariants.{Stored};
ghost use Rattle.process_model.specs.declared.step.Step.{Step};
ghost use Rattle.process_model.specs.declared.step.Step.TheVariants.{Store};
ghost use Rattle.sv39_entry.specs.declared.access.Access.TheVariants as access;
ghost use Rattle.walk_rules.specs.declared.extensions.Extensions.{Extensions};
ghost use Rattle.walk_rules.specs.declared.memory_type.MemoryType.TheVariants.{Pma};

/// A user access of a hart, if it is not refused, has the reply of an outcome that the standard permits by the hart's history: the cause of an exception,
/// the value that memory has at the physical address, or `Stored` (`replies`). After a store memory has the value at such an address (`stores`). The reply
/// is the model's, as `Machine::step` ensures by `made`.
pub fn replies_are_permitted()
    ensures replies { (m : Machine) (w : World) (k : ℕ) (x : Hart) (f : First) (h : List Event) → IsInWorld m w → slice_get m.harts.items k ≡ Some x
        → HasHistory m k f h → (have : Extensions) (s : Step) (q : Request) → IsPlainHart have → IsAccessOf k s q → is_refused (step w s).reply ≡ false
        → (o : Outcome) × Permits have (record { first = f; events = h }) q o × Tells (memory_in m) q o (step w s).reply }
    ensures stores { (old new : Machine) (w : World) (k address width value : ℕ) (via : Option ℕ) (x : Hart) (f : First) (h : List Event)
        → IsInWorld old w → IsInWorld new (step w (Store k address width value via)).world
        → KeepsTables old new w.slots ((step w (Store k address width value via)).world).slots → slice_get old.harts.items k ≡ Some x → HasHistory old k f h
        → (have : Extensions) → IsPlainHart have → (step w (Store k address width value via)).reply ≡ Scalar Stored
        → (pa : ℕ) × Permits have (record { first = f; events = h }) (user_request access.Store address width) (Granted pa Pma None)
        × (value_at (memory_in new) pa width ≡ Some (value % 2 ^ (8 * width))) }
{}
