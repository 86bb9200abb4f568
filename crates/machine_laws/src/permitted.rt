// What a hart of a machine answers is what the standard permits by the hart's history (`answers_are_permitted`).

ghost use Rattle.std.specs.Prelude.{◌≡◌, ℕ, true, List, Some, slice_get, Contains};
ghost use Rattle.access_history.specs.History.{First};
ghost use Rattle.access_history.specs.Permits.{Permits};
ghost use Rattle.access_history.specs.declared.event.Event.{Event};
ghost use Rattle.access_history.specs.declared.outcome.Request.{Request};
ghost use Rattle.hart_machine.specs.BufferEntries.{IsInWorld};
ghost use Rattle.hart_machine.specs.Harts.{hart_of};
ghost use Rattle.hart_machine.specs.Tables.{present_table, tables_of};
ghost use Rattle.hart_machine.specs.declared.hart.Hart.{Hart};
ghost use Rattle.hart_machine.specs.declared.machine.Machine.{Machine};
ghost use Rattle.hart_tlb.specs.Entries.{matches};
ghost use Rattle.hart_tlb.specs.declared.entry.TlbEntry.{TlbEntry};
ghost use Rattle.history_laws.specs.PlainWalks.{IsPlainAccess, IsPlainHart, outcome_of};
ghost use Rattle.machine_laws.specs.HartHistories.{HasHistory};
ghost use Rattle.process_model.specs.Harts.{present_asid};
ghost use Rattle.process_model.specs.World.{World};
ghost use Rattle.sv39_entry.specs.declared.access.Mode.{Mode};
ghost use Rattle.table_walk.specs.Leaves.{answer, walk_answer};
ghost use Rattle.walk_rules.specs.declared.extensions.Extensions.{Extensions};

/// By a hart's history the standard permits what each entry of its TLB answers that matches the address and the ASID in satp (`entries`), and what a
/// walk of the page table in satp answers (`walks`). For accesses of user and supervisor mode, aligned, with SUM and MXR clear, and without extensions:
/// what `IsPlainHart` and `IsPlainAccess` say.
pub fn answers_are_permitted()
    ensures entries { (m : Machine) (w : World) (k : ℕ) (x : Hart) (f : First) (h : List Event) → IsInWorld m w → slice_get m.harts.items k ≡ Some x
        → HasHistory m k f h → (e : TlbEntry) → Contains x.buffer e → (have : Extensions) (q : Request) (mode : Mode) → IsPlainHart have
        → IsPlainAccess q mode → matches q.va.0 (present_asid m.policy (hart_of x)) e ≡ true
        → Permits have (record { first = f; events = h }) q (outcome_of (answer e.leaf q.va.0 q.kind mode)) }
    ensures walks { (m : Machine) (w : World) (k : ℕ) (x : Hart) (f : First) (h : List Event) (is : IsInWorld m w) → slice_get m.harts.items k ≡ Some x
        → HasHistory m k f h → (have : Extensions) (q : Request) (mode : Mode) → IsPlainHart have → IsPlainAccess q mode
        → Permits have (record { first = f; events = h }) q
        (outcome_of (walk_answer m.kernel.scheme (tables_of (is.world).tables (is.world).kernel (present_table x)) q.va.0 q.kind mode)) }
{}
