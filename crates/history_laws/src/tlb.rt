// The TLB of `hart_tlb` is one of the harts that the standard permits (`tlb_is_permitted`). A worked example (`stale_entry_is_permitted`).

ghost use Rattle.std.specs.Prelude.{◌≡◌, ℕ, true, None, List, [], ◌∷◌};
ghost use Rattle.access_history.specs.Examples.{example_fence, example_first, example_hart, example_load, example_past, example_store};
ghost use Rattle.access_history.specs.Permits.{Past, Permits, memory_of, satp_of};
ghost use Rattle.access_history.specs.declared.event.Event.{Event};
ghost use Rattle.access_history.specs.declared.outcome.Outcome.TheVariants.{Granted};
ghost use Rattle.access_history.specs.declared.outcome.Request.{Request};
ghost use Rattle.history_laws.specs.PlainWalks.{IsPlain, extent_of, outcome_of};
ghost use Rattle.history_laws.specs.TlbEntries.{IsFilled, Remains, TlbRuns, removes};
ghost use Rattle.history_laws.specs.TlbExamples.{example_entry};
ghost use Rattle.hart_tlb.specs.Entries.{matches};
ghost use Rattle.hart_tlb.specs.Outcome.{LeadsToWhole};
ghost use Rattle.hart_tlb.specs.declared.entry.TlbEntry.{TlbEntry};
ghost use Rattle.std.specs.List.{Contains};
ghost use Rattle.sv39_entry.specs.Satp.{asid};
ghost use Rattle.sv39_entry.specs.declared.access.Access.TheVariants.{Load};
ghost use Rattle.sv39_entry.specs.declared.access.Mode.{Mode};
ghost use Rattle.sv39_entry.specs.declared.access.Mode.TheVariants.{User};
ghost use Rattle.sv39_entry.specs.declared.scheme.Scheme.{Scheme};
ghost use Rattle.sv39_entry.specs.declared.scheme.Scheme.TheVariants.{Sv39};
ghost use Rattle.table_walk.specs.Leaves.{answer};
ghost use Rattle.walk_rules.specs.declared.extensions.Extensions.{Extensions};
ghost use Rattle.walk_rules.specs.declared.memory_type.MemoryType.TheVariants.{Pma};

/// What a TLB entry of `hart_tlb` answers (`TlbEntry::translate`) is permitted, whatever has happened since it was filled, if no fence has removed
/// it (`entry`). So is each answer of a TLB of any size that fills, evicts and fences as `Buffer` does (`buffer`). That holds of an entry with no
/// leaf too, since a fence for any address removes it. The frame that the leaf leads to is to be inside the memory as a whole or not at all, and
/// satp is to select the scheme of the fill.
pub fn tlb_is_permitted()
    ensures entry { (x : Extensions) (p : Past) (q : Request) (mode : Mode) (s : Scheme) (address : ℕ) (past : List Event) (e : TlbEntry)
        → IsPlain x p q mode s → IsFilled p.first s address e past → Remains e p.events past → matches q.va.0 (asid (satp_of p)) e ≡ true
        → LeadsToWhole (extent_of (memory_of p)) q.va.0 e.leaf → Permits x p q (outcome_of (answer e.leaf q.va.0 q.kind mode)) }
    ensures buffer { (x : Extensions) (p : Past) (q : Request) (mode : Mode) (s : Scheme) (places : ℕ) (es : List TlbEntry) (e : TlbEntry)
        → IsPlain x p q mode s → TlbRuns p.first s places p.events es → Contains es e → matches q.va.0 (asid (satp_of p)) e ≡ true
        → LeadsToWhole (extent_of (memory_of p)) q.va.0 e.leaf → Permits x p q (outcome_of (answer e.leaf q.va.0 q.kind mode)) }
{}

/// The worked example of `access_history`, with a TLB: it kept a leaf (`filled`), the leaf was changed and no fence followed (`remains`), and the
/// TLB answers by the old one (`answers`), which is permitted. A fence of the page removes the entry (`fenced`).
pub fn stale_entry_is_permitted()
    ensures filled { IsFilled example_first Sv39 0x1000 example_entry [] }
    ensures remains { Remains example_entry (example_store ∷ []) [] }
    ensures answers { outcome_of (answer example_entry.leaf 0x1000 Load User) ≡ Granted 0x4000 Pma None }
    ensures permitted { Permits example_hart (example_past (example_store ∷ [])) example_load (Granted 0x4000 Pma None) }
    ensures fenced { removes example_fence example_entry ≡ true }
{}
