// Without history, what the standard permits is what a walk of `table_walk` over memory as it is comes to (`settled_hart_walks`,
// `settled_space_walks`). Whatever the history, that is permitted (`walk_is_permitted`).

ghost use Rattle.std.specs.Prelude.{◌≡◌, ◌≢◌, ◌↔◌, ℕ, ◌≤◌, Option, List};
ghost use Rattle.access_history.specs.History.{First, memory_at, satp_at};
ghost use Rattle.access_history.specs.Permits.{Past, Permits, memory_of, satp_of};
ghost use Rattle.access_history.specs.declared.event.Event.{Event};
ghost use Rattle.access_history.specs.declared.event.Event.TheVariants.{Fence, Store, WritePmp};
ghost use Rattle.access_history.specs.declared.outcome.Outcome.{Outcome};
ghost use Rattle.access_history.specs.declared.outcome.Request.{Request};
ghost use Rattle.history_laws.specs.PlainWalks.{IsPlain, IsQuiet, IsSettled, extent_of, outcome_of};
ghost use Rattle.history_laws.specs.SpaceWalks.{HasNoGlobals, IsSpaceSettled};
ghost use Rattle.sv39_entry.specs.Address.{page_of};
ghost use Rattle.sv39_entry.specs.Satp.{root_ppn};
ghost use Rattle.sv39_entry.specs.Schemes.{top_level};
ghost use Rattle.sv39_entry.specs.declared.access.Mode.{Mode};
ghost use Rattle.sv39_entry.specs.declared.address.Va.{Va};
ghost use Rattle.sv39_entry.specs.declared.scheme.Scheme.{Scheme};
ghost use Rattle.table_walk.specs.Walk.{IsAt, Translates};
ghost use Rattle.table_walk.specs.declared.walk.Walk.{Walk};
ghost use Rattle.walk_rules.specs.declared.extensions.AdScheme.TheVariants.{Svade};
ghost use Rattle.walk_rules.specs.declared.extensions.Extensions.{Extensions};
ghost use Rattle.walk_rules.specs.declared.pmp.PmpEntry.{PmpEntry};

/// If nothing that the walk of the page reads has changed since a fence of everything, or at all, an outcome is permitted exactly if it is that
/// of a walk over memory as it is (`Translates`); there is one such outcome and no other (`some`, `one`). For Sv39 and Sv48, user and supervisor
/// mode, without extensions, PMP entries, SUM and MXR: what `IsPlain` says; and with Svade, so that A and D are never set. So the walk of xv6's
/// machine, that of the C library and what `access_history` permits are one.
pub fn settled_hart_walks()
    ensures same { (x : Extensions) (p : Past) (q : Request) (mode : Mode) (s : Scheme) (o : Outcome) → IsPlain x p q mode s → x.ad ≡ Svade
        → IsSettled p.first s (page_of q.va.0) p.events → Permits x p q o
        ↔ ((w : Walk) × Translates s (memory_of p) (extent_of (memory_of p)) (root_ppn (satp_of p)) q.va.0 q.kind mode w × (o ≡ outcome_of w)) }
    ensures some { (x : Extensions) (p : Past) (q : Request) (mode : Mode) (s : Scheme) → IsPlain x p q mode s → (o : Outcome) × Permits x p q o }
    ensures one { (x : Extensions) (p : Past) (q : Request) (mode : Mode) (s : Scheme) (a b : Outcome) → IsPlain x p q mode s → x.ad ≡ Svade
        → IsSettled p.first s (page_of q.va.0) p.events → Permits x p q a → Permits x p q b → a ≡ b }
{}

/// The same for one address space among others, after a fence of its ASID alone, while satp is written to other spaces and back: what a kernel with
/// ASIDs relies on. No PTE that a hart may hold for the address is to be global.
pub fn settled_space_walks()
    ensures same { (x : Extensions) (p : Past) (q : Request) (mode : Mode) (s : Scheme) (o : Outcome) → IsPlain x p q mode s → x.ad ≡ Svade
        → HasNoGlobals x p.first q.va.0 p.events → IsSpaceSettled p.first s (page_of q.va.0) (satp_of p) p.events → Permits x p q o
        ↔ ((w : Walk) × Translates s (memory_of p) (extent_of (memory_of p)) (root_ppn (satp_of p)) q.va.0 q.kind mode w × (o ≡ outcome_of w)) }
    ensures one { (x : Extensions) (p : Past) (q : Request) (mode : Mode) (s : Scheme) (a b : Outcome) → IsPlain x p q mode s → x.ad ≡ Svade
        → HasNoGlobals x p.first q.va.0 p.events → IsSpaceSettled p.first s (page_of q.va.0) (satp_of p) p.events
        → Permits x p q a → Permits x p q b → a ≡ b }
{}

/// Whatever has happened, the outcome of a walk over memory as it is is permitted: a hart need not have cached anything.
pub fn walk_is_permitted()
    ensures { (x : Extensions) (p : Past) (q : Request) (mode : Mode) (s : Scheme) (w : Walk) → IsPlain x p q mode s
        → Translates s (memory_of p) (extent_of (memory_of p)) (root_ppn (satp_of p)) q.va.0 q.kind mode w → Permits x p q (outcome_of w) }
{}

/// Events that leave a walk as it is: a store outside its tables (`store`), a fence, a write of PMP. So a process that stores to its own pages
/// keeps its hart settled.
pub fn other_events_are_quiet()
    ensures store { (f : First) (s : Scheme) (page ppn index word : ℕ) (h : List Event)
        → ((k table : ℕ) → k ≤ top_level s → IsAt s (memory_at f.memory h) (root_ppn (satp_at f.satp h)) page k table → table ≢ ppn)
        → IsQuiet f s page (Store ppn index word) h }
    ensures fence { (f : First) (s : Scheme) (page : ℕ) (va : Option Va) (space : Option ℕ) (h : List Event) → IsQuiet f s page (Fence va space) h }
    ensures pmp { (f : First) (s : Scheme) (page number : ℕ) (entry : PmpEntry) (h : List Event) → IsQuiet f s page (WritePmp number entry) h }
{}
