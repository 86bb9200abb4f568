// Laws of the definitions. What a fence covers (`fences_cover`). Right after SFENCE.VMA of everything nothing that a hart may hold is older than the
// fence (`full_fence_forgets`), and it is what a walk over memory as it is reads (`held_now_is_walk`). What may be held is what some hart with a
// cache keeps (`held_is_kept`). What a hart's update of A and D leaves as it was (`updates_keep_leaves`). Without extensions, kinds and rights are those of `sv39_entry` (`plain_kinds`, `plain_walks`). A worked
// example (`stale_leaf_is_permitted`).

ghost use Rattle.std.specs.Prelude.{◌&&◌, ◌*◌, ◌/◌, ◌%◌, ◌^◌, ◌≡◌, ◌≢◌, ◌+◌, ◌-◌, ◌≤◌, false, ℕ, Bool, true, List, Option, None, Some, [], ◌∷◌};
ghost use Rattle.access_history.specs.Examples.{example_fence, example_hart, example_load, example_past, example_store};
ghost use Rattle.access_history.specs.Harts.{Kept, Runs, kept};
ghost use Rattle.access_history.specs.Held.{EndsWalks, IsCovered, IsHeld, IsUnder, MayPassRead, Read, has_global, is_with_ad, read_of};
ghost use Rattle.access_history.specs.History.{First, memory_at, satp_at};
ghost use Rattle.access_history.specs.Permits.{Permits};
ghost use Rattle.access_history.specs.Walks.{IsWay, levels_above};
ghost use Rattle.access_history.specs.declared.event.Event.{Event};
ghost use Rattle.access_history.specs.declared.event.Event.TheVariants.{Fence};
ghost use Rattle.access_history.specs.declared.outcome.Outcome.TheVariants.{Granted};
ghost use Rattle.std.specs.List.{Contains};
ghost use Rattle.sv39_entry.specs.Address.{has, page_of, vpn};
ghost use Rattle.sv39_entry.specs.Satp.{asid, root_ppn};
ghost use Rattle.sv39_entry.specs.Schemes as schemes;
ghost use Rattle.sv39_entry.specs.Word.{kind_of, permits, ppn};
ghost use Rattle.sv39_entry.specs.declared.access.Access.{Access};
ghost use Rattle.sv39_entry.specs.declared.access.Mode.{Mode};
ghost use Rattle.sv39_entry.specs.declared.address.Va.{Va};
ghost use Rattle.sv39_entry.specs.declared.entry.Kind.TheVariants.{Leaf, Pointer};
ghost use Rattle.sv39_entry.specs.declared.scheme.Scheme.TheVariants.{Sv39, Sv48};
ghost use Rattle.walk_rules.specs.Addresses.{is_canonical, leads_to, top_of};
ghost use Rattle.walk_rules.specs.Kinds.{kind_in};
ghost use Rattle.walk_rules.specs.Rights.{allows, has_ad};
ghost use Rattle.walk_rules.specs.declared.extensions.Extensions.{Extensions};
ghost use Rattle.walk_rules.specs.declared.memory_type.MemoryType.TheVariants.{Pma};
ghost use Rattle.walk_rules.specs.declared.status.Status.{Status};

/// Nothing that a hart may hold is older than a fence of everything.
pub fn full_fence_forgets()
    ensures { (x : Extensions) (f : First) (va : ℕ) (h past : List Event) (r : Read) → IsHeld x f va (Fence None None ∷ h) r past
        → past ≡ Fence None None ∷ h }
{}

/// What an event covers, a hart may hold right after it only if it was read anew (`forgets`). No fence with an address covers a pointer
/// (`pointer`) or what serves another page or superpage, of a NAPOT leaf too (`page`), and none with an ASID a global PTE (`global`). After a fence of
/// each address no walk of its address space is under an earlier satp (`walks`).
pub fn fences_cover()
    ensures forgets { (x : Extensions) (f : First) (va : ℕ) (h past : List Event) (e : Event) (r : Read) → IsHeld x f va (e ∷ h) r past
        → IsCovered x f va e h r past → past ≡ e ∷ h }
    ensures pointer { (x : Extensions) (f : First) (va : ℕ) (h past : List Event) (a : Va) (s : Option ℕ) (r : Read)
        → IsCovered x f va (Fence (Some a) s) h r past → kind_in x r.level r.word ≢ Pointer }
    ensures page { (x : Extensions) (f : First) (va : ℕ) (h past : List Event) (a : Va) (s : Option ℕ) (r : Read)
        → IsCovered x f va (Fence (Some a) s) h r past → a.0 / 2 ^ (12 + 9 * r.level) ≡ va / 2 ^ (12 + 9 * r.level) }
    ensures global { (x : Extensions) (f : First) (va : ℕ) (h past : List Event) (a : Option Va) (s : ℕ) (r : Read)
        → IsCovered x f va (Fence a (Some s)) h r past → r.global ≡ false }
    ensures walks { (f : First) (satp : ℕ) (h : List Event) (s : Option ℕ) → EndsWalks (Fence None s) (asid satp) → IsUnder f satp (Fence None s ∷ h)
        → satp_at f.satp h ≡ satp }
{}

/// A hart may hold a PTE exactly if some hart keeps it, which at any moment reads one PTE more by a walk, and at any event loses at least what
/// the event covers, and has A or D set in a leaf if the event sets them.
pub fn held_is_kept()
    ensures only { (x : Extensions) (f : First) (va : ℕ) (h : List Event) (cs : List Kept) → Runs x f va h cs → (c : Kept) → Contains cs c
        → IsHeld x f va h c.read c.past }
    ensures each { (x : Extensions) (f : First) (va : ℕ) (h past : List Event) (r : Read) → IsHeld x f va h r past
        → (cs : List Kept) × Runs x f va h cs × Contains cs (kept r past) }
{}

/// After a fence of everything a hart may hold the PTEs that a walk over memory as it is reads, if PMP lets it read each (`each`), and without
/// Svnapot no others (`only`).
pub fn held_now_is_walk()
    ensures only { (x : Extensions) (f : First) (va : ℕ) (h past : List Event) (r : Read) → x.svnapot ≡ false
        → IsHeld x f va (Fence None None ∷ h) r past
        → (top : ℕ) × (top_of (satp_at f.satp h) ≡ Some top) × (r.level ≤ top)
        × IsWay x (memory_at f.memory h) (root_ppn (satp_at f.satp h)) (page_of va) top (levels_above top r.level) r.table
        × (memory_at f.memory h r.table (vpn (page_of va) r.level) ≡ Some r.word) }
    ensures each { (x : Extensions) (f : First) (va : ℕ) (h : List Event) (top k table word : ℕ) → top_of (satp_at f.satp h) ≡ Some top
        → is_canonical top va ≡ true → ((table index : ℕ) → MayPassRead f (Fence None None ∷ h) table index) → k ≤ top
        → IsWay x (memory_at f.memory h) (root_ppn (satp_at f.satp h)) (page_of va) top k table
        → memory_at f.memory h table (vpn (page_of va) (top - k)) ≡ Some word
        → (global : Bool) × IsHeld x f va (Fence None None ∷ h) (read_of (top - k) table word (asid (satp_at f.satp h)) global) (Fence None None ∷ h) }
{}

/// With A, or with A and D set a leaf is one still (`leaf`), and is as global as it was (`global`): so a fence covers it as before.
pub fn updates_keep_leaves()
    ensures leaf { (x : Extensions) (level w v : ℕ) → is_with_ad w v ≡ true → kind_in x level w ≡ Leaf → kind_in x level v ≡ Leaf }
    ensures global { (w v : ℕ) → is_with_ad w v ≡ true → has_global v ≡ has_global w }
{}

/// Without Svnapot and Svpbmt the kind of a PTE above level 0 is what `sv39_entry` says.
pub fn plain_kinds()
    ensures { (x : Extensions) (n w : ℕ) → x.svnapot ≡ false → x.svpbmt ≡ false → kind_in x (n + 1) w ≡ kind_of w }
{}

/// With SUM and MXR clear, an aligned leaf whose A and D are as the access needs allows what `permits` of `sv39_entry` says. A leaf without N leads
/// where `physical_address` of `table_walk` says. The canonical addresses of Sv39 and Sv48 are those of `sv39_entry`.
pub fn plain_walks()
    ensures rights { (s : Status) (mode : Mode) (kind : Access) (level w : ℕ) → s.sum ≡ false → s.mxr ≡ false → ppn w % 2 ^ (9 * level) ≡ 0
        → (allows s mode kind level w && has_ad kind w) ≡ permits mode kind w }
    ensures place { (level w va : ℕ) → level ≤ 4 → has w 63 ≡ false → ppn w % 2 ^ (9 * level) ≡ 0
        → leads_to level w va ≡ ppn w * 4096 + va % 2 ^ (12 + 9 * level) }
    ensures canonical { (a : ℕ) → (is_canonical 2 a ≡ schemes.is_canonical Sv39 a) × (is_canonical 3 a ≡ schemes.is_canonical Sv48 a) }
{}

/// A worked example: a leaf was changed and no fence followed, so a load may go by the old leaf (`stale`) or by the new one (`fresh`). After a
/// fence of the page it may not go by the old one (`fenced`).
pub fn stale_leaf_is_permitted()
    ensures stale { Permits example_hart (example_past (example_store ∷ [])) example_load (Granted 0x4000 Pma None) }
    ensures fresh { Permits example_hart (example_past (example_store ∷ [])) example_load (Granted 0x5000 Pma None) }
    ensures fenced { ¬ Permits example_hart (example_past (example_fence ∷ example_store ∷ [])) example_load (Granted 0x4000 Pma None) }
{}
