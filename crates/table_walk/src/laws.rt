// Three laws of walks. Over any memory: a walk finds exactly one thing for an address (`one_found`), and an access is
// translated to exactly one outcome (`one_outcome`). Over the page tables that a seat has: walks find exactly their leaves,
// and stay inside the memory (`walks_of_tables`).

ghost use Rattle.std.specs.FinMap.{get};
ghost use Rattle.std.specs.Prelude.{◌≡◌, ◌↔◌, ℕ, Some, true};
ghost use Rattle.frame_store.specs.View.{View};
ghost use Rattle.sv39_entry.specs.Address.{has};
ghost use Rattle.sv39_entry.specs.Frame.{ppn_of};
ghost use Rattle.sv39_entry.specs.declared.access.Access.{Access};
ghost use Rattle.sv39_entry.specs.declared.access.Mode.{Mode};
ghost use Rattle.sv39_entry.specs.declared.scheme.Scheme.{Scheme};
ghost use Rattle.table_walk.specs.HeldMemory.{held_memory, IsReadable};
ghost use Rattle.table_walk.specs.Tables.{HasTables, Tables, walk_leaf};
ghost use Rattle.table_walk.specs.Memory.{Extent, Memory};
ghost use Rattle.table_walk.specs.Walk.{CanWalk, Finds, IsGlobal, LeavesMemory, Maps, Translates};
ghost use Rattle.table_walk.specs.declared.walk.Found.{Found};
ghost use Rattle.table_walk.specs.declared.walk.Walk.{Walk};

/// A walk finds exactly one thing for each address, in any memory.
pub fn one_found()
    ensures at_least { (s : Scheme) (m : Memory) (root address : ℕ) → (x : Found) × Finds s m root address x }
    ensures at_most { (s : Scheme) (m : Memory) (root address : ℕ) (x y : Found) → Finds s m root address x → Finds s m root address y → x ≡ y }
{}

/// An access is translated to exactly one outcome, in any memory.
pub fn one_outcome()
    ensures at_least { (s : Scheme) (m : Memory) (there : Extent) (root address : ℕ) (access : Access) (mode : Mode) → (x : Walk)
        × Translates s m there root address access mode x }
    ensures at_most { (s : Scheme) (m : Memory) (there : Extent) (root address : ℕ) (access : Access) (mode : Mode) (x y : Walk)
        → Translates s m there root address access mode x → Translates s m there root address access mode y → x ≡ y }
{}

/// If a seat has the tables below a root (`HasTables`), then walks find the leaves of these tables and no others, each at
/// level 0 (`leaves`); a leaf is global exactly when it has G itself, as no pointer has it (`global`); no walk reads a word
/// outside the memory (`inside`); and each page may be walked (`readable`).
pub fn walks_of_tables()
    ensures leaves { (s : Scheme) (v : View) (root page leaf level : ℕ) (t : Tables) → HasTables s v root t
        → Maps s (held_memory v) (ppn_of root) page leaf level ↔ (level ≡ 0) × (get t.leaves (walk_leaf s page) ≡ Some leaf) }
    ensures global { (s : Scheme) (v : View) (root page leaf : ℕ) (t : Tables) → HasTables s v root t
        → get t.leaves (walk_leaf s page) ≡ Some leaf → IsGlobal s (held_memory v) (ppn_of root) page 0 ↔ (has leaf 5 ≡ true) }
    ensures inside { (s : Scheme) (v : View) (root page : ℕ) (t : Tables) → HasTables s v root t → LeavesMemory s (held_memory v) (ppn_of root) page → ⊥ }
    ensures readable { (s : Scheme) (v : View) (root page : ℕ) (t : Tables) → HasTables s v root t
        → CanWalk s (IsReadable v) (held_memory v) (ppn_of root) page }
{}
