// A law for proofs of callers, as a function without effect: a user's walk of the page table finds a leaf that permits an
// access if and only if the regions grant the access, alignment aside, and its page is resident.

ghost use Rattle.std.specs.Prelude.{◌≡◌, ◌↔◌, ℕ, true};
ghost use Rattle.address_space.specs.Accesses.{gives_leaf, IsGranted};
ghost use Rattle.address_space.specs.Agreement.{Body, IsSpace};
ghost use Rattle.process_model.specs.Process.{Process};
ghost use Rattle.sv39_entry.specs.declared.access.Access.{Access};
ghost use Rattle.sv39_entry.specs.declared.access.Mode.TheVariants.{User};
ghost use Rattle.table_walk.specs.Leaves.{walk_answer};
ghost use Rattle.table_walk.specs.Tables.{Tables};

/// A law: if a space is a process, the walk of a user access finds a leaf that permits it if and only if no rule of the
/// process's regions denies it, alignment aside, and its page is resident for it.
pub fn walks_grant_what_is_resident()
    ensures { (x : Body) (t : Tables) (p : Process) (access : Access) (address : ℕ) → IsSpace x t p →
        (gives_leaf (walk_answer p.scheme t address access User) ≡ true) ↔ IsGranted p access address }
{}
