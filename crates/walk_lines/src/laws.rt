// A law of the listing of page tables (`IsListing`): over any memory there is exactly one for a root.

ghost use Rattle.std.specs.Prelude.{◌≡◌, ℕ, List};
ghost use Rattle.sv39_entry.specs.declared.scheme.Scheme.{Scheme};
ghost use Rattle.table_walk.specs.Memory.{Memory};
ghost use Rattle.walk_lines.specs.Listings.{IsListing};
ghost use Rattle.walk_lines.specs.declared.listing.TableEntry.{TableEntry};

/// The tables below a root have exactly one listing, in any memory: what `table_entries` promises of its list determines it.
pub fn one_listing()
    ensures at_least { (s : Scheme) (m : Memory) (root : ℕ) → (es : List TableEntry) × IsListing s m root es }
    ensures at_most { (s : Scheme) (m : Memory) (root : ℕ) (ds es : List TableEntry) → IsListing s m root ds → IsListing s m root es → ds ≡ es }
{}
