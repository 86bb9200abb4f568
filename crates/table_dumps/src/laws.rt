// A law of the listings of a dump (`IsListing`, `AreMappings`): over any memory there is exactly one of each for a root.

ghost use Rattle.access_history.specs.History.{Memory};
ghost use Rattle.std.specs.Prelude.{◌≡◌, ℕ, List};
ghost use Rattle.table_dumps.specs.Listings.{AreMappings, IsListing};
ghost use Rattle.table_dumps.specs.declared.listing.ValidEntry.{ValidEntry};
ghost use Rattle.walk_rules.specs.declared.extensions.Extensions.{Extensions};

/// Below a root there are exactly one list of valid PTEs and one of mappings, in any memory: what `Space::read` promises of its lists
/// determines them.
pub fn one_listing()
    ensures entries { (x : Extensions) (m : Memory) (root top : ℕ) → (es : List ValidEntry) × IsListing x m root top es }
    ensures mappings { (x : Extensions) (m : Memory) (root top : ℕ) → (es : List ValidEntry) × AreMappings x m root top es }
    ensures same_entries { (x : Extensions) (m : Memory) (root top : ℕ) (ds es : List ValidEntry) → IsListing x m root top ds → IsListing x m root top es
        → ds ≡ es }
    ensures same_mappings { (x : Extensions) (m : Memory) (root top : ℕ) (ds es : List ValidEntry) → AreMappings x m root top ds
        → AreMappings x m root top es → ds ≡ es }
{}
