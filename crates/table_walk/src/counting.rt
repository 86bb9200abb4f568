// One law, `missing_is_growth`: the tables that are missing on the way to a page, which `map` makes, are as many as the
// model's count of tables for a set of pages (`tables_needed`) grows by that page; also for the first page below a new root,
// and for a page that is counted already.

ghost use Rattle.std.specs.Prelude.{◌≡◌, ◌-◌, ◌^◌, ◌<◌, [], ◌∷◌, ℕ, All, Contains, List};
ghost use Rattle.process_model.specs.Frames.{tables_needed};
ghost use Rattle.sv39_entry.specs.Schemes.{page_limit, top_level, trampoline_page, trapframe_page};
ghost use Rattle.sv39_entry.specs.declared.scheme.Scheme.{Scheme};
ghost use Rattle.table_walk.specs.TableCounts.{AreTablesOf};
ghost use Rattle.table_walk.specs.Tables.{bare_root, Tables, IsGrown, missing};

/// The tables that are missing on the way to a page are those by which the model's count grows. The tables of some pages
/// always include those of the pages of TRAMPOLINE and TRAPFRAME (`AreTablesOf`).
/// `missing`, `grown`: one more page lacks `tables_needed` with it, less `tables_needed` without it, and is one of the pages
/// after these are made. `missing_first`, `first`: with a root alone, TRAMPOLINE's page lacks `tables_needed` of no pages,
/// less the root; after these are made, the tables are those of no pages. `none`, `same`: a page
/// that is counted already lacks none.
pub fn missing_is_growth()
    ensures missing { (s : Scheme) (t : Tables) (pages : List ℕ) (page : ℕ) → AreTablesOf s t pages → All (λ n. n < page_limit s) pages
        → page < page_limit s → missing s t page ≡ tables_needed s (page ∷ pages) - tables_needed s pages }
    ensures grown { (s : Scheme) (t u : Tables) (pages : List ℕ) (page : ℕ) → AreTablesOf s t pages → IsGrown s t u page (top_level s)
        → AreTablesOf s u (page ∷ pages) }
    ensures missing_first { (s : Scheme) (t : Tables) (root : ℕ) → t ≡ bare_root s root → missing s t (trampoline_page s) ≡ tables_needed s [] - 1 }
    ensures first { (s : Scheme) (t u : Tables) (root : ℕ) → t ≡ bare_root s root → IsGrown s t u (trampoline_page s) (top_level s) → AreTablesOf s u [] }
    ensures none { (s : Scheme) (t : Tables) (pages : List ℕ) (page : ℕ) → AreTablesOf s t pages
        → Contains (trampoline_page s ∷ trapframe_page s ∷ pages) page → missing s t page ≡ 0 }
    ensures same { (s : Scheme) (t u : Tables) (pages : List ℕ) (page : ℕ) → AreTablesOf s t pages
        → Contains (trampoline_page s ∷ trapframe_page s ∷ pages) page → IsGrown s t u page (top_level s) → AreTablesOf s u pages }
{}
