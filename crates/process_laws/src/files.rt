// Three laws of file mappings and of the dirty mark (D: made ready for a store): a later mapping of a place of a file reads
// what was written back there; a page that was only loaded or fetched is never written back; one service of a page fault
// sets every mark that the access needs.
ghost use Rattle.std.specs.Prelude.{◌≡◌, ◌≢◌, ◌<◌, ◌≤◌, ◌+◌, ℕ, Bool, List, Ok, Some, false, length, true};
ghost use Rattle.process_laws.specs.FilePlaces.{file_length, file_place};
ghost use Rattle.process_laws.specs.Latest.{byte_at};
ghost use Rattle.process_model.specs.Environment.{Environment, Progress, resident_at};
ghost use Rattle.process_model.specs.Files.{File};
ghost use Rattle.process_model.specs.Mappings.{is_written_back, written_back};
ghost use Rattle.process_model.specs.PageMap.{get};
ghost use Rattle.process_model.specs.Process.{Page, Process};
ghost use Rattle.process_model.specs.Regions.{keeps_stores, Region};
ghost use Rattle.process_model.specs.Residence.{initial_page, is_resident, made_resident, region_on};
ghost use Rattle.sv39_entry.specs.declared.access.Access.{Access};
ghost use Rattle.sv39_entry.specs.declared.access.Access.TheVariants.{Store};

/// A later mapping reads what was written back. Let a run of pages of mapping `m` be written back for process `p`, and let
/// one of them be settled and have to be written back (`is_written_back`: it has the dirty mark, and `m` is a writable shared
/// mapping). Then in any process `q`, a page that maps the place of file n that this page maps has the written bytes for its
/// initial ones, up to the length of the file.
pub fn later_mapping_reads_what_was_written()
    ensures { (files : List File) (p q : Process) (m r : Region) (first end page later n at i : ℕ) (s : Page) → m.first ≤ first → first ≤ page → page < end
        → get p.settled page ≡ Some s → is_written_back m s ≡ true → file_place m page ≡ Some (n, at) → region_on q later ≡ Some r
        → file_place r later ≡ Some (n, at)
        → i < 4096 → i < length s.bytes → at + i < file_length files n
        → byte_at (initial_page (written_back files p m first end) q later) i ≡ byte_at s.bytes i }
{}

/// A page that was only loaded is never written back. `unmarked`: making a page resident for a fetch or a load sets no
/// dirty mark on any page. `stays`: if no settled page of a run has the dirty mark, writing back the run changes no file.
pub fn loaded_page_is_never_written_back()
    ensures unmarked { (files : List File) (fresh page at : ℕ) (shared : Bool) (p : Process) (access : Access) (s : Page) → access ≢ Store
        → get (made_resident files fresh shared p access page).settled at ≡ Some s → s.dirty ≡ true → (o : Page)
        × (get p.settled at ≡ Some o) × (o.dirty ≡ true) }
    ensures stays { (files : List File) (p : Process) (m : Region) (first end : ℕ)
        → ((page : ℕ) (s : Page) → get p.settled page ≡ Some s → first ≤ page → page < end → s.dirty ≡ false) → written_back files p m first end ≡ files }
{}

/// One service makes an access resident, with every mark at once. After it (`resident_at` gives `Ok`) the page is resident for
/// the access (`resident`); for a store, it has no copy-on-write mark (`fork`) and, in a writable shared mapping, it has the
/// dirty mark (`stored`).
pub fn one_service_sets_every_mark()
    ensures resident { (a : Environment) (access : Access) (page : ℕ) (g h : Progress) → resident_at a access page g ≡ Ok h
        → is_resident h.process access page ≡ true }
    ensures fork { (a : Environment) (page : ℕ) (g h : Progress) (s : Page) → resident_at a Store page g ≡ Ok h
        → get h.process.settled page ≡ Some s → s.cow ≡ false }
    ensures stored { (a : Environment) (page : ℕ) (g h : Progress) (s : Page) → resident_at a Store page g ≡ Ok h → get h.process.settled page ≡ Some s
        → keeps_stores (region_on h.process page) ≡ true → s.dirty ≡ true }
{}
