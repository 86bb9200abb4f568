// Three laws of page-fault service: a page made resident for an access is so; that takes at most one frame for the page and
// one for a table of each level below the root's; a page that sbrk or munmap released is not in memory, and a page not in
// memory has its initial bytes once it is made resident.
ghost use Rattle.std.specs.Prelude.{◌≡◌, ℕ, ℤ, Bool, List, None, Some, Ok, true, option_map, ◌≤◌, ◌<◌, ◌+◌};
ghost use Rattle.process_model.specs.Bytes.{pages_for};
ghost use Rattle.process_model.specs.Files.{File};
ghost use Rattle.process_model.specs.Frames.{resident_need};
ghost use Rattle.process_model.specs.Heap.{sbrk_result};
ghost use Rattle.process_model.specs.Mappings.{Unmapped, unmapped};
ghost use Rattle.process_model.specs.PageMap.{get};
ghost use Rattle.process_model.specs.Process.{Page, Process};
ghost use Rattle.process_model.specs.Residence.{initial_page, is_resident, made_resident};
ghost use Rattle.sv39_entry.specs.Address.{page_of};
ghost use Rattle.sv39_entry.specs.Schemes.{top_level};
ghost use Rattle.sv39_entry.specs.declared.access.Access.{Access};

/// A page that was made resident for an access (`made_resident`) is resident for it.
pub fn made_resident_is_resident()
    ensures { (files : List File) (fresh : ℕ) (shared : Bool) (p : Process) (access : Access) (page : ℕ)
        → is_resident (made_resident files fresh shared p access page) access page ≡ true }
{}

/// Making a page resident takes at most one frame for the page and one for a table of each level below the root's: three
/// under Sv39, four under Sv48.
pub fn page_takes_few_frames()
    ensures { (shared : Bool) (p : Process) (access : Access) (page : ℕ) → resident_need shared p access page ≤ 1 + top_level p.scheme }
{}

/// A page that sbrk (`shrunk`) or munmap (`unmapped`) releases is not settled afterwards. A page that is not settled has its
/// initial bytes after it is made resident (`settled`).
pub fn returned_page_is_initial()
    ensures shrunk { (p q : Process) (delta : ℤ) (page : ℕ) → sbrk_result p delta ≡ Ok q → pages_for q.size ≤ page → page < pages_for p.size
        → get q.settled page ≡ None }
    ensures unmapped { (files : List File) (p : Process) (u : Unmapped) (address len page : ℕ) → unmapped files p address len ≡ Ok u
        → page_of address ≤ page → page < page_of address + pages_for len → get u.process.settled page ≡ None }
    ensures settled { (files : List File) (fresh : ℕ) (shared : Bool) (p : Process) (access : Access) (page : ℕ) → get p.settled page ≡ None
        → option_map (λ (x : Page). x.bytes) (get (made_resident files fresh shared p access page).settled page) ≡ Some (initial_page files p page) }
{}
