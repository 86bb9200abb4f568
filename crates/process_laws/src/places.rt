// Three laws of mmap and munmap: a new mapping is placed at the greatest page at which it fits, and has no place exactly
// when it fits nowhere; munmap leaves exactly the mapping's pages outside its range, as one region at most unless the range
// touches neither end of the mapping.
ghost use Rattle.std.specs.Prelude.{◌≡◌, ◌≤◌, ◌↔◌, ◌&&◌, ◌||◌, ℕ, None, Some, false, length, ◌++◌, nat_le, nat_lt, is_some};
ghost use Rattle.process_model.specs.Mappings.{Fits};
ghost use Rattle.process_model.specs.Mappings.{back_of, front_of, leaves_hole, mapping_place};
ghost use Rattle.process_model.specs.Process.{Process};
ghost use Rattle.process_model.specs.Regions.{end_of, holds_page, Region, region_at};

/// The page that `mapping_place` chooses fits: above the heap, below the trapframe and apart from the other mappings. No
/// greater page fits.
pub fn place_is_the_greatest()
    ensures fits { (p : Process) (pages first : ℕ) → mapping_place p pages ≡ Some first → Fits p pages first }
    ensures greatest { (p : Process) (pages first other : ℕ) → mapping_place p pages ≡ Some first → Fits p pages other → other ≤ first }
{}

/// If `mapping_place` chooses no page, the mapping fits at none.
pub fn no_room_means_none()
    ensures { (p : Process) (pages first : ℕ) → mapping_place p pages ≡ None → Fits p pages first → ⊥ }
{}

/// What munmap of the pages from `first` up to, and without, `end` leaves of a mapping. `one`: at most one region, unless
/// the range starts above the mapping's first page and ends below the mapping's end. `pages`: exactly the pages of the
/// mapping outside the range, if the range is inside the mapping.
pub fn unmapping_leaves_one_run()
    ensures one { (m : Region) (first end : ℕ) → leaves_hole m first end ≡ false → length (front_of m first ++ back_of m end) ≤ 1 }
    ensures pages { (m : Region) (first end page : ℕ) → m.first ≤ first → first ≤ end → end ≤ end_of m
        → is_some (region_at (front_of m first ++ back_of m end) page) ≡ holds_page m page && (nat_lt page first || nat_le end page) }
{}
