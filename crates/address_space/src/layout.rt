// Struct `Layout`: the scheme (Sv39 or Sv48) and the regions of a process: parts (segments, guard, stack), the heap by its
// two ends, and mappings. Calls make, copy and change it, and return the region of a page, the heap as a region, and the end
// of all regions. `grant` and `copy_rule` return the first rule (reason) that denies a user access or a kernel copy (copyin,
// copyout).

ghost use Rattle.std.specs.Prelude.{[], ◌≡◌, ◌+◌, ◌*◌, ◌<◌, ◌≤◌, All, length, map, nat_le, not, option_map, option_to_list, ◌==◌, ℕ, Some};
ghost use Rattle.std.specs.List.{prefix_len};
ghost use Rattle.process_model.specs.Mappings.{with_instead, with_mapping};
ghost use Rattle.process_model.specs.Order.{HasOrder};
ghost use Rattle.process_model.specs.Process.{heap_of, Process, regions};
ghost use Rattle.process_model.specs.Regions as model;
ghost use Rattle.address_space.specs.Layouts.{granted_unless, last_page, LaysOut, region_of};
ghost use Rattle.address_space.specs.Parts.{regions_in};
ghost use Rattle.address_space.specs.declared.region.Region.{Region as CodeRegion};
ghost use Rattle.sv39_entry.specs.Schemes.{trapframe_page};

use crate::part::Part;
use crate::region::{Region, RegionKind, Source};
use arrayvec::ArrayVec;
use bitflags::Flags;
use process_model::{MOST_MAPPINGS, MOST_PARTS, MOST_REGIONS};
use std::marker::Model;
use sv39_entry::{Access, PAGE_SIZE, Rights, Rule, Scheme, Va};

/// The scheme of translation and the regions of a process: its parts (segments, guard and stack) and its mappings, each list
/// in ascending order; and the addresses at which the heap begins and ends.
#[derive(Drop)]
pub struct Layout {
    scheme: Scheme,
    parts: ArrayVec<Region, MOST_PARTS>,
    mappings: ArrayVec<Region, MOST_MAPPINGS>,
    heap_base: u64,
    size: u64,
}

impl Model for Layout {
    ghost use Rattle.std.specs.Prelude.{map};
    ghost use Rattle.address_space.specs.Layouts.{Layout as Regions, layout_code, region_of};

    ghost Value = { Regions };

    ghost coded = { layout_code };

    ghost view = { λ l. record {
      scheme = l.scheme;
      parts = map region_of l.parts.items;
      mappings = map region_of l.mappings.items;
      heap_base = l.heap_base;
      size = l.size;
    } };
}

impl Layout {
    /// Returns the layout of a process that starts: these parts in this order, no mapping, and an empty heap at the end of
    /// the last part (at address 0 if there are no parts). There are at most `MOST_PARTS` parts, and each ends at TRAPFRAME or below.
    pub fn new(scheme: Scheme, parts: &[Part]) -> Layout
        requires few { length parts.now ≤ MOST_PARTS }
        requires low { All (λ p. p.region.first + p.region.pages ≤ trapframe_page scheme) parts.now }
        ensures scheme { result.scheme ≡ scheme }
        ensures parts { result.parts ≡ regions_in parts.now }
        ensures mappings { result.mappings ≡ [] }
        ensures heap_base { result.heap_base ≡ 4096 * last_page 0 (regions_in parts.now) }
        ensures size { result.size ≡ result.heap_base }
    {
        let mut list = ArrayVec::new();
        let mut end = 0;
        'parts: for part in parts {
            list.push(part.region);
            end = part.region.first + part.region.pages;
        }
        Layout {
            scheme,
            parts: list,
            mappings: ArrayVec::new(),
            heap_base: end * PAGE_SIZE,
            size: end * PAGE_SIZE,
        }
    }

    /// Sets the size in bytes, the address at which the heap ends.
    pub(crate) fn set_size(&mut self, size: u64)
        ensures scheme { self.new.scheme ≡ self.old.scheme }
        ensures parts { self.new.parts ≡ self.old.parts }
        ensures mappings { self.new.mappings ≡ self.old.mappings }
        ensures heap_base { self.new.heap_base ≡ self.old.heap_base }
        ensures size { self.new.size ≡ size }
    {
        self.size = size;
    }

    /// Adds a mapping, in its place by address, to fewer than `MOST_MAPPINGS`.
    pub(crate) fn add_mapping(&mut self, mapping: Region)
        requires few { length self.old.mappings < MOST_MAPPINGS }
        ensures scheme { self.new.scheme ≡ self.old.scheme }
        ensures parts { self.new.parts ≡ self.old.parts }
        ensures mappings { self.new.mappings ≡ with_mapping (region_of mapping) self.old.mappings }
        ensures heap_base { self.new.heap_base ≡ self.old.heap_base }
        ensures size { self.new.size ≡ self.old.size }
    {
        let place = count_up_to(self.mappings.as_slice(), mapping.first);
        self.mappings.insert(place, mapping);
    }

    /// Puts `rest` in place of the mapping whose first page is `first`, or removes that mapping if `rest` is `None`. Without
    /// such a mapping nothing changes.
    pub(crate) fn replace_mapping(&mut self, first: u64, rest: Option<Region>)
        ensures scheme { self.new.scheme ≡ self.old.scheme }
        ensures parts { self.new.parts ≡ self.old.parts }
        ensures mappings { self.new.mappings ≡ with_instead self.old.mappings first (option_to_list (option_map region_of rest)) }
        ensures heap_base { self.new.heap_base ≡ self.old.heap_base }
        ensures size { self.new.size ≡ self.old.size }
    {
        let place = count_others(self.mappings.as_slice(), first);
        if place == self.mappings.len() {
            return;
        }
        let Some(region) = rest else {
            self.mappings.remove(place);
            return;
        };
        self.mappings[place] = region;
    }

    /// Returns the mappings as a slice. In the layout of a space that is a process they are in ascending order of address.
    pub fn mappings(&self) -> &[Region]
        ensures { map region_of result.now ≡ self.now.mappings }
    {
        self.mappings.as_slice()
    }

    /// Returns all regions: the parts, the heap, which may have no pages, and the mappings. In the layout of a space that is a
    /// process they are in ascending order of address.
    pub fn regions(&self) -> ArrayVec<Region, MOST_REGIONS>
        ensures { (p : Process) → LaysOut self.now p → map region_of result.items ≡ regions p }
    {
        let mut all = ArrayVec::new();
        if all.try_extend_from_slice(self.parts.as_slice()).is_err() {
            unreachable!()
        }
        all.push(self.heap());
        if all.try_extend_from_slice(self.mappings.as_slice()).is_err() {
            unreachable!()
        }
        all
    }

    /// Returns the process's scheme of translation.
    pub fn scheme(&self) -> Scheme
        ensures { result ≡ self.now.scheme }
    {
        self.scheme
    }

    /// Returns the size in bytes: the address at which the heap ends.
    pub fn size(&self) -> u64
        ensures { result ≡ self.now.size }
    {
        self.size
    }

    /// Returns the address at which the heap begins.
    pub fn heap_base(&self) -> u64
        ensures { result ≡ self.now.heap_base }
    {
        self.heap_base
    }

    /// Returns an equal layout, for a child.
    pub fn copied(&self) -> Layout
        ensures { result ≡ self.now }
    {
        // the lists are filled where they lie: to move one costs more than to copy the few regions in it
        let mut copy = Layout {
            scheme: self.scheme,
            parts: ArrayVec::new(),
            mappings: ArrayVec::new(),
            heap_base: self.heap_base,
            size: self.size,
        };
        copy_regions(&mut copy.parts, &self.parts);
        copy_regions(&mut copy.mappings, &self.mappings);
        copy
    }

    /// Returns the region that holds the page with this number, a part, the heap or a mapping; `None` if none does.
    pub fn region_at(&self, page: u64) -> Option<Region>
        ensures { (p : Process) → LaysOut self.now p → option_map region_of result ≡ model.region_at (regions p) page }
    {
        if let Some(region) = find_region(&self.parts, page) {
            return Some(region);
        }
        let heap = self.heap();
        if heap.holds_page(page) {
            return Some(heap);
        }
        find_region(&self.mappings, page)
    }

    /// Returns the heap as a region: the pages from the heap base up to the size rounded up. It may be read and written, and
    /// begins as zeros.
    pub fn heap(&self) -> Region
        ensures { (p : Process) → LaysOut self.now p → region_of result ≡ heap_of p }
    {
        let first = self.heap_base / PAGE_SIZE;
        let mut rights = Rights::READ;
        rights.insert(Rights::WRITE);
        Region {
            first,
            pages: self.size.div_ceil(PAGE_SIZE).saturating_sub(first),
            rights,
            kind: RegionKind::Heap,
            source: Source::Zeros,
        }
    }

    /// Returns a page number that is above every page of every region, if the regions are in order, and at most
    /// TRAPFRAME's: the heap's end, rounded up to whole pages, if there is no mapping, else TRAPFRAME's.
    pub fn end(&self) -> u64
        ensures low { (p : Process) → LaysOut self.now p → HasOrder 0 p → result ≤ trapframe_page p.scheme }
        ensures end { (p : Process) → LaysOut self.now p → HasOrder 0 p → (n : ℕ) (r : model.Region) → model.region_at (regions p) n ≡ Some r → n < result }
    {
        if self.mappings.is_empty() {
            self.size.div_ceil(PAGE_SIZE)
        } else {
            self.scheme.trapframe().page().number()
        }
    }

    /// Returns the first rule that denies a kernel copy (copyin, copyout) this access at `va`, `None` if none does:
    /// `BeyondMax`, `KernelPage`, `GuardPage`, `NoRegion`, or `NoExec`, `NoRead` or `NoWrite`, by the access. Alignment
    /// does not matter.
    pub fn copy_rule(&self, access: Access, va: Va) -> Option<Rule>
        ensures { (p : Process) → LaysOut self.now p → result ≡ model.copy_rule p.scheme (regions p) access va.0 }
    {
        let page = va.page().number();
        if va >= self.scheme.maxva() {
            return Some(Rule::BeyondMax);
        }
        let (trampoline, trapframe) = (self.scheme.trampoline(), self.scheme.trapframe());
        if page == trampoline.page().number() || page == trapframe.page().number() {
            return Some(Rule::KernelPage);
        }
        let Some(region) = self.region_at(page) else {
            return Some(Rule::NoRegion);
        };
        if region.kind == RegionKind::Guard {
            return Some(Rule::GuardPage);
        }
        if region.lacks_right(access) {
            return Some(right_rule(access));
        }
        None
    }

    /// Checks by the regions whether the user may make an access of `width` bytes, which is not 0, at `va`.
    ///
    /// # Errors
    /// Exactly when a rule of the regions denies the access: the first such rule. It is `Misaligned` if `va` is no multiple
    /// of `width`, else the rule that `copy_rule` returns.
    pub fn grant(&self, access: Access, va: Va, width: u64) -> Result<(), Rule>
        requires { 0 < width }
        ensures { (p : Process) → LaysOut self.now p → result ≡ granted_unless (model.first_rule p.scheme (regions p) access va.0 width) }
    {
        if va.0 % width != 0 {
            return Err(Rule::Misaligned);
        }
        match self.copy_rule(access, va) {
            Some(rule) => Err(rule),
            None => Ok(()),
        }
    }
}

/// Copies a list of regions to an empty one.
fn copy_regions<const CAP: usize>(copy: &mut ArrayVec<Region, CAP>, list: &ArrayVec<Region, CAP>)
    requires { copy.old.items ≡ [] }
    ensures { copy.new.items ≡ list.now.items }
{
    if copy.try_extend_from_slice(list.as_slice()).is_err() {
        unreachable!()
    }
}

/// Returns how many regions at the front of the list begin at page `first` or below.
fn count_up_to(regions: &[Region], first: u64) -> usize
    ensures { result ≡ prefix_len (λ (r : CodeRegion). nat_le r.first first) regions.now }
{
    regions.iter().take_while(|r| r.first <= first).count()
}

/// Returns how many regions at the front of the list do not begin at page `first`.
fn count_others(regions: &[Region], first: u64) -> usize
    ensures { result ≡ prefix_len (λ (r : CodeRegion). not (r.first == first)) regions.now }
{
    regions.iter().take_while(|r| r.first != first).count()
}

/// Returns the first of these regions that holds a page, `None` if none does.
fn find_region(regions: &[Region], page: u64) -> Option<Region>
    ensures { option_map region_of result ≡ model.region_at (map region_of regions.now) page }
{
    for region in regions {
        if region.holds_page(page) {
            return Some(*region);
        }
    }
    None
}

/// Returns the rule for lack of the right that an access needs.
fn right_rule(access: Access) -> Rule
    ensures { result ≡ model.right_rule access }
{
    match access {
        Access::Fetch => Rule::NoExec,
        Access::Load => Rule::NoRead,
        Access::Store => Rule::NoWrite,
    }
}
