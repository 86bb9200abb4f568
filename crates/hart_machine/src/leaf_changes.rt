// What steps read of the process in a slot to tell whether they change leaves of its pages, so that TLB entries may be stale:
// settled pages (those in memory) in a range or without a copy-on-write mark (the next store takes the page over), and pages
// resident for an access (no fault). Also the list of settled pages, for `Fork`.

ghost use Rattle.std.specs.Prelude.{◌≡◌, ◌↔◌, ◌+◌, ◌<◌, ◌≤◌, ◌&&◌, ℕ, false, min, not, Some, true};
ghost use Rattle.address_space.specs.Accesses.{IsGranted};
ghost use Rattle.address_space.specs.Agreement.{IsSpace};
ghost use Rattle.address_space.specs.SettledLists.{AreSettled};
ghost use Rattle.frame_store.specs.Laws.{IsSeatOf};
ghost use Rattle.frame_store.specs.Plain.{PlainStateInvariant};
ghost use Rattle.hart_machine.specs.SlotProcesses.{body_in, IsSlotProcess, view_of};
ghost use Rattle.process_model.specs.PageMap.{get};
ghost use Rattle.process_model.specs.Process.{grants_write, Page, Process};
ghost use Rattle.sv39_entry.specs.Schemes.{trapframe_page};
ghost use Rattle.table_walk.specs.Tables.{Tables};

use crate::slot_process::SlotProcess;
use address_space::{SettledPage, walks_grant_what_is_resident};
use cow_fork::PageList;
use frame_store::PlainFrames;
use sv39_entry::{Access, Mode, PAGE_SIZE, Scheme, Va, Vpn};
use table_walk::Walk;

impl SlotProcess {
    /// Whether one of the pages from number `first` up to, but without, `end` is settled.
    pub(crate) fn has_settled(&mut self, frames: &mut PlainFrames, first: u64, end: u64) -> bool
        requires fits { IsSeatOf PlainStateInvariant frames.old (view_of self.old) }
        requires ready { (t : Tables) × (p : Process) × IsSlotProcess self.old t p }
        ensures some { result ≡ true → (t : Tables) (p : Process) → IsSlotProcess self.old t p → (n : ℕ) × (s : Page)
            × (get p.settled n ≡ Some s) × (first ≤ n) × (n < end) }
        ensures none { result ≡ false → (t : Tables) (p : Process) → IsSlotProcess self.old t p → (n : ℕ) (s : Page)
            → get p.settled n ≡ Some s → first ≤ n → n < end → ⊥ }
        ensures same { self.new ≡ self.old }
        ensures frames { frames.new ≡ frames.old }
    {
        let scheme = self.space.layout.scheme();
        let end = page_up_to(scheme, end);
        self.space.next_settled(frames, first, end).is_some()
    }

    /// Whether an access at `va` is granted, alignment aside, and its page is resident for it.
    pub(crate) fn is_resident(&mut self, frames: &mut PlainFrames, va: Va, access: Access) -> bool
        requires fits { IsSeatOf PlainStateInvariant frames.old (view_of self.old) }
        requires ready { (t : Tables) × (p : Process) × IsSlotProcess self.old t p }
        ensures granted { (t : Tables) (p : Process) → IsSlotProcess self.old t p → (result ≡ true) ↔ IsGranted p access va.0 }
        ensures same { self.new ≡ self.old }
        ensures frames { frames.new ≡ frames.old }
    {
        walks_grant_what_is_resident();
        matches!(
            self.space.translate(frames, va, access, Mode::User),
            Walk::Leaf { .. }
        )
    }

    /// `is_resident` at `va`, and at `va` plus 4,096: a kernel copy from `va` on, of at most `LONGEST_COPY` bytes, reaches no
    /// third page.
    pub(crate) fn residence(
        &mut self,
        frames: &mut PlainFrames,
        va: Va,
        access: Access,
    ) -> (bool, bool)
        requires fits { IsSeatOf PlainStateInvariant frames.old (view_of self.old) }
        requires ready { (t : Tables) × (p : Process) × IsSlotProcess self.old t p }
        ensures first { (t : Tables) (p : Process) → IsSlotProcess self.old t p → (result.0 ≡ true) ↔ IsGranted p access va.0 }
        ensures next { (t : Tables) (p : Process) → IsSlotProcess self.old t p → (result.1 ≡ true) ↔ IsGranted p access (va.0 + 4096) }
        ensures same { self.new ≡ self.old }
        ensures frames { frames.new ≡ frames.old }
    {
        let first = self.is_resident(frames, va, access);
        let next = match va.0.checked_add(PAGE_SIZE) {
            Some(next) => self.is_resident(frames, Va(next), access),
            None => false,
        };
        (first, next)
    }

    /// The settled pages in ascending order, each once; they are listed in `list`.
    pub(crate) fn settled_pages<'a>(
        &mut self,
        frames: &mut PlainFrames,
        list: &'a mut PageList,
    ) -> &'a [SettledPage]
        requires fits { IsSeatOf PlainStateInvariant frames.old (view_of self.old) }
        requires ready { (t : Tables) × (p : Process) × IsSlotProcess self.old t p }
        ensures settled { (t : Tables) (p : Process) → IsSpace (body_in self.old) t p → AreSettled t p 0 (trapframe_page p.scheme) result.now }
        ensures same { self.new ≡ self.old }
        ensures frames { frames.new ≡ frames.old }
    {
        list.settled_pages(&mut self.space, frames)
    }

    /// Whether one of the settled pages, which `settled` lists, may be written and has no copy-on-write mark: a fork changes
    /// its leaf.
    pub(crate) fn has_unmarked(&self, settled: &[SettledPage]) -> bool
        ensures some { result ≡ true → (t : Tables) (p : Process) → IsSlotProcess self.now t p → AreSettled t p 0 (trapframe_page p.scheme) settled.now →
            (n : ℕ) × (s : Page) × (get p.settled n ≡ Some s) × (grants_write p n ≡ true) × (s.cow ≡ false) }
        ensures none { result ≡ false → (t : Tables) (p : Process) → IsSlotProcess self.now t p → AreSettled t p 0 (trapframe_page p.scheme) settled.now →
            (n : ℕ) (s : Page) → get p.settled n ≡ Some s → grants_write p n ≡ true → s.cow ≡ true }
    {
        'pages: for page in settled {
            if self.is_unmarked(page.page.number(), page.cow) {
                return true;
            }
        }
        false
    }

    /// Whether the page with this number may be written and `cow` is false.
    fn is_unmarked(&self, page: u64, cow: bool) -> bool
        ensures { (t : Tables) (p : Process) → IsSlotProcess self.now t p → result ≡ (not cow && grants_write p page) }
    {
        !cow && self.may_write(page)
    }

    /// Whether a region holds the page with this number and grants writing.
    fn may_write(&self, page: u64) -> bool
        ensures { (t : Tables) (p : Process) → IsSlotProcess self.now t p → result ≡ grants_write p page }
    {
        match self.space.layout.region_at(page) {
            Some(region) => !region.lacks_right(Access::Store),
            None => false,
        }
    }
}

/// The page with this number, or TRAPFRAME's page if the number is not below that: no page from there on is settled.
fn page_up_to(scheme: Scheme, number: u64) -> Vpn
    ensures { result ≡ min number (trapframe_page scheme) }
{
    let last = scheme.trapframe().page();
    if number < last.number() {
        Va(number * PAGE_SIZE).page()
    } else {
        last
    }
}
