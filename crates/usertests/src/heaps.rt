// Steps in the heap.

use crate::denials::{Denied, NO_REGION};
use crate::state::{Maker, begins};
use std::alloc::AllocError;
use usertest_rows::{Call, Kind};
use usertest_world::{HEAP, PAGE, Place, pages_of, rounded_up};

/// Offsets in a page.
const IN_A_PAGE: [u64; 7] = [0, 8, 16, 1000, 2048, 4080, 4088];

/// The most pages of a heap that gets many untouched pages.
const MOST_LAZY_PAGES: u64 = 4000;

/// The most bytes of a heap that becomes huge.
const MOST_BEFORE_HUGE: u64 = 0x100_0000;

impl Maker {
    /// Returns one of the places where any process has stored lately, if it may be accessed.
    fn hot_place(&mut self, width: u64) -> Option<u64> {
        let offset = self.random.choice(self.hot.as_slice());
        let is_good = offset.is_multiple_of(width)
            && offset.saturating_add(width) <= self.world.me().size;
        if is_good && !self.hot.is_empty() {
            Some(offset)
        } else {
            None
        }
    }

    /// Adds those of some heap offsets that an access of this width may be to.
    fn put_good(
        &self,
        found: &mut Vec<u64>,
        offsets: &[u64],
        width: u64,
    ) -> Result<(), AllocError> {
        let size = self.world.me().size;
        for offset in offsets {
            if offset.is_multiple_of(width) && offset.saturating_add(width) <= size {
                found.push(*offset)?;
            }
        }
        Ok(())
    }

    /// Returns the places where the process has stored and that an access of this width may be to.
    fn good_spots(&self, width: u64) -> Result<Vec<u64>, AllocError> {
        let mut found = Vec::new(self.alloc);
        self.put_good(&mut found, self.world.me().spots.as_slice(), width)?;
        Ok(found)
    }

    /// `good_spots`, with the places where any process has stored lately.
    pub(crate) fn all_good_spots(&self, width: u64) -> Result<Vec<u64>, AllocError> {
        let mut found = self.good_spots(width)?;
        self.put_good(&mut found, self.hot.as_slice(), width)?;
        Ok(found)
    }

    /// Returns any heap offset for an access; `None` if the heap is too small.
    fn any_place(&mut self, width: u64) -> Option<u64> {
        let size = self.world.me().size;
        if size < width {
            return None;
        }
        let pages = pages_of(size);
        let mut page = self.random.below(pages);
        if self.random.chance(400) {
            page = self.random.below(4).min(pages.saturating_sub(1));
        }
        let offset = page
            .saturating_mul(PAGE)
            .saturating_add(self.random.choice(&IN_A_PAGE));
        if offset.saturating_add(width) <= size {
            Some(offset)
        } else {
            Some(0)
        }
    }

    /// Returns a heap offset for an access, often where someone has stored if `near`; `None` if the heap is too small.
    pub(crate) fn heap_place(&mut self, width: u64, near: bool) -> Option<u64> {
        if self.kind.shares_copies()
            && near
            && self.random.chance(350)
            && let Some(offset) = self.hot_place(width)
        {
            return Some(offset);
        }
        let Ok(spots) = self.good_spots(width) else {
            self.lose();
            return None;
        };
        if near && self.random.chance(650) && !spots.is_empty() {
            return Some(self.random.choice(spots.as_slice()));
        }
        self.any_place(width)
    }

    /// Loads 8 bytes from the heap.
    pub(crate) fn load_heap_at(&mut self, offset: u64) {
        self.load(Place::heap(offset), 8);
    }

    /// Loads from the heap. Returns whether it is large enough.
    pub(crate) fn load_heap(&mut self, width: u64) -> bool {
        match self.heap_place(width, true) {
            Some(offset) => {
                self.load(Place::heap(offset), width);
                true
            }
            None => false,
        }
    }

    /// Stores to the heap. Returns whether it is large enough.
    pub(crate) fn store_heap(&mut self, width: u64) -> bool {
        let near = self.random.chance(500);
        let Some(offset) = self.heap_place(width, near) else {
            return false;
        };
        self.remember(offset);
        let value = self.random.value(width);
        self.store(Place::heap(offset), width, value);
        true
    }

    /// Stores to so many pages in a row, values in a row.
    fn store_pages(&mut self, first: u64, count: u64) {
        let (step, value) = (self.test.next_line(), self.random.between(1, 1 << 30));
        for number in 0..count {
            let page = first.saturating_add(number);
            let place = Place::heap(page.saturating_mul(PAGE));
            self.test.say_store(place, 8, value.saturating_add(number));
        }
        let place = Place::heap(first.saturating_mul(PAGE));
        let text = format!(in self.alloc; "  stp({step}, {place}, {count}, {value:#x});\n");
        self.write_text(text);
        self.remember(first.saturating_mul(PAGE));
        let last = first.saturating_add(count).saturating_sub(1);
        self.remember(last.saturating_mul(PAGE));
    }

    /// Loads from so many pages in a row.
    fn load_pages(&mut self, first: u64, count: u64) {
        for number in 0..count {
            let page = first.saturating_add(number);
            self.load_heap_at(page.saturating_mul(PAGE));
        }
    }

    /// Loads from several pages in a row, or stores to them. Returns whether there are several.
    pub(crate) fn some_pages(&mut self) -> bool {
        let full = self.world.me().size / PAGE;
        if full < 2 {
            return false;
        }
        let count = self.random.between(2, full.min(12).saturating_add(1));
        let first = self
            .random
            .below(full.saturating_sub(count).saturating_add(1));
        if self.random.chance(500) {
            self.store_pages(first, count);
        } else {
            self.load_pages(first, count);
        }
        true
    }

    /// Calls sbrk so that the heap has this size.
    pub(crate) fn resize(&mut self, size: u64) {
        let Ok(change) = self.change_to(size) else {
            return self.lose();
        };
        let step = self.test.next_line();
        self.say_sbrk(change.as_str());
        let change = change.as_str();
        self.write_step(Call::Grow, step, format!(in self.alloc; "{change}, "));
        self.world.me_mut().resize(size);
    }

    /// Returns by how many bytes sbrk changes the heap to this size.
    fn change_to(&self, size: u64) -> Result<String, AllocError> {
        let old = self.world.me().size;
        if size < old {
            let less = old.saturating_sub(size);
            format!(in self.alloc; "-{less}")
        } else {
            let more = size.saturating_sub(old);
            format!(in self.alloc; "{more}")
        }
    }

    /// Adds the lines of an sbrk.
    fn say_sbrk(&mut self, change: &str) {
        let address = HEAP.saturating_add(self.world.me().size);
        let line = format!(in self.alloc; "sbrk 0 {change}");
        let words = format!(in self.alloc; "old {address:#x}");
        self.test.say_call(line, begins(words));
    }

    /// Returns another size for the heap; `None` if it shall shrink and is empty.
    fn other_size(&mut self) -> Option<u64> {
        let old = self.world.me().size;
        let most = self.kind.most_pages().saturating_mul(PAGE);
        if self.random.chance(550) && old < most {
            let more = if self.kind.is_lazy() && self.random.chance(400) {
                self.random.between(1, 200).saturating_mul(PAGE)
            } else {
                self.random
                    .choice(&[PAGE, 2 * PAGE, 3 * PAGE, 5000, 100, 9000])
            };
            return Some(old.saturating_add(more));
        }
        if old == 0 {
            return None;
        }
        let half = (old / 2).saturating_add(1);
        let less = self
            .random
            .choice(&[PAGE, 2 * PAGE, 100, 5000, 3000, 3 * PAGE, half]);
        Some(old.saturating_sub(less))
    }

    /// Looks at pages that the heap has got, `first` and so on: they are zero.
    fn look_at_new(&mut self, first: u64, count: u64) {
        if self.random.chance(800) {
            if !self.kind.is_lazy() {
                self.load_pages(first, count);
            } else {
                let few = self.random.between(1, 6).min(count);
                let room = count.saturating_sub(few).saturating_add(1);
                let from = first.saturating_add(self.random.below(room));
                self.load_pages(from, few);
            }
        }
        if self.kind.is_lazy() {} else {
            self.store_pages(first, count)
        }
    }

    /// Calls sbrk. New pages are zero. Kinds that don't ask for a lazy sbrk store to all of them, so that frames are taken in the model
    /// too.
    pub(crate) fn sbrk(&mut self) -> bool {
        let old = self.world.me().size;
        let Some(size) = self.other_size() else {
            return false;
        };
        self.resize(size);
        let first = pages_of(old);
        let count = (size / PAGE).saturating_sub(first);
        if count > 0 {
            self.look_at_new(first, count);
        }
        true
    }

    /// The heap ends in or below a page that was stored to; then a look there. Returns whether there is one.
    pub(crate) fn shrink(&mut self) -> bool {
        let old = self.world.me().size;
        let Ok(spots) = self.good_spots(8) else {
            self.lose();
            return false;
        };
        if spots.is_empty() {
            return false;
        }
        let spot = self.random.choice(spots.as_slice());
        let page = spot / PAGE * PAGE;
        if self.random.chance(400) {
            return self.keep_page(spot, page.saturating_add(PAGE).min(old));
        }
        let below = self.random.choice(&[0, 0, 0, 100, PAGE]);
        self.resize(page.saturating_sub(below));
        if self.random.chance(500) {
            self.deny_above(spot);
        }
        if self.random.chance(700) {
            self.grow_back(spot, old.min(rounded_up(spot.saturating_add(8))));
        }
        true
    }

    /// A child accesses a place above the heap.
    fn deny_above(&mut self, spot: u64) {
        let store = self.random.chance(500);
        self.deny(Denied {
            place: Place::heap(spot),
            width: 8,
            store,
            rule: Some(NO_REGION),
        });
    }

    /// The heap shrinks to an end in the page of `spot`, below `end`. Returns whether there is room.
    fn keep_page(&mut self, spot: u64, end: u64) -> bool {
        if end <= spot.saturating_add(9) {
            return false;
        }
        let size = self.random.between(spot.saturating_add(8), end);
        self.resize(size);
        self.load_heap_at(spot);
        true
    }

    /// Loads zeros from each page that is new in a heap of this size, and stores to it. Of the last page the heap may have less than 8 bytes.
    fn fill_new(&mut self, first: u64, end: u64, size: u64) {
        for page in first..end {
            if page.saturating_mul(PAGE).saturating_add(8) <= size {
                self.load_pages(page, 1);
                self.store_pages(page, 1);
            }
        }
    }

    /// The page of `spot` comes back, with zeros.
    fn grow_back(&mut self, spot: u64, size: u64) {
        let below = self.world.me().size;
        self.resize(size);
        if self.kind.is_lazy() {
            return self.load_heap_at(spot);
        }
        let (first, end) = (pages_of(below), pages_of(size));
        if end > first && size.is_multiple_of(PAGE) {
            self.load_pages(first, end.saturating_sub(first));
            return self.store_pages(first, end.saturating_sub(first));
        }
        self.fill_new(first, end, size);
    }

    /// Asks that no more frames are in use than in the model, with some for what a kernel needs besides. Returns whether kernels agree
    /// on that.
    pub(crate) fn bound_frames(&mut self) -> bool {
        let living = self.world.living();
        if !self.counted || self.kind == Kind::Mmap || (self.kind == Kind::Lazy && living > 1) {
            return false;
        }
        let step = self.test.next_line();
        self.test.say_words("audit", "free");
        // 16 for each process, and for the parent of the first: tables, trapframe, pipes, the program's own pages.
        let more = living.saturating_add(1).saturating_mul(16);
        let arguments = format!(in self.alloc; "{more}, ");
        self.write_step(Call::Used, step, arguments);
        true
    }

    /// Stores to many pages, and then forks, which must not copy them.
    pub(crate) fn fork_of_many_pages(&mut self) {
        let old = self.world.me().size;
        let more = self.random.between(48, 72).saturating_mul(PAGE);
        let size = old.saturating_add(more);
        self.resize(size);
        let first = pages_of(old);
        self.store_pages(first, (size / PAGE).saturating_sub(first));
        if self.fork() {
            self.bound_frames();
        }
    }

    /// Grows the heap by many pages, none of which is touched. Returns whether it has room.
    pub(crate) fn many_lazy_pages(&mut self) -> bool {
        let old = self.world.me().size;
        if old > MOST_LAZY_PAGES * PAGE {
            return false;
        }
        let more = self.random.between(100, 1500).saturating_mul(PAGE);
        self.resize(old.saturating_add(more));
        self.bound_frames();
        true
    }

    /// Touches a few pages of a huge heap, the first by a store. Returns the highest offset of a store.
    fn touch_some(&mut self) -> u64 {
        let pages = self.world.me().size / PAGE;
        let mut highest = 0;
        for number in 0..self.random.between(2, 6) {
            let offset = self
                .random
                .below(pages)
                .saturating_mul(PAGE)
                .saturating_add(self.random.choice(&[0, 8, 4088]));
            if number > 0 && self.random.chance(500) {
                self.load_heap_at(offset);
                continue;
            }
            let value = self.random.value(8);
            self.store(Place::heap(offset), 8, value);
            self.remember(offset);
            highest = offset.max(highest);
        }
        highest
    }

    /// Grows the heap to at most a gigabyte, of which a few pages are touched. A kernel may make all page tables at once. Returns whether
    /// it has room.
    pub(crate) fn huge(&mut self) -> bool {
        let old = self.world.me().size;
        if old > MOST_BEFORE_HUGE {
            return false;
        }
        let target = self.random.between(0x10000, 0x40000).saturating_mul(PAGE);
        self.counted = false;
        self.resize(target.saturating_sub(rounded_up(old)).saturating_add(old));
        let highest = self.touch_some();
        if self.random.chance(800) {
            self.shrink_huge(highest);
        }
        true
    }

    /// A huge heap becomes small, and maybe grows again up to a place that was stored to.
    fn shrink_huge(&mut self, highest: u64) {
        let size = self.random.below(16).saturating_mul(PAGE);
        self.resize(size);
        if self.random.chance(800) && highest >= size {
            self.resize(highest.saturating_add(8));
            self.load_heap_at(highest);
        }
    }

    /// The program executes itself, and has an empty heap then. Returns whether it did.
    pub(crate) fn execute_anew(&mut self) -> bool {
        if !self.execute() {
            return false;
        }
        if self.random.chance(800) {
            self.sbrk();
        }
        true
    }
}
