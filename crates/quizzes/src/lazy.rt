// Quizzes about a lazy heap: what sbrk answers, which accesses fault, how many frames a touch takes, what a page reads after the heap
// shrank and grew.

use crate::process::Access;
use crate::quiz::{Place, Quiz};
use crate::steps::Touch;
use usertest_world::{PAGE, rounded_up};

/// By how much heaps grow: from less than a page to so much that their pages need several page tables.
const GROWTHS: [u64; 8] = [
    0x2345, 0x1000, 0x3000, 0x10000, 0x1f_0000, 0x20_0000, 0x40_0000, 0x100,
];

impl Quiz {
    /// Returns where the heap begins and ends.
    pub(crate) fn heap(&self) -> (u64, u64) {
        match self.me() {
            Some(me) => (me.base, me.size),
            None => (0, 0),
        }
    }

    /// Grows the heap.
    fn grow(&mut self) {
        self.to_kernel();
        let growth = self.random.choice(&GROWTHS);
        let (_, size) = self.heap();
        if let Some(me) = self.me_mut() {
            me.resize(size.saturating_add(growth));
        }
        self.ask_sbrk("", growth, "old");
    }

    /// Asks for an sbrk of so many bytes, with this sign before them.
    fn ask_sbrk(&mut self, sign: &str, bytes: u64, words: &str) {
        self.ask(format!(in self.alloc; "sbrk 0 {sign}{bytes:#x}"), words);
    }

    /// Shrinks the heap by some of its pages, and asks what audit says then.
    fn shrink(&mut self) {
        self.to_kernel();
        let (base, size) = self.heap();
        let most = size.saturating_sub(base);
        if most == 0 {
            return self.grow();
        }
        let less = match self.random.below(3) {
            0 => most,
            1 => most / 2,
            _ => most.min(PAGE),
        };
        if let Some(me) = self.me_mut() {
            me.resize(size.saturating_sub(less));
        }
        self.ask_sbrk("-", less, "old");
        self.audit(true);
    }

    /// Asks for a heap that is refused.
    fn refuse_heap(&mut self) {
        self.to_kernel();
        let (base, size) = self.heap();
        if self.random.chance(500) {
            let less = size
                .saturating_sub(base)
                .saturating_add(self.random.between(1, 0x1000));
            self.ask_sbrk("-", less, "refused");
        } else {
            let more = 0x3f_ffff_e000_u64.saturating_sub(self.random.below(2).saturating_mul(PAGE));
            self.ask_sbrk("", more, "refused");
        }
    }

    /// Returns a place in the heap: in its first page, its last page or any; `None` if it has none.
    fn heap_spot(&mut self) -> Option<u64> {
        let (base, size) = self.heap();
        let pages = rounded_up(size).saturating_sub(base) / PAGE;
        if pages == 0 {
            return None;
        }
        let page = match self.random.below(4) {
            0 => 0,
            1 | 2 => pages.saturating_sub(1),
            _ => self.random.below(pages),
        };
        let offset = page
            .saturating_mul(PAGE)
            .saturating_add(self.random.below(3).saturating_mul(8));
        Some(base.saturating_add(offset))
    }

    /// Accesses the heap. Returns whether the process goes on.
    fn touch_heap(&mut self) -> bool {
        let Some(address) = self.heap_spot() else {
            return true;
        };
        if self.random.chance(500) {
            let value = self.random.between(0x10, 0x100);
            self.touch(Touch::store(address, value), true)
        } else {
            self.touch(Touch::load(address), true)
        }
    }

    /// The kernel copies to the end of the heap, and maybe past it.
    fn copy_to_end(&mut self) {
        let (_, size) = self.heap();
        let before = self.random.between(1, 8);
        let address = rounded_up(size).saturating_sub(before);
        let count = self.random.between(2, 12);
        self.copy_out(address, count);
        self.audit(true);
    }

    /// The kernel copies from the last page of the heap, and maybe from past it.
    fn copy_from_end(&mut self) {
        let (_, size) = self.heap();
        let address = rounded_up(size).saturating_sub(self.random.between(1, 6));
        let count = self.random.between(2, 8);
        self.copy_in(address, count);
    }

    /// Makes an access that is denied. Returns false.
    fn deny_lazy(&mut self) -> bool {
        let (base, size) = self.heap();
        let touch = match self.random.below(4) {
            0 => Touch::load(rounded_up(size)),
            1 => Touch::store(base.saturating_sub(2 * PAGE), 1),
            2 => Touch::fetch(base.saturating_sub(PAGE)),
            _ => Touch {
                access: Access::Load,
                address: base
                    .saturating_sub(PAGE)
                    .saturating_add(self.random.between(1, 8)),
                width: 8,
                value: 0,
            },
        };
        self.touch(touch, false)
    }

    /// Makes a step. Returns whether the process goes on.
    fn step_lazy(&mut self) -> bool {
        match self.random.below(20) {
            0..=7 => return self.touch_heap(),
            8 | 9 => self.grow(),
            10..=12 => self.shrink(),
            13 | 14 => self.copy_to_end(),
            15 | 16 => self.copy_from_end(),
            17 => self.refuse_heap(),
            _ if self.lines.len() > 15 => return self.deny_lazy(),
            _ => return self.touch_heap(),
        }
        true
    }

    /// Makes a quiz about a lazy heap.
    pub(crate) fn make_lazy(&mut self) {
        let (pages, over) = (self.random.between(1, 5), self.random.below(3));
        let size = PAGE
            .saturating_mul(pages)
            .saturating_sub(over.saturating_mul(0x123));
        self.declare_zeros(size);
        self.begin("boot 1 64 1 full", pages);
        self.to_kernel();
        self.audit(false);
        self.grow();
        self.go_on_lazy();
    }

    /// Makes steps until the script is long, or the process has ended; then counts the frames.
    fn go_on_lazy(&mut self) {
        for _ in 0..30 {
            if self.is_long() || self.place == Place::Idle || !self.step_lazy() {
                break;
            }
        }
        if self.place == Place::Idle {
            self.audit(true);
        }
    }
}
