// Quizzes about the TLB: which entries are kept through traps, forks and switches, and whom they serve.

use crate::harts::Harts;
use crate::process::{Access, Process};
use crate::quiz::Quiz;
use crate::steps::Touch;

/// Addresses in the pages of data, in the page of the stack, and where the heap begins, which is empty.
const SPOTS: [u64; 5] = [0x1000, 0x1000, 0x2000, 0x4000, 0x5000];

impl Harts {
    /// Makes a step in user mode on the hart: an access, by an entry or by a walk.
    fn access_any(&mut self, quiz: &mut Quiz) {
        self.to_user(quiz);
        let count = self.entries();
        let named = quiz.random.index(count.saturating_add(1));
        let entry = if count > 0 && quiz.random.chance(800) {
            named.min(count.saturating_sub(1))
        } else {
            named
        };
        let address = self.address_by(quiz, entry);
        let touch = if quiz.random.chance(350) {
            let value = quiz.random.between(0x10, 0x100);
            Touch::store(address, value)
        } else {
            Touch::load(address)
        };
        self.access_by(quiz, touch, entry);
    }

    /// Returns where an access by an entry goes: mostly to its page; early in a quiz, where a load is granted.
    fn address_by(&self, quiz: &mut Quiz, entry: usize) -> u64 {
        let spot = quiz.random.choice(&SPOTS);
        let address = match self.page_of_entry(entry) {
            Some(page) if quiz.random.chance(850) => page,
            _ => spot,
        };
        let early = quiz.lines.len() < 14;
        if early && !self.grants(Access::Load, address) {
            0x1000
        } else {
            address
        }
    }

    /// Fills an entry, in user mode or in the kernel.
    fn fill_any(&mut self, quiz: &mut Quiz) {
        let spot = quiz.random.choice(&SPOTS);
        self.fill(quiz, spot, true);
    }

    /// Stores by a walk, and serves the fault if there is one.
    fn store_any(&mut self, quiz: &mut Quiz) {
        self.to_user(quiz);
        let address = quiz.random.choice(&[0x1000, 0x2000, 0x4000]);
        let value = quiz.random.between(0x10, 0x100);
        self.access_by_walk(quiz, Touch::store(address, value));
    }

    /// Grows the heap by a page.
    fn grow(&mut self, quiz: &mut Quiz) {
        self.to_kernel(quiz);
        let hart = self.hart;
        if let Some(me) = self.me_mut() {
            let size = me.size.saturating_add(0x1000);
            me.resize(size);
        }
        quiz.say(format!(in quiz.alloc; "sbrk {hart} 0x1000"), "old");
    }

    /// Enters the kernel instruction by instruction: two of the three are fences.
    fn enter_slowly(&mut self, quiz: &mut Quiz) {
        self.to_user(quiz);
        if self.entries() == 0 {
            self.fill_any(quiz);
        }
        self.trap(quiz);
        for number in 0..3 {
            if quiz.random.chance(400) {
                self.fill_any(quiz);
            } else if quiz.random.chance(500) {
                self.evict(quiz, 0);
            }
            self.next(quiz, number);
        }
        self.fill_any(quiz);
    }

    /// Makes a step.
    fn step(&mut self, quiz: &mut Quiz) {
        if self.is_idle() {
            self.switch(quiz);
        }
        if !self.is_idle() {
            self.step_busy(quiz);
        }
    }

    /// Makes a step on a hart that has a process.
    fn step_busy(&mut self, quiz: &mut Quiz) {
        match quiz.random.below(20) {
            0..=3 => self.fill_any(quiz),
            4..=9 => self.access_any(quiz),
            10 => {
                self.to_kernel(quiz);
                self.to_user(quiz);
            }
            11 => self.fork(quiz),
            12 | 13 => self.store_any(quiz),
            14 | 15 => self.switch(quiz),
            16 => self.evict_any(quiz),
            17 => self.grow(quiz),
            18 if !self.asids => self.enter_slowly(quiz),
            _ => self.turn(quiz),
        }
    }

    /// Removes an entry, or is refused.
    fn evict_any(&mut self, quiz: &mut Quiz) {
        let entry = quiz.random.index(self.entries().saturating_add(1));
        self.evict(quiz, entry);
    }

    /// Accesses by the first entry, if there is one.
    fn look_back(&mut self, quiz: &mut Quiz) {
        if self.is_idle() {
            return;
        }
        self.access_any(quiz);
    }
}

impl Quiz {
    /// Declares an image with a page of code and two of data.
    fn declare_image(&mut self) {
        let (first, second) = (
            self.random.between(0x10, 0x100),
            self.random.between(0x10, 0x100),
        );
        self.declare(format!(in self.alloc;
            "image 0x0:0x1000:rx:13050000 0x1000:0x1000:rw:{first:02x} 0x2000:0x1000:rw:{second:02x}"
        ));
    }

    /// Boots a machine with so many harts, and starts two processes.
    fn begin_entries(&mut self, harts: u64, asids: bool) {
        self.declare_image();
        self.declare_image();
        let policy = if asids { "asid" } else { "full" };
        self.say(format!(in self.alloc; "boot {harts} 64 4 {policy}"), "ok");
        self.say_words("start 0", "slot 0");
        self.say_words("start 1", "slot 1");
    }

    /// Makes a quiz about entries that scripts fill.
    fn make_entries(&mut self, asids: bool) {
        let harts = self.random.between(1, 3);
        self.begin_entries(harts, asids);
        let Ok(mut play) = Harts::new(self.alloc, harts, asids) else {
            return self.lose();
        };
        for slot in 0..2 {
            play.add_process(self, Process::new(self.alloc, slot, 2));
            play.mark(self, slot as usize);
        }
        play.put_on(self, 0);
        play.fill(self, 0x1000, false);
        for _ in 0..30 {
            if self.is_long() {
                break;
            }
            play.step(self);
        }
        play.look_back(self);
    }

    /// Makes a quiz about TLB entries: by scripts, with fences that empty the TLB or with ASIDs; or by lines for a reference MMU, whose
    /// page table entries change without a fence.
    pub(crate) fn make_tlb(&mut self) {
        match self.random.below(10) {
            0..=3 => self.make_stale(),
            4 | 5 => self.make_entries(false),
            _ => self.make_entries(true),
        }
    }
}

/// Returns whether an access stores.
pub(crate) fn stores(touch: Touch) -> bool {
    touch.access == Access::Store
}
