// Quizzes about copy-on-write forks: who shares a frame, which stores fault, what parent and child read.

use crate::process::Access;
use crate::quiz::{Place, Quiz};
use crate::steps::Touch;
use usertest_world::PAGE;

/// Where the accesses of a quiz go: few places, so that parent and child meet.
#[derive(Clone, Copy)]
struct Spots {
    /// The first byte of the data, which the image gives.
    data: u64,
    /// Another byte of the same page.
    beside: u64,
    /// A byte of the stack.
    stack: u64,
}

impl Quiz {
    /// Returns the address of the guard page, two pages below the heap.
    fn guard(&self) -> u64 {
        let (base, _) = self.heap();
        base.saturating_sub(2 * PAGE)
    }

    /// Returns one of the places.
    fn spot(&mut self, spots: Spots) -> u64 {
        match self.random.below(8) {
            0..=3 => spots.data,
            4 | 5 => spots.beside,
            _ => spots.stack,
        }
    }

    /// Loads from one of the places. Returns whether the process goes on.
    fn load_spot(&mut self, spots: Spots) -> bool {
        let address = self.spot(spots);
        self.touch(Touch::load(address), true)
    }

    /// Stores to one of the places. Returns whether the process goes on.
    fn store_spot(&mut self, spots: Spots) -> bool {
        let (address, value) = (self.spot(spots), self.random.between(0x10, 0x100));
        let counts = self.random.chance(600);
        self.touch(Touch::store(address, value), counts)
    }

    /// Puts another process on the hart, if there is one, and makes it load or store.
    fn turn(&mut self, spots: Spots) -> bool {
        match self.another() {
            Some(number) => {
                self.to_process(number);
                if self.random.chance(600) {
                    self.load_spot(spots)
                } else {
                    self.store_spot(spots)
                }
            }
            None => true,
        }
    }

    /// Makes an access that is denied: the process ends. Returns false.
    fn deny_cow(&mut self) -> bool {
        let guard = self.guard();
        let touch = match self.random.below(4) {
            0 => Touch::load(guard.saturating_add(8)),
            1 => Touch::store(self.random.below(0x100), 1),
            2 => Touch {
                access: Access::Load,
                address: PAGE.saturating_add(self.random.between(1, 4)),
                width: 4,
                value: 0,
            },
            _ => Touch::fetch(PAGE),
        };
        self.touch(touch, false)
    }

    /// The kernel copies to the end of the data, and maybe past it.
    fn copy_to_guard(&mut self) {
        let guard = self.guard();
        let address = guard.saturating_sub(self.random.between(1, 6));
        let count = self.random.between(2, 8);
        self.copy_out(address, count);
        self.audit(true);
    }

    /// Counts the frames, and goes on with another process, after one has ended. Returns whether there is one.
    fn after_end(&mut self) -> bool {
        self.audit(true);
        match self.another() {
            Some(number) => {
                self.to_process(number);
                true
            }
            None => false,
        }
    }

    /// Makes a step of a sort from 0 on, below 20. Returns whether the process goes on.
    fn step_of_sort(&mut self, spots: Spots, sort: u64) -> bool {
        match sort {
            0..=6 => return self.store_spot(spots),
            7..=9 => return self.load_spot(spots),
            14 | 15 => self.copy_to_guard(),
            16 if self.processes.len() < 3 => {
                self.fork();
                self.audit(true);
            }
            16 | 17 if self.another().is_some() => {
                self.exit();
                return false;
            }
            18 if self.another().is_some() => return self.deny_cow(),
            _ => return self.turn(spots),
        }
        true
    }

    /// Makes a step. Returns whether a process is left.
    fn step_cow(&mut self, spots: Spots) -> bool {
        let sort = self.random.below(20);
        let goes_on = self.step_of_sort(spots, sort);
        if goes_on && self.place != Place::Idle {
            return true;
        }
        self.after_end()
    }

    /// Declares an image with a page of code and so many bytes of data, all alike.
    fn declare_filled(&mut self, size: u64, byte: u64) {
        self.declare(format!(in self.alloc;
            "image 0x0:0x1000:rx:13050000 0x1000:{size:#x}:rw:{byte:02x}"
        ));
    }

    /// Returns where the accesses go.
    fn spots(&mut self) -> Spots {
        let (base, _) = self.heap();
        Spots {
            data: PAGE,
            beside: PAGE.saturating_add(self.random.between(1, 512).saturating_mul(8)),
            stack: base.saturating_sub(self.random.between(1, 64).saturating_mul(8)),
        }
    }

    /// Makes a quiz about copy-on-write.
    pub(crate) fn make_cow(&mut self) {
        let (pages, byte) = (self.random.between(1, 4), self.random.between(0x10, 0x100));
        let size = PAGE.saturating_mul(pages);
        self.declare_filled(size, byte);
        self.begin("boot 1 64 4 full", pages);
        let spots = self.spots();
        if self.random.chance(300) {
            self.store_spot(spots);
        }
        self.to_kernel();
        self.audit(false);
        self.fork();
        let asks = self.random.chance(500);
        self.audit(asks);
        self.go_on_cow(spots);
    }

    /// Makes steps until the script is long, or no process is left.
    fn go_on_cow(&mut self, spots: Spots) {
        for _ in 0..30 {
            if self.is_long() || !self.step_cow(spots) {
                break;
            }
        }
    }
}
