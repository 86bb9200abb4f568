// Steps of processes: the lines of accesses and kernel calls, and what the generator then knows.

use crate::process::{Access, Process, lives, place_after};
use crate::quiz::{Place, Quiz};
use std::alloc::AllocError;

/// An access to an address.
#[derive(Clone, Copy)]
pub(crate) struct Touch {
    pub access: Access,
    pub address: u64,
    pub width: u64,
    /// What a store stores.
    pub value: u64,
}

impl Touch {
    /// Returns a load of a byte.
    pub fn load(address: u64) -> Touch {
        Touch {
            access: Access::Load,
            address,
            width: 1,
            value: 0,
        }
    }

    /// Returns a fetch of an instruction.
    pub fn fetch(address: u64) -> Touch {
        Touch {
            access: Access::Fetch,
            address,
            width: 4,
            value: 0,
        }
    }

    /// Returns a store of a byte.
    pub fn store(address: u64, value: u64) -> Touch {
        Touch {
            access: Access::Store,
            address,
            width: 1,
            value,
        }
    }
}

impl Quiz {
    /// Declares an image with a page of code and so many bytes of zeros.
    pub(crate) fn declare_zeros(&mut self, size: u64) {
        self.declare(format!(in self.alloc; "image 0x0:0x1000:rx:13050000 0x1000:{size:#x}:rw:-"));
    }

    /// Boots a machine, and puts a process with so many pages of data on its hart. Its image was declared.
    pub(crate) fn begin(&mut self, boot: &str, data_pages: u64) {
        self.say_words(boot, "ok");
        self.say_words("start 0", "slot 0");
        self.say_words("on 0 0", "ok");
        let process = Process::new(self.alloc, 0, data_pages);
        self.add_process(process);
        self.current = 0;
        self.place = Place::User;
    }

    /// Adds a process.
    fn add_process(&mut self, process: Result<Process, AllocError>) {
        let Ok(process) = process else {
            return self.lose();
        };
        if self.processes.push(process).is_err() {
            self.lose();
        }
    }

    /// The hart enters the kernel, if it is in user mode.
    pub(crate) fn to_kernel(&mut self) {
        if self.place != Place::User {
            return;
        }
        self.place = Place::Kernel;
        self.say_words("enter 0", "ok");
    }

    /// The hart returns to user mode, if it is in the kernel.
    pub(crate) fn to_user(&mut self) {
        if self.place != Place::Kernel {
            return;
        }
        self.place = Place::User;
        self.say_words("leave 0", "ok");
    }

    /// Puts another process on the hart.
    pub(crate) fn to_process(&mut self, number: usize) {
        self.to_kernel();
        self.current = number;
        self.place = Place::User;
        let slot = match self.me() {
            Some(me) => me.slot,
            None => 0,
        };
        self.say(format!(in self.alloc; "on 0 {slot}"), "ok");
    }

    /// Returns the place of a living process other than the current one; `None` if there is none.
    pub(crate) fn another(&mut self) -> Option<usize> {
        let count = self.processes.len();
        let first = self.random.index(count);
        for step in 0..count {
            let number = place_after(first, step, count);
            if lives(self.processes.as_slice(), number) && number != self.current {
                return Some(number);
            }
        }
        None
    }

    /// Returns the text of an access.
    pub(crate) fn touch_text(&self, touch: Touch) -> Result<String, AllocError> {
        let (address, width, value) = (touch.address, touch.width, touch.value);
        match touch.access {
            Access::Fetch => format!(in self.alloc; "fetch 0 {address:#x}"),
            Access::Load => format!(in self.alloc; "load 0 {address:#x} {width}"),
            Access::Store => format!(in self.alloc; "store 0 {address:#x} {width} {value:#x}"),
        }
    }

    /// Returns whether the process on the hart is granted an access, and whether it needs no service.
    fn judged(&self, touch: Touch) -> (bool, bool) {
        let Some(me) = self.me() else {
            return (false, false);
        };
        let granted = me.grants(touch.access, touch.address, touch.width);
        (granted, granted && me.is_ready(touch.access, touch.address))
    }

    /// Makes an access in user mode, worth a question if `asks`. Returns whether it faults.
    fn try_touch(&mut self, touch: Touch, asks: bool) -> bool {
        self.to_user();
        let (_, ready) = self.judged(touch);
        let words = match touch.access {
            _ if !ready => "fault",
            Access::Store => "stored",
            _ => "value",
        };
        let text = self.touch_text(touch);
        self.put(asks, text, words);
        !ready
    }

    /// Serves the fault of an access. Returns whether the process goes on.
    fn serve(&mut self, touch: Touch) -> bool {
        let (granted, _) = self.judged(touch);
        if granted {
            if let Some(me) = self.me_mut() {
                let served = me.serve(touch.access, touch.address);
                self.note(served);
            }
            self.say_words("fix 0", "ready");
            return true;
        }
        self.end();
        let text = String::from_str(self.alloc, "fix 0");
        self.ask(text, "ended");
        false
    }

    /// Makes an access; if it faults, serves it, asks what audit says then if `counts`, and makes it again. Returns whether the process
    /// goes on.
    pub(crate) fn touch(&mut self, touch: Touch, counts: bool) -> bool {
        if !self.try_touch(touch, true) {
            return true;
        }
        if !self.serve(touch) {
            return false;
        }
        if counts {
            self.audit(true);
        }
        let text = self.touch_text(touch);
        match touch.access {
            Access::Store => self.say(text, "stored"),
            _ => self.ask(text, "value"),
        }
        true
    }

    /// Counts the frames.
    pub(crate) fn audit(&mut self, asks: bool) {
        let text = String::from_str(self.alloc, "audit");
        self.put(asks, text, "free");
    }

    /// Returns whether a living process is in this slot.
    fn is_taken(&self, slot: u64) -> bool {
        for process in self.processes.as_slice() {
            if process.lives && process.slot == slot {
                return true;
            }
        }
        false
    }

    /// Returns the lowest slot without a process.
    fn free_slot(&self) -> u64 {
        let count = self.processes.len() as u64;
        for slot in 0..count {
            if !self.is_taken(slot) {
                return slot;
            }
        }
        count
    }

    /// Forks; the parent stays on the hart, in the kernel.
    pub(crate) fn fork(&mut self) {
        self.to_kernel();
        let slot = self.free_slot();
        self.say_words("fork 0", "slot");
        let alloc = self.alloc;
        let child = match self.me_mut() {
            Some(me) => {
                me.mark();
                me.child(alloc, slot)
            }
            None => return,
        };
        self.add_process(child);
    }

    /// The process on the hart exits.
    pub(crate) fn exit(&mut self) {
        self.to_kernel();
        let status = self.random.below(100);
        self.say(format!(in self.alloc; "exit 0 {status}"), "exited");
        self.end();
    }

    /// The process on the hart has ended.
    fn end(&mut self) {
        self.place = Place::Idle;
        if let Some(me) = self.me_mut() {
            me.lives = false;
        }
    }

    /// The kernel copies bytes to the process, as many as `bytes` has.
    pub(crate) fn copy_out(&mut self, address: u64, count: u64) {
        self.to_kernel();
        let text = format!(in self.alloc; "copyout 0 {address:#x} ");
        let text = self.with_bytes(text, count);
        let done = self.copied(Access::Store, address, count);
        self.ask_copy(text, done, count);
    }

    /// The kernel copies bytes from the process.
    pub(crate) fn copy_in(&mut self, address: u64, count: u64) {
        self.to_kernel();
        let done = self.copied(Access::Load, address, count);
        let text = format!(in self.alloc; "copyin 0 {address:#x} {count}");
        self.ask_copy(text, done, count);
    }

    /// Notes that the pages of a copy are ready, as far as it comes. Returns how many bytes are copied.
    fn copied(&mut self, access: Access, address: u64, count: u64) -> u64 {
        let Some(me) = self.me_mut() else {
            return 0;
        };
        let done = me.copies(access == Access::Store, address, count);
        let served = me.serve_bytes(access, address, done);
        self.note(served);
        done
    }
}
