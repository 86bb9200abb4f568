// `Harts`: the harts of a script with their TLBs, as the generator knows them.

use crate::process::{Access, Process, lives, page_of, place_after};
use crate::quiz::{Place, Quiz};
use crate::steps::Touch;
use crate::tlb::stores;
use std::alloc::{AllocError, Global};

/// An entry of a TLB.
#[derive(Clone, Copy)]
struct Entry {
    page: u64,
    asid: u64,
}

/// A hart.
#[derive(Drop)]
struct Hart {
    /// Its process, by slot.
    slot: Option<usize>,
    place: Place,
    /// Between instructions of kernel entry: whether satp names the process's table.
    by_user_table: bool,
    entries: Vec<Entry>,
    /// The slots whose entries the next return to them removes.
    marked: Vec<usize>,
}

/// The harts of a script, and the one on which the next step is made.
#[derive(Drop)]
pub(crate) struct Harts {
    alloc: Global,
    /// Whether entries are kept by ASIDs, in place of fences that empty the TLB.
    pub asids: bool,
    harts: Vec<Hart>,
    pub processes: Vec<Process>,
    /// The hart of the next step.
    pub hart: usize,
    has_forked: bool,
}

impl Hart {
    /// Removes the entries of a slot's process, if the slot is marked.
    fn unmark(&mut self, slot: usize) {
        if self.marked.as_slice().contains(&slot) {
            let asid = (slot as u64).saturating_add(1);
            self.entries.retain(|entry| entry.asid != asid);
            self.marked.retain(|it| *it != slot);
        }
    }
}

impl Harts {
    /// Returns so many idle harts.
    pub fn new(alloc: Global, count: u64, asids: bool) -> Result<Harts, AllocError> {
        let mut harts = Vec::new(alloc);
        for _ in 0..count {
            let hart = Hart {
                slot: None,
                place: Place::Idle,
                by_user_table: false,
                entries: Vec::new(alloc),
                marked: Vec::new(alloc),
            };
            harts.push(hart)?;
        }
        Ok(Harts {
            alloc,
            asids,
            harts,
            processes: Vec::new(alloc),
            hart: 0,
            has_forked: false,
        })
    }

    /// Returns the place of the hart.
    fn place(&self) -> Place {
        match self.harts.get(self.hart) {
            Some(hart) => hart.place,
            None => Place::Idle,
        }
    }

    /// Returns whether the hart has no process.
    pub fn is_idle(&self) -> bool {
        self.place() == Place::Idle
    }

    /// Returns how many entries the hart's TLB has.
    pub fn entries(&self) -> usize {
        match self.harts.get(self.hart) {
            Some(hart) => hart.entries.len(),
            None => 0,
        }
    }

    /// Returns the page of an entry.
    pub fn page_of_entry(&self, entry: usize) -> Option<u64> {
        let hart = self.harts.get(self.hart)?;
        let entry = hart.entries.get(entry)?;
        Some(entry.page)
    }

    /// Returns the slot of the process on the hart.
    fn slot(&self) -> Option<usize> {
        self.harts.get(self.hart)?.slot
    }

    /// Returns the process on the hart.
    fn me(&self) -> Option<&Process> {
        self.processes.get(self.slot()?)
    }

    /// Returns the process on the hart, to be changed.
    pub fn me_mut(&mut self) -> Option<&mut Process> {
        let slot = self.slot()?;
        self.processes.get_mut(slot)
    }

    /// Notes where the hart is.
    fn set_place(&mut self, place: Place) {
        if let Some(hart) = self.harts.get_mut(self.hart) {
            hart.place = place;
            hart.by_user_table = place == Place::User;
        }
    }

    /// Adds a process.
    pub fn add_process(&mut self, quiz: &mut Quiz, process: Result<Process, AllocError>) {
        let Ok(process) = process else {
            return quiz.lose();
        };
        if self.processes.push(process).is_err() {
            quiz.lose();
        }
    }

    /// Marks a slot on every hart.
    pub fn mark(&mut self, quiz: &mut Quiz, slot: usize) {
        for hart in self.harts.as_mut_slice() {
            if hart.marked.push(slot).is_err() {
                quiz.lose();
            }
        }
    }

    /// The hart's TLB is emptied, if fences do that.
    fn fence(&mut self) {
        if self.asids {
            return;
        }
        if let Some(hart) = self.harts.get_mut(self.hart) {
            hart.entries.clear();
        }
    }

    /// The hart returns to user mode: the entries of its process go, if it is marked.
    fn clean(&mut self) {
        self.fence();
        let Some(slot) = self.slot() else {
            return;
        };
        if let Some(hart) = self.harts.get_mut(self.hart) {
            hart.unmark(slot);
        }
        self.set_place(Place::User);
    }

    /// Returns the text of this word, the hart and a number.
    fn numbered(&self, word: &str, number: usize) -> Result<String, AllocError> {
        let hart = self.hart;
        format!(in self.alloc; "{word} {hart} {number}")
    }

    /// Returns the text of this word and the hart.
    fn line(&self, word: &str) -> Result<String, AllocError> {
        let hart = self.hart;
        format!(in self.alloc; "{word} {hart}")
    }

    /// Adds a line of this word and the hart.
    fn say(&self, quiz: &mut Quiz, word: &str, answer: &str) {
        quiz.say(self.line(word), answer);
    }

    /// The hart enters the kernel, if it is in user mode.
    pub fn to_kernel(&mut self, quiz: &mut Quiz) {
        if self.place() != Place::User {
            return;
        }
        self.fence();
        self.set_place(Place::Kernel);
        self.say(quiz, "enter", "ok");
    }

    /// The hart returns to user mode, if it is in the kernel.
    pub fn to_user(&mut self, quiz: &mut Quiz) {
        if self.place() != Place::Kernel {
            return;
        }
        self.clean();
        self.say(quiz, "leave", "ok");
    }

    /// Puts the process of a slot on the hart, which is in the kernel or idle.
    pub fn put_on(&mut self, quiz: &mut Quiz, slot: usize) {
        self.to_kernel(quiz);
        if let Some(hart) = self.harts.get_mut(self.hart) {
            hart.slot = Some(slot);
        }
        self.clean();
        quiz.say(self.numbered("on", slot), "ok");
    }

    /// Returns whether the process of a slot is on a hart.
    fn runs(&self, slot: usize) -> bool {
        for hart in self.harts.as_slice() {
            if hart.slot == Some(slot) {
                return true;
            }
        }
        false
    }

    /// Returns the slot of a process that is on no hart; `None` if there is none.
    fn waiting(&self, quiz: &mut Quiz) -> Option<usize> {
        let count = self.processes.len();
        let first = quiz.random.index(count);
        for step in 0..count {
            let slot = place_after(first, step, count);
            if lives(self.processes.as_slice(), slot) && !self.runs(slot) {
                return Some(slot);
            }
        }
        None
    }

    /// Puts another process on the hart, if one waits.
    pub fn switch(&mut self, quiz: &mut Quiz) {
        match self.waiting(quiz) {
            Some(slot) => self.put_on(quiz, slot),
            None => {}
        }
    }

    /// The next steps are made on another hart, if there are two; it gets a process if it has none.
    pub fn turn(&mut self, quiz: &mut Quiz) {
        if self.harts.len() < 2 {
            return self.switch(quiz);
        }
        let other = if self.hart == 0 { 1 } else { 0 };
        if quiz.random.chance(300) {
            self.idle(quiz);
        }
        self.hart = other;
        if self.is_idle() {
            self.switch(quiz);
        }
    }

    /// The hart becomes idle.
    fn idle(&mut self, quiz: &mut Quiz) {
        if self.is_idle() {
            return;
        }
        self.to_kernel(quiz);
        self.set_place(Place::Idle);
        if let Some(hart) = self.harts.get_mut(self.hart) {
            hart.slot = None;
        }
        let hart = self.hart;
        quiz.say(format!(in self.alloc; "switch {hart} -"), "ok");
    }

    /// Returns the ASID under which the hart fills entries.
    fn asid(&self) -> u64 {
        let Some(hart) = self.harts.get(self.hart) else {
            return 0;
        };
        match hart.slot {
            Some(slot) if self.asids && hart.by_user_table => (slot as u64).saturating_add(1),
            _ => 0,
        }
    }

    /// Fills an entry, which is worth a question if `asks`.
    pub fn fill(&mut self, quiz: &mut Quiz, address: u64, asks: bool) {
        let (hart, number) = (self.hart, self.entries());
        self.add_entry(quiz, page_of(address));
        let Ok(words) = format!(in self.alloc; "entry {number}") else {
            return quiz.lose();
        };
        let text = format!(in self.alloc; "fill {hart} {address:#x}");
        quiz.put(asks, text, words.as_str());
    }

    /// Adds an entry to the hart's TLB.
    fn add_entry(&mut self, quiz: &mut Quiz, page: u64) {
        let asid = self.asid();
        if let Some(it) = self.harts.get_mut(self.hart)
            && it.entries.push(Entry { page, asid }).is_err()
        {
            quiz.lose();
        }
    }

    /// Removes an entry, or is refused.
    pub fn evict(&mut self, quiz: &mut Quiz, entry: usize) {
        let text = self.numbered("evict", entry);
        if entry >= self.entries() {
            return quiz.ask(text, "refused 20");
        }
        if let Some(it) = self.harts.get_mut(self.hart)
            && entry < it.entries.len()
        {
            it.entries.remove(entry);
        }
        quiz.ask(text, "ok");
    }

    /// The process traps: the hart is before the first instruction of kernel entry.
    pub fn trap(&mut self, quiz: &mut Quiz) {
        self.say(quiz, "trap", "ok");
    }

    /// The hart executes an instruction of kernel entry, by its number from 0: a fence, a write of satp, a fence.
    pub fn next(&mut self, quiz: &mut Quiz, number: u64) {
        if number == 1 {
            if let Some(it) = self.harts.get_mut(self.hart) {
                it.by_user_table = false;
            }
        } else {
            self.fence();
        }
        if number == 2 {
            self.set_place(Place::Kernel);
        }
        self.say(quiz, "next", "ok");
    }

    /// Returns the text of an access on the hart.
    fn text(&self, touch: Touch) -> Result<String, AllocError> {
        let (hart, address, value) = (self.hart, touch.address, touch.value);
        if stores(touch) {
            format!(in self.alloc; "store {hart} {address:#x} 1 {value:#x}")
        } else {
            format!(in self.alloc; "load {hart} {address:#x} 1")
        }
    }

    /// Returns the beginning of the answer to an access that is made.
    fn words(&self, touch: Touch) -> &'static str {
        let Some(me) = self.me() else {
            return "refused";
        };
        let granted = me.grants(touch.access, touch.address, 1);
        if !granted || !me.is_ready(touch.access, touch.address) {
            "fault"
        } else if stores(touch) {
            "stored"
        } else {
            "value"
        }
    }

    /// Returns whether the process on the hart is granted an access to a byte.
    pub fn grants(&self, access: Access, address: u64) -> bool {
        match self.me() {
            Some(me) => me.grants(access, address, 1),
            None => false,
        }
    }

    /// Returns whether an entry serves an access to an address.
    fn serves(&self, entry: usize, address: u64) -> bool {
        let Some(hart) = self.harts.get(self.hart) else {
            return false;
        };
        match hart.entries.get(entry) {
            Some(it) => it.page == page_of(address) && it.asid == self.asid(),
            None => false,
        }
    }

    /// Returns the text of an access by an entry.
    fn text_by(&self, touch: Touch, entry: usize) -> Result<String, AllocError> {
        let mut text = self.text(touch)?;
        write!(&mut text, " @{entry}")?;
        Ok(text)
    }

    /// Accesses by an entry.
    pub fn access_by(&mut self, quiz: &mut Quiz, touch: Touch, entry: usize) {
        let text = self.text_by(touch, entry);
        if !self.serves(entry, touch.address) {
            return quiz.ask(text, "refused 20");
        }
        let words = self.words(touch);
        quiz.ask(text, words);
        self.serve(quiz, touch, words);
    }

    /// Accesses by a walk.
    pub fn access_by_walk(&mut self, quiz: &mut Quiz, touch: Touch) {
        let (text, words) = (self.text(touch), self.words(touch));
        quiz.ask(text, words);
        self.serve(quiz, touch, words);
    }

    /// Serves an access, if it faults. If it is denied, the process ends.
    fn serve(&mut self, quiz: &mut Quiz, touch: Touch, words: &str) {
        if words != "fault" {
            return;
        }
        let text = self.line("fix");
        let granted = self.grants(touch.access, touch.address);
        self.fence();
        if granted {
            self.make_ready(quiz, touch);
            return quiz.say(text, "ready");
        }
        self.end();
        quiz.ask(text, "ended");
    }

    /// Makes the page of an access ready, and returns to the process.
    fn make_ready(&mut self, quiz: &mut Quiz, touch: Touch) {
        if let Some(me) = self.me_mut() {
            quiz.note(me.serve(touch.access, touch.address));
        }
        if let Some(slot) = self.slot() {
            self.mark(quiz, slot);
        }
        self.clean();
    }

    /// The process on the hart has ended. It is never put on a hart again.
    fn end(&mut self) {
        self.set_place(Place::Idle);
        if let Some(me) = self.me_mut() {
            me.lives = false;
        }
        if let Some(hart) = self.harts.get_mut(self.hart) {
            hart.slot = None;
        }
    }

    /// Returns whether a process has ended.
    fn has_ended(&self) -> bool {
        for process in self.processes.as_slice() {
            if !process.lives {
                return true;
            }
        }
        false
    }

    /// Forks, once.
    pub fn fork(&mut self, quiz: &mut Quiz) {
        let Some(slot) = self.slot() else {
            return;
        };
        if self.has_forked || self.has_ended() {
            return;
        }
        self.has_forked = true;
        self.fork_from(quiz, slot);
    }

    /// Forks the process of this slot, which is on the hart.
    fn fork_from(&mut self, quiz: &mut Quiz, slot: usize) {
        self.to_kernel(quiz);
        let child = self.processes.len();
        self.say(quiz, "fork", "slot");
        let alloc = self.alloc;
        let Some(me) = self.me_mut() else {
            return;
        };
        let is_new = me.mark();
        let process = me.child(alloc, child as u64);
        self.add_process(quiz, process);
        if is_new {
            self.mark(quiz, slot);
        }
        self.mark(quiz, child);
        self.to_user(quiz);
    }
}
