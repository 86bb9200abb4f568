// Processes: how they start and end, and who has the turn. The script says the order of all steps of all processes. In C a turn goes
// along the tree, by back() on the way up and give() on the way down.

use crate::state::{Maker, Test, begins};
use std::alloc::AllocError;
use usertest_rows::{Call, Life, Row, StepRow};

/// The most processes that live at once.
const MOST_LIVING: usize = 4;

/// The most children of a process that live.
const MOST_CHILDREN: usize = 3;

/// The most processes of a test, and children of a process.
const MOST_SPAWNED: usize = 8;

/// The most times that a process executes the program anew.
const MOST_EXECS: u64 = 2;

impl Test {
    /// Begins the function of a process.
    pub(crate) fn begin_life(&mut self, process: usize) {
        let prefix = self.prefix.as_str();
        let text = format!(in self.alloc; "\nstatic void {prefix}p{process}(void)\n{{\n");
        self.begin_function(text);
    }

    /// Begins a function with this text.
    pub(crate) fn begin_function(&mut self, text: Result<String, AllocError>) {
        let at = self.lives.len();
        let life = Life {
            rows: Vec::new(self.alloc),
            last_turn: None,
        };
        if self.lives.push(life).is_err() {
            self.lose();
        }
        self.write_words(at, text);
    }

    /// In C: the process gives the turn back to its parent.
    fn write_back(&mut self, process: usize) {
        let text = String::from_str(self.alloc, "  back();\n");
        self.write_words(process, text);
    }

    /// In C: the parent gives the turn to this process, its child of this index. Notes the row.
    fn write_give(&mut self, parent: usize, process: usize, index: u64) {
        let text = format!(in self.alloc; "  give({index});\n");
        let row = match self.lives.get(parent) {
            Some(life) => life.rows.len(),
            None => 0,
        };
        if let Some(life) = self.lives.get_mut(process) {
            life.last_turn = Some(row);
        }
        self.write_words(parent, text);
    }

    /// In C: in place of the row in which the parent gives a process its last turn, it waits for its end.
    fn write_reap(&mut self, parent: usize, process: usize, reap: Row) {
        if let Some(at) = self.last_turn(process) {
            self.replace_row(parent, at, reap);
        }
    }

    /// Returns the row of the parent's function in which a process got its last turn.
    fn last_turn(&self, process: usize) -> Option<usize> {
        match self.lives.get(process) {
            Some(life) => life.last_turn,
            None => None,
        }
    }

    /// Puts a row in place of another of the function of a process.
    fn replace_row(&mut self, process: usize, at: usize, row: Row) {
        if let Some(life) = self.lives.get_mut(process)
            && let Some(old) = life.rows.get_mut(at)
        {
            *old = row;
        }
    }
}

impl Maker {
    /// Puts a process on the hart, which is in the kernel.
    pub(crate) fn schedule(&mut self, process: usize) {
        let slot = self.world.process(process).slot;
        let text = format!(in self.alloc; "on 0 {slot}");
        self.test.say_text(text, "ok");
        self.world.current = process;
    }

    /// In C: the turn goes up from the process on the hart to the first process of this line.
    fn write_up(&mut self, up: &[usize], down: &[usize]) {
        for process in up {
            if down.contains(process) {
                break;
            }
            self.test.write_back(*process);
        }
    }

    /// In C: the turn goes down to a process.
    fn write_down(&mut self, up: &[usize], down: &[usize]) {
        for number in down.iter().rev() {
            if !up.contains(number) {
                let process = self.world.process(*number);
                let parent = process.parent.unwrap_or(0);
                self.test.write_give(parent, *number, process.index);
            }
        }
    }

    /// Gives the turn to another process.
    pub(crate) fn pass_turn(&mut self, to: usize) {
        if to == self.world.current {
            return;
        }
        let Ok(up) = self.world.line_of(self.world.current) else {
            return self.lose();
        };
        let Ok(down) = self.world.line_of(to) else {
            return self.lose();
        };
        self.write_up(up.as_slice(), down.as_slice());
        self.write_down(up.as_slice(), down.as_slice());
        self.test.say_words("enter 0", "ok");
        self.schedule(to);
    }

    /// Returns whether there are not too many processes for a fork of one with so many children.
    fn may_fork(&self, children: usize) -> bool {
        self.world.living() < MOST_LIVING
            && children < MOST_CHILDREN
            && self.world.count() < MOST_SPAWNED
            && self.world.me().spawned < MOST_SPAWNED as u64
    }

    /// Adds the lines of a fork whose child gets this slot.
    fn say_fork(&mut self, slot: u64) {
        let words = format!(in self.alloc; "slot {slot}");
        let text = String::from_str(self.alloc, "fork 0");
        self.test.say_call(text, begins(words));
    }

    /// Forks. Returns whether it did: there are not too many processes.
    pub(crate) fn fork(&mut self) -> bool {
        let Ok(children) = self.world.children_of(self.world.current) else {
            self.lose();
            return false;
        };
        if !self.may_fork(children.len()) {
            return false;
        }
        let (step, slot) = (self.test.next_line(), self.world.free_slot());
        let spawned = self.world.me().spawned;
        self.say_fork(slot);
        let Ok(child) = self.world.fork() else {
            self.lose();
            return false;
        };
        self.test.begin_life(child);
        let prefix = self.test.prefix.as_str();
        let text = format!(in self.alloc; "  spawn({step}, {spawned}, {prefix}p{child});\n");
        self.write_text(text);
        if self.random.chance(500) {
            self.pass_turn(child);
        }
        true
    }

    /// Forks a child that lives for some steps only, in which it must end: in C the runtime forks it. It is on the hart then.
    pub(crate) fn begin_child(&mut self) {
        let slot = self.world.free_slot();
        self.say_fork(slot);
        self.world.note_fork();
        self.test.say_words("enter 0", "ok");
        self.test
            .say_text(format!(in self.alloc; "on 0 {slot}"), "ok");
    }

    /// The child exits, and the parent is on the hart again.
    pub(crate) fn end_child(&mut self, status: u64) {
        self.test
            .say_exit(format!(in self.alloc; "exit 0 {status}"));
        self.schedule(self.world.current);
    }

    /// Returns the processes that live, but the one on the hart.
    fn others(&self) -> Result<Vec<usize>, AllocError> {
        let mut others = Vec::new(self.alloc);
        for number in 0..self.world.count() {
            if number != self.world.current && self.world.process(number).lives {
                others.push(number)?;
            }
        }
        Ok(others)
    }

    /// Gives the turn to any other process. Returns whether there is one.
    pub(crate) fn switch(&mut self) -> bool {
        let others = self.others();
        match self.any_of(others) {
            Some(other) => {
                self.pass_turn(other);
                true
            }
            None => false,
        }
    }

    /// Executes the program anew, with an empty heap. Returns whether it did: what exec does with mappings, labs leave open.
    pub(crate) fn execute(&mut self) -> bool {
        let step = self.test.next_line();
        if !self.world.me().mappings.is_empty() || self.world.me().execs >= MOST_EXECS {
            return false;
        }
        self.test
            .say_kernel(String::from_str(self.alloc, "exec 0 0"), "ok");
        self.world.me_mut().execute();
        self.counted = false;
        let name = self.part_name();
        self.begin_part(step, name);
        true
    }

    /// Returns the name of the function that goes on after the exec of the process on the hart.
    fn part_name(&self) -> Result<String, AllocError> {
        let (current, execs) = (self.world.current, self.world.me().execs);
        let prefix = self.test.prefix.as_str();
        format!(in self.alloc; "{prefix}p{current}_{execs}")
    }

    /// Begins the function of this name, which goes on after an exec in this step.
    fn begin_part(&mut self, step: usize, name: Result<String, AllocError>) {
        let Ok(name) = name else {
            return self.lose();
        };
        let part = self.test.parts_before.saturating_add(self.test.parts.len());
        let shown = name.as_str();
        let text = format!(in self.alloc;
            "  again({step}, {part});\n}}\n\nstatic void {shown}(void)\n{{\n"
        );
        if self.test.parts.push(name).is_err() {
            self.lose();
        }
        self.write_text(text);
    }

    /// The process on the hart has ended in this step, in its last turn: its parent goes on, and waits for it.
    pub(crate) fn leave_family(&mut self, step: usize) {
        let process = self.world.current;
        let ended = self.world.process(process);
        let (index, parent) = (ended.index, ended.parent.unwrap_or(0));
        let Ok(arguments) = format!(in self.alloc; "{index}, ") else {
            return self.lose();
        };
        let reap = StepRow {
            call: Call::Reap,
            step,
            arguments,
        };
        self.test.write_reap(parent, process, Row::Step(reap));
        self.world.end(process);
        self.schedule(parent);
    }

    /// The process on the hart exits.
    pub(crate) fn exit(&mut self) {
        let (step, status) = (self.test.next_line(), self.random.below(60));
        self.test
            .say_exit(format!(in self.alloc; "exit 0 {status}"));
        self.write_text(format!(in self.alloc; "  done({step}, {status});\n"));
        self.leave_family(step);
    }

    /// Returns the children that can be killed: they have none themselves.
    pub(crate) fn childless(&self) -> Result<Vec<usize>, AllocError> {
        let mut found = Vec::new(self.alloc);
        let children = self.world.children_of(self.world.current)?;
        for child in children.as_slice() {
            if !self.world.has_children(*child) {
                found.push(*child)?;
            }
        }
        Ok(found)
    }

    /// Returns the pages of files to which a process has stored in shared mappings, as pairs of a file and a page; at most two.
    fn stored_pages(&self, process: usize) -> Result<Vec<(usize, usize)>, AllocError> {
        let mut found = Vec::new(self.alloc);
        for mapping in self.world.process(process).mappings.as_slice() {
            for page in 0..mapping.pages {
                if mapping.shared && mapping.view(page).stored_to && found.len() < 2 {
                    let pair = (mapping.file.number, mapping.first.saturating_add(page));
                    found.push(pair)?;
                }
            }
        }
        Ok(found)
    }

    /// Kills a child that waits for its turn. Returns at most two pages of files to which it had stored.
    pub(crate) fn kill(&mut self, child: usize) -> Result<Vec<(usize, usize)>, AllocError> {
        let (parent, step) = (self.world.current, self.test.next_line());
        let index = self.world.process(child).index;
        self.test.say_words("enter 0", "ok");
        self.schedule(child);
        self.test
            .say_exit(String::from_str(self.alloc, "exit 0 -1"));
        let stored = self.stored_pages(child);
        self.world.end(child);
        self.schedule(parent);
        self.write_text(format!(in self.alloc; "  slay({step}, {index});\n"));
        stored
    }
}
