// `Test`: the script of a test and what its functions in C do. `Maker`: a test that is being made, with what is known of its processes.

use std::alloc::{AllocError, Global};
use usertest_rows::{Call, Expected, Kind, Life, Line, Row, StepRow};
use usertest_world::{MOST_SPOTS, Place, Random, World};

/// How many of the latest stores of all processes are kept.
const MOST_HOT: usize = 12;

/// A test: its script, and the functions of its C program.
#[derive(Drop)]
pub struct Test {
    pub(crate) alloc: Global,
    /// Its name, as `cow-17`.
    pub name: String,
    /// What the names of its functions in C begin with, as `cow17_`.
    pub prefix: String,
    pub lines: Vec<Line>,
    /// The functions of its processes, by number; at the end those of children before that of their parent, and last of all the function
    /// that makes the test.
    pub lives: Vec<Life>,
    /// The names of the functions that go on after an exec.
    pub parts: Vec<String>,
    /// How many such functions earlier tests of the same C program have.
    pub(crate) parts_before: usize,
    /// What the parent of the first process does after it has ended.
    pub(crate) last_rows: Vec<Row>,
    /// Whether the first process has ended.
    pub(crate) is_over: bool,
    /// Whether the host was out of memory for a part of it.
    is_lost: bool,
}

/// A test that is being made.
#[derive(Drop)]
pub struct Maker {
    pub alloc: Global,
    pub kind: Kind,
    pub random: Random,
    pub world: World,
    /// Heap offsets to which processes have stored lately, the latest last.
    pub hot: Vec<u64>,
    /// Whether a bound of the frames in use can be told.
    pub counted: bool,
    pub test: Test,
}

/// Returns a line of a text and what is expected of its answer.
fn line_of(
    text: Result<String, AllocError>,
    expected: Result<Expected, AllocError>,
) -> Result<Line, AllocError> {
    Ok(Line {
        text: text?,
        expected: expected?,
    })
}

/// Returns what is expected of an answer that begins with these words.
pub(crate) fn begins(words: Result<String, AllocError>) -> Result<Expected, AllocError> {
    Ok(Expected::Begins(words?))
}

/// `begins`, with words that are not owned; the answer may be any if there are none.
pub(crate) fn answer_of(alloc: Global, words: &str) -> Result<Expected, AllocError> {
    if words.is_empty() {
        return Ok(Expected::Any);
    }
    begins(String::from_str(alloc, words))
}

impl Test {
    /// Returns a test that has made nothing.
    fn new(alloc: Global, kind: Kind, seed: u64, parts_before: usize) -> Result<Test, AllocError> {
        let word = kind.name();
        Ok(Test {
            alloc,
            name: format!(in alloc; "{word}-{seed}")?,
            prefix: format!(in alloc; "{word}{seed}_")?,
            lines: Vec::new(alloc),
            lives: Vec::new(alloc),
            parts: Vec::new(alloc),
            parts_before,
            last_rows: Vec::new(alloc),
            is_over: false,
            is_lost: false,
        })
    }

    /// Notes that the host was out of memory for a part: `finish` returns the error, so no step needs to.
    pub(crate) fn lose(&mut self) {
        self.is_lost = true;
    }

    /// Returns the test.
    ///
    /// # Errors
    /// `AllocError`: the host was out of memory for a part of it.
    pub(crate) fn finish(self) -> Result<Test, AllocError> {
        if self.is_lost {
            Err(AllocError)
        } else {
            Ok(self)
        }
    }

    /// Returns the number of the next line of the script, from 1: the step of a call in C.
    pub(crate) fn next_line(&self) -> usize {
        self.lines.len().saturating_add(1)
    }

    /// Adds a line to the script.
    pub(crate) fn say(
        &mut self,
        text: Result<String, AllocError>,
        expected: Result<Expected, AllocError>,
    ) {
        let Ok(line) = line_of(text, expected) else {
            return self.lose();
        };
        if self.lines.push(line).is_err() {
            self.lose();
        }
    }

    /// Adds a line whose answer must begin with these words; it may be any if there are none.
    pub(crate) fn say_text(&mut self, text: Result<String, AllocError>, words: &str) {
        self.say(text, answer_of(self.alloc, words));
    }

    /// `say_text`, with a text that is not owned.
    pub(crate) fn say_words(&mut self, text: &str, words: &str) {
        self.say_text(String::from_str(self.alloc, text), words);
    }

    /// Adds a call that the kernel makes for the process, between its entry and its return.
    pub(crate) fn say_call(
        &mut self,
        text: Result<String, AllocError>,
        expected: Result<Expected, AllocError>,
    ) {
        self.say_words("enter 0", "ok");
        self.say(text, expected);
        self.say_words("leave 0", "ok");
    }

    /// Adds a call of the kernel whose answer must begin with these words.
    pub(crate) fn say_kernel(&mut self, text: Result<String, AllocError>, words: &str) {
        self.say_call(text, answer_of(self.alloc, words));
    }

    /// Adds a granted access. If the first line succeeds, `fix` is refused and changes nothing; so nobody need know whether it faults.
    fn say_access(&mut self, text: Result<String, AllocError>, words: &str) {
        let Ok(text) = text else {
            return self.lose();
        };
        let text = text.as_str();
        self.say_words(text, "");
        self.say_words("fix 0", "");
        self.say_words(text, words);
    }

    /// Adds the lines of a load that is granted.
    pub(crate) fn say_load(&mut self, place: Place, width: u64) {
        let address = place.address;
        let text = format!(in self.alloc; "load 0 {address:#x} {width}");
        self.say_access(text, "value");
    }

    /// Adds the lines of a store that is granted.
    pub(crate) fn say_store(&mut self, place: Place, width: u64, value: u64) {
        let address = place.address;
        let text = format!(in self.alloc; "store 0 {address:#x} {width} {value:#x}");
        self.say_access(text, "stored");
    }

    /// Adds the end of the process, by this line.
    pub(crate) fn say_exit(&mut self, text: Result<String, AllocError>) {
        self.say_words("enter 0", "ok");
        self.say_text(text, "exited");
    }

    /// Adds a row to the function of a process.
    pub(crate) fn write_row(&mut self, process: usize, row: Row) {
        let Some(life) = self.lives.get_mut(process) else {
            return;
        };
        if life.rows.push(row).is_err() {
            self.lose();
        }
    }

    /// Adds text to the function of a process.
    pub(crate) fn write_words(&mut self, process: usize, text: Result<String, AllocError>) {
        match text {
            Ok(text) => self.write_row(process, Row::Text(text)),
            Err(_) => self.lose(),
        }
    }

    /// Adds a row to the function of a process; after the first process has ended, to that of its parent.
    fn write(&mut self, process: usize, row: Row) {
        if !self.is_over {
            return self.write_row(process, row);
        }
        if self.last_rows.push(row).is_err() {
            self.lose();
        }
    }
}

impl Maker {
    /// Returns a test that has made nothing.
    pub fn new(
        alloc: Global,
        kind: Kind,
        seed: u64,
        parts_before: usize,
    ) -> Result<Maker, AllocError> {
        // Each kind has numbers of its own.
        let numbers = seed.wrapping_mul(4).wrapping_add(kind.number() as u64);
        Ok(Maker {
            alloc,
            kind,
            random: Random::of_seed(numbers),
            world: World::new(alloc),
            hot: Vec::new(alloc),
            counted: true,
            test: Test::new(alloc, kind, seed, parts_before)?,
        })
    }

    /// Notes that the host was out of memory for a part of the test.
    pub fn lose(&mut self) {
        self.test.lose();
    }

    /// Returns any of some numbers; `None` if there is none, or the host was out of memory for them.
    pub fn any_of(&mut self, numbers: Result<Vec<usize>, AllocError>) -> Option<usize> {
        let Ok(numbers) = numbers else {
            self.lose();
            return None;
        };
        let at = self.random.index(numbers.len());
        numbers.get(at).copied()
    }

    /// Adds a row that expects nothing to the function of the process on the hart.
    pub fn write_text(&mut self, text: Result<String, AllocError>) {
        match text {
            Ok(text) => self.test.write(self.world.current, Row::Text(text)),
            Err(_) => self.lose(),
        }
    }

    /// Adds a row that expects what the machine answers to the function of the process on the hart.
    pub fn write_step(&mut self, call: Call, step: usize, arguments: Result<String, AllocError>) {
        let Ok(arguments) = arguments else {
            return self.lose();
        };
        let row = StepRow {
            call,
            step,
            arguments,
        };
        self.test.write(self.world.current, Row::Step(row));
    }

    /// Adds a place to those of the process, in place of one of the oldest if there are many.
    fn keep_spot(&mut self, offset: u64) {
        let oldest = self.random.index(8);
        let spots = &mut self.world.me_mut().spots;
        let kept = spots.push(offset).is_ok();
        if spots.len() > MOST_SPOTS && oldest < spots.len() {
            spots.remove(oldest);
        }
        if !kept {
            self.lose();
        }
    }

    /// Notes a store to the heap: later steps look there.
    pub fn remember(&mut self, offset: u64) {
        if self.hot.push(offset).is_err() {
            self.lose();
        }
        if self.hot.len() > MOST_HOT {
            self.hot.remove(0);
        }
        if self.world.me().spots.as_slice().contains(&offset) {
            return;
        }
        self.keep_spot(offset);
    }

    /// Makes a load that is granted.
    pub fn load(&mut self, place: Place, width: u64) {
        let step = self.test.next_line();
        self.test.say_load(place, width);
        let arguments = format!(in self.alloc; "{place}, {width}, ");
        self.write_step(Call::Load, step, arguments);
    }

    /// Makes a store that is granted.
    pub fn store(&mut self, place: Place, width: u64, value: u64) {
        let step = self.test.next_line();
        self.test.say_store(place, width, value);
        let text = format!(in self.alloc; "  st({step}, {place}, {width}, {value:#x});\n");
        self.write_text(text);
    }
}
