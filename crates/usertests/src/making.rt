// `make`: the test of a kind and a seed. A test is made of steps, which are drawn by how often each is made in tests of its kind.

use crate::state::{Maker, Test};
use std::alloc::{AllocError, Global};
use usertest_rows::{Call, Expected, Kind, Life, Row, StepRow};
use usertest_world::{File, PAGE, Place};

/// A step of a test.
#[derive(Clone, Copy)]
enum Sort {
    Load,
    Store,
    Map,
    Unmap,
    Show,
    SomePages,
    Sbrk,
    Shrink,
    ManyLazyPages,
    Fork,
    Switch,
    End,
    Denied,
    Peek,
    Copy,
    Wait,
    BoundFrames,
    CopyToText,
    CopyAfterLoad,
    Execute,
    Kill,
    KillAfterStores,
    Huge,
}

/// How often a step is made, beside the others, in a test of each kind: cow, lazy, mmap, mixed.
type Weight = (Sort, [u64; 4]);

/// The steps with their weights.
static WEIGHTS: [Weight; 23] = [
    (Sort::Load, [80, 70, 80, 80]),
    (Sort::Store, [90, 60, 80, 80]),
    (Sort::Map, [0, 0, 60, 40]),
    (Sort::Unmap, [0, 0, 40, 30]),
    (Sort::Show, [0, 0, 20, 15]),
    (Sort::SomePages, [30, 30, 0, 20]),
    (Sort::Sbrk, [30, 60, 10, 40]),
    (Sort::Shrink, [10, 30, 0, 15]),
    (Sort::ManyLazyPages, [0, 10, 0, 3]),
    (Sort::Fork, [50, 20, 20, 40]),
    (Sort::Switch, [80, 30, 40, 60]),
    (Sort::End, [30, 20, 20, 25]),
    (Sort::Denied, [20, 40, 40, 30]),
    (Sort::Peek, [20, 40, 20, 20]),
    (Sort::Copy, [80, 80, 30, 60]),
    (Sort::Wait, [10, 10, 0, 10]),
    (Sort::BoundFrames, [10, 10, 0, 10]),
    (Sort::CopyToText, [5, 2, 0, 2]),
    (Sort::CopyAfterLoad, [15, 0, 0, 7]),
    (Sort::Execute, [8, 6, 5, 5]),
    (Sort::Kill, [5, 3, 8, 5]),
    (Sort::KillAfterStores, [0, 0, 12, 5]),
    (Sort::Huge, [0, 6, 0, 2]),
];

/// Returns the weight for a kind.
fn weight_of(weights: &[u64], kind: Kind) -> u64 {
    weights.get(kind.number()).copied().unwrap_or(0)
}

impl Maker {
    /// Returns the sort of the next step.
    fn next_sort(&mut self) -> Sort {
        let mut total = 0u64;
        for (_, weights) in WEIGHTS.iter() {
            total = total.saturating_add(weight_of(weights, self.kind));
        }
        let drawn = self.random.below(total);
        sort_at(&WEIGHTS, self.kind, drawn)
    }

    /// Makes a step, and returns whether it can be made now; else nothing is done.
    fn make_step(&mut self, sort: Sort) -> bool {
        match sort {
            Sort::Load => self.load_any(),
            Sort::Store => self.store_any(),
            Sort::Map => self.map_any(),
            Sort::Unmap => self.unmap(),
            Sort::Show => self.show_some(),
            Sort::SomePages => self.some_pages(),
            Sort::Sbrk => self.sbrk(),
            Sort::Shrink => self.shrink(),
            Sort::ManyLazyPages => self.many_lazy_pages(),
            Sort::Fork => self.fork(),
            Sort::Switch => self.switch(),
            Sort::End => self.end(),
            _ => self.make_rare_step(sort),
        }
    }

    /// `make_step`, for the other steps.
    fn make_rare_step(&mut self, sort: Sort) -> bool {
        match sort {
            Sort::Denied => self.deny_any(),
            Sort::Peek => self.peek(),
            Sort::Copy => self.copy(),
            Sort::Wait => self.wait(),
            Sort::BoundFrames => self.bound_frames(),
            Sort::CopyToText => self.copy_to_text(),
            Sort::CopyAfterLoad => self.copy_after_load(),
            Sort::Execute => self.execute_anew(),
            Sort::Kill => self.kill_child(),
            Sort::KillAfterStores => self.kill_after_stores(),
            Sort::Huge => self.huge(),
            _ => false,
        }
    }

    /// Makes up to so many steps: fewer only if 100 times as many cannot be made.
    fn make_steps(&mut self, steps: u32) {
        let mut made = 0u32;
        for _ in 0..u64::from(steps).saturating_mul(100) {
            if made >= steps {
                break;
            }
            let sort = self.next_sort();
            if self.make_step(sort) {
                made = made.saturating_add(1);
            }
        }
    }

    /// Makes up the files of the model. With `offsets`, two of them are parts of one file of the C program.
    fn make_files(&mut self, offsets: bool) {
        let of_two = self.random.between(PAGE + 100, 3 * PAGE);
        let small = self.random.between(100, 2 * PAGE);
        let fixed = self.random.between(PAGE, 2 * PAGE);
        let (second, offset) = if offsets { (0, 2 * PAGE) } else { (3, 0) };
        self.add_file(0, 0, 2 * PAGE, false);
        self.add_file(second, offset, of_two, false);
        self.add_file(1, 0, small, false);
        self.add_file(2, 0, fixed, true);
    }

    /// Adds a file, and declares it in the script.
    fn add_file(&mut self, c_number: u64, offset: u64, size: u64, read_only: bool) {
        let file = File {
            number: self.world.files.len(),
            c_number,
            offset,
            size,
            seed: self.random.between(1, 250),
            read_only,
        };
        if self.world.files.push(file).is_err() {
            self.lose();
        }
        let text = self.file_text(&file);
        self.test.say(text, Ok(Expected::Nothing));
    }

    /// Returns the declaration of a file.
    fn file_text(&self, file: &File) -> Result<String, AllocError> {
        let size = file.size;
        let mode = if file.read_only { "ro" } else { "rw" };
        let mut text = format!(in self.alloc; "file {size} {mode} ")?;
        for at in 0..size {
            let byte = file.byte_at(at);
            write!(&mut text, "{byte:02x}")?;
        }
        Ok(text)
    }

    /// Begins the script: declares an image, boots a machine and starts a process of the image. Returns the step of an audit then.
    fn begin(&mut self, offsets: bool) -> usize {
        self.test.begin_life(0);
        if self.kind.has_maps() {
            self.make_files(offsets);
        }
        let image = "image 0x0:0x1000:rx:13050000 0x1000:0x1000:rw:-";
        self.test
            .say(String::from_str(self.alloc, image), Ok(Expected::Nothing));
        self.test.say_words("boot 1 1024 32 full", "ok");
        self.test.say_words("start 0", "slot 0");
        self.test.say_words("on 0 0", "ok");
        let audit = self.test.next_line();
        self.test.say_words("audit", "free");
        audit
    }

    /// Makes a load from the heap, if the heap has so many bytes.
    fn look_at(&mut self, offset: u64) {
        let has_room = offset.saturating_add(8) <= self.world.me().size;
        if offset.is_multiple_of(8) && has_room {
            self.load(Place::heap(offset), 8);
        }
    }

    /// Loads from the last `count` of some heap offsets.
    fn look_at_last(&mut self, offsets: Result<Vec<u64>, AllocError>, count: usize) {
        let Ok(offsets) = offsets else {
            return self.lose();
        };
        let before = offsets.len().saturating_sub(count);
        for at in before..offsets.len() {
            if let Some(offset) = offsets.get(at).copied() {
                self.look_at(offset);
            }
        }
    }

    /// Makes loads before a process ends, from where its family has stored.
    fn last_looks(&mut self) {
        let spots = Vec::from_slice(self.alloc, self.world.me().spots.as_slice());
        self.look_at_last(spots, 4);
        if self.kind.shares_copies() {
            let hot = Vec::from_slice(self.alloc, self.hot.as_slice());
            self.look_at_last(hot, 3);
        }
        self.load_any();
    }

    /// Returns the living processes but the first that have no children.
    fn leaves(&self) -> Result<Vec<usize>, AllocError> {
        let mut leaves = Vec::new(self.alloc);
        for number in 1..self.world.count() {
            if self.world.process(number).lives && !self.world.has_children(number) {
                leaves.push(number)?;
            }
        }
        Ok(leaves)
    }

    /// All processes but the first end, children first.
    fn end_children(&mut self) {
        for _ in 0..self.world.count() {
            let leaves = self.leaves();
            let Some(leaf) = self.any_of(leaves) else {
                break;
            };
            self.pass_turn(leaf);
            self.last_looks();
            self.end();
        }
    }

    /// The first process ends. Returns the step in which it does.
    fn end_first(&mut self) -> usize {
        self.pass_turn(0);
        self.last_looks();
        let step = self.test.next_line();
        self.test.say_exit(String::from_str(self.alloc, "exit 0 0"));
        self.write_text(format!(in self.alloc; "  done({step}, 0);\n"));
        self.world.end(0);
        self.test.is_over = true;
        step
    }

    /// Shows all pages of a file that labs determine.
    fn show_file(&mut self, file: &File) {
        for page in 0..file.pages() {
            self.show(file, page);
        }
    }

    /// Shows all pages of files that labs determine.
    fn show_files(&mut self) {
        for number in 0..self.world.files.len() {
            if let Some(file) = self.world.files.get(number).copied() {
                self.show_file(&file);
            }
        }
    }

    /// Returns the rows that make the files in C, or those that remove them.
    fn file_rows(&self, make: bool) -> Result<String, AllocError> {
        let mut text = String::new(self.alloc);
        for file in self.world.files.as_slice() {
            let (number, offset, size, seed) = (file.c_number, file.offset, file.size, file.seed);
            if make {
                writeln!(
                    &mut text,
                    "  file_make(\"kitf{number}\", {offset}, {size}, {seed});"
                )?;
            } else if offset == 0 {
                writeln!(&mut text, "  unlink(\"kitf{number}\");")?;
            }
        }
        Ok(text)
    }

    /// Makes the end of the test: all processes end, and the files are shown. `audit` is the step of the first audit.
    fn finish(&mut self, audit: usize) {
        self.end_children();
        let step = self.end_first();
        self.show_files();
        let (before, after) = (self.file_rows(true), self.file_rows(false));
        self.test.end_lives();
        self.test.write_first(before, audit, step);
        self.test.write_last(after);
    }
}

impl Test {
    /// Ends the functions of processes, and puts those of children before that of their parent.
    fn end_lives(&mut self) {
        for number in 0..self.lives.len() {
            self.write_words(number, String::from_str(self.alloc, "}\n"));
        }
        self.lives.as_mut_slice().reverse();
    }

    /// Adds the beginning of the function that makes the test, after the rows that make the files: it starts the first process, which ends
    /// in this step, and waits for it.
    fn write_first(&mut self, files: Result<String, AllocError>, audit: usize, step: usize) {
        let at = self.lives.len();
        let begin = self.first_text(files, step);
        self.begin_function(begin);
        self.write_call(at, Call::Held, audit, "");
        let prefix = self.prefix.as_str();
        let spawn = format!(in self.alloc; "  spawn(0, 0, {prefix}p0);\n");
        self.write_words(at, spawn);
        self.write_call(at, Call::Reap, step, "0, ");
    }

    /// Returns the text with which that function begins.
    fn first_text(
        &self,
        files: Result<String, AllocError>,
        step: usize,
    ) -> Result<String, AllocError> {
        let files = files?;
        let (prefix, name, files) = (self.prefix.as_str(), self.name.as_str(), files.as_str());
        format!(in self.alloc;
            "\nstatic void {prefix}test(void)\n{{\n{files}  begin_all(\"{name}\", {step});\n"
        )
    }

    /// Adds a call with these arguments to a function.
    fn write_call(&mut self, function: usize, call: Call, step: usize, arguments: &str) {
        let Ok(arguments) = String::from_str(self.alloc, arguments) else {
            return self.lose();
        };
        let row = StepRow {
            call,
            step,
            arguments,
        };
        self.write_row(function, Row::Step(row));
    }

    /// Adds what this function does after the first process has ended, before the rows that remove the files.
    fn write_last(&mut self, files: Result<String, AllocError>) {
        let last = Life {
            rows: std::mem::replace(&mut self.last_rows, Vec::new(self.alloc)),
            last_turn: None,
        };
        let at = self.lives.len();
        if self.lives.push(last).is_err() {
            self.lose();
        }
        self.write_words(at, self.last_text(files));
    }

    /// Returns the text with which that function ends.
    fn last_text(&self, files: Result<String, AllocError>) -> Result<String, AllocError> {
        let files = files?;
        let files = files.as_str();
        format!(in self.alloc; "{files}  end_all();\n}}\n")
    }
}

/// Returns the sort of the step at which the weights of a kind, one after the other, come to more than `drawn`.
fn sort_at(steps: &[Weight], kind: Kind, drawn: u64) -> Sort {
    let mut left = drawn;
    for (sort, weights) in steps {
        match left.checked_sub(weight_of(weights, kind)) {
            Some(rest) => left = rest,
            None => return *sort,
        }
    }
    Sort::Load
}

/// Returns the test of a kind and a seed, of up to so many steps. Without `offsets`, mmap is asked with offset 0 alone. `parts` is how
/// many functions that go on after an exec earlier tests of the same C program have.
///
/// # Errors
/// `AllocError`: the host is out of memory.
pub fn make(
    alloc: Global,
    kind: Kind,
    seed: u64,
    steps: u32,
    offsets: bool,
    parts: usize,
) -> Result<Test, AllocError> {
    let mut maker = Maker::new(alloc, kind, seed, parts)?;
    let audit = maker.begin(offsets);
    if kind != Kind::Mmap && maker.random.chance(800) {
        maker.sbrk();
    }
    if kind.shares_copies() && maker.random.chance(300) {
        maker.fork_of_many_pages();
    }
    maker.make_steps(steps);
    maker.finish(audit);
    maker.test.finish()
}
