// `ThreadDraft`, a struct: the files, images, pool (numbers of frames and slots), lists of calls and starts of the lines of
// a file for threads read so far. Functions: whether the next line may have a word (order), room for an item (limits on the
// numbers of files, images, calls and lines), both for a call (`takes_calls`), adding one.
// `Declared`, a struct: what all lines declare.

ghost use Rattle.std.specs.Prelude.{◌≡◌, OnOk, true};
ghost use Rattle.script_language.specs.declared.script.ThreadItem.TheVariants as item;
ghost use Rattle.script_language.specs.ThreadScript as words;
ghost use Rattle.script_reader.specs.ThreadFastLines.{takes_calls};

use crate::push::push;
use process_model::{FileText, MOST_FILES, Sequence};
use script_language::{
    CallList, Keyword, ListedCall, ListedStart, MOST_CALLS, MOST_COMMANDS, MOST_IMAGES, MOST_LISTS,
    OwnedImage, Pool, ThreadItem,
};
use std::alloc::{AllocError, Global};
use std::marker::Model;

/// What the lines of a file for threads read so far declare.
#[derive(Drop)]
pub struct ThreadDraft {
    alloc: Global,
    named: [bool; MOST_LISTS],
    files: Vec<FileText>,
    images: Vec<OwnedImage>,
    pool: Option<Pool>,
    lists: Vec<CallList>,
    starts: Vec<ListedStart>,
    lines: usize,
}

impl Model for ThreadDraft {
    ghost use Rattle.script_language.specs.ThreadScript as words;

    ghost Value = { words.ThreadDraft };

    ghost view = { λ d. record {
      named = d.named;
      files = d.files.items;
      images = d.images.items;
      pool = d.pool;
      lists = d.lists.items;
      starts = d.starts.items;
      lines = d.lines;
    } };
}

/// What all lines of a file for threads declare; the pool is `None` if no line was a `pool`.
pub struct Declared {
    pub files: Vec<FileText>,
    pub images: Vec<OwnedImage>,
    pub pool: Option<Pool>,
    pub lists: Vec<CallList>,
    pub starts: Vec<ListedStart>,
}

/// Appends a call to the last list. Inlined, as its caller `add_call` is.
#[inline(always)]
fn push_call(lists: &mut Vec<CallList>, call: ListedCall) -> Result<(), AllocError>
    ensures { OnOk result (lists.new.items ≡ words.with_call lists.old.items call) }
{
    match lists.len().checked_sub(1) {
        Some(last) => lists[last].calls.push(call),
        None => Ok(()),
    }
}

impl ThreadDraft {
    /// Returns the draft of no lines. `named` has for each number whether some line of the file begins a
    /// list of that number.
    pub fn new(alloc: Global, named: [bool; MOST_LISTS]) -> ThreadDraft
        ensures { result ≡ words.nothing_said named }
    {
        ThreadDraft {
            alloc,
            named,
            files: Vec::new(alloc),
            images: Vec::new(alloc),
            pool: None,
            lists: Vec::new(alloc),
            starts: Vec::new(alloc),
            lines: 0,
        }
    }

    /// Whether the next line may have this word. A declaration or `pool`: if no `pool` was read. `start`: if one was.
    /// `list`: if a `pool` was read and no `start`. Any other word: if a `list` was read and no `start`.
    pub fn in_order(&self, word: Keyword) -> bool
        ensures { result ≡ words.in_order self.now word }
    {
        let started = !self.starts.is_empty();
        match word {
            Keyword::File | Keyword::Image | Keyword::Elf | Keyword::Pool => self.pool.is_none(),
            Keyword::List => self.pool.is_some() && !started,
            Keyword::Start => self.pool.is_some(),
            _ => !self.lists.is_empty() && !started,
        }
    }

    /// Whether an image of this number was declared; they are numbered from 0.
    pub fn has_image(&self, number: usize) -> bool
        ensures { result ≡ words.has_image self.now number }
    {
        number < self.images.len()
    }

    /// Whether a line read so far began a list of this number.
    pub fn has_list(&self, number: usize) -> bool
        ensures { result ≡ words.has_list (self.now).lists number }
    {
        for list in &self.lists {
            if list.number == number {
                return true;
            }
        }
        false
    }

    /// Whether some line of the file, read or not, begins a list of this number.
    pub fn is_named(&self, number: usize) -> bool
        ensures { result ≡ words.is_named (self.now).named number }
    {
        match self.named.get(number) {
            Some(named) => *named,
            None => false,
        }
    }

    /// The number of calls of the open list, 0 if no list was begun.
    fn open_calls(&self) -> usize
        ensures { result ≡ words.open_calls (self.now).lists }
    {
        match self.lists.last() {
            Some(list) => list.calls.as_slice().len(),
            None => 0,
        }
    }

    /// Whether the file may have one more item of this kind.
    pub fn has_room(&self, item: &ThreadItem) -> bool
        ensures { result ≡ words.has_room self.now item.now }
    {
        match item {
            ThreadItem::File(_) => self.files.len() < MOST_FILES,
            ThreadItem::Image(_) => self.images.len() < MOST_IMAGES,
            ThreadItem::Pool(_) => true,
            ThreadItem::Call(_) => self.lines < MOST_COMMANDS && self.open_calls() < MOST_CALLS,
            ThreadItem::List(_) | ThreadItem::Start(_) => self.lines < MOST_COMMANDS,
        }
    }

    /// Whether the next line may be a call, and there is room for it: a list was begun, and no start was read; there are
    /// fewer than `MOST_COMMANDS` lines after the `pool`, skipped lines not counted, and fewer than `MOST_CALLS` calls in the
    /// open list.
    pub fn takes_calls(&self) -> bool
        ensures { result ≡ takes_calls self.now }
    {
        !self.lists.is_empty()
            && self.starts.is_empty()
            && self.lines < MOST_COMMANDS
            && self.open_calls() < MOST_CALLS
    }

    /// Begins a list.
    fn add_list(&mut self, number: usize) -> Result<(), AllocError>
        requires { words.has_room self.old (item.List number) ≡ true }
        ensures { OnOk result (self.new ≡ words.with_item self.old (item.List number)) }
    {
        let calls = Sequence::from_vec(Vec::new(self.alloc));
        self.lines += 1;
        push(&mut self.lists, CallList { number, calls })
    }

    /// Appends a call to the open list. The caller must know that there is room for it (`has_room`, `takes_calls`). Inlined, so
    /// that a caller that asked `takes_calls` need not look for that list again.
    ///
    /// # Errors
    /// `AllocError`: host memory was refused; the draft is lost.
    #[inline(always)]
    pub fn add_call(&mut self, call: ListedCall) -> Result<(), AllocError>
        requires { words.has_room self.old (item.Call call) ≡ true }
        ensures { OnOk result (self.new ≡ words.with_item self.old (item.Call call)) }
    {
        self.lines += 1;
        push_call(&mut self.lists, call)
    }

    fn add_start(&mut self, start: ListedStart) -> Result<(), AllocError>
        requires { words.has_room self.old (item.Start start) ≡ true }
        ensures { OnOk result (self.new ≡ words.with_item self.old (item.Start start)) }
    {
        self.lines += 1;
        push(&mut self.starts, start)
    }

    /// Adds the item of a line after those of the lines before it. The caller must know that there is room for it
    /// (`has_room`).
    ///
    /// # Errors
    /// `AllocError`: host memory was refused; the draft is lost.
    pub fn add(&mut self, item: ThreadItem) -> Result<(), AllocError>
        requires { words.has_room self.old item ≡ true }
        ensures { OnOk result (self.new ≡ words.with_item self.old item) }
    {
        match item {
            ThreadItem::File(file) => push(&mut self.files, file),
            ThreadItem::Image(image) => push(&mut self.images, image),
            ThreadItem::Pool(pool) => {
                self.pool = Some(pool);
                Ok(())
            }
            ThreadItem::List(number) => self.add_list(number),
            ThreadItem::Call(call) => self.add_call(call),
            ThreadItem::Start(start) => self.add_start(start),
        }
    }

    /// Returns what the lines declare.
    pub fn into_declared(self) -> Declared
        ensures files { result.files.items ≡ self.files }
        ensures images { result.images.items ≡ self.images }
        ensures pool { result.pool ≡ self.pool }
        ensures lists { result.lists.items ≡ self.lists }
        ensures starts { result.starts.items ≡ self.starts }
    {
        Declared {
            files: self.files,
            images: self.images,
            pool: self.pool,
            lists: self.lists,
            starts: self.starts,
        }
    }
}
