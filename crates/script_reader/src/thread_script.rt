// `ThreadScript`, a struct: a parsed file for threads (files, images, pool of frames and slots, lists of calls, processes to
// start) with functions that return these parts, and `ThreadScript::read`, which parses a whole text.

ghost use Rattle.std.specs.Prelude.{◌≡◌, ◌+◌, ◌<◌, IfOk};
ghost use Rattle.std.specs.Option.{option_map};
ghost use Rattle.script_language.specs.ThreadScript as words;
ghost use Rattle.script_reader.specs.ReadResults.{GivesScript};
ghost use Rattle.script_reader.specs.ThreadsPlayable.{IsThreadPlayable};

use crate::fault::ScriptError;
use crate::thread_draft::{Declared, ThreadDraft};
use crate::thread_lines::{lists_named, read_lines};
use process_model::FileText;
use script_language::{CallList, Cause, LONGEST_SCRIPT, ListedCall, ListedStart, OwnedImage, Pool};
use std::alloc::Global;
use std::marker::Model;

/// A parsed file for threads: files, images, the pool of frames and slots, lists of calls, and the processes to start.
#[derive(Drop)]
pub struct ThreadScript {
    files: Vec<FileText>,
    images: Vec<OwnedImage>,
    pool: Pool,
    lists: Vec<CallList>,
    starts: Vec<ListedStart>,
}

impl Model for ThreadScript {
    ghost use Rattle.script_language.specs.ThreadScript as words;

    ghost Value = { words.ThreadScript };

    ghost view = { λ s. record { files = s.files.items; images = s.images.items; pool = s.pool; lists = s.lists.items; starts = s.starts.items } };
}

impl ThreadScript {
    /// Parses a whole file for threads. One that is returned can be played (`IsThreadPlayable`): only a start or a
    /// call can still be refused.
    ///
    /// # Errors
    /// `Line(n, cause)`: the file's first fault, in line `n`, counted from 1. Line 0: the file has more than
    /// 16,777,216 bytes. The line after the last, with `Order`: no line has a fault, and none is a `pool`.
    /// `Memory`: host memory was refused.
    pub fn read(alloc: Global, bytes: &[u8]) -> Result<ThreadScript, ScriptError>
        ensures read { GivesScript (λ s. s) result (words.thread_script_of bytes.now) }
        ensures playable { IfOk result IsThreadPlayable }
    {
        if bytes.len() > LONGEST_SCRIPT {
            return Err(ScriptError::Line(0, Cause::TooLong));
        }
        let mut draft = ThreadDraft::new(alloc, lists_named(bytes));
        let lines = read_lines(alloc, &mut draft, bytes)?;
        ThreadScript::of(draft, lines)
    }

    /// Makes the parsed file of a draft that was read from `lines` lines; `Order` in the line after these if it has no pool.
    fn of(draft: ThreadDraft, lines: u64) -> Result<ThreadScript, ScriptError>
        requires { lines < LONGEST_SCRIPT + 1 }
        ensures { GivesScript (λ s. s) result (words.whole_with draft lines (draft.pool)) }
    {
        let Declared {
            files,
            images,
            pool,
            lists,
            starts,
        } = draft.into_declared();
        match pool {
            Some(pool) => Ok(ThreadScript {
                files,
                images,
                pool,
                lists,
                starts,
            }),
            None => Err(ScriptError::Line(lines + 1, Cause::Order)),
        }
    }

    /// Returns the declared files; the index is the file's number.
    pub fn files(&self) -> &[FileText]
        ensures { result.now ≡ (self.now).files }
    {
        self.files.as_slice()
    }

    /// Returns the declared images; the index is the image's number.
    pub fn images(&self) -> &[OwnedImage]
        ensures { result.now ≡ (self.now).images }
    {
        self.images.as_slice()
    }

    /// Returns how many frames the threads share, and how many slots there are.
    pub fn pool(&self) -> Pool
        ensures { result ≡ (self.now).pool }
    {
        self.pool
    }

    /// Returns the lists of calls, in the order of the file.
    pub fn lists(&self) -> &[CallList]
        ensures { result.now ≡ (self.now).lists }
    {
        self.lists.as_slice()
    }

    /// Returns the calls of the list of this number. `None`: the file has no such list.
    pub fn calls(&self, number: usize) -> Option<&[ListedCall]>
        ensures { option_map (λ calls. calls.now) result ≡ words.calls_of (self.now).lists number }
    {
        for list in &self.lists {
            if list.number == number {
                return Some(list.calls.as_slice());
            }
        }
        None
    }

    /// Returns the processes to start, in the order of the file.
    pub fn starts(&self) -> &[ListedStart]
        ensures { result.now ≡ (self.now).starts }
    {
        self.starts.as_slice()
    }
}
