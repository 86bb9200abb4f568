// `JournalEntry` (struct): one call of a process as its journal keeps it: its place in the list, its reply, the pages that it
// read from files (`PagesRead`, struct) and, for an mmap, whether its file may be written; for contracts also the process
// before the call. Crate-internal: `Listed` (struct), a place in a list, and `call_at`, the call there.

ghost use Rattle.std.specs.Prelude.{[], ◌≡◌, None};
ghost use Rattle.hart_calls.specs.Replay.{call_at, call_of, listed_call};

use crate::journal_reply::JournalReply;
use crate::model_process::ModelProcess;
use file_shelf::PageUse;
use process_model::{Call, Sequence};
use std::marker::Model;

/// One call of a process, as its journal keeps it.
#[derive(Drop)]
pub struct JournalEntry<'a> {
    list: &'a Sequence<Call<'a>>,
    number: u16,
    /// For an mmap of a file that exists: `Some`, whether that file may be written. `None` for an mmap of a file that does
    /// not exist, and for every other call.
    pub file: Option<bool>,
    /// The reply. `Forked` has the child's number among the children of its parent, from 0; `Ended` and `Exited` end the
    /// process. A copy that stopped because the files refused to promise a page has that refusal as its reply.
    pub reply: JournalReply,
    /// The pages that the call read from files, at most two, in the order in which it read them.
    pub pages: PagesRead,
    /// The process of the model before the call, for contracts alone. A child that a fork names begins as `child_of` it.
    pub before: ModelProcess,
}

// A run may make millions of calls: each byte of an entry counts.
const _: () = prove!(size_of::<JournalEntry<'static>>() == 48);

/// Pages that a call read from files, in the order in which it read them. Most calls read none, and then no memory is
/// allocated. Contracts see the list of pages.
#[derive(Drop)]
pub struct PagesRead {
    kept: KeptPages,
}

/// How pages that were read are kept: in a box, because few calls read any.
#[derive(Drop)]
pub(crate) enum KeptPages {
    None,
    Some(Box<Vec<PageUse>>),
}

impl Model for PagesRead {
    ghost use Rattle.std.specs.Prelude.{List};
    ghost use Rattle.hart_calls.specs.JournalReplies.{kept_pages};
    ghost use Rattle.process_model.specs.PageMoves.{PageMove};

    ghost Value = { List PageMove };

    ghost view = { λ p. kept_pages p.kept };
}

impl PagesRead {
    /// No page.
    #[inline(always)]
    pub(crate) fn none() -> PagesRead
        ensures { result ≡ [] }
    {
        PagesRead {
            kept: KeptPages::None,
        }
    }

    /// The pages in this box.
    pub(crate) fn of(pages: Box<Vec<PageUse>>) -> PagesRead
        ensures { result ≡ pages.value.items }
    {
        PagesRead {
            kept: KeptPages::Some(pages),
        }
    }

    /// Returns the pages as a slice.
    pub fn as_slice(&self) -> &[PageUse]
        ensures { result.now ≡ self.now }
    {
        match &self.kept {
            KeptPages::None => &[],
            KeptPages::Some(pages) => pages.as_slice(),
        }
    }
}

/// A place in a list of calls, or behind its end.
#[derive(Clone, Copy)]
pub(crate) struct Listed<'a> {
    pub(crate) list: &'a Sequence<Call<'a>>,
    pub(crate) number: u16,
}

impl<'a> JournalEntry<'a> {
    /// Returns the call: that of its list, or `exit 0` after the last.
    pub fn call(&self) -> Call<'a>
        ensures { result ≡ call_of self.now }
    {
        call_at(self.list, usize::from(self.number))
    }

    /// The entry of the call at a place.
    #[inline(always)]
    pub(crate) fn new(
        listed: Listed<'a>,
        reply: JournalReply,
        pages: PagesRead,
        file: Option<bool>,
        before: ModelProcess,
    ) -> JournalEntry<'a>
        ensures call { call_of result ≡ listed_call listed.entry }
        ensures reply { result.reply ≡ reply }
        ensures pages { result.pages ≡ pages }
        ensures file { result.file ≡ file }
        ensures before { result.before.state ≡ before.state }
    {
        JournalEntry {
            list: listed.list,
            number: listed.number,
            file,
            reply,
            pages,
            before,
        }
    }
}

/// Call `number` of a list, `exit 0` after the last.
#[tactic(auto, using(crate::proofs::There::behind_last))]
pub(crate) fn call_at<'a>(calls: &'a Sequence<Call<'a>>, number: usize) -> Call<'a>
    ensures { result ≡ call_at calls.now number }
{
    match calls.as_slice().get(number) {
        Some(call) => *call,
        None => Call::Exit { status: 0 },
    }
}
