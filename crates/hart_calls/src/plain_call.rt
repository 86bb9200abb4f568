// `Tracked::plain_call`: makes a process's next call if it is neither fork nor exit, then appends its journal entry or ends
// the process. Helpers build and append the entry, and find the model's process after the call and the pages that it read.

ghost use Rattle.std.specs.Prelude.{[], ◌∷◌, ◌++◌, ◌≡◌, ◌<◌, ◌≤◌, drop, length, List, vec_capacity, vec_len};
ghost use Rattle.address_space.specs.Agreement.{body_of, IsSpace};
ghost use Rattle.hart_calls.specs.CallKinds.{HasRoomFor, IsPlainCall, may_read, moves_read};
ghost use Rattle.hart_calls.specs.ProcessEnd.{cause_of};
ghost use Rattle.hart_calls.specs.CallResults.{shortage_of};
ghost use Rattle.hart_calls.specs.Replay.{call_at, call_of, forks, IsReplayStep, list_at, listed_call, Replays};
ghost use Rattle.hart_calls.specs.CallOutcomes.{file_of, call_outcome};
ghost use Rattle.hart_calls.specs.Track.{NameLists, next_of};
ghost use Rattle.hart_calls.specs.TurnResults.{HasFilesAfter, HasTurned};
ghost use Rattle.process_model.specs.declared.limits.TheConstants.{MOST_ENTRIES};
ghost use Rattle.process_model.specs.Files.{File};
ghost use Rattle.process_model.specs.declared.reply.ScalarReply.TheVariants as scalar;
ghost use Rattle.process_model.specs.declared.reply.Reply.TheVariants as reply;
ghost use Rattle.shared_frames.specs.SeatsOfTable.{FitsIn, view_of};
ghost use Rattle.table_walk.specs.Tables.{Tables};

use crate::call_result::CallResult;
use crate::calls::make_boxed;
use crate::exit::close;
use crate::fork_slot::ForkSlot;
use crate::journal_entry::{JournalEntry, Listed, PagesRead};
use crate::journal_reply::JournalReply;
use crate::model_process::{ModelProcess, begun};
use crate::run_brand::RunBrand;
use crate::tracked::{Tracked, TrackedParts};
use crate::turn::Turn;
use file_cabinet::Files;
use file_shelf::{PageUse, Shelf};
use process_model::{Call, ProcessEnd, Refusal, Reply, ScalarReply};
use shared_frames::SharedSupply;
use std::marker::PhantomData;
use std::snapshot::Snapshot;
use std::sync::Wait;
use sv39_entry::Rule;

impl<'a, B: RunBrand> Tracked<'a, B> {
    /// Makes the next call, which is neither fork nor exit. `pages` and `room` are memory for its journal entry. `slot` is
    /// for the contract alone: such a call needs none.
    pub(crate) fn plain_call<R: Wait>(
        self,
        store: &mut SharedSupply<'_, R>,
        shelf: &mut Shelf,
        call: Call<'a>,
        pages: Box<Vec<PageUse>>,
        room: Option<Box<Reply>>,
        slot: &ForkSlot,
    ) -> Turn<'a, B>
        requires store { store.old ≡ B.table }
        requires next { call ≡ next_of self }
        requires plain { IsPlainCall call }
        requires room { 0 < self.room }
        requires few { length self.journal < MOST_ENTRIES }
        requires none { pages.value.items ≡ [] }
        requires pages { 2 ≤ vec_capacity pages.value }
        requires long { HasRoomFor call room }
        ensures store { store.new ≡ B.table }
        ensures turned { HasTurned B.table self.entry result slot.now }
        ensures files { HasFilesAfter self.entry result shelf.old shelf.new }
    {
        let _ = slot;
        let listed = self.listed();
        let mut parts = self.parts;
        let was = parts.present.kept();
        let before = Snapshot::of(&*shelf);
        let mark = uses(shelf);
        let file = mapped_file(shelf, call);
        let call_result = make_boxed(&mut parts.space, store, shelf, call, room);
        let pages = pages_read(shelf, mark, call, pages, &mut parts.spare);
        match call_result {
            CallResult::Answered(reply) => {
                let present = state_after(&parts.present, before, call, &reply, None);
                let entry = JournalEntry::new(listed, reply, pages, file, was);
                Turn::Continues(append_entry(parts, present, entry), None)
            }
            CallResult::Unpromised(refusal, done) => {
                let reply = JournalReply::scalar(ScalarReply::Refused(refusal));
                let present = state_after(&parts.present, before, call, &reply, Some(done));
                let entry = JournalEntry::new(listed, reply, pages, file, was);
                Turn::Continues(append_entry(parts, present, entry), None)
            }
            CallResult::Ended(rule) => {
                let entry = last_entry(listed, rule, pages, file, was);
                Turn::Over(close::<B, R>(parts, store, shelf, entry, ProcessEnd::Ended(rule)))
            }
            CallResult::Unserved(refusal) => {
                let tracked: Tracked<'a, B> = Tracked {
                    parts,
                    of: PhantomData,
                };
                Turn::Over(tracked.cut(store, cause_of(refusal)))
            }
        }
    }
}

/// The journal entry of a call that ended its process by a rule.
fn last_entry<'a>(
    listed: Listed<'a>,
    rule: Rule,
    pages: PagesRead,
    file: Option<bool>,
    before: ModelProcess,
) -> JournalEntry<'a>
    ensures call { call_of result ≡ listed_call listed.entry }
    ensures reply { result.reply ≡ reply.Scalar (scalar.Ended rule) }
    ensures pages { result.pages ≡ pages }
    ensures file { result.file ≡ file }
    ensures before { result.before.state ≡ before.state }
{
    JournalEntry::new(
        listed,
        JournalReply::scalar(ScalarReply::Ended(rule)),
        pages,
        file,
        before,
    )
}

/// Appends the journal entry of a call that was made. `present` is the process after the call.
pub(crate) fn append_entry<'a, B: RunBrand>(
    mut parts: TrackedParts<'a>,
    present: ModelProcess,
    entry: JournalEntry<'a>,
) -> Tracked<'a, B>
    requires fits { FitsIn B.table parts.space.value.seat }
    requires agrees { (t : Tables) × IsSpace (body_of view_of parts.space.value) t present.state }
    requires replays { Replays parts.opening.state 0 0 (list_at parts.lists.now parts.list) parts.journal.items parts.present.state }
    requires leads { (files : List File) × IsReplayStep files (forks parts.journal.items) parts.present.state entry present.state }
    requires next { call_of entry ≡ call_at (list_at parts.lists.now parts.list) (length parts.journal.items) }
    requires named { NameLists parts.lists.now }
    requires there { parts.list < length parts.lists.now }
    requires room { vec_len parts.journal < vec_capacity parts.journal }
    requires few { length parts.journal.items < MOST_ENTRIES }
    requires children { parts.children ≡ forks parts.journal.items }
    ensures name { result.name ≡ parts.entry.name.items }
    ensures lists { result.lists ≡ parts.entry.lists.now }
    ensures list { result.list ≡ parts.entry.list }
    ensures opening { result.opening ≡ parts.entry.opening.state }
    ensures state { result.state ≡ present.state }
    ensures journal { result.journal ≡ parts.entry.journal.items ++ entry.entry ∷ [] }
    ensures seat { result.seat ≡ view_of parts.entry.space.value.seat }
{
    let named = entry.reply.forked();
    parts.journal.push_reserved(entry);
    parts.children += named;
    parts.present = present;
    Tracked {
        parts,
        of: PhantomData,
    }
}

/// What determines the model's process after a call.
#[derive(Drop)]
struct StateChange<'a> {
    present: ModelProcess,
    before: Snapshot<Shelf>,
    call: Call<'a>,
    reply: Snapshot<JournalReply>,
    stopped: Option<usize>,
}

/// The model's process after a call with this reply. `stopped`: how many bytes a copy had copied when the files refused a
/// promise; `None` if they refused none.
pub(crate) fn state_after(
    present: &ModelProcess,
    before: Snapshot<Shelf>,
    call: Call<'_>,
    reply: &JournalReply,
    stopped: Option<usize>,
) -> ModelProcess
    ensures { result.state ≡ (call_outcome (before.value).files (shortage_of stopped call.entry reply.now) 0 present.now.state call.entry).process }
{
    let made = StateChange {
        present: present.kept(),
        before,
        call,
        reply: Snapshot::of(reply),
        stopped,
    };
    begun(&made)
}

/// For an mmap of a file that exists, whether that file may be written; else `None`.
fn mapped_file(shelf: &Shelf, call: Call<'_>) -> Option<bool>
    ensures { result ≡ file_of (shelf.now).files call.entry }
{
    match call {
        Call::Mmap { file, .. } => {
            shelf.length(file)?;
            Some(shelf.writable(file))
        }
        _ => None,
    }
}

/// How many entries the history of the files has.
fn uses(shelf: &Shelf) -> usize
    ensures { result ≡ length (shelf.now).history }
{
    shelf.history().len()
}

/// The pages that a call read from files: the history from entry `mark` on, or none if the call may read none. If there is
/// no page, `room` is kept in `spare` for the next call.
fn pages_read(
    shelf: &Shelf,
    mark: usize,
    call: Call<'_>,
    room: Box<Vec<PageUse>>,
    spare: &mut Option<Box<Vec<PageUse>>>,
) -> PagesRead
    requires mark { mark ≤ length (shelf.now).history }
    requires few { length (moves_read call (drop mark (shelf.now).history)) ≤ 2 }
    requires none { room.value.items ≡ [] }
    requires room { 2 ≤ vec_capacity room.value }
    ensures { result ≡ moves_read call.entry (drop mark (shelf.now).history) }
{
    let mut pages = room;
    add_pages(shelf, mark, call, &mut pages);
    if pages.is_empty() {
        *spare = Some(pages);
        return PagesRead::none();
    }
    PagesRead::of(pages)
}

/// Copies the pages that a call read from files to an empty list.
fn add_pages(shelf: &Shelf, mark: usize, call: Call<'_>, pages: &mut Vec<PageUse>)
    requires mark { mark ≤ length (shelf.now).history }
    requires few { length (moves_read call (drop mark (shelf.now).history)) ≤ 2 }
    requires none { pages.old.items ≡ [] }
    requires room { 2 ≤ vec_capacity pages.old }
    ensures { pages.new.items ≡ moves_read call.entry (drop mark (shelf.now).history) }
{
    if !may_read(call) {
        return;
    }
    let recent = &shelf.history()[mark..];
    'uses: for page in recent {
        pages.push_reserved(page.copied());
    }
}

/// Whether a call may read pages of files: an access or a copy may, since it may settle pages.
fn may_read(call: Call<'_>) -> bool
    ensures { result ≡ may_read call.entry }
{
    matches!(
        call,
        Call::Fetch { .. }
            | Call::Load { .. }
            | Call::Store { .. }
            | Call::CopyIn { .. }
            | Call::CopyOut { .. }
    )
}

/// The outcome of a process that ends because the files refused a promise.
fn cause_of(refusal: Refusal) -> ProcessEnd
    ensures { result ≡ cause_of refusal }
{
    match refusal {
        Refusal::JournalFull => ProcessEnd::JournalFull,
        _ => ProcessEnd::Memory,
    }
}
