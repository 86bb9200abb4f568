// Ends of a process on threads: `Tracked::exit` (the call exit), `close` (exit and end by a rule: writes every mapping back,
// releases the frames, appends the last journal entry) and `Tracked::cut` (outcome Memory or JournalFull: no entry more, no
// write-back), with the steps and outcomes that they share.

ghost use Rattle.std.specs.Prelude.{[], ◌≡◌, ◌<◌, IfErr, IfOk, length, None, vec_capacity, vec_len};
ghost use Rattle.address_space.specs.Agreement.{body_of, IsSpace, IsAlive};
ghost use Rattle.address_space.specs.Steps.{IsBare, TakesFrames};
ghost use Rattle.file_shelf.specs.ShelfStates.{HasMoves, CanRefuse};
ghost use Rattle.hart_calls.specs.ProcessEnd.{Closes, IsCause, outcome_of};
ghost use Rattle.hart_calls.specs.Replay.{call_of, listed_call};
ghost use Rattle.hart_calls.specs.Track.{next_of};
ghost use Rattle.hart_calls.specs.TurnCases.{IsCutFor, IsOver, KeepsFilesByOutcome};
ghost use Rattle.process_model.specs.declared.call.ProcessEnd.TheVariants as outcome;
ghost use Rattle.process_model.specs.Mappings.{all_written_back};
ghost use Rattle.process_model.specs.PageMoves.{all_moves};
ghost use Rattle.process_model.specs.Process.{Process};
ghost use Rattle.process_model.specs.declared.call.Call.TheVariants as call;
ghost use Rattle.process_model.specs.declared.reply.ScalarReply.TheVariants as scalar;
ghost use Rattle.process_model.specs.declared.reply.Reply.TheVariants as reply;
ghost use Rattle.shared_frames.specs.SeatsOfTable.{FitsIn, view_of};
ghost use Rattle.table_walk.specs.Tables.{Tables};
ghost use Rattle.process_model.specs.declared.limits.TheConstants.{MOST_ENTRIES};

use crate::finished::Finished;
use crate::journal_entry::{JournalEntry, Listed, PagesRead};
use crate::journal_reply::JournalReply;
use crate::model_process::ModelProcess;
use crate::run_brand::RunBrand;
use crate::tracked::{Tracked, TrackedParts};
use address_space::Space;
use file_cabinet::PromiseError;
use file_shelf::Shelf;
use mmap_regions::{promise_write_back, write_back};
use process_model::{Call, ProcessEnd, ScalarReply};
use shared_frames::{SharedSeat, SharedSupply};
use std::sync::Wait;

impl<'a, B: RunBrand> Tracked<'a, B> {
    /// Ends the process with no journal entry more and without write-back. `outcome` is `Memory` or `JournalFull`.
    #[inline(never)]
    pub(crate) fn cut<R: Wait>(
        self,
        store: &mut SharedSupply<'_, R>,
        outcome: ProcessEnd,
    ) -> Finished<'a>
        requires store { store.old ≡ B.table }
        requires cause { IsCause outcome }
        requires full { IsCutFor self.state (next_of self) self.journal outcome }
        ensures store { store.new ≡ B.table }
        ensures over { IsOver B.table self.entry result }
        ensures outcome { result.outcome ≡ outcome }
    {
        let parts = self.parts;
        let TrackedParts {
            name,
            journal,
            space,
            ..
        } = parts;
        let seat = leave::<B, R>(space, store);
        Finished {
            name,
            outcome,
            journal,
            seat,
        }
    }

    /// Makes the next call, an exit: ends the process by `close`.
    #[inline(never)]
    pub(crate) fn exit<R: Wait>(
        self,
        store: &mut SharedSupply<'_, R>,
        shelf: &mut Shelf,
        status: i32,
    ) -> Finished<'a>
        requires store { store.old ≡ B.table }
        requires next { next_of self ≡ call.Exit status }
        requires room { 0 < self.room }
        requires few { length self.journal < MOST_ENTRIES }
        ensures store { store.new ≡ B.table }
        ensures over { IsOver B.table self.entry result }
        ensures files { KeepsFilesByOutcome self.entry result result.outcome shelf.old shelf.new }
    {
        let listed = self.listed();
        let parts = self.parts;
        let before = parts.present.kept();
        let entry = exit_entry(listed, status, before);
        close::<B, R>(parts, store, shelf, entry, exited(status))
    }
}

/// The journal entry of an exit.
fn exit_entry<'a>(listed: Listed<'a>, status: i32, before: ModelProcess) -> JournalEntry<'a>
    ensures call { call_of result ≡ listed_call listed.entry }
    ensures reply { result.reply ≡ reply.Scalar (scalar.Exited status) }
    ensures pages { result.pages ≡ [] }
    ensures file { result.file ≡ None }
    ensures before { result.before.state ≡ before.state }
{
    JournalEntry::new(
        listed,
        JournalReply::scalar(ScalarReply::Exited(status)),
        PagesRead::none(),
        None,
        before,
    )
}

/// The outcome of a process that exits.
fn exited(status: i32) -> ProcessEnd
    ensures { result ≡ outcome.Exited status }
{
    ProcessEnd::Exited(status)
}

/// Ends a process: writes every mapping back, in order of address, releases all its frames and appends `entry` to its
/// journal. If the files refuse to promise these pages, none is written, no entry is appended, and the outcome is `Memory`
/// or `JournalFull`.
#[inline(never)]
pub(crate) fn close<'a, B: RunBrand, R: Wait>(
    parts: TrackedParts<'a>,
    store: &mut SharedSupply<'_, R>,
    shelf: &mut Shelf,
    entry: JournalEntry<'a>,
    outcome: ProcessEnd,
) -> Finished<'a>
    requires store { store.old ≡ B.table }
    requires fits { FitsIn B.table parts.space.value.seat }
    requires ready { (t : Tables) × IsSpace (body_of view_of parts.space.value) t parts.present.state }
    requires room { vec_len parts.journal < vec_capacity parts.journal }
    ensures store { store.new ≡ B.table }
    ensures name { result.name.items ≡ parts.entry.name.items }
    ensures fits { FitsIn B.table result.seat }
    ensures bare { IsBare (view_of result.seat) }
    ensures tallies { TakesFrames (view_of parts.entry.space.value.seat) (view_of result.seat) 0 [] }
    ensures closes { Closes parts.entry.present.state parts.entry.journal.items entry.entry outcome result shelf.old shelf.new }
{
    let TrackedParts {
        name,
        mut journal,
        mut space,
        ..
    } = parts;
    let written = write_boxed::<B, R>(&mut space, store, shelf);
    let seat = leave::<B, R>(space, store);
    match written {
        Ok(()) => {
            journal.push_reserved(entry);
            Finished {
                name,
                outcome,
                journal,
                seat,
            }
        }
        Err(error) => Finished {
            name,
            outcome: outcome_of(error),
            journal,
            seat,
        },
    }
}

/// The outcome of a process that ends because the files refused to promise its write-back.
pub(crate) fn outcome_of(error: PromiseError) -> ProcessEnd
    ensures { result ≡ outcome_of error }
{
    match error {
        PromiseError::Memory => ProcessEnd::Memory,
        PromiseError::JournalFull => ProcessEnd::JournalFull,
    }
}

/// `write_all_back`, for a space in a box.
fn write_boxed<B: RunBrand, R: Wait>(
    space: &mut Box<Space<SharedSeat>>,
    store: &mut SharedSupply<'_, R>,
    shelf: &mut Shelf,
) -> Result<(), PromiseError>
    requires store { store.old ≡ B.table }
    requires fits { FitsIn B.table space.old.value.seat }
    requires ready { IsAlive (body_of view_of space.old.value) }
    ensures store { store.new ≡ B.table }
    ensures fits { FitsIn B.table space.new.value.seat }
    ensures still { (t : Tables) (p : Process) → IsSpace (body_of view_of space.old.value) t p → IsSpace (body_of view_of space.new.value) t p }
    ensures view { view_of space.new.value.seat ≡ view_of space.old.value.seat }
    ensures written { IfOk result (λ _. (t : Tables) (p : Process) → IsSpace (body_of view_of space.old.value) t p
        → HasMoves shelf.old (all_moves p) shelf.new) }
    ensures files { IfOk result (λ _. (t : Tables) (p : Process) → IsSpace (body_of view_of space.old.value) t p
        → (shelf.new).files ≡ all_written_back (shelf.old).files p) }
    ensures refused { IfErr result (λ e. (t : Tables) (p : Process) → IsSpace (body_of view_of space.old.value) t p
        → CanRefuse shelf.old (length (all_moves p)) e) }
    ensures unwritten { IfErr result (λ _. HasMoves shelf.old [] shelf.new) }
{
    write_all_back::<B, R>(space, store, shelf)
}

/// Writes every mapping of a process back to its file, in order of address.
///
/// # Errors
/// The files can refuse to promise these pages. Then no page is written.
fn write_all_back<B: RunBrand, R: Wait>(
    space: &mut Space<SharedSeat>,
    store: &mut SharedSupply<'_, R>,
    shelf: &mut Shelf,
) -> Result<(), PromiseError>
    requires store { store.old ≡ B.table }
    requires fits { FitsIn B.table space.old.seat }
    requires ready { IsAlive (body_of view_of space.old) }
    ensures store { store.new ≡ B.table }
    ensures fits { FitsIn B.table space.new.seat }
    ensures still { (t : Tables) (p : Process) → IsSpace (body_of view_of space.old) t p → IsSpace (body_of view_of space.new) t p }
    ensures view { view_of space.new.seat ≡ view_of space.old.seat }
    ensures written { IfOk result (λ _. (t : Tables) (p : Process) → IsSpace (body_of view_of space.old) t p → HasMoves shelf.old (all_moves p) shelf.new) }
    ensures files { IfOk result (λ _. (t : Tables) (p : Process) → IsSpace (body_of view_of space.old) t p
        → (shelf.new).files ≡ all_written_back (shelf.old).files p) }
    ensures refused { IfErr result (λ e. (t : Tables) (p : Process) → IsSpace (body_of view_of space.old) t p → CanRefuse shelf.old (length (all_moves p)) e) }
    ensures unwritten { IfErr result (λ _. HasMoves shelf.old [] shelf.new) }
{
    if let Err(error) = promise_write_back(space, store, shelf) {
        return Err(error);
    }
    write_back(space, store, shelf);
    Ok(())
}

/// Releases all frames of a process, and the box of its space. Returns the seat, which holds nothing.
pub(crate) fn leave<B: RunBrand, R: Wait>(
    space: Box<Space<SharedSeat>>,
    store: &mut SharedSupply<'_, R>,
) -> SharedSeat
    requires store { store.old ≡ B.table }
    requires fits { FitsIn B.table space.value.seat }
    requires ready { IsAlive (body_of view_of space.value) }
    ensures store { store.new ≡ B.table }
    ensures fits { FitsIn B.table result }
    ensures bare { IsBare (view_of result) }
    ensures tallies { TakesFrames (view_of space.value.seat) (view_of result) 0 [] }
{
    destroy::<B, R>(Box::into_inner(space), store)
}

/// Releases all frames of a process. Returns the seat, which holds nothing.
pub(crate) fn destroy<B: RunBrand, R: Wait>(
    space: Space<SharedSeat>,
    store: &mut SharedSupply<'_, R>,
) -> SharedSeat
    requires store { store.old ≡ B.table }
    requires fits { FitsIn B.table space.seat }
    requires ready { IsAlive (body_of view_of space) }
    ensures store { store.new ≡ B.table }
    ensures fits { FitsIn B.table result }
    ensures bare { IsBare (view_of result) }
    ensures tallies { TakesFrames (view_of space.seat) (view_of result) 0 [] }
{
    space.destroy(store)
}
