// The system call `sbrk`: checks the new size, moves the end of the heap without taking a frame, and releases the settled
// pages (those in memory) above a lower end.

ghost use Rattle.std.specs.Prelude.{[], pos, ◌≡◌, ◌<◌, ◌≤◌, ◌≤ℤ◌, ◌^◌, IfErr, IfOk, Some};
ghost use Rattle.address_space.specs.Agreement.{body_of, IsSpace, IsAlive};
ghost use Rattle.address_space.specs.Kept.{IsUntouched, KeepsPlace};
ghost use Rattle.address_space.specs.SpaceTeardown.{Drops};
ghost use Rattle.address_space.specs.Layouts.{LaysOut};
ghost use Rattle.address_space.specs.Steps.{TakesFrames};
ghost use Rattle.frame_store.specs.Laws.{IsSeatOf, KeepsSeats};
ghost use Rattle.lazy_growth.specs.SbrkEffect.{Resizes};
ghost use Rattle.lazy_growth.specs.SbrkResults.{IsNewSize, answer_of, refusal_of, size_before};
ghost use Rattle.process_model.specs.Bytes.{pages_for};
ghost use Rattle.process_model.specs.Heap as model;
ghost use Rattle.process_model.specs.Order.{HasOrder};
ghost use Rattle.process_model.specs.Process.{Process};
ghost use Rattle.sv39_entry.specs.Schemes.{trapframe_page};
ghost use Rattle.table_walk.specs.Tables.{Tables};

use crate::size_error::SizeError;
use address_space::{Layout, Space};
use frame_store::{FrameAccess, FrameSeat};
use sv39_entry::{PAGE_SIZE, Va, Vpn};

/// Moves the end of the heap by `delta` bytes, and returns the address at which it ended before (the xv6 book, "Page-fault
/// exceptions"). Takes no frame: a page gets one at its first access. Settled pages above the new end are unmapped and the
/// references to their frames dropped; a page that returns later begins as zeros again. Page tables stay. If `delta` is 0
/// or more, the seat's view and the store are unchanged. Makes no fence: the caller must, if leaves were removed.
///
/// # Errors
/// The first that applies. `BadSize`: the heap would end below its base. `NoRoom`: it would have pages at or above the
/// first page of the lowest mapping, or TRAPFRAME if there is no mapping. The layout, the seat's view and the store are
/// then unchanged.
pub fn sbrk<S: FrameSeat, F: FrameAccess<Seat = S>>(
    space: &mut Space<S>,
    store: &mut F,
    delta: i64,
) -> Result<u64, SizeError>
    requires fits { IsSeatOf F.invariant store.old space.old.seat }
    requires ready { IsAlive (body_of S.view space.old) }
    ensures answer { (t : Tables) (p : Process) → IsSpace (body_of S.view space.old) t p →
        answer_of result ≡ size_before p (model.sbrk_result p delta) }
    ensures resized { IfOk result (λ _. (t : Tables) (p : Process) →
        IsSpace (body_of S.view space.old) t p →
        Resizes (body_of S.view space.new) t p delta) }
    ensures stays { IfErr result (λ _. IsUntouched S.view space.old space.new store.old store.new) }
    ensures growing_keeps_view { pos 0 ≤ℤ delta → S.view space.new.seat ≡ S.view space.old.seat }
    ensures growing_keeps_store { pos 0 ≤ℤ delta → store.new ≡ store.old }
    ensures tallies { TakesFrames (S.view space.old.seat) (S.view space.new.seat) 0 [] }
    ensures root { space.new.root ≡ space.old.root }
    ensures trapframe { space.new.trapframe ≡ space.old.trapframe }
    ensures keeps { KeepsSeats F.invariant store.old space.old.seat store.new space.new.seat }
    ensures free { F.alone → F.free store.old ≤ F.free store.new }
{
    let before = space.layout.size();
    let size = size_asked(&space.layout, delta)?;
    release_pages(space, store, end_page(size), end_page(before));
    space.set_size(size);
    Ok(before)
}

/// Returns the size in bytes after a change by `delta`, or why the process may not have it.
fn size_asked(layout: &Layout, delta: i64) -> Result<u64, SizeError>
    requires order { (p : Process) × LaysOut layout.now p × HasOrder 0 p }
    ensures granted { IfOk result (λ size. (p : Process) → LaysOut layout.now p → IsNewSize p delta size) }
    ensures refused { IfErr result (λ e. (p : Process) → LaysOut layout.now p →
        model.size_refusal p (model.wanted_size p delta) ≡ Some (refusal_of e)) }
{
    let Some(size) = layout.size().checked_add_signed(delta) else {
        return Err(SizeError::BadSize);
    };
    if size < layout.heap_base() {
        return Err(SizeError::BadSize);
    }
    if size.div_ceil(PAGE_SIZE) > heap_limit(layout) {
        return Err(SizeError::NoRoom);
    }
    Ok(size)
}

/// Returns the page number up to which, and without which, the heap may reach: the first page of the lowest mapping, or
/// TRAPFRAME if there is no mapping.
fn heap_limit(layout: &Layout) -> u64
    ensures { (p : Process) → LaysOut layout.now p → result ≡ model.heap_limit p.scheme p.mappings }
{
    match layout.mappings().first() {
        Some(mapping) => mapping.first,
        None => layout.scheme().trapframe().page().number(),
    }
}

/// Returns the first page above a heap that ends at address `size`.
fn end_page(size: u64) -> Vpn
    requires low { pages_for size < 2 ^ 52 }
    ensures { result ≡ pages_for size }
{
    Va(size.div_ceil(PAGE_SIZE) * PAGE_SIZE).page()
}

/// Unmaps the settled pages from `first` up to, and without, `end`, and drops the references to their frames. If `end` is
/// not above `first`, reads no table.
fn release_pages<S: FrameSeat, F: FrameAccess<Seat = S>>(
    space: &mut Space<S>,
    store: &mut F,
    first: Vpn,
    end: Vpn,
)
    requires fits { IsSeatOf F.invariant store.old space.old.seat }
    requires ready { IsAlive (body_of S.view space.old) }
    requires low { end ≤ trapframe_page space.old.layout.scheme }
    ensures released { (t : Tables) (p : Process) →
        IsSpace (body_of S.view space.old) t p →
        (u : Tables) × IsSpace (body_of S.view space.new) u (model.without_pages p first end) × Drops t u first end }
    ensures kept_view { end ≤ first → S.view space.new.seat ≡ S.view space.old.seat }
    ensures kept_store { end ≤ first → store.new ≡ store.old }
    ensures tallies { TakesFrames (S.view space.old.seat) (S.view space.new.seat) 0 [] }
    ensures place { KeepsPlace space.old space.new }
    ensures keeps { KeepsSeats F.invariant store.old space.old.seat store.new space.new.seat }
    ensures free { F.alone → F.free store.old ≤ F.free store.new }
{
    if end <= first {
        return;
    }
    space.drop_pages(store, first, end);
}
