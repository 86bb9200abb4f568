// The call `exec` (the xv6 book, "Code: exec"): replaces the process in an address space by the process of a program image.
// Before that, mmap pages with the dirty mark (D) are written back to their files.

ghost use Rattle.std.specs.Prelude.{[], ◌≡◌, ◌≢◌, ◌<◌, ◌≤◌, IfErr, IfOk, length, ℕ};
ghost use Rattle.address_space.specs.Agreement.{body_of, IsSpace, IsAlive};
ghost use Rattle.address_space.specs.Kept.{IsUntouched};
ghost use Rattle.address_space.specs.Parts.{OwnsAlone};
ghost use Rattle.address_space.specs.Steps.{RunsDry, TakesFrames};
ghost use Rattle.exec_segments.specs.ExecRefusals.{IsExecRefusal};
ghost use Rattle.frame_store.specs.Laws.{IsSeatOf, KeepsSeats};
ghost use Rattle.frame_store.specs.View.{hold_of};
ghost use Rattle.process_model.specs.Frames.{exec_need};
ghost use Rattle.process_model.specs.ImageProcess as model;
ghost use Rattle.process_model.specs.Mappings.{all_written_back};
ghost use Rattle.process_model.specs.PageMoves.{all_moves};
ghost use Rattle.process_model.specs.Process.{Process};
ghost use Rattle.process_model.specs.declared.reply.Refusal.TheVariants.{NoFrame};
ghost use Rattle.table_walk.specs.Tables as tables;

use crate::image::Image;
use crate::start_process::parts_of;
use address_space::{Space, frames_needed};
use file_cabinet::Files;
use frame_store::{FrameSeat, FrameSupply};
use mmap_regions::{promise_write_back, write_back};
use process_model::Refusal;

/// Replaces the process in `space` by the process of `image`, which must have been checked for the scheme of `space` (the
/// xv6 book, "Code: exec"). First the pages with the dirty mark (D) are written back to the files of their mappings, in
/// order of address; then the old pages and tables are released, and the image's built, on frames of which the seat is
/// the sole holder. The trapframe keeps its frame and the words known there. Takes `exec_need` frames: the image's pages,
/// guard and stack too, and their tables. The frames of the old process do not count as free. Makes no fence: the caller
/// must, since TLBs may hold leaves of the old process.
///
/// # Errors
/// The space then is the process that it was, and the files keep their contents. `Memory`, `JournalFull`: `files` refused the
/// promise for the write-back (that writing these pages cannot fail). Seat and store are then unchanged. `NoFrame`: too few
/// frames are free; the promise was made. If nobody else changes the store (`alone`): unless the promise is refused, exactly
/// when fewer than `exec_need` are free. Over shared frames: only after the free count was read as 0 while fewer than
/// `exec_need` credits were reserved.
pub fn exec<S: FrameSeat, F: FrameSupply<Seat = S>, C: Files>(
    space: &mut Space<S>,
    store: &mut F,
    image: &Image,
    files: &mut C,
) -> Result<(), Refusal>
    requires fits { IsSeatOf F.invariant store.old space.old.seat }
    requires ready { IsAlive (body_of S.view space.old) }
    requires scheme { image.now.scheme ≡ space.old.layout.scheme }
    ensures replaced { IfOk result (λ _. (t : tables.Tables)
        × ((fresh : ℕ) → IsSpace (body_of S.view space.new) t (model.process_of image.now.scheme fresh image.now.loads))
        × OwnsAlone (S.view space.new.seat) t) }
    ensures moves { IfOk result (λ _. (t : tables.Tables) (p : Process) → IsSpace (body_of S.view space.old) t p
        → C.becomes files.old (all_moves p) files.new) }
    ensures written { IfOk result (λ _. (t : tables.Tables) (p : Process) → IsSpace (body_of S.view space.old) t p
        → C.files files.new ≡ all_written_back (C.files files.old) p) }
    ensures takes { IfOk result (λ _. TakesFrames (S.view space.old.seat) (S.view space.new.seat) (exec_need image.now.scheme image.now.loads) []) }
    ensures saved { IfOk result (λ _. hold_of (S.view space.new.seat) space.old.trapframe.0 ≡ hold_of (S.view space.old.seat) space.old.trapframe.0) }
    ensures refused { IfErr result (λ e. (t : tables.Tables) (p : Process) → IsSpace (body_of S.view space.old) t p
        → IsExecRefusal (C.can_refuse files.old (length (all_moves p))) e) }
    ensures promised { IfErr result (λ e. e ≡ NoFrame → (t : tables.Tables) (p : Process) → IsSpace (body_of S.view space.old) t p
        → length (all_moves p) ≤ C.room files.new) }
    ensures dry { IfErr result (λ e. e ≡ NoFrame → RunsDry (S.view space.old.seat) (S.view space.new.seat) (exec_need image.now.scheme image.now.loads) []) }
    ensures whole { IfErr result (λ _. (t : tables.Tables) (p : Process) → IsSpace (body_of S.view space.old) t p → IsSpace (body_of S.view space.new) t p) }
    ensures files_stay { IfErr result (λ _. C.becomes files.old [] files.new) }
    ensures stays { IfErr result (λ e. e ≢ NoFrame → IsUntouched S.view space.old space.new store.old store.new) }
    ensures enough { F.alone → IfOk result (λ _. exec_need image.now.scheme image.now.loads ≤ F.free store.old) }
    ensures short { F.alone → IfErr result (λ e. e ≡ NoFrame → F.free store.old < exec_need image.now.scheme image.now.loads) }
    ensures trapframe { space.new.trapframe ≡ space.old.trapframe }
    ensures keeps { KeepsSeats F.invariant store.old space.old.seat store.new space.new.seat }
{
    let parts = parts_of(image);
    promise_write_back(space, store, files)?;
    let need = frames_needed(image.scheme, parts.as_slice()) - 1;
    if store.reserve(&mut space.seat, need).is_err() {
        return Err(Refusal::NoFrame);
    }
    write_back(space, store, files);
    space.rebuild(store, parts.as_slice());
    Ok(())
}
