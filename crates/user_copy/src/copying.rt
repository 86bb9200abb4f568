// `copy_in` and `copy_out`, the kernel copies copyin and copyout of at most `LONGEST_COPY` bytes, which lie in at most two
// pages: each page is made resident, and then its bytes are copied.

ghost use Rattle.std.specs.Prelude.{[], ◌≡◌, ◌+◌, ◌%◌, ◌<◌, ◌≤◌, IfErr, IfOk, length};
ghost use Rattle.address_space.specs.Agreement.{body_of, IsSpace, IsAlive};
ghost use Rattle.fault_rules.specs.PageService.{moment, store_model};
ghost use Rattle.frame_store.specs.Laws.{IsSeatOf, KeepsSeats};
ghost use Rattle.process_model.specs.Process.{Process};
ghost use Rattle.sv39_entry.specs.Schemes.{maxva};
ghost use Rattle.sv39_entry.specs.declared.access.Access.TheVariants.{Load, Store};
ghost use Rattle.table_walk.specs.Tables.{Tables};
ghost use Rattle.user_copy.specs.CopyModel.{model_copy_in, model_copy_out, stop_in};
ghost use Rattle.user_copy.specs.CopyOfProcess.{bytes_in, bytes_out, HasPut, HasSameBytes, process_bytes};
ghost use Rattle.user_copy.specs.KernelCopies.{count_or, IsKernelCopy, stop_told};
ghost use Rattle.user_copy.specs.ReachedPage.{Reaches, served_of, StillStands};
ghost use Rattle.user_copy.specs.Runs.{CopiesIn, CopiesOut, near, runs, runs_of, some_bytes, some_run};

use crate::short::{Short, Stop};
use address_space::Space;
use arrayvec::ArrayVec;
use fault_rules::{Served, serve};
use file_cabinet::Files;
use frame_store::{FrameSeat, FrameSupply};
use process_model::LONGEST_COPY;
use sv39_entry::{Access, PAGE_SIZE, Va};

/// Copies `n` bytes, at most `LONGEST_COPY`, from a process's memory at `va`, and returns them (copyin of xv6). Each page is
/// made resident for a load by the rules of a fault, in ascending order. Alignment does not matter, and a copy of no bytes
/// succeeds at every address. Makes no fence: the caller must, if leaves changed.
///
/// # Errors
/// `Short`: the copy stopped at the first address that a rule denies, for whose page too few frames could be reserved
/// (`NoFrame`), or whose page of a file was not promised; `rule` says which. It has the bytes before that address, and how
/// many these are. Pages made resident stay so, and the space is still a process.
#[inline(never)]
pub fn copy_in<S: FrameSeat, F: FrameSupply<Seat = S>, C: Files>(
    space: &mut Space<S>,
    store: &mut F,
    files: &mut C,
    va: Va,
    n: usize,
) -> Result<ArrayVec<u8, LONGEST_COPY>, Short>
    requires fits { IsSeatOf F.invariant store.old space.old.seat }
    requires ready { IsAlive (body_of S.view space.old) }
    requires few { n ≤ LONGEST_COPY }
    ensures copied { CopiesIn (store_model S.view F.invariant F.alone F.free F.count C.files C.becomes C.can_refuse) (runs va.0 n)
        (moment space.old store.old files.old) (moment space.new store.new files.new) [] (bytes_in result) (stop_in result) }
    ensures copies { IsKernelCopy (store_model S.view F.invariant F.alone F.free F.count C.files C.becomes C.can_refuse)
        (moment space.old store.old files.old) (moment space.new store.new files.new) Load va.0 n (bytes_in result) result
        (λ p. model_copy_in (C.files files.old) p va.0 n (bytes_in result) (stop_in result)) (HasSameBytes (C.files files.old)) }
    ensures bytes { (t : Tables) (p : Process) → IsSpace (body_of S.view space.old) t p
        → bytes_in result ≡ process_bytes (C.files files.old) p va.0 (length (bytes_in result)) }
    ensures all { IfOk result (λ bytes. length bytes.items ≡ n) }
    ensures done { IfErr result (λ short. short.done ≡ length short.bytes.items) }
{
    let mut bytes = ArrayVec::new();
    match read_pages(space, store, files, va, n, &mut bytes) {
        Ok(()) => Ok(bytes),
        Err(rule) => {
            let done = bytes.len();
            Err(Short { rule, done, bytes })
        }
    }
}

/// Copies these bytes, at most `LONGEST_COPY`, to a process's memory at `va` (copyout of xv6). Each page is made resident for
/// a store by the rules of a fault, in ascending order. Alignment does not matter, and a copy of no bytes succeeds at every
/// address. Makes no fence: the caller must, if leaves changed.
///
/// # Errors
/// `Short`: the copy stopped at the first address that a rule denies, for whose page too few frames could be reserved
/// (`NoFrame`), or whose page of a file was not promised; `rule` says which. It has how many bytes are before that address;
/// these stay copied, their pages resident, and the space is still a process. Its list of bytes is empty.
pub fn copy_out<S: FrameSeat, F: FrameSupply<Seat = S>, C: Files>(
    space: &mut Space<S>,
    store: &mut F,
    files: &mut C,
    va: Va,
    bytes: &[u8],
) -> Result<(), Short>
    requires fits { IsSeatOf F.invariant store.old space.old.seat }
    requires ready { IsAlive (body_of S.view space.old) }
    requires few { length bytes.now ≤ LONGEST_COPY }
    ensures copied { CopiesOut (store_model S.view F.invariant F.alone F.free F.count C.files C.becomes C.can_refuse) (runs_of va.0 bytes.now)
        (moment space.old store.old files.old) (moment space.new store.new files.new) 0 (count_or (length bytes.now) result) (stop_in result) }
    ensures copies { IsKernelCopy (store_model S.view F.invariant F.alone F.free F.count C.files C.becomes C.can_refuse)
        (moment space.old store.old files.old) (moment space.new store.new files.new) Store va.0 (length bytes.now) (bytes_out bytes.now result) result
        (λ p. model_copy_out (C.files files.old) p va.0 bytes.now (bytes_out bytes.now result) (stop_in result))
        (HasPut (C.files files.old) va.0 (bytes_out bytes.now result)) }
    ensures none { IfErr result (λ short. short.bytes.items ≡ []) }
{
    write_pages(space, store, files, va, bytes)
}

/// Returns how many of `n` bytes from `va` on lie in its page.
fn in_page(va: Va, n: usize) -> usize
    ensures { result ≡ near va.0 n }
{
    n.min((PAGE_SIZE - va.offset()) as usize)
}

/// Copies `n` bytes, at most `LONGEST_COPY`, from `va` on from a process, and appends them to `bytes`, which is empty.
/// Returns what stopped the copy, if anything did; the bytes before the stop are appended then too.
fn read_pages<S: FrameSeat, F: FrameSupply<Seat = S>, C: Files>(
    space: &mut Space<S>,
    store: &mut F,
    files: &mut C,
    va: Va,
    n: usize,
    bytes: &mut ArrayVec<u8, LONGEST_COPY>,
) -> Result<(), Stop>
    requires fits { IsSeatOf F.invariant store.old space.old.seat }
    requires ready { IsAlive (body_of S.view space.old) }
    requires few { n ≤ LONGEST_COPY }
    requires empty { bytes.old.items ≡ [] }
    ensures copied { CopiesIn (store_model S.view F.invariant F.alone F.free F.count C.files C.becomes C.can_refuse) (runs va.0 n)
        (moment space.old store.old files.old) (moment space.new store.new files.new) [] bytes.new.items (stop_told result) }
    ensures space { StillStands (body_of S.view space.old) (body_of S.view space.new) }
    ensures keeps { KeepsSeats F.invariant store.old space.old.seat store.new space.new.seat }
{
    let here = in_page(va, n);
    read_page(space, store, files, va, here, bytes)?;
    if here == n {
        return Ok(());
    }
    let next = Va(va.0 + here as u64);
    read_page(space, store, files, next, n - here, bytes)
}

/// Copies `n` bytes from `va` on, all in one page, from a process, and appends them to `bytes`. Returns what stopped the
/// copy, if anything did; nothing is appended then.
fn read_page<S: FrameSeat, F: FrameSupply<Seat = S>, C: Files>(
    space: &mut Space<S>,
    store: &mut F,
    files: &mut C,
    va: Va,
    n: usize,
    bytes: &mut ArrayVec<u8, LONGEST_COPY>,
) -> Result<(), Stop>
    requires fits { IsSeatOf F.invariant store.old space.old.seat }
    requires ready { IsAlive (body_of S.view space.old) }
    requires inside { va.0 % 4096 + n ≤ 4096 }
    requires few { length bytes.old.items + n ≤ LONGEST_COPY }
    ensures copied { CopiesIn (store_model S.view F.invariant F.alone F.free F.count C.files C.becomes C.can_refuse) (some_run va.0 n)
        (moment space.old store.old files.old) (moment space.new store.new files.new) bytes.old.items bytes.new.items (stop_told result) }
    ensures more { IfOk result (λ _. length bytes.new.items ≡ length bytes.old.items + n) }
    ensures low { IfOk result (λ _. 0 < n → va.0 < maxva space.old.layout.scheme) }
    ensures space { StillStands (body_of S.view space.old) (body_of S.view space.new) }
    ensures keeps { KeepsSeats F.invariant store.old space.old.seat store.new space.new.seat }
{
    if n == 0 {
        return Ok(());
    }
    reach(space, store, files, va, Access::Load)?;
    let mut page = [0; LONGEST_COPY];
    let run = &mut page[..n];
    space.read_run(store, va, run);
    let Ok(()) = bytes.try_extend_from_slice(run) else {
        unreachable!()
    };
    Ok(())
}

/// Copies these bytes, at most `LONGEST_COPY`, to a process, to `va` and on.
///
/// # Errors
/// As for `copy_out`.
fn write_pages<S: FrameSeat, F: FrameSupply<Seat = S>, C: Files>(
    space: &mut Space<S>,
    store: &mut F,
    files: &mut C,
    va: Va,
    bytes: &[u8],
) -> Result<(), Short>
    requires fits { IsSeatOf F.invariant store.old space.old.seat }
    requires ready { IsAlive (body_of S.view space.old) }
    requires few { length bytes.now ≤ LONGEST_COPY }
    ensures copied { CopiesOut (store_model S.view F.invariant F.alone F.free F.count C.files C.becomes C.can_refuse) (runs_of va.0 bytes.now)
        (moment space.old store.old files.old) (moment space.new store.new files.new) 0 (count_or (length bytes.now) result) (stop_in result) }
    ensures none { IfErr result (λ short. short.bytes.items ≡ []) }
    ensures space { StillStands (body_of S.view space.old) (body_of S.view space.new) }
    ensures keeps { KeepsSeats F.invariant store.old space.old.seat store.new space.new.seat }
{
    let here = in_page(va, bytes.len());
    let (front, back) = bytes.split_at(here);
    write_page(space, store, files, va, front, 0)?;
    if back.is_empty() {
        return Ok(());
    }
    let next = Va(va.0 + here as u64);
    write_page(space, store, files, next, back, here)
}

/// Copies these bytes to a process, to `va` and on, all in one page. `done` bytes were copied before.
fn write_page<S: FrameSeat, F: FrameSupply<Seat = S>, C: Files>(
    space: &mut Space<S>,
    store: &mut F,
    files: &mut C,
    va: Va,
    bytes: &[u8],
    done: usize,
) -> Result<(), Short>
    requires fits { IsSeatOf F.invariant store.old space.old.seat }
    requires ready { IsAlive (body_of S.view space.old) }
    requires inside { va.0 % 4096 + length bytes.now ≤ 4096 }
    ensures copied { CopiesOut (store_model S.view F.invariant F.alone F.free F.count C.files C.becomes C.can_refuse) (some_bytes va.0 bytes.now)
        (moment space.old store.old files.old) (moment space.new store.new files.new) done (count_or (done + length bytes.now) result) (stop_in result) }
    ensures none { IfErr result (λ short. short.bytes.items ≡ []) }
    ensures low { IfOk result (λ _. 0 < length bytes.now → va.0 < maxva space.old.layout.scheme) }
    ensures space { StillStands (body_of S.view space.old) (body_of S.view space.new) }
    ensures keeps { KeepsSeats F.invariant store.old space.old.seat store.new space.new.seat }
{
    if bytes.is_empty() {
        return Ok(());
    }
    if let Err(rule) = reach(space, store, files, va, Access::Store) {
        let bytes = ArrayVec::new();
        return Err(Short { rule, done, bytes });
    }
    space.write_run(store, va, bytes);
    Ok(())
}

/// Makes the page of an address resident for an access of one byte there, or returns what stops a copy.
fn reach<S: FrameSeat, F: FrameSupply<Seat = S>, C: Files>(
    space: &mut Space<S>,
    store: &mut F,
    files: &mut C,
    va: Va,
    access: Access,
) -> Result<(), Stop>
    requires fits { IsSeatOf F.invariant store.old space.old.seat }
    requires ready { IsAlive (body_of S.view space.old) }
    ensures reaches { Reaches (store_model S.view F.invariant F.alone F.free F.count C.files C.becomes C.can_refuse)
        (moment space.old store.old files.old) (moment space.new store.new files.new) access va.0 result }
{
    stop_of(serve(space, store, files, va, 1, access))
}

/// Returns the outcome of the service of a fault as the result of a copy's step: `Ok` for `Ready`, else what stops the copy.
fn stop_of(served: Served) -> Result<(), Stop>
    ensures { served_of result ≡ served }
{
    match served {
        Served::Ready => Ok(()),
        Served::Ended(rule) => Err(Stop::Denied(rule)),
        Served::Unserved(refusal) => Err(Stop::Unpromised(refusal)),
    }
}
