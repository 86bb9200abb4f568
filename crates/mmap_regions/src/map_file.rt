// The system call `mmap`: checks its arguments, and adds a mapping of a file at the greatest address at which it fits,
// without taking a frame.

ghost use Rattle.std.specs.Prelude.{◌≡◌, ◌&&◌, ◌||◌, IfErr, not, slice_get};
ghost use Rattle.address_space.specs.Agreement.{body_of, IsSpace, IsAlive};
ghost use Rattle.address_space.specs.Layouts.{region_of};
ghost use Rattle.mmap_regions.specs.MmapEffect.{address_of_mapped, process_mapped};
ghost use Rattle.process_model.specs.Files.{is_writable};
ghost use Rattle.process_model.specs.Mappings.{asks_execute, asks_read, asks_write, is_bad_mapping, is_shared, mapped, mapping_of};
ghost use Rattle.process_model.specs.Process.{Process};
ghost use Rattle.sv39_entry.specs.Rights.{executes, reads, writes};
ghost use Rattle.table_walk.specs.Tables.{Tables};

use crate::place::mapping_place;
use address_space::{Region, RegionKind, Source, Space};
use bitflags::Flags;
use file_cabinet::Files;
use frame_store::FrameSeat;
use process_model::{LONGEST_MAPPING, MOST_MAPPINGS, Refusal};
use sv39_entry::{PAGE_SIZE, Rights};

/// Bits of `protection`, as in POSIX's `mmap`.
const PROT_READ: u64 = 1;

const PROT_WRITE: u64 = 2;

const PROT_EXEC: u64 = 4;

/// The values of `flags`, as in POSIX's `mmap`.
const MAP_SHARED: u64 = 1;

const MAP_PRIVATE: u64 = 2;

/// Maps `length` bytes of a file, from its first byte on, rounded up to whole pages, at the greatest address at which they
/// fit: above the heap, below TRAPFRAME and apart from other mappings (MIT 6.1810, mmap lab). Returns that address. `file`
/// is the file's index in `files`, from 0. `protection` is a sum of 1 (PROT_READ), 2 (PROT_WRITE, which grants reading too)
/// and 4 (PROT_EXEC); `flags` is 1 (MAP_SHARED: stores are written back to the file) or 2 (MAP_PRIVATE). Takes no frame: a
/// page gets one at its first access. Changes no leaf and makes no fence.
///
/// # Errors
/// The first that applies. `BadArgument`: `length` is 0 or above `LONGEST_MAPPING`, `protection` is 0 or above 7, `flags` is
/// neither 1 nor 2, or there is no such file. `FileNotWritable`: shared, with PROT_WRITE, and the file may not be written.
/// `MappingsFull`: the process has `MOST_MAPPINGS` mappings. `NoRoom`: the mapping fits nowhere. The space is then unchanged.
pub fn mmap<S: FrameSeat, C: Files>(
    space: &mut Space<S>,
    files: &C,
    length: u64,
    protection: u64,
    flags: u64,
    file: usize,
) -> Result<u64, Refusal>
    requires ready { IsAlive (body_of S.view space.old) }
    ensures answer { (t : Tables) (p : Process) → IsSpace (body_of S.view space.old) t p →
        result ≡ address_of_mapped (mapped (C.files files.now) p length protection flags file) }
    ensures agrees { (t : Tables) (p : Process) → IsSpace (body_of S.view space.old) t p →
        IsSpace (body_of S.view space.new) t (process_mapped p (mapped (C.files files.now) p length protection flags file)) }
    ensures refused { IfErr result (λ _. space.new.layout ≡ space.old.layout) }
    ensures seat { space.new.seat ≡ space.old.seat }
    ensures root { space.new.root ≡ space.old.root }
    ensures trapframe { space.new.trapframe ≡ space.old.trapframe }
{
    if is_bad(files, length, protection, flags, file) {
        return Err(Refusal::BadArgument);
    }
    if writes_read_only_file(files, protection, flags, file) {
        return Err(Refusal::FileNotWritable);
    }
    if space.layout.mappings().len() >= MOST_MAPPINGS {
        return Err(Refusal::MappingsFull);
    }
    let pages = length.div_ceil(PAGE_SIZE);
    let Some(first) = mapping_place(&space.layout, pages) else {
        return Err(Refusal::NoRoom);
    };
    space.add_mapping(new_mapping(first, pages, protection, flags, file));
    Ok(first * PAGE_SIZE)
}

/// Whether an argument is bad: `length` 0 or too long, `protection` 0 or above 7, `flags` neither 1 nor 2, or no such file.
fn is_bad<C: Files>(files: &C, length: u64, protection: u64, flags: u64, file: usize) -> bool
    ensures { result ≡ is_bad_mapping (C.files files.now) length protection flags file }
{
    length == 0
        || length > LONGEST_MAPPING
        || protection == 0
        || protection > PROT_READ | PROT_WRITE | PROT_EXEC
        || !(flags == MAP_SHARED || flags == MAP_PRIVATE)
        || files.length(file).is_none()
}

/// Whether the mapping is shared and to be written, and the file may not be written.
#[tactic(auto, using(crate::proofs::Protections::writes_bit))]
fn writes_read_only_file<C: Files>(files: &C, protection: u64, flags: u64, file: usize) -> bool
    ensures { result ≡ (is_shared flags && asks_write protection && not (is_writable (slice_get (C.files files.now) file))) }
{
    flags == MAP_SHARED && protection & PROT_WRITE != 0 && !files.writable(file)
}

/// Returns the mapping that these arguments ask for: `pages` pages from page `first` on, of the file from its first byte on.
fn new_mapping(first: u64, pages: u64, protection: u64, flags: u64, file: usize) -> Region
    ensures { region_of result ≡ mapping_of first pages protection flags file }
{
    Region {
        first,
        pages,
        rights: mapping_rights(protection),
        kind: if flags == MAP_SHARED {
            RegionKind::SharedMapping
        } else {
            RegionKind::PrivateMapping
        },
        source: Source::File {
            file: file as u64,
            offset: 0,
        },
    }
}

/// Returns the rights that `protection` asks for. A mapping that may be written may be read, since W without R is reserved
/// (RISC-V Privileged Architecture 20211203, 4.3.1).
fn mapping_rights(protection: u64) -> Rights
    ensures reads { reads result.0 ≡ (asks_read protection || asks_write protection) }
    ensures writes { writes result.0 ≡ asks_write protection }
    ensures executes { executes result.0 ≡ asks_execute protection }
{
    let mut rights = Rights::empty();
    rights.set(Rights::READ, protection & (PROT_READ | PROT_WRITE) != 0);
    rights.set(Rights::WRITE, protection & PROT_WRITE != 0);
    rights.set(Rights::EXECUTE, protection & PROT_EXEC != 0);
    rights
}
