// Translation of an access to a physical address or a fault: the walk, then the rights, then whether the byte is in memory.
// `translate` is for any memory, `translate_held` for the page tables that a seat has; `has_byte` is the last of the three
// tests.

ghost use Rattle.std.specs.Prelude.{◌≡◌};
ghost use Rattle.frame_store.specs.Laws.{IsSeatOf, KeepsSeats};
ghost use Rattle.sv39_entry.specs.Address.{page_of};
ghost use Rattle.table_walk.specs.Leaves.{LeavesAreThere, walk_answer};
ghost use Rattle.table_walk.specs.Memory as memory;
ghost use Rattle.table_walk.specs.Tables.{HasTables, Tables};
ghost use Rattle.table_walk.specs.Walk.{CanWalk, Translates};

use crate::find::lookup;
use crate::held::HeldWords;
use crate::laws::{one_outcome, walks_of_tables};
use crate::leaf::physical_address;
use crate::walk::{Found, Walk};
use crate::words::Words;
use frame_store::{FrameAccess, FrameSeat};
use sv39_entry::{Access, Entry, FrameNo, Mode, PAGE_SIZE, Scheme, Va};

/// Translates the address of an access, by the tables below the root with physical page number `root` (RISC-V Privileged
/// Architecture 20211203, 4.3.2). Returns the leaf and the physical address, or the fault with its cause: a page fault if
/// the walk finds no leaf (or the address is not canonical), or the leaf's rights do not permit the access; an access fault
/// if a table's word on the way, or the byte, is outside the memory. Rights are judged before the byte is looked for.
/// Only the byte at the address is looked for, so the bytes of the access should lie in one word.
/// Each table on the way must be readable (`Words::readable`).
pub fn translate<M: Words>(
    words: &mut M,
    scheme: Scheme,
    root: u64,
    va: Va,
    access: Access,
    mode: Mode,
) -> Walk
    requires { CanWalk scheme (M.readable words.old) (M.memory words.old) root (page_of va.0) }
    ensures outcome { Translates scheme (M.memory words.old) (M.there words.old) root va.0 access mode result }
    ensures stays { M.stays words.old words.new }
{
    let (word, level) = match lookup(words, scheme, root, va) {
        Found::Leaf { word, level, .. } => (word, level),
        Found::NoLeaf => return Walk::PageFault(access.page_fault_cause()),
        Found::Outside => return Walk::AccessFault(access.access_fault_cause()),
    };
    let leaf = Entry::from_word(word);
    if !leaf.permits(access, mode) {
        return Walk::PageFault(access.page_fault_cause());
    }
    let address = physical_address(leaf, level, va);
    if !has_byte(words, address) {
        return Walk::AccessFault(access.access_fault_cause());
    }
    Walk::Leaf {
        word,
        level,
        address,
    }
}

/// Whether the byte at a physical address is inside the memory. It is not read.
pub fn has_byte<M: Words>(words: &M, address: u64) -> bool
    ensures { result ≡ memory.has_byte (M.there words.now) address }
{
    words.has_word(address / PAGE_SIZE, (address % PAGE_SIZE / 8) as usize)
}

/// Translates an access by the tables below a root, which the seat must have. If each of their leaves names a frame, the
/// result is what the tables say: the leaf at level 0 and the physical address, or a page fault with its cause if the page
/// has no leaf, the address is not canonical, or the leaf's rights do not permit the access. Changes nothing. Inlined, as
/// `lookup` is.
#[inline(always)]
pub fn translate_held<F: FrameAccess>(
    store: &mut F,
    seat: &mut F::Seat,
    scheme: Scheme,
    root: FrameNo,
    va: Va,
    access: Access,
    mode: Mode,
) -> Walk
    requires fits { IsSeatOf F.invariant store.old seat.old }
    requires held { (t : Tables) × HasTables scheme (F.Seat.view seat.old) root.0 t }
    ensures outcome { (t : Tables) → HasTables scheme (F.Seat.view seat.old) root.0 t → LeavesAreThere scheme t
        → result ≡ walk_answer scheme t va.0 access mode }
    ensures view { F.Seat.view seat.new ≡ F.Seat.view seat.old }
    ensures same { store.new ≡ store.old }
    ensures keeps { KeepsSeats F.invariant store.old seat.old store.new seat.new }
{
    // these laws say what walks over these tables find, and that an access is translated to one outcome
    walks_of_tables();
    one_outcome();
    let mut words = HeldWords { store, seat };
    translate(&mut words, scheme, root.ppn(), va, access, mode)
}
