// A walk that asks its caller for each word of memory: `xv6vm_walk_begin`, `xv6vm_walk_next`. `Walk`: a struct, such a walk in the caller's memory.

ghost use Rattle.std.specs.Prelude.{◌≡◌, ◌<◌, ◌≤◌, false, true, None, Some};
ghost use Rattle.lent_walk.specs.Walks.{Goes, left};
ghost use Rattle.sv39_entry.specs.Satp.{root_ppn, scheme_of};
ghost use Rattle.sv39_entry.specs.declared.access.Access.{Access};
ghost use Rattle.sv39_entry.specs.declared.access.Mode.{Mode};
ghost use Rattle.sv39_entry.specs.declared.scheme.Scheme.{Scheme};
ghost use Rattle.table_walk.specs.Memory.{Extent, Memory};
ghost use Rattle.xv6vm_c.specs.Codes.{is_bare};
ghost use Rattle.xv6vm_c.specs.Walks.{GoesOn, HasMeaning, IsBegunWalk, IsFor, IsTold, word_if};

use crate::codes::{access_of, is_bare, mode_of};
use lent_walk::{BYTE, LentWalk, Question, READ};
use sv39_entry::{Access, Mode, Satp, Va};

/// The address is the physical address.
const BARE: u32 = 3;

/// An argument has no meaning.
const UNKNOWN: u32 = 6;

/// A walk in the caller's memory: an access, and how far its walk has come.
#[repr(C)]
#[derive(Clone, Copy)]
pub struct Walk {
    pub satp: u64,
    pub address: u64,
    pub access: u32,
    pub mode: u32,
    pub at: LentWalk,
}

/// Returns a walk that has ended before it began.
fn ended(status: u32, place: u64, cause: u64) -> LentWalk
    ensures status { result.status ≡ status }
    ensures place { result.place ≡ place }
    ensures cause { result.cause ≡ cause }
    ensures none { status ≡ 3 → left result ≡ 0 }
    ensures unknown { status ≡ 6 → left result ≡ 0 }
{
    LentWalk {
        status,
        level: 0,
        table: 0,
        index: 0,
        place,
        word: 0,
        cause,
        step: 0,
    }
}

/// Begins the walk of an access that has a meaning.
fn begin(satp: Satp, address: u64, access: Access, mode: Mode) -> LentWalk
    ensures walks { (s : Scheme) (m : Memory) (there : Extent) → scheme_of satp ≡ Some s → Goes s m there (root_ppn satp) address access mode result }
    ensures bare { is_bare satp ≡ true → (result.status ≡ 3) × (result.place ≡ address) }
    ensures unknown { is_bare satp ≡ false → scheme_of satp ≡ None → (result.status ≡ 6) × (result.cause ≡ 3) }
    ensures few { left result ≤ 5 }
{
    if is_bare(satp) {
        return ended(BARE, address, 0);
    }
    let Some(scheme) = satp.scheme() else {
        return ended(UNKNOWN, 0, 3);
    };
    let question = Question {
        scheme,
        va: Va(address),
        access,
        mode,
    };
    question.begin(satp.ppn())
}

/// Begins the translation of an access to an address, as `xv6vm_translate` makes it, but asks for each word: while `at.status` is 8, give the
/// 64-bit word at physical address `at.place` to `xv6vm_walk_next`; while it is 9, whether the byte there is in the memory. There are at most five
/// questions. At the end `at.status` is 0 (`at.place` is the physical address, `at.word` the leaf), 1 (page fault), 2 (access fault; `at.cause`
/// is the exception code), 3 (MODE 0, `at.place` is the address) or 6 (an argument has no meaning; `at.cause` says which).
#[unsafe(no_mangle)]
pub extern "C" fn xv6vm_walk_begin(walk: &mut Walk, satp: u64, address: u64, access: u32, mode: u32)
    ensures asked { IsFor satp address access mode walk.new }
    ensures begun { IsBegunWalk walk.new }
    ensures few { left walk.new.at ≤ 5 }
{
    walk.satp = satp;
    walk.address = address;
    walk.access = access;
    walk.mode = mode;
    let Some(access) = access_of(access) else {
        walk.at = ended(UNKNOWN, 0, 1);
        return;
    };
    let Some(mode) = mode_of(mode) else {
        walk.at = ended(UNKNOWN, 0, 2);
        return;
    };
    walk.at = begin(Satp::from_word(satp), address, access, mode);
}

/// Returns how a walk goes on that has not ended.
fn after(walk: &Walk, read: Option<u64>) -> LentWalk
    requires { 0 < left walk.now.at }
    ensures goes { (s : Scheme) (a : Access) (p : Mode) (m : Memory) (there : Extent) → HasMeaning walk.now s a p → GoesOn walk.now s a p m there
        → IsTold walk.now m there read → Goes s m there (root_ppn walk.now.satp) walk.now.address a p result }
    ensures fewer { left result < left walk.now.at }
{
    let (Some(access), Some(mode)) = (access_of(walk.access), mode_of(walk.mode)) else {
        return ended(UNKNOWN, 0, 4);
    };
    match Satp::from_word(walk.satp).scheme() {
        Some(scheme) if walk.at.level <= 3 => {
            let question = Question {
                scheme,
                va: Va(walk.address),
                access,
                mode,
            };
            question.next(&walk.at, read)
        }
        _ => ended(UNKNOWN, 0, 4),
    }
}

/// Goes on with what a walk asks for: the word at `at.place`, or, while `at.status` is 9, whether the byte there is in the memory (`word` does not
/// count then). `is_there` 0: it is outside the memory. A walk that has ended stays as it is. If no `xv6vm_walk_begin` made the walk, it may end with status 6.
#[unsafe(no_mangle)]
pub extern "C" fn xv6vm_walk_next(walk: &mut Walk, is_there: u32, word: u64)
    ensures asked { IsFor walk.old.satp walk.old.address walk.old.access walk.old.mode walk.new }
    ensures goes { (s : Scheme) (a : Access) (p : Mode) (m : Memory) (there : Extent) → HasMeaning walk.old s a p → GoesOn walk.old s a p m there
        → IsTold walk.old m there (word_if is_there word) → GoesOn walk.new s a p m there }
    ensures fewer { 0 < left walk.old.at → left walk.new.at < left walk.old.at }
    ensures ended { left walk.old.at ≡ 0 → walk.new ≡ walk.old }
{
    if walk.at.status != READ && walk.at.status != BYTE {
        return;
    }
    let read = if is_there == 0 { None } else { Some(word) };
    walk.at = after(walk, read);
}
