// The numbers that cross to C: `Outcome`, of the translation of an access, and `Leaf`, of a walk, structs of plain numbers; and
// the codes of accesses, privilege modes and statuses.

ghost use Rattle.std.specs.Prelude.{◌≡◌, ◌≤◌};
ghost use Rattle.xv6vm_c.specs.Codes as codes;

use sv39_entry::{Access, Entry, Mode, Satp, Va};
use table_walk::{Walk, physical_address};

/// The outcome of the translation of an access. What does not belong to its status is 0.
#[repr(C)]
#[derive(Clone, Copy, PartialEq, Eq)]
pub struct Outcome {
    /// 0: a leaf permits the access; 1: a page fault; 2: an access fault; 3: no translation, `address` is the physical address;
    /// 5: no such entry; 6: an argument has no meaning, and `cause` says which (1 the access, 2 the mode, 3 the MODE of satp).
    pub status: u32,
    /// Of a leaf its level: 0 for a page of 4,096 bytes, 1 to 3 for superpages.
    pub level: u32,
    /// Of a leaf its word, a page table entry.
    pub word: u64,
    /// Of a leaf, and without translation, the physical address.
    pub address: u64,
    /// Of a fault the exception code.
    pub cause: u64,
}

/// What a walk finds for an address, whatever the rights. What does not belong to its status is 0.
#[repr(C)]
#[derive(Clone, Copy)]
pub struct Leaf {
    /// 0: a leaf; 2: a word on the way is outside the memory; 3: no translation; 4: no leaf; 6: satp has another MODE.
    pub status: u32,
    /// Of a leaf its level, 0 to 3.
    pub level: u32,
    /// Of a leaf its word, a page table entry.
    pub word: u64,
    /// Of a leaf, and without translation, the physical address.
    pub address: u64,
    /// Of a leaf 1 if it has G or a pointer on the way to it has, else 0.
    pub global: u64,
}

/// Returns the access with a code; `None` if the code names none.
pub(crate) fn access_of(code: u32) -> Option<Access>
    ensures { result ≡ codes.access_of code }
{
    match code {
        0 => Some(Access::Fetch),
        1 => Some(Access::Load),
        2 => Some(Access::Store),
        _ => None,
    }
}

/// Returns the privilege mode with a code; `None` if the code names none.
pub(crate) fn mode_of(code: u32) -> Option<Mode>
    ensures { result ≡ codes.mode_of code }
{
    match code {
        0 => Some(Mode::User),
        1 => Some(Mode::Supervisor),
        _ => None,
    }
}

/// Whether a satp has MODE 0, Bare: no translation.
pub(crate) fn is_bare(satp: Satp) -> bool
    ensures { result ≡ codes.is_bare satp }
{
    satp.mode() == 0
}

const NOTHING: Outcome = Outcome {
    status: 0,
    level: 0,
    word: 0,
    address: 0,
    cause: 0,
};

/// Returns an outcome by its numbers.
pub(crate) fn outcome_of(walk: Walk) -> Outcome
    ensures { result ≡ codes.outcome_of walk }
{
    match walk {
        Walk::Leaf {
            word,
            level,
            address,
        } => Outcome {
            level,
            word,
            address,
            ..NOTHING
        },
        Walk::PageFault(cause) => Outcome {
            status: 1,
            cause,
            ..NOTHING
        },
        Walk::AccessFault(cause) => Outcome {
            status: 2,
            cause,
            ..NOTHING
        },
    }
}

/// Returns the outcome without translation.
pub(crate) fn bare_outcome(address: u64) -> Outcome
    ensures { result ≡ codes.bare_outcome address }
{
    Outcome {
        status: 3,
        address,
        ..NOTHING
    }
}

/// Returns the outcome of the use of an entry that is not there, or does not match.
pub(crate) fn no_entry() -> Outcome
    ensures { result ≡ codes.no_entry }
{
    Outcome {
        status: 5,
        ..NOTHING
    }
}

/// Returns the outcome for an argument without meaning.
pub(crate) fn unknown(argument: u64) -> Outcome
    ensures { result ≡ codes.unknown argument }
{
    Outcome {
        status: 6,
        cause: argument,
        ..NOTHING
    }
}

const NO_LEAF: Leaf = Leaf {
    status: 4,
    level: 0,
    word: 0,
    address: 0,
    global: 0,
};

/// Returns a leaf at a level that a walk found for an address, by its numbers.
pub(crate) fn leaf_at(word: u64, level: u32, global: bool, va: Va) -> Leaf
    requires low { level ≤ 3 }
    ensures { result ≡ codes.leaf_at word level global va.0 }
{
    Leaf {
        status: 0,
        level,
        word,
        address: physical_address(Entry::from_word(word), level, va),
        global: u64::from(global),
    }
}

/// Returns the answer of a walk that finds no leaf.
pub(crate) fn no_leaf() -> Leaf
    ensures { result ≡ codes.no_leaf }
{
    NO_LEAF
}

/// Returns the answer of a walk on whose way a word is outside the memory.
pub(crate) fn outside() -> Leaf
    ensures { result ≡ codes.outside }
{
    Leaf {
        status: 2,
        ..NO_LEAF
    }
}

/// Returns what there is without translation.
pub(crate) fn bare_leaf(address: u64) -> Leaf
    ensures { result ≡ codes.bare_leaf address }
{
    Leaf {
        status: 3,
        address,
        ..NO_LEAF
    }
}

/// Returns the answer to a satp of another MODE.
pub(crate) fn unknown_leaf() -> Leaf
    ensures { result ≡ codes.unknown_leaf }
{
    Leaf {
        status: 6,
        ..NO_LEAF
    }
}
