// `LentWalk`: a struct, a walk that asks for each word that it needs.

ghost use Rattle.std.specs.Prelude.{◌≡◌, ◌≤◌, ◌<◌, ◌+◌, ◌*◌, ◌%◌, ◌^◌, ◌↔◌, ℕ, IsTrue, Some, is_some};
ghost use Rattle.lent_walk.specs.Steps.{fault_step};
ghost use Rattle.lent_walk.specs.Walks.{Goes, IsAsking, IsAtByte, IsAtWord, left};
ghost use Rattle.sv39_entry.specs.Causes.{access_fault_cause, page_fault_cause};
ghost use Rattle.sv39_entry.specs.Word.{kind_of, ppn};
ghost use Rattle.sv39_entry.specs.declared.entry.Kind.TheVariants.{Leaf, Pointer};
ghost use Rattle.table_walk.specs.Memory.{Extent, Memory, has_byte};

use crate::reason::fault_step;
use sv39_entry::{Access, Entry, Kind, Mode, PAGE_SIZE, Scheme, Va};
use table_walk::physical_address;

/// A walk has ended at a leaf that permits the access.
pub const LEAF: u32 = 0;

/// A walk has ended in a page fault.
pub const PAGE_FAULT: u32 = 1;

/// A walk has ended in an access fault.
pub const ACCESS_FAULT: u32 = 2;

/// A walk asks for the word at a place.
pub const READ: u32 = 8;

/// A walk asks whether the byte at a place is in the memory.
pub const BYTE: u32 = 9;

/// A walk of a page table, as far as it has come.
#[repr(C)]
#[derive(Clone, Copy)]
pub struct LentWalk {
    /// `LEAF`, `PAGE_FAULT` or `ACCESS_FAULT` at the end; before that `READ` or `BYTE`.
    pub status: u32,
    /// The level of the page table entry (PTE) that is asked for, or that was read last.
    pub level: u32,
    /// The physical page number of its table.
    pub table: u64,
    /// Its index there.
    pub index: u64,
    /// The physical address of what is asked for; at the end that of the access, if it is permitted.
    pub place: u64,
    /// The PTE that was read last.
    pub word: u64,
    /// Of a fault the exception code.
    pub cause: u64,
    /// Of a fault the step of the walk (RISC-V Privileged Architecture 20211203, 4.3.2) at which it is one: 2, the PTE is outside the memory; 3 to 7 as
    /// `fault_step` has it; 8, the byte is outside the memory; 0, the address is not canonical.
    pub step: u64,
}

/// A walk that has read nothing.
const NOTHING: LentWalk = LentWalk {
    status: READ,
    level: 0,
    table: 0,
    index: 0,
    place: 0,
    word: 0,
    cause: 0,
    step: 0,
};

/// An access to an address, by the tables of a scheme.
#[derive(Clone, Copy)]
pub struct Question {
    pub scheme: Scheme,
    pub va: Va,
    pub access: Access,
    pub mode: Mode,
}

impl Question {
    /// Asks for the word of a table at a level. The last word that was read led there.
    fn ask(self, level: u32, table: u64, word: u64) -> LentWalk
        requires level { level ≤ 3 }
        requires table { table < 2 ^ 44 }
        ensures { IsAsking self.va.0 level table result }
    {
        let index = self.va.page().index(level) as u64;
        LentWalk {
            level,
            table,
            index,
            place: table * PAGE_SIZE + index * 8,
            word,
            ..NOTHING
        }
    }

    /// Ends a walk in a page fault, at a step.
    fn page_fault(self, walk: &LentWalk, step: u32) -> LentWalk
        ensures status { result.status ≡ 1 }
        ensures cause { result.cause ≡ page_fault_cause self.access }
        ensures step { result.step ≡ step }
    {
        LentWalk {
            status: PAGE_FAULT,
            cause: self.access.page_fault_cause(),
            step: u64::from(step),
            ..*walk
        }
    }

    /// Ends a walk in an access fault, at a step.
    fn access_fault(self, walk: &LentWalk, step: u32) -> LentWalk
        ensures status { result.status ≡ 2 }
        ensures cause { result.cause ≡ access_fault_cause self.access }
    {
        LentWalk {
            status: ACCESS_FAULT,
            cause: self.access.access_fault_cause(),
            step: u64::from(step),
            ..*walk
        }
    }

    /// Begins the walk from the root with a physical page number.
    pub fn begin(self, root: u64) -> LentWalk
        requires { root < 2 ^ 44 }
        ensures goes { (m : Memory) (there : Extent) → Goes self.scheme m there root self.va.0 self.access self.mode result }
        ensures few { left result ≤ 5 }
    {
        if self.scheme.is_canonical(self.va) {
            self.ask(self.scheme.top_level(), root, 0)
        } else {
            self.page_fault(&NOTHING, 0)
        }
    }

    /// Ends a walk in a page fault by a page table entry.
    fn end_at(self, walk: &LentWalk, entry: Entry) -> LentWalk
        requires { walk.now.level ≤ 3 }
        ensures status { result.status ≡ 1 }
        ensures cause { result.cause ≡ page_fault_cause self.access }
        ensures word { result.word ≡ entry }
        ensures step { result.step ≡ fault_step entry walk.now.level self.mode self.access }
    {
        let step = fault_step(entry, walk.level, self.access, self.mode);
        LentWalk {
            word: entry.to_word(),
            ..self.page_fault(walk, step)
        }
    }

    /// Goes on from a leaf.
    fn after_leaf(self, walk: &LentWalk, leaf: Entry) -> LentWalk
        requires { walk.now.level ≤ 3 }
        ensures goes { (m : Memory) (there : Extent) (root : ℕ) → IsAtWord self.scheme m root self.va.0 walk.now
            → m walk.now.table walk.now.index ≡ Some leaf → kind_of leaf ≡ Leaf → Goes self.scheme m there root self.va.0 self.access self.mode result }
        ensures few { left result ≤ 1 }
    {
        if is_aligned(leaf, walk.level) && leaf.permits(self.access, self.mode) {
            LentWalk {
                status: BYTE,
                word: leaf.to_word(),
                place: physical_address(leaf, walk.level, self.va),
                ..*walk
            }
        } else {
            self.end_at(walk, leaf)
        }
    }

    /// Goes on from a pointer.
    fn after_pointer(self, walk: &LentWalk, pointer: Entry) -> LentWalk
        requires { walk.now.level ≤ 3 }
        ensures goes { (m : Memory) (there : Extent) (root : ℕ) → IsAtWord self.scheme m root self.va.0 walk.now
            → m walk.now.table walk.now.index ≡ Some pointer → kind_of pointer ≡ Pointer → Goes self.scheme m there root self.va.0 self.access self.mode result }
        ensures fewer { left result < walk.now.level + 2 }
    {
        if walk.level > 0 {
            self.ask(walk.level - 1, pointer.ppn(), pointer.to_word())
        } else {
            self.end_at(walk, pointer)
        }
    }

    /// Goes on after the word that was asked for; `None`: it is outside the memory.
    fn after_word(self, walk: &LentWalk, read: Option<u64>) -> LentWalk
        requires { walk.now.level ≤ 3 }
        ensures goes { (m : Memory) (there : Extent) (root : ℕ) → IsAtWord self.scheme m root self.va.0 walk.now
            → m walk.now.table walk.now.index ≡ read → Goes self.scheme m there root self.va.0 self.access self.mode result }
        ensures fewer { left result < walk.now.level + 2 }
    {
        let Some(word) = read else {
            return self.access_fault(walk, 2);
        };
        let entry = Entry::from_word(word);
        match entry.kind() {
            Kind::Invalid => self.end_at(walk, entry),
            Kind::Pointer => self.after_pointer(walk, entry),
            Kind::Leaf => self.after_leaf(walk, entry),
        }
    }

    /// Ends the walk, as the byte that was asked for is in the memory or not.
    fn after_byte(self, walk: &LentWalk, is_there: bool) -> LentWalk
        ensures goes { (m : Memory) (there : Extent) (root : ℕ) → IsAtByte self.scheme m root self.va.0 self.access self.mode walk.now
            → has_byte there walk.now.place ≡ is_there → Goes self.scheme m there root self.va.0 self.access self.mode result }
        ensures none { left result ≡ 0 }
    {
        if is_there {
            LentWalk {
                status: LEAF,
                ..*walk
            }
        } else {
            self.access_fault(walk, 8)
        }
    }

    /// Goes on with the word that the walk asks for, or with any if it asks whether a byte is there; `None`: it is outside the memory. A walk that
    /// has ended stays as it is.
    pub fn next(self, walk: &LentWalk, read: Option<u64>) -> LentWalk
        requires { walk.now.level ≤ 3 }
        ensures word { (m : Memory) (there : Extent) (root : ℕ) → IsAtWord self.scheme m root self.va.0 walk.now
            → m walk.now.table walk.now.index ≡ read → Goes self.scheme m there root self.va.0 self.access self.mode result }
        ensures byte { (m : Memory) (there : Extent) (root : ℕ) → IsAtByte self.scheme m root self.va.0 self.access self.mode walk.now
            → has_byte there walk.now.place ≡ is_some read → Goes self.scheme m there root self.va.0 self.access self.mode result }
        ensures ended { left walk.now ≡ 0 → result ≡ walk.now }
        ensures fewer { 0 < left walk.now → left result < left walk.now }
    {
        match walk.status {
            READ => self.after_word(walk, read),
            BYTE => self.after_byte(walk, read.is_some()),
            _ => *walk,
        }
    }
}

/// Whether a leaf at a level is aligned: its physical page number is a multiple of the pages that it maps.
#[tactic(auto, using(std::proofs::lemmas::Nat::one_shl))]
fn is_aligned(leaf: Entry, level: u32) -> bool
    requires { level ≤ 3 }
    ensures { IsTrue result ↔ (ppn leaf % 2 ^ (9 * level) ≡ 0) }
{
    leaf.ppn() % (1 << (9 * level)) == 0
}
