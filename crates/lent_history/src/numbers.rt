// `LentAccess`: a struct, an access of a hart, and `LentOutcome`, what comes of it, as plain numbers in a caller's memory.

ghost use Rattle.std.specs.Prelude.{◌≡◌, ◌≤◌, IfSome};
ghost use Rattle.lent_history.specs.Numbers as numbers;

use crate::hart::LentHart;
use access_history::{Outcome, Request, Update};
use sv39_entry::{Access, Va};
use walk_rules::{MemoryType, Privilege};

/// An access in a caller's memory.
#[repr(C)]
#[derive(Clone, Copy)]
pub struct LentAccess {
    pub address: u64,
    /// The number of bytes: 1, 2, 4 or 8.
    pub width: u64,
    /// 0: a fetch; 1: a load; 2: a store.
    pub access: u32,
    /// The hart's privilege mode. 0: user; 1: supervisor; 3: machine.
    pub mode: u32,
}

/// What comes of an access, in a caller's memory. What does not belong to its status does not count.
#[repr(C)]
#[derive(Clone, Copy, PartialEq, Eq)]
pub struct LentOutcome {
    /// 0: the access is made; 1: an exception.
    pub status: u32,
    /// Of an access that is made: 0 by the attributes of the physical address; 1 non-cacheable; 2 I/O (Svpbmt).
    pub memory_type: u32,
    /// Of an access that is made: the physical address.
    pub address: u64,
    /// Of an exception: its code, as in scause.
    pub cause: u64,
    /// 1 if the hart writes a page table entry to set A or D, else 0.
    pub updates: u64,
    /// Of such an entry: the physical page number of its table.
    pub table: u64,
    /// Its index in the table.
    pub index: u64,
    /// The word that is written.
    pub word: u64,
}

fn access_of(code: u32) -> Option<Access>
    ensures { result ≡ numbers.access_of code }
{
    match code {
        0 => Some(Access::Fetch),
        1 => Some(Access::Load),
        2 => Some(Access::Store),
        _ => None,
    }
}

fn privilege_of(code: u32) -> Option<Privilege>
    ensures { result ≡ numbers.privilege_of code }
{
    match code {
        0 => Some(Privilege::User),
        1 => Some(Privilege::Supervisor),
        3 => Some(Privilege::Machine),
        _ => None,
    }
}

fn is_width(width: u64) -> bool
    ensures { result ≡ numbers.is_width width }
{
    width == 1 || width == 2 || width == 4 || width == 8
}

impl LentAccess {
    /// Returns the access, under mstatus as it is now; `None` if one of its numbers has no meaning.
    pub fn request(&self, hart: &LentHart) -> Option<Request>
        ensures value { result ≡ numbers.request_in self.now hart.now }
        ensures width { IfSome result (λ q. 1 ≤ q.width) }
    {
        match (access_of(self.access), privilege_of(self.mode)) {
            (Some(kind), Some(privilege)) if is_width(self.width) => Some(Request {
                kind,
                va: Va(self.address),
                width: self.width,
                privilege,
                status: hart.status(),
            }),
            _ => None,
        }
    }
}

fn memory_type_of(code: u32) -> Option<MemoryType>
    ensures { result ≡ numbers.memory_type_of code }
{
    match code {
        0 => Some(MemoryType::Pma),
        1 => Some(MemoryType::Nc),
        2 => Some(MemoryType::Io),
        _ => None,
    }
}

impl LentOutcome {
    fn update(&self) -> Option<Update>
        ensures { result ≡ numbers.update_in self.now }
    {
        if self.updates == 0 {
            return None;
        }
        Some(Update {
            table: self.table,
            index: self.index as usize,
            word: self.word,
        })
    }

    /// Returns the outcome; `None` if one of its numbers has no meaning.
    pub fn outcome(&self) -> Option<Outcome>
        ensures { result ≡ numbers.outcome_in self.now }
    {
        match self.status {
            0 => Some(Outcome::Granted {
                pa: self.address,
                memory_type: memory_type_of(self.memory_type)?,
                update: self.update(),
            }),
            1 => Some(Outcome::Refused {
                cause: self.cause,
                update: self.update(),
            }),
            _ => None,
        }
    }

    /// Returns an outcome by its numbers. What does not belong to its status is 0.
    pub fn of(outcome: Outcome) -> LentOutcome
        ensures { result ≡ numbers.numbers_of outcome }
    {
        match outcome {
            Outcome::Granted {
                pa,
                memory_type,
                update,
            } => LentOutcome {
                status: 0,
                memory_type: code_of(memory_type),
                address: pa,
                cause: 0,
                ..update_numbers(update)
            },
            Outcome::Refused { cause, update } => LentOutcome {
                status: 1,
                memory_type: 0,
                address: 0,
                cause,
                ..update_numbers(update)
            },
        }
    }
}

fn code_of(memory_type: MemoryType) -> u32
    ensures { result ≡ numbers.code_of memory_type }
{
    match memory_type {
        MemoryType::Pma => 0,
        MemoryType::Nc => 1,
        MemoryType::Io => 2,
    }
}

fn update_numbers(update: Option<Update>) -> LentOutcome
    ensures { result ≡ numbers.update_numbers update }
{
    let nothing = LentOutcome {
        status: 0,
        memory_type: 0,
        address: 0,
        cause: 0,
        updates: 0,
        table: 0,
        index: 0,
        word: 0,
    };
    match update {
        None => nothing,
        Some(update) => LentOutcome {
            updates: 1,
            table: update.table,
            index: update.index as u64,
            word: update.word,
            ..nothing
        },
    }
}
