// Structs `Question`, an access whose address is translated, and `Table`, a page table at which its walk may be.

ghost use Rattle.std.specs.Prelude.{◌≡◌};
ghost use Rattle.access_history.specs.Permits.{index_of, place};
ghost use Rattle.access_judge.specs.Search.{access_fault, page_fault};

use access_history::{Outcome, Request};
use sv39_entry::Mode;
use walk_rules::Extensions;

/// An access whose address is translated, at a hart.
#[derive(Clone, Copy)]
pub(crate) struct Question {
    pub extensions: Extensions,
    pub request: Request,
    pub mode: Mode,
}

/// A page table at which a walk may be at a moment, and at none after it.
#[derive(Clone, Copy, PartialEq, Eq, Default)]
pub(crate) struct Table {
    pub level: u32,
    /// Its physical page number.
    pub ppn: u64,
    pub asid: u16,
    /// Whether a pointer on the way to it is global.
    pub global: bool,
    /// The number of the last fence of the ASID, with rs1 = x0, before the pointers were read.
    pub epoch: usize,
    pub last: usize,
}

/// Returns the page fault of an access.
pub(crate) fn page_fault(request: &Request) -> Outcome
    ensures { result ≡ page_fault request.now }
{
    Outcome::Refused {
        cause: request.kind.page_fault_cause(),
        update: None,
    }
}

/// Returns the access fault of an access.
pub(crate) fn access_fault(request: &Request) -> Outcome
    ensures { result ≡ access_fault request.now }
{
    Outcome::Refused {
        cause: request.kind.access_fault_cause(),
        update: None,
    }
}
