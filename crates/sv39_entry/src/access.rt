// Enums `Access` (fetch, load, store) and `Mode` (user, supervisor); and, for each access, the exception codes (scause) of a
// misaligned address, an access fault (no memory there) and a page fault (no translation).

ghost use Rattle.std.specs.Prelude.{◌≡◌};
ghost use Rattle.sv39_entry.specs.Causes as causes;

/// The kind of a memory access: an instruction fetch, a load or a store (RISC-V Privileged Architecture 20211203, 4.3.1).
#[derive(Clone, Copy, PartialEq, Eq, Debug)]
pub enum Access {
    Fetch,
    Load,
    Store,
}

/// The privilege mode of an access (the standard, 1.2). The kernel runs in supervisor mode.
#[derive(Clone, Copy, PartialEq, Eq, Debug)]
pub enum Mode {
    User,
    Supervisor,
}

impl Access {
    /// Returns the exception code for an address that is not a multiple of the access width: 0 for a fetch, 4 for a load, 6
    /// for a store (scause; the standard, 4.1.8).
    pub fn misaligned_cause(self) -> u64
        ensures { result ≡ causes.misaligned_cause self }
    {
        match self {
            Access::Fetch => 0,
            Access::Load => 4,
            Access::Store => 6,
        }
    }

    /// Returns the exception code of an access fault, for a page table word or a byte outside memory: 1 for a fetch, 5 for a
    /// load, 7 for a store (scause; the standard, 4.1.8).
    pub fn access_fault_cause(self) -> u64
        ensures { result ≡ causes.access_fault_cause self }
    {
        match self {
            Access::Fetch => 1,
            Access::Load => 5,
            Access::Store => 7,
        }
    }

    /// Returns the exception code of a page fault, for an address without a leaf, or whose leaf does not permit the access:
    /// 12 for a fetch, 13 for a load, 15 for a store (scause; the standard, 4.1.8).
    pub fn page_fault_cause(self) -> u64
        ensures { result ≡ causes.page_fault_cause self }
    {
        match self {
            Access::Fetch => 12,
            Access::Load => 13,
            Access::Store => 15,
        }
    }
}
