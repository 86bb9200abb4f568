// Enum `Privilege`, a hart's privilege mode. Struct `Status`, the fields of mstatus that change accesses: the effective privilege mode, and
// which accesses a leaf allows. A and D of a leaf (`has_ad`, `with_ad`).

ghost use Rattle.std.specs.Prelude.{◌≡◌, ◌≤◌, ◌||◌, ℕ};
ghost use Rattle.sv39_entry.specs.Address.{has};
ghost use Rattle.walk_rules.specs.Rights as rights;

use bitflags::Flags;
use sv39_entry::{Access, Entry, EntryFlags, Mode};

/// A privilege mode of a hart (RISC-V Privileged Architecture 20211203, 1.2).
#[derive(Clone, Copy, PartialEq, Eq, Debug)]
pub enum Privilege {
    User,
    Supervisor,
    Machine,
}

impl Privilege {
    /// Returns the mode by which leaves are judged; `None` in M-mode, whose accesses are not translated.
    pub fn translation_mode(self) -> Option<Mode>
        ensures { result ≡ rights.translation_mode self }
    {
        match self {
            Privilege::User => Some(Mode::User),
            Privilege::Supervisor => Some(Mode::Supervisor),
            Privilege::Machine => None,
        }
    }
}

/// The fields of mstatus that change what an access may do (the standard, 3.1.6.3). They count as they are at the access.
#[derive(Clone, Copy)]
pub struct Status {
    /// S-mode may load and store by leaves with U.
    pub sum: bool,
    /// Loads may use leaves with X and without R.
    pub mxr: bool,
    /// Loads and stores of M-mode have the privilege of `mpp`.
    pub mprv: bool,
    /// The privilege mode before the last trap to M-mode.
    pub mpp: Privilege,
}

impl Status {
    /// Returns the effective privilege mode of an access that the hart makes in a privilege mode: that of MPP for a load or store in M-mode
    /// with MPRV, else the hart's own.
    pub fn effective(self, privilege: Privilege, access: Access) -> Privilege
        ensures { result ≡ rights.effective self privilege access }
    {
        match (privilege, access) {
            (Privilege::Machine, Access::Load | Access::Store) if self.mprv => self.mpp,
            _ => privilege,
        }
    }

    /// Whether a leaf at a level, 0 for a page of 4 KiB, allows an access in a mode, whatever its A and D (the standard, 4.3.2, steps 5 and
    /// 6): by U and SUM, by R, W, X and MXR, and if a superpage is aligned. Whether the PTE is a leaf, `Extensions::kind` says.
    pub fn allows(self, mode: Mode, access: Access, entry: Entry, level: u32) -> bool
        requires { level ≤ 4 }
        ensures { result ≡ rights.allows self mode access level entry }
    {
        self.mode_may(mode, access, entry)
            && self.has_right(access, entry)
            && entry.ppn() % (1 << (9 * level)) == 0
    }

    #[tactic(auto, using(crate::proofs::Bits::flags))]
    fn mode_may(self, mode: Mode, access: Access, entry: Entry) -> bool
        ensures { result ≡ rights.mode_may self mode access entry }
    {
        match (mode, access) {
            (Mode::User, _) => entry.has(EntryFlags::USER),
            (Mode::Supervisor, Access::Fetch) => !entry.has(EntryFlags::USER),
            (Mode::Supervisor, _) => !entry.has(EntryFlags::USER) || self.sum,
        }
    }

    #[tactic(auto, using(crate::proofs::Bits::flags))]
    fn has_right(self, access: Access, entry: Entry) -> bool
        ensures { result ≡ rights.has_right self access entry }
    {
        match access {
            Access::Fetch => entry.has(EntryFlags::EXECUTE),
            Access::Load => entry.has(EntryFlags::READ)
                || (self.mxr && entry.has(EntryFlags::EXECUTE)),
            Access::Store => entry.has(EntryFlags::WRITE),
        }
    }
}

/// Whether a leaf has A and, for a store, D (the standard, 4.3.2, step 7).
#[tactic(auto, using(crate::proofs::Bits::flags))]
pub fn has_ad(access: Access, entry: Entry) -> bool
    ensures { result ≡ rights.has_ad access entry }
{
    match access {
        Access::Fetch | Access::Load => entry.has(EntryFlags::ACCESSED),
        Access::Store => entry.has(EntryFlags::ACCESSED) && entry.has(EntryFlags::DIRTY),
    }
}

/// Returns the leaf with A and, for a store, D set, as the hart writes it to memory (the standard, 4.3.2, step 7).
pub fn with_ad(access: Access, entry: Entry) -> Entry
    ensures word { result ≡ rights.with_ad access entry }
    ensures bits { (i : ℕ) → has result i ≡ (has entry i || rights.is_ad_bit access i) }
{
    set_ad(access, entry)
}

fn set_ad(access: Access, entry: Entry) -> Entry
    ensures { result ≡ rights.with_ad access entry }
{
    let accessed = entry.to_word() | EntryFlags::ACCESSED.bits();
    match access {
        Access::Fetch | Access::Load => Entry::from_word(accessed),
        Access::Store => Entry::from_word(accessed | EntryFlags::DIRTY.bits()),
    }
}
