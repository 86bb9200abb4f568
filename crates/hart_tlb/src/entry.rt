// `TlbEntry`: a struct, one TLB entry: its page, its ASID, whether it is global, and the leaf that the walk found, if any.
// Its methods: which accesses it may serve, how it translates them, and which fences remove it.

ghost use Rattle.std.specs.Prelude.{◌≡◌, ◌↔◌, ℕ, IfOk, IsOk, IsTrue};
ghost use Rattle.hart_tlb.specs.Entries as entries;
ghost use Rattle.hart_tlb.specs.Outcome.{IsPermitted, LeadsToWhole};
ghost use Rattle.sv39_entry.specs.declared.scheme.Scheme.{Scheme};
ghost use Rattle.table_walk.specs.Leaves.{answer};
ghost use Rattle.table_walk.specs.Memory.{Extent, Memory};
ghost use Rattle.table_walk.specs.Walk.{Translates};

use crate::buffer::NoEntry;
use crate::leaf::TlbLeaf;
use sv39_entry::{Access, Entry, Mode, Va, Vpn};
use table_walk::Walk;

/// A buffer entry: what a walk found for one page of 4,096 bytes, a leaf or none. If its leaf is a superpage, the entry
/// still serves that one page.
#[derive(Clone, Copy, PartialEq, Eq, Debug)]
pub struct TlbEntry {
    /// The page whose addresses the entry serves.
    pub page: Vpn,
    /// The ASID that satp had at the fill.
    pub asid: u16,
    /// Whether the entry serves every ASID: its leaf or a pointer on the way to it has G (RISC-V Privileged Architecture
    /// 20211203, 4.3.1).
    pub global: bool,
    /// The leaf that the walk found; `None` if it found none.
    pub leaf: Option<TlbLeaf>,
}

/// Filler for an unused place of a fixed-size list.
impl Default for TlbEntry {
    ghost use Rattle.std.specs.Prelude.{◌≡◌, false, None};

    ghost is_default = { λ e. e ≡ record { page = 0; asid = 0; global = false; leaf = None } };

    fn default() -> TlbEntry {
        TlbEntry {
            page: Va(0).page(),
            asid: 0,
            global: false,
            leaf: None,
        }
    }
}

impl TlbEntry {
    /// Whether the entry may serve an access to an address under an ASID: it is for that page, and for that ASID or global.
    pub fn matches(&self, va: Va, asid: u16) -> bool
        ensures { result ≡ entries.matches va.0 asid self.now }
    {
        self.page == va.page() && (self.asid == asid || self.global)
    }

    /// Returns the outcome of an access to an address of the entry's page: the leaf and the physical address, or a page
    /// fault if there is no leaf or its rights, judged at this use, do not permit the access.
    pub(crate) fn answer(&self, va: Va, access: Access, mode: Mode) -> Walk
        ensures { result ≡ answer self.now.leaf va.0 access mode }
    {
        let Some(leaf) = self.leaf else {
            return Walk::PageFault(access.page_fault_cause());
        };
        if !Entry::from_word(leaf.word()).permits(access, mode) {
            return Walk::PageFault(access.page_fault_cause());
        }
        Walk::Leaf {
            word: leaf.word(),
            level: leaf.level(),
            address: leaf.address(va),
        }
    }

    /// Translates an access by this entry, whose rights are judged at this use. Returns the leaf and the physical address; or
    /// a page fault with its cause if the entry records no leaf, or the leaf's rights do not permit the access. Never an
    /// access fault.
    ///
    /// # Errors
    /// `NoEntry` exactly when the entry is for another page, or it is for another ASID and not global.
    pub fn translate(&self, va: Va, asid: u16, access: Access, mode: Mode) -> Result<Walk, NoEntry>
        ensures there { IsOk result ↔ IsTrue (entries.matches va.0 asid self.now) }
        ensures ok { IfOk result (λ w. w ≡ answer self.now.leaf va.0 access mode) }
        // A walk over any memory that permits the entry translates the access to the result, if the frame that the leaf
        // leads to is inside that memory as a whole or not at all.
        ensures permitted { IfOk result (λ w. (s : Scheme) (m : Memory) (there : Extent) (root space : ℕ) → IsPermitted s m there root space self.now
            → LeadsToWhole there va.0 self.now.leaf → Translates s m there root va.0 access mode w) }
    {
        if !self.matches(va, asid) {
            return Err(NoEntry);
        }
        Ok(self.answer(va, access, mode))
    }

    /// Whether a fence for an address and an ASID removes the entry; `None` means every address, or every ASID and the
    /// global entries.
    pub fn is_fenced(&self, va: Option<Va>, asid: Option<u16>) -> bool
        ensures { result ≡ entries.is_fenced va asid self.now }
    {
        self.is_in_space(asid) && self.is_in_reach(va)
    }

    fn is_in_space(&self, asid: Option<u16>) -> bool
        ensures { result ≡ entries.is_in_space asid self.now }
    {
        let Some(asid) = asid else {
            return true;
        };
        self.asid == asid && !self.global
    }

    fn is_in_reach(&self, va: Option<Va>) -> bool
        ensures { result ≡ entries.is_in_reach va self.now.page self.now.leaf }
    {
        let Some(va) = va else {
            return true;
        };
        match self.leaf {
            Some(leaf) => leaf.covers(self.page, va),
            None => true,
        }
    }
}
