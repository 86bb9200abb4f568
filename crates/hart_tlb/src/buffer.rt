// `Buffer`: a struct, the TLB of one hart, a list of at most `N` entries, the oldest first. Its calls: fill by a walk, read
// an entry, the entries that match an access, use of an entry, eviction, and the fence SFENCE.VMA; and its error `NoEntry`.

ghost use Rattle.std.specs.Prelude.{◌≡◌, ◌<◌, ◌≤◌, ◌↔◌, ℕ, IsOk, IsTrue, IfOk, OnOk, OnErr, [], ◌∷◌, ◌++◌, Some, filter, length, not, remove, slice_get};
ghost use Rattle.hart_tlb.specs.Buffer.{Fills, matching_numbers, newest_entries};
ghost use Rattle.hart_tlb.specs.Entries.{is_fenced, is_match};
ghost use Rattle.table_walk.specs.Leaves.{answer};
ghost use Rattle.hart_tlb.specs.Outcome.{IsPermitted, LeadsToWhole};
ghost use Rattle.hart_tlb.specs.declared.entry.TlbEntry.{TlbEntry};
ghost use Rattle.sv39_entry.specs.Address.{page_of};
ghost use Rattle.sv39_entry.specs.Satp as satps;
ghost use Rattle.sv39_entry.specs.Schemes.{mode_of};
ghost use Rattle.sv39_entry.specs.declared.scheme.Scheme.{Scheme};
ghost use Rattle.table_walk.specs.Memory.{Extent, Memory};
ghost use Rattle.table_walk.specs.Walk.{CanWalk, Translates};

use crate::entry::TlbEntry;
use crate::walk_entry::outcome;
use arrayvec::ArrayVec;
use std::marker::Model;
use sv39_entry::{Access, Mode, Satp, Scheme, Va};
use table_walk::{Walk, Words, one_found};

/// The TLB of a hart: at most `N` entries, the oldest first. Writes to memory or to satp do not change it: an entry stays
/// until a fence or an eviction removes it, or a fill needs its place (RISC-V Privileged Architecture 20211203, 4.2.1).
#[derive(Drop)]
pub struct Buffer<const N: usize> {
    entries: ArrayVec<TlbEntry, N>,
}

/// Contracts see the entries, the oldest first.
impl<const N: usize> Model for Buffer<N> {
    ghost use Rattle.std.specs.Prelude.{List};
    ghost use Rattle.hart_tlb.specs.declared.entry.TlbEntry.{TlbEntry};

    ghost Value = { List TlbEntry };

    ghost view = { λ buffer. buffer.entries.items };
}

/// There is no such buffer entry, or it is for another page, or it is for another ASID and not global.
#[derive(Clone, Copy, PartialEq, Eq, Debug)]
pub struct NoEntry;

impl<const N: usize> Buffer<N> {
    /// Returns an empty buffer.
    pub fn new() -> Buffer<N>
        ensures { result ≡ [] }
    {
        Buffer {
            entries: ArrayVec::new(),
        }
    }

    /// Returns the number of entries.
    pub fn len(&self) -> usize
        ensures value { result ≡ length self.now }
        ensures few { result ≤ N }
    {
        self.entries.len()
    }

    /// Returns entry `n`, the oldest being entry 0; `None` if there are `n` entries or fewer.
    pub fn entry(&self, n: usize) -> Option<TlbEntry>
        ensures { result ≡ slice_get self.now n }
    {
        self.entries.as_slice().get(n).copied()
    }

    /// Walks to an address under `satp`, whose MODE must be that of the scheme, and adds what the walk found, whatever the
    /// rights, as the newest entry: also that there is no leaf. A full buffer loses its oldest entry. If the walk ends in an
    /// access fault, nothing changes. Does not return whether an entry was added. Older entries for the same page stay (the
    /// standard, 4.2.1, permits each of them). Each table on the way of the walk must be readable (`Words::readable`).
    pub fn fill<M: Words>(&mut self, words: &mut M, scheme: Scheme, satp: Satp, va: Va)
        requires readable { CanWalk scheme (M.readable words.old) (M.memory words.old) (satps.root_ppn satp) (page_of va.0) }
        requires mode { satps.mode satp ≡ mode_of scheme }
        ensures fills { Fills scheme (M.memory words.old) (M.there words.old) (satps.root_ppn satp) (satps.asid satp) va.0 N self.old self.new }
        ensures stays { M.stays words.old words.new }
    {
        // by this law the walk has no other outcome
        one_found();
        if let Some(entry) = outcome(words, scheme, satp, va) {
            self.add(entry);
        }
    }

    fn add(&mut self, entry: TlbEntry)
        ensures { self.new ≡ newest_entries N (self.old ++ entry ∷ []) }
    {
        if self.entries.is_full() {
            self.entries.pop_at(0);
        }
        if !self.entries.is_full() {
            self.entries.push(entry);
        }
    }

    /// Removes entry `n`, as hardware may at any time; each later entry moves up by one.
    ///
    /// # Errors
    /// `NoEntry` exactly when there is no entry `n`; the buffer is then unchanged.
    pub fn evict(&mut self, n: usize) -> Result<(), NoEntry>
        ensures there { IsOk result ↔ (n < length self.old) }
        ensures ok { OnOk result (self.new ≡ remove self.old n) }
        ensures err { OnErr result (self.new ≡ self.old) }
    {
        match self.entries.pop_at(n) {
            Some(_) => Ok(()),
            None => Err(NoEntry),
        }
    }

    /// Returns the numbers of all entries that may serve an access to an address under an ASID, in ascending order. A hart
    /// may use any of them, so the caller chooses.
    pub fn matching(&self, va: Va, asid: u16) -> ArrayVec<usize, N>
        ensures { result.items ≡ matching_numbers self.now va.0 asid }
    {
        matching_in(self.entries.as_slice(), va, asid)
    }

    /// Translates an access by entry `n`, whose rights are judged at this use. Returns the leaf and the physical address; or
    /// a page fault with its cause if the entry records no leaf, or the leaf's rights do not permit the access. Never an
    /// access fault. The buffer stays as it is.
    ///
    /// # Errors
    /// `NoEntry` exactly when there is no entry `n`, or it is for another page, or it is for another ASID and not global.
    pub fn use_entry(
        &self,
        n: usize,
        va: Va,
        asid: u16,
        access: Access,
        mode: Mode,
    ) -> Result<Walk, NoEntry>
        ensures there { IsOk result ↔ IsTrue (is_match va.0 asid (slice_get self.now n)) }
        ensures ok { IfOk result (λ w. (e : TlbEntry) → slice_get self.now n ≡ Some e → w ≡ answer e.leaf va.0 access mode) }
        // A walk over any memory that permits the entry translates the access to the result, if the frame that the leaf
        // leads to is inside that memory as a whole or not at all.
        ensures permitted { IfOk result (λ w. (s : Scheme) (m : Memory) (there : Extent) (root space : ℕ) (e : TlbEntry) → slice_get self.now n ≡ Some e
            → IsPermitted s m there root space e → LeadsToWhole there va.0 e.leaf → Translates s m there root va.0 access mode w) }
    {
        match self.entry(n) {
            Some(entry) => entry.translate(va, asid, access, mode),
            None => Err(NoEntry),
        }
    }

    /// SFENCE.VMA (RISC-V Privileged Architecture 20211203, 4.2.1). Removes the entries that match both arguments; the
    /// others keep their order. With `asid`, only entries of that ASID, and no global one; `None` means all. With `va`, only
    /// entries whose page or superpage holds the address, and all entries that record no leaf (own choice: the standard asks
    /// for less); `None` means every address.
    pub fn fence(&mut self, va: Option<Va>, asid: Option<u16>)
        ensures { self.new ≡ filter (λ e. not (is_fenced va asid e)) self.old }
    {
        self.entries.retain(|entry| !entry.is_fenced(va, asid));
    }
}

/// `Buffer::matching`, of a slice of entries.
fn matching_in<const N: usize>(entries: &[TlbEntry], va: Va, asid: u16) -> ArrayVec<usize, N>
    requires { length entries.now ≤ N }
    ensures { result.items ≡ matching_numbers entries.now va.0 asid }
{
    let mut numbers = ArrayVec::new();
    'entries: for (n, entry) in entries.iter().enumerate() {
        if entry.matches(va, asid) {
            numbers.push(n);
        }
    }
    numbers
}
