//! A C library for authors of emulators and kernels: the walk of a page table of Sv39 or Sv48 over memory that the caller
//! lends, and a TLB in the caller's memory. `include/xv6vm.h` declares its calls. Nothing checks a caller in C, so each call has
//! an answer for all that C can pass.
#![tactic(auto)]

mod codes;
mod hart;
mod walk;

ghost use Rattle.std.specs.Prelude.{◌≡◌, ◌≢◌, ◌≤◌, ◌<◌, ◌⊎◌, ◌↔◌, ℕ, true, false, None, Some, filter, length, not, remove};
ghost use Rattle.hart_tlb.specs.Buffer.{Fills};
ghost use Rattle.hart_tlb.specs.Entries.{is_fenced, is_match};
ghost use Rattle.hart_tlb.specs.Outcome.{EndsInAccessFault, IsOutcome};
ghost use Rattle.hart_tlb.specs.declared.entry.TlbEntry.{TlbEntry};
ghost use Rattle.lent_memory.specs.Entries.{entries_of, entry_at, entry_in, unfenced, IsLast};
ghost use Rattle.lent_memory.specs.Memory.{lent_extent, lent_memory, Lent};
ghost use Rattle.sv39_entry.specs.Satp.{asid, root_ppn, scheme_of};
ghost use Rattle.sv39_entry.specs.declared.scheme.Scheme.{Scheme};
ghost use Rattle.table_walk.specs.Walk.{Finds};
ghost use Rattle.table_walk.specs.declared.walk.Found.{Found};
ghost use Rattle.xv6vm_c.specs.Codes.{bare_leaf, is_bare, leaf_of, unknown_leaf};
ghost use Rattle.xv6vm_c.specs.Answers.{address_if, asid_if, Caches, IsCached, IsTranslation, IsUse};

use crate::codes::{
    access_of, bare_leaf, bare_outcome, is_bare, leaf_at, mode_of, no_entry, no_leaf, outcome_of,
    outside, unknown, unknown_leaf,
};
pub use codes::{Leaf, Outcome};
pub use hart::{
    xv6vm_hart_begin, xv6vm_hart_fence, xv6vm_hart_judge, xv6vm_hart_mem, xv6vm_hart_outcomes,
    xv6vm_hart_pmp, xv6vm_hart_satp, xv6vm_hart_status,
};
use lent_memory::{LentEntry, LentWords, evict, fence, fill, next_match, use_entry};
use sv39_entry::{Access, Mode, Satp, Va};
use table_walk::{Found, lookup, one_outcome, translate};
pub use walk::{Walk, xv6vm_walk_begin, xv6vm_walk_next};

/// Translates the address of an access as the hardware does (RISC-V Privileged Architecture 20211203, 4.3.2): by the page
/// table in `satp`, over a memory of these words, those of the frames from physical page number `base_ppn` on, 512 of each.
/// `access` is 0 for a fetch, 1 for a load, 2 for a store; `mode` 0 for user mode, 1 for supervisor mode (SUM and MXR are 0).
/// MODE 0 of satp is no translation, 8 is Sv39, 9 is Sv48. Returns the leaf and the physical address, or the fault with its
/// exception code.
#[unsafe(no_mangle)]
pub extern "C" fn xv6vm_translate(
    words: &[u64],
    base_ppn: u64,
    satp: u64,
    address: u64,
    access: u32,
    mode: u32,
) -> Outcome
    ensures { IsTranslation (record { base = base_ppn; words = words.now }) satp address access mode result }
{
    let Some(access) = access_of(access) else {
        return unknown(1);
    };
    let Some(mode) = mode_of(mode) else {
        return unknown(2);
    };
    let satp = Satp::from_word(satp);
    if is_bare(satp) {
        return bare_outcome(address);
    }
    let Some(scheme) = satp.scheme() else {
        return unknown(3);
    };
    let mut memory = LentWords::new(base_ppn, words);
    outcome_of(translate(&mut memory, scheme, satp.ppn(), Va(address), access, mode))
}

/// Walks the page table in `satp` to an address, and returns the leaf that it finds, whatever the rights, with the physical
/// address that it gives. The byte at that address need not be in the memory.
#[unsafe(no_mangle)]
pub extern "C" fn xv6vm_lookup(words: &[u64], base_ppn: u64, satp: u64, address: u64) -> Leaf
    ensures found { (s : Scheme) → scheme_of satp ≡ Some s → (f : Found) × (result ≡ leaf_of f address)
        × Finds s (lent_memory (record { base = base_ppn; words = words.now })) (root_ppn satp) address f }
    ensures bare { is_bare satp ≡ true → result ≡ bare_leaf address }
    ensures unknown { is_bare satp ≡ false → scheme_of satp ≡ None → result ≡ unknown_leaf }
{
    let satp = Satp::from_word(satp);
    if is_bare(satp) {
        return bare_leaf(address);
    }
    let Some(scheme) = satp.scheme() else {
        return unknown_leaf();
    };
    let mut memory = LentWords::new(base_ppn, words);
    match lookup(&mut memory, scheme, satp.ppn(), Va(address)) {
        Found::Leaf {
            word,
            level,
            global,
        } => leaf_at(word, level, global, Va(address)),
        Found::NoLeaf => no_leaf(),
        Found::Outside => outside(),
    }
}

/// Adds to a TLB what the walk to an address under `satp` finds, whatever the rights, as the newest entry, in the last place:
/// also that there is no leaf. The others keep their order, but may move to lower places; if no place is empty, the oldest entry is
/// removed. Returns 0; 2 if the walk ends in an access fault, 3 if satp has
/// MODE 0, 6 if it has a MODE that is neither Sv39 nor Sv48: nothing changes then.
#[unsafe(no_mangle)]
pub extern "C" fn xv6vm_tlb_fill(
    entries: &mut [LentEntry],
    words: &[u64],
    base_ppn: u64,
    satp: u64,
    address: u64,
) -> u32
    ensures fills { (s : Scheme) → scheme_of satp ≡ Some s →
        Fills s (lent_memory (record { base = base_ppn; words = words.now })) (lent_extent (record {
          base = base_ppn;
          words = words.now;
        })) (root_ppn satp) (asid satp) address (length entries.old) (entries_of entries.old) (entries_of entries.new) }
    ensures stays { scheme_of satp ≡ None → entries.new ≡ entries.old }
    ensures added { result ≡ 0 → (s : Scheme) × (scheme_of satp ≡ Some s)
        × ((e : TlbEntry) × IsOutcome s (lent_memory (record {
          base = base_ppn;
          words = words.now;
        })) (lent_extent (record { base = base_ppn; words = words.now })) (root_ppn satp) (asid satp) address e × IsLast e entries.new) }
    ensures fault { result ≡ 2 → (s : Scheme) × (scheme_of satp ≡ Some s)
        × EndsInAccessFault s (lent_memory (record { base = base_ppn; words = words.now })) (lent_extent (record {
          base = base_ppn;
          words = words.now;
        })) (root_ppn satp) address × (entries.new ≡ entries.old) }
    ensures bare { result ≡ 3 ↔ (is_bare satp ≡ true) }
    ensures unknown { result ≡ 6 → scheme_of satp ≡ None }
    ensures code { (result ≡ 0) ⊎ ((result ≡ 2) ⊎ ((result ≡ 3) ⊎ (result ≡ 6))) }
{
    let satp = Satp::from_word(satp);
    if is_bare(satp) {
        return 3;
    }
    let Some(scheme) = satp.scheme() else {
        return 6;
    };
    let mut memory = LentWords::new(base_ppn, words);
    if fill(entries, &mut memory, scheme, satp, Va(address)) {
        0
    } else {
        2
    }
}

/// Returns the first place from `from` on whose entry may serve an access to an address under an ASID; the number of places if
/// there is none. A hart may use any of the entries that match (the standard, 4.2.1).
#[unsafe(no_mangle)]
pub extern "C" fn xv6vm_tlb_match(
    entries: &[LentEntry],
    from: usize,
    address: u64,
    asid: u16,
) -> usize
    ensures within { result ≤ length entries.now }
    ensures after { result ≢ length entries.now → from ≤ result }
    ensures matching { result ≢ length entries.now → is_match address asid (entry_at entries.now result) ≡ true }
    ensures first { (n : ℕ) → from ≤ n → n < result → is_match address asid (entry_at entries.now n) ≡ false }
{
    next_match(entries, from, Va(address), asid)
}

/// Translates an access by the entry in place `n`, whose rights are judged at this use: a leaf, or a page fault if the entry
/// records no leaf or its rights do not permit the access. Status 5 if there is no entry in that place, or it does not match
/// the address and the ASID.
#[unsafe(no_mangle)]
pub extern "C" fn xv6vm_tlb_use(
    entries: &[LentEntry],
    n: usize,
    address: u64,
    asid: u16,
    access: u32,
    mode: u32,
) -> Outcome
    ensures { IsUse (entry_at entries.now n) address asid access mode result }
{
    let Some(access) = access_of(access) else {
        return unknown(1);
    };
    let Some(mode) = mode_of(mode) else {
        return unknown(2);
    };
    match use_entry(entries, n, Va(address), asid, access, mode) {
        Ok(walk) => outcome_of(walk),
        Err(_) => no_entry(),
    }
}

/// Empties place `n`, and leaves the others as they are; if there is no such place, nothing changes.
#[unsafe(no_mangle)]
pub extern "C" fn xv6vm_tlb_evict(entries: &mut [LentEntry], n: usize)
    ensures entries { entries_of entries.new ≡ entries_of (remove entries.old n) }
    ensures emptied { entry_at entries.new n ≡ None }
    ensures others { (k : ℕ) → k ≢ n → entry_at entries.new k ≡ entry_at entries.old k }
{
    evict(entries, n);
}

/// SFENCE.VMA (the standard, 4.2.1): empties the places of the entries that match both arguments; the others stay in their
/// places. `has_address` 0 means every address, and
/// `has_asid` 0 every ASID and the global entries; else only entries of that ASID that are not global, or whose page or
/// superpage holds the address, and each entry that records no leaf (own choice: the standard asks for less).
#[unsafe(no_mangle)]
pub extern "C" fn xv6vm_tlb_fence(
    entries: &mut [LentEntry],
    has_address: u32,
    address: u64,
    has_asid: u32,
    asid: u16,
)
    ensures entries { entries_of entries.new ≡ filter (λ e.
        not (is_fenced (address_if has_address address) (asid_if has_asid asid) e)) (entries_of entries.old) }
    ensures places { (k : ℕ) → entry_at entries.new k ≡ unfenced (address_if has_address address) (asid_if has_asid asid) (entry_at entries.old k) }
{
    let va = if has_address == 0 {
        None
    } else {
        Some(Va(address))
    };
    let asid = if has_asid == 0 { None } else { Some(asid) };
    fence(entries, va, asid);
}

/// Returns 1 if the outcome of an access is one of those that this library knows: that of the walk over the memory as it is now, or
/// that of an entry which matches the address and the ASID in `satp`; else 0.
#[unsafe(no_mangle)]
pub extern "C" fn xv6vm_permits(
    entries: &[LentEntry],
    words: &[u64],
    base_ppn: u64,
    satp: u64,
    address: u64,
    access: u32,
    mode: u32,
    outcome: Outcome,
) -> u32
    ensures yes { result ≡ 1 → IsTranslation (record { base = base_ppn; words = words.now }) satp address access mode outcome
        ⊎ IsCached entries.now satp address access mode outcome }
    ensures not_now { result ≢ 1 → IsTranslation (record { base = base_ppn; words = words.now }) satp address access mode outcome → ⊥ }
    ensures not_cached { result ≢ 1 → IsCached entries.now satp address access mode outcome → ⊥ }
    ensures code { result ≤ 1 }
{
    // by this law there is no other outcome now
    one_outcome();
    if outcome == xv6vm_translate(words, base_ppn, satp, address, access, mode) {
        return 1;
    }
    let satp = Satp::from_word(satp);
    if satp.scheme().is_none() {
        return 0;
    }
    let (Some(access), Some(mode)) = (access_of(access), mode_of(mode)) else {
        return 0;
    };
    if is_cached(entries, Va(address), satp.asid(), access, mode, outcome) {
        1
    } else {
        0
    }
}

/// Whether an entry that matches an address and an ASID gives an access this outcome.
fn is_cached(
    entries: &[LentEntry],
    va: Va,
    asid: u16,
    access: Access,
    mode: Mode,
    outcome: Outcome,
) -> bool
    ensures yes { result ≡ true → (n : ℕ) × Caches (entry_at entries.now n) va.0 asid access mode outcome }
    ensures not { result ≡ false → (n : ℕ) → Caches (entry_at entries.now n) va.0 asid access mode outcome → ⊥ }
{
    'entries: for n in 0..entries.len() {
        if gives(&entries[n], va, asid, access, mode, outcome) {
            return true;
        }
    }
    false
}

/// Whether the entry in a place matches an address and an ASID, and gives an access this outcome.
fn gives(place: &LentEntry, va: Va, asid: u16, access: Access, mode: Mode, outcome: Outcome) -> bool
    ensures yes { result ≡ true → Caches (entry_in place.now) va.0 asid access mode outcome }
    ensures not { result ≡ false → Caches (entry_in place.now) va.0 asid access mode outcome → ⊥ }
{
    let Some(entry) = place.entry() else {
        return false;
    };
    match entry.translate(va, asid, access, mode) {
        Ok(walk) => outcome == outcome_of(walk),
        Err(_) => false,
    }
}
