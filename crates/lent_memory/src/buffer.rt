// The calls of a TLB over an array of `LentEntry`, as `Buffer` of `hart_tlb` has them: fill by a walk, the next entry that
// matches an access, use of an entry, eviction, and the fence SFENCE.VMA.

ghost use Rattle.std.specs.Prelude.{◌≡◌, ◌≢◌, ◌⊎◌, ◌<◌, ◌≤◌, ◌↔◌, ℕ, IsTrue, IsOk, IfOk, Some, None, false, true, filter, length, not, remove, ◌++◌, ◌∷◌, []};
ghost use Rattle.hart_tlb.specs.Buffer.{Fills, newest_entries};
ghost use Rattle.hart_tlb.specs.Entries.{is_fenced, is_match};
ghost use Rattle.hart_tlb.specs.Outcome.{EndsInAccessFault, IsOutcome, IsPermitted, LeadsToWhole};
ghost use Rattle.hart_tlb.specs.declared.entry.TlbEntry.{TlbEntry};
ghost use Rattle.lent_memory.specs.Entries.{entries_of, entry_at, unfenced, IsLast};
ghost use Rattle.sv39_entry.specs.Address.{page_of};
ghost use Rattle.sv39_entry.specs.Satp as satps;
ghost use Rattle.sv39_entry.specs.Schemes.{mode_of};
ghost use Rattle.sv39_entry.specs.declared.scheme.Scheme.{Scheme};
ghost use Rattle.table_walk.specs.Leaves.{answer};
ghost use Rattle.table_walk.specs.Memory.{Extent, Memory};
ghost use Rattle.table_walk.specs.Walk.{CanWalk, Translates};

use crate::entry::{LentEntry, empty};
use hart_tlb::{Buffer, NoEntry, TlbEntry};
use sv39_entry::{Access, Mode, Satp, Scheme, Va};
use table_walk::{Walk, Words};

/// Returns the entry in place `n`; `None` if the place is empty, or there is no such place.
pub fn entry_at(places: &[LentEntry], n: usize) -> Option<TlbEntry>
    ensures { result ≡ entry_at places.now n }
{
    places.get(n)?.entry()
}

/// Walks to an address under `satp`, whose MODE must be that of the scheme, and adds what the walk found, whatever the
/// rights, as the newest entry: also that there is no leaf. It comes into the last place. The others keep their order, but may
/// move to lower places; if no place is empty, the oldest entry is removed. If the walk ends in an access fault, nothing
/// changes. Returns whether an entry was added.
pub fn fill<M: Words>(
    places: &mut [LentEntry],
    words: &mut M,
    scheme: Scheme,
    satp: Satp,
    va: Va,
) -> bool
    requires readable { CanWalk scheme (M.readable words.old) (M.memory words.old) (satps.root_ppn satp) (page_of va.0) }
    requires mode { satps.mode satp ≡ mode_of scheme }
    ensures fills { Fills scheme (M.memory words.old) (M.there words.old) (satps.root_ppn satp) (satps.asid satp) va.0 (length places.old)
        (entries_of places.old) (entries_of places.new) }
    ensures stays { M.stays words.old words.new }
    ensures added { result ≡ true → (e : TlbEntry)
        × IsOutcome scheme (M.memory words.old) (M.there words.old) (satps.root_ppn satp) (satps.asid satp) va.0 e × IsLast e places.new }
    ensures fault { result ≡ false → EndsInAccessFault scheme (M.memory words.old) (M.there words.old) (satps.root_ppn satp) va.0 × (places.new ≡ places.old) }
{
    let mut found: Buffer<1> = Buffer::new();
    found.fill(words, scheme, satp, va);
    match found.entry(0) {
        Some(entry) => {
            add(places, entry);
            true
        }
        None => false,
    }
}

/// Adds an entry as the newest: the first empty place, or the oldest entry if none is empty, is removed from the row, and
/// the entry comes last.
fn add(places: &mut [LentEntry], entry: TlbEntry)
    ensures newest { entries_of places.new ≡ newest_entries (length places.old) (entries_of places.old ++ entry ∷ []) }
    ensures last { IsLast entry places.new }
{
    let gap = first_empty(places).unwrap_or(0);
    if gap < places.len() {
        places[gap..].rotate_left(1);
        let last = places.len() - 1;
        places[last] = LentEntry::of(Some(entry));
    }
}

/// The first empty place; `None` if each place has an entry.
fn first_empty(places: &[LentEntry]) -> Option<usize>
    ensures within { (n : ℕ) → result ≡ Some n → n < length places.now }
    ensures empty { (n : ℕ) → result ≡ Some n → entry_at places.now n ≡ None }
    ensures full { result ≡ None → length (entries_of places.now) ≡ length places.now }
{
    'places: for n in 0..places.len() {
        if places[n].is_empty() {
            return Some(n);
        }
    }
    None
}

/// Removes the entry in place `n`, as hardware may at any time: the place is empty then, and the others are as they were. If
/// there is no such place, nothing changes.
pub fn evict(places: &mut [LentEntry], n: usize)
    ensures entries { entries_of places.new ≡ entries_of (remove places.old n) }
    ensures emptied { entry_at places.new n ≡ None }
    ensures others { (k : ℕ) → k ≢ n → entry_at places.new k ≡ entry_at places.old k }
{
    if n < places.len() {
        places[n] = empty();
    }
}

/// Translates an access by the entry in place `n`, whose rights are judged at this use. Returns the leaf and the physical
/// address; or a page fault with its cause if the entry records no leaf, or the leaf's rights do not permit the access. Never
/// an access fault.
///
/// # Errors
/// `NoEntry` exactly when there is no entry in place `n`, or it is for another page, or it is for another ASID and not global.
pub fn use_entry(
    places: &[LentEntry],
    n: usize,
    va: Va,
    asid: u16,
    access: Access,
    mode: Mode,
) -> Result<Walk, NoEntry>
    ensures there { IsOk result ↔ IsTrue (is_match va.0 asid (entry_at places.now n)) }
    ensures ok { IfOk result (λ w. (e : TlbEntry) → entry_at places.now n ≡ Some e → w ≡ answer e.leaf va.0 access mode) }
    // A walk over any memory that permits the entry translates the access to the result, if the frame that the leaf leads to
    // is inside that memory as a whole or not at all.
    ensures permitted { IfOk result (λ w. (s : Scheme) (m : Memory) (there : Extent) (root space : ℕ) (e : TlbEntry) → entry_at places.now n ≡ Some e
        → IsPermitted s m there root space e → LeadsToWhole there va.0 e.leaf → Translates s m there root va.0 access mode w) }
{
    match entry_at(places, n) {
        Some(entry) => entry.translate(va, asid, access, mode),
        None => Err(NoEntry),
    }
}

/// Returns the first place from `from` on whose entry may serve an access to an address under an ASID; the number of places if
/// there is none.
pub fn next_match(places: &[LentEntry], from: usize, va: Va, asid: u16) -> usize
    ensures within { result ≤ length places.now }
    ensures after { result ≢ length places.now → from ≤ result }
    ensures matching { result ≢ length places.now → is_match va.0 asid (entry_at places.now result) ≡ true }
    ensures first { (n : ℕ) → from ≤ n → n < result → is_match va.0 asid (entry_at places.now n) ≡ false }
{
    'places: for n in from..places.len() {
        if places[n].matches(va, asid) {
            return n;
        }
    }
    places.len()
}

/// SFENCE.VMA (RISC-V Privileged Architecture 20211203, 4.2.1): empties the places of the entries that match both arguments; the
/// others stay in their places. With `asid`, only entries of that ASID, and no global one; `None` means all. With `va`, only
/// entries whose page or superpage holds the address, and all entries that record no leaf (own choice: the standard asks for
/// less); `None` means every address.
pub fn fence(places: &mut [LentEntry], va: Option<Va>, asid: Option<u16>)
    ensures entries { entries_of places.new ≡ filter (λ e. not (is_fenced va asid e)) (entries_of places.old) }
    ensures places { (k : ℕ) → entry_at places.new k ≡ unfenced va asid (entry_at places.old k) }
{
    'places: for n in 0..places.len() {
        if places[n].is_fenced(va, asid) {
            places[n] = empty();
        }
    }
}
