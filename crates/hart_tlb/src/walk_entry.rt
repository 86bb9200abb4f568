// `outcome`: makes the TLB entry for a virtual address by a walk under satp, with the leaf found or none; no entry if the
// walk ends in an access fault.

ghost use Rattle.std.specs.Prelude.{◌≡◌, IfSome, IfNone};
ghost use Rattle.hart_tlb.specs.Outcome.{EndsInAccessFault, IsOutcome};
ghost use Rattle.sv39_entry.specs.Address.{page_of};
ghost use Rattle.sv39_entry.specs.Satp.{asid, root_ppn};
ghost use Rattle.table_walk.specs.Walk.{CanWalk};

use crate::entry::TlbEntry;
use crate::leaf::TlbLeaf;
use sv39_entry::{Satp, Scheme, Va};
use table_walk::{Found, Words, has_byte, lookup};

/// Returns the entry that a walk under satp to an address gives, also if it finds no leaf; `None` if the walk ends in an
/// access fault: a word on the way, or the byte that the leaf leads to, is outside the memory.
pub(crate) fn outcome<M: Words>(
    words: &mut M,
    scheme: Scheme,
    satp: Satp,
    va: Va,
) -> Option<TlbEntry>
    requires { CanWalk scheme (M.readable words.old) (M.memory words.old) (root_ppn satp) (page_of va.0) }
    ensures entry { IfSome result (λ e. IsOutcome scheme (M.memory words.old) (M.there words.old) (root_ppn satp) (asid satp) va.0 e) }
    ensures fault { IfNone result (EndsInAccessFault scheme (M.memory words.old) (M.there words.old) (root_ppn satp) va.0) }
    ensures stays { M.stays words.old words.new }
{
    let (leaf, global) = match lookup(words, scheme, satp.ppn(), va) {
        Found::Leaf {
            word,
            level,
            global,
        } => (TlbLeaf::new(word, level), global),
        Found::NoLeaf => return Some(entry(satp, va, None, false)),
        Found::Outside => return None,
    };
    if !has_byte(words, leaf.address(va)) {
        return None;
    }
    Some(entry(satp, va, Some(leaf), global))
}

/// The entry for an address under satp, with the leaf and the mark G that a walk found.
fn entry(satp: Satp, va: Va, leaf: Option<TlbLeaf>, global: bool) -> TlbEntry
    ensures page { result.page ≡ page_of va.0 }
    ensures asid { result.asid ≡ asid satp }
    ensures leaf { result.leaf ≡ leaf }
    ensures global { result.global ≡ global }
{
    TlbEntry {
        page: va.page(),
        asid: satp.asid(),
        global,
        leaf,
    }
}
