// Trait `Sink`, which takes the outcomes that the search comes by; struct `Step`, a page table entry by which it goes.

ghost use Rattle.std.specs.Prelude.{◌≡◌, List, [], ◌∷◌, ◌++◌};
ghost use Rattle.access_history.specs.declared.outcome.Outcome.{Outcome};

use crate::log::PastSatp;
use access_history::Outcome;
use sv39_entry::Entry;

/// A page table entry (PTE) on the way of a walk.
#[derive(Clone, Copy)]
pub struct Step {
    /// The level of its table, 0 for the last ones.
    pub level: u32,
    /// The physical page number of its table.
    pub ppn: u64,
    pub index: usize,
    pub entry: Entry,
    /// The last moment at which memory had it, of those at which the walk may have read it, or the hart may have set A or D in it.
    pub last: usize,
    /// The ASID under which it was read.
    pub asid: u16,
    /// Whether it is global: it has G, or a pointer on the way to it has.
    pub global: bool,
}

/// Takes outcomes as the search comes by them.
pub trait Sink {
    /// From a state to a later one the sink was told of these outcomes.
    ghost gains: { Self → List Outcome → Self → Type 0 };

    /// The sink was told of each of these outcomes.
    ghost has: { Self → List Outcome → Type 0 };

    /// Whether tables are searched anew from each root, so that the ways from each are told.
    fn wants_each_root(&self) -> bool {
        false
    }

    /// Walks begin at the root of a word that satp had.
    fn begin(&mut self, root: PastSatp)
        ensures { gains self.old [] self.new };

    /// The way goes by a PTE, below those of higher levels that were noted last.
    fn note(&mut self, step: Step)
        ensures { gains self.old [] self.new };

    /// An outcome of the way so far.
    fn tell(&mut self, outcome: Outcome)
        ensures { gains self.old (outcome ∷ []) self.new };

    ghost gains_nothing: { (a : Self) → gains a [] a };

    ghost gains_on: { (a b c : Self) (xs ys : List Outcome) → gains a xs b → gains b ys c → gains a (xs ++ ys) c };

    ghost has_told: { (a b : Self) (xs : List Outcome) → gains a xs b → has b xs };

    ghost has_still: { (a b : Self) (xs ys : List Outcome) → has a xs → gains a ys b → has b xs };

    /// To tell it of them again changes nothing.
    ghost gains_again: { (a : Self) (xs : List Outcome) → has a xs → gains a xs a };
}
