// Sinks: struct `Findings`, the outcomes of an access, each with its way; struct `Seeker`, whether one is among them.

ghost use Rattle.std.specs.Prelude.{◌≡◌, ◌⊎◌, ◌++◌, ◌∷◌, [], false, IsTrue, IfOk, OnOk};
ghost use Rattle.std.specs.List.{Contains};
ghost use Rattle.access_judge.specs.Findings.{listed, told_in};

use crate::log::PastSatp;
use crate::sink::{Sink, Step};
use crate::way::{Told, Way};
use access_history::Outcome;
use std::alloc::{AllocError, Global};

/// The outcomes of an access, each with a way by which it comes about. Its memory is used again for the next access.
#[derive(Drop)]
pub struct Findings {
    found: Vec<Told>,
    way: Way,
    is_full: bool,
}

const NO_WAY: Way = Way {
    root: None,
    steps: [None; 5],
};

impl Findings {
    /// Makes findings that list nothing.
    pub fn new(alloc: Global) -> Findings
        ensures { told_in result ≡ [] }
    {
        Findings {
            found: Vec::new(alloc),
            way: NO_WAY,
            is_full: false,
        }
    }

    /// Returns the outcomes, each once. That of the latest way comes first.
    pub fn found(&self) -> &[Told]
        ensures { result.now ≡ told_in self.now }
    {
        self.found.as_slice()
    }

    /// Drops what is listed, and keeps the memory.
    pub(crate) fn clear(&mut self)
        ensures none { told_in self.new ≡ [] }
        ensures empty { self.new.is_full ≡ false }
    {
        self.found.clear();
        self.way = NO_WAY;
        self.is_full = false;
    }

    /// An error if memory was wanting for one of the outcomes.
    pub(crate) fn finish(&self) -> Result<(), AllocError>
        ensures { OnOk result (self.now.is_full ≡ false) }
    {
        if self.is_full {
            Err(AllocError)
        } else {
            Ok(())
        }
    }

    /// Whether an outcome is listed.
    fn has(&self, outcome: Outcome) -> bool
        ensures found { IsTrue result → Contains (listed self.now) outcome }
        ensures not_found { result ≡ false → ¬ Contains (listed self.now) outcome }
    {
        'told: for told in &self.found {
            if told.outcome == outcome {
                return true;
            }
        }
        false
    }

    /// Lists an outcome by the present way, which begins with this word of satp.
    fn push(&mut self, outcome: Outcome, root: Option<PastSatp>)
        ensures fits { self.new.is_full ≡ false → self.old.is_full ≡ false }
        ensures pushed { self.new.is_full ≡ false
            → told_in self.new ≡ told_in self.old ++ record { outcome = outcome; way = record self.old.way { root = root } } ∷ [] }
        ensures same { self.new.way ≡ self.old.way }
    {
        let mut way = self.way;
        way.root = root;
        if self.found.push(Told { outcome, way }).is_err() {
            self.is_full = true;
        }
    }
}

impl Sink for Findings {
    ghost use Rattle.access_judge.specs.Findings.{Finds, Has, begun, finds_again, finds_nothing, finds_on, has_still, has_told, noted, told_in};

    ghost gains = { Finds };

    ghost has = { Has };

    ghost gains_nothing = { finds_nothing };

    ghost gains_on = { finds_on };

    ghost has_told = { has_told };

    ghost has_still = { has_still };

    ghost gains_again = { finds_again };

    fn begin(&mut self, root: PastSatp)
        ensures gains { Finds self.old [] self.new }
        ensures way { self.new.way ≡ begun root }
    {
        self.way = Way {
            root: Some(root),
            steps: [None; 5],
        };
    }

    fn note(&mut self, step: Step)
        ensures gains { Finds self.old [] self.new }
        ensures way { self.new.way ≡ noted step self.old.way }
    {
        let level = step.level as usize;
        if level < 5 {
            self.way.steps[level] = Some(step);
            if level > 0 {
                self.way.steps[level - 1] = None;
            }
        }
    }

    fn tell(&mut self, outcome: Outcome)
        ensures gains { Finds self.old (outcome ∷ []) self.new }
        ensures way { self.new.way ≡ self.old.way }
        ensures told { self.new.is_full ≡ false → Contains (listed self.old) outcome
            ⊎ (told_in self.new ≡ told_in self.old ++ record { outcome = outcome; way = self.old.way } ∷ []) }
    {
        if !self.has(outcome) {
            self.push(outcome, self.way.root);
        }
    }
}

/// Looks for one outcome.
#[derive(Drop)]
pub(crate) struct Seeker {
    pub wanted: Outcome,
    pub is_found: bool,
}

impl Sink for Seeker {
    ghost use Rattle.access_judge.specs.Findings.{HasSought, Sought, has_sought, sought_again, sought_nothing, sought_on, still_sought};

    ghost gains = { Sought };

    ghost has = { HasSought };

    ghost gains_nothing = { sought_nothing };

    ghost gains_on = { sought_on };

    ghost has_told = { has_sought };

    ghost has_still = { still_sought };

    ghost gains_again = { sought_again };

    fn begin(&mut self, _root: PastSatp) {}

    fn note(&mut self, _step: Step) {}

    fn tell(&mut self, outcome: Outcome) {
        if outcome == self.wanted {
            self.is_found = true;
        }
    }
}
