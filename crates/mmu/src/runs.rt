// `Runs`: a struct, a set of word numbers as runs that do not meet, in ascending order; a run is found by binary search.

ghost use Rattle.std.specs.Prelude.{◌≡◌, ◌<◌, ◌||◌, ℕ, OnErr, OnOk, []};
ghost use Rattle.mmu.specs.Words.{Meets, is_in, is_in_some};

use crate::run::Run;
use std::alloc::{AllocError, Global};
use std::marker::Model;

/// A set of word numbers, kept as runs.
#[derive(Drop)]
pub(crate) struct Runs {
    // In ascending order; no run is empty, and between two there are numbers in neither.
    runs: Vec<Run>,
}

impl Model for Runs {
    ghost use Rattle.std.specs.Prelude.{List};
    ghost use Rattle.mmu.specs.declared.run.Run.{Run};
    ghost use Rattle.mmu.specs.Words.{AreApart};

    ghost Value = { List Run };

    ghost view = { λ s. s.runs.items };

    ghost invariant = { λ s. AreApart s.runs.items };
}

impl Runs {
    /// Returns the empty set.
    pub fn new(alloc: Global) -> Runs
        ensures { result ≡ [] }
    {
        Runs {
            runs: Vec::new(alloc),
        }
    }

    /// Returns whether a number is in the set.
    pub fn has(&self, number: u64) -> bool
        ensures { result ≡ is_in_some self.now number }
    {
        // the runs before this one end before the number, and those after it begin behind its end
        let at = self.runs.partition_point(|run| run.end <= number);
        match self.runs.get(at) {
            Some(run) => run.has(number),
            None => false,
        }
    }

    /// Returns where the runs are that a run overlaps or touches: from the first index on below the second.
    fn meeting(&self, run: Run) -> (usize, usize)
        requires { run.first < run.end }
        ensures { Meets self.now run result.0 result.1 }
    {
        let low = self.runs.partition_point(|other| other.end < run.first);
        let high = self.runs.partition_point(|other| other.first <= run.end);
        (low, high)
    }

    /// Adds the numbers of a run.
    ///
    /// # Errors
    /// `AllocError`: the host is out of memory; the set is unchanged.
    pub fn add(&mut self, run: Run) -> Result<(), AllocError>
        ensures ok { OnOk result ((n : ℕ) → is_in_some self.new n ≡ (is_in run n || is_in_some self.old n)) }
        ensures err { OnErr result (self.new ≡ self.old) }
    {
        if run.first >= run.end {
            return Ok(());
        }
        let (low, high) = self.meeting(run);
        if low == high {
            self.runs.insert(low, run)?;
            return Ok(());
        }
        self.runs[low] = run.widened(&self.runs[low], &self.runs[high - 1]);
        self.runs.drain(low + 1..high);
        Ok(())
    }

    /// Removes all numbers.
    pub fn clear(&mut self)
        ensures { self.new ≡ [] }
    {
        self.runs.clear();
    }
}
