// `SparseMemory`: a struct, physical memory by single words and runs of words, at any address.

ghost use Rattle.std.specs.Prelude.{◌≡◌, ◌||◌, ◌&&◌, ℕ, None, OnErr, OnOk, IsOk, false, nat_le, nat_lt};
ghost use Rattle.mmu.specs.Words.{added, or_zero, written};
ghost use Rattle.mmu.specs.Sparse.{HasRoom, is_zeroed, word_of};

use crate::run::Run;
use crate::runs::Runs;
use std::alloc::{AllocError, Global};
use std::collections::HashMap;

/// A physical memory. It has the words that were written to it, and runs of words that are zero until they are written; all else
/// is outside it. A word's number is its physical address / 8.
#[derive(Drop)]
pub struct SparseMemory {
    words: HashMap<u64, u64>,
    runs: Runs,
}

impl SparseMemory {
    /// Returns a memory without a word.
    pub fn new(alloc: Global) -> SparseMemory
        ensures { (n : ℕ) → word_of result n ≡ None }
    {
        SparseMemory {
            words: HashMap::new(alloc),
            runs: Runs::new(alloc),
        }
    }

    /// Returns the word with a number, `None` if it is outside the memory.
    pub fn get(&self, number: u64) -> Option<u64>
        ensures { result ≡ word_of self.now number }
    {
        self.filled(number, self.words.get(&number).copied())
    }

    /// Returns a word that was at a number at some time: where there was none, it was zero if a run that was added since has the number.
    pub fn filled(&self, number: u64, word: Option<u64>) -> Option<u64>
        ensures { result ≡ or_zero (is_zeroed self.now number) word }
    {
        match word {
            Some(word) => Some(word),
            None if self.runs.has(number) => Some(0),
            None => None,
        }
    }

    /// Makes room for one word.
    ///
    /// # Errors
    /// `AllocError`: the host is out of memory.
    pub fn reserve(&mut self) -> Result<(), AllocError>
        ensures room { OnOk result (HasRoom self.new) }
        ensures words { (n : ℕ) → word_of self.new n ≡ word_of self.old n }
        ensures runs { self.new.runs ≡ self.old.runs }
    {
        self.words.reserve(1)
    }

    /// Writes a word.
    ///
    /// # Errors
    /// `AllocError`: the host is out of memory; the memory is unchanged.
    pub fn write(&mut self, number: u64, word: u64) -> Result<(), AllocError>
        ensures ok { OnOk result ((n : ℕ) → word_of self.new n ≡ written (word_of self.old) number word n) }
        ensures err { OnErr result ((n : ℕ) → word_of self.new n ≡ word_of self.old n) }
        ensures runs { self.new.runs ≡ self.old.runs }
        ensures succeeds { HasRoom self.old → IsOk result }
    {
        match self.words.insert(number, word) {
            Ok(_) => Ok(()),
            Err(failed) => Err(AllocError::from(failed)),
        }
    }

    /// Adds the words from number `first` on below `end`; those that were not there are zero.
    ///
    /// # Errors
    /// `AllocError`: the host is out of memory; the memory is unchanged.
    pub fn add(&mut self, first: u64, end: u64) -> Result<(), AllocError>
        ensures ok { OnOk result ((n : ℕ) → word_of self.new n ≡ added (word_of self.old) first end n) }
        ensures err { OnErr result ((n : ℕ) → word_of self.new n ≡ word_of self.old n) }
        ensures zeroed { OnOk result ((n : ℕ) → is_zeroed self.new n ≡ ((nat_le first n && nat_lt n end) || is_zeroed self.old n)) }
        ensures not_zeroed { OnErr result ((n : ℕ) → is_zeroed self.new n ≡ is_zeroed self.old n) }
    {
        self.runs.add(Run { first, end })
    }

    /// Removes all words.
    pub fn clear(&mut self)
        ensures { (n : ℕ) → word_of self.new n ≡ None }
    {
        self.words.clear();
        self.runs.clear();
    }
}
