// `Changes`: a struct, the stores to each word of a memory, with the word before each. `Change`: a struct, one of them.

ghost use Rattle.std.specs.Prelude.{◌≡◌, ℕ, OnErr, OnOk, [], slice_get};
ghost use Rattle.mmu.specs.Changing.{AreInOrder, after_by, changes_at, pushed, since_by};

use std::alloc::{AllocError, Global};
use std::collections::HashMap;

/// A change of a word.
#[derive(Clone, Copy)]
pub(crate) struct Change {
    /// The number of the store.
    pub number: usize,
    /// The word right before it; `None` outside the memory.
    pub before: Option<u64>,
}

/// Returns one of the changes, `None` if there are not as many.
fn nth(list: &[Change], at: usize) -> Option<Change>
    ensures { result ≡ slice_get list.now at }
{
    list.get(at).copied()
}

/// Returns the number of the last change up to a moment, 0 if there is none, and the first change after it.
fn around(list: &[Change], moment: usize) -> (usize, Option<Change>)
    requires { AreInOrder list.now }
    ensures since { result.0 ≡ since_by 0 list.now moment }
    ensures after { result.1 ≡ after_by list.now moment }
{
    let at = list.partition_point(|change| change.number <= moment);
    let after = nth(list, at);
    if at == 0 {
        return (0, after);
    }
    (list[at - 1].number, after)
}

/// The changes of each word, by the word's number, which is its physical address / 8; those of one word in the order of their numbers.
#[derive(Drop)]
pub(crate) struct Changes {
    lists: HashMap<u64, Vec<Change>>,
    alloc: Global,
}

impl Changes {
    /// Returns no changes.
    pub fn new(alloc: Global) -> Changes
        ensures { (n : ℕ) → changes_at result n ≡ [] }
    {
        Changes {
            lists: HashMap::new(alloc),
            alloc,
        }
    }

    /// Adds a change of a word, later than those that it had.
    ///
    /// # Errors
    /// `AllocError`: the host is out of memory; nothing is added.
    pub fn push(&mut self, place: u64, change: Change) -> Result<(), AllocError>
        ensures ok { OnOk result ((n : ℕ) → changes_at self.new n ≡ pushed (changes_at self.old) place change n) }
        ensures err { OnErr result ((n : ℕ) → changes_at self.new n ≡ changes_at self.old n) }
    {
        self.lists.reserve(1)?;
        let mut list = match self.lists.remove(&place) {
            Some(list) => list,
            None => Vec::new(self.alloc),
        };
        let pushed = list.push(change);
        // there is room for it
        let _ = self.lists.insert(place, list);
        Ok(pushed?)
    }

    /// Returns the number of the last change of a word up to a moment, 0 if there is none, and the first change after it.
    pub fn around(&self, place: u64, moment: usize) -> (usize, Option<Change>)
        requires { AreInOrder (changes_at self.now place) }
        ensures since { result.0 ≡ since_by 0 (changes_at self.now place) moment }
        ensures after { result.1 ≡ after_by (changes_at self.now place) moment }
    {
        match self.lists.get(&place) {
            Some(list) => around(list, moment),
            None => (0, None),
        }
    }

    /// Removes all changes.
    pub fn clear(&mut self)
        ensures { (n : ℕ) → changes_at self.new n ≡ [] }
    {
        self.lists.clear();
    }
}
