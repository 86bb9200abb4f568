// `SlotSet`, a struct: a set of slots, for the slots that are marked as stale on a hart.

ghost use Rattle.std.specs.Prelude.{◌≡◌, ◌<◌, ◌==◌, ◌||◌, ℕ, false, replicate, slice_set};
ghost use Rattle.hart_machine.specs.Slots.{marks_of};

use process_model::MOST_SLOTS;
use std::marker::Model;

/// A set of slots below `MOST_SLOTS`.
#[derive(Drop)]
pub(crate) struct SlotSet {
    members: [bool; MOST_SLOTS],
}

/// Contracts see, for each slot, whether it is in the set.
impl Model for SlotSet {
    ghost use Rattle.std.specs.Prelude.{Bool, List};

    ghost Value = { List Bool };

    ghost view = { λ set. set.members };
}

impl SlotSet {
    /// The empty set.
    pub(crate) fn empty() -> SlotSet
        ensures { result ≡ replicate MOST_SLOTS false }
    {
        SlotSet {
            members: [false; MOST_SLOTS],
        }
    }

    /// Whether a slot is in the set.
    pub(crate) fn contains(&self, slot: usize) -> bool
        ensures { result ≡ marks_of self.now slot }
    {
        self.members.get(slot).copied().unwrap_or(false)
    }

    /// Adds a slot to the set.
    pub(crate) fn insert(&mut self, slot: usize)
        requires { slot < MOST_SLOTS }
        ensures { (n : ℕ) → marks_of self.new n ≡ (slot == n || marks_of self.old n) }
    {
        self.members[slot] = true;
    }

    /// Removes a slot from the set.
    pub(crate) fn remove(&mut self, slot: usize)
        requires { slot < MOST_SLOTS }
        ensures { self.new ≡ slice_set self.old slot false }
    {
        self.members[slot] = false;
    }
}
