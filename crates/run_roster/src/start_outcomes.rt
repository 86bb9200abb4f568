// `StartOutcomes` (trait): ghost constants of a run, carried in its types and known once its starts are made: the number of
// its slots, which starts took one, whether one was refused with SharersFull, and how many frames were there for them.

use std::marker::Brand;

/// Ghost constants of a run: the number of its slots, which of its starts took one, whether one was refused with
/// `SharersFull`, and how many frames the caller said were free for them. A contract knows a value under a lock by its type
/// alone, and these are known once all starts are made, before the roster is put under its lock: so they are in the roster's
/// type. Each run picks its own.
pub trait StartOutcomes {
    ghost use Rattle.std.specs.Prelude.{Bool, List, ℕ};

    ghost slots: { ℕ };

    ghost taken: { List Bool };

    ghost full: { Bool };

    ghost free: { ℕ };
}

impl StartOutcomes for Brand {
    ghost use Rattle.std.specs.Prelude.{false};
    ghost use Rattle.run_roster.specs.Plans.{none_taken};

    ghost slots = { 0 };

    ghost taken = { none_taken };

    ghost full = { false };

    ghost free = { 0 };
}
