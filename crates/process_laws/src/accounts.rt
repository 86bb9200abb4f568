// Two laws of frame accounts: in every world (the model's whole state) the free and the held frames of its report add up to
// the frames of the memory; and a fork takes no frame for a page, as parent and child share every copy.
ghost use Rattle.process_model.specs.Frames.{copies_in};
ghost use Rattle.process_model.specs.Process.{Process};
ghost use Rattle.process_model.specs.Residence.{child_of, marked};
ghost use Rattle.process_model.specs.World.{report, World};
ghost use Rattle.std.specs.Prelude.{◌+◌, ◌≡◌, ◌∷◌, List};

/// In every world, the free and the held frames of its report add up to the frames that the memory has.
pub fn frames_add_up()
    ensures { (w : World) → (report w).free + (report w).held ≡ w.frames }
{}

/// A fork takes no frame for a page: with any other processes beside them, parent and child have the copy numbers that the
/// parent had before, each counted once.
pub fn fork_shares_every_page()
    ensures { (p : Process) (others : List Process) → copies_in (marked p ∷ child_of p ∷ others) ≡ copies_in (p ∷ others) }
{}
