// Ten ghost structs, one for each kind of step on the table of shared frames: load the free count, reserve, give back,
// claim, share, look, release, load, learn, store. Each names the predicate that says how its atomic operation changes
// the view (what the seat holds and knows) of the seat that makes it (`specs/StepEffects.antt`).

use crate::seat::Knowledge;
use atomic_table::Play;

/// Loads the free count.
pub struct LoadFree;

impl Play<(), Knowledge> for LoadFree {
    ghost use Rattle.shared_frames.specs.StepEffects.{LoadsFree};

    ghost then = { LoadsFree };
}

/// Exchanges the free count, if it is as expected, for a lower one: the seat has the difference as credits.
pub struct Reserve;

impl Play<(), Knowledge> for Reserve {
    ghost use Rattle.shared_frames.specs.StepEffects.{Reserves};

    ghost then = { Reserves };
}

/// Adds credits of the seat to the free count.
pub struct GiveBack;

impl Play<(), Knowledge> for GiveBack {
    ghost use Rattle.shared_frames.specs.StepEffects.{GivesBack};

    ghost then = { GivesBack };
}

/// Exchanges a frame's count, if it is 0, for 1: the seat spends a credit on the frame.
pub struct Claim;

impl Play<(), Knowledge> for Claim {
    ghost use Rattle.shared_frames.specs.StepEffects.{Claims};

    ghost then = { Claims };
}

/// Exchanges a frame's count, if it is as expected, for one more: the seat has one more reference.
pub struct Share;

impl Play<(), Knowledge> for Share {
    ghost use Rattle.shared_frames.specs.StepEffects.{Shares};

    ghost then = { Shares };
}

/// Loads a frame's count.
pub struct Look;

impl Play<(), Knowledge> for Look {
    ghost use Rattle.shared_frames.specs.StepEffects.{Looks};

    ghost then = { Looks };
}

/// Lowers a frame's count by 1: the seat has one reference less.
pub struct Release;

impl Play<(), Knowledge> for Release {
    ghost use Rattle.shared_frames.specs.StepEffects.{Releases};

    ghost then = { Releases };
}

/// Loads a word of a frame.
pub struct Load;

impl Play<(), Knowledge> for Load {
    ghost use Rattle.shared_frames.specs.StepEffects.{Loads};

    ghost then = { Loads };
}

/// Loads a word of a frame of which the seat is the sole holder. The seat knows it then.
pub struct Learn;

impl Play<(), Knowledge> for Learn {
    ghost use Rattle.shared_frames.specs.StepEffects.{Learns};

    ghost then = { Learns };
}

/// Stores a word of a frame of which the seat is the sole holder.
pub struct Store;

impl Play<(), Knowledge> for Store {
    ghost use Rattle.shared_frames.specs.StepEffects.{Stores};

    ghost then = { Stores };
}
