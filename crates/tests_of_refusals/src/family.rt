// `first_wrong`: performs the rows of a story (operations of a test case) on a process that may have one child, and returns
// the first with a wrong answer or observation. `fork` is performed here, all else by `call`. `ended`: destroys both
// processes.

ghost use Rattle.std.specs.Prelude.{◌∷◌, ◌++◌, List};
ghost use Rattle.tests_of_refusals.specs.Family.{AreAlive, FamilyFits, FamilyKeeps, seats_of};

use crate::accounts::Accounts;
use crate::calls::call;
use crate::images_and_file::OneFile;
use crate::observation::seen;
use crate::operation::{Answer, Operation, Row};
use address_space::Space;
use cow_fork::fork;
use frame_store::{FrameAccess, FrameSeat, FrameSupply};
use process_model::{Image, Refusal};
use std::alloc::{AllocError, Global};

/// The first row with another answer or another observation: its number, the answer, and whether all was unchanged. `None`:
/// no row is wrong.
pub(crate) type Wrong = Option<(usize, Answer, bool)>;

/// Performs the rows in order, up to the first that is wrong. Returns that one, `None` if there is none.
///
/// # Errors
/// `AllocError`: the host is out of memory for an observation.
pub(crate) fn first_wrong<S: FrameSeat + Drop, F: FrameSupply<Seat = S> + Accounts>(
    alloc: Global,
    space: &mut Space<S>,
    child: &mut Option<Space<S>>,
    store: &mut F,
    files: &mut OneFile,
    images: &[Image],
    rows: &[Row],
) -> Result<Wrong, AllocError>
    requires fits { FamilyFits F.invariant store.old space.old child.old }
    requires alive { AreAlive S.view space.old child.old }
    ensures alive { AreAlive S.view space.new child.new }
    ensures keeps { FamilyKeeps F.invariant store.old space.old child.old store.new space.new child.new }
{
    'rows: for number in 0..rows.len() {
        let (operation, expected, same) = rows[number];
        let (answer, as_before) = played(alloc, space, child, store, files, images, operation)?;
        if answer != expected || as_before != same {
            return Ok(Some((number, answer, as_before)));
        }
    }
    Ok(None)
}

/// Performs an operation. Returns the answer, and whether all that is observed is unchanged.
fn played<S: FrameSeat + Drop, F: FrameSupply<Seat = S> + Accounts>(
    alloc: Global,
    space: &mut Space<S>,
    child: &mut Option<Space<S>>,
    store: &mut F,
    files: &mut OneFile,
    images: &[Image],
    operation: Operation,
) -> Result<(Answer, bool), AllocError>
    requires fits { FamilyFits F.invariant store.old space.old child.old }
    requires alive { AreAlive S.view space.old child.old }
    ensures alive { AreAlive S.view space.new child.new }
    ensures keeps { FamilyKeeps F.invariant store.old space.old child.old store.new space.new child.new }
{
    let before = seen(alloc, space, store, files)?;
    let answer = act(space, child, store, files, images, operation);
    let after = seen(alloc, space, store, files)?;
    Ok((answer, before == after))
}

/// Performs an operation and returns the answer.
fn act<S: FrameSeat + Drop, F: FrameSupply<Seat = S>>(
    space: &mut Space<S>,
    child: &mut Option<Space<S>>,
    store: &mut F,
    files: &mut OneFile,
    images: &[Image],
    operation: Operation,
) -> Answer
    requires fits { FamilyFits F.invariant store.old space.old child.old }
    requires alive { AreAlive S.view space.old child.old }
    ensures alive { AreAlive S.view space.new child.new }
    ensures keeps { FamilyKeeps F.invariant store.old space.old child.old store.new space.new child.new }
{
    match operation {
        Operation::Fork => fork_once(space, child, store),
        _ => call(space, store, files, images, operation),
    }
}

/// Forks if there is no child yet; else refuses with `NoSlot`.
fn fork_once<S: FrameSeat + Drop, F: FrameSupply<Seat = S>>(
    space: &mut Space<S>,
    child: &mut Option<Space<S>>,
    store: &mut F,
) -> Answer
    requires fits { FamilyFits F.invariant store.old space.old child.old }
    requires alive { AreAlive S.view space.old child.old }
    ensures alive { AreAlive S.view space.new child.new }
    ensures keeps { FamilyKeeps F.invariant store.old space.old child.old store.new space.new child.new }
{
    if child.is_some() {
        return Answer::Refused(Refusal::NoSlot);
    }
    match fork(space, store) {
        Ok(made) => {
            *child = Some(made);
            Answer::Done
        }
        Err(error) => Answer::Refused(error.into()),
    }
}

/// Destroys both spaces, joins their seats and returns the joined one.
pub(crate) fn ended<S: FrameSeat, F: FrameAccess<Seat = S>>(
    space: Space<S>,
    child: Option<Space<S>>,
    store: &mut F,
) -> S
    requires fits { FamilyFits F.invariant store.old space child }
    requires alive { AreAlive S.view space child }
    ensures keeps { (others : List S) → F.invariant store.old (seats_of space child ++ others) → F.invariant store.new (result ∷ others) }
{
    let seat = space.destroy(store);
    let Some(child) = child else {
        return seat;
    };
    let mut last = child.destroy(store);
    store.join(&mut last, seat);
    last
}
