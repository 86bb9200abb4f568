// `ModelProcess` (struct): a process of the model as ghost state, for contracts alone, of no bytes at run time. `begun`
// makes one that the proof picks; `kept`, `after_fork` and `of_child` make a second one, a fork's parent and a fork's child.

ghost use Rattle.std.specs.Borrow.{ftrue};
ghost use Rattle.std.specs.Prelude.{◌≡◌};
ghost use Rattle.hart_calls.specs.ProcessCodes.{process_code};
ghost use Rattle.process_model.specs.Process.{Process};
ghost use Rattle.process_model.specs.Residence.{child_of, marked};

use std::marker::{Model, PhantomData};

/// A process of the model, for contracts alone; it has no bytes at run time. One space agrees with several processes, since
/// copy numbers are not in memory, so this value says which one is meant.
#[derive(Drop)]
pub struct ModelProcess {
    of: PhantomData<()>,
    pub ghost state: { Process } by { process_code },
}

impl Model for ModelProcess {
    ghost also_owns = { λ _. ftrue };
}

impl ModelProcess {
    /// Returns a second value for the process.
    pub(crate) fn kept(&self) -> ModelProcess
        ensures { result.state ≡ self.now.state }
    {
        begun(self)
    }

    /// Returns the process as a fork leaves the parent (`marked`).
    pub(crate) fn after_fork(&self) -> ModelProcess
        ensures { result.state ≡ marked self.now.state }
    {
        begun(self)
    }

    /// Returns the child that a fork of the process makes (`child_of`).
    pub(crate) fn of_child(&self) -> ModelProcess
        ensures { result.state ≡ child_of self.now.state }
    {
        begun(self)
    }
}

/// Returns a value for the process `begin`, which the caller's proof picks from what it knows of `from`. At run time `from`
/// is not read.
pub fn begun<T>(from: &T) -> ModelProcess
    ghost begin: { Process }
    ensures { result.state ≡ begin }
{
    let _ = from;
    ModelProcess { of: PhantomData }
}

// It has no bytes, and owns nothing.
unsafe impl Send for ModelProcess {}
