// `Gate` (trait): hooks that run before and after each call of a process on its hart's thread; `OpenGate` (struct): hooks
// that do nothing.

use process_model::Call;

/// Hooks that run before and after each call of a process, on the thread of its hart, with no lock held. No clause promises
/// this.
pub trait Gate {
    /// Runs before the process of this name makes its next call, `call`, on the hart of this number, counted from 0.
    fn enter(&self, hart: usize, name: &[u64], call: Call<'_>);

    /// Runs after that call, with the same arguments as `enter`, also if the call ended the process.
    fn leave(&self, hart: usize, name: &[u64], call: Call<'_>);
}

/// A gate whose hooks do nothing.
pub struct OpenGate;

impl Gate for OpenGate {
    fn enter(&self, _hart: usize, _name: &[u64], _call: Call<'_>) {}

    fn leave(&self, _hart: usize, _name: &[u64], _call: Call<'_>) {}
}
