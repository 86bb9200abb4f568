// `Verb`: what an access of hart 0 does, as a line of a script.

use crate::numbers::Numbers;

/// What an access does.
#[derive(Clone, Copy)]
pub enum Verb {
    /// Loads eight bytes.
    Load,
    /// Stores these eight bytes.
    Store(u64),
    /// Fetches an instruction.
    Fetch,
}

impl Verb {
    /// Returns a load or a store of this value, each as often as the other.
    pub fn load_or_store(numbers: &mut Numbers, value: u64) -> Verb {
        if numbers.chance(50) {
            Verb::Load
        } else {
            Verb::Store(value)
        }
    }

    /// Returns the template of its line: the address is named `denied`, what is stored `value`.
    pub fn line(self) -> &'static str {
        match self {
            Verb::Load => "load 0 {denied} 8",
            Verb::Store(_) => "store 0 {denied} 8 {value}",
            Verb::Fetch => "fetch 0 {denied}",
        }
    }

    /// Returns what it stores, 0 if nothing.
    pub fn value(self) -> u64 {
        match self {
            Verb::Store(value) => value,
            Verb::Load | Verb::Fetch => 0,
        }
    }

    /// Returns the cause of a page fault of such an access (RISC-V Privileged Architecture, 4.1.8).
    pub fn cause(self) -> u64 {
        match self {
            Verb::Load => 13,
            Verb::Store(_) => 15,
            Verb::Fetch => 12,
        }
    }
}
