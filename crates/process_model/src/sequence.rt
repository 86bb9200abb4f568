// Struct `Sequence`, a growable list on the heap, made of a vector, read as a slice and appended to; contracts see the list
// of its items. Type `Bytes`, a sequence of bytes.

ghost use Rattle.std.specs.Prelude.{◌≡◌, ◌++◌, ◌∷◌, [], List, OnOk, OnErr};

use std::alloc::AllocError;
use std::marker::Model;

/// A growable list on the heap. Contracts see it as the list of its items.
#[derive(Drop)]
pub struct Sequence<T> {
    items: Vec<T>,
}

impl<T> Model for Sequence<T> {
    ghost Value = { List T };

    ghost view = { λ sequence. sequence.items.items };
}

/// Bytes on the heap.
pub type Bytes = Sequence<u8>;

impl<T> Sequence<T> {
    /// Returns the sequence with the items of a vector, in their order.
    pub fn from_vec(items: Vec<T>) -> Sequence<T>
        ensures { result ≡ items.items }
    {
        Sequence { items }
    }

    /// Returns a slice of all the items, in order.
    pub fn as_slice(&self) -> &[T]
        ensures { result.now ≡ self.now }
    {
        self.items.as_slice()
    }
}

impl<T: Drop> Sequence<T> {
    /// Appends an item at the end.
    ///
    /// # Errors
    /// `AllocError`: the host is out of memory. The sequence is unchanged.
    pub fn push(&mut self, item: T) -> Result<(), AllocError>
        ensures added { OnOk result (self.new ≡ self.old ++ item ∷ []) }
        ensures kept { OnErr result (self.new ≡ self.old) }
    {
        self.items.push(item)?;
        Ok(())
    }
}
