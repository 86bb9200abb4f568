// `Knowledge`, a struct that takes no bytes at run time and carries a seat's view (ghost state: what an owner's seat at a
// frame store holds and knows) for contracts; and `knowing`, which makes one with a view that the caller's proof chooses.

ghost use Rattle.std.specs.Borrow.{ftrue};
ghost use Rattle.std.specs.Prelude.{◌≡◌};
ghost use Rattle.frame_store.specs.View.{View, view_code};

use std::marker::{Model, PhantomData};

/// Holds a view for contracts to read. It takes no bytes at run time.
#[derive(Drop)]
pub struct Knowledge {
    of: PhantomData<()>,
    pub ghost view: { View } by { view_code },
}

impl Model for Knowledge {
    ghost also_owns = { λ _. ftrue };
}

/// Returns a `Knowledge` with the view `next`, which the caller's proof chooses. `from` has the values that the choice
/// depends on; the code does not read it.
pub fn knowing<T>(from: &T) -> Knowledge
    ghost next: { View }
    ensures { result.view ≡ next }
{
    let _ = from;
    Knowledge { of: PhantomData }
}
