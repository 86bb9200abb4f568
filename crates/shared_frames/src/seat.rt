// `SharedSeat`, a struct: a seat at shared frames. And two ghost structs, `Told` and `Knowledge`, by which the table's types
// name its view (what the seat holds and knows).

ghost use Rattle.std.specs.Borrow.{ftrue};
ghost use Rattle.std.specs.Prelude.{◌≡◌, []};
ghost use Rattle.frame_store.specs.View.{View, view_code};

use atomic_table::Seat;
use frame_store::FrameSeat;
use std::marker::{Model, PhantomData};

/// Holds a view for contracts to read. It takes no bytes at run time.
struct Told {
    of: PhantomData<()>,
    pub ghost view: { View } by { view_code },
}

impl Model for Told {
    ghost also_owns = { λ _. ftrue };
}

/// The type by which the types of the table name a view. No value of it is made.
pub struct Knowledge {
    told: Told,
}

impl Model for Knowledge {
    ghost Value = { View };

    ghost coded = { view_code };

    ghost view = { λ k. k.told.view };
}

/// A seat at shared frames: one owner's capability, with its references to frames and its credits. It takes no bytes at
/// run time, and may be sent to any thread.
#[derive(Drop)]
pub struct SharedSeat {
    pub(crate) seat: Seat<(), Knowledge>,
    pub ghost no_slot: { seat.me.1 ≡ [] },
}

impl FrameSeat for SharedSeat {
    ghost view = { λ s. s.seat.me.0 };
}
