// Ghost structs for the types of the table of an issuer and its tokens. `SeatView` names the view (ghost state: lists of
// entries) of an issuer or a token, `TokenInvariant` the table's invariant, and `Learn` a step: a load of the table's word,
// which shows that the entries redeemed last were on the issuer's list before.

ghost use Rattle.std.specs.Borrow.{ftrue};
ghost use Rattle.std.specs.Prelude.{◌≡◌};
ghost use Rattle.vouchers.specs.Entries.{View, view_code};

use atomic_table::{Play, TableRule};
use std::marker::{Model, PhantomData};

/// Holds a view for contracts to read. It takes no bytes at run time.
struct Shown {
    of: PhantomData<()>,
    pub ghost view: { View } by { view_code },
}

impl Model for Shown {
    ghost also_owns = { λ _. ftrue };
}

/// The type by which the types of the table name the view of an issuer or a token. No value of it is made.
pub struct SeatView {
    shown: Shown,
}

impl Model for SeatView {
    ghost Value = { View };

    ghost coded = { view_code };

    ghost view = { λ told. told.shown.view };
}

/// The invariant of a token table (`Kept`): the entries on the issuer's list are those that tokens hold, counted with
/// repetitions.
pub struct TokenInvariant;

impl TableRule<(), SeatView, usize> for TokenInvariant {
    ghost use Rattle.vouchers.specs.IssuerInvariant.{Kept};
    ghost use Rattle.vouchers.specs.Entries.{keeper_view};

    ghost holds = { Kept };

    ghost first = { λ _. keeper_view };
}

/// The kind of a step that loads the table's word. It changes nothing, and shows that the entries redeemed last were on the
/// list before.
pub struct Learn;

impl Play<(), SeatView> for Learn {
    ghost use Rattle.vouchers.specs.IssuerInvariant.{Learns};

    ghost then = { Learns };
}
