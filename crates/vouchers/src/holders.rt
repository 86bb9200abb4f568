// Two structs that cannot be copied and take no bytes at run time. `TokenIssuer`: issues and redeems the tokens of a
// table; in contracts it has a list of their entries. `Token`: a voucher, which holds one entry of that list.

ghost use Rattle.std.specs.Prelude.{◌≡◌, [], true};

use crate::seat_view::SeatView;
use atomic_table::Seat;

/// Issues and redeems the tokens of a table. In contracts it has a list with the entry of each token that is issued and not
/// yet redeemed. There is one issuer at a table.
#[derive(Drop)]
pub struct TokenIssuer {
    pub(crate) seat: Seat<(), SeatView>,
    pub ghost no_slot: { seat.me.1 ≡ [] },
    pub ghost keeps: { seat.me.0.keeps ≡ true },
}

/// A voucher: holds an entry that is on the issuer's list as long as the token is not redeemed. It may be sent to any
/// thread.
#[derive(Drop)]
pub struct Token {
    pub(crate) seat: Seat<(), SeatView>,
    pub ghost no_slot: { seat.me.1 ≡ [] },
}
