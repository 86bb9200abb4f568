// `Job` (struct): an unfinished process with its voucher (a linear token which proves that the roster, the list of
// processes, has it). It may not be dropped.

ghost use base.Stored.{Gv-set};
ghost use denote.Struct.Props.{props};
ghost use Rattle.run_roster.specs.RosterState.{IsOut};
ghost use Rattle.vouchers.specs.IssuerSeats.{HoldsAt, held_of};

use crate::plan::Plan;
use hart_calls::Tracked;
use vouchers::Token;

/// An unfinished process and its voucher, as a hart has them. It is not `Drop`: who has a job must run it or put it into the
/// queue.
pub struct Job<'a, B: Plan> {
    /// The process.
    pub tracked: Tracked<'a, B>,
    /// Its voucher.
    pub token: Token,
    pub ghost at: { HoldsAt B.token_table token },
    pub ghost out: { IsOut B.files B.lists B.plan (held_of token) tracked } by { Prim.hlevel (props, Gv-set) },
}
