// `QueuedJob` (struct): a job (an unfinished process with its voucher) as the run queue keeps it.

ghost use base.Stored.{Gv-set};
ghost use denote.Struct.Props.{props};
ghost use Rattle.run_roster.specs.RosterState.{IsOut};
ghost use Rattle.vouchers.specs.IssuerSeats.{HoldsAt, held_of};

use crate::plan::Plan;
use hart_calls::Tracked;
use vouchers::Token;

/// A job in a queue. Other than a job it is `Drop`, since the queues are freed at the end of a run, when all vouchers have
/// come back and no job is left.
#[derive(Drop)]
pub(crate) struct QueuedJob<'a, B: Plan> {
    pub(crate) tracked: Tracked<'a, B>,
    pub(crate) token: Token,
    ghost at: { HoldsAt B.token_table token },
    ghost out: { IsOut B.files B.lists B.plan (held_of token) tracked } by { Prim.hlevel (props, Gv-set) },
}
