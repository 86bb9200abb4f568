// One call of a job (an unfinished process with its voucher): `access_at_once` and `access_served` make it in place. `EndedJob`
// (struct): an ended process with the voucher to return. `JobStep` (enum): which of the two a call leaves. Neither may be
// dropped.

ghost use Rattle.std.specs.Prelude.{◌≡◌};
ghost use Rattle.vouchers.specs.IssuerSeats.{HoldsAt};

use hart_calls::Finished;
use run_roster::{Job, Plan};
use shared_frames::SharedSupply;
use std::marker::PhantomData;
use std::sync::Wait;
use vouchers::Token;

/// Makes the next call of a job in place if it is a user access that needs no service (`Tracked::access_at_once`). Returns
/// whether it was made.
pub(crate) fn access_at_once<'a, B: Plan, R>(
    job: &mut Job<'a, B>,
    store: &mut SharedSupply<'_, R>,
) -> bool
    requires store { store.old ≡ B.table }
    ensures store { store.new ≡ B.table }
{
    job.tracked.access_at_once(store)
}

/// Makes the next call of a job in place if it is a user access whose fault can be served without files
/// (`Tracked::access_served`). Returns whether it was made.
pub(crate) fn access_served<'a, B: Plan, R: Wait>(
    job: &mut Job<'a, B>,
    store: &mut SharedSupply<'_, R>,
) -> bool
    requires store { store.old ≡ B.table }
    ensures store { store.new ≡ B.table }
{
    job.tracked.access_served(store)
}

/// An ended process and the voucher that it had, which the hart has to return to the roster. It is not `Drop`.
pub(crate) struct EndedJob<'a, B: Plan> {
    pub(crate) finished: Finished<'a>,
    pub(crate) token: Token,
    pub(crate) of: PhantomData<B>,
    ghost at: { HoldsAt B.token_table token },
}

/// What one call leaves of a job.
pub(crate) enum JobStep<'a, B: Plan> {
    /// The process continues.
    Continues(Job<'a, B>),
    /// The process has ended.
    Over(EndedJob<'a, B>),
}
