// What PMP may say at the present moment.

ghost use Rattle.std.specs.Prelude.{◌≡◌};
ghost use Rattle.access_judge.specs.Search.{may_fail, may_pass};

use crate::log::Log;
use sv39_entry::Access;
use walk_rules::Privilege;

/// Whether PMP may permit an access now.
#[tactic(auto, using(crate::proofs::UntilNow::until_now))]
pub(crate) fn passes_now<L: Log>(
    log: &L,
    privilege: Privilege,
    access: Access,
    pa: u64,
    width: u64,
) -> bool
    ensures { result ≡ may_pass (L.past log.now).first (L.past log.now).events privilege access pa width }
{
    log.may_pass(log.now(), privilege, access, pa, width)
}

/// Whether PMP may refuse an access now.
#[tactic(auto, using(crate::proofs::UntilNow::until_now))]
pub(crate) fn fails_now<L: Log>(
    log: &L,
    privilege: Privilege,
    access: Access,
    pa: u64,
    width: u64,
) -> bool
    ensures { result ≡ may_fail (L.past log.now).first (L.past log.now).events privilege access pa width }
{
    log.may_fail(log.now(), privilege, access, pa, width)
}
