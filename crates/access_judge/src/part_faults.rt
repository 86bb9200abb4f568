// Which faults a misaligned access may end with for one of its bytes (`faulting_part`), and what may come of any access (`may_end`).

ghost use Rattle.std.specs.Prelude.{◌≡◌, ◌↔◌, ◌≤◌, ◌+◌, ◌<◌, ◌^◌, IfNone, IfSome, IsTrue};
ghost use Rattle.access_history.specs.Parts.{FaultsInPart, IsPartFault, IsRefusal, MayEnd, byte_at};

use crate::log::Log;
use crate::permitted::permits;
use access_history::{Outcome, Request};
use sv39_entry::Va;
use walk_rules::Extensions;

/// Returns the access to one byte of an access.
fn byte_at(request: &Request, va: u64) -> Request
    ensures { result ≡ byte_at request.now va }
{
    Request {
        va: Va(va),
        width: 1,
        ..*request
    }
}

fn is_refusal(outcome: &Outcome) -> bool
    ensures { IsTrue result ↔ IsRefusal outcome.now }
{
    match outcome {
        Outcome::Granted { .. } => false,
        Outcome::Refused { .. } => true,
    }
}

/// Returns a part of a misaligned access, the access to its first or last byte, that may have this outcome, a fault. `None`: there is none, the
/// access is aligned, or the outcome is no fault.
pub fn faulting_part<L: Log>(
    log: &L,
    extensions: Extensions,
    request: Request,
    outcome: Outcome,
) -> Option<Request>
    requires { 1 ≤ request.width }
    ensures some { IfSome result (λ part. IsPartFault extensions (L.past log.now) request part outcome) }
    ensures none { IfNone result (FaultsInPart extensions (L.past log.now) request outcome → ⊥) }
{
    if request.va.0 % request.width == 0 || !is_refusal(&outcome) {
        return None;
    }
    let first = byte_at(&request, request.va.0);
    if permits(log, extensions, first, outcome) {
        return Some(first);
    }
    let address = request.va.0.checked_add(request.width - 1)?;
    let last = byte_at(&request, address);
    if permits(log, extensions, last, outcome) {
        return Some(last);
    }
    None
}

/// Whether an access may end with an outcome: the standard permits it for the whole access; or it is a fault of the first or the last byte of a
/// misaligned one, whose order beside the misaligned exception the standard leaves open (3.1.15, table 3.7).
pub fn may_end<L: Log>(log: &L, extensions: Extensions, request: Request, outcome: Outcome) -> bool
    requires { 1 ≤ request.width }
    ensures { IsTrue result ↔ MayEnd extensions (L.past log.now) request outcome }
{
    if permits(log, extensions, request, outcome) {
        return true;
    }
    faulting_part(log, extensions, request, outcome).is_some()
}
