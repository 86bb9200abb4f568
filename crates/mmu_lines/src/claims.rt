// Whether an access may have an outcome that a client means (`permitted_outcome`), and in what one that it may have differs (`difference`).

ghost use Rattle.std.specs.Prelude.{◌≡◌, ◌≤◌, IfNone, IfSome};
ghost use Rattle.access_history.specs.Permits.{Permits};
ghost use Rattle.access_history.specs.declared.outcome.Outcome.{Outcome};
ghost use Rattle.mmu.specs.Pasts.{past};
ghost use Rattle.mmu_lines.specs.Claims.{Tells, meant};

use access_history::{Outcome, Request, Update};
use access_judge::permits;
use mmu::Mmu;
use mmu_requests::{Claim, End};
use walk_rules::{Extensions, MemoryType};

/// Returns the outcome that a client means, if the memory type is this one, or the one that it tells.
fn meant(memory_type: MemoryType, claim: &Claim) -> Outcome
    ensures { result ≡ meant memory_type claim.now claim.now.end }
{
    match claim.end {
        End::Granted {
            pa,
            memory_type: told,
        } => Outcome::Granted {
            pa,
            memory_type: told.unwrap_or(memory_type),
            update: claim.update,
        },
        End::Refused(cause) => Outcome::Refused {
            cause,
            update: claim.update,
        },
    }
}

/// Returns an outcome that a client may mean and that the standard permits, whatever PTE it is by; one of the memory type
/// `first`, if there is one. `None`: there is none.
pub(crate) fn permitted_outcome(
    unit: &Mmu,
    extensions: Extensions,
    request: Request,
    claim: &Claim,
    first: MemoryType,
) -> Option<Outcome>
    requires { 1 ≤ request.width }
    ensures permitted { IfSome result (λ o. Permits extensions (past unit.now) request o) }
    ensures told { IfSome result (Tells claim.now) }
    ensures none { IfNone result ((o : Outcome) → Permits extensions (past unit.now) request o → Tells claim.now o → ⊥) }
{
    if first != MemoryType::Pma {
        let likely = meant(first, claim);
        if permits(unit, extensions, request, likely) {
            return Some(likely);
        }
    }
    let plain = meant(MemoryType::Pma, claim);
    if permits(unit, extensions, request, plain) {
        return Some(plain);
    }
    let uncached = meant(MemoryType::Nc, claim);
    if permits(unit, extensions, request, uncached) {
        return Some(uncached);
    }
    let device = meant(MemoryType::Io, claim);
    if permits(unit, extensions, request, device) {
        return Some(device);
    }
    None
}

/// Whether two PTEs that a hart wrote stand at one place.
fn is_at_place(update: Update, other: Update) -> bool {
    update.table == other.table && update.index == other.index
}

/// The memory type of an outcome, in words.
fn type_text(outcome: Outcome) -> &'static str {
    match outcome {
        Outcome::Granted {
            memory_type: MemoryType::Nc,
            ..
        } => "the memory type is nc, by PBMT 1",
        Outcome::Granted {
            memory_type: MemoryType::Io,
            ..
        } => "the memory type is io, by PBMT 2",
        _ => "the memory type is pma, by PBMT 0",
    }
}

/// Returns in what a permitted outcome of the same end, which is not what a client tells, is another: the PTE that the hart wrote, or the memory type.
pub(crate) fn difference(told: Option<Update>, outcome: Outcome) -> &'static str {
    let (Outcome::Granted { update, .. } | Outcome::Refused { update, .. }) = outcome;
    match (told, update) {
        (None, Some(_)) => "A or D is 0, and the hart sets them",
        (Some(_), None) if matches!(outcome, Outcome::Refused { .. }) => {
            "the access is refused before the hart sets A or D"
        }
        (Some(_), None) => "the PTE has what the access needs, so the hart sets nothing",
        (Some(told), Some(update)) if !is_at_place(told, update) => {
            "the PTE that the hart sets is at another place"
        }
        (Some(told), Some(update)) if told.word != update.word =>
            "the hart sets the PTE to another word",
        _ => type_text(outcome),
    }
}
