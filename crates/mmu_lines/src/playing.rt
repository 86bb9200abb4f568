// `play`: plays those of some lines that are kept, and then the line behind them.

ghost use Rattle.std.specs.Prelude.{◌≡◌, ⊤, true, IfOk, IsTrue, MatchOption, slice_get};
ghost use Rattle.mmu_lines.specs.States.{begun, state_of};
ghost use Rattle.mmu_lines.specs.Playing.{GoesIf, IfFine, IsDenied, IsLast, denies};
ghost use Rattle.mmu_requests.specs.Profiles.{plain_with};

use crate::line::Line;
use crate::player::MmuPlayer;
use mmu_reasons::Answer;
use std::alloc::{AllocError, Global};

/// Whether an answer is `NOT permitted`.
pub(crate) fn denies(answer: &Answer) -> bool
    ensures { result ≡ denies answer.now }
{
    matches!(answer, Answer::NotPermitted { .. })
}

/// Whether there is an answer, and nothing is amiss with it.
fn is_fine(answer: Option<Answer>) -> bool
    ensures { IsTrue result → IfFine answer }
{
    match answer {
        Some(answer) => !answer.is_amiss(),
        None => false,
    }
}

/// Gives a player the line of a number, if it is kept, and returns whether nothing is amiss with its answer.
///
/// # Errors
/// `AllocError`: the host is out of memory.
fn go(player: &mut MmuPlayer, lines: &[Line], keeps: &[bool], n: usize) -> Result<bool, AllocError>
    ensures { IfOk result (λ fine. GoesIf fine (slice_get keeps.now n) (slice_get lines.now n) (state_of player.old) (state_of player.new)) }
{
    if keeps.get(n) != Some(&true) {
        return Ok(true);
    }
    match lines.get(n) {
        Some(line) => Ok(is_fine(player.line(line.text.as_slice())?)),
        None => Ok(false),
    }
}

/// Gives a player the line of a number, and returns its answer if that is `NOT permitted`.
///
/// # Errors
/// `AllocError`: the host is out of memory.
fn end(player: &mut MmuPlayer, lines: &[Line], n: usize) -> Result<Option<Answer>, AllocError>
    ensures { IfOk result (λ answer. MatchOption answer ⊤ (IsLast (slice_get lines.now n) (state_of player.old))) }
{
    let Some(line) = lines.get(n) else {
        return Ok(None);
    };
    match player.line(line.text.as_slice())? {
        Some(answer) if denies(&answer) => Ok(Some(answer)),
        _ => Ok(None),
    }
}

/// Plays those of the first lines that are kept, and then the line behind them. Returns the answer to that one if it is `NOT permitted` and
/// none before it is amiss.
///
/// # Errors
/// `AllocError`: the host is out of memory.
fn play_with(
    player: &mut MmuPlayer,
    lines: &[Line],
    keeps: &[bool],
) -> Result<Option<Answer>, AllocError>
    requires { state_of player.old ≡ begun (plain_with true) }
    ensures { IfOk result (λ answer. MatchOption answer ⊤ (IsDenied lines.now keeps.now)) }
{
    'lines: for n in 0..keeps.len() {
        if !go(player, lines, keeps, n)? {
            return Ok(None);
        }
    }
    end(player, lines, keeps.len())
}

/// Plays, with a new player, those of the first lines that are kept, and then the line behind them. Returns the answer to that one if it
/// is `NOT permitted` and none before it is amiss.
///
/// # Errors
/// `AllocError`: the host is out of memory.
pub fn play(alloc: Global, lines: &[Line], keeps: &[bool]) -> Result<Option<Answer>, AllocError>
    ensures { IfOk result (λ answer. MatchOption answer ⊤ (IsDenied lines.now keeps.now)) }
{
    play_with(&mut MmuPlayer::new(alloc), lines, keeps)
}
