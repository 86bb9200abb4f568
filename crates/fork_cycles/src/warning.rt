// `Warning` (struct): what is told of lists that fork one another, with its line; `warn_of_forks` makes it.

ghost use Rattle.std.specs.Prelude.{◌≡◌, All, IfOk, None};
ghost use Rattle.fork_cycles.specs.Forks.{Ends};
ghost use Rattle.script_reader.specs.ThreadsPlayable.{IsThreadPlayable};

use crate::search::fork_cycle;
use script_reader::{ThreadScript, first_field, number, trim_return};
use std::alloc::{AllocError, Global};

/// What is told of lists that fork one another.
#[derive(Drop)]
pub struct Warning {
    /// The line in which the first of them forks the next, counted from 1.
    pub line: u64,
    /// The lists, as `list 0 forks list 2, which forks list 0`.
    pub text: String,
}

/// Returns the number after the first field of a line, if that field is this word.
fn number_after(line: &[u8], word: &[u8]) -> Option<u64> {
    let (first, rest) = first_field(line)?;
    if first != word {
        return None;
    }
    let (field, _) = first_field(rest)?;
    number(field)
}

/// Returns the number of the first line in which a list forks another, counted from 1; 0 if there is none.
fn fork_line(bytes: &[u8], list: u64, forked: u64) -> u64 {
    let mut open = None;
    let mut at = 0u64;
    for line in bytes.split(|byte| *byte == b'\n') {
        at = at.saturating_add(1);
        let line = trim_return(line);
        if let Some(begun) = number_after(line, b"list") {
            open = Some(begun);
        }
        if open == Some(list) && number_after(line, b"fork") == Some(forked) {
            return at;
        }
    }
    0
}

/// Returns a cycle of lists in words: the first, and those after it.
fn cycle_text(alloc: Global, first: usize, others: &[usize]) -> Result<String, AllocError> {
    let mut text = format!(in alloc; "list {first} forks ")?;
    for list in others {
        text.push_str(format!(in alloc; "list {list}, which forks ")?.as_str())?;
    }
    text.push_str(format!(in alloc; "list {first}")?.as_str())?;
    Ok(text)
}

/// Returns a warning that processes of a file for threads may fork for ever; `None` only if from no start on there is an endless chain
/// of forks. `bytes`: the file, for the number of the line.
///
/// # Errors
/// `AllocError`: host memory was refused.
pub fn warn_of_forks(
    alloc: Global,
    script: &ThreadScript,
    bytes: &[u8],
) -> Result<Option<Warning>, AllocError>
    requires { IsThreadPlayable script.now }
    ensures { IfOk result (λ warning. warning ≡ None → All (λ s. Ends (script.now).lists s.list) (script.now).starts) }
{
    let Some(cycle) = fork_cycle(alloc, script)? else {
        return Ok(None);
    };
    let (first, others) = match cycle.as_slice() {
        [first, others @ ..] => (*first, others),
        [] => (0, [].as_slice()),
    };
    let next = others.first().copied().unwrap_or(first);
    Ok(Some(Warning {
        line: fork_line(bytes, first as u64, next as u64),
        text: cycle_text(alloc, first, others)?,
    }))
}
