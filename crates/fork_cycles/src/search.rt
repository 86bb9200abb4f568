// `fork_cycle`: looks from each start along the forks, depth first, for a list that is on its own path.

ghost use Rattle.std.specs.Prelude.{◌≡◌, ◌<◌, ◌∷◌, ◌++◌, ℕ, List, [], All, IfOk, IfSome, None};
ghost use Rattle.script_language.specs.declared.declarations.CallList.{CallList};
ghost use Rattle.script_reader.specs.ThreadsPlayable.{IsThreadPlayable};
ghost use Rattle.fork_cycles.specs.Forks.{Ends, IsCycleFrom, IsForkCycle};
ghost use Rattle.fork_cycles.specs.Search.{IsSearch, IsMarked, Closes, work};

use crate::forks::{calls_of, next_fork, part_from};
use crate::marks::{Mark, mark_of, set_mark};
use script_language::{CallList, ListedStart, MOST_LISTS};
use script_reader::ThreadScript;
use std::alloc::{AllocError, Global};

/// Looks at the last list of a path, which was taken from it: puts back that list and the next that it forks; or neither, if all that it
/// forks has ended. `Some`: that next list is on the path already.
fn step(
    lists: &[CallList],
    marks: &mut [Mark; MOST_LISTS],
    path: &mut Vec<usize>,
    last: usize,
) -> Result<Option<usize>, AllocError>
    ensures kept { IfOk result (λ next. (first : ℕ) → IsSearch lists.now first marks.old (path.old.items ++ last ∷ []) → next ≡ None
        → IsSearch lists.now first marks.new path.new.items) }
    ensures less { IfOk result (λ next. next ≡ None → work marks.new path.new.items < work marks.old (path.old.items ++ last ∷ [])) }
    ensures closes { IfOk result (λ next. (first : ℕ) → IsSearch lists.now first marks.old (path.old.items ++ last ∷ [])
        → IfSome next (Closes lists.now first path.new.items)) }
{
    let Some(next) = next_fork(calls_of(lists, last), marks) else {
        set_mark(marks, last, Mark::Ended);
        return Ok(None);
    };
    path.push(last)?;
    match mark_of(marks, next) {
        Mark::OnPath => Ok(Some(next)),
        Mark::New | Mark::Ended => {
            set_mark(marks, next, Mark::OnPath);
            path.push(next)?;
            Ok(None)
        }
    }
}

/// Puts the first list on an empty path, unless it was looked at.
fn begin(
    marks: &mut [Mark; MOST_LISTS],
    path: &mut Vec<usize>,
    first: usize,
) -> Result<(), AllocError>
    ensures { IfOk result (λ _. (lists : List CallList) → IsMarked lists marks.old → path.old.items ≡ [] → IsSearch lists first marks.new path.new.items) }
{
    match mark_of(marks, first) {
        Mark::New => {
            set_mark(marks, first, Mark::OnPath);
            path.push(first)?;
            Ok(())
        }
        Mark::OnPath | Mark::Ended => Ok(()),
    }
}

/// Looks along the forks from a list on for a list that is on its own path.
fn walk(
    alloc: Global,
    lists: &[CallList],
    marks: &mut [Mark; MOST_LISTS],
    first: usize,
) -> Result<Option<Vec<usize>>, AllocError>
    requires { IsMarked lists.now marks.old }
    ensures cycle { IfOk result (λ found. IfSome found (λ cycle. IsForkCycle lists.now first cycle.items)) }
    ensures marked { IfOk result (λ found. found ≡ None → IsMarked lists.now marks.new) }
    ensures ends { IfOk result (λ found. found ≡ None → Ends lists.now first) }
{
    let mut path = Vec::new(alloc);
    begin(marks, &mut path, first)?;
    'path: while let Some(last) = path.pop() {
        if let Some(next) = step(lists, marks, &mut path, last)? {
            return Ok(Some(Vec::from_slice(alloc, part_from(path.as_slice(), next))?));
        }
    }
    Ok(None)
}

/// Looks from each start for a cycle of forks.
fn first_cycle(
    alloc: Global,
    lists: &[CallList],
    starts: &[ListedStart],
) -> Result<Option<Vec<usize>>, AllocError>
    requires { All (λ l. l.number < MOST_LISTS) lists.now }
    ensures cycle { IfOk result (λ found. IfSome found (λ cycle. IsCycleFrom lists.now starts.now cycle.items)) }
    ensures ends { IfOk result (λ found. found ≡ None → All (λ s. Ends lists.now s.list) starts.now) }
{
    let mut marks = [Mark::New; MOST_LISTS];
    for start in starts {
        if let Some(cycle) = walk(alloc, lists, &mut marks, start.list)? {
            return Ok(Some(cycle));
        }
    }
    Ok(None)
}

/// Returns numbers of lists of a file for threads, each of which forks the next, and the last the first; a process of a start comes to
/// the first by forks. `None`: from no start on is there an endless chain of forks. Calls after an exit do not count, as they are not made.
///
/// # Errors
/// `AllocError`: host memory was refused.
pub fn fork_cycle(alloc: Global, script: &ThreadScript) -> Result<Option<Vec<usize>>, AllocError>
    requires { IsThreadPlayable script.now }
    ensures cycle { IfOk result (λ found. IfSome found (λ cycle. IsCycleFrom (script.now).lists (script.now).starts cycle.items)) }
    ensures ends { IfOk result (λ found. found ≡ None → All (λ s. Ends (script.now).lists s.list) (script.now).starts) }
{
    first_cycle(alloc, script.lists(), script.starts())
}
