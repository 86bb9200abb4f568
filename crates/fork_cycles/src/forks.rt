// What a list of calls forks: `calls_of`, the calls of a list by its number; `next_fork`, the first list that they fork and that has
// not ended; `part_from`, a path from a list on.

ghost use Rattle.std.specs.Prelude.{◌≡◌};
ghost use Rattle.fork_cycles.specs.Forks.{calls_in, forked_by};
ghost use Rattle.fork_cycles.specs.Search.{first_unended, part_from};

use crate::marks::{Mark, mark_of};
use process_model::Call;
use script_language::{CallList, ListedCall, MOST_LISTS};

/// Returns the calls of the list of this number, none if there is no such list.
pub fn calls_of(lists: &[CallList], number: usize) -> &[ListedCall]
    ensures { result.now ≡ calls_in lists.now number }
{
    for list in lists {
        if list.number == number {
            return list.calls.as_slice();
        }
    }
    &[]
}

/// Returns the first list that the calls fork, before an exit, and that has not ended.
pub fn next_fork(calls: &[ListedCall], marks: &[Mark; MOST_LISTS]) -> Option<usize>
    ensures { result ≡ first_unended marks.now (forked_by calls.now) }
{
    for call in calls {
        match call {
            ListedCall::One(Call::Exit { .. }) => return None,
            ListedCall::One(Call::Fork { list }) => match mark_of(marks, *list) {
                Mark::Ended => {}
                Mark::New | Mark::OnPath => return Some(*list),
            },
            _ => {}
        }
    }
    None
}

/// Returns the path from a list on, nothing if the list is not on it.
pub fn part_from(path: &[usize], list: usize) -> &[usize]
    ensures { result.now ≡ part_from list path.now }
{
    let mut left = path;
    'left: while let [first, rest @ ..] = left {
        if *first == list {
            return left;
        }
        left = rest;
    }
    left
}
