// `Mark` (enum): how far the search is with a list of calls. `mark_of`, `set_mark`: the mark of a list by its number.

ghost use Rattle.std.specs.Prelude.{◌≡◌, set};
ghost use Rattle.fork_cycles.specs.Search.{mark_of};

use script_language::MOST_LISTS;

/// How far the search is with a list of calls.
#[derive(Clone, Copy)]
pub enum Mark {
    /// It was not looked at.
    New,
    /// It is on the path from a start to the list that is looked at.
    OnPath,
    /// There is no endless chain of forks from it on.
    Ended,
}

/// Returns the mark of a list; `Ended` if there is no list of this number.
pub fn mark_of(marks: &[Mark; MOST_LISTS], list: usize) -> Mark
    ensures { result ≡ mark_of marks.now list }
{
    match marks.get(list) {
        Some(mark) => *mark,
        None => Mark::Ended,
    }
}

/// Sets the mark of a list, if there is a list of this number.
#[tactic(auto, using(std::proofs::lemmas::List::set_past))]
pub fn set_mark(marks: &mut [Mark; MOST_LISTS], list: usize, mark: Mark)
    ensures { marks.new ≡ set marks.old list mark }
{
    if list < MOST_LISTS {
        marks[list] = mark;
    }
}
