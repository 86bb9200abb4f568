// Helpers of the parsers of single lines: `in_limits`, which returns cause `Limits` unless the values keep their limits; `one`,
// the item (what a line declares or commands) of a script line that is one step; `of_line`, what was made of a line as the
// line's result.

ghost use Rattle.std.specs.Prelude.{◌≡◌};
ghost use Rattle.script_language.specs.Script as words;
ghost use Rattle.script_reader.specs.ReadResults.{GivesLine};

use crate::fault::LineFault;
use process_model::Step;
use script_language::{Cause, Command, Item};

/// Returns `said`, the item of a line whose values were checked.
///
/// # Errors
/// `Limits`, exactly when `within` is false.
pub fn in_limits<T: Drop>(within: bool, said: T) -> Result<T, Cause>
    ensures { result ≡ words.in_limits within said }
{
    if within { Ok(said) } else { Err(Cause::Limits) }
}

/// Returns the item of a line that is one step. Inlined, since the caller may know which step it is.
#[inline(always)]
pub fn one(step: Step<'static>) -> Item
    ensures { result ≡ words.one step.entry }
{
    Item::Command(Command::One(step))
}

/// Returns what was made of a line as the result for the line: a cause becomes the line's fault.
pub fn of_line<T: Drop>(made: Result<T, Cause>) -> Result<T, LineFault>
    ensures { GivesLine (λ x. x) result made }
{
    match made {
        Ok(item) => Ok(item),
        Err(cause) => Err(LineFault::Cause(cause)),
    }
}
