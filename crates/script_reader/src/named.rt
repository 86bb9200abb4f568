// Makers of the items of script lines that name a declared image or file (`start`, `exec`, `show`), from the values of the
// line's fields.

ghost use Rattle.std.specs.Prelude.{◌≡◌};
ghost use Rattle.script_language.specs.Script as words;

use crate::draft::Draft;
use crate::field_access::{index_at, number_at};
use crate::in_limits::in_limits;
use process_model::LONGEST_COPY;
use script_language::{Cause, Command, FieldValue, Item, Keyword};

/// Makes the command of `start IMAGE`.
///
/// # Errors
/// `Limits`, exactly when no image of this number was declared.
pub fn start(draft: &Draft, values: &[FieldValue]) -> Result<Item, Cause>
    ensures { result ≡ words.item_of draft.now Keyword.Start values.now }
{
    let image = index_at(values, 0);
    in_limits(
        draft.has_image(image),
        Item::Command(Command::Start { image }),
    )
}

/// Makes the command of `exec HART IMAGE`.
///
/// # Errors
/// `Limits`, exactly when no image of this number was declared.
pub fn exec(draft: &Draft, values: &[FieldValue]) -> Result<Item, Cause>
    ensures { result ≡ words.item_of draft.now Keyword.Exec values.now }
{
    let hart = index_at(values, 0);
    let image = index_at(values, 1);
    in_limits(
        draft.has_image(image),
        Item::Command(Command::Exec { hart, image }),
    )
}

/// Makes the command of `show FILE OFFSET COUNT`.
///
/// # Errors
/// `Limits`, exactly when no file of this number was declared, or COUNT is above `LONGEST_COPY` bytes.
pub fn show(draft: &Draft, values: &[FieldValue]) -> Result<Item, Cause>
    ensures { result ≡ words.item_of draft.now Keyword.Show values.now }
{
    let file = index_at(values, 0);
    let offset = number_at(values, 1);
    let count = index_at(values, 2);
    let within = draft.has_file(file) && count <= LONGEST_COPY;
    let command = Command::Show {
        file,
        offset,
        count,
    };
    in_limits(within, Item::Command(command))
}
