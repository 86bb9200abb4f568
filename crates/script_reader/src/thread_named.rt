// Parsers of the lines of a file for threads that name images or lists of calls (`list`, `start`, `exec`, `fork`), and of
// `pool`, the numbers of frames and slots. Each makes the line's item (what it declares or commands) and checks its limits.

ghost use Rattle.std.specs.Prelude.{◌≡◌};
ghost use Rattle.process_model.specs.declared.call.Call.TheVariants as call;
ghost use Rattle.script_language.specs.ReadLines.{in_limits};
ghost use Rattle.script_language.specs.ThreadScript as words;
ghost use Rattle.script_reader.specs.CallAlone.{call_alone};

use crate::field_access::index_at;
use crate::in_limits::in_limits;
use crate::thread_calls::one;
use crate::thread_draft::ThreadDraft;
use process_model::Call;
use script_language::{
    Cause, FieldValue, Keyword, ListedCall, ListedStart, MOST_LISTS, Pool, ThreadItem,
};

/// Makes the item of `pool FRAMES SLOTS`.
///
/// # Errors
/// `Limits`, exactly when a size is out of range: 1 to `MOST_SLOTS` slots, `FEWEST_FRAMES` to `MOST_SHARED_FRAMES` frames and
/// no fewer than the kernel takes.
pub fn pool(values: &[FieldValue]) -> Result<ThreadItem, Cause>
    ensures { result ≡ call_alone Keyword.Pool values.now }
{
    let pool = Pool {
        frames: index_at(values, 0),
        slots: index_at(values, 1),
    };
    in_limits(pool.is_usable(), ThreadItem::Pool(pool))
}

/// Makes the item of `list K`, after which the calls of list K follow.
///
/// # Errors
/// `Limits`, exactly when K is above 63, or a line before it began list K.
pub fn list(draft: &ThreadDraft, values: &[FieldValue]) -> Result<ThreadItem, Cause>
    ensures { result ≡ words.item_of draft.now Keyword.List values.now }
{
    let number = index_at(values, 0);
    let within = number < MOST_LISTS && !draft.has_list(number);
    in_limits(within, ThreadItem::List(number))
}

/// Makes the item of `start IMAGE K`: a process of the image, which makes the calls of list K.
///
/// # Errors
/// `Limits`, exactly when no image of this number was declared, or no line before it began list K.
pub fn start(draft: &ThreadDraft, values: &[FieldValue]) -> Result<ThreadItem, Cause>
    ensures { result ≡ words.item_of draft.now Keyword.Start values.now }
{
    let image = index_at(values, 0);
    let list = index_at(values, 1);
    let within = draft.has_image(image) && draft.has_list(list);
    in_limits(within, ThreadItem::Start(ListedStart { image, list }))
}

/// Makes the item of `exec IMAGE`.
///
/// # Errors
/// `Limits`, exactly when no image of this number was declared.
pub fn exec(draft: &ThreadDraft, values: &[FieldValue]) -> Result<ThreadItem, Cause>
    ensures { result ≡ words.item_of draft.now Keyword.Exec values.now }
{
    let image = index_at(values, 0);
    let call = ListedCall::Exec { image };
    in_limits(draft.has_image(image), ThreadItem::Call(call))
}

/// Makes the item of `fork K`: the child makes the calls of list K, which may be further down in the file.
///
/// # Errors
/// `Limits`, exactly when no line of the file begins list K.
pub fn fork(draft: &ThreadDraft, list: usize) -> Result<ThreadItem, Cause>
    ensures { result ≡ in_limits (words.is_named (draft.now).named list) (words.one (call.Fork list)) }
{
    in_limits(draft.is_named(list), one(Call::Fork { list }))
}
