// Fast path of the reader of files for threads: `add_fast` finds the word of a common call (`load`, `store`, `fetch`,
// `copyin` or `fork`, and numbers), reads the fields after it in one pass (`fast_path`), and adds the call that the makers of
// the reader make of them to the open list of the draft (what the lines so far declare). A line that the fast path cannot read
// is left to be read field by field.

ghost use Rattle.std.specs.Prelude.{◌≡◌, ℕ, IfSome, MatchOption, Ok, OnOk, codes, true};
ghost use Rattle.script_language.specs.ReadLines.{is_ascii, with_said};
ghost use Rattle.script_language.specs.ThreadScript as words;
ghost use Rattle.script_reader.specs.FastWords.{letters};
ghost use Rattle.script_reader.specs.ThreadFastLines.{AddsCall, AddsMade, SaysItem, takes_calls};

use crate::fast_path::{
    FastWord, one_address, one_number, three_numbers, two_numbers, word_prefix,
};
use crate::number_prefixes::is_end;
use crate::thread_calls::{copy_in, load, one, store};
use crate::thread_draft::ThreadDraft;
use crate::thread_named::fork;
use process_model::Call;
use script_language::{Cause, LONGEST_LINE, ThreadItem};
use std::alloc::AllocError;

/// Adds the call that was made of a line. `None`: the line has a fault, and the draft is unchanged. Inlined, since the caller
/// may know which call it is.
#[inline(always)]
fn add_made(
    draft: &mut ThreadDraft,
    made: Result<ThreadItem, Cause>,
) -> Option<Result<(), AllocError>>
    requires { takes_calls draft.old ≡ true }
    ensures added { IfSome result (λ done. OnOk done (AddsMade draft.old draft.new made)) }
    ensures other { MatchOption result (draft.new ≡ draft.old) (λ _. Unit {0}) }
{
    let Ok(item) = made else {
        return None;
    };
    match item {
        ThreadItem::Call(call) => Some(draft.add_call(call)),
        ThreadItem::File(_)
        | ThreadItem::Image(_)
        | ThreadItem::Pool(_)
        | ThreadItem::List(_)
        | ThreadItem::Start(_) => None,
    }
}

/// Returns what `load` and the fields after it make. `None`: to be read field by field.
#[inline(always)]
fn load_item(fields: &[u8]) -> Option<Result<ThreadItem, Cause>>
    ensures { IfSome result (λ made. (s : words.ThreadDraft) → SaysItem s (codes "load") fields.now made) }
{
    let (address, width) = two_numbers(fields)?;
    Some(load(address, width))
}

/// Returns what `store` and the fields after it make. `None`: to be read field by field.
#[inline(always)]
fn store_item(fields: &[u8]) -> Option<Result<ThreadItem, Cause>>
    ensures { IfSome result (λ made. (s : words.ThreadDraft) → SaysItem s (codes "store") fields.now made) }
{
    let (address, width, value) = three_numbers(fields)?;
    Some(store(address, width, value))
}

/// Returns what a word and the fields after it make. `None`: to be read field by field.
fn fast_item(
    draft: &ThreadDraft,
    word: FastWord,
    fields: &[u8],
) -> Option<Result<ThreadItem, Cause>>
    ensures { IfSome result (λ made. SaysItem draft.now (letters word) fields.now made) }
{
    match word {
        FastWord::Fetch => {
            let address = one_address(fields)?;
            Some(Ok(one(Call::Fetch { address })))
        }
        FastWord::CopyIn => {
            let (address, count) = two_numbers(fields)?;
            Some(copy_in(address, count as usize))
        }
        FastWord::Fork => {
            let list = one_number(fields)?;
            Some(fork(draft, list as usize))
        }
        // `load` and `store`, for which `add_word` has cases of its own; words of scripts alone
        _ => None,
    }
}

/// Adds the call of a word. `None`: the fast path does not parse its fields, and the draft is unchanged. Not inlined, unlike
/// the cases of `load` and `store` in `add_word`.
#[inline(never)]
fn add_other(
    draft: &mut ThreadDraft,
    word: FastWord,
    fields: &[u8],
) -> Option<Result<(), AllocError>>
    requires { takes_calls draft.old ≡ true }
    ensures added { IfSome result (λ done. OnOk done (AddsCall draft.old draft.new (letters word) fields.now)) }
    ensures other { MatchOption result (draft.new ≡ draft.old) (λ _. Unit {0}) }
{
    let made = fast_item(draft, word, fields)?;
    add_made(draft, made)
}

/// Adds the call of a word. `None`: the fast path does not parse its fields, and the draft is unchanged. Loads and stores,
/// most lines of most files, are added where they are read.
#[inline(always)]
fn add_word(
    draft: &mut ThreadDraft,
    word: FastWord,
    fields: &[u8],
) -> Option<Result<(), AllocError>>
    requires { takes_calls draft.old ≡ true }
    ensures added { IfSome result (λ done. OnOk done (AddsCall draft.old draft.new (letters word) fields.now)) }
    ensures other { MatchOption result (draft.new ≡ draft.old) (λ _. Unit {0}) }
{
    match word {
        FastWord::Load => add_made(draft, load_item(fields)?),
        FastWord::Store => add_made(draft, store_item(fields)?),
        _ => add_other(draft, word, fields),
    }
}

/// Adds the call of a line of ASCII to the draft, if the fast path can parse it. `None`: it cannot; the draft is unchanged,
/// and the line is still to be read field by field. `Some(Err(AllocError))`: host memory was refused.
#[inline(always)]
pub fn add_fast(draft: &mut ThreadDraft, line: &[u8]) -> Option<Result<(), AllocError>>
    requires { is_ascii line.now ≡ true }
    ensures added { IfSome result (λ done. OnOk done ((n : ℕ) → with_said words.with_item draft.old n (words.line_of draft.old line.now) ≡ Ok (draft.new, n))) }
    ensures other { MatchOption result (draft.new ≡ draft.old) (λ _. Unit {0}) }
{
    let (word, fields) = word_prefix(line)?;
    if !is_end(fields) || !draft.takes_calls() || line.len() > LONGEST_LINE {
        return None;
    }
    add_word(draft, word, fields)
}
