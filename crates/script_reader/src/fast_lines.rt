// Fast path of the script reader: `add_fast` finds the word of a common line after `boot`, reads the fields after it in one
// pass (`fast_path`), and adds the command that is made of them to the draft (what the lines so far declare and command). A
// line that the fast path cannot read is left to be read field by field.

ghost use Rattle.std.specs.Prelude.{◌≡◌, ℕ, IfSome, MatchOption, Ok, OnOk, codes, true};
ghost use Rattle.script_language.specs.Script as words;
ghost use Rattle.script_reader.specs.FastLines.{AddsCommand, AddsMade};
ghost use Rattle.script_reader.specs.FastPath.{SaysItem};
ghost use Rattle.script_reader.specs.FastWords.{letters};

use crate::accesses::{load, store};
use crate::calls::{copy_in, exit};
use crate::draft::Draft;
use crate::fast_path::{
    FastWord, five_numbers, four_via, number_slot, one_number, three_numbers, three_via,
    two_numbers, two_via, word_prefix,
};
use crate::number_prefixes::is_end;
use process_model::Step;
use script_language::{Cause, Command, Item, LONGEST_LINE};
use std::alloc::AllocError;

/// Adds the command that was made of a line. `None`: the line has a fault, and the draft is unchanged. Inlined, since the
/// caller may know which command it is.
#[inline(always)]
fn add_made(draft: &mut Draft, made: Result<Item, Cause>) -> Option<Result<(), AllocError>>
    ensures added { IfSome result (λ done. OnOk done (AddsMade draft.old draft.new made)) }
    ensures other { MatchOption result (draft.new ≡ draft.old) (λ _. Unit {0}) }
{
    let Ok(item) = made else {
        return None;
    };
    match item {
        Item::Command(command) => Some(draft.add_command(command)),
        Item::File(_) | Item::Image(_) | Item::Boot(_) => None,
    }
}

/// Returns what `load` and the fields after it make. `None`: to be read field by field.
#[inline(always)]
fn load_item(fields: &[u8]) -> Option<Result<Item, Cause>>
    ensures { IfSome result (λ made. SaysItem (codes "load") fields.now made) }
{
    let (hart, address, width, via) = three_via(fields)?;
    Some(load(hart as usize, address, width, via))
}

/// Returns what `store` and the fields after it make. `None`: to be read field by field.
#[inline(always)]
fn store_item(fields: &[u8]) -> Option<Result<Item, Cause>>
    ensures { IfSome result (λ made. SaysItem (codes "store") fields.now made) }
{
    let (hart, address, width, value, via) = four_via(fields)?;
    Some(store(hart as usize, address, width, value, via))
}

/// Returns what `exit` and the fields after it make. `None`: to be read field by field, as a status with a sign is.
fn exit_item(fields: &[u8]) -> Option<Result<Item, Cause>>
    ensures { IfSome result (λ made. SaysItem (codes "exit") fields.now made) }
{
    let (hart, status) = two_numbers(fields)?;
    let Ok(signed) = i64::try_from(status) else {
        return None;
    };
    Some(exit(hart as usize, signed))
}

/// `fast_item` of a word that one number follows.
#[inline(always)]
fn hart_item(word: FastWord, fields: &[u8]) -> Option<Result<Item, Cause>>
    ensures { IfSome result (λ made. SaysItem (letters word) fields.now made) }
{
    let Some(hart) = one_number(fields) else {
        return None;
    };
    let hart = hart as usize;
    match word {
        FastWord::Fix => Some(Ok(Item::Command(Command::Fix { hart }))),
        FastWord::Enter => Some(Ok(Item::Command(Command::Enter { hart }))),
        FastWord::Leave => Some(Ok(Item::Command(Command::Leave { hart }))),
        FastWord::Next => Some(Ok(Item::Command(Command::One(Step::Next { hart })))),
        FastWord::Trap => Some(Ok(Item::Command(Command::One(Step::Trap { hart })))),
        FastWord::Fork => Some(Ok(Item::Command(Command::One(Step::Fork { hart })))),
        _ => None,
    }
}

/// `fast_item` of a word that two numbers follow, or three or five.
#[inline(always)]
fn numbers_item(word: FastWord, fields: &[u8]) -> Option<Result<Item, Cause>>
    ensures { IfSome result (λ made. SaysItem (letters word) fields.now made) }
{
    match word {
        FastWord::On => {
            let (hart, slot) = two_numbers(fields)?;
            Some(Ok(Item::Command(Command::On {
                hart: hart as usize,
                slot: slot as usize,
            })))
        }
        FastWord::Fill => {
            let (hart, address) = two_numbers(fields)?;
            Some(Ok(Item::Command(Command::One(Step::Fill {
                hart: hart as usize,
                address,
            }))))
        }
        FastWord::CopyIn => {
            let (hart, address, count) = three_numbers(fields)?;
            Some(copy_in(hart as usize, address, count as usize))
        }
        FastWord::Mmap => {
            let (hart, length, protection, flags, file) = five_numbers(fields)?;
            Some(Ok(Item::Command(Command::One(Step::Mmap {
                hart: hart as usize,
                length,
                protection,
                flags,
                file: file as usize,
            }))))
        }
        FastWord::Munmap => {
            let (hart, address, length) = three_numbers(fields)?;
            Some(Ok(Item::Command(Command::One(Step::Munmap {
                hart: hart as usize,
                address,
                length,
            }))))
        }
        _ => None,
    }
}

/// Returns what a word and the fields after it make. `None`: to be read field by field.
fn fast_item(word: FastWord, fields: &[u8]) -> Option<Result<Item, Cause>>
    ensures { IfSome result (λ made. SaysItem (letters word) fields.now made) }
{
    match word {
        // `add_word` has cases of its own for these
        FastWord::Load | FastWord::Store => None,
        FastWord::Switch => {
            let (hart, slot) = number_slot(fields)?;
            Some(Ok(Item::Command(Command::One(Step::Switch {
                hart: hart as usize,
                slot,
            }))))
        }
        FastWord::Fetch => {
            let (hart, address, via) = two_via(fields)?;
            Some(Ok(Item::Command(Command::One(Step::Fetch {
                hart: hart as usize,
                address,
                via,
            }))))
        }
        FastWord::Exit => exit_item(fields),
        FastWord::On | FastWord::Fill | FastWord::CopyIn | FastWord::Mmap | FastWord::Munmap =>
            numbers_item(word, fields),
        _ => hart_item(word, fields),
    }
}

/// Adds the command of a word. `None`: the fast path does not parse its fields, and the draft is unchanged. Not inlined,
/// unlike the cases of `load` and `store` in `add_word`.
#[inline(never)]
fn add_other(draft: &mut Draft, word: FastWord, fields: &[u8]) -> Option<Result<(), AllocError>>
    ensures added { IfSome result (λ done. OnOk done (AddsCommand draft.old draft.new (letters word) fields.now)) }
    ensures other { MatchOption result (draft.new ≡ draft.old) (λ _. Unit {0}) }
{
    let made = fast_item(word, fields)?;
    add_made(draft, made)
}

/// Adds the command of a word. `None`: the fast path does not parse its fields, and the draft is unchanged. Loads
/// and stores, most lines of most scripts, are added where they are read, so that their kind need not be found out again.
#[inline(always)]
fn add_word(draft: &mut Draft, word: FastWord, fields: &[u8]) -> Option<Result<(), AllocError>>
    ensures added { IfSome result (λ done. OnOk done (AddsCommand draft.old draft.new (letters word) fields.now)) }
    ensures other { MatchOption result (draft.new ≡ draft.old) (λ _. Unit {0}) }
{
    match word {
        FastWord::Load => add_made(draft, load_item(fields)?),
        FastWord::Store => add_made(draft, store_item(fields)?),
        _ => add_other(draft, word, fields),
    }
}

/// Adds the command of a line of ASCII to the draft, if the fast path can parse it. `None`: it cannot; the draft is
/// unchanged, and the line is still to be read field by field. `Some(Err(AllocError))`: host memory was refused.
#[inline(always)]
pub fn add_fast(draft: &mut Draft, line: &[u8]) -> Option<Result<(), AllocError>>
    requires { words.is_ascii line.now ≡ true }
    ensures added { IfSome result (λ done. OnOk done ((n : ℕ) → words.with_line draft.old n (words.line_of draft.old line.now) ≡ Ok (draft.new, n))) }
    ensures other { MatchOption result (draft.new ≡ draft.old) (λ _. Unit {0}) }
{
    let (word, fields) = word_prefix(line)?;
    if !is_end(fields) || !draft.takes_commands() || line.len() > LONGEST_LINE {
        return None;
    }
    add_word(draft, word, fields)
}
