// `make_item`: calls the maker that belongs to the word of a script line, and returns the line's item: a declared file or
// image, the configuration of `boot`, or a command.

ghost use Rattle.std.specs.Prelude.{◌≡◌, false};
ghost use Rattle.script_language.specs.Script as words;
ghost use Rattle.script_reader.specs.OwningWords.{owns_values};
ghost use Rattle.script_reader.specs.ReadResults.{GivesLine};

use crate::accesses::{load, store};
use crate::calls::{copy_in, copy_out, exit};
use crate::declarations::{boot, elf, file, image};
use crate::draft::Draft;
use crate::fault::LineFault;
use crate::field_access::{index_at, number_at, optional_at, signed_at};
use crate::in_limits::{of_line, one};
use crate::named::{exec, show, start};
use process_model::Step;
use script_language::{Cause, Command, FieldValue, Item, Keyword};
use std::alloc::Global;

/// Makes the item of a line from its word and the values after it, unless the item of the word takes the values over:
/// `Cause::Word` for such a word.
///
/// # Errors
/// `Limits`: a value is outside its limits. `Word`: `pool` and `list`, which only a file for threads may have.
fn number_item(draft: &Draft, word: Keyword, v: &[FieldValue]) -> Result<Item, Cause>
    ensures { owns_values word ≡ false → result ≡ words.item_of draft.now word v.now }
{
    let hart = index_at(v, 0);
    let first = number_at(v, 1);
    let second = number_at(v, 2);
    match word {
        Keyword::Boot => boot(v),
        Keyword::Start => start(draft, v),
        Keyword::Exec => exec(draft, v),
        Keyword::Show => show(draft, v),
        Keyword::Load => load(hart, first, second, optional_at(v, 3)),
        Keyword::Store => store(hart, first, second, number_at(v, 3), optional_at(v, 4)),
        Keyword::CopyIn => copy_in(hart, first, second as usize),
        Keyword::Exit => exit(hart, signed_at(v, 1)),
        Keyword::Switch => Ok(one(Step::Switch {
            hart,
            slot: optional_at(v, 1),
        })),
        Keyword::Trap => Ok(one(Step::Trap { hart })),
        Keyword::Next => Ok(one(Step::Next { hart })),
        Keyword::Fill => Ok(one(Step::Fill {
            hart,
            address: first,
        })),
        Keyword::Evict => Ok(one(Step::Evict {
            hart,
            entry: first as usize,
        })),
        Keyword::Fetch => Ok(one(Step::Fetch {
            hart,
            address: first,
            via: optional_at(v, 2),
        })),
        Keyword::Tramp => Ok(one(Step::TrampolineFetch {
            hart,
            offset: first,
            via: optional_at(v, 2),
        })),
        Keyword::Serve => Ok(one(Step::Serve { hart })),
        Keyword::Fork => Ok(one(Step::Fork { hart })),
        Keyword::Sbrk => Ok(one(Step::Sbrk {
            hart,
            delta: signed_at(v, 1),
        })),
        Keyword::Mmap => Ok(one(Step::Mmap {
            hart,
            length: first,
            protection: second,
            flags: number_at(v, 3),
            file: index_at(v, 4),
        })),
        Keyword::Munmap => Ok(one(Step::Munmap {
            hart,
            address: first,
            length: second,
        })),
        Keyword::Audit => Ok(Item::Command(Command::Audit)),
        Keyword::On => Ok(Item::Command(Command::On {
            hart,
            slot: first as usize,
        })),
        Keyword::Enter => Ok(Item::Command(Command::Enter { hart })),
        Keyword::Leave => Ok(Item::Command(Command::Leave { hart })),
        Keyword::Fix => Ok(Item::Command(Command::Fix { hart })),
        Keyword::File
        | Keyword::Image
        | Keyword::Elf
        | Keyword::CopyOut
        | Keyword::Pool
        | Keyword::List => Err(Cause::Word),
    }
}

/// Makes the item of a line from its word and the values after it. `draft` has what the lines before it declare: the images
/// and files that `start`, `exec` and `show` may name.
///
/// # Errors
/// `Cause(Limits)`: a value is outside its limits. `Cause(Word)`: `pool` and `list`, which only a file for threads may have.
/// `Memory`: host memory was refused.
#[tactic(auto, using(crate::proofs::OwningWords::owns_none))]
pub fn make_item(
    alloc: Global,
    draft: &Draft,
    word: Keyword,
    values: Vec<FieldValue>,
) -> Result<Item, LineFault>
    ensures { GivesLine (λ x. x) result (words.item_of draft.now word values.items) }
{
    match word {
        Keyword::File => Ok(Item::File(file(alloc, values)?)),
        Keyword::Image => Ok(Item::Image(image(alloc, values)?)),
        Keyword::Elf => Ok(Item::Image(elf(alloc, values))),
        Keyword::CopyOut => of_line(copy_out(alloc, values)),
        _ => of_line(number_item(draft, word, values.as_slice())),
    }
}
