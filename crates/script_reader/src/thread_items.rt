// `make_item`: calls the maker that belongs to the word of a line of a file for threads, and returns the line's item: a
// file, an image, the pool (numbers of frames and slots), the beginning of a list, a call, or a start.

ghost use Rattle.std.specs.Prelude.{◌≡◌, false};
ghost use Rattle.script_language.specs.ThreadScript as words;
ghost use Rattle.script_reader.specs.OwningWords.{owns_values};
ghost use Rattle.script_reader.specs.ReadResults.{GivesLine};

use crate::declarations::{elf, file, image};
use crate::fault::LineFault;
use crate::field_access::{index_at, number_at, signed_at};
use crate::in_limits::of_line;
use crate::thread_calls::{copy_in, copy_out, exit, load, one, store};
use crate::thread_draft::ThreadDraft;
use crate::thread_named::{exec, fork, list, pool, start};
use process_model::Call;
use script_language::{Cause, FieldValue, Keyword, ThreadItem};
use std::alloc::Global;

/// Makes the item of a line from its word and the values after it, unless the item of the word takes the values over:
/// `Cause::Word` for such a word.
///
/// # Errors
/// `Limits`: a value is outside its limits. `Word`: only scripts have this word.
fn number_item(draft: &ThreadDraft, word: Keyword, v: &[FieldValue]) -> Result<ThreadItem, Cause>
    ensures { owns_values word ≡ false → result ≡ words.item_of draft.now word v.now }
{
    let first = number_at(v, 0);
    let second = number_at(v, 1);
    let third = number_at(v, 2);
    match word {
        Keyword::Pool => pool(v),
        Keyword::List => list(draft, v),
        Keyword::Start => start(draft, v),
        Keyword::Exec => exec(draft, v),
        Keyword::Exit => exit(v),
        Keyword::Fork => fork(draft, first as usize),
        Keyword::Load => load(first, second),
        Keyword::Store => store(first, second, third),
        Keyword::CopyIn => copy_in(first, second as usize),
        Keyword::Fetch => Ok(one(Call::Fetch { address: first })),
        Keyword::Sbrk => Ok(one(Call::Sbrk {
            delta: signed_at(v, 0),
        })),
        Keyword::Mmap => Ok(one(Call::Mmap {
            length: first,
            protection: second,
            flags: third,
            file: index_at(v, 3),
        })),
        Keyword::Munmap => Ok(one(Call::Munmap {
            address: first,
            length: second,
        })),
        Keyword::File
        | Keyword::Image
        | Keyword::Elf
        | Keyword::CopyOut
        | Keyword::Boot
        | Keyword::Switch
        | Keyword::Trap
        | Keyword::Next
        | Keyword::Fill
        | Keyword::Evict
        | Keyword::Tramp
        | Keyword::Serve
        | Keyword::Show
        | Keyword::Audit
        | Keyword::On
        | Keyword::Enter
        | Keyword::Leave
        | Keyword::Fix => Err(Cause::Word),
    }
}

/// Makes the item of a line from its word and the values after it. `draft` has the images declared by the lines before it,
/// the lists that they begin, and the numbers of all lists of the file.
///
/// # Errors
/// `Cause(Limits)`: a value is outside its limits. `Cause(Word)`: only scripts have this word. `Memory`:
/// host memory was refused.
#[tactic(auto, using(crate::proofs::OwningWords::owns_none))]
pub fn make_item(
    alloc: Global,
    draft: &ThreadDraft,
    word: Keyword,
    values: Vec<FieldValue>,
) -> Result<ThreadItem, LineFault>
    ensures { GivesLine (λ x. x) result (words.item_of draft.now word values.items) }
{
    match word {
        Keyword::File => Ok(ThreadItem::File(file(alloc, values)?)),
        Keyword::Image => Ok(ThreadItem::Image(image(alloc, values)?)),
        Keyword::Elf => Ok(ThreadItem::Image(elf(alloc, values))),
        Keyword::CopyOut => of_line(copy_out(alloc, values)),
        _ => of_line(number_item(draft, word, values.as_slice())),
    }
}
