// Makers of the items of the script lines `copyin` and `exit`, from the fields of the line, and `copyout`, from their values:
// kernel calls with limits. The others are made in `items` and `fast_lines`, `exec` in `named`.

ghost use Rattle.std.specs.Prelude.{◌≡◌, nat_le};
ghost use Rattle.process_model.specs.declared.step.Step.TheVariants as step;
ghost use Rattle.script_language.specs.Script as words;
ghost use Rattle.script_reader.specs.Alone.{item_alone};

use crate::field_access::{index_at, number_at, take_bytes};
use crate::in_limits::{in_limits, one};
use process_model::{LONGEST_COPY, Step};
use script_language::{Cause, Command, FieldValue, Item, Keyword};
use std::alloc::Global;

/// Makes the item of `copyin HART ADDRESS COUNT`.
///
/// # Errors
/// `Limits`, exactly when COUNT is above `LONGEST_COPY` bytes.
pub fn copy_in(hart: usize, address: u64, count: usize) -> Result<Item, Cause>
    ensures { result ≡ words.in_limits (nat_le count LONGEST_COPY) (words.one (step.CopyIn hart address count)) }
{
    let step = Step::CopyIn {
        hart,
        address,
        count,
    };
    in_limits(count <= LONGEST_COPY, one(step))
}

/// Makes the item of `copyout HART ADDRESS HEX`.
///
/// # Errors
/// `Limits`, exactly when HEX has more than `LONGEST_COPY` bytes.
pub fn copy_out(alloc: Global, values: Vec<FieldValue>) -> Result<Item, Cause>
    ensures { result ≡ item_alone Keyword.CopyOut values.items }
{
    let hart = index_at(&values, 0);
    let address = number_at(&values, 1);
    let bytes = take_bytes(alloc, values, 2);
    let within = bytes.as_slice().len() <= LONGEST_COPY;
    let command = Command::CopyOut {
        hart,
        address,
        bytes,
    };
    in_limits(within, Item::Command(command))
}

/// Makes the item of `exit HART STATUS`.
///
/// # Errors
/// `Limits`, exactly when STATUS is below -2^31 or above 2^31 - 1.
pub fn exit(hart: usize, status: i64) -> Result<Item, Cause>
    ensures { result ≡ words.in_limits (words.is_status status) (words.one (step.Exit hart status)) }
{
    let Ok(status) = i32::try_from(status) else {
        return Err(Cause::Limits);
    };
    Ok(one(Step::Exit { hart, status }))
}
