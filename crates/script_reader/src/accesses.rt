// Makers of the items of the script lines `load` and `store`, a hart's user accesses, from the fields of the line: each refuses
// a width other than 1, 2, 4 and 8 bytes. Inlined, so that the item need not go through memory.

ghost use Rattle.std.specs.Prelude.{◌≡◌};
ghost use Rattle.process_model.specs.Bytes as bytes;
ghost use Rattle.process_model.specs.declared.step.Step.TheVariants as step;
ghost use Rattle.script_language.specs.Script as words;

use crate::in_limits::one;
use process_model::{Step, is_width};
use script_language::{Cause, Item};

/// Makes the item of `load HART ADDRESS WIDTH [@ENTRY]`; without `@ENTRY` the access walks the page table.
///
/// # Errors
/// `Limits`, exactly when WIDTH is none of 1, 2, 4 and 8 bytes.
#[inline(always)]
pub fn load(hart: usize, address: u64, width: u64, via: Option<usize>) -> Result<Item, Cause>
    ensures { result ≡ words.in_limits (bytes.is_width width) (words.one (step.Load hart address width via)) }
{
    if !is_width(width) {
        return Err(Cause::Limits);
    }
    Ok(one(Step::Load {
        hart,
        address,
        width,
        via,
    }))
}

/// Makes the item of `store HART ADDRESS WIDTH VALUE [@ENTRY]`; without `@ENTRY` the access walks the page table.
///
/// # Errors
/// `Limits`, exactly when WIDTH is none of 1, 2, 4 and 8 bytes.
#[inline(always)]
pub fn store(
    hart: usize,
    address: u64,
    width: u64,
    value: u64,
    via: Option<usize>,
) -> Result<Item, Cause>
    ensures { result ≡ words.in_limits (bytes.is_width width) (words.one (step.Store hart address width value via)) }
{
    if !is_width(width) {
        return Err(Cause::Limits);
    }
    Ok(one(Step::Store {
        hart,
        address,
        width,
        value,
        via,
    }))
}
