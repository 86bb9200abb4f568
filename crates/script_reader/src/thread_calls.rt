// Makers of the items of calls in a file for threads that have limits and name no image and no list: `load`, `store`, `copyin`,
// `copyout`, `exit`, written as in scripts but without their hart. Each makes the item (what a line declares or commands) from
// the fields of the line, or from their values. And `one`, the item of a call without limits.

ghost use Rattle.std.specs.Prelude.{◌≡◌, nat_le};
ghost use Rattle.process_model.specs.Bytes as bytes;
ghost use Rattle.process_model.specs.declared.call.Call.TheVariants as call;
ghost use Rattle.script_language.specs.ReadLines.{in_limits};
ghost use Rattle.script_language.specs.ThreadScript as words;
ghost use Rattle.script_reader.specs.CallAlone.{call_alone};

use crate::field_access::{number_at, signed_at, take_bytes};
use crate::in_limits::in_limits;
use process_model::{Call, LONGEST_COPY, is_width};
use script_language::{Cause, FieldValue, Keyword, ListedCall, ThreadItem};
use std::alloc::Global;

/// Returns the item of a call that borrows nothing. Inlined, as `load` and `store` are.
#[inline(always)]
pub fn one(call: Call<'static>) -> ThreadItem
    ensures { result ≡ words.one call.entry }
{
    ThreadItem::Call(ListedCall::One(call))
}

/// Makes the item of `load ADDRESS WIDTH`.
///
/// # Errors
/// `Limits`, exactly when WIDTH is none of 1, 2, 4 and 8 bytes.
#[inline(always)]
pub fn load(address: u64, width: u64) -> Result<ThreadItem, Cause>
    ensures { result ≡ in_limits (bytes.is_width width) (words.one (call.Load address width)) }
{
    if !is_width(width) {
        return Err(Cause::Limits);
    }
    Ok(one(Call::Load { address, width }))
}

/// Makes the item of `store ADDRESS WIDTH VALUE`.
///
/// # Errors
/// `Limits`, exactly when WIDTH is none of 1, 2, 4 and 8 bytes.
#[inline(always)]
pub fn store(address: u64, width: u64, value: u64) -> Result<ThreadItem, Cause>
    ensures { result ≡ in_limits (bytes.is_width width) (words.one (call.Store address width value)) }
{
    if !is_width(width) {
        return Err(Cause::Limits);
    }
    Ok(one(Call::Store {
        address,
        width,
        value,
    }))
}

/// Makes the item of `copyin ADDRESS COUNT`.
///
/// # Errors
/// `Limits`, exactly when COUNT is above `LONGEST_COPY` bytes.
pub fn copy_in(address: u64, count: usize) -> Result<ThreadItem, Cause>
    ensures { result ≡ in_limits (nat_le count LONGEST_COPY) (words.one (call.CopyIn address count)) }
{
    in_limits(count <= LONGEST_COPY, one(Call::CopyIn { address, count }))
}

/// Makes the item of `copyout ADDRESS HEX`.
///
/// # Errors
/// `Limits`, exactly when HEX has more than `LONGEST_COPY` bytes.
pub fn copy_out(alloc: Global, values: Vec<FieldValue>) -> Result<ThreadItem, Cause>
    ensures { result ≡ call_alone Keyword.CopyOut values.items }
{
    let address = number_at(&values, 0);
    let bytes = take_bytes(alloc, values, 1);
    let within = bytes.as_slice().len() <= LONGEST_COPY;
    let call = ListedCall::CopyOut { address, bytes };
    in_limits(within, ThreadItem::Call(call))
}

/// Makes the item of `exit STATUS`.
///
/// # Errors
/// `Limits`, exactly when STATUS is below -2^31 or above 2^31 - 1.
pub fn exit(values: &[FieldValue]) -> Result<ThreadItem, Cause>
    ensures { result ≡ call_alone Keyword.Exit values.now }
{
    let Ok(status) = i32::try_from(signed_at(values, 0)) else {
        return Err(Cause::Limits);
    };
    Ok(one(Call::Exit { status }))
}
