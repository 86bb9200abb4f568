// `lend_lists`, `lend_starts`: make the 64 lists of calls and the starts of a run on threads from a parsed file for threads,
// whose images and bytes they borrow.

ghost use Rattle.std.specs.Prelude.{◌≡◌, ◌<◌, All, IfOk, List, length};
ghost use Rattle.hart_calls.specs.Track.{NameLists, NamesList};
ghost use Rattle.script_language.specs.declared.declarations.CallList.{CallList};
ghost use Rattle.script_reader.specs.ThreadsPlayable.{IsDeclaredLine, IsThreadPlayable};
ghost use Rattle.audit_player.specs.ThreadLists.{AreCallsOf, AreFew, AreListsOf, AreStartsOf, IsCallOf, lines_of};

use crate::commands::lend;
use process_model::{Call, Sequence, Start};
use script_language::{ListedCall, MOST_LISTS, OwnedImage};
use script_reader::ThreadScript;
use std::alloc::{AllocError, Global};

/// The call that a line declares, with the image or the bytes borrowed.
fn lend_call<'a>(images: &'a [OwnedImage], call: &'a ListedCall) -> Call<'a>
    requires declared { (lists : List CallList) × IsDeclaredLine images.now lists call.now × AreFew lists }
    ensures there { NamesList MOST_LISTS result }
    ensures is { IsCallOf images.now call.now result }
{
    match call {
        ListedCall::One(call) => *call,
        ListedCall::Exec { image } => Call::Exec {
            image: lend(&images[*image]),
        },
        ListedCall::CopyOut { address, bytes } => Call::CopyOut {
            address: *address,
            bytes: bytes.as_slice(),
        },
    }
}

/// The calls that the lines of a list declare.
fn lend_list<'a>(
    alloc: Global,
    images: &'a [OwnedImage],
    calls: &'a [ListedCall],
) -> Result<Sequence<Call<'a>>, AllocError>
    requires declared { (lists : List CallList) × All (IsDeclaredLine images.now lists) calls.now × AreFew lists }
    ensures there { IfOk result (λ list. All (NamesList MOST_LISTS) list) }
    ensures are { IfOk result (λ list. AreCallsOf images.now calls.now list) }
{
    let mut list = Vec::with_capacity(alloc, calls.len())?;
    'calls: for call in calls {
        list.push_reserved(lend_call(images, call));
    }
    Ok(Sequence::from_vec(list))
}

/// The lines of the list of this number; none if the file has no such list.
fn calls_of(script: &ThreadScript, number: usize) -> &[ListedCall]
    requires playable { IsThreadPlayable script.now }
    ensures declared { All (IsDeclaredLine script.now.images script.now.lists) result.now }
    ensures is { result.now ≡ lines_of script.now.lists number }
{
    match script.calls(number) {
        Some(calls) => calls,
        None => &[],
    }
}

/// Returns `MOST_LISTS` lists of calls; the index is the list's number. A number that no list of the file has gets a list of no calls.
/// Each fork in them names a list below 64. The file must be playable, as one that `ThreadScript::read` returns is.
///
/// # Errors
/// `AllocError`: host memory was refused.
pub fn lend_lists<'a>(
    alloc: Global,
    script: &'a ThreadScript,
) -> Result<Vec<Sequence<Call<'a>>>, AllocError>
    requires playable { IsThreadPlayable script.now }
    ensures all { IfOk result (λ lists. length lists.items ≡ MOST_LISTS) }
    ensures there { IfOk result (λ lists. NameLists lists.items) }
    ensures are { IfOk result (λ lists. AreListsOf script.now.images script.now.lists lists.items) }
{
    let images = script.images();
    let mut lists = Vec::with_capacity(alloc, MOST_LISTS)?;
    'numbers: for number in 0..MOST_LISTS {
        lists.push_reserved(lend_list(alloc, images, calls_of(script, number))?);
    }
    Ok(lists)
}

/// Returns the processes to start, in the order of the file: for each its image and the number of its list, below 64. The
/// file must be playable, as one that `ThreadScript::read` returns is.
///
/// # Errors
/// `AllocError`: host memory was refused.
pub fn lend_starts<'a>(
    alloc: Global,
    script: &'a ThreadScript,
) -> Result<Vec<Start<'a>>, AllocError>
    requires playable { IsThreadPlayable script.now }
    ensures all { IfOk result (λ starts. length starts.items ≡ length script.now.starts) }
    ensures there { IfOk result (λ starts. All (λ start. start.list < MOST_LISTS) starts.items) }
    ensures are { IfOk result (λ starts. AreStartsOf script.now.images script.now.starts starts.items) }
{
    let images = script.images();
    let mut starts = Vec::with_capacity(alloc, script.starts().len())?;
    'starts: for start in script.starts() {
        starts.push_reserved(Start {
            image: lend(&images[start.image]),
            list: start.list,
        });
    }
    Ok(starts)
}
