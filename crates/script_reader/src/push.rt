// `push`: appends an item to a list, with `AllocError` as the only error.

ghost use Rattle.std.specs.Prelude.{◌≡◌, ◌++◌, ◌∷◌, [], OnOk, OnErr};

use std::alloc::AllocError;

/// Appends an item to a list.
///
/// # Errors
/// `AllocError`: host memory was refused; the list is unchanged.
pub fn push<T: Drop>(list: &mut Vec<T>, item: T) -> Result<(), AllocError>
    ensures pushed { OnOk result (list.new.items ≡ list.old.items ++ item ∷ []) }
    ensures kept { OnErr result (list.new.items ≡ list.old.items) }
{
    let Ok(()) = list.push(item) else {
        return Err(AllocError);
    };
    Ok(())
}
