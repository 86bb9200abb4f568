// `NameBuffer` (struct): host memory for the name of a start, one number, which `fill` writes; `name_rooms` allocates one
// for each start of a run before any start is made.

ghost use Rattle.std.specs.Prelude.{◌≡◌, ◌<◌, ◌∷◌, [], IfOk, vec_len, vec_capacity};

use std::alloc::{AllocError, Global};

/// Memory for a name of one number, which is not written yet.
#[derive(Drop)]
pub struct NameBuffer {
    name: Vec<u64>,
    ghost empty: { name.items ≡ [] },
    ghost room: { vec_len name < vec_capacity name },
}

impl NameBuffer {
    fn new(alloc: Global) -> Result<NameBuffer, AllocError> {
        let name = Vec::with_capacity(alloc, 1)?;
        Ok(NameBuffer { name })
    }

    /// Writes the name of a start, which is its number alone.
    pub(crate) fn fill(self, number: u64) -> Vec<u64>
        ensures { result.items ≡ number ∷ [] }
    {
        let NameBuffer { mut name } = self;
        name.push_reserved(number);
        name
    }
}

/// Allocates `count` name buffers.
///
/// # Errors
/// `AllocError`: the host is out of memory.
pub fn name_rooms(alloc: Global, count: usize) -> Result<Vec<NameBuffer>, AllocError>
    ensures { IfOk result (λ rooms. vec_len rooms ≡ count) }
{
    let mut rooms = Vec::new(alloc);
    'rooms: for _ in 0..count {
        rooms.push(NameBuffer::new(alloc)?)?;
    }
    Ok(rooms)
}
