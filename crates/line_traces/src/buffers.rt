// `buffer_of`: the entries of a hart's TLB.

use hart_machine::Machine;
use std::alloc::{AllocError, Global};
use walk_lines::BufferLine;

/// Returns the entries of a hart's buffer, the oldest first; none if there is no such hart.
///
/// # Errors
/// `AllocError`: the host is out of memory.
pub fn buffer_of(
    alloc: Global,
    machine: &Machine,
    hart: usize,
) -> Result<Vec<BufferLine>, AllocError> {
    let mut lines = Vec::new(alloc);
    let Some(buffer) = machine.buffer(hart) else {
        return Ok(lines);
    };
    for number in 0..buffer.len() {
        if let Some(entry) = buffer.entry(number) {
            lines.push(BufferLine::of(number, entry))?;
        }
    }
    Ok(lines)
}
