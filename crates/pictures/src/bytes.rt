// `bytes_at`: eight bytes of a frame.

ghost use Rattle.std.specs.Prelude.{◌≡◌, ◌/◌, ◌%◌, option_map};
ghost use Rattle.std.specs.Int.{to_le_bytes, w64};
ghost use Rattle.table_walk.specs.Memory.{plain_memory};

use hart_machine::Machine;
use sv39_entry::PAGE_SIZE;
use table_walk::Words;

/// Returns the eight bytes of a frame, by its physical page number, among which there is that of an address; `None` if the frame is
/// outside the memory. Their order is that of their addresses, as the memory is little-endian.
pub fn bytes_at(machine: &Machine, ppn: u64, address: u64) -> Option<[u8; 8]>
    ensures { result ≡ option_map (to_le_bytes w64) (plain_memory machine.now.frames.words ppn (address % 4096 / 8)) }
{
    let mut words = machine.words();
    match words.word(ppn, (address % PAGE_SIZE / 8) as usize) {
        Some(word) => Some(word.to_le_bytes()),
        None => None,
    }
}
