// `Dump`: physical memory from a page on, as the bytes of a file, and the words in it.

ghost use Rattle.std.specs.Int.{from_le_bytes, w64};
ghost use Rattle.std.specs.Prelude.{◌≡◌, ◌<◌, length};
ghost use Rattle.table_dumps.specs.Dumps.{dump_memory, has_pages};

use std::marker::Model;
use sv39_entry::PAGE_SIZE;

/// Physical memory from the page with physical page number `base` on: its bytes, the first of that page first. What is below, or past
/// the last byte, is outside the memory.
#[derive(Drop)]
pub struct Dump<'a> {
    base: u64,
    bytes: &'a [u8],
}

/// Contracts see the page number of the first byte, and the bytes.
impl<'a> Model for Dump<'a> {
    ghost use Rattle.table_dumps.specs.Dumps.{Dumped};

    ghost Value = { Dumped };

    ghost view = { λ dump. record { base = dump.base; bytes = dump.bytes.now } };
}

/// Returns the little-endian word of eight bytes.
fn whole_word(bytes: &[u8]) -> u64
    requires { length bytes.now ≡ 8 }
    ensures { result ≡ from_le_bytes w64 bytes.now }
{
    let mut word = [0; 8];
    word.copy_from_slice(bytes);
    u64::from_le_bytes(word)
}

impl<'a> Dump<'a> {
    /// Returns the memory that has these bytes from the page with physical page number `base` on.
    pub fn new(base: u64, bytes: &'a [u8]) -> Dump<'a>
        ensures base { result.base ≡ base }
        ensures bytes { result.bytes ≡ bytes.now }
    {
        Dump { base, bytes }
    }

    /// Returns the physical page number of the first byte.
    pub fn base(&self) -> u64
        ensures { result ≡ self.now.base }
    {
        self.base
    }

    /// Returns how many bytes there are.
    pub fn len(&self) -> usize
        ensures { result ≡ length self.now.bytes }
    {
        self.bytes.len()
    }

    /// Whether all of `count` pages from the one with physical page number `ppn` on are inside the memory.
    pub fn has_pages(&self, ppn: u64, count: u64) -> bool
        ensures { result ≡ has_pages self.now ppn count }
    {
        let Some(page) = ppn.checked_sub(self.base) else {
            return false;
        };
        let whole = self.bytes.len() as u64 / PAGE_SIZE;
        page <= whole && count <= whole - page
    }

    /// Returns the 64-bit word, little-endian, at an index, 0 to 511, of the page with physical page number `ppn`; `None` if one of its bytes
    /// is outside the memory.
    pub fn word(&self, ppn: u64, index: usize) -> Option<u64>
        requires in_page { index < 512 }
        ensures word { result ≡ dump_memory self.now ppn index }
    {
        let page = ppn.checked_sub(self.base)?;
        if page > self.bytes.len() as u64 / PAGE_SIZE {
            return None;
        }
        let start = page as usize * 4096 + index * 8;
        if start + 8 > self.bytes.len() {
            return None;
        }
        Some(whole_word(&self.bytes[start..start + 8]))
    }
}
