// Functions that read a little-endian number of 2, 4 or 8 bytes at an offset, for the fields of ELF headers: `u16_at`,
// `u32_at`, `u64_at`.

ghost use Rattle.std.specs.Prelude.{◌≡◌, ◌≤◌, ◌+◌, length};
ghost use Rattle.process_model.specs.Images as model;

use byteorder::{ByteOrder, LittleEndian};

/// The little-endian number in the 2 bytes from `at` on.
pub(crate) fn u16_at(bytes: &[u8], at: usize) -> u16
    requires { at + 2 ≤ length bytes.now }
    ensures { result ≡ model.field bytes.now at 2 }
{
    let field = &bytes[at..];
    LittleEndian::read_u16(field)
}

/// The little-endian number in the 4 bytes from `at` on.
pub(crate) fn u32_at(bytes: &[u8], at: usize) -> u32
    requires { at + 4 ≤ length bytes.now }
    ensures { result ≡ model.field bytes.now at 4 }
{
    let field = &bytes[at..];
    LittleEndian::read_u32(field)
}

/// The little-endian number in the 8 bytes from `at` on.
pub(crate) fn u64_at(bytes: &[u8], at: usize) -> u64
    requires { at + 8 ≤ length bytes.now }
    ensures { result ≡ model.field bytes.now at 8 }
{
    let field = &bytes[at..];
    LittleEndian::read_u64(field)
}
