// Functions that make little-endian 64-bit words of bytes: `whole_word` of eight, `word_at` of eight of a longer slice;
// `put_words` writes all whole words of a slice to the start of a slice of words.

ghost use Rattle.std.specs.Int.{from_le_bytes, w64};
ghost use Rattle.std.specs.Prelude.{◌≡◌, ◌+◌, ◌*◌, ◌/◌, ◌<◌, ◌≤◌, ℕ, drop, length, slice_index, take};

/// Returns the little-endian word of eight bytes.
pub fn whole_word(bytes: &[u8]) -> u64
    requires { length bytes.now ≡ 8 }
    ensures { result ≡ from_le_bytes w64 bytes.now }
{
    let mut word = [0; 8];
    word.copy_from_slice(bytes);
    u64::from_le_bytes(word)
}

/// Returns the little-endian word of the eight bytes that begin at `8 * index`.
pub(crate) fn word_at(bytes: &[u8], index: usize) -> u64
    requires { 8 * index + 8 ≤ length bytes.now }
    ensures { result ≡ from_le_bytes w64 (take 8 (drop (8 * index) bytes.now)) }
{
    let start = 8 * index;
    whole_word(&bytes[start..start + 8])
}

/// Writes the bytes as little-endian words to the start of `words`; the other words stay. Bytes after the last whole word
/// are left out.
pub(crate) fn put_words(words: &mut [u64], bytes: &[u8])
    requires { length bytes.now / 8 ≤ length words.old }
    ensures len { length words.new ≡ length words.old }
    ensures front { (i : ℕ) → i < length bytes.now / 8 → slice_index words.new i ≡ from_le_bytes w64 (take 8 (drop (8 * i) bytes.now)) }
    ensures behind { (i : ℕ) → length bytes.now / 8 ≤ i → slice_index words.new i ≡ slice_index words.old i }
{
    for index in 0..bytes.len() / 8 {
        words[index] = word_at(bytes, index);
    }
}
