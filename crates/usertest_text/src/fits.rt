// `fits`: whether an answer is what the generator of a script predicts.

use crate::table::word;
use usertest_rows::Expected;

/// Returns the number that these decimal digits write; `None` if they write none.
fn number_of(digits: &[u8]) -> Option<u64> {
    std::str::from_utf8(digits).ok()?.parse::<u64>().ok()
}

/// Returns whether the first words of a text are these.
fn begins_with(text: &[u8], words: &[u8]) -> bool {
    match text.strip_prefix(words) {
        Some([]) | Some([b' ', ..]) => true,
        _ => false,
    }
}

/// Returns whether an answer is what the generator predicts. Only a declaration has none.
pub fn fits(answer: &[u8], expected: &Expected) -> bool {
    match expected {
        Expected::Nothing => answer.is_empty(),
        Expected::Any => !answer.is_empty(),
        Expected::Begins(words) => begins_with(answer, words.as_str().as_bytes()),
        Expected::Short(count) => {
            word(answer, 0) == b"short".as_slice() && number_of(word(answer, 4)) == Some(*count)
        }
    }
}
