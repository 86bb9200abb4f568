// `Answer`: how a line was answered otherwise than by plain success; read from the text of its answer.

use script_reader::{first_field, number};

/// How a line was answered otherwise than by plain success. Numbers are those of the answer's text.
#[derive(Clone, Copy)]
pub enum Answer {
    /// A step was refused, by the refusal of this number.
    Refused(u64),
    /// An access faulted.
    Fault,
    /// The process was ended, by the rule of this number.
    Ended(u64),
    /// A kernel copy stopped, by the rule of this number, after so many bytes.
    Short(u64, u64),
}

/// The word with which an answer begins that is no plain success.
#[derive(Clone, Copy)]
enum Word {
    Refused,
    Fault,
    Ended,
    Short,
}

/// These words.
static WORDS: [(&[u8], Word); 4] = [
    (b"refused", Word::Refused),
    (b"fault", Word::Fault),
    (b"ended", Word::Ended),
    (b"short", Word::Short),
];

/// Returns the word that a text is; `None` if it is none of them.
fn word_of(text: &[u8]) -> Option<Word> {
    for (word, it) in WORDS.as_slice() {
        if *word == text {
            return Some(*it);
        }
    }
    None
}

/// Returns the number that the field of a text at a place is, from 0 on; 0 if it is none.
fn number_at(text: &[u8], place: usize) -> u64 {
    let mut rest = text;
    'fields: for _ in 0..place {
        match first_field(rest) {
            Some((_, after)) => rest = after,
            None => return 0,
        }
    }
    match first_field(rest) {
        Some((field, _)) => number(field).unwrap_or(0),
        None => 0,
    }
}

impl Answer {
    /// Returns how a line was answered whose answer is this text; `None` if that is plain success.
    pub fn of(text: &[u8]) -> Option<Answer> {
        let (field, _) = first_field(text)?;
        match word_of(field)? {
            Word::Refused => Some(Answer::Refused(number_at(text, 1))),
            Word::Fault => Some(Answer::Fault),
            Word::Ended => Some(Answer::Ended(number_at(text, 1))),
            // `short RULE NAME done COUNT ..`
            Word::Short => Some(Answer::Short(number_at(text, 1), number_at(text, 4))),
        }
    }
}
